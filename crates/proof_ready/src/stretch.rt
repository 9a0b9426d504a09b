//! A machine in which a stretch may begin, by its transcript.

ghost use Rattle.std.specs.Prelude.{◌≡◌, ◌++◌, false, true, List, ℕ};
ghost use Rattle.chip_sim.specs.Nodes.{is_marked};
ghost use Rattle.s0_crypto.specs.declared.key_pair.Keys.{Keys};
ghost use Rattle.zw_text.specs.declared.entry.Entry.{Entry};
ghost use Rattle.law_wire.specs.law_transcript.Nodes.{always, listing_of};
ghost use Rattle.law_time.specs.Calm.{IsStill};
ghost use Rattle.law_time.specs.Stretches.{is_quiet, lists_a_layer, lists_security, workers};
ghost use Rattle.proof_ready.specs.Ease.{
  AfterLines,
  AreToReach,
  clock_of,
};
ghost use Rattle.proof_chip.specs.proof_line.proof_traffic.OutsideTraffic.{AreNodes};
ghost use Rattle.proof_in_time.specs.proof_answered.Workers.{IsWorkedFor};
ghost use Rattle.proof_in_time.specs.Coming.{IsReadyFor};
ghost use Rattle.proof_in_time.specs.InStep.{ArePlainOver};
ghost use Rattle.proof_in_time.specs.LockNodes.{IsLockNode};
ghost use Rattle.proof_in_time.specs.Locked.{IsReadyLocked};
ghost use Rattle.proof_in_time.specs.Open.{IsReadyOpenly};
ghost use Rattle.proof_in_time.specs.Openly.{IsOpenOver};
ghost use Rattle.proof_in_time.specs.Plainly.{SpeakPlainly};
ghost use Rattle.proof_rests.specs.proof_attempts.proof_host.device_sim.State.{State};
ghost use Rattle.proof_rests.specs.world_lines.Spoken.{Spoken};
ghost use Rattle.proof_rests.specs.world_lines.Done.{events_of};
ghost use Rattle.proof_in_time.specs.Stretch.{IsLockStretchFor, IsOpenStretchFor, IsStretchFor};
ghost use Rattle.proof_ready.specs.Stretch.{IsStretchByText, at_work, told_before, told_in};
ghost use Rattle.proof_ready.specs.Ready.{AreFit, AreKnown, AreUp, AreWorkers, ListPlainly, MachineIsReady, OneHears, marks_of};

use crate::accepting::orders_are_let_in;
use crate::air::{calm_air_is_empty, calm_machines_have_few_frames};
use crate::chip::calm_chips_rest;
use crate::host::calm_hosts_are_done;
use crate::known::{
    devices_are_the_same, hosts_know_what_devices_list, listeners_are_there, sleepers_are_there,
    workers_are_known,
};
use crate::nodes::{hosts_know_their_members, joined_nodes_are_there, nodes_are_still};
use crate::pipes::calm_hosts_have_heard_all;
use crate::ready::{hosts_are_ready, sleepers_are_asleep};
use crate::tied::calm_requests_are_tied;
use proof_in_time::{
    commands_go_sealed, listeners_hear, locks_as_made_begin_courses, nodes_are_plain_by_kind,
    nodes_are_woken_last, orders_go_unsealed,
};

/// Where all is still by the transcript, these are the nodes for which a command waits, each of these is known and plain, and all of them listen or one sleeps,
/// the machine is ready for these.
pub fn machines_are_ready()
    ensures { AfterLines (λ devices past m. AreUp devices → (listing : List Entry → ℕ → List ℕ) → IsStill listing m.outside.devices past (clock_of past) →
        (nodes : List ℕ) → AreWorkers (marks_of nodes) past → AreKnown (marks_of nodes) devices past → MachineIsReady (marks_of nodes) m) }
{
    calm_air_is_empty();
    calm_chips_rest();
    calm_hosts_are_done();
    calm_hosts_have_heard_all();
    hosts_are_ready();
    joined_nodes_are_there();
    listeners_are_there();
    sleepers_are_asleep();
    sleepers_are_there();
}

/// So it is for the nodes at work in a stretch that is quiet and for plain ones, with the devices as they are then.
pub fn still_machines_are_ready()
    ensures { AfterLines (λ devices past m. AreUp devices → IsStill (always (listing_of m.outside.devices)) m.outside.devices past (clock_of past) →
        (key : List ℕ) (stretch : List Entry) → is_quiet key m.outside.devices past stretch ≡ true →
        AreFit m.outside.devices past stretch → MachineIsReady (marks_of (workers past stretch)) m) }
{
    machines_are_ready();
    workers_are_known();
}

/// So a stretch may begin there for these nodes, where they can be reached by the transcript: for ones that list neither Transport Service nor Security 0
/// (`whole`), and for one alone that listens, and lists Transport Service and not Security 0 (`openly`), or Security 0 (`sealed`).
pub fn stretches_may_begin()
    ensures whole { AfterLines (λ devices past m. AreNodes devices → AreUp devices →
        IsStill (always (listing_of m.outside.devices)) m.outside.devices past (clock_of past) → (key : List ℕ) (stretch : List Entry) →
        is_quiet key m.outside.devices past stretch ≡ true → AreFit m.outside.devices past stretch →
        AreToReach (marks_of (workers past stretch)) devices past → ListPlainly (marks_of (workers past stretch)) devices →
        IsReadyFor (marks_of (workers past stretch)) m × SpeakPlainly (marks_of (workers past stretch)) m) }
    ensures openly { AfterLines (λ devices past m. AreNodes devices → AreUp devices →
        IsStill (always (listing_of m.outside.devices)) m.outside.devices past (clock_of past) → (key : List ℕ) (stretch : List Entry) →
        is_quiet key m.outside.devices past stretch ≡ true → AreFit m.outside.devices past stretch →
        AreToReach (marks_of (workers past stretch)) devices past → (one : OneHears (marks_of (workers past stretch)) past) →
        lists_a_layer devices one.node ≡ true → lists_security devices one.node ≡ false → IsReadyOpenly (marks_of (workers past stretch)) m) }
    ensures sealed { AfterLines (λ devices past m. AreNodes devices → AreUp devices →
        IsStill (always (listing_of m.outside.devices)) m.outside.devices past (clock_of past) → (key : List ℕ) (stretch : List Entry) →
        is_quiet key m.outside.devices past stretch ≡ true → AreFit m.outside.devices past stretch →
        AreToReach (marks_of (workers past stretch)) devices past → (one : OneHears (marks_of (workers past stretch)) past) →
        lists_security devices one.node ≡ true → IsReadyLocked (marks_of (workers past stretch)) m) }
{
    calm_chips_rest();
    calm_hosts_are_done();
    calm_machines_have_few_frames();
    calm_requests_are_tied();
    commands_go_sealed();
    devices_are_the_same();
    hosts_know_their_members();
    hosts_know_what_devices_list();
    joined_nodes_are_there();
    listeners_are_there();
    orders_go_unsealed();
    still_machines_are_ready();
    workers_are_known();
}

/// The lines of such a stretch are for the nodes at work in it: none wakes a node, but the one that sleeps, once, after its orders; and each order that is
/// accepted is for one of these.
pub fn stretches_are_for_their_workers()
    ensures { (key : List ℕ) (keys : Keys) (devices : List State) (before lines : List Spoken) → IsStretchByText key keys devices before lines →
        IsWorkedFor (at_work keys devices before lines) (told_in keys devices before lines) }
{
    joined_nodes_are_there();
    nodes_are_still();
    nodes_are_woken_last();
    orders_are_let_in();
    workers_are_known();
}

/// And where the device of one lists no Security 0, it takes commands in sessions, not sealed, as it was at first, and so do the orders for it go, in all these
/// lines (`openly`); where all of these list neither Transport Service nor Security 0, they take them at once (`whole`). One that lists Security 0 is a lock
/// (`sealed`).
pub fn workers_are_plain()
    ensures openly { (key : List ℕ) (keys : Keys) (devices : List State) (before lines : List Spoken) → IsStretchByText key keys devices before lines →
        (n : ℕ) → is_marked (at_work keys devices before lines) n ≡ true → lists_security devices n ≡ false →
        IsOpenOver devices (events_of (before ++ lines)) n }
    ensures whole { (key : List ℕ) (keys : Keys) (devices : List State) (before lines : List Spoken) → IsStretchByText key keys devices before lines →
        ListPlainly (at_work keys devices before lines) devices → ArePlainOver (at_work keys devices before lines) devices (events_of (before ++ lines)) }
    ensures sealed { (key : List ℕ) (keys : Keys) (devices : List State) (before lines : List Spoken) → IsStretchByText key keys devices before lines →
        (n : ℕ) → is_marked (at_work keys devices before lines) n ≡ true → lists_security devices n ≡ true → IsLockNode keys devices n }
{
    devices_are_the_same();
    joined_nodes_are_there();
    locks_as_made_begin_courses();
    nodes_are_plain_by_kind();
    orders_are_let_in();
    workers_are_known();
}

/// So such lines are a stretch for the nodes at work in them, as that is assumed where each command has its outcome in time: for plain ones (`IsStretchFor`),
/// or for one alone that listens, and takes segments (`IsOpenStretchFor`), or is a lock (`IsLockStretchFor`).
pub fn still_stretches_begin()
    ensures whole { (key : List ℕ) (keys : Keys) (devices : List State) (before lines : List Spoken) → IsStretchByText key keys devices before lines →
        ListPlainly (at_work keys devices before lines) devices → IsStretchFor (at_work keys devices before lines) keys devices before lines }
    ensures openly { (key : List ℕ) (keys : Keys) (devices : List State) (before lines : List Spoken) → IsStretchByText key keys devices before lines →
        (one : OneHears (at_work keys devices before lines) (told_before keys devices before)) →
        lists_a_layer devices one.node ≡ true → lists_security devices one.node ≡ false →
        IsOpenStretchFor (at_work keys devices before lines) keys devices before lines }
    ensures sealed { (key : List ℕ) (keys : Keys) (devices : List State) (before lines : List Spoken) → IsStretchByText key keys devices before lines →
        (one : OneHears (at_work keys devices before lines) (told_before keys devices before)) →
        lists_security devices one.node ≡ true → IsLockStretchFor (at_work keys devices before lines) keys devices before lines }
{
    devices_are_the_same();
    joined_nodes_are_there();
    listeners_hear();
    still_machines_are_ready();
    stretches_are_for_their_workers();
    stretches_may_begin();
    workers_are_known();
    workers_are_plain();
}
