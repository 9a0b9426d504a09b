//! How the orders for plain nodes go, and which nodes are plain.

ghost use Rattle.std.specs.Prelude.{◌≡◌, ◌<◌, Bool, List, Some, [], true, ℕ};
ghost use Rattle.std.specs.List.{AllByRecursion};
ghost use Rattle.s0_crypto.specs.declared.key_pair.Keys.{Keys};
ghost use Rattle.chip_sim.specs.Nodes.{is_marked};
ghost use Rattle.law_transcript.specs.Commands.{classes_for};
ghost use Rattle.law_transcript.specs.Headline.{IsAsMade};
ghost use Rattle.law_transcript.specs.Lists.{Has};
ghost use Rattle.law_transcript.specs.Nodes.{always, listing_of};
ghost use Rattle.law_time.specs.Stretches.{is_open};
ghost use Rattle.host_orders.specs.Classes.{lists};
ghost use Rattle.device_sim.specs.State.{State};
ghost use Rattle.world_model.specs.State.{first_machine};
ghost use Rattle.world_lines.specs.Spoken.{Spoken, after_all, transcript_of};
ghost use Rattle.world_lines.specs.Done.{AreDone, events_of};
ghost use Rattle.proof_course_plain.specs.World.{OrdersPlain};
ghost use Rattle.proof_host.specs.Laws.{numbers_for};
ghost use Rattle.proof_answered.specs.Few.{AreIdle};
ghost use Rattle.proof_in_time.specs.Exchanging.{GoSealed};
ghost use Rattle.proof_in_time.specs.Coming.{GoWhole, ListOpenly};
ghost use Rattle.proof_in_time.specs.InStep.{AreOpenByKind, ArePlainByKind, ArePlainOver};
ghost use Rattle.proof_in_time.specs.Openly.{GoOpenly, IsOpenOver, ListUnsealed};

use proof_course_plain::{
    devices_follow_the_course, idle_devices_stay_idle, laws_follow, lines_ask_plainly,
};
use proof_host::asides_keep_facts;
use proof_spoken::{
    answers_stand_after_their_lines, interviews_give_what_is_known,
    interviews_tell_what_nodes_list, lines_keep_and_ask_well, lines_tell_what_nodes_list,
    orders_are_carried_as_said, restarts_go_on, the_machine_keeps_facts,
};

/// Over any lines from the first machine on, the last of which an allocation failure may have cut short, and however often the host starts again: where the
/// devices of some nodes list neither Security 0 nor Transport Service, each command that was ever accepted for one of these goes whole and unsealed, and so
/// does each order. For the host takes no such node to list one of the two, and refuses an order for it whose message has no room in one payload. And where
/// they do not list Security 0, each goes unsealed, whole or in segments.
pub fn orders_go_unsealed()
    ensures whole { (these : List Bool) (keys : Keys) (devices : List State) (lines : List Spoken) → ListOpenly these devices →
        AreDone (first_machine keys (Some []) devices) lines →
        GoWhole these (after_all (first_machine keys (Some []) devices) lines).host.state.commands ×
        ((n : ℕ) → is_marked these n ≡ true → AllByRecursion (OrdersPlain n) (events_of lines)) }
    ensures openly { (these : List Bool) (keys : Keys) (devices : List State) (lines : List Spoken) → ListUnsealed these devices →
        AreDone (first_machine keys (Some []) devices) lines →
        GoOpenly these (after_all (first_machine keys (Some []) devices) lines).host.state.commands ×
        ((n : ℕ) → is_marked these n ≡ true → AllByRecursion (OrdersPlain n) (events_of lines)) }
{
    interviews_give_what_is_known();
    interviews_tell_what_nodes_list();
    lines_ask_plainly();
    lines_keep_and_ask_well();
    restarts_go_on();
    the_machine_keeps_facts();
}

/// Where the device of a node lists Security 0, and the host knew so as it accepted each command of the node that is not over, each of these that waits or
/// whose session is open goes sealed.
pub fn commands_go_sealed()
    ensures { (these : List Bool) (n : ℕ) (keys : Keys) (devices : List State) (lines : List Spoken) → is_marked these n ≡ true → n < 233 →
        AreDone (first_machine keys (Some []) devices) lines → lists (listing_of devices n) 0x98 ≡ true →
        ((number : ℕ) → Has (numbers_for n (transcript_of (first_machine keys (Some []) devices) lines)) number →
        is_open (transcript_of (first_machine keys (Some []) devices) lines) number ≡ true →
        classes_for (always (listing_of devices)) (transcript_of (first_machine keys (Some []) devices) lines) n number ≡ listing_of devices n) →
        GoSealed n (after_all (first_machine keys (Some []) devices) lines).host.state }
{
    answers_stand_after_their_lines();
    asides_keep_facts();
    interviews_give_what_is_known();
    laws_follow();
    lines_ask_plainly();
    lines_keep_and_ask_well();
    lines_tell_what_nodes_list();
    orders_are_carried_as_said();
    restarts_go_on();
    the_machine_keeps_facts();
}

/// So nodes whose devices are of kinds that take commands in sessions, not sealed, whole, are what `nodes_stay_in_step` asks of nodes, over any lines, where
/// all devices are as their makers left them. Where they take commands in sessions, not sealed, in segments too, they are what its `openly` asks of nodes.
/// All are at no work.
pub fn nodes_are_plain_by_kind()
    ensures plain { (these : List Bool) (key : List ℕ) (keys : Keys) (devices : List State) (lines : List Spoken) →
        AllByRecursion (IsAsMade key) devices → ArePlainByKind these devices → AreDone (first_machine keys (Some []) devices) lines →
        ArePlainOver these devices (events_of lines) }
    ensures openly { (these : List Bool) (key : List ℕ) (keys : Keys) (devices : List State) (lines : List Spoken) →
        AllByRecursion (IsAsMade key) devices → AreOpenByKind these devices → AreDone (first_machine keys (Some []) devices) lines →
        (n : ℕ) → n < 233 → is_marked these n ≡ true → IsOpenOver devices (events_of lines) n }
    ensures idle { (key : List ℕ) (devices : List State) → AllByRecursion (IsAsMade key) devices → AreIdle devices }
{
    devices_follow_the_course();
    idle_devices_stay_idle();
    orders_go_unsealed();
}
