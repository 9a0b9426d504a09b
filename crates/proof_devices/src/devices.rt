//! The life of each device, at each phase of a line.

ghost use Rattle.std.specs.Prelude.{◌≡◌, ◌≢◌, ◌≤◌, Option, Some, List, [], ◌∷◌, ℕ, ◌++◌, length, is_some};
ghost use Rattle.std.specs.List.{AllByRecursion};
ghost use Rattle.law_transcript.specs.Devices.{ComingAt, RanAsShown};
ghost use Rattle.law_transcript.specs.Nodes.{controller, device_of};
ghost use Rattle.law_wire.specs.Arriving.{is_awake, lived_through};
ghost use Rattle.law_wire.specs.Doings.{DoesAtOnce};
ghost use Rattle.law_wire.specs.Halted.{RanAsFar};
ghost use Rattle.mesh_sim.specs.Fates.{listener_of};
ghost use Rattle.outside_model.specs.Events.{ticked_entry};
ghost use Rattle.s0_crypto.specs.declared.key_pair.Keys.{Keys};
ghost use Rattle.device_sim.specs.State.{State};
ghost use Rattle.zw_text.specs.declared.entry.Entry.{Entry};
ghost use Rattle.zw_text.specs.declared.line.Line.TheVariants.{Repeat};
ghost use Rattle.world_model.specs.State.{Machine, first_machine};
ghost use Rattle.world_model.specs.Events.{Event};
ghost use Rattle.proof_air.specs.proof_walk.Phases.{Between, Doing, Arriving};
ghost use Rattle.proof_air.specs.proof_walk.Walk.{WalkOver, both_know};
ghost use Rattle.proof_air.specs.proof_walk.Time.{KnowTime};
ghost use Rattle.proof_air.specs.Hearing.{KnowAir};
ghost use Rattle.world_lines.specs.Spoken.{Spoken, after_all, transcript_of};
ghost use Rattle.world_lines.specs.Done.{AreDone};
ghost use Rattle.world_lines.specs.Whole.{AreWhole};
ghost use Rattle.proof_air.specs.proof_device.Showing.{AreApart};
ghost use Rattle.proof_devices.specs.LastLine.{with_last};
ghost use Rattle.proof_devices.specs.Living.{MayAny, Acts, Lived, Rested, KnowDevices, AllLivedAsShown, IsNow};

use proof_air::{changes_are_shown, history_goes_on, time_goes_on};
use proof_routes::networks_go_on;

/// At each phase of a line, where the history of the air and time are known, the first device of each node but the controller's has had just what the
/// transcript shows to have come to it, in order, and has lived the ticks that have begun, but for the running one until its turn comes in that.
pub fn devices_live_on()
    ensures walk { (devices : List State) → WalkOver (both_know KnowAir KnowTime) MayAny (KnowDevices devices) }
    ensures first { (keys : Keys) (records : Option (List (List ℕ))) (devices : List State) →
        KnowDevices devices Between [] (first_machine keys records devices) }
    ensures tie { (devices : List State) (past : List Entry) (m : Machine) → KnowDevices devices Between past m → Rested devices past m }
{}

/// After lines that were all run whole, the first device of each node but the controller's is what it was at entry after events in which just that came to
/// it which the transcript shows, in order and each in its tick, and in which the ticks passed that lines ask for.
pub fn lines_live_as_shown()
    ensures { (keys : Keys) (records : Option (List (List ℕ))) (devices : List State) (lines : List Spoken) →
        AreDone (first_machine keys records devices) lines →
        AreWhole (first_machine keys records devices) lines →
        AllLivedAsShown devices (transcript_of (first_machine keys records devices) lines)
        (after_all (first_machine keys records devices) lines).outside.devices }
{
    history_goes_on();
    time_goes_on();
    devices_live_on();
}

/// After lines that were all run whole over a keeper that tells its records, where no two devices are of one node, the first device of each node but the
/// controller's went from its state at entry to that at exit by what the transcript shows and the ticks that lines ask for, in order; its changes are the
/// `dev` entries of its node, and what it replied since its node joined are the frames of the node.
pub fn lines_run_as_shown()
    ensures { (keys : Keys) (texts : List (List ℕ)) (devices : List State) (lines : List Spoken) →
        AreDone (first_machine keys (Some texts) devices) lines →
        AreWhole (first_machine keys (Some texts) devices) lines →
        AreApart devices →
        (node : ℕ) (old new : State) → node ≢ controller → device_of node devices ≡ Some old →
        device_of node (after_all (first_machine keys (Some texts) devices) lines).outside.devices ≡ Some new →
        RanAsShown node (transcript_of (first_machine keys (Some texts) devices) lines) old new }
{
    history_goes_on();
    time_goes_on();
    networks_go_on();
    changes_are_shown();
}

/// Over any lines from the first on, the last of which an allocation failure may have cut short, with at most one event of it that was not entered, over a
/// keeper that tells its records, where no two devices are of one node: the first device of each node but the controller's did what is shown before the
/// last line, and of that line a prefix of what is shown came to it, with what the event brings; its frames are a prefix of what it replied, and its
/// changes are those shown.
pub fn lines_run_as_far()
    ensures { (keys : Keys) (texts : List (List ℕ)) (devices : List State) (lines : List Spoken) (more : List Event) →
        AreDone (first_machine keys (Some texts) devices) lines →
        AreDone (first_machine keys (Some texts) devices) (with_last more lines) →
        length more ≤ 1 → AreApart devices →
        (node : ℕ) (old new : State) → node ≢ controller → device_of node devices ≡ Some old →
        device_of node (after_all (first_machine keys (Some texts) devices) (with_last more lines)).outside.devices ≡ Some new →
        RanAsFar node (transcript_of (first_machine keys (Some texts) devices) lines) old new }
{
    history_goes_on();
    time_goes_on();
    networks_go_on();
    changes_are_shown();
}

/// Over any lines from the first on, the last of which an allocation failure may have cut short, over a keeper that tells its records, where no two devices
/// are of one node and none is of the controller's: before each entry that shows no doing of a device, the first device of each node has done all that came
/// to it so far, and all that it did is shown.
pub fn devices_do_at_once()
    ensures { (keys : Keys) (texts : List (List ℕ)) (devices : List State) (lines : List Spoken) →
        AreDone (first_machine keys (Some texts) devices) lines →
        AreApart devices → AllByRecursion (λ device. device.node ≢ controller) devices →
        (node : ℕ) (old : State) → node ≢ controller → device_of node devices ≡ Some old →
        DoesAtOnce node old (transcript_of (first_machine keys (Some texts) devices) lines) }
{
    history_goes_on();
    time_goes_on();
    networks_go_on();
    changes_are_shown();
}

/// A device that has lived so is what the laws of the air take it to be, who know nothing of what it draws: the same, or a lock, which is as awake.
pub fn devices_are_as_shown()
    ensures { (ticks : ℕ) (came : List ComingAt) (old new : State) → Lived ticks came old new → IsNow (lived_through 0 ticks came old) new }
{}

/// Where a frame arrives, once the number of the tick is entered, and where one is to be repeated, directly after the words of the line, a node has a
/// device that is awake exactly where it has one by the transcript.
pub fn devices_listen_as_shown()
    ensures arriving { (devices : List State) (past : List Entry) (m : Machine) (frames ticks node : ℕ) → node ≢ controller →
        KnowDevices devices (Arriving frames ticks) past m →
        is_some (listener_of node m.outside.devices) ≡ is_awake (past ++ ticked_entry m.outside.outer) (device_of node devices) }
    ensures repeating { (devices : List State) (past : List Entry) (m : Machine) (frame : ℕ) (left : List Event) (node : ℕ) → node ≢ controller →
        KnowTime (Doing (Repeat frame) left) past m → Acts devices (Repeat frame) left past m →
        is_some (listener_of node m.outside.devices) ≡ is_awake past (device_of node devices) }
{}
