//! Nodes whose commands go unsealed, whole or in segments: which they are by the kinds of their devices, how their orders go, and that both ends are tied.

ghost use Rattle.std.specs.Prelude.{◌≡◌, ℕ, ◌<◌, List, Some, []};
ghost use Rattle.std.specs.List.{AllByRecursion};
ghost use Rattle.proof_course.specs.Sessions.{first_course};
ghost use Rattle.device_sim.specs.State.{State};
ghost use Rattle.proof_spoken.specs.proof_device.Showing.{AreUnchanged};
ghost use Rattle.law_transcript.specs.Headline.{IsAsMade};
ghost use Rattle.law_transcript.specs.Nodes.{device_of};
ghost use Rattle.proof_course_sealed.specs.Plain.{HasDevice, OrdersPlain};
ghost use Rattle.proof_headline.specs.Plain.{IsPlainKind, IsPlain};
ghost use Rattle.s0_crypto.specs.declared.key_pair.Keys.{Keys};
ghost use Rattle.zw_text.specs.declared.line.Line.{Line};
ghost use Rattle.world_model.specs.State.{first_machine};
ghost use Rattle.world_model.specs.Events.{Event};
ghost use Rattle.world_model.specs.Did.{MayAll};
ghost use Rattle.proof_spoken.specs.proof_serial.Line.{AreLines};
ghost use Rattle.proof_spoken.specs.proof_once.Tied.{AreTied};
ghost use Rattle.world_lines.specs.Spoken.{Spoken, after_all};
ghost use Rattle.world_lines.specs.Done.{AreDone, events_of};
ghost use Rattle.proof_headline.specs.Truly.{LinesAreTrue};

use host_node::a_restart_needs_the_records_alone;
use proof_course_sealed::{
    devices_follow_the_course, idle_devices_stay_idle, lines_ask_plainly, lines_have_a_course,
    lines_tell_the_truth,
};
use proof_spoken::{
    courses_tie_their_ends, interviews_give_what_is_known, interviews_tell_what_nodes_list,
    lines_keep_and_ask_well,
};

/// Of devices as their makers left them, the first of a node is at the beginning of a course of it where its kind is plain; the others of the node are idle.
pub fn devices_as_made_begin_courses()
    ensures begins { (key : List ℕ) (devices : List State) (node : ℕ) (device : State) → AllByRecursion (IsAsMade key) devices →
        device_of node devices ≡ Some device →
        IsPlainKind device.kind → (node < 233) × HasDevice node first_course devices }
    ensures unchanged { (key : List ℕ) (devices : List State) → AllByRecursion (IsAsMade key) devices → AreUnchanged devices }
{
    devices_follow_the_course();
    idle_devices_stay_idle();
}

/// Over any lines, each order that is accepted for a node whose device is of a plain kind goes unsealed: before an interview the host takes
/// node 2 for a switch and takes no order for others, and an interview tells what the device lists.
pub fn orders_go_plain()
    ensures { (keys : Keys) (devices : List State) (lines : List Line) (events : List Event) (node : ℕ) (device : State) →
        AreLines lines (first_machine keys (Some []) devices) events → MayAll (first_machine keys (Some []) devices) events →
        device_of node devices ≡ Some device → IsPlainKind device.kind → AllByRecursion (OrdersPlain node) events }
{
    a_restart_needs_the_records_alone();
    interviews_tell_what_nodes_list();
    interviews_give_what_is_known();
}

/// Over any lines that were read, the device of a plain node is tied to the host in the end, and each success that the host is told of the
/// node is true at the moment it is told.
pub fn plain_nodes_are_tied()
    ensures tied { (keys : Keys) (devices : List State) (lines : List Spoken) (node : ℕ) (device : State) → IsPlain devices (events_of lines) node →
        AreDone (first_machine keys (Some []) devices) lines →
        device_of node (after_all (first_machine keys (Some []) devices) lines).outside.devices ≡ Some device →
        AreTied (after_all (first_machine keys (Some []) devices) lines).host.state node device }
    ensures truth { (keys : Keys) (devices : List State) (lines : List Spoken) (node : ℕ) → IsPlain devices (events_of lines) node →
        AreDone (first_machine keys (Some []) devices) lines → LinesAreTrue node (first_machine keys (Some []) devices) lines }
{
    lines_ask_plainly();
    lines_have_a_course();
    lines_tell_the_truth();
    courses_tie_their_ends();
    lines_keep_and_ask_well();
}
