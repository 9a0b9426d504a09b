//! Devices in step with the host.

ghost use Rattle.std.specs.Prelude.{◌<◌, List, Some, [], ℕ};
ghost use Rattle.s0_crypto.specs.declared.key_pair.Keys.{Keys};
ghost use Rattle.device_sim.specs.State.{State};
ghost use Rattle.world_model.specs.Did.{AllAlong};
ghost use Rattle.world_model.specs.State.{first_machine};
ghost use Rattle.world_lines.specs.Spoken.{Spoken};
ghost use Rattle.world_lines.specs.Done.{AreDone, events_of};
ghost use Rattle.proof_in_time.specs.InStep.{GoesInStep, IsPlainOver, StaysInStep};
ghost use Rattle.proof_in_time.specs.Openly.{IsOpenOver};

use proof_course_plain::{
    at_most_two_are_on_the_air, devices_go_on, devices_stay_the_same, hosts_write_well,
    lines_ask_plainly, lines_have_a_course, lines_keep_and_ask_well, restarts_go_on,
    units_are_judged_whole, worlds_follow_the_course,
};

/// Over any lines from the first machine on, whatever is lost, repeated or changed and however often the host starts again: where the first device of a node
/// takes what is not sealed, and the orders for the node go unsealed, at each event it is in step with the host: the host's last session of it is the last
/// that it took, or the next one, and then it is at no work. Where it is at work it is to tell the end of that within five ticks. While it has not taken the
/// last session, nothing on its way to the host tells the end of that. And each order for the node is for an end point up to 127. A device that takes what it
/// takes whole still does.
pub fn nodes_stay_in_step()
    ensures along { (n : ℕ) (keys : Keys) (devices : List State) (lines : List Spoken) → n < 233 → IsPlainOver devices (events_of lines) n →
        AreDone (first_machine keys (Some []) devices) lines → AllAlong (GoesInStep n) (first_machine keys (Some []) devices) (events_of lines) }
    ensures openly { (n : ℕ) (keys : Keys) (devices : List State) (lines : List Spoken) → IsOpenOver devices (events_of lines) n →
        AreDone (first_machine keys (Some []) devices) lines → AllAlong (StaysInStep n) (first_machine keys (Some []) devices) (events_of lines) }
{
    at_most_two_are_on_the_air();
    devices_go_on();
    devices_stay_the_same();
    hosts_write_well();
    lines_ask_plainly();
    lines_have_a_course();
    lines_keep_and_ask_well();
    restarts_go_on();
    units_are_judged_whole();
    worlds_follow_the_course();
}
