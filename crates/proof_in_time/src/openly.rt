//! The wait of an attempt of one node alone that takes segments, over quiet lines.

ghost use Rattle.std.specs.Prelude.{◌≡◌, Bool, List, length, false, ℕ};
ghost use Rattle.chip_sim.specs.Nodes.{is_marked};
ghost use Rattle.proof_answered.specs.proof_calm.proof_work.proof_walk.Walk.{WalkWhere};
ghost use Rattle.proof_answered.specs.proof_calm.proof_work.Phases.{AsksNothing};
ghost use Rattle.proof_answered.specs.Sleepers.{IsAlone};
ghost use Rattle.proof_in_time.specs.InStep.{AreInStep};
ghost use Rattle.proof_in_time.specs.Open.{KnowOpenFirst, OpenCounts};

use crate::{messages_are_answered, segments_are_answered};
use proof_answered::{
    attempts_stay_first, frames_fly_in_order, nodes_are_served_in_turn, nodes_hear,
    workers_alone_speak,
};
use proof_course_plain::{devices_go_on, devices_stay_the_same};
use proof_messages::{messages_come_in_slices, reports_tell, segments_tell};

/// Over a stretch of lines for one node alone that listens, lists Transport Service and not Security 0, in which the keeper does not fail, while an attempt
/// of it runs its message is on its way whole, or its segments are, each that the device asks for too; or the device is at work and is to tell the end, or
/// the report of the end is on its way. So the host is told within 23 ticks of the node, and no wait of an attempt runs out: each series stays at its first
/// attempt. At each phase it is assumed that the device is in step with the host. From phase to phase the ticks that are to come count down (`counts`).
pub fn open_waits_never_run_out()
    ensures walk { (these : List Bool) → length these ≡ 233 → is_marked these 0 ≡ false → WalkWhere (AreInStep these) AsksNothing (KnowOpenFirst these) }
    ensures counts { (these : List Bool) (n : ℕ) → length these ≡ 233 → is_marked these 0 ≡ false → IsAlone these n → OpenCounts these n }
{
    attempts_stay_first();
    devices_go_on();
    devices_stay_the_same();
    frames_fly_in_order();
    messages_are_answered();
    messages_come_in_slices();
    nodes_are_served_in_turn();
    nodes_hear();
    reports_tell();
    segments_are_answered();
    segments_tell();
    workers_alone_speak();
}
