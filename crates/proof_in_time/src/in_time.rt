//! The wait of an attempt, over quiet lines.

ghost use Rattle.std.specs.Prelude.{◌≡◌, Bool, List, length, false, ℕ};
ghost use Rattle.zw_text.specs.declared.entry.Entry.{Entry};
ghost use Rattle.chip_sim.specs.Nodes.{is_marked};
ghost use Rattle.world_model.specs.Events.{Event};
ghost use Rattle.world_model.specs.State.{Machine};
ghost use Rattle.proof_answered.specs.proof_calm.proof_work.proof_walk.Phases.{Phase};
ghost use Rattle.proof_answered.specs.proof_calm.proof_work.proof_walk.Walk.{WalkWhere};
ghost use Rattle.proof_answered.specs.proof_calm.proof_work.Phases.{AsksNothing};
ghost use Rattle.proof_answered.specs.FirstAttempts.{IsInTime};
ghost use Rattle.proof_in_time.specs.Coming.{IsKeptFor, KnowPlainly, KnowWaits};
ghost use Rattle.proof_in_time.specs.Sleeping.{IsPlainlyUp};

use crate::messages_are_answered;
use proof_answered::{
    attempts_stay_first, frames_fly_in_order, nodes_hear, sleepers_are_where_they_may_be,
    workers_alone_speak,
};
use proof_course_plain::{devices_go_on, devices_stay_the_same};

/// Over a stretch of lines for nodes that list neither Transport Service nor Security 0, in which the keeper does not fail, while an attempt of one of these
/// runs its request is on its way to the chip, or its message is on the air, or its device is at work and is to tell the end, or the report of the end is on
/// the air, or the chip has that for the host: so the host is told within six ticks of the node, and the wait of no attempt runs out. Then each series stays
/// at its first attempt. These nodes listen; or are one that sleeps. At each phase it is assumed that their devices are in step with the host, and that that of
/// a node that sleeps stays awake where that is wanted, and says nothing at the wrong time.
pub fn waits_never_run_out()
    ensures walk { (these : List Bool) → length these ≡ 233 → is_marked these 0 ≡ false → WalkWhere (IsPlainlyUp these) AsksNothing (KnowWaits these) }
    ensures in_time { (these : List Bool) (here : Phase) (past : List Entry) (m : Machine) (event : Event) → IsKeptFor these past →
        KnowWaits these here past m → IsInTime m event }
    ensures first { (these : List Bool) → length these ≡ 233 → is_marked these 0 ≡ false → WalkWhere (IsPlainlyUp these) AsksNothing (KnowPlainly these) }
{
    attempts_stay_first();
    devices_go_on();
    devices_stay_the_same();
    frames_fly_in_order();
    messages_are_answered();
    nodes_hear();
    sleepers_are_where_they_may_be();
    workers_alone_speak();
}
