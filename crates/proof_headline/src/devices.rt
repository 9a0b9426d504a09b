//! Which nodes these are, by the kinds of their devices.

ghost use Rattle.std.specs.Prelude.{ℕ, List, [], Some};
ghost use Rattle.std.specs.List.{AllByRecursion};
ghost use Rattle.s0_crypto.specs.Sealing.{keys_of};
ghost use Rattle.device_sim.specs.State.{State};
ghost use Rattle.zw_text.specs.declared.line.Line.{Line};
ghost use Rattle.law_transcript.specs.Headline.{IsAsMade};
ghost use Rattle.world_model.specs.State.{first_machine};
ghost use Rattle.world_model.specs.Events.{Event};
ghost use Rattle.world_model.specs.Did.{MayAll};
ghost use Rattle.proof_spoken.specs.proof_serial.Line.{AreLines};
ghost use Rattle.proof_headline.specs.Supervised.{IsPlainOrLock, IsSupervisedNode};

use crate::plain_nodes::{devices_as_made_begin_courses, orders_go_plain};
use proof_course_sealed::locks_as_made_begin_courses;

/// Of devices as their makers left them, over any lines: a node whose device lists Supervision is plain, or one of a lock.
pub fn supervised_nodes_are_plain_or_locks()
    ensures { (key : List ℕ) (devices : List State) (lines : List Line) (events : List Event) (node : ℕ) → AllByRecursion (IsAsMade key) devices →
        AreLines lines (first_machine (keys_of key) (Some []) devices) events → MayAll (first_machine (keys_of key) (Some []) devices) events →
        IsSupervisedNode devices node → IsPlainOrLock (keys_of key) devices events node }
{
    devices_as_made_begin_courses();
    orders_go_plain();
    locks_as_made_begin_courses();
}
