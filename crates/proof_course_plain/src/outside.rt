//! What happens outside the host, in the course of one node.

ghost use Rattle.std.specs.Prelude.{◌≡◌, ℕ, ◌<◌, true, List, []};
ghost use Rattle.proof_course.specs.Sessions.{Course, first_course};
ghost use Rattle.proof_course.specs.SessionFacts.{CourseFacts};
ghost use Rattle.serial_frame.specs.Stream.{Rest, no_rest};
ghost use Rattle.serial_frame.specs.declared.item.Item.{Item};
ghost use Rattle.serial_link.specs.declared.turn.Turn.{Turn as TheTurn};
ghost use Rattle.serial_link.specs.declared.turn.Turn.TheVariants as turns;
ghost use Rattle.device_sim.specs.State.{State};
ghost use Rattle.outside_model.specs.State.{Outside, outside, first_outer};
ghost use Rattle.outside_model.specs.Events.{OuterEvent, is_own, happens, May};
ghost use Rattle.proof_traffic.specs.OnAir.{OuterStaysFew};
ghost use Rattle.proof_course_plain.specs.Meaning.{Asked};
ghost use Rattle.proof_course_plain.specs.Mesh.{HasDevice};
ghost use Rattle.proof_course_plain.specs.Outside.{Follows, OuterGoes, Rests};

use crate::air::frames_follow_the_course;
use crate::device::devices_follow_the_course;
use crate::mesh::arrivals_follow_the_course;
use proof_traffic::{at_most_two_are_on_the_air, devices_stay_the_same};

/// At first the course of a node is where the outside is, and every event outside the host makes steps of it: the chip judges the host's
/// items and puts messages on the air; frames arrive, are lost or are heard again; the device answers, works and wakes up; what the chip
/// hears of it goes to the host; copies are written, pipes are cleared and units are lost. No more is asked than that at most two frames of
/// the host are on the air while the chip judges items, and that who ticks or loses bytes has nothing unfinished.
pub fn outsides_follow_the_course()
    ensures first { (node : ℕ) (devices : List State) → HasDevice node first_course devices →
        Follows node [] first_course no_rest turns.Idle [] [] (outside first_outer devices) }
    ensures events { (node : ℕ) (orders : List Asked) (c : Course) (rest : Rest) (turn : TheTurn) (up down : List Item) (w : Outside)
        (event : OuterEvent) → node < 233 → CourseFacts c → Follows node orders c rest turn up down w →
        is_own event ≡ true → May w event → Rests rest w event → OuterStaysFew w.outer event → OuterGoes node orders c rest turn (happens w event) }
{
    frames_follow_the_course();
    devices_follow_the_course();
    arrivals_follow_the_course();
    devices_stay_the_same();
    at_most_two_are_on_the_air();
}
