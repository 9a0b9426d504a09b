//! What happens outside the host, in the courses of a lock.

ghost use Rattle.std.specs.Prelude.{◌≡◌, ℕ, ◌<◌, true, List, [], Option, None};
ghost use Rattle.s0_crypto.specs.declared.key_pair.Keys.{Keys};
ghost use Rattle.serial_frame.specs.Stream.{Rest, no_rest};
ghost use Rattle.serial_frame.specs.declared.item.Item.{Item};
ghost use Rattle.serial_link.specs.declared.turn.Turn.{Turn as TheTurn};
ghost use Rattle.serial_link.specs.declared.turn.Turn.TheVariants as turns;
ghost use Rattle.device_sim.specs.State.{State};
ghost use Rattle.outside_model.specs.State.{Outside, outside, first_outer};
ghost use Rattle.outside_model.specs.Events.{OuterEvent, is_own, happens, May};
ghost use Rattle.proof_course_plain.specs.OnAir.{OuterStaysFew};
ghost use Rattle.proof_course_plain.specs.Outside.{Rests};
ghost use Rattle.proof_course_sealed.specs.Courses.{Courses, CoursesFacts, first_courses};
ghost use Rattle.proof_course_sealed.specs.Meaning.{Past, first_past};
ghost use Rattle.proof_course_sealed.specs.Mesh.{HasLock};
ghost use Rattle.proof_course_sealed.specs.Outside.{Follows, OuterGoes};

use crate::air::frames_follow_the_courses;
use crate::mesh::arrivals_follow_the_courses;
use proof_course::nonces_of_the_host_keep_facts;
use proof_course_plain::at_most_two_are_on_the_air;

/// At first the courses of a lock are where the outside is, and every event outside the host makes steps of them: the chip judges the
/// host's items and puts messages and nonces on the air; frames arrive, are lost or are heard again; the lock answers; what the chip hears
/// of it goes to the host; copies are written, pipes are cleared and units are lost. No more is asked than that at most two frames of the
/// host are on the air while the chip judges items, and that who ticks or loses bytes has nothing unfinished.
pub fn outsides_follow_the_courses()
    ensures first { (keys : Keys) (node : ℕ) (devices : List State) → HasLock (first_past keys) node first_courses devices →
        Follows (first_past keys) node first_courses None [] no_rest turns.Idle [] [] (outside first_outer devices) }
    ensures events { (past : Past) (node : ℕ) (c : Courses) (text : Option ℕ) (tasks : List ℕ) (rest : Rest) (turn : TheTurn)
        (up down : List Item) (w : Outside) (event : OuterEvent) → node < 233 → CoursesFacts c → Follows past node c text tasks rest turn up down w →
        is_own event ≡ true → May w event → Rests rest w event → OuterStaysFew w.outer event → OuterGoes past node c text tasks rest turn (happens w event) }
{
    frames_follow_the_courses();
    arrivals_follow_the_courses();
    nonces_of_the_host_keep_facts();
    at_most_two_are_on_the_air();
}
