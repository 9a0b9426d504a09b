//! What a lock makes of its sessions at each event.

ghost use Rattle.std.specs.Prelude.{ℕ, ◌<◌, List};
ghost use Rattle.serial_frame.specs.declared.item.Item.{Item};
ghost use Rattle.world_model.specs.State.{Machine};
ghost use Rattle.world_model.specs.Events.{Event, happens};
ghost use Rattle.proof_course_plain.specs.Judged.{JudgesAt, IsNoHand};
ghost use Rattle.proof_course_sealed.specs.Courses.{Courses};
ghost use Rattle.proof_course_sealed.specs.Meaning.{Past};
ghost use Rattle.proof_course_sealed.specs.World.{WorldFollows};

use crate::mesh::arrivals_follow_the_courses;

/// At each event of a machine that follows the courses of a lock, unless the lock is set by hand, it takes the next session with the status that its kind
/// gives the commands of that session, as they were accepted, on the values that it had before; or it is left as it was.
pub fn locks_judge_what_is_asked()
    ensures { (past : Past) (node : ℕ) (c : Courses) (up down : List Item) (m : Machine) (event : Event) → node < 233 →
        WorldFollows past node c up down m → IsNoHand node event →
        JudgesAt node past.orders past.commands m.outside.devices (happens m event).outside.devices }
{
    arrivals_follow_the_courses();
}
