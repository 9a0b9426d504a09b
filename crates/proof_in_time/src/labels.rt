//! What a payload of a lock is that is on its way to the host.

ghost use Rattle.std.specs.Prelude.{◌≡◌, ℕ, ◌≤◌, List, length};
ghost use Rattle.serial_frame.specs.declared.item.Item.{Item};
ghost use Rattle.chip_functions.specs.Field.{IsNode};
ghost use Rattle.world_model.specs.State.{Machine};
ghost use Rattle.proof_answered.specs.proof_calm.proof_traffic.OnAir.{on_air};
ghost use Rattle.proof_answered.specs.proof_calm.Tied.{unheard};
ghost use Rattle.proof_course_sealed.specs.Courses.{Courses};
ghost use Rattle.proof_course_sealed.specs.Labels.{Held};
ghost use Rattle.proof_course_sealed.specs.Meaning.{NodeMeans, Past};
ghost use Rattle.proof_course_sealed.specs.World.{WorldFollows};
ghost use Rattle.proof_in_time.specs.Coming.{Has, Stands, brings};
ghost use Rattle.proof_in_time.specs.Exchange.{IsCounted, IsHome, ShowsLive};

use proof_course_plain::at_most_two_are_on_the_air;
use proof_course_sealed::exchanges_go_on;

/// Where the courses of a lock are where the machine is, each frame of the lock on the air holds what they say, and so does each payload of it that the chip
/// has for the host; where such a payload shows the live nonce of the lock, the host counts that as the last that it saw, or the next.
pub fn what_locks_say_is_in_their_courses()
    ensures flies { (past : Past) (n : ℕ) (c : Courses) (up down : List Item) (m : Machine) (payload : List ℕ) → WorldFollows past n c up down m →
        Stands (IsHome n (λ said. said ≡ payload)) (on_air m.outside.outer.air.frames) → (held : Held) × NodeMeans past n payload held }
    ensures told { (past : Past) (n : ℕ) (c : Courses) (up down : List Item) (m : Machine) (payload : List ℕ) → WorldFollows past n c up down m → IsNode n →
        1 ≤ length payload → Has (brings n payload) (unheard m.outside.outer) → (held : Held) × NodeMeans past n payload held }
    ensures counted { (past : Past) (n : ℕ) (c : Courses) (up down : List Item) (m : Machine) (payload : List ℕ) (held : Held)
        (follows : WorldFollows past n c up down m) → NodeMeans past n payload held → (shows : ShowsLive follows.outside.mesh.device.device payload) →
        IsCounted n m.host.state shows.nonce }
{
    exchanges_go_on();
    at_most_two_are_on_the_air();
}
