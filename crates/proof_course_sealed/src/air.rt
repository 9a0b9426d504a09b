//! Frames on the air, in the courses of a lock.

ghost use Rattle.std.specs.Prelude.{◌≡◌, ◌≢◌, ℕ, ◌<◌, ◌==◌, List, [], ◌∷◌, ◌++◌, Some, None};
ghost use Rattle.supervision.specs.Host.{begins};
ghost use Rattle.s0_crypto.specs.declared.key_pair.Keys.{Keys};
ghost use Rattle.air_frames.specs.declared.frame.Departure.{Departure as TheDeparture};
ghost use Rattle.air_frames.specs.Flown.{Flown};
ghost use Rattle.air_frames.specs.Frames.{FramesState, no_frames, putting, landing, remembered};
ghost use Rattle.air_frames.specs.Ages.{refusal_of};
ghost use Rattle.air_frames.specs.History.{Mark, Goes, Begins};
ghost use Rattle.proof_course_plain.specs.Flights.{flown_now, Fly as FlyInOrder};
ghost use Rattle.proof_course_sealed.specs.Labels.{Held};
ghost use Rattle.proof_course_sealed.specs.Courses.{Courses, first_courses};
ghost use Rattle.proof_course_sealed.specs.Meaning.{Past, first_past, Grows};
ghost use Rattle.proof_course_sealed.specs.Air.{MeansBy, OnAir, SameAir, Puts, Lands, WasThere};

use proof_course_plain::frames_fly_in_order;
use proof_messages::the_air_counts_nonces;

/// A frame goes on the air as the courses have it; the oldest lands; a session begins, of the node or of another; and one that may be heard
/// again is a frame of the courses, and fresh. What is on the air stays what it is as more orders, sessions and nonces come.
pub fn frames_follow_the_courses()
    ensures first { (keys : Keys) (node : ℕ) → OnAir (first_past keys) node first_courses [] [] no_frames }
    ensures stays { (past later_past : Past) (node : ℕ) (c later : Courses) (log : List Mark) (flights : List Flown)
        (frames : FramesState) → OnAir past node c log flights frames → Grows past later_past → SameAir c later →
        OnAir later_past node later log flights frames }
    ensures goes { (past later_past : Past) (node : ℕ) (c later : Courses) (log : List Mark) (flights : List Flown) (frames : FramesState)
        (departure : TheDeparture) (held : Held) → departure.node < 233 → OnAir past node c log flights frames → Grows past later_past →
        MeansBy departure.heading (departure.node == node) later_past node departure.payload held → Puts c later held →
        OnAir later_past node later (log ++ Goes departure ∷ []) (flights ++ flown_now log departure ∷ []) (putting frames departure) }
    ensures lands { (past : Past) (node : ℕ) (c : Courses) (log : List Mark) (frame : Flown) (later : List Flown) (frames : FramesState) →
        OnAir past node c log (frame ∷ later) frames → Lands past node c log frame later (landing frames) }
    ensures repeated { (past : Past) (node : ℕ) (c : Courses) (log : List Mark) (flights : List Flown) (frames : FramesState) (number : ℕ)
        (frame : Flown) → node < 233 → OnAir past node c log flights frames → refusal_of frames number ≡ None →
        remembered frames number ≡ Some frame → WasThere past node c frame }
    ensures begins { (past : Past) (node : ℕ) (c : Courses) (command : ℕ) (log : List Mark) (flights : List Flown)
        (frames later : FramesState) → OnAir past node c log flights frames → FlyInOrder (log ++ Begins node ∷ []) flights later →
        OnAir past node (record c { sessions = record c.sessions { host = begins c.sessions.host command } }) (log ++ Begins node ∷ []) flights later }
    ensures elsewhere { (past : Past) (node other : ℕ) (c : Courses) (log : List Mark) (flights : List Flown)
        (frames later : FramesState) → other ≢ node → OnAir past node c log flights frames → FlyInOrder (log ++ Begins other ∷ []) flights later →
        OnAir past node c (log ++ Begins other ∷ []) flights later }
{
    frames_fly_in_order();
    the_air_counts_nonces();
}
