//! What is on its way in the three courses of a lock.

ghost use Rattle.std.specs.Prelude.{ℕ, ◌<◌, List, [], ◌∷◌, ◌++◌, Option, Some, None};
ghost use Rattle.std.specs.Option.{option_to_list};
ghost use Rattle.supervision.specs.Host.{begun_of};
ghost use Rattle.proof_course_plain.specs.Ways.{Thinned};
ghost use Rattle.proof_course_sealed.specs.Labels.{Sent, Late, Sealed, Offer};
ghost use Rattle.proof_course_sealed.specs.Courses.{Courses, CoursesGo, GoUp, GoDown, with_up, with_down};

/// Whatever is left out of what is on its way, or comes several times in its place, is steps of all three courses at once; so is it where a
/// text that was sealed is given up, and where nonces that wait are.
pub fn ways_thin_together()
    ensures up { (c : Courses) (carried now : List Sent) (text left : Option ℕ) (tasks later : List ℕ) → GoUp c carried text tasks →
        Thinned carried now → Thinned (option_to_list text) (option_to_list left) → Thinned tasks later →
        CoursesGo c (with_up c now left later) }
    ensures down { (c : Courses) (carried now : List Late) → GoDown c carried → Thinned carried now → CoursesGo c (with_down c now) }
{}

/// A sealed text is written as the message of the last session; a nonce that waited longest is written next.
pub fn what_waits_is_written()
    ensures text { (c : Courses) (carried : List Sent) (number : ℕ) (tasks : List ℕ) → GoUp c carried (Some number) tasks → 0 < begun_of c.sessions.host →
        CoursesGo c (with_up c (carried ++ Sealed (begun_of c.sessions.host) number ∷ []) None tasks) }
    ensures task { (c : Courses) (carried : List Sent) (text : Option ℕ) (number : ℕ) (tasks : List ℕ) →
        GoUp c carried text (number ∷ tasks) → CoursesGo c (with_up c (carried ++ Offer number ∷ []) text tasks) }
{}
