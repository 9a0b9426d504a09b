//! What is on its way may be lost, or come twice.

ghost use Rattle.std.specs.Prelude.{List};
ghost use Rattle.supervision.specs.Ends.{Report};
ghost use Rattle.proof_course.specs.Sessions.{Course, Message};
ghost use Rattle.proof_course_plain.specs.Ways.{Thinned, Goes};

/// Whatever is left out of what is on its way in a course, and whatever comes several times in its place, is steps of it.
pub fn ways_may_thin()
    ensures up { (c : Course) (now : List Message) → Thinned c.up now → Goes c (record c { up = now }) }
    ensures down { (c : Course) (now : List Report) → Thinned c.down now → Goes c (record c { down = now }) }
{}
