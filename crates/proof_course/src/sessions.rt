//! What holds of every course.

ghost use Rattle.std.specs.Prelude.{◌≡◌, ℕ, ◌+◌, List, ◌∷◌, Some, slice_get};
ghost use Rattle.supervision.specs.Host.{begun_of};
ghost use Rattle.supervision.specs.Ends.{Report};
ghost use Rattle.proof_course.specs.Flying.{Flight};
ghost use Rattle.proof_course.specs.Sessions.{Course, Message, Cargo, Command, Step, first_course, after, after_all, May, MayAll, IsFresh};
ghost use Rattle.proof_course.specs.SessionFacts.{CourseFacts};
ghost use Rattle.proof_course.specs.SessionLaws.{NamesOne, TellsOne, TakesNext, IsDone, IsApplied};

/// The facts hold where nothing has happened, and every step that may happen keeps them.
pub fn courses_keep_facts()
    ensures first { CourseFacts first_course }
    ensures each { (c : Course) (step : Step) → CourseFacts c → May c step → CourseFacts (after c step) }
    ensures all { (c : Course) (steps : List Step) → CourseFacts c → MayAll c steps → CourseFacts (after_all c steps) }
{}

/// An id names one session, at either end: of a message that was on the air and is heard for the first time or while it is fresh, of
/// the segments that the device keeps, and of the report that the host judges next.
pub fn ids_name_one_session()
    ensures landing { (c : Course) (message : Message) (begun : ℕ) (later : List (Flight Cargo)) → CourseFacts c →
        c.air ≡ record { cargo = Command message; since = begun } ∷ later →
        NamesOne c.device message }
    ensures repeated { (c : Course) (message : Message) (begun at : ℕ) → CourseFacts c →
        slice_get c.old at ≡ Some (record { cargo = Command message; since = begun }) →
        IsFresh (begun_of c.host) begun message.is_segment → NamesOne c.device message }
    ensures kept { (c : Course) (session : ℕ) → CourseFacts c → c.kept ≡ Some session → session ≡ c.device.taken + 1 }
    ensures judged { (c : Course) (report : Report) (later : List Report) → CourseFacts c → c.down ≡ report ∷ later → TellsOne c.host c.device report }
{}

/// So over any steps from the first on: the device takes its sessions one after another, each once, none that the host did not begin; and
/// what the host is told of each is what the device did. The commands of the sessions that ended in success are a part of the commands of
/// all, in order, each once, and those of which the host was told success are among them.
pub fn what_is_told_was_done()
    ensures taken { (c : Course) (step : Step) → CourseFacts c → May c step → TakesNext c (after c step) }
    ensures done { (steps : List Step) → MayAll first_course steps → IsDone (after_all first_course steps) }
    ensures applied { (steps : List Step) → MayAll first_course steps → IsApplied (after_all first_course steps) }
{}
