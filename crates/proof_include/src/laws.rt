//! When an exchange ends well, in worlds that events or lines lead to. Each law is the contract of a function without a body.

ghost use Rattle.std.specs.Prelude.{◌≡◌, ◌≤◌, ℕ, List, [], ◌∷◌, ◌++◌, length, Some, None};
ghost use Rattle.include_text.specs.declared.entry.IncludeEntry.{IncludeEntry as AnyEntry};
ghost use Rattle.include_text.specs.declared.line.IncludeLine.{IncludeLine as AnyLine};
ghost use Rattle.include_text.specs.declared.line.IncludeLine.TheVariants.{Add};
ghost use Rattle.include_world.specs.World.{WorldState, IncludeEvent, AllDrawn, AllSent, Did, entries_all, first_world, joiner_of};
ghost use Rattle.include_world.specs.Line.{IsLine};
ghost use Rattle.include_world.specs.Added.{IsSecure, Reached, last_word};
ghost use Rattle.proof_include.specs.Ending.{Accepts, AddsAndTicks, TookNone};
ghost use Rattle.proof_include.specs.Adding.{Adds};
ghost use Rattle.proof_include.specs.Lines.{AreLines, CameTo};

/// An exchange with a lock that took no key before ends well: after an `add` that is accepted with no mark of `lose` left, and
/// eight ticks with no line between, `secure` is the last word on the node. That no more frames arrived than were sent is so of a
/// new world, and each line keeps it.
pub fn exchange_ends()
    ensures { (key : List ℕ) (T : List AnyEntry) (world : WorldState) → Reached key T world → AllSent world → (node : ℕ) → 1 ≤ node →
        node ≤ 232 → TookNone node T → Accepts node world →
        (events : List IncludeEvent) → AddsAndTicks node 8 world events → last_word node (T ++ entries_all world events) ≡ Some IsSecure }
{}

/// Lines lead to the first world, and one line more leads on.
pub fn lines_lead_on()
    ensures first { (key : List ℕ) → length key ≡ 16 → CameTo key [] (first_world key) }
    ensures more { (key : List ℕ) (T entries : List AnyEntry) (old new : WorldState) (line : AnyLine) (events : List IncludeEvent) →
        CameTo key T old → IsLine line old events →
        Did events old new [] entries → CameTo key (T ++ entries) new }
{}

/// The exchange with any lock that holds no key ends well: after an `add` that is accepted with no mark of `lose` left, and eight ticks
/// or more with no line between, `secure` is the last word on the node. It holds after any lines, also for a lock that had a key and was
/// reset.
pub fn exchange_ends_for_each()
    ensures { (key : List ℕ) (T : List AnyEntry) (world : WorldState) → CameTo key T world → (node : ℕ) → 1 ≤ node → node ≤ 232 →
        (joiner_of world node).key ≡ None → Accepts node world → (ticks : ℕ) → 8 ≤ ticks →
        (events : List IncludeEvent) → AddsAndTicks node ticks world events → last_word node (T ++ entries_all world events) ≡ Some IsSecure }
{}

/// The same of lines, in the words of the transcript: it shows no `key` of the lock after its last reset, as many frames as there were marks
/// of `lose`, and no refusal of the `add`; and the lines after that one are ticks alone, eight or more.
pub fn added_locks_become_secure()
    ensures { (key : List ℕ) (T : List AnyEntry) (world : WorldState) → CameTo key T world → (node : ℕ) → 1 ≤ node → node ≤ 232 →
        (ticks : List AnyLine) (events : List IncludeEvent) → AreLines (Add node ∷ ticks) world events → AllDrawn events →
        Adds node ticks T (entries_all world events) → last_word node (T ++ entries_all world events) ≡ Some IsSecure }
{}
