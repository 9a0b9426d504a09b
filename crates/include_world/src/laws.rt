//! What holds of every transcript of `include` and of both ends after it. The law is the contract of a function without a
//! body.

ghost use Rattle.std.specs.Prelude.{ℕ, List};
ghost use Rattle.include_text.specs.declared.entry.IncludeEntry.{IncludeEntry as AnyEntry};
ghost use Rattle.include_world.specs.World.{WorldState};
ghost use Rattle.include_world.specs.Added.{Added, Reached};

/// What a transcript says of a node is so, whatever happened.
pub fn what_is_said_is_so()
    ensures { (key : List ℕ) (T : List AnyEntry) (world : WorldState) → Reached key T world → Added key T world }
{}
