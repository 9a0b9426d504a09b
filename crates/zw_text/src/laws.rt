//! Laws on lines and transcripts. Each is the contract of a function without a body.

ghost use Rattle.std.specs.Prelude.{◌≡◌, ℕ, List, ◌++◌};
ghost use Rattle.zw_text.specs.Line.{LineText, ReplayText};
ghost use Rattle.zw_text.specs.Transcript.{folded, quiet, shown};
ghost use Rattle.zw_text.specs.declared.entry.Entry.{Entry as AnyEntry};
ghost use Rattle.zw_text.specs.declared.line.Line.{Line as AnyLine};
ghost use Rattle.zw_text.specs.declared.line.ReplayLine.{ReplayLine as AnyReplayLine};

/// No text is that of two lines.
pub fn one_line_each()
    ensures line { (text : List ℕ) (first second : AnyLine) → LineText text first → LineText text second → first ≡ second }
    ensures replay { (text : List ℕ) (first second : AnyReplayLine) → ReplayText text first → ReplayText text second → first ≡ second }
{}

/// What each entry shows by itself, where entries are added to a transcript: what was shown before, then what the
/// added ones show.
pub fn shown_grows<T>()
    ensures { (view : AnyEntry → List T) (before added : List AnyEntry) → shown view (before ++ added) ≡ shown view before ++ shown view added }
{}

/// What entries show one after another, where entries are added: the added ones go on from what the first ones gave.
pub fn folded_grows<S>()
    ensures { (step : S → AnyEntry → S) (start : S) (before added : List AnyEntry) →
        folded step start (before ++ added) ≡ folded step (folded step start before) added }
{}

/// The quiet transcript, where entries are added.
pub fn quiet_grows()
    ensures { (before added : List AnyEntry) → quiet (before ++ added) ≡ quiet before ++ quiet added }
{}
