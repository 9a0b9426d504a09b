//! What holds of the words that are entered of a line.

ghost use Rattle.std.specs.Prelude.{◌≡◌, ℕ, List, Ok, Some};
ghost use Rattle.zw_text.specs.Line.{line_at, replay_at};
ghost use Rattle.zw_text.specs.declared.line.Line.{Line};
ghost use Rattle.zw_text.specs.declared.line.ReplayLine.{ReplayLine};
ghost use Rattle.run_lines.specs.Lines.{TextLine};
ghost use Rattle.run_lines.specs.Pieces.{said_text};
ghost use Rattle.proof_audit.specs.Legible.{AreOfLine};
ghost use Rattle.proof_replay.specs.Heard.{IsReadSo};

/// The words of a text that is read as a line, with one space between two, are read as the same line.
pub fn lines_are_read_as_said()
    ensures { (text : List ℕ) (line : Line) → line_at text ≡ Ok (Some line) → line_at (said_text text) ≡ Ok (Some line) }
{}

/// They are what a `>` entry may show, and one line, so every such entry of `sim` is read again.
pub fn said_lines_are_entries()
    ensures { (text : List ℕ) (line : Line) → line_at text ≡ Ok (Some line) → AreOfLine (said_text text) }
{}

/// The words of a text of `replay` are read as its line, and those of bytes of the chip as none.
pub fn replayed_lines_are_read_as_said()
    ensures { (one : TextLine ReplayLine) → replay_at one.text ≡ Ok (Some one.line) → IsReadSo one }
{}
