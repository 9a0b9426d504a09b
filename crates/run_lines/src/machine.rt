//! What runs lines.

ghost use Rattle.std.specs.Prelude.{◌≡◌, ℕ, List as Items, [], ◌≤◌, length, Option, None, IfErr, OnOk};
ghost use Rattle.run_lines.specs.Machine.{Borrowed, borrowed, RefusesBy};
ghost use Rattle.zw_words.specs.declared.fault.LineFault.{LineFault as Fault};

use crate::Answer;
use zw_base::NoMemory;
use zw_words::ReadLineFault;

/// A machine that runs the lines of a scenario, with two things that it is borrowed for each line (as a source of drawn bytes
/// and a keeper).
pub trait Machine<A, B> {
    /// Why a text is not a line, if it is not.
    ghost refuses: { Items ℕ → Option Fault };

    /// What the text of a line makes of the machine and what it is borrowed, and the pieces that it is answered by.
    ghost runs: { Borrowed Self A B → Items ℕ → Borrowed Self A B → Items (Items ℕ) → Type 0 };

    /// The same where there was no memory for all of it.
    ghost stops: { Borrowed Self A B → Items ℕ → Borrowed Self A B → Items (Items ℕ) → Type 0 };

    /// The last pieces, after all lines.
    ghost ends: { Borrowed Self A B → Items (Items ℕ) → Type 0 };

    /// Runs the text of a line. Each piece of the answer is a line with its line feed.
    fn run_line(
        &mut self,
        first: &mut A,
        second: &mut B,
        text: &[u8],
        out: &mut Answer,
    ) -> Result<(), ReadLineFault>
        requires short { length text.now ≤ 1024 }
        requires empty { out.old.items ≡ [] }
        ensures is_line { OnOk result (refuses text.now ≡ None) }
        ensures ok { OnOk result (runs (borrowed self.old first.old second.old) text.now
            (borrowed self.new first.new second.new) out.new.items) }
        ensures err { IfErr result (λ fault. RefusesBy fault stops (refuses text.now) (borrowed self.old first.old second.old) text.now
            (borrowed self.new first.new second.new) out.new.items) };

    /// Adds the last pieces.
    fn end(&self, first: &A, second: &B, out: &mut Answer) -> Result<(), NoMemory>
        requires empty { out.old.items ≡ [] }
        ensures ok { OnOk result (ends (borrowed self.now first.now second.now) out.new.items) };
}
