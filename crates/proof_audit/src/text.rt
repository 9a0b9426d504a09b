//! That each entry of a run, and of the table after it, is read back as it was written.

ghost use Rattle.law_transcript.specs.Nodes.{always};
ghost use Rattle.std.specs.Prelude.{ℕ, List as Items};
ghost use Rattle.std.specs.List.{AllByRecursion};
ghost use Rattle.zw_text.specs.declared.entry.Entry.{Entry};
ghost use Rattle.device_stack.specs.State.{State};
ghost use Rattle.law_transcript.specs.Table.{table_of};
ghost use Rattle.world_model.specs.State.{Machine};
ghost use Rattle.world_lines.specs.Spoken.{Spoken, transcript_of};
ghost use Rattle.world_lines.specs.Done.{AreDone};
ghost use Rattle.proof_audit.specs.Legible.{AreInRange, AreLegible, SaysWords, ShowTexts};

/// Over lines that are said one after another, the texts that are shown are the words of these lines, and stored values, which are one line each.
pub fn lines_show_texts()
    ensures { (m : Machine) (lines : Items Spoken) → AreDone m lines → AllByRecursion SaysWords lines → ShowTexts (transcript_of m lines) }
{}

/// Entries that show such texts, and whose numbers are in their ranges, are read back as they were written; so are those of the table at the end, which
/// shows none.
pub fn entries_are_legible()
    ensures entries { (transcript : Items Entry) → AreInRange transcript → ShowTexts transcript → AreLegible transcript }
    ensures table { (listing : ℕ → Items ℕ) (clock : ℕ) (past : Items Entry) (devices : Items State) →
        AreInRange (table_of (always listing) clock past devices) →
        AreLegible (table_of (always listing) clock past devices) }
{}
