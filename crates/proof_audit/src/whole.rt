//! What follows from the rules together.

ghost use Rattle.std.specs.Prelude.{◌++◌, List as Items};
ghost use Rattle.zw_text.specs.Entry.{transcript_text};
ghost use Rattle.zw_text.specs.declared.entry.Entry.{Entry};
ghost use Rattle.proof_audit.specs.Legible.{AreLegible};
ghost use Rattle.proof_audit.specs.Whole.{AnswersYes, KeepsRules};

/// Entries that are read back as they were written, of which none breaks a rule, are judged to be in order: by their text, and so where it was written in
/// two parts, as a transcript and the table after it are.
pub fn kept_rules_answer_yes()
    ensures whole { (transcript : Items Entry) → AreLegible transcript → KeepsRules transcript → AnswersYes (transcript_text transcript) }
    ensures parts { (transcript table : Items Entry) → AreLegible (transcript ++ table) → KeepsRules (transcript ++ table) →
        AnswersYes (transcript_text transcript ++ transcript_text table) }
{}
