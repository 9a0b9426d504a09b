//! The rule of the air.

ghost use Rattle.std.specs.Prelude.{◌++◌, List as Items, []};
ghost use Rattle.std.specs.List.{AllByRecursion};
ghost use Rattle.zw_text.specs.declared.entry.Entry.{Entry};
ghost use Rattle.law_transcript.specs.Fates.{FaresInTurn, NumbersFrames};
ghost use Rattle.law_wire.specs.Times.{TellsTime};
ghost use Rattle.audit_books.specs.SessionRule.{EachKeeps};
ghost use Rattle.audit_rules.specs.AirRule.{breaks_air};
ghost use Rattle.proof_audit.specs.Frames.{ShowLines};
ghost use Rattle.proof_audit.specs.Legible.{AreLegible};
ghost use Rattle.proof_audit.specs.Tables.{IsOfTable};

/// In a transcript whose frames are numbered and have each its fate in turn, and whose ticks are told, no line breaks the rule of the air; and none of a table
/// after it does. Entries that are read back as they were written show lines.
pub fn frames_keep_the_rule_of_the_air()
    ensures run { (transcript : Items Entry) → ShowLines transcript → NumbersFrames transcript → FaresInTurn transcript → TellsTime transcript →
        EachKeeps breaks_air [] transcript }
    ensures table { (transcript table : Items Entry) → AllByRecursion IsOfTable table → EachKeeps breaks_air [] transcript →
        EachKeeps breaks_air [] (transcript ++ table) }
    ensures legible { (transcript : Items Entry) → AreLegible transcript → ShowLines transcript }
{}
