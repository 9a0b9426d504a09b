//! The rule of payloads.

ghost use Rattle.std.specs.Prelude.{◌++◌, List as Items, []};
ghost use Rattle.std.specs.List.{AllByRecursion};
ghost use Rattle.zw_text.specs.declared.entry.Entry.{Entry};
ghost use Rattle.law_transcript.specs.Carrying.{CarriesUnits};
ghost use Rattle.law_transcript.specs.WorkedWrongWire.{aired_as_garbled};
ghost use Rattle.audit_books.specs.SessionRule.{EachKeeps};
ghost use Rattle.audit_rules.specs.PayloadRule.{breaks_payload};
ghost use Rattle.proof_audit.specs.Tables.{IsOfTable};

/// In a transcript whose frames of the controller carry what whole units ask to be sent, one each and in order, no line breaks the rule of payloads; and none
/// of a table after it does.
pub fn carried_payloads_keep_their_rule()
    ensures run { (transcript : Items Entry) → CarriesUnits transcript → EachKeeps breaks_payload [] transcript }
    ensures table { (transcript table : Items Entry) → AllByRecursion IsOfTable table → EachKeeps breaks_payload [] transcript →
        EachKeeps breaks_payload [] (transcript ++ table) }
{}

/// A frame breaks it that carries what a unit says whose checksum became wrong.
pub fn garbled_units_ask_nothing()
    ensures { EachKeeps breaks_payload [] aired_as_garbled → ⊥ }
{}
