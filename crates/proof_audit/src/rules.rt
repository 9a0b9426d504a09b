//! Every rule, by the laws of a transcript.

ghost use Rattle.std.specs.Prelude.{◌++◌, ℕ, List as Items};
ghost use Rattle.zw_text.specs.declared.entry.Entry.{Entry};
ghost use Rattle.device_stack.specs.State.{State};
ghost use Rattle.law_transcript.specs.Nodes.{always, listing_of};
ghost use Rattle.law_transcript.specs.Table.{table_of};
ghost use Rattle.proof_audit.specs.Rules.{KeepsLaws};
ghost use Rattle.proof_audit.specs.Whole.{KeepsRules};

use crate::books::{changes_are_made_once, sessions_are_in_order};
use crate::frames::frames_keep_the_rule_of_the_air;
use crate::payloads::carried_payloads_keep_their_rule;
use crate::tables::{a_table_is_its_lines, tables_are_as_due, values_stand_after_success};

/// A transcript that keeps these laws keeps every rule, with the table that it shows after it.
pub fn laws_keep_every_rule()
    ensures { (before after : Items State) (ticks : ℕ) (transcript : Items Entry) → KeepsLaws before after transcript →
        KeepsRules (transcript ++ table_of (always (listing_of before)) ticks transcript after) }
{
    sessions_are_in_order();
    changes_are_made_once();
    frames_keep_the_rule_of_the_air();
    carried_payloads_keep_their_rule();
    values_stand_after_success();
    tables_are_as_due();
    a_table_is_its_lines();
}
