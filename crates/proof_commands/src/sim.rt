//! The laws of whole runs of `sim`: each is the contract of a function that does nothing.

ghost use Rattle.std.specs.Prelude.{ℕ, List};
ghost use Rattle.run_lines.specs.declared.status.Status.{Status};
ghost use Rattle.run_all.specs.Around.{Around};
ghost use Rattle.proof_commands.specs.Sim.{EndsWithTable, HasStory, IsAudited, SimKeepsLaws};
ghost use Rattle.proof_commands.specs.RestartReads.{ReadsAtRestarts};

use crate::laws::every_story_keeps_laws;
use crate::{lines_are_read_as_said, said_lines_are_entries};
use proof_audit::{
    accepted_orders_were_asked, changes_are_entered_whole, entries_are_legible,
    frames_keep_the_rule_of_the_air, kept_rules_answer_yes, laws_keep_every_rule,
    lines_are_answered, lines_carry_units, lines_show_texts, lines_show_what_is_kept,
    sessions_begin_before_changes, tables_are_what_is_shown, values_are_stored_directly,
};

/// Every run of `sim` has a story, and one that ends well writes its table, and is in order as `audit` judges.
pub fn sim_keeps_laws()
    ensures { (ended : Status) (key : List ℕ) (old new : Around) → SimKeepsLaws ended key old new }
{
    runs_have_stories();
    runs_end_with_tables();
    runs_are_in_order();
}

/// Each run of `sim` has a story: its lines, each with the events of the machine that it was.
fn runs_have_stories()
    ensures { (ended : Status) (key : List ℕ) (old new : Around) → HasStory ended key old new }
{}

/// A restart reads the records, in each run of `sim`.
pub fn restarts_read_records()
    ensures { (ended : Status) (key : List ℕ) (old new : Around) → ReadsAtRestarts ended key old new }
{}

/// What is written of a run that ends well ends with the table that its transcript shows.
fn runs_end_with_tables()
    ensures { (ended : Status) (key : List ℕ) (old new : Around) → EndsWithTable ended key old new }
{
    lines_are_read_as_said();
    tables_are_what_is_shown();
}

/// What is written of a run that ends well is judged to be in order: its entries are read back, and each rule is kept.
fn runs_are_in_order()
    ensures { (ended : Status) (key : List ℕ) (old new : Around) → IsAudited ended key old new }
{
    lines_are_read_as_said();
    said_lines_are_entries();
    tables_are_what_is_shown();
    lines_show_texts();
    entries_are_legible();
    kept_rules_answer_yes();
    every_story_keeps_laws();
    lines_are_answered();
    lines_show_what_is_kept();
    accepted_orders_were_asked();
    changes_are_entered_whole();
    sessions_begin_before_changes();
    frames_keep_the_rule_of_the_air();
    lines_carry_units();
    values_are_stored_directly();
    laws_keep_every_rule();
}
