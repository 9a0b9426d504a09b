//! The answers to lines.

ghost use Rattle.std.specs.Prelude.{false, true, Some, List, []};
ghost use Rattle.s0_crypto.specs.declared.key_pair.Keys.{Keys};
ghost use Rattle.device_sim.specs.State.{State};
ghost use Rattle.law_host.specs.law_transcript.Answers.{AnswersLines, ReadsItsRecords};
ghost use Rattle.proof_air.specs.world_model.State.{first_machine};
ghost use Rattle.proof_air.specs.world_lines.Spoken.{Spoken, transcript_of};
ghost use Rattle.proof_air.specs.world_lines.Done.{AreDone};
ghost use Rattle.proof_air.specs.world_lines.Whole.{AreWhole};

use crate::{lines_number_frames, what_is_told};
use host_keep::texts_give_one_thing;
use proof_air::{
    a_host_begins_with_what_is_kept, a_restart_keeps_what_is_held, facts_are_kept, laws_follow,
    lines_refuse_what_is_old,
};
use proof_spoken::{
    answers_stand_after_their_lines, interviews_give_what_is_known, lines_keep_and_ask_well,
    lines_tell_what_nodes_list, restarts_go_on, tables_are_what_was_said, tables_keep_orders,
    the_machine_keeps_facts,
};

/// Over lines that are said one after another, over a keeper that tells its records and has none at first, each line has the one answer that the
/// transcript before it demands, and no answer stands elsewhere. An allocation failure may have cut the last line short: then it may lack its answer.
/// And no restart meets an invalid record.
pub fn lines_are_answered()
    ensures part { (keys : Keys) (devices : List State) (lines : List Spoken) → AreDone (first_machine keys (Some []) devices) lines →
        AnswersLines false devices (transcript_of (first_machine keys (Some []) devices) lines) }
    ensures reads { (keys : Keys) (devices : List State) (lines : List Spoken) → AreDone (first_machine keys (Some []) devices) lines →
        ReadsItsRecords (transcript_of (first_machine keys (Some []) devices) lines) }
    ensures whole { (keys : Keys) (devices : List State) (lines : List Spoken) → AreDone (first_machine keys (Some []) devices) lines →
        AreWhole (first_machine keys (Some []) devices) lines →
        AnswersLines true devices (transcript_of (first_machine keys (Some []) devices) lines) }
{
    the_machine_keeps_facts();
    lines_tell_what_nodes_list();
    interviews_give_what_is_known();
    answers_stand_after_their_lines();
    tables_are_what_was_said();
    tables_keep_orders();
    laws_follow();
    what_is_told();
    lines_number_frames();
    lines_refuse_what_is_old();
    facts_are_kept();
    a_host_begins_with_what_is_kept();
    a_restart_keeps_what_is_held();
    lines_keep_and_ask_well();
    restarts_go_on();
    texts_give_one_thing();
}
