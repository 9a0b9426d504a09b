//! The records at the end of a run.

ghost use Rattle.std.specs.Prelude.{Some, List, []};
ghost use Rattle.s0_crypto.specs.declared.key_pair.Keys.{Keys};
ghost use Rattle.device_sim.specs.State.{State};
ghost use Rattle.proof_air.specs.world_model.State.{first_machine};
ghost use Rattle.proof_air.specs.world_lines.Spoken.{Spoken, after_all, transcript_of};
ghost use Rattle.proof_air.specs.world_lines.Done.{AreDone};
ghost use Rattle.proof_air.specs.world_lines.Whole.{AreWhole};
ghost use Rattle.proof_transcript.specs.Records.{HasRecords};

use crate::what_is_told;
use host_keep::a_text_is_of_one_record;
use proof_air::laws_follow;
use proof_spoken::{
    answers_stand_after_their_lines, interviews_give_what_is_known, lines_keep_and_ask_well,
    lines_tell_what_nodes_list, restarts_go_on, tables_are_what_was_said, the_machine_keeps_facts,
};

/// Over lines that were run whole, over a keeper that tells its records and has none at first: its records are legal, and give exactly the orders that were
/// accepted, the commands that were cancelled, the sessions with their final outcomes, and the joined and interviewed nodes that the transcript shows.
pub fn records_are_what_is_shown()
    ensures { (keys : Keys) (devices : List State) (lines : List Spoken) → AreDone (first_machine keys (Some []) devices) lines →
        AreWhole (first_machine keys (Some []) devices) lines →
        HasRecords (transcript_of (first_machine keys (Some []) devices) lines) (after_all (first_machine keys (Some []) devices) lines).records }
{
    lines_tell_what_nodes_list();
    interviews_give_what_is_known();
    answers_stand_after_their_lines();
    the_machine_keeps_facts();
    lines_keep_and_ask_well();
    restarts_go_on();
    laws_follow();
    what_is_told();
    tables_are_what_was_said();
    a_text_is_of_one_record();
}
