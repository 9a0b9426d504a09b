//! The laws of the table at the end of a run.

ghost use Rattle.std.specs.Prelude.{◌≡◌, Some, List, []};
ghost use Rattle.s0_crypto.specs.declared.key_pair.Keys.{Keys};
ghost use Rattle.device_sim.specs.State.{State};
ghost use Rattle.zw_text.specs.Transcript.{lines_run};
ghost use Rattle.law_host.specs.law_transcript.Nodes.{always, listing_of};
ghost use Rattle.law_host.specs.law_transcript.Restarts.{ticks_asked};
ghost use Rattle.law_host.specs.law_transcript.Table.{table_of};
ghost use Rattle.proof_air.specs.world_model.State.{first_machine};
ghost use Rattle.proof_air.specs.world_model.Table.{table_entries};
ghost use Rattle.proof_air.specs.world_lines.Spoken.{Spoken, after_all, transcript_of};
ghost use Rattle.proof_air.specs.world_lines.Done.{AreDone};
ghost use Rattle.proof_transcript.specs.Told.{IsTold};
ghost use Rattle.proof_air.specs.world_lines.Whole.{AreWhole};

use host_keep::texts_give_one_thing;
use host_node::a_restart_needs_the_records_alone;
use proof_air::{a_restart_keeps_what_is_held, laws_follow};
use proof_spoken::{
    answers_stand_after_their_lines, interviews_give_what_is_known, lines_keep_and_ask_well,
    lines_tell_what_nodes_list, restarts_go_on, runs_have_their_tables, the_machine_keeps_facts,
};

/// Over lines that were run whole, over a keeper that tells its records and has none at first: the clock counts the ticks that lines asked
/// for, the joined nodes are node 2 and those of the `join` lines that were not refused, and what was heard of a property is what its node
/// reported since the last restart.
pub fn what_is_told()
    ensures { (keys : Keys) (devices : List State) (lines : List Spoken) → AreDone (first_machine keys (Some []) devices) lines →
        AreWhole (first_machine keys (Some []) devices) lines →
        IsTold (transcript_of (first_machine keys (Some []) devices) lines) (after_all (first_machine keys (Some []) devices) lines) }
{
    a_restart_needs_the_records_alone();
    texts_give_one_thing();
    a_restart_keeps_what_is_held();
    lines_keep_and_ask_well();
    the_machine_keeps_facts();
    restarts_go_on();
}

/// So the table of the machine after such lines is the one that the transcript shows, at the clock of the ticks that lines asked for and
/// with the devices as they are then.
pub fn tables_are_what_is_shown()
    ensures { (keys : Keys) (devices : List State) (lines : List Spoken) → AreDone (first_machine keys (Some []) devices) lines →
        AreWhole (first_machine keys (Some []) devices) lines →
        table_entries (after_all (first_machine keys (Some []) devices) lines)
        ≡ table_of (always (listing_of devices)) (ticks_asked (lines_run (transcript_of (first_machine keys (Some []) devices) lines)))
        (transcript_of (first_machine keys (Some []) devices) lines)
        (after_all (first_machine keys (Some []) devices) lines).outside.devices }
{
    the_machine_keeps_facts();
    laws_follow();
    lines_tell_what_nodes_list();
    interviews_give_what_is_known();
    answers_stand_after_their_lines();
    runs_have_their_tables();
    what_is_told();
}
