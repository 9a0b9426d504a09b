//! Which final outcome a command has.

ghost use Rattle.std.specs.Prelude.{◌≡◌, ◌++◌, List, Some, [], true, ℕ};
ghost use Rattle.std.specs.List.{AllByRecursion, list_all};
ghost use Rattle.s0_crypto.specs.declared.key_pair.Keys.{Keys};
ghost use Rattle.zw_text.specs.Transcript.{lines_run, outcome, sessions};
ghost use Rattle.law_transcript.specs.Lists.{Has};
ghost use Rattle.law_time.specs.Sessions.{is_final};
ghost use Rattle.law_time.specs.Stretches.{answers_all, commands_in, is_quiet_line, workers};
ghost use Rattle.law_time.specs.Verdicts.{is_answered};
ghost use Rattle.device_sim.specs.State.{State};
ghost use Rattle.world_model.specs.State.{first_machine};
ghost use Rattle.world_lines.specs.Spoken.{Spoken, after_all, transcript_of};
ghost use Rattle.world_lines.specs.Done.{AreDone, events_of};
ghost use Rattle.proof_course_plain.specs.Judged.{IsNoHand};
ghost use Rattle.proof_in_time.specs.Judging.{IsJudgedOver};

use law_transcript::when_changes_come;
use proof_course_plain::{
    at_most_two_are_on_the_air, devices_go_on, devices_judge_what_is_asked, devices_stay_the_same,
    hosts_write_well, laws_follow, lines_ask_plainly, lines_have_a_course, lines_keep_and_ask_well,
    restarts_go_on, units_are_judged_whole, worlds_follow_the_course,
};
use proof_course_sealed::{
    lines_ask_fitly, lines_have_courses, locks_judge_what_is_asked, worlds_follow_the_courses,
};
use proof_host::asides_keep_facts;
use proof_messages::messages_open;
use proof_spoken::{
    answers_stand_after_their_lines, interviews_give_what_is_known, lines_tell_what_nodes_list,
    orders_are_carried_as_said, runs_have_their_tables, tables_keep_orders,
    the_machine_keeps_facts,
};

/// Over any lines that were read, whatever is lost, repeated or changed, for a node whose first device is as its maker left it: one that takes what is not
/// sealed, where the orders for the node go unsealed, whole or in segments, or a lock. Where lines after others do not set that device by hand, each command
/// whose session began in these and that has a final outcome has the one that the kind of the device says of the message of its session, on the values that
/// it had as the session began: those before these lines, and what it made since.
pub fn outcomes_are_as_judged()
    ensures { (n command : ℕ) (keys : Keys) (devices : List State) (before lines : List Spoken) → IsJudgedOver keys devices (events_of (before ++ lines)) n →
        AllByRecursion (IsNoHand n) (events_of lines) → AreDone (first_machine keys (Some []) devices) (before ++ lines) →
        Has (sessions n (transcript_of (after_all (first_machine keys (Some []) devices) before) lines)) command →
        is_final (outcome command (transcript_of (first_machine keys (Some []) devices) (before ++ lines))) ≡ true →
        is_answered (after_all (first_machine keys (Some []) devices) before).outside.devices
        (transcript_of (first_machine keys (Some []) devices) before)
        (transcript_of (after_all (first_machine keys (Some []) devices) before) lines) n command ≡ true }
{
    when_changes_come();
    at_most_two_are_on_the_air();
    devices_go_on();
    devices_judge_what_is_asked();
    devices_stay_the_same();
    hosts_write_well();
    laws_follow();
    lines_ask_plainly();
    lines_have_a_course();
    lines_keep_and_ask_well();
    restarts_go_on();
    units_are_judged_whole();
    worlds_follow_the_course();
    lines_ask_fitly();
    lines_have_courses();
    locks_judge_what_is_asked();
    worlds_follow_the_courses();
    asides_keep_facts();
    messages_open();
    answers_stand_after_their_lines();
    interviews_give_what_is_known();
    lines_tell_what_nodes_list();
    orders_are_carried_as_said();
    tables_keep_orders();
    the_machine_keeps_facts();
}

/// So over a stretch of quiet lines: each command that waited before it, or was accepted in it, and has a final outcome has that one.
pub fn stretches_end_as_judged()
    ensures { (n command : ℕ) (keys : Keys) (devices : List State) (before lines : List Spoken) → IsJudgedOver keys devices (events_of (before ++ lines)) n →
        AreDone (first_machine keys (Some []) devices) (before ++ lines) →
        list_all is_quiet_line (lines_run (transcript_of (after_all (first_machine keys (Some []) devices) before) lines)) ≡ true →
        Has (commands_in (transcript_of (first_machine keys (Some []) devices) before)
        (transcript_of (after_all (first_machine keys (Some []) devices) before) lines) n) command →
        is_final (outcome command (transcript_of (first_machine keys (Some []) devices) (before ++ lines))) ≡ true →
        is_answered (after_all (first_machine keys (Some []) devices) before).outside.devices
        (transcript_of (first_machine keys (Some []) devices) before)
        (transcript_of (after_all (first_machine keys (Some []) devices) before) lines) n command ≡ true }
{
    laws_follow();
    asides_keep_facts();
    lines_tell_what_nodes_list();
    runs_have_their_tables();
    the_machine_keeps_facts();
    outcomes_are_as_judged();
}

/// And where all nodes at work are such, and each of their commands has a final outcome, the stretch is answered.
pub fn stretches_are_answered()
    ensures { (keys : Keys) (devices : List State) (before lines : List Spoken) → AreDone (first_machine keys (Some []) devices) (before ++ lines) →
        list_all is_quiet_line (lines_run (transcript_of (after_all (first_machine keys (Some []) devices) before) lines)) ≡ true →
        ((n : ℕ) → Has (workers (transcript_of (first_machine keys (Some []) devices) before)
        (transcript_of (after_all (first_machine keys (Some []) devices) before) lines)) n → IsJudgedOver keys devices (events_of (before ++ lines)) n) →
        list_all (λ node. list_all (λ command. is_final (outcome command (transcript_of (first_machine keys (Some []) devices) before ++
        transcript_of (after_all (first_machine keys (Some []) devices) before) lines)))
        (commands_in (transcript_of (first_machine keys (Some []) devices) before)
        (transcript_of (after_all (first_machine keys (Some []) devices) before) lines) node))
        (workers (transcript_of (first_machine keys (Some []) devices) before)
        (transcript_of (after_all (first_machine keys (Some []) devices) before) lines)) ≡ true →
        answers_all (after_all (first_machine keys (Some []) devices) before).outside.devices
        (transcript_of (first_machine keys (Some []) devices) before)
        (transcript_of (after_all (first_machine keys (Some []) devices) before) lines) ≡ true }
{
    stretches_end_as_judged();
}
