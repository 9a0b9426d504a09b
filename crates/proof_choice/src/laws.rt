//! A host alone sends in turn, and rests well.

ghost use Rattle.std.specs.Prelude.{◌≡◌, Some, List, [], false, true};
ghost use Rattle.s0_crypto.specs.declared.key_pair.Keys.{Keys};
ghost use Rattle.zw_text.specs.declared.entry.Entry.{Entry};
ghost use Rattle.host_heard.specs.declared.told.Told.{Told};
ghost use Rattle.law_transcript.specs.Units.{Carried};
ghost use Rattle.law_time.specs.Choice.{SendsInTurn};
ghost use Rattle.law_time.specs.Rests.{RestsWell};
ghost use Rattle.proof_giving.specs.proof_queue.proof_attempts.proof_requests.law_host.Heard.{heeds_alone};
ghost use Rattle.proof_giving.specs.proof_queue.proof_attempts.proof_requests.proof_alone.State.{HostMachine, first_alone};
ghost use Rattle.proof_giving.specs.proof_queue.proof_attempts.proof_requests.proof_alone.Phases.{Phase, Resting};
ghost use Rattle.proof_giving.specs.proof_queue.proof_attempts.proof_requests.proof_alone.Runs.{Run, both_know};
ghost use Rattle.proof_giving.specs.proof_queue.proof_attempts.proof_requests.proof_alone.Careful.{Careful};
ghost use Rattle.proof_giving.specs.proof_queue.Heeding.{AllSteps, HeedsAs, HeedsSo};
ghost use Rattle.proof_choice.specs.Turning.{AllAlong, KnowsAll};
ghost use Rattle.proof_choice.specs.Waits.{AskingGround};

use crate::known::{hosts_block_as_told, hosts_give_as_carried};
use host_keep::texts_give_one_thing;
use host_model::attempts_have_what_they_give;
use proof_following::{
    hosts_ask_as_told, hosts_hold_as_told, hosts_keep_what_is_said, hosts_know_their_work,
    hosts_know_what_nodes_list, hosts_know_what_was_told, hosts_leave_nothing,
    hosts_run_series_as_told, hosts_show_open_sessions, hosts_tell_of_sleep, tasks_end_in_order,
};
use proof_giving::{
    attempts_grow_by_entries, attempts_leave_none_to_give_up, attempts_stay_with_the_request,
    hosts_count_attempts, hosts_queue_as_told,
};

/// In any careful run of a host alone, over a keeper that tells its records and has none at first, by messages that are heeded as the host took them: where
/// it submits, and where it rests, all that it goes by is as its transcript tells.
pub fn hosts_know_what_they_choose()
    ensures { (keys : Keys) (taken : List Entry → Carried → List Told) (here : Phase) (told : List Entry) (m : HostMachine) →
        (run : Run (first_alone keys (Some [])) here told m) → Careful run → AllSteps (HeedsSo (heeds_alone taken)) run →
        AllSteps (HeedsAs (heeds_alone taken)) run →
        AllAlong (both_know (AskingGround (heeds_alone taken)) (KnowsAll (heeds_alone taken))) run }
{
    hosts_queue_as_told();
    hosts_block_as_told();
    hosts_give_as_carried();
    attempts_leave_none_to_give_up();
    hosts_count_attempts();
    attempts_grow_by_entries();
    attempts_stay_with_the_request();
    texts_give_one_thing();
    attempts_have_what_they_give();
    hosts_ask_as_told();
    hosts_tell_of_sleep();
    hosts_know_what_nodes_list();
    hosts_know_what_was_told();
    hosts_keep_what_is_said();
    hosts_run_series_as_told();
    hosts_hold_as_told();
    hosts_show_open_sessions();
}

/// So in such a run each request that is new, and each session that begins, does so in its turn: an abort that is owed goes first, then what has waited
/// longest, and then what the session of the node that is next has to send.
pub fn hosts_send_in_turn()
    ensures { (keys : Keys) (taken : List Entry → Carried → List Told) (here : Phase) (told : List Entry) (m : HostMachine) →
        (run : Run (first_alone keys (Some [])) here told m) → Careful run → AllSteps (HeedsSo (heeds_alone taken)) run →
        AllSteps (HeedsAs (heeds_alone taken)) run →
        SendsInTurn (heeds_alone taken) told }
{
    hosts_know_what_they_choose();
    hosts_know_their_work();
    hosts_queue_as_told();
    attempts_have_what_they_give();
    attempts_grow_by_entries();
}

/// And at each rest nothing is left that was asked for, no command waits for a node that is awake, no part of an attempt, and no attempt, is left unsent, and
/// none is overdue. Where the run ends at rest, with no tick of its line to come, so it is in the end.
pub fn hosts_rest_well()
    ensures told { (keys : Keys) (taken : List Entry → Carried → List Told) (here : Phase) (told : List Entry) (m : HostMachine) →
        (run : Run (first_alone keys (Some [])) here told m) → Careful run → AllSteps (HeedsSo (heeds_alone taken)) run →
        AllSteps (HeedsAs (heeds_alone taken)) run →
        RestsWell false (heeds_alone taken) told }
    ensures whole { (keys : Keys) (taken : List Entry → Carried → List Told) (told : List Entry) (m : HostMachine) →
        (run : Run (first_alone keys (Some [])) Resting told m) → m.left ≡ 0 → Careful run → AllSteps (HeedsSo (heeds_alone taken)) run →
        AllSteps (HeedsAs (heeds_alone taken)) run →
        RestsWell true (heeds_alone taken) told }
{
    hosts_know_what_they_choose();
    attempts_grow_by_entries();
    tasks_end_in_order();
    hosts_leave_nothing();
}
