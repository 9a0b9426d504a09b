//! The attempts of each node along runs of a host alone.

ghost use Rattle.std.specs.Prelude.{◌≡◌, ℕ, ◌-◌, false, true, Some, List, []};
ghost use Rattle.s0_crypto.specs.declared.key_pair.Keys.{Keys};
ghost use Rattle.zw_text.specs.declared.entry.Entry.{Entry};
ghost use Rattle.host_heard.specs.declared.told.Told.{Told};
ghost use Rattle.law_transcript.specs.Units.{Carried};
ghost use Rattle.law_time.specs.Moments.{KeepsAfter};
ghost use Rattle.law_time.specs.Unanswered.{GivesUpAfterThree, none_to_give_up};
ghost use Rattle.proof_queue.specs.proof_attempts.proof_requests.law_host.Heard.{heeds_alone};
ghost use Rattle.proof_queue.specs.proof_attempts.proof_requests.proof_alone.State.{HostMachine, first_alone};
ghost use Rattle.proof_queue.specs.proof_attempts.proof_requests.proof_alone.Phases.{Phase, Resting};
ghost use Rattle.proof_queue.specs.proof_attempts.proof_requests.proof_alone.Runs.{Run};
ghost use Rattle.proof_queue.specs.proof_attempts.proof_requests.proof_alone.Careful.{Careful};
ghost use Rattle.proof_queue.specs.Heeding.{AllSteps, HeedsAs, HeedsSo};
ghost use Rattle.proof_giving.specs.Walking.{Grounds, KnowsAttempts, RestsAt, gives_up_well};

use crate::requests::attempts_end_with_requests;
use host_model::attempts_have_what_they_give;
use proof_host::laws_follow;
use proof_queue::{
    hosts_ask_as_told, hosts_keep_what_is_said, hosts_know_what_nodes_list, hosts_queue_as_told,
    hosts_show_open_sessions, hosts_tell_of_sleep, orders_are_carried_as_said,
};

/// In any careful run of a host alone, also where it starts again, over a keeper that tells its records and has none at first, by messages that are heeded as
/// the host took them: each node is tied to its attempts at each phase, so where the host submits and where it rests, and after an item with the sign that
/// is still to come. What it depends on holds along any run (`grounds`).
pub fn hosts_count_attempts()
    ensures grounds { (keys : Keys) (taken : List Entry → Carried → List Told) (here : Phase) (told : List Entry) (m : HostMachine) →
        Run (first_alone keys (Some [])) here told m → Grounds (heeds_alone taken) here told m }
    ensures known { (keys : Keys) (taken : List Entry → Carried → List Told) (here : Phase) (told : List Entry) (m : HostMachine) →
        (run : Run (first_alone keys (Some [])) here told m) → Careful run → AllSteps (HeedsSo (heeds_alone taken)) run →
        AllSteps (HeedsAs (heeds_alone taken)) run → KnowsAttempts (heeds_alone taken) here told m }
{
    attempts_have_what_they_give();
    laws_follow();
    orders_are_carried_as_said();
    hosts_ask_as_told();
    hosts_know_what_nodes_list();
    hosts_keep_what_is_said();
    hosts_show_open_sessions();
    hosts_tell_of_sleep();
    hosts_queue_as_told();
    attempts_end_with_requests();
}

/// While the number of a tick is to be entered a transcript is that of a rest, one tick before.
pub fn ticks_begin_at_rest()
    ensures { (keys : Keys) (taken : List Entry → Carried → List Told) (here : Phase) (told : List Entry) (m : HostMachine) →
        (run : Run (first_alone keys (Some [])) here told m) → Careful run → AllSteps (HeedsSo (heeds_alone taken)) run →
        AllSteps (HeedsAs (heeds_alone taken)) run → m.awaits ≡ true → RestsAt taken (first_alone keys (Some [])) told (m.clock - 1) }
{}

/// So in any such run no command is to be given up for a node that joined where the host rests, at its time, and while the number of a tick is to be entered,
/// at the time before.
pub fn hosts_rest_with_none_to_give_up()
    ensures rests { (keys : Keys) (taken : List Entry → Carried → List Told) (told : List Entry) (m : HostMachine) →
        (run : Run (first_alone keys (Some [])) Resting told m) → Careful run → AllSteps (HeedsSo (heeds_alone taken)) run →
        AllSteps (HeedsAs (heeds_alone taken)) run → none_to_give_up (heeds_alone taken) told m.clock ≡ true }
    ensures ticks { (keys : Keys) (taken : List Entry → Carried → List Told) (here : Phase) (told : List Entry) (m : HostMachine) →
        (run : Run (first_alone keys (Some [])) here told m) → Careful run → AllSteps (HeedsSo (heeds_alone taken)) run →
        AllSteps (HeedsAs (heeds_alone taken)) run → m.awaits ≡ true → none_to_give_up (heeds_alone taken) told (m.clock - 1) ≡ true }
{
    hosts_count_attempts();
    ticks_begin_at_rest();
}

/// And a command counts as unanswered only where it is to be given up: where the request of the third attempt of its node ends badly, by a frame, in silence
/// or by the line, or the last sign of that is 100 ticks ago; and none is to be where a line is said or the number of a tick stands.
pub fn hosts_give_up_as_told()
    ensures { (keys : Keys) (taken : List Entry → Carried → List Told) (here : Phase) (told : List Entry) (m : HostMachine) →
        (run : Run (first_alone keys (Some [])) here told m) → Careful run → AllSteps (HeedsSo (heeds_alone taken)) run →
        AllSteps (HeedsAs (heeds_alone taken)) run → KeepsAfter [] (gives_up_well (heeds_alone taken)) told }
{
    hosts_count_attempts();
    hosts_rest_with_none_to_give_up();
}

/// Also directly after the frame that ends the third attempt, where one does: so `GivesUpAfterThree` holds of any such run, and whole where it ends at a rest,
/// with no tick of its line to come.
pub fn hosts_give_up_after_three()
    ensures told { (keys : Keys) (taken : List Entry → Carried → List Told) (here : Phase) (told : List Entry) (m : HostMachine) →
        (run : Run (first_alone keys (Some [])) here told m) → Careful run → AllSteps (HeedsSo (heeds_alone taken)) run →
        AllSteps (HeedsAs (heeds_alone taken)) run → GivesUpAfterThree false (heeds_alone taken) told }
    ensures whole { (keys : Keys) (taken : List Entry → Carried → List Told) (told : List Entry) (m : HostMachine) →
        (run : Run (first_alone keys (Some [])) Resting told m) → Careful run → AllSteps (HeedsSo (heeds_alone taken)) run →
        AllSteps (HeedsAs (heeds_alone taken)) run → m.left ≡ 0 → GivesUpAfterThree true (heeds_alone taken) told }
{
    hosts_count_attempts();
    hosts_rest_with_none_to_give_up();
}
