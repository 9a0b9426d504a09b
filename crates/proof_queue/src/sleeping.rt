//! Which nodes a host alone lets sleep.

ghost use Rattle.std.specs.Prelude.{◌≡◌, ◌≤◌, ◌+◌, true, false, Some, List, [], ◌∷◌, ◌++◌, ℕ};
ghost use Rattle.s0_crypto.specs.declared.key_pair.Keys.{Keys};
ghost use Rattle.zw_text.specs.declared.entry.Entry.{Entry};
ghost use Rattle.zw_text.specs.declared.entry.Entry.TheVariants.{Time};
ghost use Rattle.host_heard.specs.declared.told.Told.{Told};
ghost use Rattle.law_transcript.specs.Units.{Carried};
ghost use Rattle.law_time.specs.Queue.{with_due};
ghost use Rattle.law_time.specs.Requests.{asked};
ghost use Rattle.proof_attempts.specs.proof_requests.law_host.Heard.{heeds_alone};
ghost use Rattle.proof_attempts.specs.proof_requests.proof_alone.State.{HostMachine, first_alone};
ghost use Rattle.proof_attempts.specs.proof_requests.proof_alone.Phases.{Phase};
ghost use Rattle.proof_attempts.specs.proof_requests.proof_alone.Runs.{Run};
ghost use Rattle.proof_queue.specs.Waiting.{queue_of};
ghost use Rattle.proof_queue.specs.Sleeping.{IsLooking, WaitsIn, full_for, slept, wanting};

use proof_attempts::{
    hosts_hold_as_told, hosts_listen_as_told, hosts_run_series_as_told, hosts_show_open_sessions,
    hosts_tell_of_sleep,
};
use proof_known::{hosts_keep_what_is_said, hosts_know_what_nodes_list, hosts_know_what_was_told};

/// In any run of a host alone, over a keeper that tells its records and has none at first: where what waits by its transcript is what waits in the host, a
/// look at the time puts No More Information into what waits just for those nodes that the next pump of the host lets sleep, in the same order; so after it
/// what waits by the transcript is what waits in the host that has let them sleep. So it is where nothing was looked at and no number of a tick is to be
/// entered, and where the host has looked up to this tick or the one before. And the number of a tick leaves what waits after a look at the time.
pub fn hosts_let_sleep_as_told()
    ensures first { (keys : Keys) (taken : List Entry → Carried → List Told) (here : Phase) (told : List Entry) (m : HostMachine) (owes : List ℕ) →
        Run (first_alone keys (Some [])) here told m → IsLooking here → m.awaits ≡ false →
        WaitsIn (queue_of (heeds_alone taken) told) m.state owes →
        WaitsIn (with_due (heeds_alone taken) told m.clock (asked told) (queue_of (heeds_alone taken) told)) (slept m.state (wanting m.state))
        (owes ++ full_for m.state (wanting m.state)) }
    ensures again { (keys : Keys) (taken : List Entry → Carried → List Told) (here : Phase) (told : List Entry) (m : HostMachine) (owes : List ℕ) (before : ℕ) →
        Run (first_alone keys (Some [])) here told m → IsLooking here → before ≤ m.clock → m.clock ≤ before + 1 →
        WaitsIn (with_due (heeds_alone taken) told before (asked told) (queue_of (heeds_alone taken) told)) m.state owes →
        WaitsIn (with_due (heeds_alone taken) told m.clock (asked told) (queue_of (heeds_alone taken) told)) (slept m.state (wanting m.state))
        (owes ++ full_for m.state (wanting m.state)) }
    ensures numbers { (keys : Keys) (taken : List Entry → Carried → List Told) (here : Phase) (told : List Entry) (m : HostMachine) →
        Run (first_alone keys (Some [])) here told m → IsLooking here → m.awaits ≡ true →
        with_due (heeds_alone taken) (told ++ Time m.clock ∷ []) m.clock (asked (told ++ Time m.clock ∷ []))
        (queue_of (heeds_alone taken) (told ++ Time m.clock ∷ []))
        ≡ with_due (heeds_alone taken) told m.clock (asked told) (queue_of (heeds_alone taken) told) }
{
    hosts_tell_of_sleep();
    hosts_know_what_nodes_list();
    hosts_know_what_was_told();
    hosts_keep_what_is_said();
    hosts_listen_as_told();
    hosts_show_open_sessions();
    hosts_run_series_as_told();
    hosts_hold_as_told();
}
