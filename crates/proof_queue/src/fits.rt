//! When the queue of requests of a host alone is full.

ghost use Rattle.std.specs.Prelude.{Some, List, []};
ghost use Rattle.s0_crypto.specs.declared.key_pair.Keys.{Keys};
ghost use Rattle.device_sim.specs.State.{State};
ghost use Rattle.zw_text.specs.declared.entry.Entry.{Entry};
ghost use Rattle.host_heard.specs.declared.told.Told.{Told as Message};
ghost use Rattle.law_transcript.specs.Units.{Carried};
ghost use Rattle.law_time.specs.Queue.{FitsQueue};
ghost use Rattle.proof_attempts.specs.world_model.State.{first_machine};
ghost use Rattle.proof_attempts.specs.world_lines.Spoken.{Spoken, transcript_of};
ghost use Rattle.proof_attempts.specs.world_lines.Done.{AreDone};
ghost use Rattle.proof_attempts.specs.proof_requests.law_host.Heard.{heard_by_host, heeds_alone};
ghost use Rattle.proof_attempts.specs.proof_requests.proof_alone.State.{HostMachine, first_alone};
ghost use Rattle.proof_attempts.specs.proof_requests.proof_alone.Phases.{Phase};
ghost use Rattle.proof_attempts.specs.proof_requests.proof_alone.Runs.{Run};
ghost use Rattle.proof_attempts.specs.proof_requests.proof_alone.Careful.{ToldCarefully};
ghost use Rattle.proof_known.specs.Known.{AreForHost};
ghost use Rattle.proof_queue.specs.Heeding.{AllSteps, HeedsAs, HeedsSo};
ghost use Rattle.proof_queue.specs.Turn.{GoesByQueue};

use crate::queued::hosts_queue_as_told;
use proof_attempts::{
    hosts_ask_as_told, hosts_show_open_sessions, laws_follow, lines_are_a_hosts,
    what_is_heard_is_a_hosts,
};
use proof_known::{hosts_answer_lines, hosts_keep_what_is_said, hosts_know_what_nodes_list};
use proof_sending::orders_are_carried_as_said;

/// For any run of a host alone, over a keeper that tells its records and has none at first, there are messages of each payload such that the host goes by
/// them: those for which it put a Nonce Report or a segment into its queue, took a nonce, or took its node to be at work. A segment that was asked for again is
/// then the one of the open session, byte for byte; and they are the messages of that payload, in its order.
pub fn hosts_go_by_messages()
    ensures { (keys : Keys) (here : Phase) (told : List Entry) (m : HostMachine) → (run : Run (first_alone keys (Some [])) here told m) →
        (taken : List Entry → Carried → List Message) × AllSteps (HeedsSo (heeds_alone taken)) run × AllSteps (HeedsAs (heeds_alone taken)) run }
{
    laws_follow();
    orders_are_carried_as_said();
    hosts_ask_as_told();
    hosts_know_what_nodes_list();
    hosts_keep_what_is_said();
    hosts_show_open_sessions();
}

/// So by such messages the queue of a host alone holds 64, in careful runs, as long as no line is refused that is for others: a line is refused for it exactly
/// where it asks for more places than are free, and a message to a node is dropped, which is said, exactly where 64 wait. And requests go by the queue. So it
/// is of what the host heard of any lines from the first on, the last of which an allocation failure may have cut short.
pub fn hosts_fit_their_queue()
    ensures told { (keys : Keys) (told : List Entry) → ToldCarefully (first_alone keys (Some [])) told → AreForHost told →
        (taken : List Entry → Carried → List Message) × FitsQueue (heeds_alone taken) told × GoesByQueue (heeds_alone taken) told }
    ensures heard { (keys : Keys) (devices : List State) (lines : List Spoken) → AreDone (first_machine keys (Some []) devices) lines →
        (taken : List Entry → Carried → List Message)
        × FitsQueue (heeds_alone taken) (heard_by_host (transcript_of (first_machine keys (Some []) devices) lines))
        × GoesByQueue (heeds_alone taken) (heard_by_host (transcript_of (first_machine keys (Some []) devices) lines)) }
{
    hosts_go_by_messages();
    hosts_queue_as_told();
    hosts_answer_lines();
    lines_are_a_hosts();
    what_is_heard_is_a_hosts();
}
