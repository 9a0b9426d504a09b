//! What waits to be asked of the chip of a host alone.

ghost use Rattle.std.specs.Prelude.{◌≡◌, false, Some, List, [], ◌∷◌};
ghost use Rattle.s0_crypto.specs.declared.key_pair.Keys.{Keys};
ghost use Rattle.serial_frame.specs.Frame.{FrameParts};
ghost use Rattle.serial_frame.specs.Items.{unit_text};
ghost use Rattle.serial_frame.specs.declared.unit.Unit.TheVariants.{Ack, Framed};
ghost use Rattle.serial_frame.specs.declared.unit.Unit.{Unit as LineUnit};
ghost use Rattle.zw_words.specs.declared.side.Side.TheVariants.{Host};
ghost use Rattle.zw_text.specs.declared.entry.Entry.TheVariants.{Written};
ghost use Rattle.zw_text.specs.declared.entry.Entry.{Entry};
ghost use Rattle.host_heard.specs.declared.told.Told.{Told};
ghost use Rattle.law_transcript.specs.Units.{Carried};
ghost use Rattle.law_time.specs.Queue.{FitsQueue, queue_before};
ghost use Rattle.proof_attempts.specs.proof_requests.law_host.Heard.{heeds_alone};
ghost use Rattle.proof_attempts.specs.proof_requests.proof_alone.State.{HostMachine, first_alone};
ghost use Rattle.proof_attempts.specs.proof_requests.proof_alone.Phases.{Open, Phase, Resting, Submitting};
ghost use Rattle.proof_attempts.specs.proof_requests.proof_alone.Runs.{Run};
ghost use Rattle.proof_attempts.specs.proof_requests.proof_alone.Careful.{Careful, MayJudge, stage_of};
ghost use Rattle.proof_known.specs.Known.{AreForHost};
ghost use Rattle.proof_queue.specs.Waiting.{Waits, WaitsAtLooks};
ghost use Rattle.proof_queue.specs.Heeding.{AllSteps, HeedsSo};
ghost use Rattle.proof_queue.specs.Turn.{GoesByQueue};

use host_model::attempts_have_what_they_give;
use proof_attempts::{
    hosts_ask_as_told, hosts_hold_as_told, hosts_run_series_as_told, hosts_show_open_sessions,
    hosts_tell_of_sleep,
};
use proof_known::{hosts_keep_what_is_said, hosts_know_what_nodes_list, hosts_know_what_was_told};

/// In any careful run of a host alone, also where it starts again, over a keeper that tells its records and has none at first, by messages that are heeded as
/// the host took them: where it submits, and where it rests, what waits by the transcript before each entry at which it looks is what waits in the host, and
/// where it is to judge a frame, what waits before its acknowledgement. So where no line is refused that is for others, a line is refused for places exactly
/// where it asks for more than are free, and a message to a node is dropped, which is said, exactly where 64 wait. And requests go by the queue: an abort just
/// where one is owed, then what has waited longest, and a session has its turn, or begins, only where nothing waits.
pub fn hosts_queue_as_told()
    ensures submits { (keys : Keys) (taken : List Entry → Carried → List Told) (told : List Entry) (m : HostMachine) →
        (run : Run (first_alone keys (Some [])) Submitting told m) → Careful run → AllSteps (HeedsSo (heeds_alone taken)) run →
        WaitsAtLooks (heeds_alone taken) told m }
    ensures rests { (keys : Keys) (taken : List Entry → Carried → List Told) (told : List Entry) (m : HostMachine) →
        (run : Run (first_alone keys (Some [])) Resting told m) → Careful run → AllSteps (HeedsSo (heeds_alone taken)) run →
        WaitsAtLooks (heeds_alone taken) told m }
    ensures judges { (keys : Keys) (taken : List Entry → Carried → List Told) (told : List Entry) (m : HostMachine) (f : FrameParts) (rest : List LineUnit) →
        (run : Run (first_alone keys (Some [])) Open told m) → Careful run → AllSteps (HeedsSo (heeds_alone taken)) run → m.came ≡ Framed f ∷ rest →
        m.awaits ≡ false → MayJudge (stage_of run) → Waits (queue_before (heeds_alone taken) told (Written Host (unit_text Ack))) m.state.requests.queue [] }
    ensures fits { (keys : Keys) (taken : List Entry → Carried → List Told) (here : Phase) (told : List Entry) (m : HostMachine) →
        (run : Run (first_alone keys (Some [])) here told m) → Careful run → AllSteps (HeedsSo (heeds_alone taken)) run → AreForHost told →
        FitsQueue (heeds_alone taken) told }
    ensures goes { (keys : Keys) (taken : List Entry → Carried → List Told) (here : Phase) (told : List Entry) (m : HostMachine) →
        (run : Run (first_alone keys (Some [])) here told m) → Careful run → AllSteps (HeedsSo (heeds_alone taken)) run →
        GoesByQueue (heeds_alone taken) told }
{
    attempts_have_what_they_give();
    hosts_ask_as_told();
    hosts_know_what_nodes_list();
    hosts_keep_what_is_said();
    hosts_know_what_was_told();
    hosts_show_open_sessions();
    hosts_tell_of_sleep();
    hosts_run_series_as_told();
    hosts_hold_as_told();
}
