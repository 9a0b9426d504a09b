//! A host alone is prompt.

ghost use Rattle.std.specs.Prelude.{◌≡◌, Bool, Some, List, [], true};
ghost use Rattle.s0_crypto.specs.declared.key_pair.Keys.{Keys};
ghost use Rattle.zw_text.specs.declared.entry.Entry.{Entry};
ghost use Rattle.host_heard.specs.declared.told.Told.{Told};
ghost use Rattle.law_transcript.specs.Payloads.{BeginsWithUnit};
ghost use Rattle.law_transcript.specs.Units.{Carried};
ghost use Rattle.law_time.specs.Choice.{NumbersCallbacks, SendsOneByOne};
ghost use Rattle.proof_giving.specs.proof_queue.proof_attempts.proof_requests.law_host.law_wire.Serial.{ended};
ghost use Rattle.law_time.specs.Prompt.{IsPrompt};
ghost use Rattle.proof_giving.specs.proof_queue.proof_attempts.proof_requests.law_host.Heard.{heeds_alone};
ghost use Rattle.proof_giving.specs.proof_queue.proof_attempts.proof_requests.proof_alone.State.{HostMachine, first_alone};
ghost use Rattle.proof_giving.specs.proof_queue.proof_attempts.proof_requests.proof_alone.Phases.{Phase, Resting};
ghost use Rattle.proof_giving.specs.proof_queue.proof_attempts.proof_requests.proof_alone.Careful.{Careful};
ghost use Rattle.proof_giving.specs.proof_queue.proof_attempts.proof_requests.proof_alone.Runs.{Run};
ghost use Rattle.proof_giving.specs.proof_queue.Heeding.{AllSteps, HeedsAs, HeedsSo};
ghost use Rattle.proof_following.specs.proof_ends.proof_rests.proof_nonces.proof_known.Known.{AreForHost};

use crate::laws::{hosts_rest_well, hosts_send_in_turn};
use proof_giving::{hosts_give_up_after_three, hosts_queue_as_told};

/// A host alone is prompt in any careful run, over a keeper that tells its records and has none at first, by messages that are heeded as the host took them
/// (`hosts_go_by_messages` of `proof_queue` has some for each run), where no line is refused that is for others, and in the end too where the run ends at rest
/// with no tick of its line to come: its queue is full where it says so, requests are sent in their turn, a command is given up after three attempts, and at
/// a rest nothing is left undone. That requests are sent one after another and numbered, and that a session begins with its message, is asked for: it is
/// proved of any run (`hosts_ask_one_by_one` of `proof_asking`).
pub fn hosts_are_prompt()
    ensures { (keys : Keys) (taken : List Entry → Carried → List Told) (whole : Bool) (here : Phase) (told : List Entry) (m : HostMachine) →
        (run : Run (first_alone keys (Some [])) here told m) → Careful run → AllSteps (HeedsSo (heeds_alone taken)) run →
        AllSteps (HeedsAs (heeds_alone taken)) run → (whole ≡ true → (here ≡ Resting) × (m.left ≡ 0)) → AreForHost told →
        SendsOneByOne told → NumbersCallbacks told → BeginsWithUnit (ended whole told) → IsPrompt whole (heeds_alone taken) told }
{
    hosts_queue_as_told();
    hosts_give_up_after_three();
    hosts_send_in_turn();
    hosts_rest_well();
}
