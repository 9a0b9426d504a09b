//! How a Set or Get that a line asked for ended, as a host alone and all lines say it.

ghost use Rattle.std.specs.List.{flat_map};
ghost use Rattle.std.specs.Prelude.{◌≡◌, if◌then◌else◌, Some, List, [], ◌∷◌, ℕ};
ghost use Rattle.s0_crypto.specs.Sealing.{keys_of};
ghost use Rattle.device_sim.specs.State.{State};
ghost use Rattle.zw_text.specs.declared.entry.Entry.{Entry};
ghost use Rattle.law_transcript.specs.Lists.{EachAfter};
ghost use Rattle.law_transcript.specs.Nodes.{always, listing_of};
ghost use Rattle.law_transcript.specs.Payloads.{SendsWhatIsDue};
ghost use Rattle.law_transcript.specs.Units.{sending_in};
ghost use Rattle.law_time.specs.Errands.{SaysHowDone, errand};
ghost use Rattle.law_time.specs.Requests.{asked};
ghost use Rattle.world_model.specs.State.{first_machine};
ghost use Rattle.world_lines.specs.Spoken.{Spoken, transcript_of};
ghost use Rattle.world_lines.specs.Done.{AreDone};
ghost use Rattle.proof_requests.specs.law_host.Heard.{heard_by_host, listing_heard};
ghost use Rattle.proof_requests.specs.proof_alone.State.{first_alone};
ghost use Rattle.proof_requests.specs.proof_alone.Runs.{Told};
ghost use Rattle.proof_requests.specs.Carrying.{is_errand};
ghost use Rattle.proof_requests.specs.Ends.{TellsEnd};

use crate::sends::hosts_send_what_is_due;
use proof_requests::{hosts_tell_of_ends, lines_are_a_hosts, what_is_heard_is_a_hosts};
use proof_sending::{lines_ask_for_what_is_queued, lines_send_what_is_due};

/// Where each end of a request is told as the transcript has it, and each payload that was asked to be sent was due, how a Set or Get ended that a line asked
/// for is said where it ended so, and is said directly after each frame of the chip that ends one.
pub fn ends_say_how_done()
    ensures { (listing : List Entry → ℕ → List ℕ) (key : List ℕ) (told : List Entry) → SendsWhatIsDue listing key told → EachAfter TellsEnd [] told →
        SaysHowDone listing told }
{
    lines_ask_for_what_is_queued();
}

/// Where each payload that was asked to be sent was due, the nodes of the Set or Get of a line that the last request carries are those to which it carries a
/// command of such a class by itself. So it is in any run of a host alone, over a keeper that tells its records and has none at first.
pub fn errands_are_carried()
    ensures due { (listing : List Entry → ℕ → List ℕ) (key : List ℕ) (past : List Entry) → SendsWhatIsDue listing key past →
        errand listing past ≡
        flat_map (λ carried. if is_errand carried.payload then carried.node ∷ [] else []) (sending_in (asked past).frame) }
    ensures told { (key : List ℕ) (told : List Entry) → Told (first_alone (keys_of key) (Some [])) told →
        errand listing_heard told ≡
        flat_map (λ carried. if is_errand carried.payload then carried.node ∷ [] else []) (sending_in (asked told).frame) }
{
    hosts_send_what_is_due();
    lines_ask_for_what_is_queued();
}

/// So it is told by a host alone over a keeper that tells its records and has none at first, whatever bytes came: what a line asked for is the text for the
/// classes that the host heard its node list.
pub fn hosts_say_how_done()
    ensures { (key : List ℕ) (told : List Entry) → Told (first_alone (keys_of key) (Some [])) told → SaysHowDone listing_heard told }
{
    hosts_send_what_is_due();
    hosts_tell_of_ends();
    ends_say_how_done();
}

/// And so it is over any lines from the first on, the last of which an allocation failure may have cut short, by the classes of the devices; and in what the
/// host heard of them.
pub fn lines_say_how_done()
    ensures lines { (key : List ℕ) (devices : List State) (lines : List Spoken) → AreDone (first_machine (keys_of key) (Some []) devices) lines →
        SaysHowDone (always (listing_of devices)) (transcript_of (first_machine (keys_of key) (Some []) devices) lines) }
    ensures heard { (key : List ℕ) (devices : List State) (lines : List Spoken) → AreDone (first_machine (keys_of key) (Some []) devices) lines →
        SaysHowDone listing_heard (heard_by_host (transcript_of (first_machine (keys_of key) (Some []) devices) lines)) }
{
    lines_are_a_hosts();
    what_is_heard_is_a_hosts();
    lines_send_what_is_due();
    hosts_tell_of_ends();
    ends_say_how_done();
    hosts_say_how_done();
}
