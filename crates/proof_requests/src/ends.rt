//! How the requests of a host alone end, and what tells of it.

ghost use Rattle.std.specs.Prelude.{◌≡◌, Some, List, [], ◌∷◌, ℕ, true, false};
ghost use Rattle.s0_crypto.specs.declared.key_pair.Keys.{Keys};
ghost use Rattle.device_sim.specs.State.{State};
ghost use Rattle.serial_link.specs.State.{turn_ticked};
ghost use Rattle.zw_text.specs.declared.entry.Entry.{Entry};
ghost use Rattle.proof_waking.specs.law_transcript.Lists.{EachAfter};
ghost use Rattle.proof_waking.specs.law_time.Interviews.{EndsInterviews};
ghost use Rattle.proof_waking.specs.law_time.Moments.{clock};
ghost use Rattle.proof_waking.specs.law_time.Questions.{AnswersQuestions};
ghost use Rattle.host_requests.specs.Events.RequestsEvent.{Ticks};
ghost use Rattle.host_requests.specs.Next.{at_tick};
ghost use Rattle.host_requests.specs.declared.end.How.{How};
ghost use Rattle.host_requests.specs.declared.end.How.TheVariants.{LinkFailed};
ghost use Rattle.host_requests.specs.declared.next.Next.TheVariants.{Ends};
ghost use Rattle.host_requests.specs.declared.under_way.UnderWay.{UnderWay};
ghost use Rattle.host_node.specs.declared.attempt.Moment.TheVariants.{BeforeItsTick};
ghost use Rattle.proof_messages.specs.host_model.After.{gives_up};
ghost use Rattle.proof_messages.specs.host_model.Events.{HostEvent, Line_ticks, Requests_do};
ghost use Rattle.proof_waking.specs.world_model.State.{first_machine};
ghost use Rattle.proof_waking.specs.world_lines.Spoken.{Spoken, transcript_of};
ghost use Rattle.proof_waking.specs.world_lines.Done.{AreDone};
ghost use Rattle.proof_waking.specs.law_host.Heard.{heard_by_host};
ghost use Rattle.proof_waking.specs.proof_alone.State.{HostMachine, first_alone};
ghost use Rattle.proof_waking.specs.proof_alone.Phases.{Phase, Resting, Ticking};
ghost use Rattle.proof_waking.specs.proof_alone.Runs.{Run, Told, Walk, both_know};
ghost use Rattle.proof_requests.specs.Walking.{Ground, KnowsAsked};
ghost use Rattle.proof_requests.specs.Ends.{EndsHere, KnowsEnds, TellsEnd};

use crate::asking::hosts_ask_as_told;
use proof_waking::{lines_are_a_hosts, what_is_heard_is_a_hosts};

/// Where the request of a host ends, it ends by the transcript, in that way and there: by a frame of the chip where that was judged, by a wait at its tick,
/// and by the line where that gives it up. So each entry that tells of an end stands where the transcript has that end; and directly after a frame that ends a
/// request whose end is told stands the entry that tells it.
pub fn hosts_tell_of_ends()
    ensures walk { Walk TellsEnd (both_know (both_know Ground KnowsAsked) KnowsEnds) }
    ensures first { (keys : Keys) → both_know (both_know Ground KnowsAsked) KnowsEnds Resting [] (first_alone keys (Some [])) }
    ensures told { (keys : Keys) (told : List Entry) → Told (first_alone keys (Some [])) told → EachAfter TellsEnd [] told }
    ensures silent { (past : List Entry) (m : HostMachine) (left : List HostEvent) (u : UnderWay) (how : How) →
        KnowsAsked (Ticking (Requests_do Ticks BeforeItsTick ∷ left)) past m → clock past ≡ m.clock →
        m.state.requests.under_way ≡ Some u → at_tick u ≡ Ends how → EndsHere past m.state.requests.last_id u.purpose how }
    ensures given_up { (past : List Entry) (m : HostMachine) (left : List HostEvent) (u : UnderWay) →
        both_know Ground KnowsAsked (Ticking (Line_ticks ∷ left)) past m → clock past ≡ m.clock →
        m.state.requests.under_way ≡ Some u → gives_up m.state.side.turn (turn_ticked m.state.side.turn) ≡ true →
        EndsHere past m.state.requests.last_id u.purpose LinkFailed }
{
    hosts_ask_as_told();
}

/// So the answers to questions stand where the first response to the last request was judged, directly after it, and wherever it was.
pub fn hosts_answer_questions()
    ensures { (keys : Keys) (told : List Entry) → Told (first_alone keys (Some [])) told → AnswersQuestions told }
{
    hosts_tell_of_ends();
}

/// An interview is said to have succeeded where the information of its node comes and the first request of it was answered, and to have failed where its second
/// request ends otherwise, or the first was not answered; and so it is wherever a notice ends it, unless the keeper fails.
pub fn hosts_end_interviews()
    ensures { (keys : Keys) (told : List Entry) → Told (first_alone keys (Some [])) told → EndsInterviews told }
{
    hosts_tell_of_ends();
}

/// So it is over any lines from the first on, the last of which an allocation failure may have cut short, over a keeper that tells its records and has none at
/// first; and of what a host heard of them.
pub fn lines_answer_questions()
    ensures lines { (keys : Keys) (devices : List State) (lines : List Spoken) → AreDone (first_machine keys (Some []) devices) lines →
        AnswersQuestions (transcript_of (first_machine keys (Some []) devices) lines) }
    ensures heard { (keys : Keys) (devices : List State) (lines : List Spoken) → AreDone (first_machine keys (Some []) devices) lines →
        AnswersQuestions (heard_by_host (transcript_of (first_machine keys (Some []) devices) lines)) }
{
    lines_are_a_hosts();
    what_is_heard_is_a_hosts();
    hosts_answer_questions();
}

/// And interviews end so over any such lines.
pub fn lines_end_interviews()
    ensures lines { (keys : Keys) (devices : List State) (lines : List Spoken) → AreDone (first_machine keys (Some []) devices) lines →
        EndsInterviews (transcript_of (first_machine keys (Some []) devices) lines) }
    ensures heard { (keys : Keys) (devices : List State) (lines : List Spoken) → AreDone (first_machine keys (Some []) devices) lines →
        EndsInterviews (heard_by_host (transcript_of (first_machine keys (Some []) devices) lines)) }
{
    lines_are_a_hosts();
    what_is_heard_is_a_hosts();
    hosts_end_interviews();
}
