//! That a host alone asks for one thing after another, numbers its messages, and begins each session with its unit.

ghost use Rattle.std.specs.Prelude.{Some, List, [], true};
ghost use Rattle.s0_crypto.specs.declared.key_pair.Keys.{Keys};
ghost use Rattle.device_sim.specs.State.{State};
ghost use Rattle.zw_text.specs.declared.entry.Entry.{Entry};
ghost use Rattle.law_transcript.specs.Payloads.{BeginsWithUnit};
ghost use Rattle.proof_requests.specs.law_host.law_wire.Serial.{ended};
ghost use Rattle.law_time.specs.Choice.{NumbersCallbacks, SendsOneByOne};
ghost use Rattle.world_model.specs.State.{first_machine};
ghost use Rattle.world_lines.specs.Spoken.{Spoken, transcript_of};
ghost use Rattle.world_lines.specs.Done.{AreDone};
ghost use Rattle.proof_requests.specs.law_host.Heard.{heard_by_host};
ghost use Rattle.proof_requests.specs.proof_alone.State.{first_alone};
ghost use Rattle.proof_requests.specs.proof_alone.Runs.{Told, ToldWhole, Walk, both_know};
ghost use Rattle.proof_requests.specs.proof_alone.Phases.{Resting};
ghost use Rattle.proof_asking.specs.Numbers.{KnowsRequests, MaySend};
ghost use Rattle.proof_requests.specs.Walking.{Ground, KnowsAsked};

use host_model::attempts_have_what_they_give;
use proof_requests::{hosts_ask_as_told, lines_are_a_hosts, what_is_heard_is_a_hosts};

/// In any run of a host alone, over a keeper that tells its records and has none at first: a request that is new is sent, and a session begins, only where the
/// last request is over by its transcript; each message that it asks its chip to send has the callback id that follows that of the last one since it started,
/// and the options of each; and directly after a session that begins stands the unit that asks to send to its node, so that none is still to come at rest.
pub fn hosts_ask_one_by_one()
    ensures walk { Walk MaySend (both_know (both_know Ground KnowsAsked) KnowsRequests) }
    ensures first { (keys : Keys) → both_know (both_know Ground KnowsAsked) KnowsRequests Resting [] (first_alone keys (Some [])) }
    ensures told { (keys : Keys) (told : List Entry) → Told (first_alone keys (Some [])) told →
        SendsOneByOne told × NumbersCallbacks told × BeginsWithUnit told }
    ensures whole { (keys : Keys) (told : List Entry) → ToldWhole (first_alone keys (Some [])) told → BeginsWithUnit (ended true told) }
{
    attempts_have_what_they_give();
    hosts_ask_as_told();
}

/// So it is over any lines from the first on, the last of which an allocation failure may have cut short, over a keeper that tells its records and has none at
/// first; and of what a host heard of them.
pub fn lines_ask_one_by_one()
    ensures lines { (keys : Keys) (devices : List State) (lines : List Spoken) → AreDone (first_machine keys (Some []) devices) lines →
        SendsOneByOne (transcript_of (first_machine keys (Some []) devices) lines)
        × NumbersCallbacks (transcript_of (first_machine keys (Some []) devices) lines)
        × BeginsWithUnit (transcript_of (first_machine keys (Some []) devices) lines) }
    ensures heard { (keys : Keys) (devices : List State) (lines : List Spoken) → AreDone (first_machine keys (Some []) devices) lines →
        SendsOneByOne (heard_by_host (transcript_of (first_machine keys (Some []) devices) lines))
        × NumbersCallbacks (heard_by_host (transcript_of (first_machine keys (Some []) devices) lines))
        × BeginsWithUnit (heard_by_host (transcript_of (first_machine keys (Some []) devices) lines)) }
{
    lines_are_a_hosts();
    what_is_heard_is_a_hosts();
    hosts_ask_one_by_one();
}
