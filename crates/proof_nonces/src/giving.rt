//! Which nonces a host gives.

ghost use Rattle.std.specs.Prelude.{Some, List, []};
ghost use Rattle.s0_crypto.specs.declared.key_pair.Keys.{Keys};
ghost use Rattle.device_sim.specs.State.{State};
ghost use Rattle.zw_text.specs.declared.entry.Entry.{Entry};
ghost use Rattle.proof_notes.specs.world_model.State.{first_machine};
ghost use Rattle.proof_notes.specs.world_lines.Spoken.{Spoken, transcript_of};
ghost use Rattle.proof_notes.specs.world_lines.Done.{AreDone};
ghost use Rattle.proof_notes.specs.proof_known.law_host.Heard.{heard_by_host};
ghost use Rattle.proof_notes.specs.proof_known.proof_alone.State.{HostMachine, first_alone};
ghost use Rattle.proof_notes.specs.proof_known.proof_alone.Phases.{Phase};
ghost use Rattle.proof_notes.specs.proof_known.proof_alone.Runs.{Run, Told};
ghost use Rattle.proof_nonces.specs.Counted.{KnowsNonces};
ghost use Rattle.proof_nonces.specs.Giving.{CountsNonces};

use crate::sealing::hosts_seal_once;
use host_keep::texts_give_one_thing;
use host_model::attempts_have_what_they_give;
use proof_notes::{
    hosts_ask_as_told, hosts_know_what_was_told, hosts_leave_nonces, lines_are_a_hosts,
    what_is_heard_is_a_hosts,
};

/// In any run of a host alone, also where it starts again, over a keeper that tells its records and has none at first: its nonces have numbers, by which their
/// first bytes count, and seven bytes that were drawn for each. Each Nonce Report that it asks its chip to send gives one, with no number below those that it
/// asked to give that node before. And where it notes what a sealed payload tells, that opened with the host's keys for a nonce of its node with a number above
/// those for which payloads of that node opened before: so the nonce of one number opens one payload at most. The numbers have no bound here, and two
/// may have the same bytes.
pub fn hosts_count_nonces()
    ensures told { (keys : Keys) (told : List Entry) → Told (first_alone keys (Some [])) told → CountsNonces keys told }
    ensures known { (k : Keys) (here : Phase) (told : List Entry) (m : HostMachine) → Run (first_alone k (Some [])) here told m → KnowsNonces k here told m }
{
    texts_give_one_thing();
    attempts_have_what_they_give();
    hosts_leave_nonces();
    hosts_ask_as_told();
    hosts_know_what_was_told();
    hosts_seal_once();
}

/// So it is over any lines from the first on, the last of which an allocation failure may have cut short, over a keeper that tells its records and has none at
/// first; and of what a host heard of them.
pub fn lines_count_nonces()
    ensures { (keys : Keys) (devices : List State) (lines : List Spoken) → AreDone (first_machine keys (Some []) devices) lines →
        CountsNonces keys (transcript_of (first_machine keys (Some []) devices) lines)
        × CountsNonces keys (heard_by_host (transcript_of (first_machine keys (Some []) devices) lines)) }
{
    lines_are_a_hosts();
    what_is_heard_is_a_hosts();
    hosts_count_nonces();
}
