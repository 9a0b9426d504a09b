//! For which nonces a host seals messages.

ghost use Rattle.std.specs.Prelude.{Some, List, []};
ghost use Rattle.s0_crypto.specs.declared.key_pair.Keys.{Keys};
ghost use Rattle.device_sim.specs.State.{State};
ghost use Rattle.zw_text.specs.declared.entry.Entry.{Entry};
ghost use Rattle.proof_notes.specs.world_model.State.{first_machine};
ghost use Rattle.proof_notes.specs.world_lines.Spoken.{Spoken, transcript_of};
ghost use Rattle.proof_notes.specs.world_lines.Done.{AreDone};
ghost use Rattle.proof_notes.specs.proof_known.law_host.Heard.{heard_by_host};
ghost use Rattle.proof_notes.specs.proof_known.proof_alone.State.{HostMachine, first_alone};
ghost use Rattle.proof_notes.specs.proof_known.proof_alone.Phases.{Phase};
ghost use Rattle.proof_notes.specs.proof_known.proof_alone.Runs.{Run, Told};
ghost use Rattle.proof_nonces.specs.Known.{KnowsSealing};
ghost use Rattle.proof_nonces.specs.Sealing.{SealsOnce};

use host_model::attempts_have_what_they_give;
use proof_notes::{
    hosts_ask_as_told, hosts_know_what_was_told, hosts_leave_nonces, lines_are_a_hosts,
    what_is_heard_is_a_hosts,
};

/// In any run of a host alone, also where it starts again, over a keeper that tells its records and has none at first: each message that it asks its chip to
/// send sealed is sealed, under eight bytes of the host's own, for a nonce that its node told in a payload that was judged after the host had last asked it for
/// one, openly or sealed with the host's keys; and since then nothing else was sealed for the node. So no nonce serves twice, unless its node tells it again.
pub fn hosts_seal_once()
    ensures told { (keys : Keys) (told : List Entry) → Told (first_alone keys (Some [])) told → SealsOnce keys told }
    ensures known { (k : Keys) (here : Phase) (told : List Entry) (m : HostMachine) → Run (first_alone k (Some [])) here told m → KnowsSealing k here told m }
{
    attempts_have_what_they_give();
    hosts_leave_nonces();
    hosts_ask_as_told();
    hosts_know_what_was_told();
}

/// So it is over any lines from the first on, the last of which an allocation failure may have cut short, over a keeper that tells its records and has none at
/// first; and of what a host heard of them.
pub fn lines_seal_once()
    ensures { (keys : Keys) (devices : List State) (lines : List Spoken) → AreDone (first_machine keys (Some []) devices) lines →
        SealsOnce keys (transcript_of (first_machine keys (Some []) devices) lines)
        × SealsOnce keys (heard_by_host (transcript_of (first_machine keys (Some []) devices) lines)) }
{
    lines_are_a_hosts();
    what_is_heard_is_a_hosts();
    hosts_seal_once();
}
