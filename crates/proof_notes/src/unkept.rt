//! Where a host says that a record was not kept.

ghost use Rattle.std.specs.Prelude.{Some, List, []};
ghost use Rattle.s0_crypto.specs.declared.key_pair.Keys.{Keys};
ghost use Rattle.device_sim.specs.State.{State};
ghost use Rattle.zw_text.specs.declared.entry.Entry.{Entry};
ghost use Rattle.proof_attempts.specs.world_model.State.{first_machine};
ghost use Rattle.proof_attempts.specs.world_lines.Spoken.{Spoken, transcript_of};
ghost use Rattle.proof_attempts.specs.world_lines.Done.{AreDone};
ghost use Rattle.proof_known.specs.law_host.Heard.{heard_by_host};
ghost use Rattle.proof_known.specs.proof_alone.State.{first_alone};
ghost use Rattle.proof_known.specs.proof_alone.Runs.{Told};
ghost use Rattle.proof_notes.specs.Unkept.{UnkeptWhereAsked};

use proof_attempts::{hosts_count_awake, hosts_listen_as_told, hosts_show_open_sessions};
use proof_known::{
    hosts_know_what_was_told, laws_follow, lines_are_a_hosts, tables_are_what_was_said,
    what_is_heard_is_a_hosts,
};

/// In any run of a host alone, over a keeper that tells its records and has none at first: that a record was not kept is said only among the notes of a
/// payload that was judged there, where the information of that node came, or where a command waits for a node that is up and whose last session is over.
pub fn hosts_say_what_is_not_kept()
    ensures { (keys : Keys) (told : List Entry) → Told (first_alone keys (Some [])) told → UnkeptWhereAsked keys told }
{
    hosts_know_what_was_told();
    hosts_listen_as_told();
    hosts_show_open_sessions();
    hosts_count_awake();
    tables_are_what_was_said();
    laws_follow();
}

/// So it is over any lines from the first on, the last of which an allocation failure may have cut short, over a keeper that tells its records and has none at
/// first; and of what a host heard of them.
pub fn lines_say_what_is_not_kept()
    ensures { (keys : Keys) (devices : List State) (lines : List Spoken) → AreDone (first_machine keys (Some []) devices) lines →
        UnkeptWhereAsked keys (transcript_of (first_machine keys (Some []) devices) lines)
        × UnkeptWhereAsked keys (heard_by_host (transcript_of (first_machine keys (Some []) devices) lines)) }
{
    lines_are_a_hosts();
    what_is_heard_is_a_hosts();
    hosts_say_what_is_not_kept();
}
