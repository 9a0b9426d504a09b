//! When a host holds a node awake.

ghost use Rattle.std.specs.Prelude.{Some, List, []};
ghost use Rattle.s0_crypto.specs.declared.key_pair.Keys.{Keys};
ghost use Rattle.device_sim.specs.State.{State};
ghost use Rattle.zw_text.specs.declared.entry.Entry.{Entry};
ghost use Rattle.proof_work.specs.law_time.Holds.{HoldsAsAsked};
ghost use Rattle.proof_requests.specs.law_host.Heard.{heard_by_host};
ghost use Rattle.proof_work.specs.world_model.State.{first_machine};
ghost use Rattle.proof_work.specs.world_lines.Spoken.{Spoken, transcript_of};
ghost use Rattle.proof_work.specs.world_lines.Done.{AreDone};
ghost use Rattle.proof_requests.specs.proof_alone.State.{first_alone};
ghost use Rattle.proof_requests.specs.proof_alone.Runs.{Told};

use proof_requests::{
    hosts_judge_as_told, hosts_keep_their_tables, hosts_listen_as_told, lines_are_a_hosts,
    what_is_heard_is_a_hosts,
};

/// In any run of a host alone, over a keeper that tells its records and has none at first: a node is held where the report that ends its session may ask so,
/// and wherever it does.
pub fn hosts_hold_as_asked()
    ensures { (keys : Keys) (told : List Entry) → Told (first_alone keys (Some [])) told → HoldsAsAsked told }
{
    hosts_keep_their_tables();
    hosts_judge_as_told();
    hosts_listen_as_told();
}

/// So it is over any lines from the first on, the last of which an allocation failure may have cut short, over a keeper that tells its records and has none at
/// first; and of what a host heard of them.
pub fn lines_hold_as_asked()
    ensures lines { (keys : Keys) (devices : List State) (lines : List Spoken) → AreDone (first_machine keys (Some []) devices) lines →
        HoldsAsAsked (transcript_of (first_machine keys (Some []) devices) lines) }
    ensures heard { (keys : Keys) (devices : List State) (lines : List Spoken) → AreDone (first_machine keys (Some []) devices) lines →
        HoldsAsAsked (heard_by_host (transcript_of (first_machine keys (Some []) devices) lines)) }
{
    lines_are_a_hosts();
    what_is_heard_is_a_hosts();
    hosts_hold_as_asked();
}
