//! Which nodes a host alone counts as awake.

ghost use Rattle.std.specs.Prelude.{◌≡◌, ◌≤◌, ◌-◌, Some, List, [], ℕ};
ghost use Rattle.s0_crypto.specs.declared.key_pair.Keys.{Keys};
ghost use Rattle.zw_text.specs.declared.entry.Entry.{Entry};
ghost use Rattle.proof_work.specs.law_time.Holds.{held_until};
ghost use Rattle.proof_work.specs.law_time.Waking.{counts_awake};
ghost use Rattle.proof_requests.specs.host_model.State.{node_of};
ghost use Rattle.proof_work.specs.proof_host.Laws.{MayStand};
ghost use Rattle.proof_requests.specs.proof_alone.State.{HostMachine, first_alone};
ghost use Rattle.proof_requests.specs.proof_alone.Phases.{Resting};
ghost use Rattle.proof_requests.specs.proof_alone.Runs.{Run, Walk, both_know};
ghost use Rattle.proof_requests.specs.proof_alone.Tables.{KnowsTables};
ghost use Rattle.proof_attempts.specs.Since.{AlongRuns, KnowsSince};
ghost use Rattle.proof_attempts.specs.Waking.{CountsAwake, HeldAsTold};

use crate::work::hosts_know_their_work;
use proof_requests::{hosts_keep_their_tables, hosts_listen_as_told};
use proof_work::work_in_order_means;

/// In any run of a host alone, also where it starts again, over a keeper that tells its records and has none at first: at each step, and wherever a part
/// begins, each node counts as awake by the transcript as it does in the host; and while a line is asked, by what stood before its words.
pub fn hosts_count_awake()
    ensures walk { Walk MayStand (both_know KnowsTables (KnowsSince CountsAwake)) }
    ensures first { (keys : Keys) → both_know KnowsTables (KnowsSince CountsAwake) Resting [] (first_alone keys (Some [])) }
    ensures rests { (keys : Keys) (told : List Entry) (m : HostMachine) → Run (first_alone keys (Some [])) Resting told m →
        (n : ℕ) → 1 ≤ n → n ≤ 232 → (node_of m.state n).awake ≡ counts_awake n told }
{
    hosts_keep_their_tables();
}

/// In such a run each node is held for as many ticks as its transcript tells; in a tick, by how far it has come itself.
pub fn hosts_hold_as_told()
    ensures along { (keys : Keys) → AlongRuns keys (KnowsSince HeldAsTold) }
    ensures rests { (keys : Keys) (told : List Entry) (m : HostMachine) → Run (first_alone keys (Some [])) Resting told m →
        (n : ℕ) → 1 ≤ n → n ≤ 232 → (node_of m.state n).hold ≡ held_until n told - m.clock }
{
    hosts_listen_as_told();
    hosts_know_their_work();
    work_in_order_means();
}
