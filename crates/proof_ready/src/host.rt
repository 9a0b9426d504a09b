//! The host in a calm moment.

ghost use Rattle.std.specs.Prelude.{◌≡◌, ◌≤◌, [], true, ℕ};
ghost use Rattle.host_node.specs.declared.series.Series.TheVariants.{Idle};
ghost use Rattle.proof_rests.specs.proof_requests.host_model.State.{node_of};
ghost use Rattle.law_time.specs.Calm.{is_idle};
ghost use Rattle.law_time.specs.Rests.{is_rest};
ghost use Rattle.law_time.specs.Sessions.{no_series, series_from, with_time};
ghost use Rattle.proof_chip.specs.proof_world.host_model.Pumping.{IsPumped};
ghost use Rattle.proof_in_time.specs.proof_answered.proof_calm.proof_work.Line.{HasOnLine};
ghost use Rattle.proof_rests.specs.proof_attempts.Series.{wait_end};
ghost use Rattle.proof_ready.specs.Ease.{AfterLines, HostIsDone, NodeIsAsTold, clock_of};

use crate::lines_leave_a_host_at_rest;
use proof_rests::{hosts_run_series_as_told, hosts_tell_of_sleep};

/// Where the last request of the host is over by the transcript, no request is under way in the host, its side of the line is free, no task waits, no abort is
/// owed, and nothing that is due lacks its request: so it has submitted what it can. Where no series of a node runs by it, none is due or runs in the host, and
/// the wait of a node for another one ends as it tells; and the host takes each node to listen and to be awake as it does.
pub fn calm_hosts_are_done()
    ensures free { AfterLines (λ devices past m. is_rest past (clock_of past) ≡ true → HostIsDone m.host.state) }
    ensures pumped { AfterLines (λ devices past m. is_rest past (clock_of past) ≡ true → HasOnLine m.host.state × IsPumped m.host.state) }
    ensures idle { AfterLines (λ devices past m. (n : ℕ) → 1 ≤ n → n ≤ 232 → is_idle past (clock_of past) n ≡ true → (node_of m.host.state n).series ≡ Idle) }
    ensures again { AfterLines (λ devices past m. (n : ℕ) → 1 ≤ n → n ≤ 232 →
        wait_end (clock_of past) (node_of m.host.state n).again_wait ≡ (with_time n past (clock_of past) (series_from n [] no_series past)).again) }
    ensures told { AfterLines (λ devices past m. (n : ℕ) → 1 ≤ n → n ≤ 232 → NodeIsAsTold past m.host.state n) }
{
    lines_leave_a_host_at_rest();
    hosts_tell_of_sleep();
    hosts_run_series_as_told();
}
