//! The last session of a node and the series of its attempts, by the transcript and in a host.

ghost use Rattle.std.specs.Prelude.{◌≡◌, ◌≤◌, ◌+◌, ◌++◌, not, false, true, Some, List, [], ◌∷◌, ℕ};
ghost use Rattle.zw_text.specs.declared.entry.Ended.TheVariants as endings;
ghost use Rattle.zw_text.specs.declared.entry.Entry.{Entry};
ghost use Rattle.zw_text.specs.declared.entry.Entry.TheVariants.{Said};
ghost use Rattle.zw_text.specs.Transcript.{accepted, line_of};
ghost use Rattle.proof_work.specs.law_transcript.Commands.{numbers_of, waiting};
ghost use Rattle.proof_work.specs.law_transcript.Restarts.{is_restart};
ghost use Rattle.proof_work.specs.law_time.Interviews.{listens};
ghost use Rattle.proof_work.specs.law_time.Judged.{last_of};
ghost use Rattle.proof_work.specs.law_time.Waking.{counts_awake};
ghost use Rattle.proof_work.specs.law_time.Moments.{now_at};
ghost use Rattle.proof_work.specs.law_time.Sessions.{
  Series as SeriesTold,
  is_open,
  last_command,
  new_series,
  no_series,
  runs,
  series_by_end,
  series_step,
  with_occasion,
  with_time,
};
ghost use Rattle.host_node.specs.declared.attempt.Moment.TheVariants.{BeforeItsTick, BetweenTicks};
ghost use Rattle.host_node.specs.Facts.{NodeFacts};
ghost use Rattle.host_node.specs.State.{NodeState, is_idle, is_open as has_open};
ghost use Rattle.host_node.specs.Steps.{
  after_begin,
  after_occasion,
  after_restart,
  after_sleep,
  as_recorded,
  next_due,
  series_over,
  with_final,
  without_attempt,
};
ghost use Rattle.proof_requests.specs.host_model.State.{HostState, first_host, node_of};
ghost use Rattle.s0_crypto.specs.declared.key_pair.Keys.{Keys};
ghost use Rattle.proof_requests.specs.proof_alone.State.{HostMachine, first_alone};
ghost use Rattle.proof_requests.specs.proof_alone.Phases.{Phase, Resting, Risen, Turns};
ghost use Rattle.proof_requests.specs.proof_alone.Runs.{Run};
ghost use Rattle.proof_attempts.specs.Since.{AlongRuns, IsElse, KnowsSince};
ghost use Rattle.proof_work.specs.proof_host.Facts.{Facts};
ghost use Rattle.proof_work.specs.proof_host.Laws.{numbers_for};
ghost use Rattle.proof_attempts.specs.Series.{
  IsOfNoLine,
  IsSeries,
  NodeAsTold,
  RunsAsTold,
  again_ticked,
  series_so_far,
};

use crate::waking::hosts_count_awake;
use crate::work::{hosts_know_their_work, hosts_tell_those_that_wait_for_nothing};
use proof_requests::{hosts_keep_their_tables, hosts_listen_as_told};

/// The last session of a node by the transcript is that of its book in the host, and it is open as there. The commands that wait for it are those in the
/// host, where those that were accepted for it are those that its orders asked for; so where it listens and is awake as there, it is as it is told.
pub fn hosts_show_open_sessions()
    ensures last { (past : List Entry) (h : HostState) (n : ℕ) → Facts past h → last_command n past ≡ last_of (node_of h n).book.commands }
    ensures opened { (past : List Entry) (h : HostState) (n : ℕ) → Facts past h → is_open n past ≡ has_open (node_of h n) }
    ensures waits { (past : List Entry) (h : HostState) (n : ℕ) → Facts past h → numbers_of (accepted n past) ≡ numbers_for n past →
        waiting n past ≡ (node_of h n).waiting }
    ensures told { (past : List Entry) (h : HostState) (n : ℕ) → Facts past h → numbers_of (accepted n past) ≡ numbers_for n past →
        listens n past ≡ (node_of h n).listens → (node_of h n).awake ≡ counts_awake n past → NodeAsTold n past (node_of h n) }
{}

/// How a series grows by an entry of no line, and by the words of one that does not start the host again or does.
pub fn series_grow_by_entries()
    ensures one { (n : ℕ) (past : List Entry) (e : Entry) → IsOfNoLine e →
        series_so_far n (past ++ e ∷ []) ≡ series_step n past (with_time n past (now_at past e) (series_so_far n past)) e [] }
    ensures said { (n : ℕ) (past : List Entry) (words : List ℕ) → is_restart (line_of (Said words)) ≡ false →
        series_so_far n (past ++ Said words ∷ []) ≡ with_time n past (now_at past (Said words)) (series_so_far n past) }
    ensures starts { (n : ℕ) (past : List Entry) (words : List ℕ) → is_restart (line_of (Said words)) ≡ true →
        series_so_far n (past ++ Said words ∷ []) ≡ with_occasion n (past ++ Said words ∷ []) no_series }
{}

/// A series of a node goes with it: at each tick, where another one may be due, where it begins, goes on with another attempt and ends, and where the host
/// starts.
pub fn series_go_with_nodes()
    ensures settled { (n : ℕ) (past : List Entry) (s : SeriesTold) (node : NodeState) (now : ℕ) → IsSeries s node now → with_time n past now s ≡ s }
    ensures rises { (n : ℕ) (past : List Entry) (s : SeriesTold) (node : NodeState) (now : ℕ) → IsSeries s node now → NodeAsTold n past node → NodeFacts node →
        IsSeries (with_time n past (now + 1) s) (again_ticked node) (now + 1) }
    ensures occasion { (n : ℕ) (past : List Entry) (s : SeriesTold) (node : NodeState) (now : ℕ) → NodeAsTold n past node → NodeFacts node →
        IsSeries s node now →
        IsSeries (with_occasion n past s) (after_occasion node) now }
    ensures begins { (node : NodeState) (now : ℕ) → node.again_wait ≡ 0 → IsSeries new_series (after_begin node) now }
    ensures again { (s : SeriesTold) (node : NodeState) (now attempts : ℕ) → is_idle node.series ≡ false → IsSeries s node now →
        IsSeries s (next_due (without_attempt node) attempts) now }
    ensures gives_up { (node : NodeState) (now attempts : ℕ) →
        IsSeries (series_by_end endings.Unanswered now) (after_sleep (series_over node attempts BetweenTicks)) now }
    ensures gives_up_before { (node : NodeState) (now attempts : ℕ) →
        IsSeries (series_by_end endings.Unanswered now) (again_ticked (after_sleep (series_over node attempts BeforeItsTick))) now }
    ensures finishes { (node : NodeState) (now status : ℕ) → IsSeries no_series (with_final node status) now }
    ensures starts { (n : ℕ) (past : List Entry) (node : NodeState) (now : ℕ) → NodeAsTold n past (as_recorded node) →
        IsSeries (with_occasion n past no_series) (after_restart node) now }
{}

/// At first no series runs; a tick that begins, at rest, where each node is as it is told, leaves each series as its node's own tick will; and each part of a
/// tick, and what comes after it, begins with no change.
pub fn series_go_with_ticks()
    ensures first { (keys : Keys) → RunsAsTold Resting [] (first_host keys) 0 }
    ensures rises { (past : List Entry) (h : HostState) (clock : ℕ) → ((n : ℕ) → 1 ≤ n → n ≤ 232 → NodeAsTold n past (node_of h n)) →
        ((n : ℕ) → NodeFacts (node_of h n)) → RunsAsTold Resting past h clock → RunsAsTold Risen past h (clock + 1) }
    ensures turns { (here next : Phase) (past : List Entry) (m : HostMachine) → IsElse here → Turns here m next →
        RunsAsTold here past m.state m.clock → RunsAsTold next past m.state m.clock }
{}

/// In any run of a host alone, over a keeper that tells its records and has none at first: a series of attempts runs by the transcript where it is due or
/// runs in the host, and another one may be due by it as many ticks from now as the host waits for that. So where the host rests `runs` of `law_time` says
/// which series the host runs.
pub fn hosts_run_series_as_told()
    ensures along { (keys : Keys) → AlongRuns keys (KnowsSince RunsAsTold) }
    ensures rests { (keys : Keys) (told : List Entry) (m : HostMachine) →
        Run (first_alone keys (Some [])) Resting told m → (n : ℕ) → 1 ≤ n → n ≤ 232 → runs n told m.clock ≡ not (is_idle (node_of m.state n).series) }
{
    hosts_keep_their_tables();
    hosts_listen_as_told();
    hosts_count_awake();
    hosts_know_their_work();
    hosts_tell_those_that_wait_for_nothing();
}
