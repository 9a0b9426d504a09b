//! The work of a host alone.

ghost use Rattle.std.specs.Prelude.{Some, List, [], ℕ};
ghost use Rattle.s0_crypto.specs.declared.key_pair.Keys.{Keys};
ghost use Rattle.zw_text.specs.declared.entry.Entry.{Entry};
ghost use Rattle.proof_work.specs.proof_host.Laws.{MayStand};
ghost use Rattle.proof_requests.specs.proof_alone.State.{HostMachine, first_alone};
ghost use Rattle.proof_requests.specs.proof_alone.Phases.{Phase, Resting};
ghost use Rattle.proof_requests.specs.proof_alone.Runs.{Run, Walk, both_know};
ghost use Rattle.proof_requests.specs.proof_alone.Tables.{KnowsTables};
ghost use Rattle.proof_work.specs.Rests.{IsTended};
ghost use Rattle.proof_work.specs.Work.{HostWork};
ghost use Rattle.proof_attempts.specs.Since.{AlongRuns, KnowsSince};
ghost use Rattle.proof_attempts.specs.Waiting.{WaitInOrder};
ghost use Rattle.proof_attempts.specs.Waking.{KnowsWork};
ghost use Rattle.proof_attempts.specs.Working.{WorksInOrder};

use proof_requests::{hosts_keep_their_tables, hosts_tell_time};
use proof_work::{
    hosts_are_tended, hosts_do_these, hosts_keep_their_work, turns_of_a_pump_leave_nothing,
};

/// In any run of a host alone, also where it starts again, over a keeper that tells its records and has none at first, its work is in order at each step: an
/// attempt that runs has something that wakes it, and a node is told at most once that there is no more for it. Where it rests nothing that is due lacks its
/// request, unless one is under way or the line is busy.
pub fn hosts_work_in_order()
    ensures walk { Walk MayStand (both_know KnowsTables (KnowsSince WorksInOrder)) }
    ensures first { (keys : Keys) → both_know KnowsTables (KnowsSince WorksInOrder) Resting [] (first_alone keys (Some [])) }
    ensures work { (keys : Keys) (here : Phase) (told : List Entry) (m : HostMachine) → Run (first_alone keys (Some [])) here told m → HostWork m.state }
    ensures rests { (keys : Keys) (told : List Entry) (m : HostMachine) → Run (first_alone keys (Some [])) Resting told m → IsTended m.state }
{
    hosts_keep_their_tables();
    hosts_keep_their_work();
    hosts_do_these();
    turns_of_a_pump_leave_nothing();
    hosts_are_tended();
}

/// So along each such run its tables, its clock and its work are known, and which events of a tick or of an item are to come.
pub fn hosts_know_their_work()
    ensures { (keys : Keys) → AlongRuns keys KnowsWork }
{
    hosts_keep_their_tables();
    hosts_tell_time();
    hosts_work_in_order();
}

/// There, while a node is told that there is no more for it, it waits for no other series of attempts, or no command waits for it.
pub fn hosts_tell_those_that_wait_for_nothing()
    ensures { (keys : Keys) → AlongRuns keys (KnowsSince WaitInOrder) }
{
    hosts_know_their_work();
}
