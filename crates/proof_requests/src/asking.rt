//! What a host alone asks, by its transcript.

ghost use Rattle.std.specs.Prelude.{Some, List, [], ℕ};
ghost use Rattle.s0_crypto.specs.declared.key_pair.Keys.{Keys};
ghost use Rattle.serial_frame.specs.declared.unit.Unit.{Unit as LineUnit};
ghost use Rattle.zw_text.specs.declared.entry.Entry.{Entry};
ghost use Rattle.proof_waking.specs.law_time.Moments.{Allows};
ghost use Rattle.proof_waking.specs.law_time.Waking.{may_wake};
ghost use Rattle.proof_waking.specs.proof_alone.State.{HostMachine, first_alone};
ghost use Rattle.proof_waking.specs.proof_alone.Phases.{Phase, Resting};
ghost use Rattle.proof_waking.specs.proof_alone.Runs.{Run, Walk, both_know};
ghost use Rattle.proof_requests.specs.Asking.{Doing, TellsOfHost, TieAsked, doing_of};
ghost use Rattle.proof_waking.specs.proof_alone.Listening.{ListensAsTold};
ghost use Rattle.proof_requests.specs.Walking.{Ground, KnowsAsked, KnowsInterviews};

use host_keep::texts_give_one_thing;
use host_node::a_restart_needs_the_records_alone;
use proof_messages::{attempts_have_what_they_give, hosts_leave_nonces};
use proof_waking::{hosts_judge_as_told, hosts_keep_their_tables, hosts_tell_time};

/// In any run of a host alone, also where it starts again, over a keeper that tells its records and has none at first: the request of the host is as its
/// transcript tells, at each step and wherever a part begins.
/// So where the last request has ended by its transcript none is under way, and an abort is owed where the host owes it.
pub fn hosts_ask_as_told()
    ensures walk { Walk (Allows may_wake) (both_know Ground KnowsAsked) }
    ensures first { (keys : Keys) → both_know Ground KnowsAsked Resting [] (first_alone keys (Some [])) }
    ensures run { (keys : Keys) (here : Phase) (told : List Entry) (m : HostMachine) → Run (first_alone keys (Some [])) here told m →
        both_know Ground KnowsAsked here told m }
    ensures told { (past : List Entry) (now : ℕ) (came : List LineUnit) (d : Doing) → TieAsked past now now came d →
        TellsOfHost past now came d }
    ensures rests { (keys : Keys) (told : List Entry) (m : HostMachine) → Run (first_alone keys (Some [])) Resting told m →
        TellsOfHost told m.clock m.came (doing_of m.state) }
{
    attempts_have_what_they_give();
    hosts_leave_nonces();
    hosts_keep_their_tables();
    hosts_tell_time();
    hosts_judge_as_told();
}

/// So each node listens by the transcript (`listens` of `law_time`) as it does in the host, at each step, also where that starts again: an interview says it by
/// the frame that ended the request before the last one, and of that the host kept the byte.
pub fn hosts_listen_as_told()
    ensures walk { Walk (Allows may_wake) KnowsInterviews }
    ensures first { (keys : Keys) → KnowsInterviews Resting [] (first_alone keys (Some [])) }
    ensures run { (keys : Keys) (here : Phase) (told : List Entry) (m : HostMachine) → Run (first_alone keys (Some [])) here told m →
        ListensAsTold told m.state }
{
    texts_give_one_thing();
    a_restart_needs_the_records_alone();
    hosts_ask_as_told();
}
