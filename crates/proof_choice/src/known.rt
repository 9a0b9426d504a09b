//! What a host alone knows of its nodes where it chooses.

ghost use Rattle.std.specs.Prelude.{List};
ghost use Rattle.s0_crypto.specs.declared.key_pair.Keys.{Keys};
ghost use Rattle.proof_giving.specs.proof_queue.proof_attempts.Since.{AlongRuns, KnowsSince};
ghost use Rattle.proof_choice.specs.Blocked.{BlocksAsTold};
ghost use Rattle.proof_choice.specs.Plans.{PlansAreSo};

use proof_following::{hosts_ask_as_told, hosts_know_their_work};
use proof_giving::attempts_stay_with_the_request;

/// In any run of a host alone, over a keeper that tells its records and has none at first: where a node is blocked the keeper has failed for it by the
/// transcript since its last tick, and where it is not no session of it was not kept to begin in this tick.
pub fn hosts_block_as_told()
    ensures { (keys : Keys) → AlongRuns keys (KnowsSince BlocksAsTold) }
{
    hosts_know_their_work();
    hosts_ask_as_told();
}

/// There what a running attempt has to give is as its order is carried: whole, in segments, or sealed.
pub fn hosts_give_as_carried()
    ensures { (keys : Keys) → AlongRuns keys (KnowsSince PlansAreSo) }
{
    hosts_know_their_work();
    attempts_stay_with_the_request();
}
