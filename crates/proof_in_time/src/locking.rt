//! The wait of an attempt of a lock alone, over quiet lines.

ghost use Rattle.std.specs.Prelude.{◌≡◌, Bool, List, length, false, ℕ};
ghost use Rattle.chip_sim.specs.Nodes.{is_marked};
ghost use Rattle.proof_answered.specs.proof_calm.proof_work.proof_walk.Walk.{WalkWhere};
ghost use Rattle.proof_answered.specs.proof_calm.proof_work.Phases.{AsksNothing};
ghost use Rattle.proof_answered.specs.Sleepers.{IsAlone};
ghost use Rattle.proof_in_time.specs.Locked.{KnowLockedFirst, LockCounts, LocksGo};

use crate::sealed::locks_are_asked;
use host_model::{facts_are_kept, facts_are_kept_by_all};
use proof_answered::{
    attempts_stay_first, frames_fly_in_order, nodes_are_served_in_turn, nodes_hear,
    workers_alone_speak,
};
use proof_course_plain::{devices_go_on, devices_stay_the_same};
use proof_course_sealed::exchanges_go_on;
use proof_messages::{hosts_leave_nonces, hosts_open_what_was_sealed, locks_hear_by_numbers};

/// Over a stretch of lines for one lock alone, in which the keeper does not fail, while an attempt of it runs the sealed exchange goes on: each of its six
/// payloads is given, flies and is answered in turn. So the host is told within six ticks of the node, and no wait of an attempt runs out: each series stays
/// at its first attempt. At each phase it is assumed that the lock is in step with the host. From phase to phase the ticks that are to come count down
/// (`counts`).
pub fn locks_never_run_out()
    ensures walk { (these : List Bool) → length these ≡ 233 → is_marked these 0 ≡ false → WalkWhere (LocksGo these) AsksNothing (KnowLockedFirst these) }
    ensures counts { (these : List Bool) (n : ℕ) → length these ≡ 233 → is_marked these 0 ≡ false → IsAlone these n → LockCounts these n }
{
    attempts_stay_first();
    devices_go_on();
    devices_stay_the_same();
    exchanges_go_on();
    facts_are_kept();
    facts_are_kept_by_all();
    frames_fly_in_order();
    hosts_leave_nonces();
    hosts_open_what_was_sealed();
    locks_are_asked();
    locks_hear_by_numbers();
    nodes_are_served_in_turn();
    nodes_hear();
    workers_alone_speak();
}
