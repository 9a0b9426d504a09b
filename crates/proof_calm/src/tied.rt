//! The request of the host, over quiet lines.

ghost use Rattle.std.specs.Prelude.{◌≡◌, Bool, List, Option, true, ℕ};
ghost use Rattle.s0_crypto.specs.declared.key_pair.Keys.{Keys};
ghost use Rattle.chip_sim.specs.Nodes.{is_marked};
ghost use Rattle.device_sim.specs.State.{State};
ghost use Rattle.outside_model.specs.State.{first_outer};
ghost use Rattle.world_model.specs.Did.{AllAlong};
ghost use Rattle.world_model.specs.State.{Machine, first_machine};
ghost use Rattle.world_lines.specs.Spoken.{Spoken, after_all, transcript_of};
ghost use Rattle.world_lines.specs.Done.{AreDone, events_of};
ghost use Rattle.world_lines.specs.Whole.{AreWhole};
ghost use Rattle.proof_work.specs.proof_walk.Walk.{WalkWhere};
ghost use Rattle.proof_work.specs.Phases.{AsksNothing};
ghost use Rattle.proof_waking.specs.proof_traffic.OutsideTraffic.{AreNodes};
ghost use Rattle.proof_calm.specs.Quiet.{AreQuiet};
ghost use Rattle.proof_calm.specs.Tied.{IsOrderlyFor, IsTied, KnowTied, RequestRests};

use crate::the_line_rests;
use host_model::{a_restart_keeps_what_is_held, attempts_have_what_they_give, facts_are_kept};
use host_requests::callback_ids;
use proof_waking::{frames_fly_in_order, outsides_make_requests};
use proof_work::{hosts_are_tended, requests_stay_on_the_line, turns_of_a_pump_leave_nothing};

/// At first the line rests, no call is to come, no request is under way, and node 2 alone is joined. Where at most 31 frames are on the air as a tick
/// begins, and the chip is asked to send to some nodes alone, that stays so at each phase of quiet lines and ticks, as far as it goes: the line rests again
/// after each; no abort is owed; no result is due; joined nodes alone speak on the air, and the host has to do with these alone; no frame on the air, of the
/// host or of the device of one of those nodes, is lost or has a dead hop, so the chip forgets no link, and each of those nodes is reached; and the request
/// under way is a SendData of 1 to 46 bytes to a joined node, that is on its way to the chip, or whose payload the chip sends, or whose one call is on its
/// way to the host. So the chip takes each, and none falls silent. Between lines none is under way, the chip sends nothing, and the host has nothing to
/// submit; or the chip sends the payload, which it has answered, and one call is to come.
pub fn requests_stay_tied()
    ensures first { (these : List Bool) (keys : Keys) (records : Option (List (List ℕ))) (devices : List State) →
        ((n : ℕ) → is_marked these n ≡ true → is_marked first_outer.chip.state.joined n ≡ true) → AreNodes devices →
        IsTied these (first_machine keys records devices) }
    ensures walk { (these : List Bool) → WalkWhere (IsOrderlyFor these) AsksNothing (KnowTied these) }
    ensures lines { (these : List Bool) (m : Machine) (lines : List Spoken) → AreDone m lines → AreWhole m lines →
        AllAlong (IsOrderlyFor these) m (events_of lines) → AreQuiet (transcript_of m lines) → IsTied these m → IsTied these (after_all m lines) }
    ensures rests { (these : List Bool) (m : Machine) → IsTied these m → RequestRests m }
{
    the_line_rests();
    a_restart_keeps_what_is_held();
    attempts_have_what_they_give();
    facts_are_kept();
    callback_ids();
    frames_fly_in_order();
    hosts_are_tended();
    outsides_make_requests();
    requests_stay_on_the_line();
    turns_of_a_pump_leave_nothing();
}
