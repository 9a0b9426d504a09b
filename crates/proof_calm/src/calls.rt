//! What the chip sends between quiet lines.

ghost use Rattle.std.specs.Prelude.{List, Option, ℕ};
ghost use Rattle.s0_crypto.specs.declared.key_pair.Keys.{Keys};
ghost use Rattle.serial_frame.specs.declared.item.Item.{Item};
ghost use Rattle.air_frames.specs.History.{Mark};
ghost use Rattle.device_sim.specs.State.{State};
ghost use Rattle.world_model.specs.Did.{AllAlong};
ghost use Rattle.world_model.specs.State.{Machine, first_machine};
ghost use Rattle.world_lines.specs.Spoken.{Spoken, after_all, transcript_of};
ghost use Rattle.world_lines.specs.Done.{AreDone, events_of};
ghost use Rattle.world_lines.specs.Whole.{AreWhole};
ghost use Rattle.proof_serial.specs.Host.{AllAskWell};
ghost use Rattle.proof_waking.specs.proof_traffic.Requests.{Traffic};
ghost use Rattle.proof_waking.specs.proof_traffic.OutsideTraffic.{AreNodes};
ghost use Rattle.proof_waking.specs.proof_traffic.Course.{Follows};
ghost use Rattle.proof_calm.specs.Quiet.{AreQuiet};
ghost use Rattle.proof_calm.specs.Resting.{LineRests};
ghost use Rattle.proof_calm.specs.Sending.{IsFollowed, SendsFew};
ghost use Rattle.proof_calm.specs.Settling.{IsServed};

use crate::the_line_rests;
use proof_waking::lines_make_requests;

/// Where the serial line rests and a course of the host's requests is where the machine is, the chip sends nothing, and then no call is to come and no frame
/// of the host is on the air; or it sends one payload, whose one call is to come, for the host's only frame there. So it is after quiet lines, from any machine
/// of which both are so; and the first one is such a machine.
pub fn the_chip_sends_one()
    ensures rests { (t : Traffic) (log : List Mark) (up down : List Item) (m : Machine) → Follows t log up down m → LineRests m → SendsFew m }
    ensures first { (keys : Keys) (records : Option (List (List ℕ))) (devices : List State) → AreNodes devices →
        IsFollowed (first_machine keys records devices) }
    ensures lines { (m : Machine) (lines : List Spoken) → AreDone m lines → AreWhole m lines → AllAlong IsServed m (events_of lines) →
        AllAskWell m (events_of lines) → AreQuiet (transcript_of m lines) → LineRests m → IsFollowed m →
        SendsFew (after_all m lines) × IsFollowed (after_all m lines) }
{
    the_line_rests();
    lines_make_requests();
}
