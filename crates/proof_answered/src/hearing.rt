//! Frames of the host for nodes that listen, at each event of quiet lines.

ghost use Rattle.std.specs.Prelude.{◌≡◌, Bool, List, length};
ghost use Rattle.zw_text.specs.declared.entry.Entry.{Entry};
ghost use Rattle.world_model.specs.Events.{Event, May, happens};
ghost use Rattle.world_model.specs.State.{Machine};
ghost use Rattle.proof_calm.specs.proof_work.proof_walk.Phases.{Goes, Phase};
ghost use Rattle.proof_calm.specs.Quiet.{AreQuiet};
ghost use Rattle.proof_answered.specs.Few.{Knows};
ghost use Rattle.proof_answered.specs.Outward.{AllFor, AllListen, IsSentTo};

use proof_calm::frames_fly_in_order;
use proof_device::{devices_go_on, devices_stay_the_same};

/// Where each frame of the host on the air is for a node of these, and what the chip is asked to send is for nodes of these, that stays so at each event of
/// quiet lines and ticks; and where the device of each of these listens, so does that.
pub fn nodes_hear()
    ensures frames { (these : List Bool) → length these ≡ 233 → (here next : Phase) (past : List Entry) (m : Machine) (event : Event) →
        Goes here m event next → May m event → AreQuiet past → Knows these here past m → IsSentTo these m event → AllFor these m →
        AllFor these (happens m event) }
    ensures listening { (these : List Bool) → length these ≡ 233 → (here next : Phase) (past : List Entry) (m : Machine) (event : Event) →
        Goes here m event next → May m event → AreQuiet past → Knows these here past m → IsSentTo these m event → AllListen these m →
        AllListen these (happens m event) }
{
    devices_go_on();
    devices_stay_the_same();
    frames_fly_in_order();
}
