//! Which nodes the chip and the air reach in a calm moment.

ghost use Rattle.std.specs.Prelude.{◌≡◌, Bool, List, false, true, ℕ};
ghost use Rattle.law_wire.specs.law_transcript.Nodes.{is_joined};
ghost use Rattle.law_wire.specs.Reach.{CanBeReached};
ghost use Rattle.proof_chip.specs.proof_line.mesh_sim.Air.{is_joined as is_joined_in_air};
ghost use Rattle.proof_in_time.specs.proof_answered.proof_calm.Known.{IsMember};
ghost use Rattle.law_time.specs.Calm.{air_is_empty, is_stalled, no_marks};
ghost use Rattle.proof_chip.specs.proof_line.proof_traffic.OutsideTraffic.{AreNodes};
ghost use Rattle.proof_in_time.specs.proof_answered.proof_calm.Live.{HasLive, IsReached};
ghost use Rattle.proof_ready.specs.Ease.{AfterLines, AreToReach, clock_of};

use crate::{calm_air_is_empty, calm_machines_are_unmarked, lines_await_calls};
use proof_chip::nodes_go_on;
use proof_devices::networks_go_on;

/// After lines each node that is joined in the air is one of the chip's.
pub fn lines_join_the_same_nodes()
    ensures { AfterLines (λ devices past m. (n : ℕ) → is_joined_in_air m.outside.outer.air n ≡ true → IsMember m.outside.outer.chip.state.joined n) }
{
    networks_go_on();
    nodes_go_on();
}

/// After lines a joined node that can be reached by the transcript is reached: the chip's table has a walk to it, no route of the table to it has a dead
/// hop, and the air has a walk to it. So where some nodes can be reached, each frame has had its fate, no mark is left and no stall lasts by the transcript,
/// none of the frames that the tie of the host's requests asks for is lost.
pub fn calm_machines_are_reached()
    ensures reached { AfterLines (λ devices past m. (n : ℕ) → is_joined past n ≡ true → CanBeReached devices past n →
        IsReached m.outside.outer.chip.state.table m.outside.outer.air.network n) }
    ensures live { AfterLines (λ devices past m. AreNodes devices → no_marks past ≡ true → is_stalled past (clock_of past) ≡ false → air_is_empty past ≡ true →
        (these : List Bool) → AreToReach these devices past → HasLive these m.outside.outer) }
{
    calm_air_is_empty();
    calm_machines_are_unmarked();
    lines_await_calls();
    networks_go_on();
}
