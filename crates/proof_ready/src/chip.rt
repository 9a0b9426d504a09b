//! The chip's link in a calm moment.

ghost use Rattle.std.specs.Prelude.{◌≡◌, [], false, true};
ghost use Rattle.serial_link.specs.declared.turn.Turn.TheVariants.{Idle};
ghost use Rattle.law_time.specs.Calm.{chip_is_idle, is_settled, is_stalled, owes_no_call};
ghost use Rattle.proof_ready.specs.Ease.{AfterLines, ChipRests, clock_of};

use crate::{calm_chips_are_owed_nothing, calm_hosts_have_heard_all, lines_lead_links};
use proof_chip::ticks_are_told;

/// Where no stall lasts by the transcript, and the host has written fewer units than a settling has passes since the last line or told tick began, nothing
/// is on its way to the chip. And where the chip wrote no data frame by it either, or an acknowledgement of the host came after its last one and was not lost
/// in a restart, no frame of the chip is on the line. So the chip rests, if it took nothing and dropped no frame in the tick of the clock.
pub fn calm_chips_rest()
    ensures to_chip { AfterLines (λ devices past m. is_stalled past (clock_of past) ≡ false → is_settled past ≡ true → m.outside.outer.to_chip.bytes ≡ []) }
    ensures turn { AfterLines (λ devices past m. is_stalled past (clock_of past) ≡ false → is_settled past ≡ true → chip_is_idle past (clock_of past) ≡ true →
        m.outside.outer.chip.state.port.side.turn ≡ Idle) }
    ensures rests { AfterLines (λ devices past m. is_stalled past (clock_of past) ≡ false → is_settled past ≡ true → chip_is_idle past (clock_of past) ≡ true →
        owes_no_call past (clock_of past) ≡ true → ChipRests m.outside.outer) }
{
    lines_lead_links();
    calm_hosts_have_heard_all();
    calm_chips_are_owed_nothing();
    ticks_are_told();
}
