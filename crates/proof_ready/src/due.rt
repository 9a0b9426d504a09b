//! What is due to the chip in a calm moment.

ghost use Rattle.std.specs.Prelude.{◌≡◌, [], false, true};
ghost use Rattle.serial_link.specs.declared.turn.Turn.TheVariants.{Idle};
ghost use Rattle.law_time.specs.Calm.{is_stalled, owes_no_call};
ghost use Rattle.proof_ready.specs.Ease.{AfterLines, clock_of};

use crate::calm_hosts_have_heard_all;
use proof_chip::{calls_go_on, results_are_told};
use proof_devices::{history_goes_on, landings_go_on, time_goes_on};

/// Where the chip took no payload, was to ask no node what it lists and dropped no frame in the tick of the clock by the transcript, no result is due to it
/// if none of its frames waits: so if its link is idle and no stall lasts.
pub fn calm_chips_are_owed_nothing()
    ensures none { AfterLines (λ devices past m. owes_no_call past (clock_of past) ≡ true →
        m.outside.outer.chip.state.port.waiting ≡ [] → m.outside.outer.due ≡ []) }
    ensures idle { AfterLines (λ devices past m. owes_no_call past (clock_of past) ≡ true → is_stalled past (clock_of past) ≡ false →
        m.outside.outer.chip.state.port.side.turn ≡ Idle → m.outside.outer.due ≡ []) }
{
    calm_hosts_have_heard_all();
    history_goes_on();
    time_goes_on();
    landings_go_on();
    calls_go_on();
    results_are_told();
}
