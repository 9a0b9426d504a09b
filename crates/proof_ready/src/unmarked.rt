//! What lines mark to be lost, in a calm moment.

ghost use Rattle.std.specs.Prelude.{◌≡◌, false, true};
ghost use Rattle.law_time.specs.Calm.{is_stalled, no_marks};
ghost use Rattle.proof_in_time.specs.proof_answered.proof_calm.Marks.{IsUnmarked};
ghost use Rattle.proof_ready.specs.Ease.{AfterLines, clock_of};

use proof_chip::{collisions_go_on, marks_go_on};
use proof_devices::{
    acks_go_on, devices_live_on, frames_go_on, history_goes_on, networks_go_on, time_goes_on,
};

/// Where no mark is left by the transcript and no stall lasts, no unit and no data frame is marked to be lost or changed, no frame and no acknowledgement on
/// the air is to be lost, no collision is to come, and bytes move.
pub fn calm_machines_are_unmarked()
    ensures { AfterLines (λ devices past m. no_marks past ≡ true → is_stalled past (clock_of past) ≡ false → IsUnmarked m) }
{
    marks_go_on();
    collisions_go_on();
    history_goes_on();
    time_goes_on();
    networks_go_on();
    frames_go_on();
    devices_live_on();
    acks_go_on();
}
