//! The air in a calm moment.

ghost use Rattle.std.specs.Prelude.{◌≡◌, true};
ghost use Rattle.law_time.specs.Calm.{air_is_empty};
ghost use Rattle.law_time.specs.Calm.{is_not_working};
ghost use Rattle.std.specs.List.{list_all};
ghost use Rattle.proof_in_time.specs.proof_answered.Few.{AreFew};
ghost use Rattle.proof_ready.specs.Ease.{AfterLines, AirIsEmpty};

use proof_devices::{frames_go_on, history_goes_on, landings_go_on, networks_go_on, time_goes_on};

/// Where each frame has had its fate by the transcript, all frames that were sent have arrived, and none is on the air.
pub fn calm_air_is_empty()
    ensures { AfterLines (λ devices past m. air_is_empty past ≡ true → AirIsEmpty m.outside.outer.air.frames) }
{
    history_goes_on();
    time_goes_on();
    landings_go_on();
    networks_go_on();
    frames_go_on();
}

/// And where no device is at work there, few frames are on the air, and no two devices end their work in the same tick.
pub fn calm_machines_have_few_frames()
    ensures { AfterLines (λ devices past m. air_is_empty past ≡ true → list_all is_not_working m.outside.devices ≡ true → AreFew 0 3 m) }
{
    calm_air_is_empty();
}
