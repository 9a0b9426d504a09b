//! Which calls the chip waits for in a calm moment.

ghost use Rattle.std.specs.Prelude.{◌≡◌, ◌≤◌, [], length, true};
ghost use Rattle.law_time.specs.Calm.{air_is_empty};
ghost use Rattle.proof_chip.specs.proof_line.proof_traffic.OutsideTraffic.{AreNodes};
ghost use Rattle.proof_in_time.specs.proof_answered.proof_calm.Awaited.{Awaits};
ghost use Rattle.proof_ready.specs.Ease.{AfterLines, AwaitsNothing};

use crate::calm_air_is_empty;
use proof_chip::{lines_keep_and_ask_well, lines_make_requests};

/// After lines a course of the host's requests is where the machine is, with a call to come for each payload that the chip sends or has given up; and no more
/// frames are kept than were sent. Where each frame has had its fate by the transcript, and no result is due to the chip, it sends nothing and waits for none.
pub fn lines_await_calls()
    ensures awaits { AfterLines (λ devices past m. AreNodes devices → Awaits m) }
    ensures sized { AfterLines (λ devices past m. AreNodes devices → length m.outside.outer.air.frames.frames ≤ m.outside.outer.air.frames.sent) }
    ensures none { AfterLines (λ devices past m. AreNodes devices → air_is_empty past ≡ true → m.outside.outer.due ≡ [] → AwaitsNothing m.outside.outer) }
{
    calm_air_is_empty();
    lines_keep_and_ask_well();
    lines_make_requests();
}
