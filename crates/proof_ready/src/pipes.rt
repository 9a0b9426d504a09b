//! What is on its way on the serial line in a calm moment.

ghost use Rattle.std.specs.Prelude.{◌≡◌, ◌++◌, ◌≤◌, [], false};
ghost use Rattle.law_time.specs.Calm.{is_stalled};
ghost use Rattle.law_wire.specs.Serial.{serial_events};
ghost use Rattle.proof_chip.specs.proof_line.proof_walk.Phases.{Between};
ghost use Rattle.proof_chip.specs.proof_line.Linked.{KnowAll};
ghost use Rattle.proof_chip.specs.proof_line.outside_model.Events.{ticked_entry};
ghost use Rattle.proof_ready.specs.Ease.{AfterLines, HostHasHeard, arrived_from, clock_of};

use proof_chip::{hosts_write_well, lines_keep_and_ask_well, links_go_on};
use proof_devices::time_goes_on;

/// After lines both sides of the serial line are known in time.
pub fn lines_lead_links()
    ensures { AfterLines (λ devices past m. KnowAll Between past m) }
{
    hosts_write_well();
    lines_keep_and_ask_well();
    links_go_on();
}

/// Where no stall lasts by the transcript, nothing is on its way to the host, neither side holds part of a unit, the format carries each frame of the chip, and
/// of these some wait only while one is on the line. And where at most 63 units of the host have arrived for the chip since a line or tick began, as the events
/// of the serial line tell, nothing is on its way to it.
pub fn calm_hosts_have_heard_all()
    ensures host { AfterLines (λ devices past m. is_stalled past (clock_of past) ≡ false → HostHasHeard m) }
    ensures chip { AfterLines (λ devices past m. is_stalled past (clock_of past) ≡ false →
        arrived_from 0 (serial_events (past ++ ticked_entry m.outside.outer)) ≤ 63 → m.outside.outer.to_chip.bytes ≡ []) }
{
    lines_lead_links();
    time_goes_on();
}
