//! All that a run shows of its devices, as one.

ghost use Rattle.std.specs.Prelude.{◌≤◌, Some, List, ℕ, length, true, false};
ghost use Rattle.std.specs.List.{AllByRecursion};
ghost use Rattle.law_transcript.specs.Headline.{IsAsMade};
ghost use Rattle.law_host.specs.Legal.{DevicesDid};
ghost use Rattle.s0_crypto.specs.declared.key_pair.Keys.{Keys};
ghost use Rattle.device_sim.specs.State.{State};
ghost use Rattle.world_model.specs.State.{first_machine};
ghost use Rattle.world_model.specs.Events.{Event};
ghost use Rattle.world_lines.specs.Spoken.{Spoken, after_all, transcript_of};
ghost use Rattle.world_lines.specs.Done.{AreDone};
ghost use Rattle.world_lines.specs.Whole.{AreWhole};
ghost use Rattle.proof_air.specs.proof_device.Showing.{AreApart};
ghost use Rattle.proof_devices.specs.LastLine.{with_last};

use crate::{devices_do_at_once, lines_run_as_far, lines_run_as_shown};
use proof_air::lines_are_done_by_devices;

/// Over a keeper that tells its records, with devices as their makers left them, one a node: of lines that were all run whole, and of lines the last of
/// which an allocation failure may have cut short, with at most one event of it that was not entered, the first device of each node did what came to it, as
/// far as the run went, at once, and nothing is done by a node without one.
pub fn devices_did()
    ensures whole { (keys : Keys) (key : List ℕ) (texts : List (List ℕ)) (devices : List State) (lines : List Spoken) →
        AreDone (first_machine keys (Some texts) devices) lines →
        AreWhole (first_machine keys (Some texts) devices) lines →
        AllByRecursion (IsAsMade key) devices → AreApart devices →
        DevicesDid true devices (after_all (first_machine keys (Some texts) devices) lines).outside.devices
        (transcript_of (first_machine keys (Some texts) devices) lines) }
    ensures cut { (keys : Keys) (key : List ℕ) (texts : List (List ℕ)) (devices : List State) (lines : List Spoken) (more : List Event) →
        AreDone (first_machine keys (Some texts) devices) lines →
        AreDone (first_machine keys (Some texts) devices) (with_last more lines) →
        length more ≤ 1 → AllByRecursion (IsAsMade key) devices → AreApart devices →
        DevicesDid false devices (after_all (first_machine keys (Some texts) devices) (with_last more lines)).outside.devices
        (transcript_of (first_machine keys (Some texts) devices) lines) }
{
    lines_run_as_shown();
    lines_run_as_far();
    devices_do_at_once();
    lines_are_done_by_devices();
}
