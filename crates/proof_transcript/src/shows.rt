//! What lines show.

ghost use Rattle.std.specs.Prelude.{◌≡◌, Bool, true, Some, List, []};
ghost use Rattle.s0_crypto.specs.declared.key_pair.Keys.{Keys};
ghost use Rattle.device_sim.specs.State.{State};
ghost use Rattle.law_host.specs.law_transcript.Lists.{EachAfter};
ghost use Rattle.law_host.specs.law_transcript.Nodes.{always, listing_of};
ghost use Rattle.law_host.specs.law_wire.Serial.{ended};
ghost use Rattle.law_host.specs.law_wire.Shown.{ShowsDevices};
ghost use Rattle.law_host.specs.HostLegal.{ShowsValues};
ghost use Rattle.proof_air.specs.world_model.State.{first_machine};
ghost use Rattle.proof_air.specs.world_lines.Spoken.{Spoken, transcript_of};
ghost use Rattle.proof_air.specs.world_lines.Done.{AreDone};
ghost use Rattle.proof_air.specs.world_lines.Whole.{AreWhole};
ghost use Rattle.proof_spoken.specs.proof_device.Showing.{AreApart};

use crate::what_is_told;
use proof_air::laws_follow;
use proof_spoken::{
    answers_stand_after_their_lines, changes_are_shown, interviews_give_what_is_known,
    lines_tell_what_nodes_list, runs_have_their_tables, the_machine_keeps_facts,
};

/// Over lines that are said one after another, the last of which an allocation failure may have cut short, over a keeper that tells its records and has none at
/// first: directly after a `show` stand the values of the device of its node, as the changes entered so far leave it, where no two devices are of one node; and
/// directly after a `store` the values of its node, as the transcript gives them. Neither stands anywhere else, nor any line of the table at the end; and
/// where all lines were run whole, none is still to stand in the end.
pub fn lines_show_what_is_kept()
    ensures devices { (keys : Keys) (devices : List State) (lines : List Spoken) (whole : Bool) → AreDone (first_machine keys (Some []) devices) lines →
        (whole ≡ true → AreWhole (first_machine keys (Some []) devices) lines) → AreApart devices →
        ShowsDevices devices (ended whole (transcript_of (first_machine keys (Some []) devices) lines)) }
    ensures values { (keys : Keys) (devices : List State) (lines : List Spoken) (whole : Bool) → AreDone (first_machine keys (Some []) devices) lines →
        (whole ≡ true → AreWhole (first_machine keys (Some []) devices) lines) →
        EachAfter (ShowsValues (always (listing_of devices))) [] (ended whole (transcript_of (first_machine keys (Some []) devices) lines)) }
{
    the_machine_keeps_facts();
    lines_tell_what_nodes_list();
    interviews_give_what_is_known();
    answers_stand_after_their_lines();
    runs_have_their_tables();
    laws_follow();
    what_is_told();
    changes_are_shown();
}
