//! The laws of what interviews tell.

ghost use Rattle.std.specs.Prelude.{Some, List, []};
ghost use Rattle.std.specs.List.{AllByRecursion};
ghost use Rattle.s0_crypto.specs.declared.key_pair.Keys.{Keys};
ghost use Rattle.proof_once.specs.device_sim.State.{State};
ghost use Rattle.zw_text.specs.declared.line.Line.{Line};
ghost use Rattle.proof_once.specs.law_transcript.Nodes.{listing_of};
ghost use Rattle.proof_once.specs.world_model.State.{first_machine};
ghost use Rattle.proof_once.specs.world_model.Events.{Event};
ghost use Rattle.proof_once.specs.world_model.Did.{MayAll};
ghost use Rattle.proof_world.specs.proof_serial.Line.{AreLines};
ghost use Rattle.proof_world.specs.world_lines.Spoken.{Spoken};
ghost use Rattle.proof_spoken.specs.Spoken.{AreSpoken};
ghost use Rattle.proof_spoken.specs.Said.{AllTell, LinesTell};
ghost use Rattle.proof_world.specs.world_lines.Done.{AreDone};
ghost use Rattle.proof_spoken.specs.Interviews.{HearLists};

use crate::interviews_give_what_is_known;
use proof_world::{
    devices_go_on, devices_stay_the_same, hosts_write_well, lines_ask_well,
    lines_keep_and_ask_well, restarts_go_on, runs_keep_and_ask_well, the_machine_keeps_facts,
    units_are_judged_whole,
};

/// In every run of lines, the last of which an allocation failure may have cut short, over a keeper that tells its records and has none at
/// first: an interview that ends well hears what the first device of its node lists. It is of a node that is joined, and a host that starts
/// again knows what the one before knew.
pub fn interviews_tell_what_nodes_list()
    ensures heard { (keys : Keys) (devices : List State) (lines : List Line) (events : List Event) →
        AreLines lines (first_machine keys (Some []) devices) events → MayAll (first_machine keys (Some []) devices) events →
        AllByRecursion (HearLists (listing_of devices)) events }
    ensures tell { (keys : Keys) (devices : List State) (lines : List Line) (events : List Event) →
        AreLines lines (first_machine keys (Some []) devices) events → MayAll (first_machine keys (Some []) devices) events →
        AllTell (listing_of devices) (first_machine keys (Some []) devices) events }
{
    devices_go_on();
    devices_stay_the_same();
    hosts_write_well();
    units_are_judged_whole();
    lines_ask_well();
    runs_keep_and_ask_well();
    lines_keep_and_ask_well();
    interviews_give_what_is_known();
    the_machine_keeps_facts();
    restarts_go_on();
}

/// So in lines that are said one after another: each host that starts again among them has what the one before recorded (`AreSpoken`), and what the
/// headline of runs assumes of interviews holds of the lists of the devices.
pub fn lines_tell_what_nodes_list()
    ensures spoken { (keys : Keys) (devices : List State) (lines : List Spoken) → AreDone (first_machine keys (Some []) devices) lines →
        AreSpoken (first_machine keys (Some []) devices) lines }
    ensures tell { (keys : Keys) (devices : List State) (lines : List Spoken) → AreDone (first_machine keys (Some []) devices) lines →
        LinesTell (listing_of devices) (first_machine keys (Some []) devices) lines }
{
    the_machine_keeps_facts();
    restarts_go_on();
    lines_keep_and_ask_well();
    interviews_tell_what_nodes_list();
}
