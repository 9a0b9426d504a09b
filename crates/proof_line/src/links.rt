//! Both sides keep the rules of the serial line, and what a restart loses is told.

ghost use Rattle.std.specs.Prelude.{◌≡◌, Bool, false, true, Option, Some, List, [], ℕ};
ghost use Rattle.s0_crypto.specs.declared.key_pair.Keys.{Keys};
ghost use Rattle.proof_world.specs.device_sim.State.{State};
ghost use Rattle.law_wire.specs.Clearing.{ClearsLine};
ghost use Rattle.law_wire.specs.Links.{KeepsLinks};
ghost use Rattle.law_wire.specs.Serial.{ended};
ghost use Rattle.proof_walk.specs.world_model.State.{first_machine};
ghost use Rattle.proof_walk.specs.world_lines.Spoken.{Spoken, transcript_of};
ghost use Rattle.proof_walk.specs.world_lines.Done.{AreDone};
ghost use Rattle.proof_walk.specs.world_lines.Whole.{AreWhole};
ghost use Rattle.proof_walk.specs.Phases.{Between};
ghost use Rattle.proof_walk.specs.Walk.{WalkWhere};
ghost use Rattle.proof_line.specs.Linked.{Anything, HostObeyed, IsOrderly, KnowAll};

use crate::lines_clear_nowhere_else;
use proof_traffic::hosts_obey_the_line;
use proof_walk::time_goes_on;
use proof_world::{hosts_write_well, lines_keep_and_ask_well};

/// At each phase of a line, where the format carries what the host writes, and bytes are taken where there are some: each side of the line has done steps that
/// obey its rules in the ticks of the transcript, has written just its units, has heard what arrived of the other side's since the host started, in order and
/// by all bytes, and what it has not heard of that is on its way to it. The machine's links are those that these steps lead to.
pub fn links_go_on()
    ensures walk { WalkWhere IsOrderly Anything KnowAll }
    ensures first { (keys : Keys) (records : Option (List (List ℕ))) (devices : List State) → KnowAll Between [] (first_machine keys records devices) }
{
    time_goes_on();
    hosts_obey_the_line();
}

/// Over any lines from the first on, the last of which an allocation failure may have cut short, over a keeper that tells its records and has none at
/// first, both sides keep the rules of the serial line in time, and with links that do so just the units find no room that had none, and just what was
/// on its way is told at each restart that is not refused, and nowhere else. Where all lines were run whole it is so up to the end of the last one. The host's
/// link obeyed at each event of the line, and not in the end alone.
pub fn lines_clear_the_line()
    ensures cut { (keys : Keys) (devices : List State) (lines : List Spoken) →
        AreDone (first_machine keys (Some []) devices) lines →
        ClearsLine false (transcript_of (first_machine keys (Some []) devices) lines) }
    ensures whole { (keys : Keys) (devices : List State) (lines : List Spoken) →
        AreDone (first_machine keys (Some []) devices) lines → AreWhole (first_machine keys (Some []) devices) lines →
        ClearsLine true (transcript_of (first_machine keys (Some []) devices) lines) }
    ensures obeyed { (keys : Keys) (devices : List State) (lines : List Spoken) (whole : Bool) →
        AreDone (first_machine keys (Some []) devices) lines → (whole ≡ true → AreWhole (first_machine keys (Some []) devices) lines) →
        HostObeyed (ended whole (transcript_of (first_machine keys (Some []) devices) lines)) }
{
    links_go_on();
    hosts_write_well();
    lines_keep_and_ask_well();
    lines_clear_nowhere_else();
}

/// So both sides keep the rules of the serial line, and just the units find no room that had none.
pub fn lines_keep_links()
    ensures cut { (keys : Keys) (devices : List State) (lines : List Spoken) →
        AreDone (first_machine keys (Some []) devices) lines →
        KeepsLinks false (transcript_of (first_machine keys (Some []) devices) lines) }
    ensures whole { (keys : Keys) (devices : List State) (lines : List Spoken) →
        AreDone (first_machine keys (Some []) devices) lines → AreWhole (first_machine keys (Some []) devices) lines →
        KeepsLinks true (transcript_of (first_machine keys (Some []) devices) lines) }
{
    lines_clear_the_line();
}
