//! Payloads that the chip brings the host.

ghost use Rattle.std.specs.Prelude.{Option, List, [], ℕ};
ghost use Rattle.s0_crypto.specs.declared.key_pair.Keys.{Keys};
ghost use Rattle.law_wire.specs.device_sim.State.{State};
ghost use Rattle.law_wire.specs.law_transcript.Carrying.{MayBring, BringsWhatWasHeard};
ghost use Rattle.proof_walk.specs.world_model.State.{first_machine};
ghost use Rattle.proof_walk.specs.world_lines.Spoken.{Spoken, transcript_of};
ghost use Rattle.proof_walk.specs.world_lines.Done.{AreDone};
ghost use Rattle.proof_walk.specs.Phases.{Between};
ghost use Rattle.proof_walk.specs.Walk.{WalkOver};
ghost use Rattle.proof_air.specs.Hearing.{KnowAir};
ghost use Rattle.proof_air.specs.Carrying.{KnowHandlers};

use crate::history_goes_on;

/// At each phase of a line, where the history of the air is known, each frame that the chip holds for the host, to be written first or again, brings what was
/// heard, or nothing.
pub fn handlers_go_on()
    ensures walk { WalkOver KnowAir MayBring KnowHandlers }
    ensures first { (keys : Keys) (records : Option (List (List ℕ))) (devices : List State) →
        KnowHandlers Between [] (first_machine keys records devices) }
{
    chip_sim::rules_of_events();
}

/// Over any lines from the first on, the last of which an allocation failure may have cut short, each payload that the chip writes the host from a node was
/// heard before it, in a frame of that node to the controller.
pub fn lines_bring_what_was_heard()
    ensures { (keys : Keys) (records : Option (List (List ℕ))) (devices : List State) (lines : List Spoken) →
        AreDone (first_machine keys records devices) lines →
        BringsWhatWasHeard (transcript_of (first_machine keys records devices) lines) }
{
    history_goes_on();
    handlers_go_on();
}
