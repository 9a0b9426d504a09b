//! Orders that are let in.

ghost use Rattle.std.specs.Prelude.{◌≡◌, List, Some, [], ℕ};
ghost use Rattle.s0_crypto.specs.declared.key_pair.Keys.{Keys};
ghost use Rattle.zw_text.specs.Transcript.{accepted};
ghost use Rattle.law_wire.specs.law_transcript.Commands.{numbers_of};
ghost use Rattle.law_wire.specs.law_transcript.Lists.{EachAfter};
ghost use Rattle.law_wire.specs.law_transcript.Nodes.{listing_of};
ghost use Rattle.proof_rests.specs.proof_attempts.proof_host.device_sim.State.{State};
ghost use Rattle.proof_rests.specs.proof_attempts.world_model.State.{first_machine};
ghost use Rattle.proof_rests.specs.world_lines.Spoken.{Spoken, transcript_of};
ghost use Rattle.proof_rests.specs.world_lines.Done.{AreDone};
ghost use Rattle.proof_rests.specs.proof_attempts.proof_host.Laws.{numbers_for};
ghost use Rattle.proof_ready.specs.LetIn.{MayBeLetIn};

use proof_rests::{
    answers_stand_after_their_lines, interviews_give_what_is_known, lines_are_answered,
    lines_tell_what_nodes_list, tables_are_what_was_said, the_machine_keeps_facts,
};

/// Over any lines, the last of which an allocation failure may have cut short, each order that is accepted is for a node that is joined by the transcript so
/// far, and that the host takes to list Supervision; and it has the next number. The numbers of the commands of a node are those that were entered for it.
pub fn orders_are_let_in()
    ensures { (keys : Keys) (devices : List State) (lines : List Spoken) → AreDone (first_machine keys (Some []) devices) lines →
        EachAfter (MayBeLetIn (listing_of devices)) [] (transcript_of (first_machine keys (Some []) devices) lines) ×
        ((n : ℕ) → numbers_of (accepted n (transcript_of (first_machine keys (Some []) devices) lines)) ≡
        numbers_for n (transcript_of (first_machine keys (Some []) devices) lines)) }
{
    answers_stand_after_their_lines();
    interviews_give_what_is_known();
    lines_are_answered();
    lines_tell_what_nodes_list();
    tables_are_what_was_said();
    the_machine_keeps_facts();
}
