//! The laws of what becomes of commands, as it is entered.

ghost use Rattle.std.specs.Prelude.{ℕ, true, Option, Some, List, []};
ghost use Rattle.s0_crypto.specs.declared.key_pair.Keys.{Keys};
ghost use Rattle.device_sim.specs.State.{State};
ghost use Rattle.law_host.specs.law_transcript.Answers.{CancelsWhenAsked};
ghost use Rattle.law_host.specs.law_transcript.Nodes.{always, listing_of};
ghost use Rattle.law_host.specs.law_transcript.Payloads.{BeginsWithUnit};
ghost use Rattle.law_host.specs.law_transcript.Stores.{StoresConfirmed};
ghost use Rattle.proof_air.specs.proof_host.Laws.{HostLaws};
ghost use Rattle.proof_air.specs.world_model.State.{Machine, first_machine};
ghost use Rattle.proof_air.specs.world_lines.Spoken.{Spoken, transcript_of};
ghost use Rattle.proof_air.specs.world_lines.Done.{AreDone, events_of};
ghost use Rattle.proof_spoken.specs.Restarts.{AllStartWell};

use host_requests::callback_ids;
use proof_air::{asides_keep_facts, attempts_have_what_they_give, laws_follow};
use proof_spoken::{
    answers_stand_after_their_lines, interviews_give_what_is_known, lines_tell_what_nodes_list,
    tables_are_what_was_said, the_machine_keeps_facts,
};

/// A command is taken back only directly after a line that asks for it, and while it waits: over any lines, the last of which an allocation
/// failure may have cut short, where outcomes keep their laws.
pub fn commands_are_taken_back_when_asked()
    ensures { (m : Machine) (lines : List Spoken) → AreDone m lines → HostLaws (transcript_of m lines) → CancelsWhenAsked (transcript_of m lines) }
{}

/// The `store` entries are the settings that the successful commands ask for by their lines and by the classes that the host knew of the
/// node then, in order, each after its success: over any such lines, all of them, over a keeper that tells its records and has none at
/// first.
pub fn values_are_stored_as_asked()
    ensures { (keys : Keys) (devices : List State) (lines : List Spoken) → AreDone (first_machine keys (Some []) devices) lines →
        StoresConfirmed true (always (listing_of devices)) (transcript_of (first_machine keys (Some []) devices) lines) }
{
    lines_tell_what_nodes_list();
    interviews_give_what_is_known();
    the_machine_keeps_facts();
    answers_stand_after_their_lines();
    tables_are_what_was_said();
    laws_follow();
}

/// Directly after a session that begins stands the unit that asks the chip to send to its node: over any lines, the last of which an
/// allocation failure may have cut short, where each host that starts again has what the one before recorded.
pub fn sessions_begin_with_their_unit()
    ensures { (keys : Keys) (records : Option (List (List ℕ))) (devices : List State) (lines : List Spoken) →
        AreDone (first_machine keys records devices) lines →
        AllStartWell (first_machine keys records devices) (events_of lines) →
        BeginsWithUnit (transcript_of (first_machine keys records devices) lines) }
{
    attempts_have_what_they_give();
    callback_ids();
    the_machine_keeps_facts();
    asides_keep_facts();
}
