//! The tables of a host alone.

ghost use Rattle.std.specs.Prelude.{Some, List, [], ℕ};
ghost use Rattle.s0_crypto.specs.declared.key_pair.Keys.{Keys};
ghost use Rattle.law_host.specs.device_sim.State.{State};
ghost use Rattle.zw_text.specs.declared.entry.Entry.{Entry};
ghost use Rattle.law_host.specs.law_transcript.Answers.{CancelsWhenAsked};
ghost use Rattle.law_host.specs.law_transcript.Once.{CarriesOnce};
ghost use Rattle.law_host.specs.Heard.{heard_by_host};
ghost use Rattle.proof_line.specs.world_model.State.{first_machine};
ghost use Rattle.proof_line.specs.world_lines.Spoken.{Spoken, transcript_of};
ghost use Rattle.proof_line.specs.world_lines.Done.{AreDone};
ghost use Rattle.proof_line.specs.proof_host.Facts.{AreShown};
ghost use Rattle.proof_line.specs.proof_host.Laws.{HostLaws, MayStand};
ghost use Rattle.proof_line.specs.proof_host.Stores.{StoresLaw};
ghost use Rattle.proof_alone.specs.State.{HostMachine, first_alone};
ghost use Rattle.proof_alone.specs.Phases.{Phase, Resting};
ghost use Rattle.proof_alone.specs.Runs.{Run, Told, Walk};
ghost use Rattle.proof_alone.specs.Tables.{KnowsTables};

use crate::hosts::{lines_are_a_hosts, what_is_heard_is_a_hosts};
use proof_line::{
    asides_keep_facts, events_keep_facts, first_facts_hold, laws_follow, restarts_go_on,
    restarts_keep_facts,
};

/// The facts of a host and its transcript go on along each run of a host alone, also where it starts again, over a keeper that tells its records and has
/// none at first.
/// So its transcript keeps the laws of hosts, and shows its tables and its confirmed values.
pub fn hosts_keep_their_tables()
    ensures walk { Walk MayStand KnowsTables }
    ensures first { (keys : Keys) → KnowsTables Resting [] (first_alone keys (Some [])) }
    ensures laws { (keys : Keys) (told : List Entry) → Told (first_alone keys (Some [])) told → HostLaws told }
    ensures tables { (keys : Keys) (here : Phase) (told : List Entry) (m : HostMachine) → Run (first_alone keys (Some [])) here told m →
        AreShown told m.state × StoresLaw told m.state }
{
    first_facts_hold();
    events_keep_facts();
    asides_keep_facts();
    restarts_keep_facts();
    restarts_go_on();
    laws_follow();
}

/// So what a host heard of any lines, the last of which an allocation failure may have cut short, over such a keeper, keeps these laws too.
pub fn what_is_heard_keeps_the_laws_of_hosts()
    ensures { (keys : Keys) (devices : List State) (lines : List Spoken) → AreDone (first_machine keys (Some []) devices) lines →
        HostLaws (heard_by_host (transcript_of (first_machine keys (Some []) devices) lines)) }
{
    lines_are_a_hosts();
    what_is_heard_is_a_hosts();
    hosts_keep_their_tables();
}

/// Of a host alone a command is taken back only directly after the words of a line that asks for it, and where it waits; and the sessions of a node carry
/// commands that were accepted for it, each once and in order. So it is of what a host heard of any such lines.
pub fn hosts_answer_what_is_asked()
    ensures told { (keys : Keys) (told : List Entry) → Told (first_alone keys (Some [])) told →
        CancelsWhenAsked told × ((node : ℕ) → CarriesOnce node told) }
    ensures heard { (keys : Keys) (devices : List State) (lines : List Spoken) → AreDone (first_machine keys (Some []) devices) lines →
        CancelsWhenAsked (heard_by_host (transcript_of (first_machine keys (Some []) devices) lines))
        × ((node : ℕ) → CarriesOnce node (heard_by_host (transcript_of (first_machine keys (Some []) devices) lines))) }
{
    lines_are_a_hosts();
    what_is_heard_is_a_hosts();
    hosts_keep_their_tables();
}
