//! The laws of whole runs of `replay`: each is the contract of a function that does nothing.

ghost use Rattle.std.specs.Prelude.{ℕ, List, Option, ◌++◌};
ghost use Rattle.run_lines.specs.declared.status.Status.{Status};
ghost use Rattle.zw_text.specs.declared.entry.Entry.{Entry};
ghost use Rattle.zw_text.specs.declared.line.ReplayLine.{ReplayLine};
ghost use Rattle.run_lines.specs.Lines.{TextLine, AllRan};
ghost use Rattle.host_keep.specs.Keeping.{Shelf};
ghost use Rattle.proof_host.specs.Facts.{Facts};
ghost use Rattle.run_all.specs.run_replay.Replay.{Point, LineRan};
ghost use Rattle.proof_commands.specs.Replay.{ReplayKeepsLaws};

use crate::replayed_lines_are_read_as_said;
use proof_host::{asides_keep_facts, events_keep_facts, first_facts_hold, laws_follow};
use proof_replay::texts_that_ran_are_heard;

/// Every run of `replay` keeps the laws: its transcript keeps those of hosts, and shows the tables and the confirmed values of its host; over what its host
/// heard, with the units that came, it keeps those of a host alone. Where there was no memory this is of the lines that were run whole. The records at exit
/// are those at entry and those of what the host did.
pub fn replay_keeps_laws()
    ensures { (status : Status) (key : List ℕ) (left left' : Option (List ℕ)) (shelf shelf' : Shelf) (sink sink' : Option (List ℕ)) →
        ReplayKeepsLaws status key left left' shelf shelf' sink sink' }
{
    first_facts_hold();
    whole_lines_keep_facts();
    laws_follow();
    replayed_lines_are_read_as_said();
    texts_that_ran_are_heard();
}

/// Lines that are run whole keep the facts of a host.
fn whole_lines_keep_facts()
    ensures { (lines : List (TextLine ReplayLine)) (old new : Point) (past transcript : List Entry) → Facts past old.lone.host.state
        → AllRan LineRan lines old new transcript → Facts (past ++ transcript) new.lone.host.state }
{
    events_keep_facts();
    asides_keep_facts();
}
