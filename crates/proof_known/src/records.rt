//! The records of a host alone.

ghost use Rattle.std.specs.Prelude.{Some, IfSome, List, [], ℕ};
ghost use Rattle.s0_crypto.specs.declared.key_pair.Keys.{Keys};
ghost use Rattle.zw_text.specs.declared.entry.Entry.{Entry};
ghost use Rattle.proof_transcript.specs.law_transcript.Records.{KeepsRecords};
ghost use Rattle.proof_waking.specs.proof_alone.State.{HostMachine, first_alone};
ghost use Rattle.proof_waking.specs.proof_alone.Phases.{Open, Resting};
ghost use Rattle.proof_waking.specs.proof_alone.Runs.{Run};
ghost use Rattle.proof_known.specs.Known.{KnowsRecords};

use crate::known::hosts_know_what_was_told;
use host_keep::a_text_is_of_one_record;
use proof_transcript::{laws_follow, tables_are_what_was_said};

/// In any run of a host alone that ends at rest, over a keeper that tells its records and has none at first: its records are legal, and give exactly the
/// orders that were accepted, the commands that were cancelled, the sessions with their final outcomes, and the joined and interviewed nodes that the
/// transcript shows. So it is where a line was answered and no item was judged since, as after a restart (`Open`); and they give what each node listed, and
/// whether it listens.
pub fn hosts_record_what_is_shown()
    ensures told { (keys : Keys) (told : List Entry) (m : HostMachine) → Run (first_alone keys (Some [])) Resting told m →
        IfSome m.records (KeepsRecords told) }
    ensures open { (keys : Keys) (told : List Entry) (m : HostMachine) → Run (first_alone keys (Some [])) Open told m →
        IfSome m.records (KnowsRecords told m.state) }
{
    hosts_know_what_was_told();
    laws_follow();
    tables_are_what_was_said();
    a_text_is_of_one_record();
}
