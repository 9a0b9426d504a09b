//! The values that a host alone shows.

ghost use Rattle.std.specs.Prelude.{Some, true, List, [], ℕ};
ghost use Rattle.s0_crypto.specs.declared.key_pair.Keys.{Keys};
ghost use Rattle.zw_text.specs.declared.entry.Entry.{Entry};
ghost use Rattle.proof_transcript.specs.law_transcript.Lists.{EachAfter};
ghost use Rattle.proof_transcript.specs.law_wire.Serial.{ended};
ghost use Rattle.proof_transcript.specs.law_host.Heard.{listing_heard};
ghost use Rattle.proof_transcript.specs.law_host.HostLegal.{ShowsValues};
ghost use Rattle.proof_waking.specs.proof_alone.State.{first_alone};
ghost use Rattle.proof_waking.specs.proof_alone.Runs.{Told, ToldWhole};

use crate::known::hosts_know_what_was_told;
use proof_transcript::{laws_follow, tables_are_what_was_said};

/// In any run of a host alone, over a keeper that tells its records and has none at first: the values of a node stand directly after the words of a line
/// that asks for them, as the transcript gives them, and nowhere else; and where the run ends at rest, none is still to stand.
pub fn hosts_show_what_they_keep()
    ensures told { (keys : Keys) (told : List Entry) → Told (first_alone keys (Some [])) told →
        EachAfter (ShowsValues listing_heard) [] told }
    ensures whole { (keys : Keys) (told : List Entry) → ToldWhole (first_alone keys (Some [])) told →
        EachAfter (ShowsValues listing_heard) [] (ended true told) }
{
    hosts_know_what_was_told();
    laws_follow();
    tables_are_what_was_said();
}
