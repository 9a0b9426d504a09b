//! The tables of a host alone from any records.

ghost use Rattle.std.specs.Prelude.{Some, List, [], ◌∷◌, ◌++◌, ℕ};
ghost use Rattle.s0_crypto.specs.declared.key_pair.Keys.{Keys};
ghost use Rattle.zw_text.specs.declared.entry.Entry.{Entry};
ghost use Rattle.zw_text.specs.declared.entry.Entry.TheVariants.{Said};
ghost use Rattle.host_keep.specs.Kept.{first_kept};
ghost use Rattle.host_keep.specs.Legal.{AreLegal, AreTextsOf};
ghost use Rattle.host_keep.specs.declared.record.Record.{Record};
ghost use Rattle.law_host.specs.law_transcript.Lists.{EachAfter};
ghost use Rattle.proof_line.specs.proof_host.RecordsTold.{TellRecords};
ghost use Rattle.proof_alone.specs.State.{HostMachine, first_alone};
ghost use Rattle.proof_alone.specs.Phases.{Phase};
ghost use Rattle.proof_alone.specs.Runs.{Run};
ghost use Rattle.proof_alone.specs.Answering.{AsOrdered};
ghost use Rattle.proof_alone.specs.Starts.{HasStarted, KeepsTablesSince, TellsTexts};
ghost use Rattle.law_host.specs.Story.{IsStory};

use crate::tables::hosts_keep_their_tables;
use host_keep::a_text_is_of_one_record;
use proof_line::{a_restart_keeps_what_is_held, laws_follow, records_keep_facts};

/// Whatever records a keeper holds, and whoever left them: of a host alone that starts from them, after any entries that tell what they say of commands,
/// commands are taken back as lines ask, and sessions begin in turn; where the orders of these entries stand after their words each session carries a
/// command of its node, once and in order; and its tables are what all of it shows. No run of a host before is asked for.
pub fn hosts_keep_their_tables_from_records()
    ensures { (keys : Keys) (texts : List (List ℕ)) (story before : List Entry) → TellsTexts texts (story ++ before) →
        EachAfter AsOrdered [] (story ++ before) → (here : Phase) (told : List Entry) (m : HostMachine) →
        (run : Run (first_alone keys (Some texts)) here told m) → HasStarted before texts run → KeepsTablesSince story before here told m }
{
    records_keep_facts();
    hosts_keep_their_tables();
    a_restart_keeps_what_is_held();
    laws_follow();
}

/// A story of legal records, whoever left them, tells them as far as they are of commands, and its orders stand after their words: also where words follow it.
pub fn stories_are_told()
    ensures tells { (records : List Record) (story : List Entry) (words : List ℕ) → AreLegal records → IsStory first_kept records story →
        TellRecords first_kept records (story ++ Said words ∷ []) }
    ensures ordered { (records : List Record) (story : List Entry) (words : List ℕ) → IsStory first_kept records story →
        EachAfter AsOrdered [] (story ++ Said words ∷ []) }
{}

/// So a host alone that starts from any legal records keeps its tables after a story of them: whatever a keeper holds of orders that lines ask for.
pub fn hosts_keep_their_tables_after_a_story()
    ensures { (keys : Keys) (texts : List (List ℕ)) (records : List Record) (story : List Entry) (words : List ℕ) → AreTextsOf records texts →
        AreLegal records → IsStory first_kept records story → (here : Phase) (told : List Entry) (m : HostMachine) →
        (run : Run (first_alone keys (Some texts)) here told m) → HasStarted (Said words ∷ []) texts run →
        KeepsTablesSince story (Said words ∷ []) here told m }
{
    a_text_is_of_one_record();
    stories_are_told();
    hosts_keep_their_tables_from_records();
}
