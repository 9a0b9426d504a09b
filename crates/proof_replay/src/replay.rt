//! Lines of `replay`, as runs of a host alone.

ghost use Rattle.std.specs.Prelude.{◌≡◌, ◌++◌, Bool, true, Option, Some, List, [], ℕ};
ghost use Rattle.std.specs.List.{AllByRecursion};
ghost use Rattle.zw_text.specs.declared.line.ReplayLine.{ReplayLine};
ghost use Rattle.zw_text.specs.declared.entry.Entry.{Entry};
ghost use Rattle.s0_crypto.specs.declared.key_pair.Keys.{Keys};
ghost use Rattle.host_keep.specs.Keeping.{OptAdds, Shelf};
ghost use Rattle.port_run.specs.host_core.Network.{keys_of};
ghost use Rattle.run_lines.specs.Lines.{AllRan, TextLine};
ghost use Rattle.run_replay.specs.Machine.{first_replay, lone_of};
ghost use Rattle.run_replay.specs.Replay.{LineRan, Point, point_of};
ghost use Rattle.proof_asking.specs.proof_requests.proof_alone.State.{HostMachine, first_alone};
ghost use Rattle.proof_asking.specs.proof_requests.proof_alone.Phases.{Phase, Resting};
ghost use Rattle.proof_asking.specs.proof_requests.proof_alone.Careful.{Careful};
ghost use Rattle.proof_asking.specs.proof_requests.proof_alone.Runs.{Run};
ghost use Rattle.proof_asking.specs.proof_requests.law_host.Heard.{heeds_alone};
ghost use Rattle.proof_asking.specs.proof_requests.law_host.HostLegal.{IsLegalAlone};
ghost use Rattle.proof_asking.specs.proof_requests.law_host.Notes.{Start, first_start};
ghost use Rattle.proof_asking.specs.proof_requests.law_host.Starting.{IsLegalFrom, StartsFrom};
ghost use Rattle.proof_asking.specs.proof_known.Known.{AreForHost};
ghost use Rattle.proof_replay.specs.Heard.{AreReplayed, IsReadSo, Replayed, heard_of, lone_after};
ghost use Rattle.proof_replay.specs.Laws.{HearsLines, HostsKeepLaws, IsHeardAlone};
ghost use Rattle.proof_noting.specs.Starts.{HasStarted};
ghost use Rattle.proof_noting.specs.proof_hearing.proof_queue.Heeding.{AllSteps, HeedsAs, HeedsSo};
ghost use Rattle.law_time.specs.Prompt.{IsPrompt};
ghost use Rattle.law_transcript.specs.Units.{Carried};
ghost use Rattle.host_heard.specs.declared.told.Told.{Told};

use proof_asking::{
    errands_are_carried, hosts_answer_questions, hosts_ask_one_by_one, hosts_do_as_is_said,
    hosts_end_interviews, hosts_keep_their_tables, hosts_note_what_was_told, hosts_obey_the_line,
    hosts_say_how_done, hosts_send_what_is_due, hosts_tell_time, hosts_wake_as_told,
};
use proof_noting::{
    hosts_are_prompt, hosts_count_nonces, hosts_fall_asleep_as_told, hosts_go_by_messages,
    hosts_hold_as_asked, hosts_note_ends, hosts_note_from_starts, hosts_note_in_full,
    hosts_note_what_happens, hosts_say_what_is_not_kept, hosts_seal_once,
};

/// Of any lines that are run whole, over any bytes and any keeper, what the host of `replay` heard is told by a run of a host alone that began without
/// records and ends at rest. No line reads the records, so those of that run are added to what the keeper had.
pub fn replays_are_a_hosts()
    ensures { (key : List ℕ) (records : Option (List (List ℕ))) (lines : List Replayed) → AreReplayed (lone_of (first_replay key) records) lines →
        (added : List (List ℕ)) × OptAdds records (lone_after (lone_of (first_replay key) records) lines).records added
        × IsHeardAlone (keys_of key) true (heard_of (lone_of (first_replay key) records) lines) (Some added) }
{
    hosts_obey_the_line();
}

/// A host alone is prompt in each careful run, by messages that are heeded as it took them.
pub fn runs_are_prompt()
    ensures { (keys : Keys) (taken : List Entry → Carried → List Told) (whole : Bool) (here : Phase) (heard : List Entry) (m : HostMachine) →
        (run : Run (first_alone keys (Some [])) here heard m) → Careful run → AllSteps (HeedsSo (heeds_alone taken)) run →
        AllSteps (HeedsAs (heeds_alone taken)) run → (whole ≡ true → (here ≡ Resting) × (m.left ≡ 0)) → AreForHost heard →
        IsPrompt whole (heeds_alone taken) heard }
{
    hosts_ask_one_by_one();
    hosts_are_prompt();
}

/// A host alone that begins without records and judges what comes as programs do keeps these laws, over a keeper that tells its records, where no line is
/// refused that is for others and its link kept the rules of the serial line.
pub fn hosts_keep_laws()
    ensures { (keys : Keys) (whole : Bool) (heard : List Entry) (told : Option (List (List ℕ))) → IsHeardAlone keys whole heard told →
        HostsKeepLaws keys whole heard told }
{
    hosts_keep_their_tables();
    hosts_do_as_is_said();
    hosts_note_what_was_told();
    hosts_note_in_full();
    hosts_say_what_is_not_kept();
    hosts_tell_time();
    hosts_wake_as_told();
    hosts_fall_asleep_as_told();
    hosts_hold_as_asked();
    hosts_send_what_is_due();
    hosts_answer_questions();
    hosts_end_interviews();
    hosts_say_how_done();
    hosts_note_ends();
    hosts_seal_once();
    hosts_count_nonces();
    hosts_go_by_messages();
    runs_are_prompt();
}

/// It notes what happens besides, and nothing else: so with a network key it is legal, as it goes by messages that it took up.
pub fn hosts_are_legal()
    ensures { (key : List ℕ) (whole : Bool) (heard : List Entry) (told : Option (List (List ℕ))) → IsHeardAlone (keys_of key) whole heard told →
        IsLegalAlone key first_start whole heard told }
{
    hosts_keep_laws();
    hosts_go_by_messages();
    runs_are_prompt();
    errands_are_carried();
    hosts_note_what_happens();
}

/// And so it is from a start from records, after what stood before: where it has started again there, from these.
pub fn hosts_are_legal_from_starts()
    ensures { (key : List ℕ) (records : List (List ℕ)) (from : Start) → StartsFrom records from → (whole : Bool) (heard : List Entry)
        (told : Option (List (List ℕ))) → (alone : IsHeardAlone (keys_of key) whole (from.before ++ heard) told) →
        HasStarted from.before records alone.run.0 → IsLegalFrom key records whole heard told }
{
    hosts_keep_laws();
    hosts_go_by_messages();
    runs_are_prompt();
    errands_are_carried();
    hosts_note_from_starts();
}

/// So the host of `replay` keeps them over what it heard of any texts that were run whole, each of which is read as its line by its words too, whatever its
/// keeper had or tells: of the records that it added. What was entered of these texts is what it heard, without the units that came.
pub fn texts_that_ran_are_heard()
    ensures { (key : List ℕ) (shelf : Shelf) (lines : List (TextLine ReplayLine)) (new : Point) (transcript : List Entry) →
        AllRan LineRan lines (point_of (first_replay key) shelf) new transcript → AllByRecursion IsReadSo lines →
        HearsLines (keys_of key) lines (lone_of (first_replay key) shelf.records) new.lone transcript }
{
    replays_are_a_hosts();
    hosts_keep_laws();
    hosts_are_legal();
}
