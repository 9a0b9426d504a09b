//! A host alone notes what happens, and nothing else.

ghost use Rattle.std.specs.Prelude.{◌≡◌, ◌++◌, Bool, List, true, ℕ};
ghost use Rattle.zw_text.specs.declared.entry.Entry.{Entry};
ghost use Rattle.host_heard.specs.declared.told.Told.{Told};
ghost use Rattle.law_transcript.specs.Units.{Carried};
ghost use Rattle.proof_hearing.specs.proof_queue.Heeding.{AllSteps, HeedsAs, HeedsSo};
ghost use Rattle.proof_hearing.specs.proof_queue.proof_attempts.proof_requests.law_host.Heard.{heeds_alone};
ghost use Rattle.proof_hearing.specs.proof_queue.proof_attempts.proof_requests.law_host.Notes.{Start, first_start};
ghost use Rattle.proof_hearing.specs.proof_queue.proof_attempts.proof_requests.law_host.Starting.{StartsFrom};
ghost use Rattle.proof_hearing.specs.proof_queue.proof_attempts.proof_requests.proof_alone.Careful.{Careful};
ghost use Rattle.proof_hearing.specs.proof_queue.proof_attempts.proof_requests.proof_alone.Phases.{Phase, Resting};
ghost use Rattle.proof_hearing.specs.proof_queue.proof_attempts.proof_requests.proof_alone.Runs.{Run};
ghost use Rattle.proof_hearing.specs.proof_queue.proof_attempts.proof_requests.proof_alone.State.{HostMachine};
ghost use Rattle.proof_noting.specs.Following.{Outset};
ghost use Rattle.proof_noting.specs.Ground.{ErrandsAlong};
ghost use Rattle.proof_noting.specs.Parts.{Parts};
ghost use Rattle.proof_noting.specs.Starts.{HasStarted, NotesFrom};
ghost use Rattle.proof_noting.specs.Steps.{NotesInFull, first_of};

use crate::beside::notes_go_beside;
use crate::items::notes_go_with_items;
use crate::payloads::notes_go_with_payloads;
use crate::requests::notes_go_with_requests;
use crate::ticks::notes_go_with_ticks;
use host_keep::texts_give_one_thing;
use proof_hearing::{hosts_count_attempts, hosts_count_nonces, hosts_know_what_they_choose};

/// Of a host alone the course of its notes goes on with each kind of step, and where a part is over, from whatever start.
fn notes_go_on()
    ensures { (key : List ℕ) (taken : List Entry → Carried → List Told) (from : Outset) → ErrandsAlong key → Parts key taken from }
{
    hosts_count_attempts();
    hosts_know_what_they_choose();
    notes_go_beside();
    notes_go_with_requests();
    notes_go_with_items();
    notes_go_with_payloads();
    notes_go_with_ticks();
}

/// Along each careful run of a host alone, over a keeper that tells its records and has none at first, by messages that are heeded as the host took them
/// (`hosts_go_by_messages` of `proof_queue` has some for each run): after each event stand exactly the notes that it makes, in order, and none stands
/// elsewhere; the nonces of its course are used as they should; and by each payload it goes as far as it took up its messages, but for the last one of a run
/// that was cut, which it may be in the middle of. Where the run ends at rest, with no tick of its line to come, nothing is left to be noted. Which nodes the
/// last request carries a Set or Get of a line to is asked for: it is proved of any run (`errands_are_carried` of `proof_asking`).
pub fn hosts_note_what_happens()
    ensures { (key : List ℕ) (taken : List Entry → Carried → List Told) (whole : Bool) (here : Phase) (told : List Entry) (m : HostMachine) →
        (run : Run (first_of key) here told m) → Careful run → AllSteps (HeedsSo (heeds_alone taken)) run →
        AllSteps (HeedsAs (heeds_alone taken)) run → (whole ≡ true → (here ≡ Resting) × (m.left ≡ 0)) → ErrandsAlong key →
        NotesInFull key taken first_start whole told }
{
    notes_go_on();
}

/// The same where the course begins later: along such a run that has gone through a restart, after exactly what stood before the start and from its records
/// (`StartsFrom` of `law_host`), the law holds of what was heard since; and each nonce that was live in what these records give is the one of its number.
pub fn hosts_note_from_starts()
    ensures { (key : List ℕ) (taken : List Entry → Carried → List Told) (records : List (List ℕ)) (from : Start) → (starts : StartsFrom records from) →
        (whole : Bool) (here : Phase) (told heard : List Entry) (m : HostMachine) → (run : Run (first_of key) here told m) → Careful run →
        AllSteps (HeedsSo (heeds_alone taken)) run → AllSteps (HeedsAs (heeds_alone taken)) run → (whole ≡ true → (here ≡ Resting) × (m.left ≡ 0)) →
        ErrandsAlong key → HasStarted from.before records run → told ≡ from.before ++ heard → NotesFrom key taken from starts.kept whole heard }
{
    hosts_count_nonces();
    texts_give_one_thing();
    notes_go_on();
}
