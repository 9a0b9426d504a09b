//! The laws of whole runs of `host`: each is the contract of a function that does nothing.

ghost use Rattle.std.specs.Prelude.{◌≡◌, ℕ, List, Option};
ghost use Rattle.s0_crypto.specs.declared.key_pair.Keys.{Keys};
ghost use Rattle.run_lines.specs.declared.status.Status.{Status};
ghost use Rattle.host_model.specs.Events.{HostEvent};
ghost use Rattle.host_model.specs.State.{HostParts};
ghost use Rattle.run_all.specs.host_core.Opening.{Opens};
ghost use Rattle.host_model.specs.Opening.{opened};
ghost use Rattle.proof_host.specs.Facts.{Facts};
ghost use Rattle.run_all.specs.port_run.Ending.{Desk};
ghost use Rattle.proof_commands.specs.Lives.{AreLivesOf, GoesOn, entries_of, records_of};
ghost use Rattle.proof_commands.specs.Port.{AddsRecords, BeginsUnheard, ConfirmsValues, DoneIsSuccess, HasStory, HearsAlone};
ghost use Rattle.proof_commands.specs.Port.{KeepsOrders, LeavesALife, PortKeepsLaws, ShowsTables};

use host_keep::a_text_is_of_one_record;
use host_model::{a_host_begins_with_what_is_kept, a_restart_keeps_what_is_held};
use proof_host::{events_keep_facts, first_facts_hold, laws_follow, lives_keep_facts};
use proof_replay::served_steps_are_heard;

/// Every run of `host` that starts its host has a story, and each story that it has keeps the laws.
pub fn port_keeps_laws()
    ensures { (ended : Status) (key : List ℕ) (number : ℕ) (texts : List (List ℕ)) (old new : Desk) → PortKeepsLaws ended key number texts old new }
{
    runs_have_stories();
    stories_keep_laws();
    done_is_success();
    runs_are_heard();
}

/// Each run that starts its host has a story: the events of the host that its steps are.
fn runs_have_stories()
    ensures { (ended : Status) (key : List ℕ) (number : ℕ) (texts : List (List ℕ)) (old new : Desk) → HasStory ended key number texts old new }
{}

/// A host that starts where its keeper holds the records of earlier lives is the one that is opened from these, and has their facts.
fn lives_go_on()
    ensures records { (keys : Keys) (number : ℕ) (told : Option (List (List ℕ))) (lives : List (List HostEvent)) (host : HostParts) →
        GoesOn keys number told lives → (opens : Opens keys number told host) → records_of keys lives ≡ opens.records }
    ensures facts { (keys : Keys) (lives : List (List HostEvent)) → AreLivesOf keys lives →
        Facts (entries_of keys lives) (opened keys (records_of keys lives)) }
{
    first_facts_hold();
    lives_keep_facts();
    a_host_begins_with_what_is_kept();
    a_restart_keeps_what_is_held();
    a_text_is_of_one_record();
}

/// The transcript of a story keeps the laws of orders, sessions, outcomes and confirmed values, and shows the tables of the host; its
/// records are those of a life more, and those that the run added.
fn stories_keep_laws()
    ensures orders { (ended : Status) (key : List ℕ) (number : ℕ) (texts : List (List ℕ)) (old new : Desk) → KeepsOrders ended key number texts old new }
    ensures tables { (ended : Status) (key : List ℕ) (number : ℕ) (texts : List (List ℕ)) (old new : Desk) → ShowsTables ended key number texts old new }
    ensures values { (ended : Status) (key : List ℕ) (number : ℕ) (texts : List (List ℕ)) (old new : Desk) → ConfirmsValues ended key number texts old new }
    ensures next { (ended : Status) (key : List ℕ) (number : ℕ) (texts : List (List ℕ)) (old new : Desk) → LeavesALife ended key number texts old new }
    ensures adds { (ended : Status) (key : List ℕ) (number : ℕ) (texts : List (List ℕ)) (old new : Desk) → AddsRecords ended key number texts old new }
{
    lives_go_on();
    events_keep_facts();
    laws_follow();
}

/// Where the answers to all lines are good, the transcript shows the command of each order as a success.
fn done_is_success()
    ensures { (key : List ℕ) (number : ℕ) (texts : List (List ℕ)) (old new : Desk) → DoneIsSuccess key number texts old new }
{
    stories_keep_laws();
}

/// Over what its host heard, and hosts before it that left their records, a run keeps the laws of hosts.
fn runs_are_heard()
    ensures first { (key : List ℕ) (number : ℕ) (old : Desk) → BeginsUnheard key number old }
    ensures heard { (ended : Status) (key : List ℕ) (number : ℕ) (texts : List (List ℕ)) (old new : Desk) → HearsAlone ended key number texts old new }
{
    served_steps_are_heard();
}
