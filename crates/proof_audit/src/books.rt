//! The rules of sessions and once-only hold of what keeps the laws of the host and the headline.

ghost use Rattle.std.specs.Prelude.{◌≡◌, ℕ, Bool, List as Items, [], Some, ◌++◌};
ghost use Rattle.std.specs.List.{AllByRecursion};
ghost use Rattle.s0_crypto.specs.Sealing.{keys_of};
ghost use Rattle.device_stack.specs.State.{State};
ghost use Rattle.zw_text.specs.declared.entry.Entry.{Entry};
ghost use Rattle.law_transcript.specs.Answers.{AnswersLines};
ghost use Rattle.law_transcript.specs.Headline.{Headline, IsAsMade};
ghost use Rattle.law_transcript.specs.Nodes.{listing_of};
ghost use Rattle.world_model.specs.State.{Machine, first_machine};
ghost use Rattle.world_lines.specs.Spoken.{Spoken, after_all, transcript_of};
ghost use Rattle.world_lines.specs.Done.{AreDone};
ghost use Rattle.proof_headline.specs.proof_device.Showing.{AreApart, IsShown};
ghost use Rattle.proof_transcript.specs.Devices.{GroupsSessions};
ghost use Rattle.proof_host.specs.Laws.{HostLaws};
ghost use Rattle.audit_books.specs.SessionRule.{EachKeeps, breaks_sessions};
ghost use Rattle.proof_audit.specs.Books.{ArePieces, AreAsked, ChangesBegun, IsOfItsKind};
ghost use Rattle.proof_audit.specs.Tables.{IsOfTable};
ghost use Rattle.proof_audit.specs.Whole.{EachKeepsOnce};

use device_sim::when_changes_come;
use proof_headline::{
    devices_as_made_begin_courses, devices_go_on, nodes_have_the_headline,
    supervised_nodes_are_plain_or_locks,
};
use proof_host::what_is_over_stays;
use proof_transcript::runs_take_once;

/// Where each line has the answer that is due, and each device is of the kind of its node, an order that is accepted is that of the line before it, for a node
/// that the host takes for its kind, and sets parameters that there are.
pub fn accepted_orders_were_asked()
    ensures { (whole : Bool) (devices : Items State) (transcript : Items Entry) → AllByRecursion IsOfItsKind devices → AnswersLines whole devices transcript →
        AreAsked (listing_of devices) transcript }
{}

/// The rule of sessions, also with the table after the run.
pub fn sessions_are_in_order()
    ensures { (listing : ℕ → Items ℕ) (transcript table : Items Entry) → HostLaws transcript → AreAsked listing transcript → AllByRecursion IsOfTable table →
        EachKeeps breaks_sessions [] (transcript ++ table) }
{}

/// The once-only rule, also with the table after the run: where the headline holds of devices of the kinds of their nodes, no two of one node; all changes are
/// shown, each in one piece, those of one session together; and a session that made one had begun.
pub fn changes_are_made_once()
    ensures { (before after : Items State) (transcript table : Items Entry) → HostLaws transcript → AreAsked (listing_of before) transcript →
        Headline before after transcript → AllByRecursion (IsShown transcript) after → AllByRecursion (GroupsSessions transcript) after → AreApart after →
        AllByRecursion IsOfItsKind after → ArePieces after transcript → ChangesBegun transcript → AllByRecursion IsOfTable table →
        EachKeepsOnce [] (transcript ++ table) }
{
    what_is_over_stays();
}

/// Over any lines, the last of which an allocation failure may have cut short, what is entered is whole changes of devices, each in one piece, and entries that
/// show no change.
pub fn changes_are_entered_whole()
    ensures { (m : Machine) (lines : Items Spoken) → AreDone m lines → ArePieces (after_all m lines).outside.devices (transcript_of m lines) }
{
    when_changes_come();
}

/// So over such lines, of devices as their makers left them, no two of one node, a session that made a change had begun.
pub fn sessions_begin_before_changes()
    ensures { (key : Items ℕ) (devices : Items State) (lines : Items Spoken) → AllByRecursion (IsAsMade key) devices → AreApart devices →
        AreDone (first_machine (keys_of key) (Some []) devices) lines →
        ChangesBegun (transcript_of (first_machine (keys_of key) (Some []) devices) lines) }
{
    when_changes_come();
    runs_take_once();
    devices_go_on();
    devices_as_made_begin_courses();
    supervised_nodes_are_plain_or_locks();
    nodes_have_the_headline();
}
