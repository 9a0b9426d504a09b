//! The rules of confirmed values and of the table hold of what keeps the laws of values.

ghost use Rattle.std.specs.Prelude.{◌≡◌, ℕ, List as Items, [], ◌++◌, Some};
ghost use Rattle.std.specs.List.{AllByRecursion};
ghost use Rattle.s0_crypto.specs.declared.key_pair.Keys.{Keys};
ghost use Rattle.device_stack.specs.State.{State};
ghost use Rattle.zw_text.specs.declared.entry.Entry.{Entry};
ghost use Rattle.law_transcript.specs.Nodes.{always, listing_of};
ghost use Rattle.law_transcript.specs.Table.{table_of};
ghost use Rattle.law_wire.specs.Shown.{ShowsDevices};
ghost use Rattle.proof_headline.specs.proof_device.Showing.{IsShown};
ghost use Rattle.proof_host.specs.Laws.{HostLaws};
ghost use Rattle.audit_books.specs.SessionRule.{EachKeeps};
ghost use Rattle.audit_table.specs.StoreRule.{breaks_store};
ghost use Rattle.audit_table.specs.TableRule.{breaks_table};
ghost use Rattle.world_model.specs.State.{first_machine};
ghost use Rattle.world_lines.specs.Spoken.{Spoken, transcript_of};
ghost use Rattle.world_lines.specs.Done.{AreDone};
ghost use Rattle.proof_audit.specs.Books.{AreAsked, IsOfItsKind};
ghost use Rattle.proof_audit.specs.Tables.{IsOfTable, StoresDirectly};

use proof_host::{asides_keep_facts, events_keep_facts, laws_follow};
use proof_transcript::{
    answers_stand_after_their_lines, interviews_give_what_is_known, lines_are_answered,
    lines_tell_what_nodes_list, tables_keep_orders, the_machine_keeps_facts,
};

/// The rule of confirmed values, also with the table after the run: where directly after each success stand the values that its command asks for.
pub fn values_stand_after_success()
    ensures { (listing : ℕ → Items ℕ) (transcript table : Items Entry) → HostLaws transcript → AreAsked listing transcript → StoresDirectly listing transcript →
        AllByRecursion IsOfTable table → EachKeeps breaks_store [] (transcript ++ table) }
{}

/// The rule of the table, which the law of the table says to be that of the transcript.
pub fn tables_are_as_due()
    ensures { (before after : Items State) (ticks : ℕ) (transcript : Items Entry) → HostLaws transcript → AreAsked (listing_of before) transcript →
        AllByRecursion (IsShown transcript) after → ShowsDevices before transcript →
        EachKeeps breaks_table [] (transcript ++ table_of (always (listing_of before)) ticks transcript after) }
{}

/// The lines of the table are lines of a table, whatever the transcript and the devices are.
pub fn a_table_is_its_lines()
    ensures { (listing : ℕ → Items ℕ) (ticks : ℕ) (transcript : Items Entry) (devices : Items State) →
        AllByRecursion IsOfTable (table_of (always listing) ticks transcript devices) }
{}

/// Over any lines, the last of which an allocation failure may have cut short, the values that the command of each success asks for stand directly after it,
/// all of them, and none elsewhere: where the keeper tells its records and had none at first, and each device is of the kind of its node.
pub fn values_are_stored_directly()
    ensures { (keys : Keys) (devices : Items State) (lines : Items Spoken) →
        AllByRecursion IsOfItsKind devices → AreDone (first_machine keys (Some []) devices) lines →
        StoresDirectly (listing_of devices) (transcript_of (first_machine keys (Some []) devices) lines) }
{
    tables_keep_orders();
    asides_keep_facts();
    events_keep_facts();
    laws_follow();
    the_machine_keeps_facts();
    lines_tell_what_nodes_list();
    interviews_give_what_is_known();
    answers_stand_after_their_lines();
    lines_are_answered();
}
