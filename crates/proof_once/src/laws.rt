//! What follows of a host and a device that are tied.

ghost use Rattle.std.specs.Prelude.{◌≡◌, ℕ, ◌+◌, ◌≤◌, true, List, [], ◌∷◌, ◌++◌, length, Some};
ghost use Rattle.std.specs.List.{AllByRecursion};
ghost use Rattle.zw_base.specs.declared.property.By.TheVariants.{Session};
ghost use Rattle.zw_base.specs.declared.property.Setting.{Setting};
ghost use Rattle.device_kinds.specs.declared.change.Change.{Change};
ghost use Rattle.supervision.specs.Host.{command_at as session_at};
ghost use Rattle.supervision.specs.declared.session.TheConstants.{SUCCESS};
ghost use Rattle.proof_course.specs.Sessions.{Course};
ghost use Rattle.proof_course.specs.SessionFacts.{CourseFacts};
ghost use Rattle.proof_messages.specs.device_sim.State.{State};
ghost use Rattle.proof_messages.specs.device_sim.Event.{DeviceEvent, device_after};
ghost use Rattle.proof_messages.specs.Ending.{HasEnded};
ghost use Rattle.proof_device.specs.GoingOn.{GoOn};
ghost use Rattle.proof_device.specs.Showing.{AreUnchanged, IsShownAmong};
ghost use Rattle.zw_text.specs.declared.entry.Entry.{Entry};
ghost use Rattle.proof_host.specs.law_transcript.Lists.{Has};
ghost use Rattle.proof_host.specs.law_transcript.Headline.{Headline, HeadlineOf};
ghost use Rattle.proof_host.specs.law_transcript.Nodes.{always, is_supervised, listing_of};
ghost use Rattle.proof_host.specs.law_transcript.Once.{IsSupervisedChange, Once, SucceedsAfterChange, commands_shown};
ghost use Rattle.proof_host.specs.law_transcript.Values.{ConfirmsLast};
ghost use Rattle.host_node.specs.TableState.{node_of};
ghost use Rattle.proof_host.specs.host_model.State.{HostState, Command};
ghost use Rattle.proof_host.specs.host_model.After.{outcome_of};
ghost use Rattle.proof_host.specs.Facts.{Facts, StartsAs};
ghost use Rattle.proof_host.specs.Tables.{outcome_in, taken_at};
ghost use Rattle.host_keep.specs.Status.{status_byte};
ghost use Rattle.host_keep.specs.declared.final_status.FinalStatus.{FinalStatus};
ghost use Rattle.proof_once.specs.Tied.{AllTied, AreOutcomes, AreTied, IsTaken, IsTied, KeepsOrders, MakesWhatIsTaken, settings_taken};
ghost use Rattle.proof_once.specs.ByTable.{ConfirmsByTable, IsTable, OnceByTable};
ghost use Rattle.proof_once.specs.InSessions.{ChangesInSessions};

use proof_device::devices_stay_the_same;
use proof_host::{laws_follow, values_are_in_order, what_is_over_stays};
use proof_messages::when_changes_come;

/// A course that keeps its facts ties the host's book to a device that ended its sessions as the course has it, where outcomes are those that the
/// host was told and changes make what was asked for.
pub fn courses_tie_their_ends()
    ensures { (c : Course) (commands : List Command) (device : State) → CourseFacts c → HasEnded device c.ends → AreOutcomes commands c.host.commands c.told →
        AllByRecursion (MakesWhatIsTaken commands c.host.commands) device.journal → IsTied commands c.host device c.ends c.told }
{}

/// A host that starts from what another recorded is tied as that was.
pub fn restarts_keep_ties()
    ensures { (old new : HostState) (node : ℕ) (device : State) (finals told : List ℕ) → StartsAs old new →
        IsTied old.commands (node_of old.nodes node).book device finals told → IsTied new.commands (node_of new.nodes node).book device finals told }
{}

/// What a tie says of outcomes and changes goes on. Outcomes that the host was told stay while it goes on, whatever it does and however often it starts
/// again; one more is told as the next session comes to its status. What changes made stays while the table keeps orders and sessions are
/// added; and one more change by a session is of the settings that the table has for it.
pub fn ties_go_on()
    ensures outcomes { (past more : List Entry) (old new : HostState) (begun added told : List ℕ) → Facts past old →
        Facts (past ++ more) new → length told ≤ length begun →
        AreOutcomes old.commands begun told → AreOutcomes new.commands (begun ++ added) told }
    ensures told { (commands : List Command) (begun told : List ℕ) (number : ℕ) (status : FinalStatus) → AreOutcomes commands begun told →
        session_at begun (length told + 1) ≡ Some number → outcome_in commands number ≡ outcome_of status →
        AreOutcomes commands begun (told ++ status_byte status ∷ []) }
    ensures made { (old new : List Command) (begun added : List ℕ) (device : State) (finals : List ℕ) → KeepsOrders old new →
        HasEnded device finals → length finals ≤ length begun →
        AllByRecursion (IsTaken old) begun → AllByRecursion (MakesWhatIsTaken old begun) device.journal →
        AllByRecursion (MakesWhatIsTaken new (begun ++ added)) device.journal }
    ensures changed { (commands : List Command) (begun : List ℕ) (journal : List Change) (session number : ℕ) (settings : List Setting) →
        AllByRecursion (MakesWhatIsTaken commands begun) journal → session_at begun session ≡ Some number →
        settings ≡ settings_taken (taken_at commands number) →
        AllByRecursion (MakesWhatIsTaken commands begun) (journal ++ record { by = Session session; settings = settings } ∷ []) }
{
    laws_follow();
    what_is_over_stays();
}

/// A device that knows Supervision makes no change without a session, but by hand: nor does one that goes on from there, nor many, each at its
/// place; and one that has not changed yet has made none.
pub fn devices_change_in_sessions()
    ensures event { (device : State) (event : DeviceEvent) → ChangesInSessions device → ChangesInSessions (device_after device event) }
    ensures all { (old new : List State) → GoOn old new → AllByRecursion ChangesInSessions old → AllByRecursion ChangesInSessions new }
    ensures unchanged { (devices : List State) → AreUnchanged devices → AllByRecursion ChangesInSessions devices }
{
    when_changes_come();
    devices_stay_the_same();
}

/// Once only: a device that is tied to a host and changes in sessions alone has applied a part of the commands that were accepted for its node, in
/// order, each at most once, and made just what each asked for; every one that is reported successful is among these, and none that failed,
/// was taken back or still waits.
pub fn ties_keep_once_only()
    ensures { (past : List Entry) (h : HostState) (node : ℕ) (device : State) (finals told : List ℕ) → Facts past h →
        IsTied h.commands (node_of h.nodes node).book device finals told → AllByRecursion IsSupervisedChange device.journal →
        OnceByTable h.commands node past device.journal }
{
    laws_follow();
}

/// The confirmed value: where the last change of a property is by the session of a command that is reported successful, the host's confirmed
/// value of it is the device's value.
pub fn ties_confirm_what_was_set()
    ensures { (past : List Entry) (h : HostState) (node : ℕ) (device : State) (finals told : List ℕ) → Facts past h →
        IsTied h.commands (node_of h.nodes node).book device finals told → ConfirmsByTable node past h.store device }
{
    laws_follow();
    values_are_in_order();
}

/// The command of a session that a device ended with success is shown to have changed it, once the transcript has shown the device's changes,
/// whatever was entered since.
pub fn endings_are_shown()
    ensures { (past more : List Entry) (h : HostState) (device : State) (finals : List ℕ) (session number : ℕ) → Facts (past ++ more) h →
        IsShownAmong past device → HasEnded device finals →
        AllByRecursion (MakesWhatIsTaken h.commands (node_of h.nodes device.node).book.commands) device.journal →
        session_at (node_of h.nodes device.node).book.commands session ≡ Some number → session_at finals session ≡ Some SUCCESS →
        Has (commands_shown device.node (past ++ more)) number }
{}

/// Where the host's table is what the transcript shows of the orders of a node, these are the laws of transcripts.
pub fn laws_of_transcripts_follow()
    ensures once { (past : List Entry) (h : HostState) (listing : ℕ → List ℕ) (node : ℕ) (device : State) → IsTable (always listing) h.commands node past →
        OnceByTable h.commands node past device.journal → Once (always listing) node past device.journal }
    ensures confirms { (past : List Entry) (h : HostState) (listing : ℕ → List ℕ) (node : ℕ) (device : State) → Facts past h →
        IsTable (always listing) h.commands node past →
        ConfirmsByTable node past h.store device → ConfirmsLast (always listing) node past device }
{
    laws_follow();
}

/// So the headline follows of a host and its devices that are tied: of each that is, where it changed in sessions alone and the host's table is what the
/// transcript shows of the node's orders; and the whole, where each success was reported after its change.
pub fn headlines_follow()
    ensures one { (past : List Entry) (h : HostState) (before : List State) (node : ℕ) (device : State) → Facts past h →
        AreTied h node device → is_supervised device ≡ true →
        ChangesInSessions device → IsTable (always (listing_of before)) h.commands node past → HeadlineOf (always (listing_of before)) node past device }
    ensures whole { (past : List Entry) (h : HostState) (before devices : List State) → Facts past h → SucceedsAfterChange past →
        AllTied h devices → AllByRecursion ChangesInSessions devices →
        ((node : ℕ) → IsTable (always (listing_of before)) h.commands node past) → Headline before devices past }
{
    laws_follow();
    ties_keep_once_only();
    ties_confirm_what_was_set();
    laws_of_transcripts_follow();
}
