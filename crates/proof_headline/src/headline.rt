//! The laws of successes and of the headline.

ghost use Rattle.std.specs.Prelude.{◌≡◌, ℕ, true, Option, Some, List, [], ◌++◌};
ghost use Rattle.std.specs.List.{AllByRecursion};
ghost use Rattle.s0_crypto.specs.declared.key_pair.Keys.{Keys};
ghost use Rattle.device_sim.specs.State.{State};
ghost use Rattle.proof_spoken.specs.proof_device.Showing.{AreUnchanged, IsShownAmong};
ghost use Rattle.zw_text.specs.declared.entry.Entry.{Entry};
ghost use Rattle.law_transcript.specs.Headline.{Headline, HeadlineOf};
ghost use Rattle.law_transcript.specs.Nodes.{always, device_of, is_supervised, listing_of};
ghost use Rattle.law_transcript.specs.Once.{SucceedsAfterChange};
ghost use Rattle.proof_host.specs.Facts.{Facts};
ghost use Rattle.world_model.specs.State.{Machine, first_machine};
ghost use Rattle.world_model.specs.Events.{Event, entries, May};
ghost use Rattle.proof_spoken.specs.proof_once.Tied.{AllTied, AreTied};
ghost use Rattle.proof_spoken.specs.proof_once.Truly.{IsTrue};
ghost use Rattle.proof_spoken.specs.Said.{LinesTell};
ghost use Rattle.world_lines.specs.Spoken.{Spoken, after_all, transcript_of};
ghost use Rattle.proof_spoken.specs.Spoken.{AreSpoken};
ghost use Rattle.world_lines.specs.Done.{AreDone};
ghost use Rattle.proof_headline.specs.Truly.{IsAskable, LinesAreTrue, SucceedsAfterChangeOf};

use proof_host::{asides_keep_facts, events_keep_facts};
use proof_spoken::{
    answers_stand_after_their_lines, changes_are_shown, devices_change_in_sessions, devices_go_on,
    endings_are_shown, headlines_follow, interviews_give_what_is_known, lines_tell_what_nodes_list,
    runs_have_their_tables, the_machine_keeps_facts,
};

/// Where reports of success of a node are true, an event enters each success of its commands after the change, and where those of all nodes are, each success.
pub fn successes_follow_changes()
    ensures one { (past : List Entry) (m : Machine) (event : Event) (node : ℕ) → Facts past m.host.state →
        AllByRecursion (IsShownAmong past) m.outside.devices →
        May m event → IsTrue node m event → SucceedsAfterChangeOf node past → SucceedsAfterChangeOf node (past ++ entries m event) }
    ensures all { (past : List Entry) (m : Machine) (event : Event) → Facts past m.host.state → AllByRecursion (IsShownAmong past) m.outside.devices →
        May m event → ((node : ℕ) → IsTrue node m event) → SucceedsAfterChange past → SucceedsAfterChange (past ++ entries m event) }
{
    events_keep_facts();
    asides_keep_facts();
    endings_are_shown();
}

/// So over any lines from the beginning on, the last of which an allocation failure may have cut short, with devices that have not changed
/// yet, whatever devices are of one node.
pub fn runs_report_after_the_change()
    ensures one { (keys : Keys) (records : Option (List (List ℕ))) (devices : List State) (lines : List Spoken) (node : ℕ) → AreUnchanged devices →
        AreSpoken (first_machine keys records devices) lines → LinesAreTrue node (first_machine keys records devices) lines →
        SucceedsAfterChangeOf node (transcript_of (first_machine keys records devices) lines) }
    ensures all { (keys : Keys) (records : Option (List (List ℕ))) (devices : List State) (lines : List Spoken) → AreUnchanged devices →
        AreSpoken (first_machine keys records devices) lines → ((node : ℕ) → LinesAreTrue node (first_machine keys records devices) lines) →
        SucceedsAfterChange (transcript_of (first_machine keys records devices) lines) }
{
    changes_are_shown();
    asides_keep_facts();
    the_machine_keeps_facts();
    successes_follow_changes();
}

/// For a node that is not the first and has no device that knows Supervision no order is accepted, where each interview that ends well
/// tells what the node's device lists. So the host is told no success of it.
pub fn others_are_told_nothing()
    ensures { (keys : Keys) (records : Option (List (List ℕ))) (devices : List State) (lines : List Spoken) (node : ℕ) →
        AreSpoken (first_machine keys records devices) lines →
        LinesTell (listing_of devices) (first_machine keys records devices) lines → (IsAskable devices node → ⊥) →
        LinesAreTrue node (first_machine keys records devices) lines }
{
    events_keep_facts();
    the_machine_keeps_facts();
    interviews_give_what_is_known();
}

/// The headline, over any such lines, with devices that have not changed yet, where each interview that ends well tells what the node's device lists: of
/// each device that knows Supervision, is the first of its node and is tied to the host in the end. And the whole, where all those are, each report of
/// success is true of the first node and of those. The devices may be those after further lines, of which nothing is entered.
pub fn runs_have_the_headline()
    ensures one { (keys : Keys) (records : Option (List (List ℕ))) (devices : List State) (lines further : List Spoken) (node : ℕ)
        (device : State) → AreUnchanged devices →
        AreSpoken (first_machine keys records devices) lines → LinesTell (listing_of devices) (first_machine keys records devices) lines →
        device_of node (after_all (first_machine keys records devices) further).outside.devices ≡ Some device → is_supervised device ≡ true →
        AreTied (after_all (first_machine keys records devices) lines).host.state node device →
        HeadlineOf (always (listing_of devices)) node (transcript_of (first_machine keys records devices) lines) device }
    ensures whole { (keys : Keys) (records : Option (List (List ℕ))) (devices : List State) (lines further : List Spoken) → AreUnchanged devices →
        AreSpoken (first_machine keys records devices) lines →
        ((node : ℕ) → IsAskable devices node → LinesAreTrue node (first_machine keys records devices) lines) →
        LinesTell (listing_of devices) (first_machine keys records devices) lines →
        AllTied (after_all (first_machine keys records devices) lines).host.state (after_all (first_machine keys records devices) further).outside.devices →
        Headline devices (after_all (first_machine keys records devices) further).outside.devices (transcript_of (first_machine keys records devices) lines) }
{
    devices_go_on();
    devices_change_in_sessions();
    the_machine_keeps_facts();
    answers_stand_after_their_lines();
    interviews_give_what_is_known();
    runs_have_their_tables();
    others_are_told_nothing();
    runs_report_after_the_change();
    headlines_follow();
}

/// So over any lines that were read, over a keeper that tells its records and has none at first: nothing is assumed of interviews and of restarts
/// then. Of each supervised device that is tied in the end, and the whole.
pub fn lines_have_the_headline()
    ensures one { (keys : Keys) (devices : List State) (lines further : List Spoken) (node : ℕ) (device : State) → AreUnchanged devices →
        AreDone (first_machine keys (Some []) devices) lines →
        device_of node (after_all (first_machine keys (Some []) devices) further).outside.devices ≡ Some device → is_supervised device ≡ true →
        AreTied (after_all (first_machine keys (Some []) devices) lines).host.state node device →
        HeadlineOf (always (listing_of devices)) node (transcript_of (first_machine keys (Some []) devices) lines) device }
    ensures whole { (keys : Keys) (devices : List State) (lines further : List Spoken) → AreUnchanged devices →
        AreDone (first_machine keys (Some []) devices) lines →
        ((node : ℕ) → IsAskable devices node → LinesAreTrue node (first_machine keys (Some []) devices) lines) →
        AllTied (after_all (first_machine keys (Some []) devices) lines).host.state (after_all (first_machine keys (Some []) devices) further).outside.devices →
        Headline devices (after_all (first_machine keys (Some []) devices) further).outside.devices
        (transcript_of (first_machine keys (Some []) devices) lines) }
{
    lines_tell_what_nodes_list();
    runs_have_the_headline();
}
