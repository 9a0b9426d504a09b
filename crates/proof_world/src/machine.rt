//! The laws of whole runs, over every line, node and kind.

ghost use Rattle.std.specs.Prelude.{ℕ, Option, List, [], ◌++◌};
ghost use Rattle.std.specs.List.{AllByRecursion};
ghost use Rattle.s0_crypto.specs.declared.key_pair.Keys.{Keys};
ghost use Rattle.proof_host.specs.device_sim.State.{State};
ghost use Rattle.zw_text.specs.declared.entry.Entry.{Entry};
ghost use Rattle.proof_device.specs.world_model.State.{Machine, first_machine};
ghost use Rattle.proof_device.specs.world_model.Events.{Event, happens, entries, May};
ghost use Rattle.proof_device.specs.world_model.Did.{happens_all, entries_all, MayAll};
ghost use Rattle.proof_host.specs.Laws.{HostLaws};
ghost use Rattle.proof_host.specs.Facts.{Facts, AreShown};
ghost use Rattle.proof_host.specs.Stores.{StoresLaw};
ghost use Rattle.proof_host.specs.host_model.State.{first_host};
ghost use Rattle.proof_host.specs.host_model.Facts.{HostFacts};
ghost use Rattle.proof_host.specs.law_transcript.Headline.{IsAsMade};
ghost use Rattle.proof_device.specs.GoingOn.{AreSame, AreInOrder, TakeOnce};
ghost use Rattle.proof_device.specs.Showing.{AreApart, IsShown};
ghost use Rattle.proof_world.specs.Devices.{GroupsSessions};
ghost use Rattle.proof_world.specs.Restarts.{StartsWell, AllStartWell, KeepsWell, AllKeepWell, BeginsEmpty, IsHeld};

use host_keep::{a_text_is_of_one_record, records_go_on};
use proof_device::{changes_are_shown, devices_go_on, devices_stay_the_same, devices_take_once};
use proof_host::{
    a_host_begins_with_what_is_kept, a_restart_keeps_what_is_held, asides_keep_facts,
    events_do_what_their_records_do, events_keep_facts, first_facts_hold, laws_follow,
    records_of_events_are_legal, restarts_keep_facts, sessions_rise, what_is_kept_starts_a_host,
};

/// The facts of the host hold of an empty transcript at first, and every event of the machine that may happen keeps them, with what is
/// entered at it.
pub fn the_machine_keeps_facts()
    ensures first { (keys : Keys) (records : Option (List (List ℕ))) (devices : List State) → Facts [] (first_machine keys records devices).host.state }
    ensures each { (past : List Entry) (m : Machine) (event : Event) → Facts past m.host.state → May m event → StartsWell m event →
        Facts (past ++ entries m event) (happens m event).host.state }
    ensures all { (past : List Entry) (m : Machine) (events : List Event) → Facts past m.host.state → MayAll m events → AllStartWell m events →
        Facts (past ++ entries_all m events) (happens_all m events).host.state }
{
    first_facts_hold();
    events_keep_facts();
    asides_keep_facts();
    restarts_keep_facts();
}

/// Where the keeper gives back what it was given, each host that starts again has what the one before recorded: the keeper began with no
/// records, and each interview that ends well is of a node that is joined (`AllKeepWell`).
pub fn restarts_go_on()
    ensures first { (keys : Keys) (records : Option (List (List ℕ))) → BeginsEmpty records → IsHeld (first_host keys) records }
    ensures each { (m : Machine) (event : Event) → HostFacts m.host.state → IsHeld m.host.state m.records → May m event → KeepsWell m event →
        StartsWell m event × IsHeld (happens m event).host.state (happens m event).records }
    ensures all { (past : List Entry) (m : Machine) (events : List Event) → Facts past m.host.state → IsHeld m.host.state m.records →
        MayAll m events → AllKeepWell m events →
        AllStartWell m events × IsHeld (happens_all m events).host.state (happens_all m events).records }
{
    the_machine_keeps_facts();
    what_is_kept_starts_a_host();
    a_text_is_of_one_record();
    records_go_on();
    a_host_begins_with_what_is_kept();
    events_do_what_their_records_do();
    records_of_events_are_legal();
    a_restart_keeps_what_is_held();
}

/// So whatever is lost, delayed, repeated or changed, however often the host starts again, and whatever the devices do: the transcript of a run
/// keeps the laws of orders, sessions and outcomes, and shows the tables of the host.
pub fn runs_keep_laws()
    ensures laws { (keys : Keys) (records : Option (List (List ℕ))) (devices : List State) (events : List Event) → BeginsEmpty records →
        MayAll (first_machine keys records devices) events → AllKeepWell (first_machine keys records devices) events →
        HostLaws (entries_all (first_machine keys records devices) events) }
    ensures tables { (keys : Keys) (records : Option (List (List ℕ))) (devices : List State) (events : List Event) → BeginsEmpty records →
        MayAll (first_machine keys records devices) events → AllKeepWell (first_machine keys records devices) events →
        AreShown (entries_all (first_machine keys records devices) events) (happens_all (first_machine keys records devices) events).host.state }
    ensures stores { (keys : Keys) (records : Option (List (List ℕ))) (devices : List State) (events : List Event) → BeginsEmpty records →
        MayAll (first_machine keys records devices) events → AllKeepWell (first_machine keys records devices) events →
        StoresLaw (entries_all (first_machine keys records devices) events) (happens_all (first_machine keys records devices) events).host.state }
{
    the_machine_keeps_facts();
    restarts_go_on();
    laws_follow();
}

/// Whatever happens in a run, restarts or not: each device that was in order at first, as one is that its maker left, has changed at most once by
/// each session, in their order. Where no two are of one node, the `dev` entries of the transcript are the changes of their journals, and the
/// sessions on the entries of a node never fall.
pub fn runs_take_once()
    ensures once { (keys : Keys) (records : Option (List (List ℕ))) (devices : List State) (events : List Event) → AreInOrder devices →
        TakeOnce (happens_all (first_machine keys records devices) events).outside.devices }
    ensures made { (keys : Keys) (records : Option (List (List ℕ))) (key : List ℕ) (devices : List State) (events : List Event) →
        AllByRecursion (IsAsMade key) devices →
        TakeOnce (happens_all (first_machine keys records devices) events).outside.devices }
    ensures same { (keys : Keys) (records : Option (List (List ℕ))) (devices : List State) (events : List Event) →
        AreSame devices (happens_all (first_machine keys records devices) events).outside.devices }
    ensures shown { (keys : Keys) (records : Option (List (List ℕ))) (key : List ℕ) (devices : List State) (events : List Event) →
        AllByRecursion (IsAsMade key) devices → AreApart devices →
        MayAll (first_machine keys records devices) events →
        AllByRecursion (IsShown (entries_all (first_machine keys records devices) events))
        (happens_all (first_machine keys records devices) events).outside.devices }
    ensures groups { (keys : Keys) (records : Option (List (List ℕ))) (key : List ℕ) (devices : List State) (events : List Event) →
        AllByRecursion (IsAsMade key) devices → AreApart devices →
        MayAll (first_machine keys records devices) events →
        AllByRecursion (GroupsSessions (entries_all (first_machine keys records devices) events))
        (happens_all (first_machine keys records devices) events).outside.devices }
{
    sessions_rise();
    devices_go_on();
    devices_stay_the_same();
    devices_take_once();
    changes_are_shown();
}
