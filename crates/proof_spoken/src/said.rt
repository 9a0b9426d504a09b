//! The laws of orders that were said.

ghost use Rattle.proof_once.specs.law_transcript.Nodes.{always};
ghost use Rattle.std.specs.Prelude.{◌≡◌, ℕ, Option, Some, List, [], ◌++◌};
ghost use Rattle.s0_crypto.specs.declared.key_pair.Keys.{Keys};
ghost use Rattle.proof_once.specs.device_sim.State.{State};
ghost use Rattle.zw_text.specs.declared.entry.Entry.{Entry};
ghost use Rattle.zw_text.specs.Transcript.{accepted};
ghost use Rattle.proof_once.specs.law_transcript.Commands.{classes_for, order_of};
ghost use Rattle.proof_once.specs.law_transcript.Lists.{Has};
ghost use Rattle.host_keep.specs.Kept.{Taken};
ghost use Rattle.host_orders.specs.Wrapping.{carriage_of};
ghost use Rattle.proof_once.specs.proof_host.Laws.{numbers_for};
ghost use Rattle.proof_once.specs.proof_host.Tables.{taken_at};
ghost use Rattle.proof_world.specs.host_model.State.{HostState, first_host};
ghost use Rattle.proof_world.specs.host_model.Events.{HostEvent};
ghost use Rattle.proof_world.specs.host_model.After.{after as host_after};
ghost use Rattle.proof_once.specs.proof_host.Facts.{Facts};
ghost use Rattle.proof_once.specs.world_model.State.{Machine, first_machine};
ghost use Rattle.proof_once.specs.world_model.Events.{Event, happens, entries, May};
ghost use Rattle.proof_world.specs.Restarts.{AreHeld, StartsWell};
ghost use Rattle.proof_once.specs.Tied.{KeepsOrders};
ghost use Rattle.proof_once.specs.ByTable.{IsTable};
ghost use Rattle.proof_world.specs.world_lines.Spoken.{Spoken, after, after_all, entries_of, transcript_of};
ghost use Rattle.proof_spoken.specs.Spoken.{IsSpoken, AreSpoken};
ghost use Rattle.proof_spoken.specs.Said.{AllKnow, AreSaid, KnowsAgain, KnowsListing, LinesTell, Tells};

use host_keep::texts_give_one_thing;
use host_node::a_restart_needs_the_records_alone;
use proof_once::asides_keep_facts;
use proof_world::the_machine_keeps_facts;

/// A command that was taken stays in the table as it was taken, whatever the host does, and over restarts.
pub fn tables_keep_orders()
    ensures host { (h : HostState) (event : HostEvent) → KeepsOrders h.commands (host_after h event).commands }
    ensures each { (m : Machine) (event : Event) → StartsWell m event → KeepsOrders m.host.state.commands (happens m event).host.state.commands }
{}

/// Over any lines, the last of which an allocation failure may have cut short, each order that is accepted stands directly after the line
/// that asks for it, and stays in the table as it was asked for.
pub fn answers_stand_after_their_lines()
    ensures line { (listing : ℕ → List ℕ) (past : List Entry) (m : Machine) (spoken : Spoken) (more : List Spoken) →
        Facts past m.host.state → AreSaid (always listing) m.host.state.commands past →
        KnowsListing (always listing) past m.host.state → IsSpoken more m spoken →
        Facts (past ++ entries_of m spoken) (after m spoken).host.state ×
        AreSaid (always listing) (after m spoken).host.state.commands (past ++ entries_of m spoken) }
    ensures lines { (listing : ℕ → List ℕ) (past : List Entry) (m : Machine) (lines : List Spoken) → Facts past m.host.state →
        AreSaid (always listing) m.host.state.commands past →
        AllKnow listing past m lines → AreSpoken m lines →
        Facts (past ++ transcript_of m lines) (after_all m lines).host.state ×
        AreSaid (always listing) (after_all m lines).host.state.commands (past ++ transcript_of m lines) }
{
    the_machine_keeps_facts();
    asides_keep_facts();
}

/// So the table is what the transcript shows of the orders of each node.
pub fn tables_are_what_was_said()
    ensures { (listing : List Entry → ℕ → List ℕ) (past : List Entry) (h : HostState) (node : ℕ) → Facts past h → AreSaid listing h.commands past →
        IsTable listing h.commands node past }
{}

/// And each order that was accepted is in the table as the transcript shows it, carried as the classes ask that the host knew of the node then.
pub fn orders_are_carried_as_said()
    ensures { (listing : List Entry → ℕ → List ℕ) (past : List Entry) (h : HostState) (node number : ℕ) (taken : Taken) → Facts past h →
        AreSaid listing h.commands past → Has (numbers_for node past) number → taken_at h.commands number ≡ Some taken →
        (order_of number (accepted node past) ≡ Some taken.order) × (taken.carriage ≡ carriage_of (classes_for listing past node number) taken.order) }
{}

/// The host knows of each node the classes that the transcript shows, where each interview that ends well is of a joined node and tells what the node
/// lists, and a host that starts again knows what the one before knew: so it is of two hosts that have the same records.
pub fn interviews_give_what_is_known()
    ensures first { (listing : ℕ → List ℕ) (keys : Keys) → KnowsListing (always listing) [] (first_host keys) }
    ensures each { (listing : ℕ → List ℕ) (past : List Entry) (m : Machine) (event : Event) → May m event → Tells listing m event →
        KnowsListing (always listing) past m.host.state → KnowsListing (always listing) (past ++ entries m event) (happens m event).host.state }
    ensures lines { (listing : ℕ → List ℕ) (past : List Entry) (m : Machine) (lines : List Spoken) → AreSpoken m lines →
        LinesTell listing m lines → KnowsListing (always listing) past m.host.state →
        AllKnow listing past m lines }
    ensures end { (listing : ℕ → List ℕ) (past : List Entry) (m : Machine) (lines : List Spoken) → AreSpoken m lines →
        LinesTell listing m lines → KnowsListing (always listing) past m.host.state →
        KnowsListing (always listing) (past ++ transcript_of m lines) (after_all m lines).host.state }
    ensures again { (old new : HostState) (texts : List (List ℕ)) → AreHeld old texts → AreHeld new texts → KnowsAgain old new }
{
    a_restart_needs_the_records_alone();
    texts_give_one_thing();
}

/// From the beginning on: over any such lines, whatever happens at each, where interviews tell what nodes list.
pub fn runs_have_their_tables()
    ensures { (listing : ℕ → List ℕ) (keys : Keys) (records : Option (List (List ℕ))) (devices : List State) (lines : List Spoken) (node : ℕ) →
        AreSpoken (first_machine keys records devices) lines → LinesTell listing (first_machine keys records devices) lines →
        IsTable (always listing) (after_all (first_machine keys records devices) lines).host.state.commands node
        (transcript_of (first_machine keys records devices) lines) }
{
    the_machine_keeps_facts();
    answers_stand_after_their_lines();
    tables_are_what_was_said();
    interviews_give_what_is_known();
}
