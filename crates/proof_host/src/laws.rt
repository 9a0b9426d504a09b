//! The laws of a host alone.

ghost use Rattle.std.specs.Prelude.{◌≡◌, ℕ, List, [], ◌∷◌, ◌++◌};
ghost use Rattle.s0_crypto.specs.declared.key_pair.Keys.{Keys};
ghost use Rattle.zw_text.specs.Transcript.{outcome};
ghost use Rattle.zw_text.specs.declared.entry.Entry.{Entry};
ghost use Rattle.zw_base.specs.declared.order.Order.{Order};
ghost use Rattle.law_transcript.specs.host_orders.Settings.{settings};
ghost use Rattle.law_transcript.specs.host_orders.declared.actuator.Actuator.{Actuator};
ghost use Rattle.host_model.specs.State.{HostState, first_host};
ghost use Rattle.host_model.specs.Events.{HostEvent};
ghost use Rattle.host_model.specs.After.{after};
ghost use Rattle.host_model.specs.May.{May};
ghost use Rattle.host_model.specs.host_keep.Keeping.{Shelf};
ghost use Rattle.host_model.specs.Did.{after_all, Did, MayAll};
ghost use Rattle.host_model.specs.declared.out.HostOut.{HostOut};
ghost use Rattle.proof_host.specs.Entries.{IsAside, entries_at, entries_all};
ghost use Rattle.proof_host.specs.Facts.{AreRuns, AreShown, AreTold, Facts, Run, StartsAs, entries_of_runs, last_of_runs};
ghost use Rattle.proof_host.specs.Laws.{HostLaws, IsOver};
ghost use Rattle.proof_host.specs.Wrong.{
  begun_backwards,
  begun_cancelled,
  begun_early,
  begun_elsewhere,
  begun_twice,
  begun_unasked,
  cancelled_late,
  ended_twice,
  ended_unbegun,
  numbered_late,
};
ghost use Rattle.proof_host.specs.Stores.{AreSorted, StoresLaw};

use host_model::{a_restart_needs_the_records_alone, facts_are_kept};

/// Before anything happens the facts hold of an empty transcript.
pub fn first_facts_hold()
    ensures { (keys : Keys) → Facts [] (first_host keys) }
{
    facts_are_kept();
}

/// Each event that may happen keeps the facts, and events one after another do, as a call does them.
pub fn events_keep_facts()
    ensures each { (past : List Entry) (h : HostState) (event : HostEvent) → Facts past h → May h event → Facts (past ++ entries_at h event) (after h event) }
    ensures all { (past : List Entry) (h : HostState) (events : List HostEvent) → Facts past h → MayAll h events →
        Facts (past ++ entries_all h events) (after_all h events) }
    ensures done { (past : List Entry) (events : List HostEvent) (old new : HostState) (before all : List HostOut) (shelf kept : Shelf) →
        Facts past old → Did events old new before all shelf kept → Facts (past ++ entries_all old events) new }
{
    facts_are_kept();
    a_restart_needs_the_records_alone();
}

/// Until the host starts again, the outcome that it has of each command is the one that was entered last.
pub fn outcomes_are_told()
    ensures each { (past : List Entry) (h : HostState) (event : HostEvent) → Facts past h → AreTold past h → May h event →
        AreTold (past ++ entries_at h event) (after h event) }
    ensures all { (past : List Entry) (h : HostState) (events : List HostEvent) → Facts past h → AreTold past h → MayAll h events →
        AreTold (past ++ entries_all h events) (after_all h events) }
{
    facts_are_kept();
    a_restart_needs_the_records_alone();
}

/// An entry that is not of commands or confirmed values keeps them, whoever enters it.
pub fn asides_keep_facts()
    ensures { (past : List Entry) (h : HostState) (entry : Entry) → Facts past h → IsAside entry → Facts (past ++ entry ∷ []) h }
{}

/// A host that starts from what another recorded goes on with the facts of the other; and so do runs of hosts, one after another.
pub fn restarts_keep_facts()
    ensures one { (past : List Entry) (old new : HostState) → Facts past old → StartsAs old new → Facts past new }
    ensures runs { (past : List Entry) (h : HostState) (runs : List Run) → Facts past h → AreRuns h runs →
        Facts (past ++ entries_of_runs h runs) (last_of_runs h runs) }
{
    facts_are_kept();
    a_restart_needs_the_records_alone();
}

/// Where the facts hold, the transcript keeps the laws and shows the tables of the host, and the confirmed values are those of its
/// successful commands.
pub fn laws_follow()
    ensures laws { (past : List Entry) (h : HostState) → Facts past h → HostLaws past }
    ensures tables { (past : List Entry) (h : HostState) → Facts past h → AreShown past h }
    ensures stores { (past : List Entry) (h : HostState) → Facts past h → StoresLaw past h }
{}

/// Where a transcript keeps the laws, a command that has a final outcome or was taken back has that outcome for good.
pub fn what_is_over_stays()
    ensures { (past more : List Entry) (number : ℕ) → HostLaws (past ++ more) → IsOver (outcome number past) →
        outcome number (past ++ more) ≡ outcome number past }
{}

/// So whatever happens to a host from its beginning, over any restarts, its transcript keeps the laws and shows its tables and its
/// confirmed values; and until the first restart it shows each outcome whole.
pub fn hosts_keep_laws()
    ensures laws { (keys : Keys) (runs : List Run) → AreRuns (first_host keys) runs → HostLaws (entries_of_runs (first_host keys) runs) }
    ensures tables { (keys : Keys) (runs : List Run) → AreRuns (first_host keys) runs →
        AreShown (entries_of_runs (first_host keys) runs) (last_of_runs (first_host keys) runs) }
    ensures stores { (keys : Keys) (runs : List Run) → AreRuns (first_host keys) runs →
        StoresLaw (entries_of_runs (first_host keys) runs) (last_of_runs (first_host keys) runs) }
    ensures run { (keys : Keys) (events : List HostEvent) → MayAll (first_host keys) events → HostLaws (entries_all (first_host keys) events) }
    ensures told { (keys : Keys) (events : List HostEvent) → MayAll (first_host keys) events →
        AreTold (entries_all (first_host keys) events) (after_all (first_host keys) events) }
{
    first_facts_hold();
    events_keep_facts();
    outcomes_are_told();
    restarts_keep_facts();
    laws_follow();
}

/// The values that an order sets, and which are entered at its success, are in the order of properties.
pub fn values_are_in_order()
    ensures { (actuator : Actuator) (order : Order) → AreSorted (settings actuator order) }
{}

/// Each of these breaks one of the laws: an order with a wrong number; a session for a command that was not accepted, or not for
/// this node, that began before, was taken back, or whose turn it is not; one that begins too early; a final outcome of a command
/// that was not begun, or a second one; and one taken back after it began.
pub fn wrong_transcripts_are_rejected()
    ensures late { HostLaws numbered_late → ⊥ }
    ensures unasked { HostLaws begun_unasked → ⊥ }
    ensures elsewhere { HostLaws begun_elsewhere → ⊥ }
    ensures twice { HostLaws begun_twice → ⊥ }
    ensures early { HostLaws begun_early → ⊥ }
    ensures backwards { HostLaws begun_backwards → ⊥ }
    ensures cancelled { HostLaws begun_cancelled → ⊥ }
    ensures unbegun { HostLaws ended_unbegun → ⊥ }
    ensures again { HostLaws ended_twice → ⊥ }
    ensures cancelled_late { HostLaws cancelled_late → ⊥ }
{}
