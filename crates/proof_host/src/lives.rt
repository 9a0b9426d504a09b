//! The lives of a host, each but the first from the records of those before it.

ghost use Rattle.std.specs.Prelude.{List, [], ◌++◌};
ghost use Rattle.s0_crypto.specs.declared.key_pair.Keys.{Keys};
ghost use Rattle.zw_text.specs.declared.entry.Entry.{Entry};
ghost use Rattle.host_model.specs.host_keep.Kept.{Kept, kept_of};
ghost use Rattle.host_model.specs.host_keep.Legal.{AreLegal};
ghost use Rattle.host_model.specs.host_keep.declared.record.Record.{Record};
ghost use Rattle.host_model.specs.State.{HostState, first_host};
ghost use Rattle.host_model.specs.Events.{HostEvent};
ghost use Rattle.host_model.specs.Facts.{HostFacts};
ghost use Rattle.host_model.specs.Holding.{Holds, HoldsAlone};
ghost use Rattle.proof_host.specs.Facts.{AreShown, Facts, StartsAs};
ghost use Rattle.proof_host.specs.Laws.{HostLaws};
ghost use Rattle.proof_host.specs.Lives.{AreLives, entries_of_lives, last_of_lives};
ghost use Rattle.proof_host.specs.Stores.{StoresLaw};

use crate::laws::{events_keep_facts, first_facts_hold, laws_follow, restarts_keep_facts};
use host_model::{
    a_host_begins_with_what_is_kept, a_restart_keeps_what_is_held, events_do_what_their_records_do,
    records_go_on, records_of_events_are_legal,
};

/// A host that has what is kept, and nothing besides, starts from what another recorded that has it too.
pub fn what_is_kept_starts_a_host()
    ensures { (old new : HostState) (kept : Kept) → Holds old kept → HoldsAlone new kept → HostFacts new → StartsAs old new }
{}

/// The facts go through the lives of a host, where each interview that ends well is of a node that is joined.
pub fn lives_keep_facts()
    ensures { (keys : Keys) (past : List Entry) (h : HostState) (records : List Record) (lives : List (List HostEvent)) →
        Facts past h → Holds h (kept_of records) → AreLegal records → AreLives keys h records lives →
        Facts (past ++ entries_of_lives keys h records lives) (last_of_lives keys h records lives) }
{
    events_keep_facts();
    restarts_keep_facts();
    what_is_kept_starts_a_host();
    records_go_on();
    events_do_what_their_records_do();
    records_of_events_are_legal();
    a_restart_keeps_what_is_held();
}

/// So over all the lives of a host from its beginning its transcript keeps the laws, and shows the tables and the confirmed values of the
/// host that starts last.
pub fn lives_keep_laws()
    ensures laws { (keys : Keys) (lives : List (List HostEvent)) → AreLives keys (first_host keys) [] lives →
        HostLaws (entries_of_lives keys (first_host keys) [] lives) }
    ensures tables { (keys : Keys) (lives : List (List HostEvent)) → AreLives keys (first_host keys) [] lives →
        AreShown (entries_of_lives keys (first_host keys) [] lives) (last_of_lives keys (first_host keys) [] lives) }
    ensures stores { (keys : Keys) (lives : List (List HostEvent)) → AreLives keys (first_host keys) [] lives →
        StoresLaw (entries_of_lives keys (first_host keys) [] lives) (last_of_lives keys (first_host keys) [] lives) }
{
    first_facts_hold();
    laws_follow();
    lives_keep_facts();
    a_host_begins_with_what_is_kept();
}
