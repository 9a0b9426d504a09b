//! What the tables of a host have in the records of its keeper.

ghost use Rattle.std.specs.Prelude.{ℕ, List as Items, Option};
ghost use Rattle.s0_crypto.specs.declared.key_pair.Keys.{Keys};
ghost use Rattle.host_keep.specs.Keeping.{OptAdds, Shelf};
ghost use Rattle.host_model.specs.State.{HostState, HostParts, first_host};
ghost use Rattle.host_model.specs.Events.{HostEvent};
ghost use Rattle.host_model.specs.After.{after};
ghost use Rattle.host_model.specs.May.{May};
ghost use Rattle.host_model.specs.Records.{records_at, KeepsInRange};
ghost use Rattle.host_model.specs.Did.{texts_of, Did};
ghost use Rattle.host_model.specs.Taking.{Fed, FedPrefix};
ghost use Rattle.host_model.specs.declared.out.HostOut.{HostOut};
ghost use Rattle.host_core.specs.Opening.{Opens};
ghost use Rattle.host_core.specs.Recorded.{TablesAreTold};

use host_model::{
    a_host_begins_with_what_is_kept, a_record_restores_what_it_says, a_restart_keeps_what_is_held,
    facts_are_kept, legal_records_restore_the_host,
};
use host_node::a_restart_needs_the_records_alone;

/// Each session that a host counts has its record, and so has each command whose outcome is there: over any records at the
/// beginning, after a start from records, and after whatever events of whatever call.
pub fn tables_stand_in_the_records()
    ensures new { (keys : Keys) (told : Option (Items (Items ℕ))) →
        TablesAreTold told (first_host keys) }
    ensures open { (keys : Keys) (number : ℕ)
        (told : Option (Items (Items ℕ))) (host : HostParts) →
        Opens keys number told host → TablesAreTold told host.state }
    ensures event { (h : HostState) (event : HostEvent)
        (told told' : Option (Items (Items ℕ))) →
        May h event → KeepsInRange h event →
        OptAdds told told' (texts_of (records_at h event)) →
        TablesAreTold told h → TablesAreTold told' (after h event) }
    ensures events { (events : Items HostEvent) (old new : HostState)
        (before all : Items HostOut) (shelf shelf' : Shelf) →
        Did events old new before all shelf shelf' →
        TablesAreTold shelf.records old → TablesAreTold shelf'.records new }
    ensures fed { (old new : HostParts) (bytes : Items ℕ)
        (before all : Items HostOut) (shelf shelf' : Shelf) →
        Fed old bytes new before all shelf shelf' →
        TablesAreTold shelf.records old.state →
        TablesAreTold shelf'.records new.state }
    ensures fed_prefix { (old new : HostParts) (bytes : Items ℕ)
        (before all : Items HostOut) (shelf shelf' : Shelf) →
        FedPrefix old bytes new before all shelf shelf' →
        TablesAreTold shelf.records old.state →
        TablesAreTold shelf'.records new.state }
{
    a_host_begins_with_what_is_kept();
    a_record_restores_what_it_says();
    a_restart_keeps_what_is_held();
    a_restart_needs_the_records_alone();
    facts_are_kept();
    legal_records_restore_the_host();
}
