//! What holds of a host and its records.

ghost use Rattle.std.specs.Prelude.{◌≡◌, List, None};
ghost use Rattle.s0_crypto.specs.declared.key_pair.Keys.{Keys};
ghost use Rattle.host_keep.specs.Kept.{Kept, first_kept, after_all as kept_after_all};
ghost use Rattle.host_model.specs.State.{HostState, first_host};
ghost use Rattle.host_model.specs.Events.{HostEvent};
ghost use Rattle.host_model.specs.After.{after};
ghost use Rattle.host_model.specs.May.{May};
ghost use Rattle.host_model.specs.Records.{records_at};
ghost use Rattle.host_model.specs.Did.{after_all, records_all, MayAll};
ghost use Rattle.host_model.specs.Facts.{HostFacts};
ghost use Rattle.host_keep.specs.Legal.{first_illegal};
ghost use Rattle.host_model.specs.Recording.{IsOfJoined, AllOfJoined};
ghost use Rattle.host_model.specs.Holding.{Holds, HoldsAlone};

use crate::facts_are_kept;
use host_node::a_restart_needs_the_records_alone;

/// A host at the beginning has what is kept before the first record.
pub fn a_host_begins_with_what_is_kept()
    ensures { (keys : Keys) → HoldsAlone (first_host keys) first_kept }
{}

/// An event of a host does to its tables what its records do: those without a record leave what is held. So do events one after
/// another.
pub fn events_do_what_their_records_do()
    ensures one { (h : HostState) (kept : Kept) (event : HostEvent) →
        HostFacts h → May h event → Holds h kept →
        Holds (after h event) (kept_after_all kept (records_at h event)) }
    ensures all { (h : HostState) (kept : Kept) (events : List HostEvent) →
        HostFacts h → MayAll h events → Holds h kept →
        Holds (after_all h events)
        (kept_after_all kept (records_all h events)) }
{
    a_restart_needs_the_records_alone();
    facts_are_kept();
}

/// The records of an event may follow those that gave what the host has, and so may those of events one after another, where each
/// interview that ends well is of a node that is joined.
pub fn records_of_events_are_legal()
    ensures one { (h : HostState) (kept : Kept) (event : HostEvent) →
        May h event → IsOfJoined h event → Holds h kept →
        first_illegal kept (records_at h event) ≡ None }
    ensures all { (h : HostState) (kept : Kept) (events : List HostEvent) →
        HostFacts h → MayAll h events → AllOfJoined h events → Holds h kept →
        first_illegal kept (records_all h events) ≡ None }
{
    a_restart_needs_the_records_alone();
    facts_are_kept();
}
