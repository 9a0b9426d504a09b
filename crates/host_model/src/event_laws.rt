//! What holds of a host after every event, and of lists of events.

ghost use Rattle.std.specs.Prelude.{List};
ghost use Rattle.s0_crypto.specs.declared.key_pair.Keys.{Keys};
ghost use Rattle.host_model.specs.State.{HostState, first_host};
ghost use Rattle.host_model.specs.Events.{HostEvent};
ghost use Rattle.host_model.specs.After.{after};
ghost use Rattle.host_model.specs.May.{May};
ghost use Rattle.host_model.specs.Did.{after_all, MayAll};
ghost use Rattle.host_model.specs.Facts.{HostFacts};

use host_node::facts_of_all_are_kept;

/// A host begins with its facts, and each event that may happen keeps them.
pub fn facts_are_kept()
    ensures first { (keys : Keys) → HostFacts (first_host keys) }
    ensures each { (h : HostState) (event : HostEvent) →
        HostFacts h → May h event → HostFacts (after h event) }
{
    facts_of_all_are_kept();
}

/// Events one after another keep them too.
pub fn facts_are_kept_by_all()
    ensures { (h : HostState) (events : List HostEvent) →
        HostFacts h → MayAll h events → HostFacts (after_all h events) }
{
    facts_of_all_are_kept();
}
