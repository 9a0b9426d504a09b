//! What holds of every node, whatever its events.

ghost use Rattle.std.specs.Prelude.{◌≡◌, ◌≤◌, ℕ, List, false};
ghost use Rattle.host_node.specs.State.{NodeState, unknown, needs_tick};
ghost use Rattle.host_node.specs.Steps.{after_put, after_take_back, after_tick, after_restart, after_occasion, as_recorded};
ghost use Rattle.host_node.specs.Events.{NodeEvent, after, after_all, May, MayAll};
ghost use Rattle.host_node.specs.Facts.{NodeFacts, IsQuiet, StartsQuietly, is_recorded};

/// A node begins with its facts, and each event that may happen keeps them.
pub fn facts_are_kept()
    ensures first { (node : ℕ) → NodeFacts (unknown node) }
    ensures each { (n : NodeState) (event : NodeEvent) →
        May n event → NodeFacts n → NodeFacts (after n event) }
    ensures all { (n : NodeState) (events : List NodeEvent) →
        MayAll n events → NodeFacts n → NodeFacts (after_all n events) }

    // Only a wait that begins in the host's tick, before the node's own, is longer than 100 ticks, and only till then.
    ensures again { (n : NodeState) →
        NodeFacts n → (after_tick n).again_wait ≤ 100 }

    // Where no attempt starts while No More Information is queued, none runs then.
    ensures quiet { (n : NodeState) (event : NodeEvent) → May n event →
        StartsQuietly n event → IsQuiet n → IsQuiet (after n event) }
{}

/// What the records say of a node changes at the events that have a record, and a restart depends on nothing else.
pub fn a_restart_needs_the_records_alone()
    ensures others { (n : NodeState) (event : NodeEvent) →
        is_recorded n event ≡ false →
        as_recorded (after n event) ≡ as_recorded n }
    ensures restart { (n : NodeState) →
        after_restart n ≡ after_occasion (as_recorded n) }
    ensures once { (n : NodeState) →
        as_recorded (as_recorded n) ≡ as_recorded n }
{}

/// A command that is put and taken back leaves nothing.
pub fn what_is_taken_back_is_undone()
    ensures { (n : NodeState) (command : ℕ) →
        after_take_back (after_put n command) ≡ n }
{}

/// Where no wait runs and the node is not blocked, its tick changes nothing.
pub fn a_tick_without_waits_is_nothing()
    ensures { (n : NodeState) → needs_tick n ≡ false → after_tick n ≡ n }
{}
