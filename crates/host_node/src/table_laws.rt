//! What holds of all nodes, and what the next one is.

ghost use Rattle.std.specs.Prelude.{◌≡◌, ◌<◌, ◌≤◌, ℕ, Bool, true, false, List, Some, None};
ghost use Rattle.host_node.specs.State.{NodeState};
ghost use Rattle.host_node.specs.Events.{NodeEvent, May};
ghost use Rattle.host_node.specs.TableState.{node_of, nodes_after, unknown_nodes};
ghost use Rattle.host_node.specs.TableFacts.{NodesFacts};
ghost use Rattle.host_node.specs.Search.{least_above};

use crate::facts_are_kept;

/// The nodes begin with their facts, and each event of a node that may happen keeps them.
pub fn facts_of_all_are_kept()
    ensures first { NodesFacts unknown_nodes }
    ensures each { (nodes : List NodeState) (node : ℕ) (event : NodeEvent) →
        May (node_of nodes node) event → NodesFacts nodes →
        NodesFacts (nodes_after nodes node event) }
{
    facts_are_kept();
}

/// The least node above a number that passes is a node above it that passes, and none between them does; where there is
/// none, no node above it passes.
pub fn the_least_is_found()
    ensures above { (passes : ℕ → Bool) (number node : ℕ) →
        least_above passes number ≡ Some node → number < node }
    ensures is_node { (passes : ℕ → Bool) (number node : ℕ) →
        least_above passes number ≡ Some node → node ≤ 232 }
    ensures passes { (passes : ℕ → Bool) (number node : ℕ) →
        least_above passes number ≡ Some node → passes node ≡ true }
    ensures least { (passes : ℕ → Bool) (number node other : ℕ) →
        least_above passes number ≡ Some node →
        number < other → other < node → passes other ≡ false }
    ensures none { (passes : ℕ → Bool) (number other : ℕ) →
        least_above passes number ≡ None → number < other →
        other ≤ 232 → passes other ≡ false }
{}
