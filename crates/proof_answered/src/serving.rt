//! Whose turn it is.

ghost use Rattle.std.specs.Prelude.{◌≡◌, ◌≢◌, ◌≤◌, ◌+◌, Bool, List, [], Some, false, true, ℕ};
ghost use Rattle.chip_sim.specs.Nodes.{is_marked};
ghost use Rattle.host_node.specs.Search.{next_of};
ghost use Rattle.host_node.specs.State.{NodeState, has_work};
ghost use Rattle.host_node.specs.TableState.{node_of as node_among};
ghost use Rattle.host_model.specs.Events.{HostEvent};
ghost use Rattle.host_model.specs.May.{May};
ghost use Rattle.host_model.specs.Pumping.{IsNext};
ghost use Rattle.host_model.specs.State.{HostState};
ghost use Rattle.world_model.specs.State.{Machine};
ghost use Rattle.proof_calm.specs.Awaited.{AwaitsNone};
ghost use Rattle.proof_calm.specs.Tied.{TieOf, ends_of, unheard};
ghost use Rattle.proof_answered.specs.Turns.{IsInTurn, IsOver, marked_to, turn_of};
ghost use Rattle.proof_answered.specs.Workers.{KnowsWorkers};

/// As the host ticks, its request has its call on its way, or none is under way: so all it has submitted once the settling ends, it did in that settling. While
/// no abort is owed, what it does next is to submit the task that waited longest, or it serves the node that is next in cyclic order, or begins a session for
/// that. With each service of one of these nodes another of them that has work comes nearer to its turn: one fewer comes before it; and no more than all do.
/// Where the host has to do with these alone, the next one is of these.
pub fn nodes_are_served_in_turn()
    ensures over { (m : Machine) → AwaitsNone m → TieOf false m [] → IsOver (ends_of m.host.state m.outside.outer.chip.state) (unheard m.outside.outer) }
    ensures next { (h : HostState) (event : HostEvent) → h.requests.owes ≡ false → IsNext h event → May h event → IsInTurn h event }
    ensures nearer { (these : List Bool) (nodes : List NodeState) (served k n : ℕ) → next_of nodes served ≡ Some k → is_marked these k ≡ true →
        is_marked these n ≡ true → has_work (node_among nodes n) ≡ true → 1 ≤ n → n ≤ 232 → n ≢ k → turn_of these k n + 1 ≤ turn_of these served n }
    ensures workers { (these : List Bool) (h : HostState) (k : ℕ) → KnowsWorkers these h → next_of h.nodes h.served ≡ Some k → is_marked these k ≡ true }
    ensures most { (these : List Bool) (served n : ℕ) → n ≤ 232 → turn_of these served n ≤ marked_to these 232 }
{}
