//! What the host makes of nonces and of what it seals, event by event.

ghost use Rattle.std.specs.Prelude.{◌≡◌, ℕ, ◌<◌, List, Bool, None, length};
ghost use Rattle.s0_session.specs.Nonces.{account_of, after_give};
ghost use Rattle.host_node.specs.State.{NodeState};
ghost use Rattle.host_node.specs.Events.{NodeEvent, after as after_node};
ghost use Rattle.host_model.specs.State.{HostState, node_of};
ghost use Rattle.host_model.specs.Events.{HostEvent, Gives, Spends, Starts, Takes_nonce, Gives_text};
ghost use Rattle.host_node.specs.declared.attempt.Plan.{Plan};
ghost use Rattle.host_node.specs.Steps.{after_start, after_nonce, after_text};
ghost use Rattle.host_model.specs.After.{after};
ghost use Rattle.proof_messages.specs.Hosts.{LeavesSealing, IsUnsealing, IsAside, LeavesNonces};

/// No event of the host changes the nonces between it and a node but that it gives one, spends one or takes one of the node's; and what it
/// seals for the node stays until it is given, or is given up whole. A text waits from the start of a sealed attempt on, is sealed for a
/// nonce that is taken, and is given then; these events leave the nonces that it gave.
pub fn hosts_leave_nonces()
    ensures node { (n : NodeState) (event : NodeEvent) → IsUnsealing event → LeavesSealing n (after_node n event) }
    ensures aside { (node : ℕ) (h : HostState) (event : HostEvent) → IsAside node event → LeavesNonces node h (after h event) }
    ensures gives { (node : ℕ) (h : HostState) (drawn : List ℕ) → node < length h.nonces →
        account_of (after h (Gives node drawn)).nonces node ≡ after_give (account_of h.nonces node) drawn }
    ensures spends { (node : ℕ) (h : HostState) → node < length h.nonces →
        account_of (after h (Spends node)).nonces node ≡ record (account_of h.nonces node) { live = None } }
    ensures starts { (node : ℕ) (h : HostState) (plan : Plan) (more : Bool) (payload : List ℕ) → node < length h.nodes →
        node_of (after h (Starts node plan more payload)) node ≡ after_start (node_of h node) plan }
    ensures seals { (node seen : ℕ) (h : HostState) (text : List ℕ) → node < length h.nodes →
        node_of (after h (Takes_nonce node seen text)) node ≡ after_nonce (node_of h node) seen text }
    ensures sends { (node : ℕ) (h : HostState) (payload : List ℕ) → node < length h.nodes →
        node_of (after h (Gives_text node payload)) node ≡ after_text (node_of h node) }
    ensures keeps { (node n seen : ℕ) (h : HostState) (plan : Plan) (more : Bool) (payload text : List ℕ) →
        (account_of (after h (Starts n plan more payload)).nonces node ≡ account_of h.nonces node)
        × ((account_of (after h (Takes_nonce n seen text)).nonces node ≡ account_of h.nonces node) ×
        (account_of (after h (Gives_text n payload)).nonces node ≡ account_of h.nonces node)) }
{}
