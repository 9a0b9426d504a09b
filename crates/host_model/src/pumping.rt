//! What a pump does: each turn of it may happen, and there are few.

ghost use Rattle.std.specs.Prelude.{◌≡◌, ℕ, ◌≤◌, ◌<◌, ◌⊎◌, Bool, true, List, length, Option, Some};
ghost use Rattle.supervision.specs.Host.{open_session};
ghost use Rattle.host_node.specs.State.{NodeState, has_segment};
ghost use Rattle.host_node.specs.Events.{FitsPlan};
ghost use Rattle.host_node.specs.declared.attempt.Plan.{Plan};
ghost use Rattle.host_node.specs.declared.series.Series.TheVariants.{Due};
ghost use Rattle.host_node.specs.Search.{first_wanting};
ghost use Rattle.host_model.specs.State.{HostState, node_of};
ghost use Rattle.host_model.specs.Sessions.{open_segment};
ghost use Rattle.host_model.specs.Events.{HostEvent};
ghost use Rattle.host_model.specs.After.{after};
ghost use Rattle.host_model.specs.May.{May, IsFree, IsStart};
ghost use Rattle.host_model.specs.Pumping.{IsNext, HasNothing, no_more_event, turns_left, sleepers_left};
ghost use Rattle.host_model.specs.Facts.{HostFacts};

/// The next request of a host that is free is there, may happen, and leaves fewer turns; there are 234 at most.
pub fn a_pump_ends()
    ensures next { (h : HostState) → HostFacts h → IsFree h →
        HasNothing h ⊎ ((event : HostEvent) × IsNext h event) }
    ensures may { (h : HostState) (event : HostEvent) →
        HostFacts h → IsNext h event → May h event }
    ensures fewer { (h : HostState) (event : HostEvent) → HostFacts h →
        IsNext h event → turns_left (after h event) < turns_left h }
    ensures most { (h : HostState) → HostFacts h → turns_left h ≤ 234 }
{}

/// The same of the nodes that are told that there is no more for them.
pub fn nodes_are_told_in_few_turns()
    ensures may { (h : HostState) (n : ℕ) →
        first_wanting h.nodes ≡ Some n → May h (no_more_event h n) }
    ensures fewer { (h : HostState) (n : ℕ) →
        first_wanting h.nodes ≡ Some n →
        sleepers_left (after h (no_more_event h n)) < sleepers_left h }
    ensures most { (h : HostState) → HostFacts h → sleepers_left h ≤ 233 }
{}

/// What an attempt has to give is there: an attempt that is due starts, with a plan that fits, and a running one that has a
/// segment left gives it. What it gives has 1 to 46 bytes.
pub fn attempts_have_what_they_give()
    ensures starts { (h : HostState) (n : ℕ) →
        HostFacts h → (node_of h n).series ≡ Due →
        (plan : Plan) × (more : Bool) × (payload : List ℕ)
        × IsStart h n plan more payload }
    ensures fits { (h : HostState) (n : ℕ)
        (plan : Plan) (more : Bool) (payload : List ℕ) →
        HostFacts h → IsStart h n plan more payload → FitsPlan plan }
    ensures segment { (h : HostState) (n : ℕ) →
        HostFacts h → has_segment (node_of h n) ≡ true →
        (payload : List ℕ) × (open_segment h (node_of h n)
        (open_session (node_of h n).book) (node_of h n).next_segment ≡
        Some payload) }
    ensures first_payload { (h : HostState) (n : ℕ)
        (plan : Plan) (more : Bool) (payload : List ℕ) →
        HostFacts h → IsStart h n plan more payload →
        (1 ≤ length payload) × (length payload ≤ 46) }
    ensures segment_payload { (h : HostState) (node : NodeState)
        (session : Option ℕ) (k : ℕ) (payload : List ℕ) →
        open_segment h node session k ≡ Some payload →
        (1 ≤ length payload) × (length payload ≤ 46) }
    ensures text_payload { (h : HostState) (n : ℕ) (payload : List ℕ) →
        HostFacts h → (node_of h n).text ≡ Some payload → 1 ≤ length payload }
{}
