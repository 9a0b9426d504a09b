//! The loops of a host's calls, one turn after another.

ghost use Rattle.std.specs.Prelude.{◌≡◌, ℕ, ◌≤◌, Bool, List, [], ◌∷◌, ◌++◌, map, Some, None};
ghost use Rattle.zw_base.specs.declared.property.Setting.{Setting};
ghost use Rattle.host_heard.specs.declared.told.Told.{Told};
ghost use Rattle.host_node.specs.Search.{first_wanting, ticking_above};
ghost use Rattle.host_model.specs.State.{HostState};
ghost use Rattle.host_model.specs.Events.{HostEvent, Node_ticks};
ghost use Rattle.host_model.specs.After.{after};
ghost use Rattle.host_model.specs.Did.{after_all};
ghost use Rattle.host_model.specs.Pumping.{no_more_event, LetsSome, LetsSleep, IsNext, IsPumped, SubmitsSome, Submits};
ghost use Rattle.host_model.specs.Taking.{IsTaken, AreTaken, value_events};
ghost use Rattle.host_model.specs.Ticking.{ticking_nodes, TickedTo};

/// One more turn of a pump is a longer list of turns, and where there is no further one the list is a pump's.
pub fn turns_of_a_pump_go_on()
    ensures lets_one_more { (h : HostState)
        (events : List HostEvent) (n : ℕ) →
        LetsSome h events → first_wanting (after_all h events).nodes ≡ Some n →
        LetsSome h (events ++ no_more_event (after_all h events) n ∷ []) }
    ensures lets_all { (h : HostState) (events : List HostEvent) →
        LetsSome h events → first_wanting (after_all h events).nodes ≡ None →
        LetsSleep h events }
    ensures submits_one_more { (h : HostState)
        (events : List HostEvent) (event : HostEvent) →
        SubmitsSome h events → IsNext (after_all h events) event →
        SubmitsSome h (events ++ event ∷ []) }
    ensures submits_all { (h : HostState) (events : List HostEvent) →
        SubmitsSome h events →
        IsPumped (after_all h events) → Submits h events }
{}

/// The nodes are ticked in the order of their numbers, the least above the last one next, until none above it has a wait.
pub fn ticks_of_nodes_go_on()
    ensures none { (h : HostState) → TickedTo h h 0 [] }
    ensures one_more { (first now : HostState)
        (last : ℕ) (events : List HostEvent) (n : ℕ) →
        TickedTo first now last events → ticking_above now.nodes last ≡ Some n →
        TickedTo first (after now (Node_ticks n)) n
        (events ++ Node_ticks n ∷ []) }
    ensures all { (first now : HostState)
        (last : ℕ) (events : List HostEvent) →
        TickedTo first now last events → last ≤ 232 →
        ticking_above now.nodes last ≡ None →
        events ≡ map Node_ticks (ticking_nodes first) }
{}

/// Messages are taken one after another, and so are the values of one.
pub fn messages_go_on()
    ensures one { (h : HostState) (n : ℕ) (payload : List ℕ)
        (sealed : Bool) (message : Told) (events : List HostEvent) →
        IsTaken h n payload sealed message events →
        AreTaken h n payload sealed (message ∷ []) events }
    ensures both { (h : HostState) (n : ℕ) (payload : List ℕ)
        (sealed : Bool) (a b : List Told) (x y : List HostEvent) →
        AreTaken h n payload sealed a x →
        AreTaken (after_all h x) n payload sealed b y →
        AreTaken h n payload sealed (a ++ b) (x ++ y) }
    ensures values { (h : HostState) (n : ℕ) (a b : List Setting) →
        value_events h n (a ++ b) ≡ value_events h n a ++
        value_events (after_all h (value_events h n a)) n b }
{}
