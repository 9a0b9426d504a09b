//! What is kept against the whole history.

ghost use Rattle.std.specs.Prelude.{◌≡◌, ℕ, ◌+◌, ◌-◌, ◌<◌, ◌≤◌, List, [], ◌∷◌, ◌++◌, replicate, slice_set};
ghost use Rattle.air_frames.specs.declared.frame.Departure.{Departure as TheDeparture};
ghost use Rattle.air_frames.specs.Frames.{FramesState, no_frames, peer_of, putting, landing};
ghost use Rattle.air_frames.specs.Ages.{refusal_of};
ghost use Rattle.air_frames.specs.History.{Mark, Goes, Begins, IsOf, refusal_in};

/// What is kept is, from the start and after each event, what the history of all frames and begun sessions leaves.
pub fn what_is_kept_is_of_the_history()
    ensures first { IsOf [] no_frames }
    ensures goes { (log : List Mark) (state : FramesState) (departure : TheDeparture) → departure.node < 233 → IsOf log state
        → IsOf (log ++ Goes departure ∷ []) (putting state departure) }
    ensures lands { (log : List Mark) (state : FramesState) → state.landed < state.sent → IsOf log state → IsOf log (landing state) }
    ensures begins { (log : List Mark) (state : FramesState) (node sessions : ℕ) → node < 233 → (peer_of state node).begun ≤ sessions → IsOf log state
        → IsOf (log ++ replicate (sessions - (peer_of state node).begun) (Begins node))
        (record state { peers = slice_set state.peers node (record (peer_of state node) { begun = sessions }) }) }
{}

/// A repeat is refused exactly as the history says: where the frame was never sent, where more than 4,096 later ones
/// were, and where too many later sessions of its node began or too many new nonces were shown between its ends.
pub fn ages_are_those_of_the_history()
    ensures { (log : List Mark) (state : FramesState) (number : ℕ) → IsOf log state → refusal_of state number ≡ refusal_in log number }
{}
