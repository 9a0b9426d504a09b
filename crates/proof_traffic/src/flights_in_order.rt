//! Frames on the air, one after another.

ghost use Rattle.std.specs.Prelude.{◌≡◌, ℕ, ◌+◌, ◌-◌, ◌<◌, ◌≤◌, List, [], ◌∷◌, ◌++◌, Some, None, length, replicate, slice_get, slice_set};
ghost use Rattle.air_frames.specs.declared.frame.Departure.{Departure as TheDeparture};
ghost use Rattle.air_frames.specs.Flown.{Flown};
ghost use Rattle.air_frames.specs.Frames.{FramesState, no_frames, peer_of, putting, landing, next_of, remembered};
ghost use Rattle.air_frames.specs.History.{Mark, Goes, Begins};
ghost use Rattle.proof_traffic.specs.Flights.{flown_in, flown_now, Fly};

/// A frame goes after those that are on the air; the first of them is the next that arrives, and then no longer there; where there is none,
/// none arrives. Sessions that begin change nothing. A frame that is remembered is the one of that number, counted from 1.
pub fn frames_fly_in_order()
    ensures first { Fly [] [] no_frames }
    ensures goes { (log : List Mark) (flights : List Flown) (frames : FramesState) (departure : TheDeparture) → departure.node < 233 → Fly log flights frames →
        Fly (log ++ Goes departure ∷ []) (flights ++ flown_now log departure ∷ []) (putting frames departure) }
    ensures next { (log : List Mark) (flight : Flown) (later : List Flown) (frames : FramesState) → Fly log (flight ∷ later) frames →
        next_of frames ≡ Some flight }
    ensures lands { (log : List Mark) (flight : Flown) (later : List Flown) (frames : FramesState) → Fly log (flight ∷ later) frames →
        Fly log later (landing frames) }
    ensures none { (log : List Mark) (frames : FramesState) → Fly log [] frames → next_of frames ≡ None }
    ensures count { (log : List Mark) (flights : List Flown) (frames : FramesState) → Fly log flights frames → length flights ≡ frames.sent - frames.landed }
    ensures begins { (log : List Mark) (flights : List Flown) (frames : FramesState) (node sessions : ℕ) → node < 233 →
        (peer_of frames node).begun ≤ sessions → Fly log flights frames →
        Fly (log ++ replicate (sessions - (peer_of frames node).begun) (Begins node)) flights
        (record frames { peers = slice_set frames.peers node (record (peer_of frames node) { begun = sessions }) }) }
    ensures kept { (log : List Mark) (flights : List Flown) (frames : FramesState) (number : ℕ) (frame : Flown) → Fly log flights frames →
        remembered frames (number + 1) ≡ Some frame →
        slice_get (flown_in log) number ≡ Some frame }
{
    air_frames::what_is_kept_is_of_the_history();
}
