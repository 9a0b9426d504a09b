//! Frames on the air, in the course of one node.

ghost use Rattle.std.specs.Prelude.{◌≡◌, ℕ, ◌+◌, ◌<◌, List, [], ◌∷◌, ◌++◌, Some, None};
ghost use Rattle.supervision.specs.Host.{HostBook, no_sessions, begins, begun_of};
ghost use Rattle.proof_course.specs.Flying.{Flight};
ghost use Rattle.proof_course.specs.Sessions.{Cargo};
ghost use Rattle.air_frames.specs.declared.frame.Departure.{Departure as TheDeparture};
ghost use Rattle.air_frames.specs.Flown.{Flown};
ghost use Rattle.air_frames.specs.Frames.{FramesState, no_frames, putting, landing, remembered};
ghost use Rattle.air_frames.specs.Ages.{refusal_of};
ghost use Rattle.air_frames.specs.History.{Mark, Goes, Begins, begins_in};
ghost use Rattle.proof_traffic.specs.Flights.{flown_in, flown_now, Fly};
ghost use Rattle.proof_course_plain.specs.Meaning.{Asked};
ghost use Rattle.proof_course_plain.specs.Air.{Bears, OnAir, Lands, WasThere};

use proof_traffic::frames_fly_in_order;

/// A frame goes on the air as the course has it; the oldest lands; a session begins, of the node or of another; an order is accepted; and one that
/// may be heard again is a frame of the course, and fresh.
pub fn frames_follow_the_course()
    ensures first { (node : ℕ) → OnAir node [] no_sessions [] [] [] [] no_frames }
    ensures goes { (node : ℕ) (orders : List Asked) (host : HostBook) (air old : List (Flight Cargo)) (log : List Mark)
        (flights : List Flown) (frames : FramesState) (departure : TheDeparture) (cargo : Cargo) →
        departure.node < 233 → OnAir node orders host air old log flights frames →
        Bears node orders host.commands (flown_now log departure) (record { cargo = cargo; since = begun_of host }) →
        OnAir node orders host (air ++ record { cargo = cargo; since = begun_of host } ∷ []) (old ++ record { cargo = cargo; since = begun_of host } ∷ [])
        (log ++ Goes departure ∷ []) (flights ++ flown_now log departure ∷ []) (putting frames departure) }
    ensures lands { (node : ℕ) (orders : List Asked) (host : HostBook) (air old : List (Flight Cargo)) (log : List Mark) (frame : Flown)
        (later : List Flown) (frames : FramesState) →
        OnAir node orders host air old log (frame ∷ later) frames → Lands node orders host air old log frame later (landing frames) }
    ensures repeated { (node : ℕ) (orders : List Asked) (host : HostBook) (air old : List (Flight Cargo)) (log : List Mark)
        (flights : List Flown) (frames : FramesState) (number : ℕ) (frame : Flown) →
        node < 233 → OnAir node orders host air old log flights frames → refusal_of frames number ≡ None →
        remembered frames number ≡ Some frame → WasThere node orders host old frame }
    ensures begins { (node : ℕ) (orders : List Asked) (host : HostBook) (command : ℕ) (air old : List (Flight Cargo)) (log : List Mark)
        (flights : List Flown) (frames later : FramesState) →
        OnAir node orders host air old log flights frames → Fly (log ++ Begins node ∷ []) flights later →
        OnAir node orders (begins host command) air old (log ++ Begins node ∷ []) flights later }
    ensures stays { (node : ℕ) (orders : List Asked) (host : HostBook) (air old : List (Flight Cargo)) (log more : List Mark)
        (flights : List Flown) (frames later : FramesState) →
        OnAir node orders host air old log flights frames → flown_in (log ++ more) ≡ flown_in log → begins_in node more ≡ 0 → Fly (log ++ more) flights later →
        OnAir node orders host air old (log ++ more) flights later }
    ensures accepted { (node : ℕ) (orders more : List Asked) (host : HostBook) (air old : List (Flight Cargo)) (log : List Mark)
        (flights : List Flown) (frames : FramesState) →
        OnAir node orders host air old log flights frames → OnAir node (orders ++ more) host air old log flights frames }
{
    frames_fly_in_order();
}
