//! What follows of the definitions alone: the segments of a datagram, in any order and with any repeats, give it back.

ghost use Rattle.std.specs.Prelude.{ℕ, ◌≤◌, List, []};
ghost use Rattle.transport_segments.specs.Parts.{Parts};
ghost use Rattle.transport_segments.specs.Kept.{Reassembly, Empty};
ghost use Rattle.transport_segments.specs.Reassembly.{Takes};
ghost use Rattle.transport_segments.specs.Runs.{IsDatagram, IsPart, IsAmong, AllAmong, TakesAll, Gives, Agrees, IsNoOther};
ghost use Rattle.transport_segments.specs.declared.assembler.Taken.{Taken};

/// Each segment that a datagram is cut into is without fault, and of that datagram.
pub fn segments_are_parts()
    ensures { (datagram segment : List ℕ) (id : ℕ) (segments : List (List ℕ)) → IsDatagram datagram → id ≤ 15
        → Parts datagram id segments → IsAmong segments segment → IsPart datagram id segment }
{}

/// The segments of one datagram, in any order and with any repeats, taken from nothing on: the datagram is answered
/// exactly when its last missing byte comes.
pub fn segments_give_the_datagram()
    ensures { (datagram : List ℕ) (id : ℕ) (segments fed : List (List ℕ)) (answers : List Taken) → IsDatagram datagram
        → id ≤ 15 → Parts datagram id segments → AllAmong segments fed → TakesAll Empty fed answers
        → Gives datagram [] fed answers }
{}

/// Where what is kept agrees with a datagram, a segment of that datagram leaves it so, and nothing else is answered.
pub fn segments_keep_agreement()
    ensures { (datagram segment : List ℕ) (id : ℕ) (kept next : Reassembly) (taken : Taken) → IsPart datagram id segment
        → Agrees datagram id kept → Takes kept segment taken next
        → Agrees datagram id next × IsNoOther datagram taken }
{}
