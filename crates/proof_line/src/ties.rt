//! What is known of marks, collisions, pipes and numbers of ticks, at each phase of a line.

ghost use Rattle.std.specs.Prelude.{Option, Some, List, [], ℕ};
ghost use Rattle.s0_crypto.specs.declared.key_pair.Keys.{Keys};
ghost use Rattle.proof_world.specs.device_sim.State.{State};
ghost use Rattle.law_wire.specs.Marks.{MayCollide};
ghost use Rattle.law_wire.specs.Times.{MayBeTold};
ghost use Rattle.proof_walk.specs.world_model.State.{first_machine};
ghost use Rattle.proof_walk.specs.Phases.{Between};
ghost use Rattle.proof_walk.specs.Time.{KnowTime};
ghost use Rattle.proof_world.specs.proof_serial.Line.{WritesWell};
ghost use Rattle.proof_walk.specs.Walk.{Walk, WalkOver, WalkWhere};
ghost use Rattle.proof_line.specs.Collisions.{KnowCollisions};
ghost use Rattle.proof_line.specs.Marks.{KnowMarks, MayMark};
ghost use Rattle.proof_line.specs.Pipes.{KnowPipes, MayTell};
ghost use Rattle.proof_line.specs.Rooms.{KnowRooms, MayFit};
ghost use Rattle.proof_line.specs.Times.{KnowNumbers};

/// At each phase of a line, the collisions that lines have asked for are the CAN that the chip wrote, and those that its link is still to make.
pub fn collisions_go_on()
    ensures walk { Walk MayCollide KnowCollisions }
    ensures first { (keys : Keys) (records : Option (List (List ℕ))) (devices : List State) → KnowCollisions Between [] (first_machine keys records devices) }
{}

/// At each phase of a line, the marks that the transcript says wait for a side are those that its pipe has.
pub fn marks_go_on()
    ensures walk { Walk MayMark KnowMarks }
    ensures first { (keys : Keys) (records : Option (List (List ℕ))) (devices : List State) → KnowMarks Between [] (first_machine keys records devices) }
{}

/// At each phase of a line, where time is known too, no number of a tick stands last, the lines before the running one have asked for ticks that have begun,
/// and nothing is entered from the words of a `tick` on until its first tick begins.
pub fn numbers_go_on()
    ensures walk { WalkOver KnowTime MayBeTold KnowNumbers }
    ensures first { (keys : Keys) (records : Option (List (List ℕ))) (devices : List State) →
        KnowNumbers Between [] (first_machine keys records devices) }
{}

/// At each phase of a line, neither pipe holds more bytes than the transcript says that it may: data frames until they are answered, and answers until the
/// other side has gone on.
pub fn pipes_go_on()
    ensures walk { Walk MayTell KnowPipes }
    ensures first { (keys : Keys) (records : Option (List (List ℕ))) (devices : List State) → KnowPipes Between [] (first_machine keys records devices) }
{}

/// At each phase of a line, where the frames that the host writes have at most 252 bytes of body, each pipe has the bytes of the data frames that are not
/// answered by the transcript, one for each item that is to be answered; where a side writes, the answers that it surely holds too, or few were taken in
/// silence; and what was judged, and then what is on its way, is what arrived by the transcript.
pub fn rooms_go_on()
    ensures walk { WalkWhere WritesWell MayFit KnowRooms }
    ensures first { (keys : Keys) (devices : List State) → KnowRooms Between [] (first_machine keys (Some []) devices) }
{}
