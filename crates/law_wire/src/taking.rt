//! Which SendData the chip takes, and which frames may be on the air after a short past.

ghost use Rattle.std.specs.Prelude.{◌≡◌, ◌∷◌, ◌++◌, [], codes, replicate, map, length, true, false};
ghost use Rattle.serial_frame.specs.Items.{unit_text};
ghost use Rattle.serial_frame.specs.declared.unit.Unit.TheVariants.{Ack, Nak};
ghost use Rattle.law_wire.specs.Asked.{course_of, sending_of, takes, under_way};
ghost use Rattle.law_wire.specs.Taking.{MayAir};
ghost use Rattle.law_wire.specs.WorkedAir.{coming_home, going_out};
ghost use Rattle.law_wire.specs.WorkedChip.{
  asked_to_send,
  asking_home,
  asks,
  cut_short,
  home_told,
  in_flight,
  passing,
  refused_again,
  refused_whole,
  sent,
  switching_again,
  withdrawing,
  withdrawn,
};
ghost use Rattle.law_wire.specs.WorkedCourses.{collided_history, copied_course, copied_history, switching_on, taking_it};
ghost use Rattle.law_transcript.specs.Worked.{the_switch};
ghost use Rattle.zw_text.specs.declared.entry.Entry.TheVariants.{ChipFull, Dropped, Forget, Garbled, Overrun, Said, Written};
ghost use Rattle.zw_words.specs.declared.side.Side.TheVariants.{Chip, Host};

/// The chip takes a SendData where none is under way, for a joined node and with a payload of at most 46 bytes.
pub fn worked_takes()
    ensures idle { takes [] [] 2 (0 ∷ []) ≡ true }
    ensures busy { takes [] (sending_of [] 2 (0 ∷ []) 1 ∷ []) 2 (0 ∷ []) ≡ false }
    ensures stranger { takes [] [] 5 (0 ∷ []) ≡ false }
    ensures joined { takes (Said (codes "join 5") ∷ []) [] 5 (0 ∷ []) ≡ true }
    ensures fits { takes [] [] 2 (replicate 46 0) ≡ true }
    ensures long { takes [] [] 2 (replicate 47 0) ≡ false }
{}

/// A SendData that was answered ACK and taken is under way until the next tick, shown or not, or until an abort, whatever other requests
/// come. One that was answered NAK is not, nor a response, nor what cannot be read.
pub fn worked_under_way()
    ensures taken { length (under_way (passing (switching_on ∷ [])) asked_to_send) ≡ 1 }
    ensures refused { length (under_way (passing (switching_on ∷ [])) refused_whole) ≡ 0 }
    ensures response { length (under_way (passing (taking_it ∷ [])) (asks taking_it)) ≡ 0 }
    ensures unread { length (under_way (passing (cut_short ∷ [])) (asks cut_short)) ≡ 0 }
    ensures aborted { length (under_way (passing (switching_on ∷ withdrawing ∷ [])) withdrawn) ≡ 0 }
    ensures asked { length (under_way (passing (switching_on ∷ asking_home ∷ [])) home_told) ≡ 1 }
    ensures next { length (under_way (passing (switching_on ∷ [])) in_flight) ≡ 0 }
    ensures same { length (under_way (passing (switching_on ∷ [])) (sent ++ Said (codes "tick 1") ∷ [])) ≡ 1 }
    ensures quiet { length (under_way (passing (switching_on ∷ [])) (sent ++ Said (codes "tick 1") ∷ Said (codes "join 5") ∷ [])) ≡ 0 }
    ensures first { map (λ one. one.callback_id) (under_way (passing (switching_on ∷ switching_again ∷ [])) refused_again) ≡ 1 ∷ [] }
{}

/// The frame of a SendData stands after the answer of the chip, of which a unit may be lost, changed or overrun, and a frame dropped. Where
/// the chip's table has no link, none goes on the air.
pub fn worked_airing()
    ensures sent { MayAir (the_switch ∷ []) (passing (switching_on ∷ [])) asked_to_send (going_out 1) }
    ensures dropped { MayAir (the_switch ∷ []) (passing (switching_on ∷ [])) (asked_to_send ++ Dropped Chip ∷ []) (going_out 1) }
    ensures garbled { MayAir (the_switch ∷ []) (passing (switching_on ∷ [])) (asked_to_send ++ Garbled Chip [] ∷ []) (going_out 1) }
    ensures overrun { MayAir (the_switch ∷ []) (passing (switching_on ∷ [])) (asked_to_send ++ Overrun Chip ∷ []) (going_out 1) }
    ensures full { MayAir (the_switch ∷ []) (passing (switching_on ∷ [])) (asked_to_send ++ ChipFull ∷ []) (going_out 1) }
    ensures nowhere { MayAir (the_switch ∷ []) (passing (switching_on ∷ [])) (Forget 1 2 ∷ asked_to_send) (Written Host (unit_text Ack)) }
{}

/// Each of these breaks one part of the law: after a SendData that is taken stands first what became of a unit of the host, a unit of the
/// host, another answer, a line, or a frame of a device; nothing goes on the air where the chip's table has the link, though it is dead;
/// and a frame goes on the air for nothing, for another request, or for a SendData that is refused.
pub fn rejected_airing()
    ensures dropped { MayAir (the_switch ∷ []) (passing (switching_on ∷ [])) asked_to_send (Dropped Host) → ⊥ }
    ensures garbled { MayAir (the_switch ∷ []) (passing (switching_on ∷ [])) asked_to_send (Garbled Host []) → ⊥ }
    ensures overrun { MayAir (the_switch ∷ []) (passing (switching_on ∷ [])) asked_to_send (Overrun Host) → ⊥ }
    ensures host { MayAir (the_switch ∷ []) (passing (switching_on ∷ [])) asked_to_send (Written Host (unit_text Ack)) → ⊥ }
    ensures answer { MayAir (the_switch ∷ []) (passing (switching_on ∷ [])) asked_to_send (Written Chip (unit_text Nak)) → ⊥ }
    ensures line { MayAir (the_switch ∷ []) (passing (switching_on ∷ [])) asked_to_send (Said (codes "tick 1")) → ⊥ }
    ensures device { MayAir (the_switch ∷ []) (passing (switching_on ∷ [])) asked_to_send (coming_home 1 255) → ⊥ }
    ensures dead { MayAir (the_switch ∷ []) (passing (switching_on ∷ [])) (Said (codes "unlink 1 2") ∷ asked_to_send) (Written Host (unit_text Ack)) → ⊥ }
    ensures unasked { MayAir (the_switch ∷ []) (passing ([])) [] (going_out 1) → ⊥ }
    ensures other_request { MayAir (the_switch ∷ []) (passing (switching_on ∷ asking_home ∷ [])) home_told (going_out 2) → ⊥ }
    ensures refused { MayAir (the_switch ∷ []) (passing (switching_on ∷ switching_again ∷ [])) refused_again (going_out 2) → ⊥ }
{}

/// The course of a link has the frames that it passed up, and which units were the first copies of its own frames.
pub fn worked_course()
    ensures copied { course_of copied_history ≡ copied_course }
    ensures collided { course_of collided_history ≡ record { passed = []; firsts = false ∷ [] } }
{}
