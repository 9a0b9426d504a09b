//! What the laws of marks on units and of collisions say of worked transcripts, and of others with one thing wrong.

ghost use Rattle.law_transcript.specs.Worked.{
  cancelled_order,
  long_message,
  lossy_exchange,
  plain_exchange,
  repeated_exchange,
  restarted_host,
  sealed_exchange,
  sleeping_node,
};
ghost use Rattle.law_wire.specs.Marks.{MarksUnits, CollidesWhenAsked, IsMarked, MayCollide, to_stand};
ghost use Rattle.law_wire.specs.Worked.{copied, garbled_frame, changed_in_turn, heard_twice};
ghost use Rattle.law_wire.specs.WorkedWrong.{
  lost_on_the_line,
  kept_on_the_line,
  changed_otherwise,
  changed_out_of_turn,
  changed_twice,
  not_changed,
  collided_freely,
  not_collided,
};
ghost use Rattle.std.specs.Prelude.{◌∷◌, [], codes};
ghost use Rattle.law_wire.specs.WorkedMarks.{
  a_call,
  a_set,
  ack_changed,
  call_changed,
  chip_ack,
  chip_can,
  chip_nak,
  host_ack,
  host_can,
  set_changed,
  set_changed_beside,
  sum_changed,
};
ghost use Rattle.zw_text.specs.declared.entry.Entry.TheVariants.{Dropped, Said};
ghost use Rattle.zw_words.specs.declared.side.Side.TheVariants.{Chip, Host};

/// In worked transcripts the units that lines mark are lost or changed, and no others.
pub fn worked_marks()
    ensures plain { MarksUnits plain_exchange }
    ensures copied { MarksUnits copied }
    ensures garbled { MarksUnits garbled_frame }
    ensures in_turn { MarksUnits changed_in_turn }
    ensures repeated { MarksUnits repeated_exchange }
    ensures lossy { MarksUnits lossy_exchange }
    ensures cancelled { MarksUnits cancelled_order }
    ensures restarted { MarksUnits restarted_host }
    ensures sleeping { MarksUnits sleeping_node }
    ensures sealed { MarksUnits sealed_exchange }
    ensures cut { MarksUnits long_message }
{}

/// In worked transcripts the chip answers CAN where a line asks for it.
pub fn worked_collisions()
    ensures plain { CollidesWhenAsked plain_exchange }
    ensures twice { CollidesWhenAsked heard_twice }
    ensures repeated { CollidesWhenAsked repeated_exchange }
    ensures lossy { CollidesWhenAsked lossy_exchange }
    ensures cancelled { CollidesWhenAsked cancelled_order }
    ensures restarted { CollidesWhenAsked restarted_host }
    ensures sleeping { CollidesWhenAsked sleeping_node }
    ensures sealed { CollidesWhenAsked sealed_exchange }
    ensures cut { CollidesWhenAsked long_message }
{}

/// Each of these breaks one part of the laws: a unit that is lost without a mark, or not though it is marked; a frame changed otherwise than
/// its mark says, or not at all, by the newer of two marks, or by one that was used; and a frame answered CAN that no line asks for, or ACK though one does.
pub fn rejected_marks()
    ensures lost { MarksUnits lost_on_the_line → ⊥ }
    ensures kept { MarksUnits kept_on_the_line → ⊥ }
    ensures otherwise { MarksUnits changed_otherwise → ⊥ }
    ensures unchanged { MarksUnits not_changed → ⊥ }
    ensures out_of_turn { MarksUnits changed_out_of_turn → ⊥ }
    ensures twice { MarksUnits changed_twice → ⊥ }
    ensures freely { CollidesWhenAsked collided_freely → ⊥ }
    ensures acknowledged { CollidesWhenAsked not_collided → ⊥ }
{}

/// A mark of either side is for the units of that side and is used by them alone; drops come before changes, an answer may be lost and is
/// not changed, and a place beyond the frame is its checksum.
pub fn worked_losses()
    ensures other_drop { IsMarked (to_stand (Said (codes "drop c") ∷ a_set ∷ [])) chip_ack }
    ensures two { IsMarked (to_stand (Said (codes "drop h") ∷ Said (codes "drop h") ∷ a_set ∷ Dropped Host ∷ a_set ∷ [])) (Dropped Host) }
    ensures drop_stays { IsMarked (to_stand (Said (codes "drop h") ∷ Said (codes "drop c") ∷ a_call ∷ Dropped Chip ∷ a_set ∷ [])) (Dropped Host) }
    ensures change_stays { IsMarked (to_stand (Said (codes "garble h 3 1") ∷ Said (codes "garble c 3 1") ∷ a_call ∷ call_changed ∷ a_set ∷ [])) set_changed }
    ensures drop_first { IsMarked (to_stand (Said (codes "garble h 3 1") ∷ Said (codes "drop h") ∷ a_set ∷ [])) (Dropped Host) }
    ensures change_next { IsMarked (to_stand (Said (codes "garble h 3 1") ∷ Said (codes "drop h") ∷ a_set ∷ Dropped Host ∷ a_set ∷ [])) set_changed }
    ensures answer_kept { IsMarked (to_stand (Said (codes "garble h 3 1") ∷ host_ack ∷ [])) chip_ack }
    ensures answer_lost { IsMarked (to_stand (Said (codes "drop h") ∷ host_ack ∷ [])) (Dropped Host) }
    ensures sum { IsMarked (to_stand (Said (codes "garble h 200 1") ∷ a_set ∷ [])) sum_changed }
{}

/// Each of these breaks one part of the law: a unit is lost, or changed, by a mark of the other side, is lost by a mark that was used, and
/// said to be lost on the other side; it is changed though it is to be lost; an answer is changed; another place is changed; a place beyond
/// the frame is not its checksum; and one is lost that was not written.
pub fn rejected_losses()
    ensures other_drop { IsMarked (to_stand (Said (codes "drop c") ∷ a_set ∷ [])) (Dropped Host) → ⊥ }
    ensures other_change { IsMarked (to_stand (Said (codes "garble c 3 1") ∷ a_set ∷ [])) set_changed → ⊥ }
    ensures used { IsMarked (to_stand (Said (codes "drop h") ∷ a_set ∷ Dropped Host ∷ a_set ∷ [])) (Dropped Host) → ⊥ }
    ensures side { IsMarked (to_stand (Said (codes "drop h") ∷ a_set ∷ [])) (Dropped Chip) → ⊥ }
    ensures change_first { IsMarked (to_stand (Said (codes "garble h 3 1") ∷ Said (codes "drop h") ∷ a_set ∷ [])) set_changed → ⊥ }
    ensures answer { IsMarked (to_stand (Said (codes "garble h 3 1") ∷ host_ack ∷ [])) ack_changed → ⊥ }
    ensures place { IsMarked (to_stand (Said (codes "garble h 3 1") ∷ a_set ∷ [])) set_changed_beside → ⊥ }
    ensures sum { IsMarked (to_stand (Said (codes "garble h 200 1") ∷ a_set ∷ [])) set_changed → ⊥ }
    ensures unwritten { IsMarked (to_stand (Said (codes "drop h") ∷ [])) (Dropped Host) → ⊥ }
{}

/// A `collide` line has one good frame answered CAN, and the next one ACK; a bad frame is answered NAK and a frame of the chip is written
/// while one is outstanding, and what the host answers is not judged.
pub fn worked_answers_by()
    ensures two { MayCollide (Said (codes "collide") ∷ Said (codes "collide") ∷ chip_can ∷ []) chip_can }
    ensures used { MayCollide (Said (codes "collide") ∷ chip_can ∷ []) chip_ack }
    ensures nak { MayCollide (Said (codes "collide") ∷ []) chip_nak }
    ensures frame { MayCollide (Said (codes "collide") ∷ []) a_call }
    ensures host { MayCollide ([]) host_can }
{}

/// Each of these breaks one part of the law: a second frame is answered CAN for one line, and ACK where a second line is outstanding.
pub fn rejected_answers_by()
    ensures twice { MayCollide (Said (codes "collide") ∷ chip_can ∷ []) chip_can → ⊥ }
    ensures second { MayCollide (Said (codes "collide") ∷ Said (codes "collide") ∷ chip_can ∷ []) chip_ack → ⊥ }
{}
