//! What the law of units without room says of worked transcripts, and of others with one thing wrong.

ghost use Rattle.std.specs.Prelude.{◌≡◌, ◌∷◌, ◌++◌, [], codes, false, true};
ghost use Rattle.zw_words.specs.declared.side.Side.TheVariants.{Host, Chip};
ghost use Rattle.zw_text.specs.declared.entry.Entry.TheVariants.{Dropped, Overrun, Said, Refused, Time};
ghost use Rattle.law_transcript.specs.Worked.{
  cancelled_order,
  long_message,
  lossy_exchange,
  plain_exchange,
  repeated_exchange,
  restarted_host,
  sealed_exchange,
  sleeping_node,
};
ghost use Rattle.law_wire.specs.Pipes.{OverrunsWhenFull, may_overrun, bytes_perhaps, bytes_surely};
ghost use Rattle.law_wire.specs.WorkedPipes.{first_taken, last_changed, stalled_with, a_get, a_segment, full_of_answers, get_changed, perhaps_full};
ghost use Rattle.law_wire.specs.WorkedMarks.{a_call, chip_ack, host_ack};
ghost use Rattle.zw_text.specs.declared.entry.Refusal.TheVariants.{KeeperFault};

/// Where a unit does not fit the 4,096 bytes of its pipe it is overrun, also where it was changed first; where it is lost by a mark that is said
/// alone; and where the other side has answered a frame there is room again.
pub fn worked_pipes()
    ensures plain { OverrunsWhenFull plain_exchange }
    ensures full { may_overrun (stalled_with 75 5) (Overrun Host) ≡ true }
    ensures changed { may_overrun last_changed (Overrun Host) ≡ true }
    ensures lost { may_overrun (stalled_with 75 5) (Dropped Host) ≡ true }
    ensures taken { may_overrun first_taken (Said (codes "tick 1")) ≡ true }
    ensures fits { may_overrun (stalled_with 75 4) (Said (codes "tick 1")) ≡ true }
    ensures repeated { OverrunsWhenFull repeated_exchange }
    ensures lossy { OverrunsWhenFull lossy_exchange }
    ensures cancelled { OverrunsWhenFull cancelled_order }
    ensures restarted { OverrunsWhenFull restarted_host }
    ensures sleeping { OverrunsWhenFull sleeping_node }
    ensures sealed { OverrunsWhenFull sealed_exchange }
    ensures cut { OverrunsWhenFull long_message }
{}

/// Each of these breaks one part of the law: a unit that is overrun though it has just room, or after a frame that was answered, or
/// that is not though it has none, changed or not; and one that is overrun though none was written.
pub fn rejected_pipes()
    ensures room { may_overrun (stalled_with 75 4) (Overrun Host) ≡ false }
    ensures taken { may_overrun first_taken (Overrun Host) ≡ false }
    ensures unsaid { may_overrun (stalled_with 75 5) (Said (codes "tick 1")) ≡ false }
    ensures changed { may_overrun last_changed (Said (codes "tick 1")) ≡ false }
    ensures unwritten { may_overrun (stalled_with 75 5 ++ Overrun Host ∷ []) (Overrun Host) ≡ false }
{}

/// What a pipe holds: a frame until it is answered, the oldest first, and not one that was lost or overrun, changed or not; an answer until
/// the other side goes on. Of what the host answered before a line or tick it is not sure that it is gone, unless the chip went on after a
/// later unit; and a restart that is not refused empties the pipe.
pub fn worked_bytes()
    ensures frame { bytes_surely Host (a_get ∷ []) ≡ 11 }
    ensures lost { bytes_surely Host (a_get ∷ Dropped Host ∷ []) ≡ 0 }
    ensures overrun { bytes_surely Host (a_get ∷ Overrun Host ∷ []) ≡ 0 }
    ensures changed { bytes_surely Host (a_get ∷ get_changed ∷ []) ≡ 11 }
    ensures changed_overrun { bytes_surely Host (a_get ∷ get_changed ∷ Overrun Host ∷ []) ≡ 0 }
    ensures other_lost { bytes_surely Host (a_get ∷ Dropped Chip ∷ []) ≡ 11 }
    ensures other_overrun { bytes_surely Host (a_get ∷ Overrun Chip ∷ []) ≡ 11 }
    ensures answered { bytes_surely Host (a_get ∷ chip_ack ∷ []) ≡ 0 }
    ensures oldest { bytes_surely Host (a_segment ∷ a_get ∷ chip_ack ∷ []) ≡ 11 }
    ensures not_answered { bytes_surely Host (a_get ∷ a_call ∷ []) ≡ 11 }
    ensures answer { bytes_surely Host (host_ack ∷ []) ≡ 1 }
    ensures gone_on { bytes_perhaps Host (host_ack ∷ a_call ∷ []) ≡ 0 }
    ensures turn { bytes_surely Host (host_ack ∷ Said (codes "tick 1") ∷ []) ≡ 0 }
    ensures older { bytes_perhaps Host (host_ack ∷ Said (codes "tick 1") ∷ []) ≡ 1 }
    ensures older_tick { bytes_perhaps Host (host_ack ∷ Time 1 ∷ []) ≡ 1 }
    ensures older_still { bytes_perhaps Host (host_ack ∷ Time 1 ∷ a_call ∷ []) ≡ 1 }
    ensures older_gone { bytes_perhaps Host (host_ack ∷ Time 1 ∷ host_ack ∷ a_call ∷ []) ≡ 0 }
    ensures frame_stays { bytes_surely Host (a_get ∷ Time 1 ∷ []) ≡ 11 }
    ensures chip_answer { bytes_surely Chip (chip_ack ∷ []) ≡ 1 }
    ensures chip_turn { bytes_perhaps Chip (chip_ack ∷ Time 1 ∷ []) ≡ 0 }
    ensures restarted { bytes_surely Host (a_get ∷ Said (codes "restart") ∷ []) ≡ 0 }
    ensures not_restarted { bytes_surely Host (a_get ∷ Said (codes "restart") ∷ Refused KeeperFault ∷ []) ≡ 11 }
    ensures older_gone_too { bytes_perhaps Host (host_ack ∷ Time 1 ∷ a_get ∷ a_call ∷ []) ≡ 11 }
    ensures older_twice { bytes_perhaps Host (host_ack ∷ Time 1 ∷ host_ack ∷ Time 2 ∷ []) ≡ 2 }
{}

/// Where it is not sure that the oldest answers are gone, a unit may be overrun or not.
pub fn worked_room()
    ensures overrun { may_overrun perhaps_full (Overrun Host) ≡ true }
    ensures fits { may_overrun perhaps_full (Said (codes "tick 1")) ≡ true }
    ensures answers { may_overrun full_of_answers (Overrun Host) ≡ true }
{}

/// Each of these breaks one part of the law: a unit of the host is overrun on the chip's side, and one is not overrun where answers fill the pipe.
pub fn rejected_room()
    ensures side { may_overrun (stalled_with 75 5) (Overrun Chip) ≡ false }
    ensures answers { may_overrun full_of_answers (Said (codes "tick 1")) ≡ false }
{}
