//! What the laws of frames say of worked transcripts, and of others with one thing wrong.

ghost use Rattle.std.specs.Prelude.{◌≡◌, [], ◌∷◌};
ghost use Rattle.zw_text.specs.declared.entry.Entry.TheVariants.{Refused};
ghost use Rattle.zw_text.specs.declared.entry.Refusal.TheVariants.{NeverSent, Forgotten, Stale};
ghost use Rattle.law_transcript.specs.Repeats.{refusal_to_repeat};
ghost use Rattle.law_transcript.specs.Fates.{NumbersFrames, FaresInTurn, LosesMarked};
ghost use Rattle.law_transcript.specs.Worked.{
  plain_exchange,
  repeated_exchange,
  lossy_exchange,
  cancelled_order,
  restarted_host,
  sleeping_node,
  sealed_exchange,
  long_message,
};
ghost use Rattle.law_transcript.specs.WorkedCases.{repeated_on, lost_repeated};
ghost use Rattle.law_transcript.specs.WorkedWrongHost.{
  numbered_apart,
  between_others,
  heard_at_once,
  heard_again,
  lost_unsent,
  lost_again,
  unheard_unsent,
  unheard_again,
  left_flying,
  left_by_line,
  repeated_unsent,
  repeated_otherwise,
  heard_though_marked,
  heard_though_both_marked,
  unheard_though_marked,
};
ghost use Rattle.law_transcript.specs.WorkedRepeats.{
  message_sent,
  report_sent,
  segment_sent,
  sealed_sent,
  then_sent,
  then_begun,
  then_shown,
  others_begun,
  shown_again,
  begun_before,
  shown_before,
  others_shown,
};

/// In worked transcripts frames are numbered.
pub fn worked_frames()
    ensures plain { NumbersFrames plain_exchange }
    ensures repeated { NumbersFrames repeated_exchange }
    ensures lossy { NumbersFrames lossy_exchange }
    ensures cancelled { NumbersFrames cancelled_order }
    ensures restarted { NumbersFrames restarted_host }
    ensures sleeping { NumbersFrames sleeping_node }
    ensures sealed { NumbersFrames sealed_exchange }
    ensures cut { NumbersFrames long_message }
{}

/// In worked transcripts each frame has its fate in its turn, and what is repeated is fresh; that it is heard again is no fate of its tick.
pub fn worked_fates()
    ensures plain { FaresInTurn plain_exchange }
    ensures repeated { FaresInTurn repeated_exchange }
    ensures lossy { FaresInTurn lossy_exchange }
    ensures cancelled { FaresInTurn cancelled_order }
    ensures restarted { FaresInTurn restarted_host }
    ensures sleeping { FaresInTurn sleeping_node }
    ensures sealed { FaresInTurn sealed_exchange }
    ensures cut { FaresInTurn long_message }
    ensures again { FaresInTurn repeated_on }
{}

/// In worked transcripts the frames that are marked are lost; one that was may be heard when it is repeated.
pub fn worked_losses()
    ensures plain { LosesMarked plain_exchange }
    ensures repeated { LosesMarked repeated_exchange }
    ensures lossy { LosesMarked lossy_exchange }
    ensures cancelled { LosesMarked cancelled_order }
    ensures restarted { LosesMarked restarted_host }
    ensures sleeping { LosesMarked sleeping_node }
    ensures sealed { LosesMarked sealed_exchange }
    ensures cut { LosesMarked long_message }
    ensures again { LosesMarked lost_repeated }
{}

/// Each of these breaks one part of the laws: a frame without the next number, or from no end at the controller; a frame heard
/// in the tick in which it was sent, a second time without a repeat, or in no tick, before another tick or line; a frame lost or unheard that was never
/// sent, or that was heard; a repeat of a frame that was never sent, or that makes another one heard; and a marked frame that is heard, also by the mark
/// of a second line, or unheard.
pub fn rejected_fates()
    ensures apart { NumbersFrames numbered_apart → ⊥ }
    ensures others { NumbersFrames between_others → ⊥ }
    ensures at_once { FaresInTurn heard_at_once → ⊥ }
    ensures again { FaresInTurn heard_again → ⊥ }
    ensures lost { FaresInTurn lost_unsent → ⊥ }
    ensures unheard { FaresInTurn unheard_unsent → ⊥ }
    ensures lost_again { FaresInTurn lost_again → ⊥ }
    ensures unheard_again { FaresInTurn unheard_again → ⊥ }
    ensures left { FaresInTurn left_flying → ⊥ }
    ensures left_by_line { FaresInTurn left_by_line → ⊥ }
    ensures unsent { FaresInTurn repeated_unsent → ⊥ }
    ensures otherwise { FaresInTurn repeated_otherwise → ⊥ }
    ensures marked_unheard { LosesMarked unheard_though_marked → ⊥ }
    ensures marked { LosesMarked heard_though_marked → ⊥ }
    ensures both_marked { LosesMarked heard_though_both_marked → ⊥ }
{}

/// A frame is fresh just below each bound, and too old at it: more than 4,096 later frames, 62 later sessions of its node, 14 for a segment, and 120
/// new nonces of its ends where it is sealed. Sessions and nonces of another node or before the frame, a nonce that is shown again, and nonces where the
/// frame is not sealed do not count; of a frame to the controller the sessions of its sender do. There is no frame 0, and none that was not sent.
pub fn worked_freshness()
    ensures frames_below { refusal_to_repeat (then_sent 4096) 1 ≡ [] }
    ensures frames_at { refusal_to_repeat (then_sent 4097) 1 ≡ Refused Forgotten ∷ [] }
    ensures sessions_below { refusal_to_repeat (then_begun message_sent 61) 1 ≡ [] }
    ensures sessions_at { refusal_to_repeat (then_begun message_sent 62) 1 ≡ Refused (Stale 62) ∷ [] }
    ensures segment_below { refusal_to_repeat (then_begun segment_sent 13) 1 ≡ [] }
    ensures segment_at { refusal_to_repeat (then_begun segment_sent 14) 1 ≡ Refused (Stale 14) ∷ [] }
    ensures nonces_below { refusal_to_repeat (then_shown sealed_sent 60 59) 1 ≡ [] }
    ensures nonces_at { refusal_to_repeat (then_shown sealed_sent 60 60) 1 ≡ Refused (Stale 120) ∷ [] }
    ensures others { refusal_to_repeat others_begun 1 ≡ [] }
    ensures again { refusal_to_repeat shown_again 1 ≡ [] }
    ensures report_at { refusal_to_repeat (then_begun report_sent 62) 1 ≡ Refused (Stale 62) ∷ [] }
    ensures before { refusal_to_repeat begun_before 1 ≡ [] }
    ensures nonces_before { refusal_to_repeat shown_before 121 ≡ [] }
    ensures other_nonces { refusal_to_repeat others_shown 1 ≡ [] }
    ensures zeroth { refusal_to_repeat (message_sent ∷ []) 0 ≡ Refused NeverSent ∷ [] }
    ensures unsent { refusal_to_repeat (message_sent ∷ []) 2 ≡ Refused NeverSent ∷ [] }
    ensures unsealed { refusal_to_repeat (then_shown message_sent 60 60) 1 ≡ [] }
{}
