//! What the laws of waking, sleeping and holds say of worked transcripts, and of others with one thing wrong.

ghost use Rattle.std.specs.Prelude.{true, false};
ghost use Rattle.law_time.specs.Holds.{HoldsAsAsked};
ghost use Rattle.law_time.specs.Waking.{WakesAsTold, FallsAsleep};
ghost use Rattle.law_time.specs.WorkedWaits.{given_up_asleep, held_node};
ghost use Rattle.law_time.specs.WrongEntries.{asleep_though_listening, held_though_listening};
ghost use Rattle.law_time.specs.WrongWaits.{
  asleep_untold,
  asleep_unwoken,
  awake_untold,
  given_up_awake,
  held_unasked,
  not_held,
  sleep_passed_over,
  waking_passed_over,
};
ghost use Rattle.law_wire.specs.law_transcript.Worked.{
  cancelled_order,
  long_message,
  lossy_exchange,
  plain_exchange,
  repeated_exchange,
  restarted_host,
  sealed_exchange,
  sleeping_node,
};
ghost use Rattle.law_time.specs.WorkedEnds.{asleep_after_lost, asleep_given_up, asleep_in_silence, asleep_refused, telling, woken_again};
ghost use Rattle.law_time.specs.WrongEnds.{
  asleep_again,
  asleep_before_end,
  asleep_by_other,
  awake_after_link,
  awake_after_refusal,
  awake_as_it_asks,
  awake_in_next_line,
  awake_in_next_tick,
};
ghost use Rattle.law_time.specs.WorkedWaking.{
  awake_after_lost,
  awake_by_sealed,
  held_by_both,
  held_by_first,
  held_by_sealed,
  held_failing,
  held_unsupported,
  not_held_by_second,
  not_held_by_work,
};
ghost use Rattle.law_time.specs.WrongWaking.{
  awake_by_unread,
  held_by_other,
  held_by_unread,
  held_by_work,
  held_unanswered,
  not_held_by_both,
  not_held_failing,
  not_held_unsupported,
  awake_after_accepted,
  awake_after_change,
  awake_after_cleared,
  awake_after_forgotten,
  awake_after_frame,
  awake_after_full,
  awake_after_hearing,
  awake_after_line,
  awake_after_loss,
  awake_after_refused,
  awake_after_session,
  awake_after_tick,
  awake_after_unhearing,
  awake_after_unit,
  awake_after_note,
};

/// In worked transcripts nodes count as awake where they tell so, after a lost acknowledgement too, and may where what they tell is sealed.
pub fn worked_waking()
    ensures wakes { WakesAsTold sleeping_node }
    ensures plain { WakesAsTold plain_exchange }
    ensures repeated { WakesAsTold repeated_exchange }
    ensures lossy { WakesAsTold lossy_exchange }
    ensures cancelled { WakesAsTold cancelled_order }
    ensures restarted { WakesAsTold restarted_host }
    ensures sealed { WakesAsTold sealed_exchange }
    ensures cut { WakesAsTold long_message }
    ensures lost { WakesAsTold awake_after_lost }
    ensures by_sealed { WakesAsTold awake_by_sealed }
{}

/// In worked transcripts nodes count as asleep where they were told that there is no more, in whatever way that ended, or are given up. One of them wakes
/// again directly after that, and a run that ends in the tick in which it is owed need not show it.
pub fn worked_sleeping()
    ensures sleeps { FallsAsleep true sleeping_node }
    ensures given_up { FallsAsleep true given_up_asleep }
    ensures plain { FallsAsleep true plain_exchange }
    ensures repeated { FallsAsleep true repeated_exchange }
    ensures lossy { FallsAsleep true lossy_exchange }
    ensures cancelled { FallsAsleep true cancelled_order }
    ensures restarted { FallsAsleep true restarted_host }
    ensures sealed { FallsAsleep true sealed_exchange }
    ensures cut { FallsAsleep true long_message }
    ensures lost { FallsAsleep true asleep_after_lost }
    ensures silent { FallsAsleep true asleep_in_silence }
    ensures told_in_vain { FallsAsleep true asleep_given_up }
    ensures refused { FallsAsleep true asleep_refused }
    ensures woken_again { FallsAsleep true woken_again }
    ensures halted { FallsAsleep false telling }
{}

/// In worked transcripts a node is held where it asks so, by a report of each final status. Of two in one payload each may be the one that counts, where
/// the keeper failed for the first too, but none that the node is at work; and what is sealed may ask.
pub fn worked_holds()
    ensures held { HoldsAsAsked held_node }
    ensures sleeping { HoldsAsAsked sleeping_node }
    ensures plain { HoldsAsAsked plain_exchange }
    ensures repeated { HoldsAsAsked repeated_exchange }
    ensures lossy { HoldsAsAsked lossy_exchange }
    ensures cancelled { HoldsAsAsked cancelled_order }
    ensures restarted { HoldsAsAsked restarted_host }
    ensures sealed { HoldsAsAsked sealed_exchange }
    ensures cut { HoldsAsAsked long_message }
    ensures failing { HoldsAsAsked held_failing }
    ensures unsupported { HoldsAsAsked held_unsupported }
    ensures both { HoldsAsAsked held_by_both }
    ensures first { HoldsAsAsked held_by_first }
    ensures second { HoldsAsAsked not_held_by_second }
    ensures working { HoldsAsAsked not_held_by_work }
    ensures by_sealed { HoldsAsAsked held_by_sealed }
{}

/// Each of these breaks one part of the laws: a node that counts as awake though it has not told so, or by what cannot be read, or does not
/// though it has; one that counts as asleep though it did not count as awake, or does so already, was told nothing, is still being told or
/// was told something else, or does not though it was told or given up, also where what told it ended in silence, by the line or in a refusal, and
/// at the end of a run; one that is held unasked, by a report of another session, by one that it is at work, by what cannot be read, or as its
/// command is unanswered, or asks and is not, by each status, and by both reports of a payload; and one that listens, and counts as asleep or is held.
pub fn rejected_waking()
    ensures untold { WakesAsTold awake_untold → ⊥ }
    ensures passed { WakesAsTold waking_passed_over → ⊥ }
    ensures unwoken { FallsAsleep true asleep_unwoken → ⊥ }
    ensures sleeps_untold { FallsAsleep true asleep_untold → ⊥ }
    ensures sleep_passed { FallsAsleep true sleep_passed_over → ⊥ }
    ensures given_up { FallsAsleep true given_up_awake → ⊥ }
    ensures unasked { HoldsAsAsked held_unasked → ⊥ }
    ensures not_held { HoldsAsAsked not_held → ⊥ }
    ensures listening { FallsAsleep true asleep_though_listening → ⊥ }
    ensures held_listening { HoldsAsAsked held_though_listening → ⊥ }
    ensures again { FallsAsleep true asleep_again → ⊥ }
    ensures before_end { FallsAsleep true asleep_before_end → ⊥ }
    ensures by_other { FallsAsleep true asleep_by_other → ⊥ }
    ensures next_tick { FallsAsleep true awake_in_next_tick → ⊥ }
    ensures next_line { FallsAsleep true awake_in_next_line → ⊥ }
    ensures as_it_asks { FallsAsleep true awake_as_it_asks → ⊥ }
    ensures after_link { FallsAsleep true awake_after_link → ⊥ }
    ensures after_refusal { FallsAsleep true awake_after_refusal → ⊥ }
    ensures in_the_end { FallsAsleep true telling → ⊥ }
    ensures unread { WakesAsTold awake_by_unread → ⊥ }
    ensures failing { HoldsAsAsked not_held_failing → ⊥ }
    ensures unsupported { HoldsAsAsked not_held_unsupported → ⊥ }
    ensures by_both { HoldsAsAsked not_held_by_both → ⊥ }
    ensures by_work { HoldsAsAsked held_by_work → ⊥ }
    ensures by_unread { HoldsAsAsked held_by_unread → ⊥ }
    ensures by_other_session { HoldsAsAsked held_by_other → ⊥ }
    ensures unanswered { HoldsAsAsked held_unanswered → ⊥ }
    ensures following_line { WakesAsTold awake_after_line → ⊥ }
    ensures after_accepted { WakesAsTold awake_after_accepted → ⊥ }
    ensures after_refused { WakesAsTold awake_after_refused → ⊥ }
    ensures following_tick { WakesAsTold awake_after_tick → ⊥ }
    ensures after_frame { WakesAsTold awake_after_frame → ⊥ }
    ensures after_hearing { WakesAsTold awake_after_hearing → ⊥ }
    ensures after_loss { WakesAsTold awake_after_loss → ⊥ }
    ensures after_unhearing { WakesAsTold awake_after_unhearing → ⊥ }
    ensures following_change { WakesAsTold awake_after_change → ⊥ }
    ensures after_unit { WakesAsTold awake_after_unit → ⊥ }
    ensures after_forgotten { WakesAsTold awake_after_forgotten → ⊥ }
    ensures after_full { WakesAsTold awake_after_full → ⊥ }
    ensures after_cleared { WakesAsTold awake_after_cleared → ⊥ }
    ensures after_session { WakesAsTold awake_after_session → ⊥ }
    ensures after_note { WakesAsTold awake_after_note → ⊥ }
{}
