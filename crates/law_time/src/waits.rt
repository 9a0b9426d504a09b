//! What the laws of attempts and of rests say of worked transcripts, and of others with one thing wrong.

ghost use Rattle.law_time.specs.Heeds.{heeds_of};
ghost use Rattle.std.specs.Prelude.{◌≡◌, true, false, [], ◌∷◌};
ghost use Rattle.law_time.specs.Prompt.{IsPrompt};
ghost use Rattle.law_time.specs.Rests.{RestsWell};
ghost use Rattle.law_time.specs.Unanswered.{GivesUpAfterThree};
ghost use Rattle.law_time.specs.Waking.{is_up};
ghost use Rattle.law_time.specs.WorkedWaits.{
  answered_errands,
  given_up_asleep,
  given_up_lock,
  given_up_segments,
  sent_in_stall,
  the_keeper,
  the_other_switch,
  waited_attempts,
  woken_before_restart,
};
ghost use Rattle.law_time.specs.WorkedBetween.{told_after_restart, told_as_chip_writes};
ghost use Rattle.law_time.specs.WorkedChoice.{attempt_follows};
ghost use Rattle.law_time.specs.WrongBetween.{held_over_restart};
ghost use Rattle.law_time.specs.WrongChoice.{left_due, left_sealed, left_segment};
ghost use Rattle.law_time.specs.WorkedQueue.{failed_attempts, resent_segments, silent_attempt};
ghost use Rattle.law_time.specs.WrongEntries.{given_up_unbegun, left_unended_in_silence, left_unsaid_in_silence};
ghost use Rattle.law_time.specs.WrongQueue.{
  given_up_before_failing,
  given_up_before_silence,
  given_up_by_resend,
  gone_on_after_failing,
  gone_on_after_silence,
  gone_on_after_waiting,
  gone_on_after_segments,
  left_unaborted,
  left_unreported,
  left_unresent,
};
ghost use Rattle.law_time.specs.WrongWaits.{
  begun_silently,
  given_up_after_two,
  given_up_before_time,
  given_up_inside,
  given_up_under_way,
  gone_on_after_three,
  left_awake,
  left_in_stall,
  left_overdue,
  left_unasked,
  left_unbegun,
  left_unheard,
  left_unsent,
  left_waiting,
};
ghost use Rattle.law_wire.specs.law_transcript.Commands.{waiting};
ghost use Rattle.law_wire.specs.law_transcript.Lists.{last_or};
ghost use Rattle.law_wire.specs.law_transcript.Worked.{
  cancelled_order,
  long_message,
  lossy_exchange,
  plain_exchange,
  repeated_exchange,
  restarted_host,
  sealed_exchange,
  sleeping_node,
  the_lock,
  the_plug,
  the_sensor,
  the_switch,
};
ghost use Rattle.zw_text.specs.Transcript.{wakings};
ghost use Rattle.law_time.specs.WorkedAttempts.{
  given_up_at_segment,
  given_up_after_lost,
  given_up_beside_get,
  given_up_beside_other,
  given_up_beside_working,
  given_up_over_refused,
  given_up_refused,
  given_up_working,
  halted_waiting,
  asked_before_restart,
  begun_kept,
  waits_asleep,
  given_up_after_unit,
  given_up_after_frames,
  given_up_unkept,
};
ghost use Rattle.law_time.specs.WrongAttempts.{
  given_up_at_work,
  given_up_by_get,
  given_up_counting_earlier,
  given_up_counting_get,
  given_up_counting_other,
  given_up_counting_sealed,
  given_up_delivered,
  given_up_early,
  given_up_over_restart,
  given_up_succeeded,
  given_up_twice,
  given_up_late,
  left_beside_unkept,
  left_over_restart,
  left_uninterviewed,
  left_unkept,
  left_a_tick,
  left_after_abort,
  left_after_line,
  given_up_after_line,
  given_up_long_denied,
  left_given_up,
};
ghost use Rattle.law_time.specs.WorkedEnds.{informed, informed_unkept, interview_uninformed, waits_for_line};

/// In worked transcripts a command is given up when its third attempt has ended: by callbacks, a refusal, or 100 ticks after the last
/// callback or report of work; also that of a node that sleeps, of a lock, and of a message in segments, where the first one that is lost
/// ends nothing, but one that fails does, and one that is asked for again is no attempt; and when no copy of the third attempt arrives, which
/// may be told after frames, or its callback does not come. Requests and sessions of others change nothing, nor does a restart that is
/// refused. A run that ends in the tick in which it is owed need not show it.
pub fn worked_attempts()
    ensures lossy { GivesUpAfterThree true (heeds_of (the_switch ∷ [])) lossy_exchange }
    ensures waited { GivesUpAfterThree true (heeds_of (the_switch ∷ [])) waited_attempts }
    ensures sleeping { GivesUpAfterThree true (heeds_of (the_sensor ∷ [])) given_up_asleep }
    ensures lock { GivesUpAfterThree true (heeds_of (the_lock ∷ [])) given_up_lock }
    ensures segments { GivesUpAfterThree true (heeds_of (the_plug ∷ [])) given_up_segments }
    ensures resent { GivesUpAfterThree true (heeds_of (the_plug ∷ [])) resent_segments }
    ensures failed { GivesUpAfterThree true (heeds_of (the_switch ∷ [])) failed_attempts }
    ensures silent { GivesUpAfterThree true (heeds_of (the_switch ∷ [])) silent_attempt }
    ensures plain { GivesUpAfterThree true (heeds_of (the_switch ∷ [])) plain_exchange }
    ensures repeated { GivesUpAfterThree true (heeds_of (the_switch ∷ [])) repeated_exchange }
    ensures cancelled { GivesUpAfterThree true (heeds_of (the_switch ∷ [])) cancelled_order }
    ensures restarted { GivesUpAfterThree true (heeds_of (the_switch ∷ [])) restarted_host }
    ensures sleeps { GivesUpAfterThree true (heeds_of (the_sensor ∷ [])) sleeping_node }
    ensures sealed { GivesUpAfterThree true (heeds_of (the_lock ∷ [])) sealed_exchange }
    ensures cut { GivesUpAfterThree true (heeds_of (the_plug ∷ [])) long_message }
    ensures after_lost { GivesUpAfterThree true (heeds_of (the_switch ∷ [])) given_up_after_lost }
    ensures refused { GivesUpAfterThree true (heeds_of (the_switch ∷ [])) given_up_refused }
    ensures working { GivesUpAfterThree true (heeds_of (the_switch ∷ [])) given_up_working }
    ensures beside_working { GivesUpAfterThree true (heeds_of (the_switch ∷ [])) given_up_beside_working }
    ensures beside_get { GivesUpAfterThree true (heeds_of (the_switch ∷ [])) given_up_beside_get }
    ensures beside_other { GivesUpAfterThree true (heeds_of (the_switch ∷ [])) given_up_beside_other }
    ensures over_refused { GivesUpAfterThree true (heeds_of (the_switch ∷ [])) given_up_over_refused }
    ensures at_segment { GivesUpAfterThree true (heeds_of (the_plug ∷ [])) given_up_at_segment }
    ensures halted { GivesUpAfterThree false (heeds_of (the_switch ∷ [])) halted_waiting }
    ensures unkept { GivesUpAfterThree true (heeds_of (the_switch ∷ [])) given_up_unkept }
    ensures after_unit { GivesUpAfterThree true (heeds_of (the_switch ∷ [])) given_up_after_unit }
    ensures after_frames { GivesUpAfterThree true (heeds_of (the_switch ∷ [])) given_up_after_frames }
{}

/// In worked transcripts nothing is owed at a rest: a command may wait for a node that sleeps, or in the tick in which the keeper has
/// failed, and an interview may have ended in each way. In one a restart leaves a node as asleep though it was last said to be awake and
/// was taken to listen: were it still taken to be awake, its command would wait for nothing. What is sent to a node is sent once though it
/// fails in a tick in which the chip has written, and a restart ends a hold. The attempt after one whose
/// last segment has failed begins in that tick. In a stall a session begins all the same.
pub fn worked_rests()
    ensures plain { RestsWell true (heeds_of (the_switch ∷ [])) plain_exchange }
    ensures stalled { RestsWell true (heeds_of (the_switch ∷ [])) sent_in_stall }
    ensures errands { RestsWell true (heeds_of (the_switch ∷ [])) answered_errands }
    ensures waited { RestsWell true (heeds_of (the_switch ∷ [])) waited_attempts }
    ensures sleeping { RestsWell true (heeds_of (the_sensor ∷ [])) sleeping_node }
    ensures sealed { RestsWell true (heeds_of (the_lock ∷ [])) sealed_exchange }
    ensures resent { RestsWell true (heeds_of (the_plug ∷ [])) resent_segments }
    ensures restarted { RestsWell true (heeds_of (the_sensor ∷ the_other_switch ∷ [])) woken_before_restart }
    ensures said_awake { last_or false (wakings 5 woken_before_restart) ≡ true }
    ensures not_up { is_up 5 woken_before_restart ≡ false }
    ensures waits { waiting 5 woken_before_restart ≡ 1 ∷ [] }
    ensures repeated { RestsWell true (heeds_of (the_switch ∷ [])) repeated_exchange }
    ensures lossy { RestsWell true (heeds_of (the_switch ∷ [])) lossy_exchange }
    ensures cancelled { RestsWell true (heeds_of (the_switch ∷ [])) cancelled_order }
    ensures host_restarted { RestsWell true (heeds_of (the_switch ∷ [])) restarted_host }
    ensures cut { RestsWell true (heeds_of (the_plug ∷ [])) long_message }
    ensures kept { RestsWell true (heeds_of (the_switch ∷ [])) begun_kept }
    ensures asleep { RestsWell true (heeds_of (the_switch ∷ [])) waits_asleep }
    ensures before_restart { RestsWell true (heeds_of (the_switch ∷ [])) asked_before_restart }
    ensures informed { RestsWell true (heeds_of (the_switch ∷ [])) informed }
    ensures uninformed { RestsWell true (heeds_of (the_switch ∷ [])) interview_uninformed }
    ensures unkept { RestsWell true (heeds_of (the_switch ∷ [])) informed_unkept }
    ensures for_line { RestsWell true (heeds_of (the_switch ∷ [])) waits_for_line }
    ensures as_chip_writes { RestsWell true (heeds_of (the_switch ∷ the_sensor ∷ [])) told_as_chip_writes }
    ensures after_restart { RestsWell true (heeds_of (the_keeper ∷ [])) told_after_restart }
    ensures attempt { RestsWell true (heeds_of (the_plug ∷ [])) attempt_follows }
{}

/// In a plain exchange the host is prompt.
pub fn worked_prompt()
    ensures { IsPrompt true (heeds_of (the_switch ∷ [])) plain_exchange }
{}

/// Where a session has begun and the run ends before its message, it is not.
pub fn rejected_prompt()
    ensures { IsPrompt true (heeds_of (the_switch ∷ [])) begun_silently → ⊥ }
{}

/// Each of these breaks one part of the law: a command given up without a session, after two attempts, or while the third is under way, or
/// delivered, or at work, or too early, or after a segment that others follow; by a Get, or counting one, a message to another node, one
/// that is sealed, or attempts from before the session or a restart; given up though it succeeded, or twice; and one that is not given up
/// when the third has ended, in any way, also after frames that do not end it, and at the end of a run.
pub fn rejected_waits()
    ensures two { GivesUpAfterThree true (heeds_of (the_switch ∷ [])) given_up_after_two → ⊥ }
    ensures under_way { GivesUpAfterThree true (heeds_of (the_switch ∷ [])) given_up_under_way → ⊥ }
    ensures before { GivesUpAfterThree true (heeds_of (the_switch ∷ [])) given_up_before_time → ⊥ }
    ensures gone_on { GivesUpAfterThree true (heeds_of (the_switch ∷ [])) gone_on_after_three → ⊥ }
    ensures inside { GivesUpAfterThree true (heeds_of (the_plug ∷ [])) given_up_inside → ⊥ }
    ensures resent { GivesUpAfterThree true (heeds_of (the_plug ∷ [])) given_up_by_resend → ⊥ }
    ensures segments { GivesUpAfterThree true (heeds_of (the_plug ∷ [])) gone_on_after_segments → ⊥ }
    ensures failed { GivesUpAfterThree true (heeds_of (the_switch ∷ [])) gone_on_after_failing → ⊥ }
    ensures waited { GivesUpAfterThree true (heeds_of (the_switch ∷ [])) gone_on_after_waiting → ⊥ }
    ensures silent { GivesUpAfterThree true (heeds_of (the_switch ∷ [])) gone_on_after_silence → ⊥ }
    ensures before_failing { GivesUpAfterThree true (heeds_of (the_switch ∷ [])) given_up_before_failing → ⊥ }
    ensures before_silence { GivesUpAfterThree true (heeds_of (the_switch ∷ [])) given_up_before_silence → ⊥ }
    ensures unbegun { GivesUpAfterThree true (heeds_of (the_switch ∷ [])) given_up_unbegun → ⊥ }
    ensures delivered { GivesUpAfterThree true (heeds_of (the_switch ∷ [])) given_up_delivered → ⊥ }
    ensures early { GivesUpAfterThree true (heeds_of (the_switch ∷ [])) given_up_early → ⊥ }
    ensures at_work { GivesUpAfterThree true (heeds_of (the_switch ∷ [])) given_up_at_work → ⊥ }
    ensures in_time { GivesUpAfterThree true (heeds_of (the_switch ∷ [])) given_up_late → ⊥ }
    ensures by_get { GivesUpAfterThree true (heeds_of (the_switch ∷ [])) given_up_by_get → ⊥ }
    ensures counting_get { GivesUpAfterThree true (heeds_of (the_switch ∷ [])) given_up_counting_get → ⊥ }
    ensures counting_other { GivesUpAfterThree true (heeds_of (the_switch ∷ [])) given_up_counting_other → ⊥ }
    ensures counting_sealed { GivesUpAfterThree true (heeds_of (the_lock ∷ [])) given_up_counting_sealed → ⊥ }
    ensures counting_earlier { GivesUpAfterThree true (heeds_of (the_switch ∷ [])) given_up_counting_earlier → ⊥ }
    ensures over_restart { GivesUpAfterThree true (heeds_of (the_switch ∷ [])) given_up_over_restart → ⊥ }
    ensures succeeded { GivesUpAfterThree true (heeds_of (the_switch ∷ [])) given_up_succeeded → ⊥ }
    ensures twice { GivesUpAfterThree true (heeds_of (the_switch ∷ [])) given_up_twice → ⊥ }
    ensures in_the_end { GivesUpAfterThree true (heeds_of (the_switch ∷ [])) halted_waiting → ⊥ }
    ensures following_line { GivesUpAfterThree true (heeds_of (the_switch ∷ [])) given_up_after_line → ⊥ }
    ensures long_denied { GivesUpAfterThree true (heeds_of (the_switch ∷ [])) given_up_long_denied → ⊥ }
{}

/// Each of these breaks one part of the law of rests: a rest at which a command waits for a node that is awake, also in a stall, in one in
/// which the chip has written, a tick after the keeper has failed, as it has for another node, or before a restart; a Set or an interview
/// has not begun, nor a question where the chip has written what is not judged; the end of a Get or of an interview is not said, or is left
/// out as the keeper fails for another node; an attempt is overdue, a node is kept awake for nothing, or since a host before this one has
/// held it, or a Nonce Report, a segment that was asked for or an abort is not sent, nor the second segment of an attempt, the message that
/// could be sealed, or the attempt that follows one that is over.
pub fn rejected_rests()
    ensures waiting { RestsWell true (heeds_of (the_switch ∷ [])) left_waiting → ⊥ }
    ensures stalled { RestsWell true (heeds_of (the_switch ∷ [])) left_in_stall → ⊥ }
    ensures unheard { RestsWell true (heeds_of (the_switch ∷ [])) left_unheard → ⊥ }
    ensures unasked { RestsWell true (heeds_of (the_switch ∷ [])) left_unasked → ⊥ }
    ensures unsent { RestsWell true (heeds_of (the_switch ∷ [])) left_unsent → ⊥ }
    ensures unbegun { RestsWell true (heeds_of (the_sensor ∷ [])) left_unbegun → ⊥ }
    ensures overdue { RestsWell true (heeds_of (the_switch ∷ [])) left_overdue → ⊥ }
    ensures awake { RestsWell true (heeds_of (the_sensor ∷ [])) left_awake → ⊥ }
    ensures unreported { RestsWell true (heeds_of (the_lock ∷ [])) left_unreported → ⊥ }
    ensures unresent { RestsWell true (heeds_of (the_plug ∷ [])) left_unresent → ⊥ }
    ensures unaborted { RestsWell true (heeds_of (the_switch ∷ [])) left_unaborted → ⊥ }
    ensures unended { RestsWell true (heeds_of (the_switch ∷ [])) left_unended_in_silence → ⊥ }
    ensures unsaid { RestsWell true (heeds_of (the_switch ∷ [])) left_unsaid_in_silence → ⊥ }
    ensures unkept { RestsWell true (heeds_of (the_switch ∷ [])) left_unkept → ⊥ }
    ensures beside_unkept { RestsWell true (heeds_of (the_switch ∷ [])) left_beside_unkept → ⊥ }
    ensures over_restart { RestsWell true (heeds_of (the_switch ∷ [])) left_over_restart → ⊥ }
    ensures uninterviewed { RestsWell true (heeds_of (the_switch ∷ [])) left_uninterviewed → ⊥ }
    ensures after_abort { RestsWell true (heeds_of (the_switch ∷ [])) left_after_abort → ⊥ }
    ensures following_line { RestsWell true (heeds_of (the_switch ∷ [])) left_after_line → ⊥ }
    ensures a_tick { RestsWell true (heeds_of (the_switch ∷ [])) left_a_tick → ⊥ }
    ensures given_up { RestsWell true (heeds_of (the_switch ∷ [])) left_given_up → ⊥ }
    ensures held { RestsWell true (heeds_of (the_keeper ∷ [])) held_over_restart → ⊥ }
    ensures segment { RestsWell true (heeds_of (the_plug ∷ [])) left_segment → ⊥ }
    ensures nonce { RestsWell true (heeds_of (the_lock ∷ [])) left_sealed → ⊥ }
    ensures due { RestsWell true (heeds_of (the_plug ∷ [])) left_due → ⊥ }
{}
