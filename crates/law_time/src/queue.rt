//! What the laws of the queue of requests say of worked transcripts, and of others with one thing wrong.

ghost use Rattle.law_time.specs.Heeds.{heeds_of};
ghost use Rattle.std.specs.Prelude.{[], ◌∷◌, codes};
ghost use Rattle.law_time.specs.Choice.{SendsInTurn};
ghost use Rattle.law_time.specs.Queue.{FitsQueue};
ghost use Rattle.law_time.specs.WorkedQueue.{dropped_no_more, dropped_nonce, resent_segments, silent_attempt};
ghost use Rattle.law_time.specs.WorkedWaits.{answered_errands, full_queue, held_node, the_keeper, the_other_switch, woken_before_restart};
ghost use Rattle.law_time.specs.WrongEntries.{dropped_of_another, refused_for_fewer, sent_after_end};
ghost use Rattle.law_time.specs.WrongQueue.{
  aborted_unasked,
  dropped_with_room,
  let_in_though_full,
  refused_with_room,
  reported_though_full,
  sent_before_abort,
  sent_before_report,
  waits_though_full,
};
ghost use Rattle.law_time.specs.WrongRequests.{sent_out_of_turn, sent_unasked};
ghost use Rattle.law_time.specs.WrongWaits.{told_while_waiting};
ghost use Rattle.zw_text.specs.declared.entry.Ended.TheVariants as endings;
ghost use Rattle.law_wire.specs.law_transcript.Worked.{
  cancelled_order,
  long_message,
  lossy_exchange,
  plain_exchange,
  repeated_exchange,
  restarted_host,
  sealed_exchange,
  sleeping_node,
  the_lock,
  the_plug,
  the_sensor,
  the_switch,
};
ghost use Rattle.law_time.specs.WorkedBetween.{told_after_restart, told_as_chip_writes};
ghost use Rattle.law_time.specs.WorkedEnds.{aborted_at_fourth};
ghost use Rattle.law_time.specs.WrongBetween.{told_again_as_chip_writes};
ghost use Rattle.law_time.specs.WorkedTurns.{
  again_after_cancelled,
  again_by_command,
  again_by_restart,
  again_by_waking,
  again_in_time,
  asked_as_heard,
  asked_at_once,
  asked_after_abort,
  asked_after_unkept,
  asked_over_refused,
  both_frames,
  asked_without_abort,
  discovered,
  first_resent,
  nonce_reported,
  probed,
  reported_beside_unkept,
  second_resent,
  told_after_report,
  told_again,
  told_awake,
  told_by_number,
  told_by_time,
  told_held,
  told_unheld,
  dropped_at_once,
  dropped_after_lost,
  dropped_after_report,
  refused_otherwise,
  unkept_though_full,
  told_once,
  told_twice,
  told_as_numbered,
  told_by_time_as_numbered,
  dropped_again,
  dropped_once,
  dropped_woken,
  copied_after_overrun,
  asked_after_interview,
};
ghost use Rattle.law_time.specs.WrongTurns.{
  dropped_twice,
  asked_over_restart,
  probed_out_of_turn,
  reported_before_told,
  reported_unkept,
  resent_beyond,
  resent_inside,
  resent_of_other,
  resent_of_plain,
  resent_when_ended,
  sent_again,
  sent_asleep,
  sent_by_other_command,
  sent_by_other_waking,
  sent_by_refused_restart,
  sent_fifth,
  sent_for_nothing,
  sent_in_time,
  sent_over_restart,
  sent_refused,
  sent_to_other,
  sent_too_soon,
  sent_when_ended,
  told_asleep,
  told_before_report,
  told_listening,
  told_out_of_turn,
  told_though_held,
  told_unjoined,
  told_unknown,
  told_while_held,
  undropped_before_session,
  undropped_before_unit,
  undropped_in_tick,
  aborted_early,
};
ghost use Rattle.zw_text.specs.Transcript.{endings};

/// In worked transcripts lines are refused, and messages dropped, where 64 requests wait: a line that asks for a place too many, No More Information
/// to a node that wakes, and a Nonce Report, after a lost acknowledgement too, and after a value that the same payload told. It is not dropped where
/// the keeper fails, and a line may be refused for something else.
pub fn worked_queue()
    ensures full { FitsQueue (heeds_of (the_switch ∷ [])) full_queue }
    ensures answered { FitsQueue (heeds_of (the_switch ∷ [])) answered_errands }
    ensures no_more { FitsQueue (heeds_of (the_switch ∷ the_sensor ∷ [])) dropped_no_more }
    ensures nonce { FitsQueue (heeds_of (the_switch ∷ the_lock ∷ [])) dropped_nonce }
    ensures plain { FitsQueue (heeds_of (the_switch ∷ [])) plain_exchange }
    ensures repeated { FitsQueue (heeds_of (the_switch ∷ [])) repeated_exchange }
    ensures lossy { FitsQueue (heeds_of (the_switch ∷ [])) lossy_exchange }
    ensures cancelled { FitsQueue (heeds_of (the_switch ∷ [])) cancelled_order }
    ensures restarted { FitsQueue (heeds_of (the_switch ∷ [])) restarted_host }
    ensures sleeping { FitsQueue (heeds_of (the_sensor ∷ [])) sleeping_node }
    ensures sealed { FitsQueue (heeds_of (the_lock ∷ [])) sealed_exchange }
    ensures cut { FitsQueue (heeds_of (the_plug ∷ [])) long_message }
    ensures at_once { FitsQueue (heeds_of (the_switch ∷ [])) dropped_at_once }
    ensures after_lost { FitsQueue (heeds_of (the_switch ∷ [])) dropped_after_lost }
    ensures after_report { FitsQueue (heeds_of (the_switch ∷ [])) dropped_after_report }
    ensures unkept { FitsQueue (heeds_of (the_switch ∷ [])) unkept_though_full }
    ensures otherwise { FitsQueue (heeds_of (the_switch ∷ [])) refused_otherwise }
    ensures dropped_once { FitsQueue (heeds_of (the_switch ∷ [])) dropped_once }
    ensures dropped_again { FitsQueue (heeds_of (the_switch ∷ [])) dropped_again }
    ensures dropped_woken { FitsQueue (heeds_of (the_switch ∷ [])) dropped_woken }
{}

/// In worked transcripts the request that has waited longest is sent next: those of each kind of line, over a restart that is refused; Nonce Reports,
/// and segments that were asked for; and No More Information, to a node that is not held any more, also since the host restarted or its command went
/// unanswered, in the order of time and of nodes, and once, where that fails too, after a nonce for which it asked in the same line or read. An abort
/// goes before them, where the chip took what ended in silence, and what is of a session goes where none waits: again after another command, a waking,
/// a restart, 100 ticks, and the end of another command.
pub fn worked_turns()
    ensures lines { SendsInTurn (heeds_of (the_switch ∷ [])) answered_errands }
    ensures interviews { SendsInTurn (heeds_of (the_sensor ∷ the_other_switch ∷ [])) woken_before_restart }
    ensures nonces { SendsInTurn (heeds_of (the_lock ∷ [])) sealed_exchange }
    ensures segments { SendsInTurn (heeds_of (the_plug ∷ [])) resent_segments }
    ensures no_more { SendsInTurn (heeds_of (the_sensor ∷ [])) sleeping_node }
    ensures held { SendsInTurn (heeds_of (the_keeper ∷ [])) held_node }
    ensures abort { SendsInTurn (heeds_of (the_switch ∷ [])) silent_attempt }
    ensures plain { SendsInTurn (heeds_of (the_switch ∷ [])) plain_exchange }
    ensures repeated { SendsInTurn (heeds_of (the_switch ∷ [])) repeated_exchange }
    ensures lossy { SendsInTurn (heeds_of (the_switch ∷ [])) lossy_exchange }
    ensures cancelled { SendsInTurn (heeds_of (the_switch ∷ [])) cancelled_order }
    ensures restarted { SendsInTurn (heeds_of (the_switch ∷ [])) restarted_host }
    ensures cut { SendsInTurn (heeds_of (the_plug ∷ [])) long_message }
    ensures aborted { SendsInTurn (heeds_of (the_switch ∷ [])) aborted_at_fourth }
    ensures by_command { SendsInTurn (heeds_of (the_switch ∷ [])) again_by_command }
    ensures by_waking { SendsInTurn (heeds_of (the_switch ∷ [])) again_by_waking }
    ensures by_restart { SendsInTurn (heeds_of (the_switch ∷ [])) again_by_restart }
    ensures in_time { SendsInTurn (heeds_of (the_switch ∷ [])) again_in_time }
    ensures cancelled_other { SendsInTurn (heeds_of (the_switch ∷ [])) again_after_cancelled }
    ensures discovered { SendsInTurn (heeds_of (the_switch ∷ [])) discovered }
    ensures probed { SendsInTurn (heeds_of (the_switch ∷ [])) probed }
    ensures over_refused { SendsInTurn (heeds_of (the_switch ∷ [])) asked_over_refused }
    ensures after_abort { SendsInTurn (heeds_of (the_switch ∷ [])) asked_after_abort }
    ensures without_abort { SendsInTurn (heeds_of (the_switch ∷ [])) asked_without_abort }
    ensures reported { SendsInTurn (heeds_of (the_switch ∷ [])) nonce_reported }
    ensures beside_unkept { SendsInTurn (heeds_of (the_switch ∷ [])) reported_beside_unkept }
    ensures after_unkept { SendsInTurn (heeds_of (the_switch ∷ [])) asked_after_unkept }
    ensures told_awake { SendsInTurn (heeds_of (the_switch ∷ [])) told_awake }
    ensures told_held { SendsInTurn (heeds_of (the_switch ∷ [])) told_held }
    ensures told_again { SendsInTurn (heeds_of (the_switch ∷ [])) told_again }
    ensures unheld { SendsInTurn (heeds_of (the_switch ∷ [])) told_unheld }
    ensures told_by_number { SendsInTurn (heeds_of (the_switch ∷ [])) told_by_number }
    ensures told_by_time { SendsInTurn (heeds_of (the_switch ∷ [])) told_by_time }
    ensures first_resent { SendsInTurn (heeds_of (the_plug ∷ [])) first_resent }
    ensures second_resent { SendsInTurn (heeds_of (the_plug ∷ [])) second_resent }
    ensures told_once { SendsInTurn (heeds_of (the_switch ∷ [])) told_once }
    ensures told_twice { SendsInTurn (heeds_of (the_switch ∷ [])) told_twice }
    ensures told_as_numbered { SendsInTurn (heeds_of (the_switch ∷ [])) told_as_numbered }
    ensures told_by_time_as_numbered { SendsInTurn (heeds_of (the_switch ∷ [])) told_by_time_as_numbered }
    ensures overrun { SendsInTurn (heeds_of (the_switch ∷ [])) copied_after_overrun }
    ensures following_interview { SendsInTurn (heeds_of (the_switch ∷ [])) asked_after_interview }
    ensures as_chip_writes { SendsInTurn (heeds_of (the_switch ∷ the_sensor ∷ [])) told_as_chip_writes }
    ensures after_restart { SendsInTurn (heeds_of (the_keeper ∷ [])) told_after_restart }
    ensures in_one_line { SendsInTurn (heeds_of (the_keeper ∷ [])) (told_after_report (asked_at_once both_frames)) }
    ensures in_one_read { SendsInTurn (heeds_of (the_keeper ∷ [])) (told_after_report (asked_at_once (codes "chip"))) }
    ensures as_heard { SendsInTurn (heeds_of (the_keeper ∷ [])) (told_after_report (asked_as_heard (codes "chip"))) }
{}

/// Each of these breaks one part of the law: a line refused that has just room, or for fewer than 64 that wait, or let in that has none; a
/// message dropped though 63 wait, of another node, twice, or not though 64 do.
pub fn rejected_queue()
    ensures room { FitsQueue (heeds_of (the_switch ∷ [])) refused_with_room → ⊥ }
    ensures full { FitsQueue (heeds_of (the_switch ∷ [])) let_in_though_full → ⊥ }
    ensures dropped { FitsQueue (heeds_of (the_switch ∷ the_sensor ∷ [])) dropped_with_room → ⊥ }
    ensures waits { FitsQueue (heeds_of (the_switch ∷ the_sensor ∷ [])) waits_though_full → ⊥ }
    ensures reported { FitsQueue (heeds_of (the_switch ∷ the_lock ∷ [])) reported_though_full → ⊥ }
    ensures fewer { FitsQueue (heeds_of (the_switch ∷ [])) refused_for_fewer → ⊥ }
    ensures dropped_of_another { FitsQueue (heeds_of (the_switch ∷ the_sensor ∷ [])) dropped_of_another → ⊥ }
    ensures twice { FitsQueue (heeds_of (the_switch ∷ [])) dropped_twice → ⊥ }
    ensures in_tick { FitsQueue (heeds_of (the_switch ∷ [])) undropped_in_tick → ⊥ }
    ensures before_session { FitsQueue (heeds_of (the_switch ∷ [])) undropped_before_session → ⊥ }
    ensures before_unit { FitsQueue (heeds_of (the_switch ∷ [])) undropped_before_unit → ⊥ }
{}

/// Each of these breaks one part of the law: a fifth copy, and one of what was acknowledged; a question sent before an earlier one, that no line asks
/// for, of a line that is refused, or from before a restart; a Nonce Get sent before a Nonce Report, and a report that was not kept; a segment with
/// another id, inside another one, beyond the last, of a session that has ended, or of a message that has none; No More Information sent while a
/// command waits, to a node that has not joined, is not known, is asleep, listens or is held, also where it listened as its command went unanswered,
/// again where it has failed, out of turn, or before a nonce for which it asked in the same line, and not before one for which it asks in the next;
/// the message of a session sent after its end, or after three attempts for no such reason as above; and a Get sent before an abort that is owed, or an
/// abort that is not.
pub fn rejected_turns()
    ensures out_of_turn { SendsInTurn (heeds_of (the_switch ∷ [])) sent_out_of_turn → ⊥ }
    ensures unasked { SendsInTurn (heeds_of (the_switch ∷ [])) sent_unasked → ⊥ }
    ensures before_report { SendsInTurn (heeds_of (the_lock ∷ [])) sent_before_report → ⊥ }
    ensures waiting { SendsInTurn (heeds_of (the_sensor ∷ [])) told_while_waiting → ⊥ }
    ensures before_abort { SendsInTurn (heeds_of (the_switch ∷ [])) sent_before_abort → ⊥ }
    ensures aborted { SendsInTurn (heeds_of (the_switch ∷ [])) aborted_unasked → ⊥ }
    ensures following_end { SendsInTurn (heeds_of (the_switch ∷ [])) sent_after_end → ⊥ }
    ensures fifth { SendsInTurn (heeds_of (the_switch ∷ [])) sent_fifth → ⊥ }
    ensures again { SendsInTurn (heeds_of (the_switch ∷ [])) sent_again → ⊥ }
    ensures for_nothing { SendsInTurn (heeds_of (the_switch ∷ [])) sent_for_nothing → ⊥ }
    ensures other_command { SendsInTurn (heeds_of (the_switch ∷ [])) sent_by_other_command → ⊥ }
    ensures in_time { SendsInTurn (heeds_of (the_switch ∷ [])) sent_in_time → ⊥ }
    ensures too_soon { SendsInTurn (heeds_of (the_switch ∷ [])) sent_too_soon → ⊥ }
    ensures ended { SendsInTurn (heeds_of (the_switch ∷ [])) (sent_when_ended endings.Success) → ⊥ }
    ensures asleep { SendsInTurn (heeds_of (the_switch ∷ [])) sent_asleep → ⊥ }
    ensures other_waking { SendsInTurn (heeds_of (the_switch ∷ [])) sent_by_other_waking → ⊥ }
    ensures refused_restart { SendsInTurn (heeds_of (the_switch ∷ [])) sent_by_refused_restart → ⊥ }
    ensures over_restart { SendsInTurn (heeds_of (the_switch ∷ [])) sent_over_restart → ⊥ }
    ensures to_other { SendsInTurn (heeds_of (the_switch ∷ [])) sent_to_other → ⊥ }
    ensures probed { SendsInTurn (heeds_of (the_switch ∷ [])) probed_out_of_turn → ⊥ }
    ensures refused { SendsInTurn (heeds_of (the_switch ∷ [])) sent_refused → ⊥ }
    ensures asked_over_restart { SendsInTurn (heeds_of (the_switch ∷ [])) asked_over_restart → ⊥ }
    ensures unkept { SendsInTurn (heeds_of (the_switch ∷ [])) reported_unkept → ⊥ }
    ensures unjoined { SendsInTurn (heeds_of (the_switch ∷ [])) told_unjoined → ⊥ }
    ensures unknown { SendsInTurn (heeds_of (the_switch ∷ [])) told_unknown → ⊥ }
    ensures told_asleep { SendsInTurn (heeds_of (the_switch ∷ [])) told_asleep → ⊥ }
    ensures listening { SendsInTurn (heeds_of (the_switch ∷ [])) told_listening → ⊥ }
    ensures held { SendsInTurn (heeds_of (the_switch ∷ [])) told_while_held → ⊥ }
    ensures though_held { SendsInTurn (heeds_of (the_switch ∷ [])) told_though_held → ⊥ }
    ensures told_out_of_turn { SendsInTurn (heeds_of (the_switch ∷ [])) told_out_of_turn → ⊥ }
    ensures other_segment { SendsInTurn (heeds_of (the_plug ∷ [])) resent_of_other → ⊥ }
    ensures inside_segment { SendsInTurn (heeds_of (the_plug ∷ [])) resent_inside → ⊥ }
    ensures beyond_segment { SendsInTurn (heeds_of (the_plug ∷ [])) resent_beyond → ⊥ }
    ensures ended_segment { SendsInTurn (heeds_of (the_plug ∷ [])) resent_when_ended → ⊥ }
    ensures plain_segment { SendsInTurn (heeds_of (the_switch ∷ [])) resent_of_plain → ⊥ }
    ensures failed_session { SendsInTurn (heeds_of (the_switch ∷ [])) (sent_when_ended endings.Fail) → ⊥ }
    ensures unsupported_session { SendsInTurn (heeds_of (the_switch ∷ [])) (sent_when_ended endings.NoSupport) → ⊥ }
    ensures again_as_chip_writes { SendsInTurn (heeds_of (the_switch ∷ the_sensor ∷ [])) told_again_as_chip_writes → ⊥ }
    ensures aborted_early { SendsInTurn (heeds_of (the_switch ∷ [])) aborted_early → ⊥ }
    ensures before_nonce { SendsInTurn (heeds_of (the_keeper ∷ [])) (told_before_report (asked_at_once (codes "chip"))) → ⊥ }
    ensures before_nonce_heard { SendsInTurn (heeds_of (the_keeper ∷ [])) (told_before_report (asked_as_heard (codes "chip"))) → ⊥ }
    ensures in_two_lines { SendsInTurn (heeds_of (the_keeper ∷ [])) reported_before_told → ⊥ }
{}
