//! What the law of notes says of worked transcripts, and of others with one thing wrong.

ghost use Rattle.law_time.specs.Heeds.{heeds_of};
ghost use Rattle.std.specs.Prelude.{◌∷◌, [], drop, true};
ghost use Rattle.law_host.specs.Notes.{NotesWhatHappens, first_start};
ghost use Rattle.law_host.specs.Worked.{
  after_begun,
  after_later_nonce,
  after_lock_begun,
  after_sessions,
  after_sleeper_begun,
  after_values,
  after_waking,
  begun_unkept,
  dropped_first,
  dropped_of_other,
  ended_by_first,
  ended_by_other,
  ended_by_refused,
  ended_by_work,
  ended_of_another,
  ended_openly,
  ended_sealed,
  ended_otherwise,
  failure_told,
  given_up_beside_copy,
  given_up_by_other,
  given_up_in_order,
  held_at_failure,
  hold_left_out,
  last_session,
  left_beside_copy,
  old_left_out,
  other_told,
  report_refused,
  told_openly,
  unkept_unasked,
  unread_left_out,
  unread_payload,
  unread_sealed,
  unsupported_told,
  value_again,
  value_heard,
  value_left_out,
  value_otherwise,
  value_stored_though_full,
  value_twice,
  value_unstored,
  woken,
  woken_by_another,
  work_told,
};
ghost use Rattle.law_time.specs.WorkedEnds.{asleep_given_up, asleep_in_silence, given_up_at_answer, interview_refused, interview_uninformed};
ghost use Rattle.law_time.specs.WorkedTurns.{dropped_after_report};
ghost use Rattle.law_time.specs.WorkedWaits.{answered_errands, the_other_switch, waited_attempts};
ghost use Rattle.law_time.specs.WrongEnds.{awake_after_link, awake_in_next_line};
ghost use Rattle.law_time.specs.law_transcript.Worked.{
  cancelled_order,
  lossy_exchange,
  plain_exchange,
  repeated_exchange,
  restarted_host,
  sleeping_node,
  the_lock,
  the_sensor,
  the_switch,
};

/// In worked transcripts the host notes what happens: outcomes of each kind, values, old reports and one that a lock told openly, waking and sleep,
/// interviews, questions and the ends of what lines asked for, by frames, by waits, also after a copy that stands in the same tick, and by an answer that
/// has the line give up. Commands of two nodes are given up in order in a tick in which a request of no attempt ends. The last of 65 sessions ends by its
/// report. A node is held that asks to be, a value is not stored for which there is no room, a Nonce Report is dropped where the queue is full, and a
/// session whose record is not kept does not begin. Of a report of work nothing is noted, nor of one that the line has changed
/// and the host refused, and a payload is not read that is no message, or is sealed for a nonce that is not live.
pub fn worked_notes()
    ensures plain { NotesWhatHappens [] (heeds_of (the_switch ∷ [])) first_start true plain_exchange }
    ensures repeated { NotesWhatHappens [] (heeds_of (the_switch ∷ [])) first_start true repeated_exchange }
    ensures lossy { NotesWhatHappens [] (heeds_of (the_switch ∷ [])) first_start true lossy_exchange }
    ensures cancelled { NotesWhatHappens [] (heeds_of (the_switch ∷ [])) first_start true cancelled_order }
    ensures restarted { NotesWhatHappens [] (heeds_of (the_switch ∷ [])) first_start true restarted_host }
    ensures sleeping { NotesWhatHappens [] (heeds_of (the_sensor ∷ [])) first_start true sleeping_node }
    ensures answered { NotesWhatHappens [] (heeds_of (the_switch ∷ [])) first_start true answered_errands }
    ensures waited { NotesWhatHappens [] (heeds_of (the_switch ∷ [])) first_start true waited_attempts }
    ensures beside_copy { NotesWhatHappens [] (heeds_of (the_switch ∷ [])) first_start true given_up_beside_copy }
    ensures in_order { NotesWhatHappens [] (heeds_of (the_switch ∷ the_other_switch ∷ [])) first_start true given_up_in_order }
    ensures value { NotesWhatHappens [] (heeds_of (the_switch ∷ [])) first_start true value_heard }
    ensures last { NotesWhatHappens [] (heeds_of (the_switch ∷ [])) after_sessions true last_session }
    ensures failed { NotesWhatHappens [] (heeds_of (the_switch ∷ [])) after_begun true failure_told }
    ensures unsupported { NotesWhatHappens [] (heeds_of (the_switch ∷ [])) after_begun true unsupported_told }
    ensures other { NotesWhatHappens [] (heeds_of (the_switch ∷ [])) after_begun true other_told }
    ensures openly { NotesWhatHappens [] (heeds_of (the_lock ∷ [])) after_lock_begun true told_openly }
    ensures woken { NotesWhatHappens [] (heeds_of (the_sensor ∷ [])) first_start true woken }
    ensures in_silence { NotesWhatHappens [] (heeds_of (the_sensor ∷ [])) after_waking true (drop 1 asleep_in_silence) }
    ensures given_up { NotesWhatHappens [] (heeds_of (the_sensor ∷ [])) after_waking true (drop 1 asleep_given_up) }
    ensures at_answer { NotesWhatHappens [] (heeds_of (the_switch ∷ [])) first_start true given_up_at_answer }
    ensures held { NotesWhatHappens [] (heeds_of (the_sensor ∷ [])) after_sleeper_begun true held_at_failure }
    ensures unkept { NotesWhatHappens [] (heeds_of (the_switch ∷ [])) first_start true begun_unkept }
    ensures dropped { NotesWhatHappens [] (heeds_of (the_switch ∷ [])) first_start true dropped_after_report }
    ensures working { NotesWhatHappens [] (heeds_of (the_switch ∷ [])) after_begun true work_told }
    ensures changed { NotesWhatHappens [] (heeds_of (the_switch ∷ [])) after_begun true report_refused }
    ensures none_live { NotesWhatHappens [] (heeds_of (the_lock ∷ [])) after_lock_begun true unread_sealed }
    ensures later_live { NotesWhatHappens [] (heeds_of (the_lock ∷ [])) after_later_nonce true unread_sealed }
    ensures unread { NotesWhatHappens [] (heeds_of (the_switch ∷ [])) first_start true unread_payload }
    ensures uninformed { NotesWhatHappens [] (heeds_of (the_switch ∷ [])) first_start true interview_uninformed }
    ensures refused { NotesWhatHappens [] (heeds_of (the_switch ∷ [])) first_start true interview_refused }
    ensures unstored { NotesWhatHappens [] (heeds_of (the_switch ∷ [])) after_values true value_unstored }
{}

/// Each of these breaks the law by one entry: a value that was told is left out, is entered twice, as another, again later, or without room; an old report
/// is left out, and that a command is given up after a copy; a command is given up by the end of a request of no attempt; the last of 65 sessions ends, of
/// which the report did not come, though that of the first, with the same id, once did; a command ends otherwise than its report says, as another, by the
/// report of another session, by one of work, by one that the line has changed and the host refused, or by one that a lock told openly or sealed for a
/// nonce that is not live; what is no message is left out; another node counts as awake than told so; a node still counts as awake in the line after its
/// message ended in silence, or in the tick after the line gave that up; one is not held that asks to be; a record is not kept that was not to be; and a
/// message is dropped before the value that the payload told first, or as if of another node.
pub fn rejected_notes()
    ensures left_out { NotesWhatHappens [] (heeds_of (the_switch ∷ [])) first_start true value_left_out → ⊥ }
    ensures twice { NotesWhatHappens [] (heeds_of (the_switch ∷ [])) first_start true value_twice → ⊥ }
    ensures again { NotesWhatHappens [] (heeds_of (the_switch ∷ [])) first_start true value_again → ⊥ }
    ensures beside_copy { NotesWhatHappens [] (heeds_of (the_switch ∷ [])) first_start true left_beside_copy → ⊥ }
    ensures by_other_request { NotesWhatHappens [] (heeds_of (the_switch ∷ the_other_switch ∷ [])) first_start true given_up_by_other → ⊥ }
    ensures old { NotesWhatHappens [] (heeds_of (the_switch ∷ [])) first_start true old_left_out → ⊥ }
    ensures first { NotesWhatHappens [] (heeds_of (the_switch ∷ [])) after_sessions true ended_by_first → ⊥ }
    ensures value { NotesWhatHappens [] (heeds_of (the_switch ∷ [])) first_start true value_otherwise → ⊥ }
    ensures otherwise { NotesWhatHappens [] (heeds_of (the_switch ∷ [])) after_begun true ended_otherwise → ⊥ }
    ensures of_another { NotesWhatHappens [] (heeds_of (the_switch ∷ [])) after_begun true ended_of_another → ⊥ }
    ensures by_other { NotesWhatHappens [] (heeds_of (the_switch ∷ [])) after_begun true ended_by_other → ⊥ }
    ensures openly { NotesWhatHappens [] (heeds_of (the_lock ∷ [])) after_lock_begun true ended_openly → ⊥ }
    ensures woken { NotesWhatHappens [] (heeds_of (the_sensor ∷ [])) first_start true woken_by_another → ⊥ }
    ensures next_line { NotesWhatHappens [] (heeds_of (the_sensor ∷ [])) after_waking true (drop 1 awake_in_next_line) → ⊥ }
    ensures after_link { NotesWhatHappens [] (heeds_of (the_sensor ∷ [])) after_waking true (drop 1 awake_after_link) → ⊥ }
    ensures hold { NotesWhatHappens [] (heeds_of (the_sensor ∷ [])) after_sleeper_begun true hold_left_out → ⊥ }
    ensures unkept { NotesWhatHappens [] (heeds_of (the_switch ∷ [])) first_start true unkept_unasked → ⊥ }
    ensures dropped_first { NotesWhatHappens [] (heeds_of (the_switch ∷ [])) first_start true dropped_first → ⊥ }
    ensures dropped_of_other { NotesWhatHappens [] (heeds_of (the_switch ∷ [])) first_start true dropped_of_other → ⊥ }
    ensures by_work { NotesWhatHappens [] (heeds_of (the_switch ∷ [])) after_begun true ended_by_work → ⊥ }
    ensures by_refused { NotesWhatHappens [] (heeds_of (the_switch ∷ [])) after_begun true ended_by_refused → ⊥ }
    ensures none_live { NotesWhatHappens [] (heeds_of (the_lock ∷ [])) after_lock_begun true ended_sealed → ⊥ }
    ensures later_live { NotesWhatHappens [] (heeds_of (the_lock ∷ [])) after_later_nonce true ended_sealed → ⊥ }
    ensures unread { NotesWhatHappens [] (heeds_of (the_switch ∷ [])) first_start true unread_left_out → ⊥ }
    ensures stored { NotesWhatHappens [] (heeds_of (the_switch ∷ [])) after_values true value_stored_though_full → ⊥ }
{}
