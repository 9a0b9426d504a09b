//! What the laws of how requests end say of worked transcripts, and of others with one thing wrong.

ghost use Rattle.std.specs.Prelude.{[], ◌∷◌};
ghost use Rattle.law_time.specs.Errands.{SaysHowDone};
ghost use Rattle.law_time.specs.Interviews.{EndsInterviews};
ghost use Rattle.law_time.specs.Questions.{AnswersQuestions};
ghost use Rattle.law_time.specs.WorkedLate.{late_answer};
ghost use Rattle.law_time.specs.WorkedWaits.{answered_errands, not_idle_errand, refused_errand, unrouted_errand, silent_request, woken_before_restart};
ghost use Rattle.law_time.specs.WrongEntries.{
  said_of_another,
  said_not_idle,
  refused_as_not_idle,
  said_unrouted,
  neighbours_of_another,
  failed_otherwise,
  answered_late,
  interviewed_of_another,
  failed_unknown,
  interviewed_unknown,
};
ghost use Rattle.law_time.specs.WrongRequests.{
  answered_of_another,
  answered_otherwise,
  failed_though_informed,
  interviewed_early,
  left_unanswered,
  left_unended,
  left_unsaid,
  said_early,
  said_given_up,
  said_otherwise,
  said_refused,
  said_unasked,
  silent_early,
  silent_too_soon,
};
ghost use Rattle.law_wire.specs.law_transcript.Nodes.{always, listing_of};
ghost use Rattle.law_wire.specs.law_transcript.Worked.{
  cancelled_order,
  long_message,
  lossy_exchange,
  plain_exchange,
  repeated_exchange,
  restarted_host,
  sealed_exchange,
  sleeping_node,
  the_lock,
  the_plug,
  the_sensor,
  the_switch,
};
ghost use Rattle.law_wire.specs.law_transcript.WorkedCases.{the_dimmer};
ghost use Rattle.law_time.specs.WorkedEnds.{
  acknowledged_after_stray,
  acknowledged_last,
  delivered_after_unread,
  delivered_before_denied,
  delivered_last,
  delivered_unanswered,
  failed_errand,
  given_up_at_answer,
  given_up_errand,
  given_up_in_time,
  refused_after_others,
  said_after_changed,
  said_by_old_list,
  said_after_lost,
  said_after_overrun,
  silent_before_given_up,
  silent_before_response,
  silent_after_response,
  informed_after_lost,
  informed_twice,
  informed_unkept,
  interview_given_up,
  interview_refused,
  interview_uninformed,
  answered_after_lost,
  denied_with_response,
  silent_later,
  informed_beside_other,
  silent_after_late,
  delivered_after_refused,
  silent_beside_other,
};
ghost use Rattle.law_time.specs.WrongEnds.{
  acknowledged_late,
  delivered_after_silence,
  delivered_after_denied,
  delivered_given_up,
  given_up_though_delivered,
  given_up_though_silent,
  refused_by_later,
  said_after_unit,
  said_by_new_list,
  said_failed,
  said_of_other,
  said_to_another,
  said_twice,
  silent_given_up,
  silent_over_restart,
  silent_though_delivered,
  unsaid,
  unsaid_refused,
  failed_by_response,
  failed_by_second,
  failed_of_another,
  failed_twice,
  interviewed_of_two,
  interviewed_twice,
  interviewed_uninformed,
  left_uninformed,
  answered_twice,
  neighbours_untold,
  unsaid_after_changed,
  unsaid_after_lost,
  unsaid_after_overrun,
};
ghost use Rattle.law_time.specs.WorkedUnits.{failed, not_acknowledged, not_idle, without_route};

/// In worked transcripts it is said how each Set and Get ended that a line asked for: in each way that there is, and after an
/// acknowledgement that is lost, overrun or changed. Other frames end nothing. A Set is silent 65 ticks after its response, where that
/// comes within 15; and it may be delivered in the tick before. Four copies without an answer give it up, or the answer that denies the
/// fourth, but where a callback comes before, the fourth is acknowledged in time, or a wait ends first. A byte that is no answer, and a response that
/// cannot be read, tell nothing. What a line asked for is read by the classes that its node had listed when it was said.
pub fn worked_errands()
    ensures answered { SaysHowDone (always (listing_of (the_switch ∷ []))) answered_errands }
    ensures silent { SaysHowDone (always (listing_of (the_switch ∷ []))) silent_request }
    ensures unrouted { SaysHowDone (always (listing_of (the_switch ∷ []))) unrouted_errand }
    ensures not_idle { SaysHowDone (always (listing_of (the_switch ∷ []))) not_idle_errand }
    ensures refused { SaysHowDone (always (listing_of (the_switch ∷ []))) refused_errand }
    ensures plain { SaysHowDone (always (listing_of (the_switch ∷ []))) plain_exchange }
    ensures repeated { SaysHowDone (always (listing_of (the_switch ∷ []))) repeated_exchange }
    ensures lossy { SaysHowDone (always (listing_of (the_switch ∷ []))) lossy_exchange }
    ensures cancelled { SaysHowDone (always (listing_of (the_switch ∷ []))) cancelled_order }
    ensures restarted { SaysHowDone (always (listing_of (the_switch ∷ []))) restarted_host }
    ensures sleeping { SaysHowDone (always (listing_of (the_sensor ∷ []))) sleeping_node }
    ensures sealed { SaysHowDone (always (listing_of (the_lock ∷ []))) sealed_exchange }
    ensures cut { SaysHowDone (always (listing_of (the_plug ∷ []))) long_message }
    ensures failed { SaysHowDone (always (listing_of (the_switch ∷ []))) failed_errand }
    ensures lost { SaysHowDone (always (listing_of (the_switch ∷ []))) said_after_lost }
    ensures overrun { SaysHowDone (always (listing_of (the_switch ∷ []))) said_after_overrun }
    ensures changed { SaysHowDone (always (listing_of (the_switch ∷ []))) said_after_changed }
    ensures others { SaysHowDone (always (listing_of (the_switch ∷ []))) refused_after_others }
    ensures after_response { SaysHowDone (always (listing_of (the_switch ∷ []))) silent_after_response }
    ensures before_response { SaysHowDone (always (listing_of (the_switch ∷ []))) silent_before_response }
    ensures last { SaysHowDone (always (listing_of (the_switch ∷ []))) delivered_last }
    ensures given_up { SaysHowDone (always (listing_of (the_switch ∷ []))) given_up_errand }
    ensures denied { SaysHowDone (always (listing_of (the_switch ∷ []))) given_up_at_answer }
    ensures acknowledged_last { SaysHowDone (always (listing_of (the_switch ∷ []))) acknowledged_last }
    ensures after_stray { SaysHowDone (always (listing_of (the_switch ∷ []))) acknowledged_after_stray }
    ensures after_unread { SaysHowDone (always (listing_of (the_switch ∷ []))) delivered_after_unread }
    ensures unanswered { SaysHowDone (always (listing_of (the_switch ∷ []))) delivered_unanswered }
    ensures before_denied { SaysHowDone (always (listing_of (the_switch ∷ []))) delivered_before_denied }
    ensures silent_before { SaysHowDone (always (listing_of (the_switch ∷ []))) silent_before_given_up }
    ensures in_time { SaysHowDone (always (listing_of (the_switch ∷ []))) given_up_in_time }
    ensures later { SaysHowDone (always (listing_of (the_switch ∷ []))) silent_later }
    ensures with_response { SaysHowDone (always (listing_of (the_switch ∷ []))) denied_with_response }
    ensures after_late { SaysHowDone (always (listing_of (the_switch ∷ []))) silent_after_late }
    ensures silent_beside_other { SaysHowDone (always (listing_of (the_switch ∷ []))) silent_beside_other }
    ensures old_list { SaysHowDone (always (listing_of (the_dimmer ∷ []))) said_by_old_list }
    ensures delivered_after_refused { SaysHowDone (always (listing_of (the_switch ∷ []))) delivered_after_refused }
{}

/// In worked transcripts questions are answered as the chip answers them, after a lost acknowledgement too; a response that comes too late answers none.
pub fn worked_questions()
    ensures answered { AnswersQuestions answered_errands }
    ensures plain { AnswersQuestions plain_exchange }
    ensures late { AnswersQuestions late_answer }
    ensures repeated { AnswersQuestions repeated_exchange }
    ensures lossy { AnswersQuestions lossy_exchange }
    ensures cancelled { AnswersQuestions cancelled_order }
    ensures restarted { AnswersQuestions restarted_host }
    ensures sleeping { AnswersQuestions sleeping_node }
    ensures sealed { AnswersQuestions sealed_exchange }
    ensures cut { AnswersQuestions long_message }
    ensures lost { AnswersQuestions answered_after_lost }
{}

/// In worked transcripts interviews end as their second request does, in each way that there is, and fail where the first one had no
/// response. Information that comes twice ends none again, and where the keeper fails nothing is said of the end.
pub fn worked_interviews()
    ensures sleeping { EndsInterviews sleeping_node }
    ensures stale { EndsInterviews woken_before_restart }
    ensures plain { EndsInterviews plain_exchange }
    ensures repeated { EndsInterviews repeated_exchange }
    ensures lossy { EndsInterviews lossy_exchange }
    ensures cancelled { EndsInterviews cancelled_order }
    ensures restarted { EndsInterviews restarted_host }
    ensures sealed { EndsInterviews sealed_exchange }
    ensures cut { EndsInterviews long_message }
    ensures unknown { EndsInterviews failed_unknown }
    ensures uninformed { EndsInterviews interview_uninformed }
    ensures refused { EndsInterviews interview_refused }
    ensures given_up { EndsInterviews interview_given_up }
    ensures twice { EndsInterviews informed_twice }
    ensures lost { EndsInterviews informed_after_lost }
    ensures unkept { EndsInterviews informed_unkept }
    ensures beside_other { EndsInterviews informed_beside_other }
{}

/// Each of these breaks one part of the law: an end said before it is judged, otherwise than it was, of another node, twice, after
/// something else than its frame, or, in each way, not at all; the end of a message of a session, of one to another node or of another one
/// said as that of a Set, also of what the line would ask for later; silence before 15 ticks, before 65 after a response, after a callback,
/// or over a restart; a callback that comes as the Set has ended in silence or is given up, after the answer that ends it, or by a late
/// acknowledgement; refusal of what was taken, by the same response or a later one; a chip that was not idle where there was no route or a
/// refusal, no route where it was not idle, and failure where nobody acknowledged; and failure of the line after one copy, after a
/// callback, or after a silence.
pub fn rejected_errands()
    ensures early { SaysHowDone (always (listing_of (the_switch ∷ []))) said_early → ⊥ }
    ensures otherwise { SaysHowDone (always (listing_of (the_switch ∷ []))) said_otherwise → ⊥ }
    ensures unsaid { SaysHowDone (always (listing_of (the_switch ∷ []))) left_unsaid → ⊥ }
    ensures unasked { SaysHowDone (always (listing_of (the_switch ∷ []))) said_unasked → ⊥ }
    ensures silent { SaysHowDone (always (listing_of (the_switch ∷ []))) silent_early → ⊥ }
    ensures refused { SaysHowDone (always (listing_of (the_switch ∷ []))) said_refused → ⊥ }
    ensures given_up { SaysHowDone (always (listing_of (the_switch ∷ []))) said_given_up → ⊥ }
    ensures too_soon { SaysHowDone (always (listing_of (the_switch ∷ []))) silent_too_soon → ⊥ }
    ensures said_of_another { SaysHowDone (always (listing_of (the_switch ∷ []))) said_of_another → ⊥ }
    ensures said_not_idle { SaysHowDone (always (listing_of (the_switch ∷ []))) said_not_idle → ⊥ }
    ensures refused_as_not_idle { SaysHowDone (always (listing_of (the_switch ∷ []))) refused_as_not_idle → ⊥ }
    ensures said_unrouted { SaysHowDone (always (listing_of (the_switch ∷ []))) said_unrouted → ⊥ }
    ensures said_failed { SaysHowDone (always (listing_of (the_switch ∷ []))) said_failed → ⊥ }
    ensures unsaid_unacknowledged { SaysHowDone (always (listing_of (the_switch ∷ []))) (unsaid not_acknowledged) → ⊥ }
    ensures unsaid_failed { SaysHowDone (always (listing_of (the_switch ∷ []))) (unsaid failed) → ⊥ }
    ensures unsaid_not_idle { SaysHowDone (always (listing_of (the_switch ∷ []))) (unsaid not_idle) → ⊥ }
    ensures unsaid_unrouted { SaysHowDone (always (listing_of (the_switch ∷ []))) (unsaid without_route) → ⊥ }
    ensures unsaid_refused { SaysHowDone (always (listing_of (the_switch ∷ []))) unsaid_refused → ⊥ }
    ensures after_unit { SaysHowDone (always (listing_of (the_switch ∷ []))) said_after_unit → ⊥ }
    ensures twice { SaysHowDone (always (listing_of (the_switch ∷ []))) said_twice → ⊥ }
    ensures by_later { SaysHowDone (always (listing_of (the_switch ∷ []))) refused_by_later → ⊥ }
    ensures to_another { SaysHowDone (always (listing_of (the_switch ∷ []))) said_to_another → ⊥ }
    ensures of_other { SaysHowDone (always (listing_of (the_switch ∷ []))) said_of_other → ⊥ }
    ensures though_delivered { SaysHowDone (always (listing_of (the_switch ∷ []))) silent_though_delivered → ⊥ }
    ensures after_silence { SaysHowDone (always (listing_of (the_switch ∷ []))) delivered_after_silence → ⊥ }
    ensures delivered_given_up { SaysHowDone (always (listing_of (the_switch ∷ []))) delivered_given_up → ⊥ }
    ensures after_denied { SaysHowDone (always (listing_of (the_switch ∷ []))) delivered_after_denied → ⊥ }
    ensures acknowledged_late { SaysHowDone (always (listing_of (the_switch ∷ []))) acknowledged_late → ⊥ }
    ensures given_up_delivered { SaysHowDone (always (listing_of (the_switch ∷ []))) given_up_though_delivered → ⊥ }
    ensures given_up_silent { SaysHowDone (always (listing_of (the_switch ∷ []))) given_up_though_silent → ⊥ }
    ensures silent_given_up { SaysHowDone (always (listing_of (the_switch ∷ []))) silent_given_up → ⊥ }
    ensures over_restart { SaysHowDone (always (listing_of (the_switch ∷ []))) silent_over_restart → ⊥ }
    ensures new_list { SaysHowDone (always (listing_of (the_dimmer ∷ []))) said_by_new_list → ⊥ }
    ensures unsaid_after_lost { SaysHowDone (always (listing_of (the_switch ∷ []))) unsaid_after_lost → ⊥ }
    ensures unsaid_after_overrun { SaysHowDone (always (listing_of (the_switch ∷ []))) unsaid_after_overrun → ⊥ }
    ensures unsaid_after_changed { SaysHowDone (always (listing_of (the_switch ∷ []))) unsaid_after_changed → ⊥ }
{}

/// Each of these breaks one part of the law: a question of either kind that is answered otherwise, of another node, too late, or not; and
/// one that is answered twice.
pub fn rejected_questions()
    ensures answered_otherwise { AnswersQuestions answered_otherwise → ⊥ }
    ensures another { AnswersQuestions answered_of_another → ⊥ }
    ensures unanswered { AnswersQuestions left_unanswered → ⊥ }
    ensures neighbours { AnswersQuestions neighbours_of_another → ⊥ }
    ensures failed { AnswersQuestions failed_otherwise → ⊥ }
    ensures late { AnswersQuestions answered_late → ⊥ }
    ensures untold { AnswersQuestions neighbours_untold → ⊥ }
    ensures twice { AnswersQuestions answered_twice → ⊥ }
{}

/// Each of these breaks one part of the law: an interview that succeeds too early, of another node, twice, though its first request had no
/// response or was of another node, or though no information came; that fails though the information came, of another node, twice, by
/// information after its end, or by a second response; and one that does not end by either notice.
pub fn rejected_interviews()
    ensures interviewed_early { EndsInterviews interviewed_early → ⊥ }
    ensures informed { EndsInterviews failed_though_informed → ⊥ }
    ensures unended { EndsInterviews left_unended → ⊥ }
    ensures interviewed_of_another { EndsInterviews interviewed_of_another → ⊥ }
    ensures unknown { EndsInterviews interviewed_unknown → ⊥ }
    ensures failed_of_another { EndsInterviews failed_of_another → ⊥ }
    ensures failed_twice { EndsInterviews failed_twice → ⊥ }
    ensures failed_by_second { EndsInterviews failed_by_second → ⊥ }
    ensures uninformed { EndsInterviews interviewed_uninformed → ⊥ }
    ensures twice { EndsInterviews interviewed_twice → ⊥ }
    ensures left_uninformed { EndsInterviews left_uninformed → ⊥ }
    ensures of_two { EndsInterviews interviewed_of_two → ⊥ }
    ensures by_response { EndsInterviews failed_by_response → ⊥ }
{}
