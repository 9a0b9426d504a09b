//! What the laws of answers and of stored values say of worked transcripts, and of others with one thing wrong.

ghost use Rattle.std.specs.Prelude.{◌≡◌, true, false, [], ◌∷◌, ◌++◌, Some, None, codes};
ghost use Rattle.zw_base.specs.declared.property.Name.TheVariants as names;
ghost use Rattle.zw_text.specs.declared.entry.Ended.TheVariants as endings;
ghost use Rattle.zw_text.specs.declared.entry.Refusal.TheVariants as refusals;
ghost use Rattle.zw_text.specs.declared.entry.Entry.TheVariants.{Accepted, Refused, Begin};
ghost use Rattle.law_transcript.specs.Nodes.{always, listing_of};
ghost use Rattle.law_transcript.specs.Answers.{AnswersLines, CancelsWhenAsked, ReadsItsRecords, answer_to, properties_with};
ghost use Rattle.law_transcript.specs.Stores.{StoresConfirmed, heard_value};
ghost use Rattle.law_transcript.specs.Worked.{
  plain_exchange,
  repeated_exchange,
  lossy_exchange,
  cancelled_order,
  restarted_host,
  sleeping_node,
  sealed_exchange,
  refused_lines,
  long_message,
  the_switch,
  the_sensor,
  the_lock,
  the_plug,
};
ghost use Rattle.law_transcript.specs.WorkedCases.{ended_so, cancel_unkept, turn_on, mode_order, level_order, group_order, bulk_order, all_list, switch_at};
ghost use Rattle.law_transcript.specs.WorkedWrongHost.{
  unanswered,
  unanswered_at_last,
  failed_for_nothing,
  line_refused,
  line_numbered,
  refused_freely,
  numbered_wrongly,
  numbered_for_another,
  answered_unasked,
  refused_unasked,
  joined_at_last,
  joined_again,
  cancelled_unasked,
  cancelled_late,
  cancelled_another,
  cancel_refused,
  passed_over,
  not_stored,
  stored_otherwise,
  stored_before,
  stored_first,
  stored_elsewhere,
};
ghost use Rattle.law_transcript.specs.WorkedWrongLines.{
  passes,
  refused_so,
  lets_in,
  when_joined,
  when_interviewed,
  when_failed,
  when_refused,
  when_known,
  the_relay,
  bulk_of,
  many_reported,
  wait_from,
  reported_twice,
  reported_before_restart,
  reported_before_fault,
  cancel_passes,
};

/// In worked transcripts each line has the answer that is due.
pub fn worked_answers()
    ensures plain { AnswersLines true (the_switch ∷ []) plain_exchange }
    ensures repeated { AnswersLines true (the_switch ∷ []) repeated_exchange }
    ensures lossy { AnswersLines true (the_switch ∷ []) lossy_exchange }
    ensures cancelled { AnswersLines true (the_switch ∷ []) cancelled_order }
    ensures restarted { AnswersLines true (the_switch ∷ []) restarted_host }
    ensures sleeping { AnswersLines true (the_sensor ∷ []) sleeping_node }
    ensures sealed { AnswersLines true (the_lock ∷ []) sealed_exchange }
    ensures cut { AnswersLines true (the_plug ∷ []) long_message }
    ensures refused { AnswersLines true (the_switch ∷ []) refused_lines }
{}

/// What is left open: a run may end before the answer, the keeper may fail for an order, a `cancel`, a `join` and a `restart`, a `restart` may find a
/// bad record, and the queue may be full for each line that asks for a place in it.
pub fn worked_choices()
    ensures stopped { AnswersLines false (the_switch ∷ []) unanswered_at_last }
    ensures order_unkept { AnswersLines true (the_switch ∷ []) (refused_so (codes "set 2 on") refusals.KeeperFault) }
    ensures cancel_unkept { AnswersLines true (the_switch ∷ []) cancel_unkept }
    ensures join_unkept { AnswersLines true (the_switch ∷ []) (refused_so (codes "join 5") refusals.KeeperFault) }
    ensures restart_unkept { AnswersLines true (the_switch ∷ []) (refused_so (codes "restart") refusals.KeeperFault) }
    ensures bad { AnswersLines true (the_switch ∷ []) (refused_so (codes "restart") (refusals.BadRecord 3)) }
    ensures reads { ReadsItsRecords (refused_so (codes "restart") refusals.KeeperFault) }
    ensures send { AnswersLines true (the_switch ∷ []) (refused_so (codes "send 2 on") (refusals.QueueFull 64)) }
    ensures get { AnswersLines true (the_switch ∷ []) (refused_so (codes "get 2") (refusals.QueueFull 64)) }
    ensures interview { AnswersLines true (the_switch ∷ []) (refused_so (codes "interview 2") (refusals.QueueFull 64)) }
    ensures discover { AnswersLines true (the_switch ∷ []) (refused_so (codes "discover") (refusals.QueueFull 64)) }
    ensures neighbours { AnswersLines true (the_switch ∷ []) (refused_so (codes "neighbours 2") (refusals.QueueFull 64)) }
    ensures failed { AnswersLines true (the_switch ∷ []) (refused_so (codes "failed 2") (refusals.QueueFull 64)) }
    ensures probe { AnswersLines true (the_switch ∷ []) (refused_so (codes "probe") (refusals.QueueFull 64)) }
{}

/// In worked transcripts a command is taken back where a line asks for it.
pub fn worked_cancels()
    ensures plain { CancelsWhenAsked plain_exchange }
    ensures repeated { CancelsWhenAsked repeated_exchange }
    ensures lossy { CancelsWhenAsked lossy_exchange }
    ensures cancelled { CancelsWhenAsked cancelled_order }
    ensures restarted { CancelsWhenAsked restarted_host }
    ensures sleeping { CancelsWhenAsked sleeping_node }
    ensures sealed { CancelsWhenAsked sealed_exchange }
    ensures cut { CancelsWhenAsked long_message }
{}

/// In worked transcripts the values entered as confirmed are those of the successful commands; where the run was cut off the last may lack.
pub fn worked_stores()
    ensures plain { StoresConfirmed true (always (listing_of (the_switch ∷ []))) plain_exchange }
    ensures repeated { StoresConfirmed true (always (listing_of (the_switch ∷ []))) repeated_exchange }
    ensures lossy { StoresConfirmed true (always (listing_of (the_switch ∷ []))) lossy_exchange }
    ensures cancelled { StoresConfirmed true (always (listing_of (the_switch ∷ []))) cancelled_order }
    ensures restarted { StoresConfirmed true (always (listing_of (the_switch ∷ []))) restarted_host }
    ensures sleeping { StoresConfirmed true (always (listing_of (the_sensor ∷ []))) sleeping_node }
    ensures sealed { StoresConfirmed true (always (listing_of (the_lock ∷ []))) sealed_exchange }
    ensures cut { StoresConfirmed true (always (listing_of (the_plug ∷ []))) long_message }
    ensures stopped { StoresConfirmed false (always (listing_of (the_switch ∷ []))) (ended_so endings.Success) }
{}

/// Each of these breaks one part of the laws: an order without its answer, also as the last line, refused for nothing, with a wrong number, with that of
/// another node, or failed by the keeper though it is refused anyway; an answer or a refusal after no line; another line refused for nothing, or with a
/// number, or let pass though it should have been refused, also as the last line; a command taken back unasked, after it began, for another one, or not
/// though a line asks for it, also where that is refused; and a success that confirms nothing, or another value, or one of another node, which no run
/// may, or too late, after all or before all.
pub fn rejected_answers()
    ensures unanswered { AnswersLines true (the_switch ∷ []) unanswered → ⊥ }
    ensures at_last { AnswersLines true (the_switch ∷ []) unanswered_at_last → ⊥ }
    ensures failed { AnswersLines true (the_switch ∷ []) failed_for_nothing → ⊥ }
    ensures line_refused { AnswersLines true (the_switch ∷ []) line_refused → ⊥ }
    ensures line_numbered { AnswersLines true (the_switch ∷ []) line_numbered → ⊥ }
    ensures freely { AnswersLines true (the_switch ∷ []) refused_freely → ⊥ }
    ensures wrongly { AnswersLines true (the_switch ∷ []) numbered_wrongly → ⊥ }
    ensures for_another { AnswersLines true (the_switch ∷ []) numbered_for_another → ⊥ }
    ensures unasked { AnswersLines true (the_switch ∷ []) answered_unasked → ⊥ }
    ensures refused_unasked { AnswersLines true (the_switch ∷ []) refused_unasked → ⊥ }
    ensures joined_at_last { AnswersLines true (the_switch ∷ []) joined_at_last → ⊥ }
    ensures again { AnswersLines true (the_switch ∷ []) joined_again → ⊥ }
    ensures cancelled { CancelsWhenAsked cancelled_unasked → ⊥ }
    ensures late { CancelsWhenAsked cancelled_late → ⊥ }
    ensures another { AnswersLines true (the_switch ∷ []) cancelled_another → ⊥ }
    ensures another_taken { CancelsWhenAsked cancelled_another → ⊥ }
    ensures cancel_refused { AnswersLines true (the_switch ∷ []) cancel_refused → ⊥ }
    ensures passed { AnswersLines true (the_switch ∷ []) passed_over → ⊥ }
    ensures not_stored { StoresConfirmed true (always (listing_of (the_switch ∷ []))) not_stored → ⊥ }
    ensures otherwise { StoresConfirmed false (always (listing_of (the_switch ∷ []))) stored_otherwise → ⊥ }
    ensures elsewhere { StoresConfirmed false (always (listing_of (the_switch ∷ []))) stored_elsewhere → ⊥ }
    ensures before { StoresConfirmed true (always (listing_of (the_switch ∷ []))) stored_before → ⊥ }
    ensures first { StoresConfirmed true (always (listing_of (the_switch ∷ []))) stored_first → ⊥ }
{}

/// The heard value is that of the last report, and none after a restart that is not refused.
pub fn worked_heard()
    ensures last { heard_value reported_twice 2 (record { end = 0; name = names.Switch }) ≡ Some 0 }
    ensures other { heard_value reported_twice 2 (record { end = 0; name = names.Level }) ≡ None }
    ensures node { heard_value reported_twice 3 (record { end = 0; name = names.Switch }) ≡ None }
    ensures restarted { heard_value reported_before_restart 2 (record { end = 0; name = names.Switch }) ≡ None }
    ensures refused { heard_value reported_before_fault 2 (record { end = 0; name = names.Switch }) ≡ Some 0 }
{}

/// A line that is to be refused is refused as the first rule that applies says: for a class or Supervision that the node does not list, for a message
/// that is too long, and for a node that takes sealed messages alone. One byte less is let in, and so is a 512th property.
pub fn worked_refusals()
    ensures unsupported { AnswersLines true (the_switch ∷ []) (refused_so (codes "mode 2 1") (refusals.Unsupported 0x40)) }
    ensures unsupervised { AnswersLines true (the_relay ∷ []) (when_known (codes "join 3") 3 (refused_so (codes "set 3 on") refusals.Unsupervised)) }
    ensures long { AnswersLines true (the_plug ∷ []) (when_known (codes "join 8") 8 (refused_so (bulk_of 250) (refusals.TooLong 256))) }
    ensures longest { AnswersLines true (the_plug ∷ []) (when_known (codes "join 8") 8 (lets_in (bulk_of 249) 8)) }
    ensures stored { AnswersLines true (the_switch ∷ []) (many_reported 511 ++ lets_in (codes "set 2 on") 2) }
    ensures send_secured { AnswersLines true (the_lock ∷ []) (when_known (codes "join 4") 4 (refused_so (codes "send 4 on") refusals.Secured)) }
    ensures get_secured { AnswersLines true (the_lock ∷ []) (when_known (codes "join 4") 4 (refused_so (codes "get 4") refusals.Secured)) }
{}

/// Just below each bound an order is let in, and at it refused: 16 commands that wait and have not begun, 512 properties, and for whatever
/// classes 46 bytes where a message is sent uncut and 26 where it is sealed.
pub fn worked_bounds()
    ensures mailbox_below { answer_to (always (listing_of (the_switch ∷ []))) (wait_from (codes "set 2 on") 2 1 15) turn_on ≡ Accepted 16 2 ∷ [] }
    ensures mailbox_at { answer_to (always (listing_of (the_switch ∷ []))) (wait_from (codes "set 2 on") 2 1 16) turn_on ≡
        Refused (refusals.MailboxFull 16) ∷ [] }
    ensures begun { answer_to (always (listing_of (the_switch ∷ []))) (wait_from (codes "set 2 on") 2 1 16 ++ Begin 2 1 1 ∷ []) turn_on ≡ Accepted 17 2 ∷ [] }
    ensures store_at { answer_to (always (listing_of (the_switch ∷ []))) (many_reported 512) turn_on ≡ Refused (refusals.StoreFull 512) ∷ [] }
    ensures uncut_below { answer_to (all_list (0x70 ∷ 0x6C ∷ [])) (when_known (codes "join 8") 8 []) (bulk_order 36) ≡ Accepted 1 8 ∷ [] }
    ensures uncut_at { answer_to (all_list (0x70 ∷ 0x6C ∷ [])) (when_known (codes "join 8") 8 []) (bulk_order 37) ≡ Refused (refusals.TooLong 47) ∷ [] }
    ensures sealed_below { answer_to (all_list (0x70 ∷ 0x98 ∷ 0x6C ∷ [])) (when_known (codes "join 8") 8 []) (bulk_order 16) ≡ Accepted 1 8 ∷ [] }
    ensures sealed_at { answer_to (all_list (0x70 ∷ 0x98 ∷ 0x6C ∷ [])) (when_known (codes "join 8") 8 []) (bulk_order 17) ≡ Refused (refusals.TooLong 27) ∷ [] }
{}

/// Of two rules that apply the first refuses: a class before a value, a value before Supervision, Supervision before the length, the length before the
/// mailbox, and the mailbox before the properties.
pub fn worked_first()
    ensures unlisted { answer_to (always (listing_of (the_switch ∷ []))) [] mode_order ≡ Refused (refusals.Unsupported 0x40) ∷ [] }
    ensures value { answer_to (always (listing_of (the_relay ∷ []))) (when_known (codes "join 3") 3 []) level_order ≡ Refused refusals.BadValue ∷ [] }
    ensures supervision { answer_to (all_list (0x70 ∷ 0x55 ∷ [])) (when_known (codes "join 8") 8 []) (bulk_order 250) ≡ Refused refusals.Unsupervised ∷ [] }
    ensures long { answer_to (always (listing_of (the_plug ∷ []))) (when_known (codes "join 8") 8 (wait_from (bulk_of 1) 8 1 16)) (bulk_order 250) ≡
        Refused (refusals.TooLong 256) ∷ [] }
    ensures mailbox { answer_to (always (listing_of (the_switch ∷ []))) (many_reported 512 ++ wait_from (codes "set 2 on") 2 1 16) turn_on ≡
        Refused (refusals.MailboxFull 16) ∷ [] }
{}

/// The properties of a node are those that its accepted commands set, those that it has reported since the last restart, and those of the order, each once.
pub fn worked_properties()
    ensures accepted { properties_with (always (listing_of (the_switch ∷ []))) (lets_in (codes "set 2 on") 2) group_order ≡ 2 }
    ensures again { properties_with (always (listing_of (the_switch ∷ []))) (lets_in (codes "set 2 on") 2) turn_on ≡ 1 }
    ensures reported { properties_with (always (listing_of (the_switch ∷ []))) reported_twice group_order ≡ 2 }
    ensures restarted { properties_with (always (listing_of (the_switch ∷ []))) reported_before_restart group_order ≡ 1 }
{}

/// A line of each kind that is to be refused does not pass, nor is it refused by a later rule than the first that applies: an order for a
/// node that has not joined, or by a line that was refused, is not known, or by an interview that failed, does not list its class or
/// Supervision, with a bad value, too long a message, where 16 wait, or with a 513th property; a Set and a Get for such a node, or for one
/// that takes sealed messages alone; and the other lines. None is refused for a queue in which fewer than 64 wait or that it does not ask,
/// for a keeper that it does not ask, or for its records.
pub fn rejected_lines()
    ensures joined { AnswersLines true (switch_at 3 ∷ []) (when_interviewed (lets_in (codes "set 3 on") 3)) → ⊥ }
    ensures joined_first { AnswersLines true (the_switch ∷ []) (refused_so (codes "set 3 on") refusals.NotInterviewed) → ⊥ }
    ensures known { AnswersLines true (the_switch ∷ []) (when_joined (refused_so (codes "set 3 on") (refusals.Unsupported 0x25))) → ⊥ }
    ensures refused_join { AnswersLines true (switch_at 3 ∷ []) (when_refused (lets_in (codes "set 3 on") 3)) → ⊥ }
    ensures failed_interview { AnswersLines true (switch_at 3 ∷ []) (when_failed (lets_in (codes "set 3 on") 3)) → ⊥ }
    ensures value { AnswersLines true (the_switch ∷ []) (lets_in (codes "set 2 40") 2) → ⊥ }
    ensures unsupported { AnswersLines true (the_switch ∷ []) (lets_in (codes "mode 2 1") 2) → ⊥ }
    ensures unsupervised { AnswersLines true (the_relay ∷ []) (when_known (codes "join 3") 3 (lets_in (codes "set 3 on") 3)) → ⊥ }
    ensures long { AnswersLines true (the_plug ∷ []) (when_known (codes "join 8") 8 (lets_in (bulk_of 250) 8)) → ⊥ }
    ensures full { AnswersLines true (the_switch ∷ []) (wait_from (codes "set 2 on") 2 1 17) → ⊥ }
    ensures store { AnswersLines true (the_switch ∷ []) (many_reported 512 ++ lets_in (codes "set 2 on") 2) → ⊥ }
    ensures send_joined { AnswersLines true (switch_at 3 ∷ []) (when_interviewed (passes (codes "send 3 on"))) → ⊥ }
    ensures send_known { AnswersLines true (the_switch ∷ []) (when_joined (refused_so (codes "send 3 on") (refusals.Unsupported 0x25))) → ⊥ }
    ensures send_secured { AnswersLines true (the_lock ∷ []) (when_known (codes "join 4") 4 (refused_so (codes "send 4 on") (refusals.Unsupported 0x25))) → ⊥ }
    ensures send_unsupported { AnswersLines true (the_plug ∷ []) (when_known (codes "join 8") 8 (passes (codes "send 8 on"))) → ⊥ }
    ensures send_value { AnswersLines true (the_switch ∷ []) (passes (codes "send 2 40")) → ⊥ }
    ensures get_joined { AnswersLines true (switch_at 3 ∷ []) (when_interviewed (passes (codes "get 3"))) → ⊥ }
    ensures get_known { AnswersLines true (the_switch ∷ []) (when_joined (refused_so (codes "get 3") (refusals.Unsupported 0x25))) → ⊥ }
    ensures get_secured { AnswersLines true (the_lock ∷ []) (when_known (codes "join 4") 4 (passes (codes "get 4"))) → ⊥ }
    ensures get_unsupported { AnswersLines true (the_plug ∷ []) (when_known (codes "join 8") 8 (passes (codes "get 8"))) → ⊥ }
    ensures get_end { AnswersLines true (the_switch ∷ []) (passes (codes "get 2.1")) → ⊥ }
    ensures cancel { AnswersLines true (the_switch ∷ []) (passes (codes "cancel 1")) → ⊥ }
    ensures cancel_begun { AnswersLines true (the_switch ∷ []) cancel_passes → ⊥ }
    ensures join { AnswersLines true (the_switch ∷ []) (passes (codes "join 1")) → ⊥ }
    ensures interview { AnswersLines true (the_switch ∷ []) (passes (codes "interview 3")) → ⊥ }
    ensures repeat { AnswersLines true (the_switch ∷ []) (passes (codes "repeat 1")) → ⊥ }
    ensures wake { AnswersLines true (the_switch ∷ []) (passes (codes "wake 7")) → ⊥ }
    ensures local { AnswersLines true (the_switch ∷ []) (passes (codes "local 7 1")) → ⊥ }
    ensures show { AnswersLines true (the_switch ∷ []) (passes (codes "show 7")) → ⊥ }
    ensures queue { AnswersLines true (the_switch ∷ []) (refused_so (codes "get 2") (refusals.QueueFull 63)) → ⊥ }
    ensures queue_unasked { AnswersLines true (the_switch ∷ []) (refused_so (codes "tick 1") (refusals.QueueFull 64)) → ⊥ }
    ensures keeper { AnswersLines true (the_switch ∷ []) (refused_so (codes "get 2") refusals.KeeperFault) → ⊥ }
    ensures bad { AnswersLines true (the_switch ∷ []) (refused_so (codes "join 5") (refusals.BadRecord 1)) → ⊥ }
    ensures bad_restart { ReadsItsRecords (refused_so (codes "restart") (refusals.BadRecord 3)) → ⊥ }
{}
