//! What the once-only law says of worked transcripts, and of others like them with one thing wrong.

ghost use Rattle.std.specs.Prelude.{◌≡◌, [], ◌∷◌, Some, None};
ghost use Rattle.zw_base.specs.declared.property.Name.TheVariants as names;
ghost use Rattle.zw_text.specs.declared.entry.Ended.TheVariants as endings;
ghost use Rattle.law_transcript.specs.Nodes.{always, listing_of};
ghost use Rattle.law_transcript.specs.Sessions.{KeepsSessions};
ghost use Rattle.law_transcript.specs.Once.{Once, SucceedsAfterChange};
ghost use Rattle.law_transcript.specs.Values.{ConfirmsLast, confirmed};
ghost use Rattle.law_transcript.specs.Headline.{Headline};
ghost use Rattle.law_transcript.specs.Worked.{
  plain_exchange,
  repeated_exchange,
  lossy_exchange,
  cancelled_order,
  restarted_host,
  sleeping_node,
  sealed_exchange,
  long_message,
  the_switch,
  the_sensor,
  the_lock,
  the_plug,
  with_journal,
  turned_on,
  turned_on_and_off,
  set_apart,
  secured,
  configured,
};
ghost use Rattle.law_transcript.specs.WorkedCases.{ended_so, then_begins, of_two_nodes};
ghost use Rattle.law_transcript.specs.WorkedWrong.{
  begun_twice,
  begun_ahead,
  begun_early,
  numbered_over_nodes,
  begun_reopened,
  told_early,
  told_of_other_change,
  begun_backwards,
  begun_again,
  begun_unasked,
  begun_for_another,
  not_begun,
  turned_twice,
  turned_later,
  turned_before,
  turned_off,
  turned_plainly,
  turned_off_and_on,
};
ghost use Rattle.law_transcript.specs.WorkedWrongLines.{the_relay};

/// In worked transcripts sessions begin one after another, over a restart too; after a failure, or where the device does not support what was
/// asked, as after a success; and each node has its own.
pub fn worked_sessions()
    ensures plain { KeepsSessions plain_exchange }
    ensures repeated { KeepsSessions repeated_exchange }
    ensures lossy { KeepsSessions lossy_exchange }
    ensures cancelled { KeepsSessions cancelled_order }
    ensures restarted { KeepsSessions restarted_host }
    ensures sleeping { KeepsSessions sleeping_node }
    ensures sealed { KeepsSessions sealed_exchange }
    ensures cut { KeepsSessions long_message }
    ensures failed { KeepsSessions (then_begins endings.Fail) }
    ensures unsupported { KeepsSessions (then_begins endings.NoSupport) }
    ensures two { KeepsSessions of_two_nodes }
{}

/// In worked transcripts success is reported after the change.
pub fn worked_successes()
    ensures plain { SucceedsAfterChange plain_exchange }
    ensures repeated { SucceedsAfterChange repeated_exchange }
    ensures lossy { SucceedsAfterChange lossy_exchange }
    ensures cancelled { SucceedsAfterChange cancelled_order }
    ensures restarted { SucceedsAfterChange restarted_host }
    ensures sleeping { SucceedsAfterChange sleeping_node }
    ensures sealed { SucceedsAfterChange sealed_exchange }
    ensures cut { SucceedsAfterChange long_message }
{}

/// Worked transcripts are once-only: a plain exchange, a message that is heard twice, one whose first attempts are lost, an
/// order that is taken back, a restart, a node that sleeps, a lock, and a message in segments. A command that is unanswered may have changed its
/// device, or not.
pub fn worked_once()
    ensures plain { Once (always (listing_of (the_switch ∷ []))) 2 plain_exchange turned_on }
    ensures repeated { Once (always (listing_of (the_switch ∷ []))) 2 repeated_exchange turned_on }
    ensures lossy { Once (always (listing_of (the_switch ∷ []))) 2 lossy_exchange turned_on_and_off }
    ensures cancelled { Once (always (listing_of (the_switch ∷ []))) 2 cancelled_order turned_on }
    ensures restarted { Once (always (listing_of (the_switch ∷ []))) 2 restarted_host turned_on }
    ensures sleeping { Once (always (listing_of (the_sensor ∷ []))) 5 sleeping_node set_apart }
    ensures sealed { Once (always (listing_of (the_lock ∷ []))) 4 sealed_exchange secured }
    ensures cut { Once (always (listing_of (the_plug ∷ []))) 8 long_message configured }
    ensures unanswered { Once (always (listing_of (the_switch ∷ []))) 2 (ended_so endings.Unanswered) turned_on }
    ensures unchanged { Once (always (listing_of (the_switch ∷ []))) 2 (ended_so endings.Unanswered) [] }
{}

/// In worked transcripts the confirmed values are those of the devices; of a command that failed nothing is said.
pub fn worked_values()
    ensures plain { ConfirmsLast (always (listing_of (the_switch ∷ []))) 2 plain_exchange (with_journal the_switch turned_on) }
    ensures repeated { ConfirmsLast (always (listing_of (the_switch ∷ []))) 2 repeated_exchange (with_journal the_switch turned_on) }
    ensures lossy { ConfirmsLast (always (listing_of (the_switch ∷ []))) 2 lossy_exchange (with_journal the_switch turned_on_and_off) }
    ensures cancelled { ConfirmsLast (always (listing_of (the_switch ∷ []))) 2 cancelled_order (with_journal the_switch turned_on) }
    ensures restarted { ConfirmsLast (always (listing_of (the_switch ∷ []))) 2 restarted_host (with_journal the_switch turned_on) }
    ensures sleeping { ConfirmsLast (always (listing_of (the_sensor ∷ []))) 5 sleeping_node (with_journal the_sensor set_apart) }
    ensures sealed { ConfirmsLast (always (listing_of (the_lock ∷ []))) 4 sealed_exchange (with_journal the_lock secured) }
    ensures cut { ConfirmsLast (always (listing_of (the_plug ∷ []))) 8 long_message (with_journal the_plug configured) }
    ensures failed { ConfirmsLast (always (listing_of (the_switch ∷ []))) 2 (ended_so endings.Fail) (with_journal the_switch turned_on) }
{}

/// The confirmed value is that of the last session that succeeded, and none where none did, of another property or node.
pub fn worked_confirmed()
    ensures last { confirmed (always (listing_of (the_switch ∷ []))) lossy_exchange 2 (record { end = 0; name = names.Switch }) ≡ Some 0 }
    ensures failed { confirmed (always (listing_of (the_switch ∷ []))) (ended_so endings.Fail) 2 (record { end = 0; name = names.Switch }) ≡ None }
    ensures other { confirmed (always (listing_of (the_switch ∷ []))) plain_exchange 2 (record { end = 0; name = names.Level }) ≡ None }
    ensures node { confirmed (always (listing_of (the_switch ∷ []))) plain_exchange 3 (record { end = 0; name = names.Switch }) ≡ None }
{}

/// Each of these breaks one part of the laws of sessions and successes: a session that begins twice, before one that comes first, by the count of all nodes,
/// or before one has ended, the last or another, also where it is unanswered or was taken back; and success before the change, or where another
/// command changed the device.
pub fn rejected_sessions()
    ensures begun_twice { KeepsSessions begun_twice → ⊥ }
    ensures begun_ahead { KeepsSessions begun_ahead → ⊥ }
    ensures over_nodes { KeepsSessions numbered_over_nodes → ⊥ }
    ensures begun_early { KeepsSessions begun_early → ⊥ }
    ensures reopened { KeepsSessions begun_reopened → ⊥ }
    ensures unanswered { KeepsSessions (then_begins endings.Unanswered) → ⊥ }
    ensures taken_back { KeepsSessions (then_begins endings.Cancelled) → ⊥ }
    ensures told_early { SucceedsAfterChange told_early → ⊥ }
    ensures other_change { SucceedsAfterChange told_of_other_change → ⊥ }
{}

/// Each of these breaks one part of the law: a journal with the change twice, in another order, or also by a session that never began or a session 0;
/// commands out of order, twice, never accepted, or accepted for another node; a change that is not what was asked; success without a change; a change
/// of a command that failed, was not supported, was taken back, or still waits, which is one without its session; a change without a session; and a
/// confirmed value that is not the device's, of the only change or where an earlier one is the device's last.
pub fn rejected_once()
    ensures twice { Once (always (listing_of (the_switch ∷ []))) 2 plain_exchange turned_twice → ⊥ }
    ensures changed_backwards { Once (always (listing_of (the_switch ∷ []))) 2 lossy_exchange turned_off_and_on → ⊥ }
    ensures later { Once (always (listing_of (the_switch ∷ []))) 2 plain_exchange turned_later → ⊥ }
    ensures none { Once (always (listing_of (the_switch ∷ []))) 2 plain_exchange turned_before → ⊥ }
    ensures backwards { Once (always (listing_of (the_switch ∷ []))) 2 begun_backwards turned_off → ⊥ }
    ensures again { Once (always (listing_of (the_switch ∷ []))) 2 begun_again turned_on → ⊥ }
    ensures unasked { Once (always (listing_of (the_switch ∷ []))) 2 begun_unasked [] → ⊥ }
    ensures for_another { Once (always (listing_of (the_switch ∷ []))) 2 begun_for_another [] → ⊥ }
    ensures off { Once (always (listing_of (the_switch ∷ []))) 2 plain_exchange turned_off → ⊥ }
    ensures unchanged { Once (always (listing_of (the_switch ∷ []))) 2 plain_exchange [] → ⊥ }
    ensures otherwise { Once (always (listing_of (the_switch ∷ []))) 2 (ended_so endings.Fail) turned_on → ⊥ }
    ensures unsupported { Once (always (listing_of (the_switch ∷ []))) 2 (ended_so endings.NoSupport) turned_on → ⊥ }
    ensures taken_back { Once (always (listing_of (the_switch ∷ []))) 2 (ended_so endings.Cancelled) turned_on → ⊥ }
    ensures waits { Once (always (listing_of (the_switch ∷ []))) 2 not_begun turned_on → ⊥ }
    ensures plainly { Once (always (listing_of (the_switch ∷ []))) 2 plain_exchange turned_plainly → ⊥ }
    ensures value { ConfirmsLast (always (listing_of (the_switch ∷ []))) 2 plain_exchange (with_journal the_switch turned_off) → ⊥ }
    ensures earlier { ConfirmsLast (always (listing_of (the_switch ∷ []))) 2 lossy_exchange (with_journal the_switch turned_off_and_on) → ⊥ }
{}

/// The headline holds of the worked transcripts, each with its device as its maker leaves it. Of a device that takes no commands in sessions it says
/// nothing, nor of one that is not the first of its node.
pub fn worked_headline()
    ensures plain { Headline (the_switch ∷ []) (with_journal the_switch turned_on ∷ []) plain_exchange }
    ensures repeated { Headline (the_switch ∷ []) (with_journal the_switch turned_on ∷ []) repeated_exchange }
    ensures lossy { Headline (the_switch ∷ []) (with_journal the_switch turned_on_and_off ∷ []) lossy_exchange }
    ensures cancelled { Headline (the_switch ∷ []) (with_journal the_switch turned_on ∷ []) cancelled_order }
    ensures restarted { Headline (the_switch ∷ []) (with_journal the_switch turned_on ∷ []) restarted_host }
    ensures sleeping { Headline (the_sensor ∷ []) (with_journal the_sensor set_apart ∷ []) sleeping_node }
    ensures sealed { Headline (the_lock ∷ []) (with_journal the_lock secured ∷ []) sealed_exchange }
    ensures cut { Headline (the_plug ∷ []) (with_journal the_plug configured ∷ []) long_message }
    ensures unsupervised { Headline (the_relay ∷ []) (with_journal the_relay turned_plainly ∷ []) [] }
    ensures second { Headline (the_switch ∷ the_switch ∷ []) (with_journal the_switch turned_on ∷ with_journal the_switch turned_twice ∷ []) plain_exchange }
{}

/// Each of these breaks one part of the headline: a session that begins early, success before the change, a change that was not asked for, and one
/// that was made twice, also by the second device of the list.
pub fn rejected_headline()
    ensures begun_early { Headline (the_switch ∷ []) (the_switch ∷ []) begun_early → ⊥ }
    ensures told_early { Headline (the_switch ∷ []) (with_journal the_switch turned_on ∷ []) told_early → ⊥ }
    ensures off { Headline (the_switch ∷ []) (with_journal the_switch turned_off ∷ []) plain_exchange → ⊥ }
    ensures twice { Headline (the_switch ∷ []) (with_journal the_switch turned_twice ∷ []) plain_exchange → ⊥ }
    ensures second { Headline (the_sensor ∷ the_switch ∷ []) (the_sensor ∷ with_journal the_switch turned_twice ∷ []) plain_exchange → ⊥ }
{}
