//! What the laws of choosing the next request say of worked transcripts, and of others with one thing wrong.

ghost use Rattle.law_time.specs.Heeds.{heeds_of};
ghost use Rattle.std.specs.Prelude.{◌≡◌, true, [], ◌∷◌};
ghost use Rattle.law_time.specs.Choice.{NumbersCallbacks, SendsInTurn, SendsOneByOne, may_number};
ghost use Rattle.law_time.specs.WorkedAttempts.{begun_kept};
ghost use Rattle.law_time.specs.WorkedChoice.{
  again_after_get,
  again_after_set,
  again_after_wait,
  again_though_working,
  begun_after_abort,
  begun_after_restart,
  begun_after_unkept,
  begun_beside_unkept,
  first_after_restart,
  first_again,
  last_id_sent,
  sealed_after_denial,
  sealed_beside_unkept,
  sealed_for_next,
  sealed_for_same,
  sealed_over_restart,
  segment_after_failed,
  segment_after_lost,
  sent_after_last,
  the_near_lock,
};
ghost use Rattle.law_time.specs.WorkedQueue.{failed_attempts, silent_attempt};
ghost use Rattle.law_time.specs.WorkedTurns.{copied_after_overrun};
ghost use Rattle.law_time.specs.WorkedWaits.{answered_errands};
ghost use Rattle.law_time.specs.WrongChoice.{
  asked_before_end,
  asked_before_free,
  asked_before_silence,
  begun_asleep,
  begun_before_abort,
  begun_before_end,
  begun_before_request,
  begun_out_of_order,
  begun_unkept,
  begun_while_open,
  first_sent_twice,
  first_served_twice,
  id_over_restart,
  id_repeated,
  id_skipped,
  nonce_asked_plainly,
  sealed_after_late,
  sealed_after_plain,
  sealed_again,
  sealed_for_none,
  sealed_for_other,
  sealed_for_skipped,
  sealed_for_uncounted,
  sealed_for_unkept,
  sealed_for_unkept_lost,
  sealed_though_denied,
  sealed_twice,
  sealed_when_over,
  second_after_restart,
  second_sent_first,
  second_sent_twice,
  second_served_first,
  second_served_twice,
  sent_after_get,
  sent_after_third,
  sent_before_wait,
  sent_beyond,
  sent_for_nonce,
  sent_fourth,
  sent_though_working,
  sent_unsealed,
  sent_while_under_way,
  sent_with_options,
  set_repeated,
};
ghost use Rattle.law_wire.specs.law_transcript.Worked.{
  long_message,
  lossy_exchange,
  plain_exchange,
  repeated_exchange,
  restarted_host,
  the_lock,
  the_plug,
  the_switch,
};

/// In worked transcripts the request that is sent where none waits is the next of its node, and the node's turn has come. An attempt begins when the one
/// before it is over: as its request ends, though others went before it, or after 100 ticks, though the node then told that it is at work. The second
/// segment follows the first, and after a failure the first one again. A message is sealed for the last nonce that came and was kept, the same again or
/// the next, over a restart too, and where the chip denied the last copy of its Nonce Get only after it. Two nodes are served in turn, the first one
/// first when the host has restarted. A session begins after an abort, after a restart, and beside a node for which the keeper failed in this tick.
pub fn worked_choice()
    ensures again { SendsInTurn (heeds_of (the_switch ∷ [])) again_after_set }
    ensures following_get { SendsInTurn (heeds_of (the_switch ∷ [])) again_after_get }
    ensures following_wait { SendsInTurn (heeds_of (the_switch ∷ [])) again_after_wait }
    ensures late { SendsInTurn (heeds_of (the_switch ∷ [])) again_though_working }
    ensures segment { SendsInTurn (heeds_of (the_plug ∷ [])) segment_after_lost }
    ensures segment_failed { SendsInTurn (heeds_of (the_plug ∷ [])) segment_after_failed }
    ensures same_nonce { SendsInTurn (heeds_of (the_lock ∷ [])) sealed_for_same }
    ensures next_nonce { SendsInTurn (heeds_of (the_lock ∷ [])) sealed_for_next }
    ensures following_denial { SendsInTurn (heeds_of (the_lock ∷ [])) sealed_after_denial }
    ensures over_restart { SendsInTurn (heeds_of (the_lock ∷ [])) sealed_over_restart }
    ensures beside_unkept { SendsInTurn (heeds_of (the_lock ∷ [])) sealed_beside_unkept }
    ensures in_turn { SendsInTurn (heeds_of (the_switch ∷ [])) first_again }
    ensures restarted { SendsInTurn (heeds_of (the_switch ∷ [])) first_after_restart }
    ensures beside_unbegun { SendsInTurn (heeds_of (the_switch ∷ [])) begun_beside_unkept }
    ensures following_unkept { SendsInTurn (heeds_of (the_lock ∷ [])) begun_after_unkept }
    ensures kept { SendsInTurn (heeds_of (the_switch ∷ [])) begun_kept }
    ensures restart_unblocks { SendsInTurn (heeds_of (the_switch ∷ [])) begun_after_restart }
    ensures following_abort { SendsInTurn (heeds_of (the_switch ∷ [])) begun_after_abort }
{}

/// Each of these breaks one part of the law: where an attempt is due, the Set of an earlier line is sent again, or a Nonce Get to a node that lists no
/// Security 0, or a message unsealed to one that does; an attempt begins while the last one is under way, a tick too early, while the node has told that
/// it is at work, as a Get has failed, or after three; a segment is sent before the first, twice, beyond the last, or when the third attempt is over;
/// what is sent for a nonce is not sealed; a message is sealed for no nonce, for another one, for one that was not kept or not counted, also since the
/// chip had denied the last copy of its Nonce Get, twice for one, for a second one, or when its attempt is over; a node is served twice while another one
/// has work, or before a lower one, also after a restart; and a session begins out of order, before a request or an abort, of a node that is asleep,
/// while the last one is open, or in the tick in which the keeper has failed.
pub fn rejected_choice()
    ensures set { SendsInTurn (heeds_of (the_switch ∷ [])) set_repeated → ⊥ }
    ensures nonce_get { SendsInTurn (heeds_of (the_switch ∷ [])) nonce_asked_plainly → ⊥ }
    ensures unsealed { SendsInTurn (heeds_of (the_lock ∷ [])) sent_unsealed → ⊥ }
    ensures under_way { SendsInTurn (heeds_of (the_switch ∷ [])) sent_while_under_way → ⊥ }
    ensures too_early { SendsInTurn (heeds_of (the_switch ∷ [])) sent_before_wait → ⊥ }
    ensures working { SendsInTurn (heeds_of (the_switch ∷ [])) sent_though_working → ⊥ }
    ensures get_failed { SendsInTurn (heeds_of (the_switch ∷ [])) sent_after_get → ⊥ }
    ensures fourth { SendsInTurn (heeds_of (the_switch ∷ [])) sent_fourth → ⊥ }
    ensures second_first { SendsInTurn (heeds_of (the_plug ∷ [])) second_sent_first → ⊥ }
    ensures first_twice { SendsInTurn (heeds_of (the_plug ∷ [])) first_sent_twice → ⊥ }
    ensures second_twice { SendsInTurn (heeds_of (the_plug ∷ [])) second_sent_twice → ⊥ }
    ensures beyond { SendsInTurn (heeds_of (the_plug ∷ [])) sent_beyond → ⊥ }
    ensures third { SendsInTurn (heeds_of (the_plug ∷ [])) sent_after_third → ⊥ }
    ensures for_nonce { SendsInTurn (heeds_of (the_lock ∷ [])) sent_for_nonce → ⊥ }
    ensures none { SendsInTurn (heeds_of (the_lock ∷ [])) sealed_for_none → ⊥ }
    ensures other { SendsInTurn (heeds_of (the_lock ∷ [])) sealed_for_other → ⊥ }
    ensures unkept { SendsInTurn (heeds_of (the_lock ∷ [])) sealed_for_unkept → ⊥ }
    ensures unkept_lost { SendsInTurn (heeds_of (the_lock ∷ [])) sealed_for_unkept_lost → ⊥ }
    ensures twice { SendsInTurn (heeds_of (the_lock ∷ [])) sealed_twice → ⊥ }
    ensures over { SendsInTurn (heeds_of (the_lock ∷ [])) sealed_when_over → ⊥ }
    ensures skipped { SendsInTurn (heeds_of (the_lock ∷ [])) sealed_for_skipped → ⊥ }
    ensures uncounted { SendsInTurn (heeds_of (the_lock ∷ [])) sealed_for_uncounted → ⊥ }
    ensures second_nonce { SendsInTurn (heeds_of (the_lock ∷ [])) sealed_again → ⊥ }
    ensures denied_nonce { SendsInTurn (heeds_of (the_lock ∷ [])) sealed_though_denied → ⊥ }
    ensures late_nonce { SendsInTurn (heeds_of (the_lock ∷ [])) sealed_after_late → ⊥ }
    ensures plain_nonce { SendsInTurn (heeds_of (the_near_lock ∷ [])) sealed_after_plain → ⊥ }
    ensures lower_twice { SendsInTurn (heeds_of (the_switch ∷ [])) first_served_twice → ⊥ }
    ensures greater_twice { SendsInTurn (heeds_of (the_switch ∷ [])) second_served_twice → ⊥ }
    ensures greater_first { SendsInTurn (heeds_of (the_switch ∷ [])) second_served_first → ⊥ }
    ensures greater_after_restart { SendsInTurn (heeds_of (the_switch ∷ [])) second_after_restart → ⊥ }
    ensures order { SendsInTurn (heeds_of (the_switch ∷ [])) begun_out_of_order → ⊥ }
    ensures request { SendsInTurn (heeds_of (the_switch ∷ [])) begun_before_request → ⊥ }
    ensures asleep { SendsInTurn (heeds_of (the_switch ∷ [])) begun_asleep → ⊥ }
    ensures while_open { SendsInTurn (heeds_of (the_switch ∷ [])) begun_while_open → ⊥ }
    ensures before_abort { SendsInTurn (heeds_of (the_switch ∷ [])) begun_before_abort → ⊥ }
    ensures not_kept { SendsInTurn (heeds_of (the_switch ∷ [])) begun_unkept → ⊥ }
{}

/// In worked transcripts each request is sent when the one before it is over: answered, given up by the line, in silence, or by a restart.
pub fn worked_one_by_one()
    ensures plain { SendsOneByOne plain_exchange }
    ensures lossy { SendsOneByOne lossy_exchange }
    ensures restarted { SendsOneByOne restarted_host }
    ensures answered { SendsOneByOne answered_errands }
    ensures failed { SendsOneByOne failed_attempts }
    ensures silent { SendsOneByOne silent_attempt }
{}

/// Each of these breaks the law: a question is sent before the response to the one before it, a tick before that has ended in silence, and before
/// a Set that was refused is acknowledged; and a session begins before a Set has ended.
pub fn rejected_one_by_one()
    ensures response { SendsOneByOne asked_before_end → ⊥ }
    ensures silence { SendsOneByOne asked_before_silence → ⊥ }
    ensures acknowledgement { SendsOneByOne asked_before_free → ⊥ }
    ensures session { SendsOneByOne begun_before_end → ⊥ }
{}

/// In worked transcripts callback ids count on from 1 for each message that is sent, and not for a copy, and begin again with a host that starts;
/// after 255 comes 1.
pub fn worked_callbacks()
    ensures plain { NumbersCallbacks plain_exchange }
    ensures counted { NumbersCallbacks repeated_exchange }
    ensures restarted { NumbersCallbacks restarted_host }
    ensures copied { NumbersCallbacks copied_after_overrun }
    ensures cut { NumbersCallbacks long_message }
    ensures last { may_number (last_id_sent ∷ []) sent_after_last ≡ true }
{}

/// Each of these breaks the law: an id is skipped, used again, or counted on over a restart; and a message has other options.
pub fn rejected_callbacks()
    ensures skipped { NumbersCallbacks id_skipped → ⊥ }
    ensures repeated { NumbersCallbacks id_repeated → ⊥ }
    ensures over_restart { NumbersCallbacks id_over_restart → ⊥ }
    ensures options { NumbersCallbacks sent_with_options → ⊥ }
{}
