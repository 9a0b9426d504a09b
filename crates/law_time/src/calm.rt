//! What calm moments and answers in time are, by worked transcripts, and by others with one thing wrong.

ghost use Rattle.std.specs.Prelude.{◌≡◌, true, false, [], ◌∷◌, drop, take, codes};
ghost use Rattle.law_wire.specs.device_stack.State.{fresh};
ghost use Rattle.law_wire.specs.device_kinds.declared.kind.Kind.TheVariants as kinds;
ghost use Rattle.std.specs.List.{list_all};
ghost use Rattle.law_time.specs.Calm.{IsCalm, IsStill, air_is_empty, chip_is_idle, is_not_stuck, is_settled, owes_no_call};
ghost use Rattle.law_time.specs.Rests.{is_rest};
ghost use Rattle.law_time.specs.Stretches.{
  are_plain_listeners,
  IsStretch,
  is_quiet,
  is_time,
  is_long_enough,
  is_alone,
  is_open_alone,
  is_sleeper_alone,
  answers_all,
  AnswersInTime,
  AnswersOpenly,
};
ghost use Rattle.law_time.specs.WorkedBetween.{callback_owed, order_unkept, stretch_of_refused, stretch_unkept};
ghost use Rattle.law_time.specs.WorkedStretches.{
  before_failing,
  before_repeated,
  failing_as_success,
  stretch_of_failing,
  stretch_over_two,
  success_as_failing,
  the_thermostat,
};
ghost use Rattle.law_time.specs.WorkedWaits.{
  before_two,
  before_waking,
  calm_exchange,
  stretch_of_sleeper,
  stretch_of_two,
  stuck_by_restart,
  stuck_node,
  the_other_switch,
};
ghost use Rattle.law_time.specs.WrongStretches.{accepted_as_switch, sensors_from, sensors_join, sensors_work, woken_before_order, woken_twice};
ghost use Rattle.law_time.specs.WrongWaits.{asleep_not_yet, left_asleep, left_in_time, reported_next, stretch_unwoken, unheard_acknowledgement};
ghost use Rattle.law_wire.specs.law_transcript.Nodes.{always, listing_of};
ghost use Rattle.law_wire.specs.law_transcript.Worked.{
  long_message,
  plain_exchange,
  sealed_exchange,
  sleeping_node,
  the_lock,
  the_plug,
  the_sensor,
  the_switch,
};
ghost use Rattle.zw_text.specs.Transcript.{joined};
ghost use Rattle.zw_text.specs.declared.entry.Entry.TheVariants.{Interviewed, Said};
ghost use Rattle.law_time.specs.WorkedCalm.{
  awake_unknown,
  frames_used_up,
  given_up_before_series,
  restarted_before,
  units_used_up,
  waiting_asleep,
  cancelled_as_switch,
  ordered_again,
  quiet_lines,
  succeeded_as_switch,
  dimmed,
  no_end_point,
  sixth_before,
  sixth_failed,
  abort_alone,
  abort_after_frame,
  dropped_by_chip,
  given_up_long_ago,
  waiting_unkept,
  begun_following,
  ordered_before,
};
ghost use Rattle.law_time.specs.WrongCalm.{
  device_heard,
  heard_again,
  ordered_late,
  sleeper_ordered,
  taken_to_listen,
  woken_late,
  woken_unjoined,
  failed_end_point,
  sixth_taken,
  taken_back,
  cancelled_by_host,
  denied_frame,
  information_owed,
  just_settled,
  unsettled,
  cleared_acknowledgement,
};
ghost use Rattle.law_time.specs.WorkedTurns.{known_sleeper};

/// A run begins in a calm moment, and is calm again when its command is answered, and when a node that sleeps is asleep; so are the moments
/// before the stretches below, one in which all marks are used up, one a tick after a restart, one in which an unknown node is awake, one a
/// tick after the chip dropped a frame or took a question for what a node lists, and those in which a command waits for a node that sleeps or whose
/// next series is to come. Of 63 units of the host in one tick none is on its way.
pub fn worked_calm()
    ensures first { IsCalm (always (listing_of (the_switch ∷ []))) (the_switch ∷ []) [] 0 }
    ensures last { IsCalm (always (listing_of (the_switch ∷ []))) (the_switch ∷ []) calm_exchange 500 }
    ensures sleeping { IsCalm (always (listing_of (the_sensor ∷ []))) (the_sensor ∷ []) sleeping_node 9 }
    ensures before_two { IsCalm (always (listing_of (the_switch ∷ the_other_switch ∷ []))) (the_switch ∷ the_other_switch ∷ []) before_two 2 }
    ensures before_waking { IsCalm (always (listing_of (the_sensor ∷ []))) (the_sensor ∷ []) before_waking 4 }
    ensures units { IsCalm (always (listing_of (the_switch ∷ []))) (the_switch ∷ []) units_used_up 60 }
    ensures frames { IsCalm (always (listing_of (the_switch ∷ []))) (the_switch ∷ []) frames_used_up 1 }
    ensures restarted { IsCalm (always (listing_of (the_switch ∷ []))) (the_switch ∷ []) restarted_before 1 }
    ensures unknown { IsCalm (always (listing_of (the_sensor ∷ []))) (the_sensor ∷ []) awake_unknown 0 }
    ensures waiting_asleep { IsCalm (always (listing_of (the_sensor ∷ []))) (the_sensor ∷ []) waiting_asleep 200 }
    ensures before_series { IsCalm (always (listing_of (the_switch ∷ []))) (the_switch ∷ []) given_up_before_series 99 }
    ensures long_ago { IsCalm (always (listing_of (the_switch ∷ []))) (the_switch ∷ []) given_up_long_ago 200 }
    ensures unkept { IsCalm (always (listing_of (the_switch ∷ []))) (the_switch ∷ []) waiting_unkept 0 }
    ensures abort { IsCalm (always (listing_of (the_switch ∷ []))) (the_switch ∷ []) abort_alone 0 }
    ensures after_frame { IsCalm (always (listing_of (the_switch ∷ []))) (the_switch ∷ []) abort_after_frame 0 }
    ensures dropped { IsCalm (always (listing_of (the_switch ∷ []))) (the_switch ∷ []) dropped_by_chip 2 }
    ensures told { IsCalm (always (listing_of (the_switch ∷ []))) (the_switch ∷ []) information_owed 2 }
    ensures settled { is_settled just_settled ≡ true }
{}

/// A moment is not calm while a frame, an acknowledgement or a unit is to be lost, changed or answered by CAN, which frames of devices and
/// repeated ones leave so, bytes are stalled, a request is under way, the chip waits for an acknowledgement, or owes a callback though no
/// frame is on the air, or what a node lists, or has just dropped a frame, or may still be to hear the last of 64 units of the host, a frame is on
/// the air, a series runs, a node that does not listen is kept awake, a device is at work on a change, the host has just restarted, or lost an
/// acknowledgement on its way to the chip as it did, or a node is stuck.
pub fn rejected_calm()
    ensures marked { IsCalm (always (listing_of (the_switch ∷ []))) (the_switch ∷ []) (Said (codes "lose 1") ∷ []) 0 → ⊥ }
    ensures acknowledgement { IsCalm (always (listing_of (the_switch ∷ []))) (the_switch ∷ []) (Said (codes "loseack 1") ∷ []) 0 → ⊥ }
    ensures to_drop { IsCalm (always (listing_of (the_switch ∷ []))) (the_switch ∷ []) (Said (codes "drop h") ∷ []) 0 → ⊥ }
    ensures to_change { IsCalm (always (listing_of (the_switch ∷ []))) (the_switch ∷ []) (Said (codes "garble c 0 1") ∷ []) 0 → ⊥ }
    ensures to_collide { IsCalm (always (listing_of (the_switch ∷ []))) (the_switch ∷ []) (Said (codes "collide") ∷ []) 0 → ⊥ }
    ensures stalled { IsCalm (always (listing_of (the_switch ∷ []))) (the_switch ∷ []) (Said (codes "stall 3") ∷ Said (codes "tick 2") ∷ []) 2 → ⊥ }
    ensures under_way { IsCalm (always (listing_of (the_switch ∷ []))) (the_switch ∷ []) (take 8 calm_exchange) 0 → ⊥ }
    ensures unacknowledged { IsCalm (always (listing_of (the_switch ∷ []))) (the_switch ∷ []) unheard_acknowledgement 500 → ⊥ }
    ensures flying { IsCalm (always (listing_of (the_switch ∷ []))) (the_switch ∷ []) reported_next 1 → ⊥ }
    ensures running { IsCalm (always (listing_of (the_switch ∷ []))) (the_switch ∷ []) reported_next 1 → ⊥ }
    ensures awake { IsCalm (always (listing_of (the_sensor ∷ []))) (the_sensor ∷ []) asleep_not_yet 4 → ⊥ }
    ensures working { IsCalm (always (listing_of (the_switch ∷ []))) (record the_switch { work_left = 3 } ∷ []) [] 0 → ⊥ }
    ensures restarted { IsCalm (always (listing_of (the_switch ∷ []))) (the_switch ∷ []) (Said (codes "restart") ∷ []) 0 → ⊥ }
    ensures stuck { IsCalm (always (listing_of (the_switch ∷ the_sensor ∷ the_other_switch ∷ [])))
        (the_switch ∷ the_sensor ∷ the_other_switch ∷ []) stuck_node 104 → ⊥ }
    ensures device_heard { IsCalm (always (listing_of (the_switch ∷ []))) (the_switch ∷ []) device_heard 1 → ⊥ }
    ensures heard_again { IsCalm (always (listing_of (the_switch ∷ []))) (the_switch ∷ []) heard_again 1 → ⊥ }
    ensures cancelled_by_host { IsCalm (always (listing_of (the_switch ∷ []))) (the_switch ∷ []) cancelled_by_host 0 → ⊥ }
    ensures denied { IsCalm (always (listing_of (the_switch ∷ []))) (the_switch ∷ []) denied_frame 15 → ⊥ }
    ensures owed { IsCalm (always (listing_of (the_switch ∷ the_other_switch ∷ []))) (the_switch ∷ the_other_switch ∷ []) callback_owed 104 → ⊥ }
    ensures dropped { IsCalm (always (listing_of (the_switch ∷ []))) (the_switch ∷ []) dropped_by_chip 1 → ⊥ }
    ensures information { IsCalm (always (listing_of (the_switch ∷ []))) (the_switch ∷ []) information_owed 1 → ⊥ }
    ensures unsettled { IsCalm (always (listing_of (the_switch ∷ []))) (the_switch ∷ []) unsettled 1 → ⊥ }
    ensures cleared { IsCalm (always (listing_of (the_switch ∷ []))) (the_switch ∷ []) cleared_acknowledgement 2 → ⊥ }
{}

/// Stretches that answer in time: of one node, of two that listen, and of one that sleeps; of one that is reached over another node; and of
/// one whose device does not take the value of its first command, so that this fails. Sixteen nodes that sleep may be at work, a command
/// may stand that was accepted of a node when the host knew it as it is, or has ended or was taken back that was not, and `cut`, `show` and
/// `store` may be said.
pub fn worked_stretches()
    ensures one { IsStretch [] (the_switch ∷ []) [] calm_exchange }
    ensures one_in_time { is_time [] calm_exchange ≡ true }
    ensures one_answered { AnswersInTime [] (the_switch ∷ []) [] calm_exchange }
    ensures two { IsStretch [] (the_switch ∷ the_other_switch ∷ []) before_two stretch_of_two }
    ensures two_plain { are_plain_listeners (the_switch ∷ the_other_switch ∷ []) before_two stretch_of_two ≡ true }
    ensures two_in_time { is_time before_two stretch_of_two ≡ true }
    ensures two_long_enough { is_long_enough stretch_of_two ≡ true }
    ensures two_answered { AnswersInTime [] (the_switch ∷ the_other_switch ∷ []) before_two stretch_of_two }
    ensures sleeper { IsStretch [] (the_sensor ∷ []) before_waking stretch_of_sleeper }
    ensures sleeper_alone { is_alone before_waking stretch_of_sleeper ≡ true }
    ensures sleeper_in_time { is_time before_waking stretch_of_sleeper ≡ true }
    ensures sleeper_plain { is_sleeper_alone (the_sensor ∷ []) before_waking stretch_of_sleeper ≡ true }
    ensures sleeper_long_enough { is_long_enough stretch_of_sleeper ≡ true }
    ensures sleeper_answered { AnswersInTime [] (the_sensor ∷ []) before_waking stretch_of_sleeper }
    ensures repeated { IsStretch [] (the_switch ∷ the_other_switch ∷ []) before_repeated stretch_over_two }
    ensures repeated_in_time { is_time before_repeated stretch_over_two ≡ true }
    ensures repeated_answered { AnswersInTime [] (the_switch ∷ the_other_switch ∷ []) before_repeated stretch_over_two }
    ensures failing { IsStretch [] (the_thermostat ∷ []) before_failing stretch_of_failing }
    ensures failing_in_time { is_time before_failing stretch_of_failing ≡ true }
    ensures sixteen { is_quiet [] (sensors_from 3 16) (take 32 sensors_join) (take 48 sensors_work) ≡ true }
    ensures known { is_quiet [] (the_switch ∷ []) accepted_as_switch (Said (codes "tick 500") ∷ []) ≡ true }
    ensures failing_answered { AnswersInTime [] (the_thermostat ∷ []) before_failing stretch_of_failing }
    ensures quiet_lines { is_quiet [] (the_switch ∷ []) [] quiet_lines ≡ true }
    ensures succeeded { is_quiet [] (fresh 2 kinds.Dimmer [] ∷ []) succeeded_as_switch ordered_again ≡ true }
    ensures cancelled { is_quiet [] (fresh 2 kinds.Dimmer [] ∷ []) cancelled_as_switch ordered_again ≡ true }
    ensures sixth_failed { answers_all (the_switch ∷ []) [] sixth_failed ≡ true }
    ensures sixth_before { answers_all (the_switch ∷ []) [] sixth_before ≡ true }
    ensures no_end_point { answers_all (fresh 2 kinds.Strip [] ∷ []) (Interviewed 2 ∷ []) no_end_point ≡ true }
    ensures dimmed { answers_all (fresh 2 kinds.Dimmer [] ∷ []) (Interviewed 2 ∷ []) dimmed ≡ true }
    ensures begun { answers_all (the_switch ∷ []) ordered_before begun_following ≡ true }
{}

/// These are no stretches: one with a line that loses frames, of more than 16 nodes, without the device, of one with another key, of one that does not
/// listen though the host takes it to, or lists other classes, now or when its command was accepted, of a node out of reach, with a node
/// that sleeps and is not woken, before its order or twice, with one woken that has nothing to do or has not joined, and in which the
/// keeper fails, for a session or an order. Two nodes are not one, a node that sleeps and a lock are no plain listeners, a lock lists
/// Security 0, a switch does not sleep, and two ticks are not time enough, nor are those before the last order or `wake` line. And where
/// the outcome is missing in time, the promise is broken, of one node, of one that does not list Security 0, of one that sleeps and of
/// nodes that listen; and where a command succeeds that its device does not take, or fails though it does.
pub fn rejected_stretches()
    ensures lossy { is_quiet [] (the_switch ∷ []) [] (Said (codes "lose 1") ∷ []) ≡ false }
    ensures other_key { is_quiet (1 ∷ []) (the_switch ∷ []) [] calm_exchange ≡ false }
    ensures other_device { is_quiet [] (fresh 2 kinds.Sensor [] ∷ []) [] calm_exchange ≡ false }
    ensures too_many { is_quiet [] (sensors_from 3 17) sensors_join sensors_work ≡ false }
    ensures no_device { is_quiet [] [] [] calm_exchange ≡ false }
    ensures other_classes { is_quiet [] (fresh 2 kinds.Dimmer [] ∷ []) [] calm_exchange ≡ false }
    ensures other_list { is_quiet [] (fresh 2 kinds.Dimmer [] ∷ []) accepted_as_switch (Said (codes "tick 500") ∷ []) ≡ false }
    ensures out_of_reach { IsStretch [] (the_switch ∷ []) (Said (codes "unlink 1 2") ∷ []) calm_exchange → ⊥ }
    ensures unwoken { is_quiet [] (the_sensor ∷ []) before_waking stretch_unwoken ≡ false }
    ensures woken_before { is_quiet [] (the_sensor ∷ []) before_waking woken_before_order ≡ false }
    ensures woken_twice { is_quiet [] (the_sensor ∷ []) before_waking woken_twice ≡ false }
    ensures idly_woken { is_quiet [] (the_switch ∷ []) [] (Said (codes "wake 2") ∷ []) ≡ false }
    ensures too_soon { is_time [] plain_exchange ≡ false }
    ensures not_long_enough { is_long_enough plain_exchange ≡ false }
    ensures missing { AnswersInTime [] (the_switch ∷ []) [] left_in_time → ⊥ }
    ensures succeeded { AnswersInTime [] (the_thermostat ∷ []) before_failing failing_as_success → ⊥ }
    ensures failed { AnswersInTime [] (the_thermostat ∷ []) before_failing success_as_failing → ⊥ }
    ensures missing_together { AnswersInTime [] (the_switch ∷ []) [] left_in_time → ⊥ }
    ensures missing_openly { AnswersOpenly [] (the_switch ∷ []) [] left_in_time → ⊥ }
    ensures missing_asleep { AnswersInTime [] (the_sensor ∷ []) before_waking left_asleep → ⊥ }
    ensures not_asleep { is_sleeper_alone (the_switch ∷ []) [] calm_exchange ≡ false }
    ensures not_alone { is_alone before_two stretch_of_two ≡ false }
    ensures not_open { is_open_alone (the_lock ∷ []) (take 16 sealed_exchange) (drop 16 sealed_exchange) ≡ false }
    ensures not_plain { are_plain_listeners (the_sensor ∷ []) before_waking stretch_of_sleeper ≡ false }
    ensures sealed { are_plain_listeners (the_lock ∷ []) (take 16 sealed_exchange) (drop 16 sealed_exchange) ≡ false }
    ensures taken_to_listen { is_quiet [] (the_sensor ∷ []) taken_to_listen sleeper_ordered ≡ false }
    ensures unjoined { is_quiet [] (the_switch ∷ []) [] woken_unjoined ≡ false }
    ensures ordered_late { is_time [] ordered_late ≡ false }
    ensures woken_late { is_time known_sleeper woken_late ≡ false }
    ensures sixth_taken { answers_all (the_switch ∷ []) [] sixth_taken ≡ false }
    ensures failed_end_point { answers_all (fresh 2 kinds.Strip [] ∷ []) (Interviewed 2 ∷ []) failed_end_point ≡ false }
    ensures taken_back { answers_all (fresh 2 kinds.Dimmer [] ∷ []) (Interviewed 2 ∷ []) taken_back ≡ false }
    ensures unkept { IsStretch [] (the_switch ∷ []) [] stretch_unkept → ⊥ }
    ensures order_unkept { IsStretch [] (the_switch ∷ []) [] order_unkept → ⊥ }
    ensures in_segments { are_plain_listeners (the_plug ∷ []) (take 16 long_message) (drop 16 long_message) ≡ false }
{}

/// A node that is stuck: all is still and the node is ready, and its command is never answered, since nothing makes a new series due. So
/// such a moment is not calm. Nor is one less than 100 ticks after a series was given up, where the host was started anew since.
pub fn stuck_stretches()
    ensures still { IsStill (always (listing_of (the_switch ∷ the_sensor ∷ the_other_switch ∷ [])))
        (the_switch ∷ the_sensor ∷ the_other_switch ∷ []) stuck_node 104 }
    ensures stuck { list_all (is_not_stuck stuck_node 104) (joined stuck_node) ≡ false }
    ensures ready { IsStretch [] (the_switch ∷ the_sensor ∷ the_other_switch ∷ []) stuck_node (Said (codes "tick 500") ∷ []) }
    ensures one { is_alone stuck_node (Said (codes "tick 500") ∷ []) ≡ true }
    ensures in_time { is_time stuck_node (Said (codes "tick 500") ∷ []) ≡ true }
    ensures unanswered { answers_all (the_switch ∷ the_sensor ∷ the_other_switch ∷ []) stuck_node (Said (codes "tick 500") ∷ []) ≡ false }
    ensures still_after { IsStill (always (listing_of (the_switch ∷ the_sensor ∷ the_other_switch ∷ [])))
        (the_switch ∷ the_sensor ∷ the_other_switch ∷ []) stuck_by_restart 35 }
    ensures stuck_after { list_all (is_not_stuck stuck_by_restart 35) (joined stuck_by_restart) ≡ false }
{}

/// A moment in which the chip owes the callback of a payload for which it has no route: the host rests, the chip waits for no acknowledgement and the air is
/// empty, and a tick later it owes none. The chip refuses what a stretch asks for then, so its command is unanswered in time. Nothing is promised of that.
pub fn owed_stretches()
    ensures rest { is_rest callback_owed 104 ≡ true }
    ensures idle { chip_is_idle callback_owed 104 ≡ true }
    ensures air { air_is_empty callback_owed ≡ true }
    ensures owed { owes_no_call callback_owed 104 ≡ false }
    ensures later { owes_no_call callback_owed 105 ≡ true }
    ensures ready { IsStretch [] (the_switch ∷ the_other_switch ∷ []) callback_owed stretch_of_refused }
    ensures one { is_alone callback_owed stretch_of_refused ≡ true }
    ensures in_time { is_time callback_owed stretch_of_refused ≡ true }
    ensures unanswered { answers_all (the_switch ∷ the_other_switch ∷ []) callback_owed stretch_of_refused ≡ false }
    ensures promised { AnswersInTime [] (the_switch ∷ the_other_switch ∷ []) callback_owed stretch_of_refused }
{}

/// Lines as a stretch has them, in which the keeper fails in each tick, so that the command begins no session and is unanswered in time. Nothing is promised
/// of that.
pub fn unkept_stretches()
    ensures quiet { is_quiet [] (the_switch ∷ []) [] stretch_unkept ≡ true }
    ensures one { is_alone [] stretch_unkept ≡ true }
    ensures in_time { is_time [] stretch_unkept ≡ true }
    ensures unanswered { answers_all (the_switch ∷ []) [] stretch_unkept ≡ false }
    ensures promised { AnswersInTime [] (the_switch ∷ []) [] stretch_unkept }
    ensures order_quiet { is_quiet [] (the_switch ∷ []) [] order_unkept ≡ true }
{}
