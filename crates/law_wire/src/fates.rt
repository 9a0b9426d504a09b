//! What the laws of fates, of repeats and of forgotten links say of one entry after a short past: which may stand there, and which may not.

ghost use Rattle.std.specs.Prelude.{◌∷◌, [], true};
ghost use Rattle.law_wire.specs.Arriving.{FollowsRepeat, IsForgotten, LandsInTime, MayMeet, forgets};
ghost use Rattle.law_wire.specs.Serial.{ended};
ghost use Rattle.law_wire.specs.WorkedAir.{
  arriving,
  both_dead,
  cut_and_repeating,
  cut_before,
  first_learned,
  first_marked,
  home_cut_after,
  home_linked_after,
  landed_late,
  long_still,
  lost_after,
  never_landed,
  repeating,
  repeating_another,
  repeating_home,
  still_flying,
  to_sensor,
  to_sensor_later,
  to_woken,
  unheard_and_learned,
  unheard_at_end,
  unheard_after,
  unheard_in_sleep,
};
ghost use Rattle.law_wire.specs.WorkedHalted.{sleeper};
ghost use Rattle.law_transcript.specs.Worked.{plain_exchange, the_sensor, the_switch};
ghost use Rattle.zw_text.specs.Transcript.{line_last};
ghost use Rattle.zw_text.specs.declared.entry.Entry.TheVariants.{Forget, Heard, Lost, Refused, Time, Unheard};
ghost use Rattle.zw_text.specs.declared.entry.Refusal.TheVariants.{NeverSent};

/// A frame of the controller over a dead link is unheard, and one of a device is lost where it had no way when it was sent, and unheard
/// where its way broke later. A frame without a device is unheard. A mark is used once. A sensor hears where it is awake: it was woken, or
/// has been still for less than 200 ticks; and the first device of a node is the one that hears.
pub fn worked_fates()
    ensures cut { MayMeet (the_switch ∷ []) cut_before (Unheard 1) }
    ensures home_before { MayMeet (the_switch ∷ []) home_linked_after (Lost 1) }
    ensures home_after { MayMeet (the_switch ∷ []) home_cut_after (Unheard 1) }
    ensures nobody { MayMeet [] arriving (Unheard 1) }
    ensures unmarked { MayMeet (the_switch ∷ []) first_marked (Heard 2) }
    ensures woken { MayMeet (sleeper ∷ []) to_woken (Heard 2) }
    ensures asleep { MayMeet (sleeper ∷ []) to_sensor (Unheard 1) }
    ensures rested { MayMeet (the_sensor ∷ []) to_sensor_later (Heard 1) }
    ensures tired { MayMeet (long_still ∷ []) to_sensor_later (Unheard 1) }
    ensures first { MayMeet (the_sensor ∷ sleeper ∷ []) to_sensor (Heard 1) }
{}

/// Each of these breaks one part of the law: a frame over a dead link is heard, or lost; one of a device is heard that had no way when it
/// was sent, lost where its way broke later, or heard then; one is heard by nobody, and one that was never sent; an unmarked one is lost
/// after a marked one; and one is heard by a sensor that was not woken, that has been still for too long, or that is awake where an earlier
/// one of its node sleeps.
pub fn rejected_fates()
    ensures cut { MayMeet (the_switch ∷ []) cut_before (Heard 1) → ⊥ }
    ensures cut_lost { MayMeet (the_switch ∷ []) cut_before (Lost 1) → ⊥ }
    ensures home_before { MayMeet (the_switch ∷ []) home_linked_after (Heard 1) → ⊥ }
    ensures home_after { MayMeet (the_switch ∷ []) home_cut_after (Lost 1) → ⊥ }
    ensures home_dead { MayMeet (the_switch ∷ []) home_cut_after (Heard 1) → ⊥ }
    ensures nobody { MayMeet [] arriving (Heard 1) → ⊥ }
    ensures unsent { MayMeet (the_switch ∷ []) arriving (Heard 2) → ⊥ }
    ensures unmarked { MayMeet (the_switch ∷ []) first_marked (Lost 2) → ⊥ }
    ensures asleep { MayMeet (sleeper ∷ []) to_sensor (Heard 1) → ⊥ }
    ensures tired { MayMeet (long_still ∷ []) to_sensor_later (Heard 1) → ⊥ }
    ensures second { MayMeet (sleeper ∷ the_sensor ∷ []) to_sensor (Heard 1) → ⊥ }
{}

/// A frame that is repeated is heard where somebody is there to hear it, over a dead link too, and by the controller at all times. Where
/// the line is refused, or nobody hears it, something else may follow.
pub fn worked_hearings()
    ensures cut { MayMeet (the_switch ∷ []) cut_and_repeating (Heard 1) }
    ensures home { MayMeet [] repeating_home (Heard 1) }
    ensures follows { FollowsRepeat (the_switch ∷ []) repeating (line_last repeating) (Heard 1) }
    ensures refused { FollowsRepeat (the_switch ∷ []) repeating_another (line_last repeating_another) (Refused NeverSent) }
    ensures nobody { FollowsRepeat [] repeating (line_last repeating) (Time 2) }
{}

/// Each of these breaks one part of the laws: a repeated frame is heard where nobody is there, and one that was never sent; a repeat of a
/// fresh frame is refused, and answered by the hearing of another one.
pub fn rejected_hearings()
    ensures nobody { MayMeet [] repeating (Heard 1) → ⊥ }
    ensures unsent { MayMeet (the_switch ∷ []) repeating_another (Heard 9) → ⊥ }
    ensures refused { FollowsRepeat (the_switch ∷ []) repeating (line_last repeating) (Refused NeverSent) → ⊥ }
    ensures another { FollowsRepeat (the_switch ∷ []) repeating (line_last repeating) (Heard 2) → ⊥ }
{}

/// The chip forgets the first dead hop of its frame that was not heard. Nothing is forgotten where it is not in the table, whatever follows
/// on the way, and after a frame of a device.
pub fn worked_hops()
    ensures dead { IsForgotten (forgets unheard_after) (Forget 1 2) }
    ensures first { IsForgotten (forgets both_dead) (Forget 1 2) }
    ensures learned { IsForgotten (forgets unheard_and_learned) (Time 2) }
    ensures second { IsForgotten (forgets first_learned) (Time 2) }
    ensures home { IsForgotten (forgets unheard_at_end) (Time 2) }
{}

/// Each of these breaks one part of the law: a dead hop of a device's frame is forgotten, one that is not in the table, the second of two,
/// the second where the first is not in the table, one after a frame that was lost by a mark, and a live one of a frame that nobody heard.
pub fn rejected_hops()
    ensures home { IsForgotten (forgets unheard_at_end) (Forget 2 1) → ⊥ }
    ensures learned { IsForgotten (forgets unheard_and_learned) (Forget 1 2) → ⊥ }
    ensures first { IsForgotten (forgets both_dead) (Forget 2 10) → ⊥ }
    ensures second { IsForgotten (forgets first_learned) (Forget 2 10) → ⊥ }
    ensures lost { IsForgotten (forgets lost_after) (Forget 1 2) → ⊥ }
    ensures live { IsForgotten (forgets unheard_in_sleep) (Forget 1 5) → ⊥ }
{}

/// Each frame of the plain exchange has its fate in the tick after; one that a line puts on the air has none yet where the next line begins.
pub fn worked_landings()
    ensures plain { LandsInTime (ended true plain_exchange) }
    ensures flying { LandsInTime (ended true still_flying) }
{}

/// Each of these breaks that: a frame that stays on the air over ticks in which nothing is entered, and one whose fate comes a tick late.
pub fn rejected_landings()
    ensures never { LandsInTime (ended true never_landed) → ⊥ }
    ensures late { LandsInTime landed_late → ⊥ }
{}
