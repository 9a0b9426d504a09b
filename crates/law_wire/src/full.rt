//! What the law of frames that wait for the host says where many come.

ghost use Rattle.std.specs.Prelude.{true, [], ◌∷◌, ◌++◌, codes};
ghost use Rattle.zw_text.specs.declared.entry.Entry.TheVariants.{ChipFull, Heard, Lost, Said, Time, Unheard, Written};
ghost use Rattle.zw_words.specs.declared.side.Side.TheVariants.{Chip};
ghost use Rattle.law_transcript.specs.Worked.{the_switch};
ghost use Rattle.law_wire.specs.Answering.{IsNext, MayWait};
ghost use Rattle.law_wire.specs.WorkedFull.{busy_course, crowded, dropped_last, told_off, told_on};

/// Where 32 frames wait after the one under way, the next one is dropped, and not before: then a tick may begin with all of them. The chip writes the first of
/// them next, and not the second.
pub fn worked_full()
    ensures full { MayWait (the_switch ∷ []) busy_course (crowded 33) ChipFull }
    ensures late { MayWait (the_switch ∷ []) busy_course (crowded 33) (Time 2) → ⊥ }
    ensures early { MayWait (the_switch ∷ []) busy_course (crowded 32) ChipFull → ⊥ }
    ensures room { MayWait (the_switch ∷ []) busy_course (crowded 32) (Time 2) }
    ensures next { IsNext true (the_switch ∷ []) busy_course dropped_last told_off }
    ensures first_dropped { IsNext true (the_switch ∷ []) busy_course dropped_last told_on → ⊥ }
{}

/// No more than 32 wait when a line begins, and one that was dropped waits no longer. A frame of the chip may stand before that.
pub fn worked_waits()
    ensures line { MayWait (the_switch ∷ []) busy_course (crowded 32) (Said (codes "tick 1")) }
    ensures dropped { MayWait (the_switch ∷ []) busy_course (crowded 33 ++ ChipFull ∷ []) (Time 2) }
    ensures between { MayWait (the_switch ∷ []) busy_course (crowded 33) (Written Chip told_on) }
{}

/// Each of these breaks one part of the law: while 33 wait a line begins, a further frame meets a fate in the same tick, or the chip answers a request; and a
/// second frame is dropped where one was too many.
pub fn rejected_waits()
    ensures line { MayWait (the_switch ∷ []) busy_course (crowded 33) (Said (codes "tick 1")) → ⊥ }
    ensures heard { MayWait (the_switch ∷ []) busy_course (crowded 33) (Heard 1) → ⊥ }
    ensures lost { MayWait (the_switch ∷ []) busy_course (crowded 33) (Lost 1) → ⊥ }
    ensures unheard { MayWait (the_switch ∷ []) busy_course (crowded 33) (Unheard 1) → ⊥ }
    ensures answered { MayWait (the_switch ∷ []) busy_course (crowded 33) (Written Chip (6 ∷ [])) → ⊥ }
    ensures twice { MayWait (the_switch ∷ []) busy_course (crowded 33 ++ ChipFull ∷ []) ChipFull → ⊥ }
{}
