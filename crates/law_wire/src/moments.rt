//! What the laws of the serial link say of one moment of a side: what it hears, when it ticks, when it collides, and what has room.

ghost use Rattle.std.specs.Prelude.{[], ◌∷◌};
ghost use Rattle.zw_words.specs.declared.side.Side.TheVariants.{Chip, Host};
ghost use Rattle.serial_link.specs.Calls.{submit_step};
ghost use Rattle.law_wire.specs.Links.{CollidesAsTold, FindsRoom, HearsInTime, TicksInTime};
ghost use Rattle.law_wire.specs.WorkedCourses.{calling_back, hears_ack, hears_frame, quiet_tick};
ghost use Rattle.law_wire.specs.WorkedLinks.{
  a_collision,
  a_stall,
  a_tick,
  an_ack,
  answers_of_host,
  asks,
  bytes_arrive,
  bytes_overrun,
  gives_up,
  hears_so_many,
  hears_stray,
  steps_before,
};

/// A side ticks once in each tick, and hears after that; the host submits after it, and the chip before it, or after it has heard or given a frame up.
pub fn worked_ticks()
    ensures one { TicksInTime Host (a_tick ∷ []) (steps_before (quiet_tick ∷ [])) }
    ensures hears { TicksInTime Host (a_tick ∷ []) (steps_before (quiet_tick ∷ hears_frame calling_back ∷ [])) }
    ensures submits { TicksInTime Host (a_tick ∷ []) (steps_before (quiet_tick ∷ submit_step calling_back ∷ [])) }
    ensures chip_submits { TicksInTime Chip (a_tick ∷ []) (steps_before (submit_step calling_back ∷ quiet_tick ∷ [])) }
    ensures chip_heard { TicksInTime Chip (a_tick ∷ []) (steps_before (quiet_tick ∷ hears_ack ∷ submit_step calling_back ∷ [])) }
    ensures chip_gave_up { TicksInTime Chip (a_tick ∷ []) (steps_before (gives_up ∷ submit_step calling_back ∷ [])) }
    ensures line { TicksInTime Host [] (steps_before (submit_step calling_back ∷ [])) }
    ensures collides { TicksInTime Chip (a_collision ∷ []) (steps_before (asks ∷ hears_frame calling_back ∷ [])) }
{}

/// Each of these breaks one part of that: a tick without its mark, and with two; a mark in a line; a side that hears before its mark, a host that submits
/// before it, and a chip that submits after it though its link was free; and a collision that is asked for in a tick, and after something else.
pub fn rejected_ticks()
    ensures none { TicksInTime Host (a_tick ∷ []) (steps_before []) → ⊥ }
    ensures two { TicksInTime Host (a_tick ∷ []) (steps_before (quiet_tick ∷ quiet_tick ∷ [])) → ⊥ }
    ensures line { TicksInTime Host [] (steps_before (quiet_tick ∷ [])) → ⊥ }
    ensures hears { TicksInTime Host (a_tick ∷ []) (steps_before (hears_frame calling_back ∷ quiet_tick ∷ [])) → ⊥ }
    ensures submits { TicksInTime Host (a_tick ∷ []) (steps_before (submit_step calling_back ∷ quiet_tick ∷ [])) → ⊥ }
    ensures chip_submits { TicksInTime Chip (a_tick ∷ []) (steps_before (quiet_tick ∷ submit_step calling_back ∷ [])) → ⊥ }
    ensures collides { TicksInTime Chip (a_tick ∷ []) (steps_before (quiet_tick ∷ asks ∷ [])) → ⊥ }
    ensures later { TicksInTime Chip (a_collision ∷ []) (steps_before (hears_frame calling_back ∷ asks ∷ [])) → ⊥ }
{}

/// A side hears nothing while a stall lasts, and all when it is over; what the host writes after 63 units of a line may be left.
pub fn worked_hearing()
    ensures stalled { HearsInTime Host (a_stall ∷ an_ack Chip ∷ []) (steps_before []) }
    ensures over { HearsInTime Host (a_stall ∷ an_ack Chip ∷ a_tick ∷ []) (steps_before (hears_ack ∷ [])) }
    ensures passes { HearsInTime Chip (answers_of_host 64) (hears_so_many 63) }
{}

/// Each of these breaks one part of that: a side hears in a stall, hears what did not come, and leaves something where no stall lasts; and of 63 units the
/// last is left.
pub fn rejected_hearing()
    ensures stalled { HearsInTime Host (a_stall ∷ an_ack Chip ∷ []) (steps_before (hears_ack ∷ [])) → ⊥ }
    ensures unsaid { HearsInTime Host (an_ack Host ∷ []) (steps_before (hears_ack ∷ [])) → ⊥ }
    ensures otherwise { HearsInTime Host (an_ack Chip ∷ []) (steps_before (hears_frame calling_back ∷ [])) → ⊥ }
    ensures left { HearsInTime Host (an_ack Chip ∷ []) (steps_before []) → ⊥ }
    ensures passes { HearsInTime Chip (answers_of_host 63) (hears_so_many 62) → ⊥ }
{}

/// A collision is asked of the chip after a line that asks for it; it breaks the law without one, if it is left out, or if it is asked of the host.
pub fn worked_asking()
    ensures asked { CollidesAsTold Chip (a_collision ∷ []) (steps_before (asks ∷ [])) }
    ensures host { CollidesAsTold Host (a_collision ∷ []) (steps_before []) }
    ensures left_out { CollidesAsTold Chip (a_collision ∷ []) (steps_before []) → ⊥ }
    ensures unasked { CollidesAsTold Chip (a_tick ∷ []) (steps_before (asks ∷ [])) → ⊥ }
    ensures of_host { CollidesAsTold Host (a_collision ∷ []) (steps_before (asks ∷ [])) → ⊥ }
{}

/// 4,096 bytes are let in, and no more; what the chip has heard leaves room. Of its own units a side says nothing.
pub fn worked_room()
    ensures fits { FindsRoom Chip (bytes_arrive 4090 [] ∷ []) (bytes_arrive 6 []) }
    ensures lacks { FindsRoom Chip (bytes_arrive 4090 [] ∷ []) (bytes_overrun 7 []) }
    ensures heard { FindsRoom Chip (bytes_arrive 4090 [] ∷ []) (bytes_arrive 7 (hears_stray ∷ [])) }
    ensures own { FindsRoom Host (bytes_arrive 4090 [] ∷ []) (bytes_overrun 6 []) }
{}

/// Each of these breaks that: what has just room is overrun, and what has none is not; and what has room by what the chip has heard is overrun.
pub fn rejected_room()
    ensures fits { FindsRoom Chip (bytes_arrive 4090 [] ∷ []) (bytes_overrun 6 []) → ⊥ }
    ensures lacks { FindsRoom Chip (bytes_arrive 4090 [] ∷ []) (bytes_arrive 7 []) → ⊥ }
    ensures heard { FindsRoom Chip (bytes_arrive 4090 [] ∷ []) (bytes_overrun 7 (hears_stray ∷ [])) → ⊥ }
{}
