//! What the laws of the numbers of ticks, and of what a restart loses on the serial line, say of short transcripts.

ghost use Rattle.std.specs.Prelude.{false, codes};
ghost use Rattle.zw_text.specs.declared.entry.Entry.TheVariants.{Heard, Said, Time};
ghost use Rattle.law_wire.specs.Clearing.{ClearsLine};
ghost use Rattle.law_wire.specs.Times.{MayBeTold, TellsTime};
ghost use Rattle.law_wire.specs.WorkedLinks.{
  both_cleared,
  cleared_again,
  cleared_in_part,
  cleared_in_turn,
  just_told,
  miscounted,
  not_told,
  one_cleared,
  one_told,
  two_ticks,
};

/// The number of a tick stands before its first entry, over two lines, and of a tick without one it may be left out.
pub fn worked_times()
    ensures two { TellsTime two_ticks }
    ensures next { MayBeTold one_told (Time 3) }
{}

/// Each of these breaks one part of that: the number is left out, stands twice, is not later, belongs to a tick that no line asks for, and has no entry
/// after it before the next one or before a line.
pub fn rejected_times()
    ensures left_out { MayBeTold not_told (Heard 1) → ⊥ }
    ensures twice { MayBeTold just_told (Time 2) → ⊥ }
    ensures again { MayBeTold one_told (Time 2) → ⊥ }
    ensures unasked { MayBeTold one_told (Time 4) → ⊥ }
    ensures empty { MayBeTold just_told (Time 3) → ⊥ }
    ensures line { MayBeTold just_told (Said (codes "tick 1")) → ⊥ }
{}

/// In a stall a restart loses what both sides have written, and says so of the host first; a run that is cut short may end between.
pub fn worked_clearing()
    ensures both { ClearsLine false both_cleared }
    ensures in_part { ClearsLine false cleared_in_part }
{}

/// Each of these breaks one part of that: another number of bytes, one side left out, the chip first, and once more where nothing was lost.
pub fn rejected_clearing()
    ensures count { ClearsLine false miscounted → ⊥ }
    ensures left_out { ClearsLine false one_cleared → ⊥ }
    ensures order { ClearsLine false cleared_in_turn → ⊥ }
    ensures again { ClearsLine false cleared_again → ⊥ }
{}
