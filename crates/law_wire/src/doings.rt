//! What the laws of where devices' doings stand, and of what is shown of devices, say of worked transcripts and of others with one thing wrong.

ghost use Rattle.std.specs.Prelude.{[], ◌∷◌, true};
ghost use Rattle.law_transcript.specs.Worked.{plain_exchange, the_switch};
ghost use Rattle.law_transcript.specs.WorkedDevices.{by_hand, switch_at_work, worked_out};
ghost use Rattle.law_wire.specs.Doings.{DoesAtOnce, DoneByDevices};
ghost use Rattle.law_wire.specs.Serial.{ended};
ghost use Rattle.law_wire.specs.Shown.{ShowsDevices};
ghost use Rattle.law_wire.specs.WorkedDoings.{
  changed_by_none,
  changed_late,
  not_shown,
  shown_as_before,
  shown_twice,
  shown_unasked,
  table_within,
  told_by_none,
  told_early,
  told_late,
};

/// A switch does at once what comes to it: by a message, by a line, and in a tick of its own; and no node without a device does anything.
pub fn worked_doings()
    ensures plain { DoesAtOnce 2 the_switch (ended true plain_exchange) }
    ensures by_hand { DoesAtOnce 2 the_switch (ended true by_hand) }
    ensures working { DoesAtOnce 2 switch_at_work (ended true worked_out) }
    ensures devices { DoneByDevices (the_switch ∷ []) plain_exchange }
{}

/// Each of these breaks one part of that: a frame stands before what it tells of, a change or a frame stands a line later, and a node without a
/// device changes, or tells something.
pub fn rejected_doings()
    ensures early { DoesAtOnce 2 the_switch told_early → ⊥ }
    ensures changed_late { DoesAtOnce 2 the_switch changed_late → ⊥ }
    ensures told_late { DoesAtOnce 2 the_switch told_late → ⊥ }
    ensures changed_by_none { DoneByDevices (the_switch ∷ []) changed_by_none → ⊥ }
    ensures told_by_none { DoneByDevices (the_switch ∷ []) told_by_none → ⊥ }
{}

/// A switch is shown with the value that it has: before and after a line turns it on.
pub fn worked_showing()
    ensures plain { ShowsDevices (the_switch ∷ []) (ended true plain_exchange) }
    ensures twice { ShowsDevices (the_switch ∷ []) (ended true shown_twice) }
{}

/// Each of these breaks that: an old value, none, one more than was asked for, and a line of the table at the end within a run.
pub fn rejected_showing()
    ensures old { ShowsDevices (the_switch ∷ []) shown_as_before → ⊥ }
    ensures left_out { ShowsDevices (the_switch ∷ []) not_shown → ⊥ }
    ensures unasked { ShowsDevices (the_switch ∷ []) shown_unasked → ⊥ }
    ensures table { ShowsDevices (the_switch ∷ []) table_within → ⊥ }
{}
