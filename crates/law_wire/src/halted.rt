//! What the law of devices says of runs that an allocation failure ended.

ghost use Rattle.std.specs.Prelude.{[], ◌∷◌};
ghost use Rattle.law_transcript.specs.device_sim.Event.DeviceEvent.{Sets};
ghost use Rattle.law_transcript.specs.Devices.{after_events};
ghost use Rattle.law_transcript.specs.Worked.{the_sensor, the_switch};
ghost use Rattle.law_wire.specs.Halted.{RanAsFar};
ghost use Rattle.law_wire.specs.WorkedHalted.{
  events_halted,
  heard_alone,
  not_answered,
  sleeper,
  stirred,
  grown_old,
  quiet_line,
  set_before,
  ticked_before,
  woken_before,
  set_otherwise,
  woken_otherwise,
  two_messages,
};

/// Where an allocation failure ends a plain exchange a device has changed though the entry of that lacks, or its answer lacks; it may have ended with all
/// entered, or before the device heard anything.
pub fn worked_halted()
    ensures heard { RanAsFar 2 heard_alone the_switch (after_events the_switch events_halted) }
    ensures changed { RanAsFar 2 not_answered the_switch (after_events the_switch events_halted) }
    ensures unheard { RanAsFar 2 heard_alone the_switch the_switch }
{}

/// Each of these breaks one part of the law: a device is other than what came makes it; before the last line it was set by hand, a tick passed, or
/// it was woken, and it was not, lived none, or did not say so; in the last line it lived a tick that no line asks for, was woken by no line, was
/// set to another value, said something else, or took two messages that are not shown; and a change is shown that was not made.
pub fn rejected_halted()
    ensures stirred { RanAsFar 5 quiet_line sleeper stirred → ⊥ }
    ensures unset { RanAsFar 5 set_before sleeper sleeper → ⊥ }
    ensures unticked { RanAsFar 5 ticked_before sleeper sleeper → ⊥ }
    ensures silent { RanAsFar 5 woken_before sleeper the_sensor → ⊥ }
    ensures older { RanAsFar 5 quiet_line sleeper grown_old → ⊥ }
    ensures unasked { RanAsFar 5 quiet_line sleeper the_sensor → ⊥ }
    ensures otherwise { RanAsFar 5 set_otherwise sleeper (after_events sleeper (Sets 2 ∷ [])) → ⊥ }
    ensures words { RanAsFar 5 woken_otherwise sleeper the_sensor → ⊥ }
    ensures two { RanAsFar 2 quiet_line the_switch (after_events the_switch two_messages) → ⊥ }
    ensures unmade { RanAsFar 2 not_answered the_switch the_switch → ⊥ }
{}
