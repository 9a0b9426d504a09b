//! What the law of errands says of worked transcripts, and of others in which one is left.

ghost use Rattle.std.specs.Prelude.{true};
ghost use Rattle.law_time.specs.WorkedWaits.{answered_errands};
ghost use Rattle.law_time.specs.WrongEntries.{left_unsaid_in_silence};
ghost use Rattle.law_time.specs.WrongWaits.{left_unsent};
ghost use Rattle.proof_rests.specs.Undone.{LeavesNothing};

/// Sets and Gets that were asked for, sent and answered keep the law.
pub fn worked_rests()
    ensures { LeavesNothing true answered_errands }
{}

/// It is broken where a Set is not sent before the next line, and where a Get ends in silence in the last tick and its end is not said.
pub fn rejected_rests()
    ensures unsent { LeavesNothing true left_unsent → ⊥ }
    ensures unsaid { LeavesNothing true left_unsaid_in_silence → ⊥ }
{}
