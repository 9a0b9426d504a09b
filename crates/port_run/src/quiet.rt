//! What a clock that takes a quiet moment for a tick makes of a run.

ghost use Rattle.std.specs.Prelude.{◌≡◌, ℕ, List, Some};
ghost use Rattle.s0_crypto.specs.declared.key_pair.Keys.{Keys};
ghost use Rattle.port_run.specs.Schedule.{is_quiet};
ghost use Rattle.port_run.specs.Ending.{Desk, RanAll, RanSome};
ghost use Rattle.port_run.specs.Quiet.{TicksComeLast};
ghost use Rattle.port_run.specs.declared.ending.Served.{Served};
ghost use Rattle.port_run.specs.declared.stop.Stop.{Stop};

/// Where a source tells its bytes, and the clock takes a quiet moment for a tick, no tick passes before the last byte was taken.
pub fn quiet_ticks_come_last()
    ensures all { (end : Served) (keys : Keys) (number : ℕ) (texts : List (List ℕ)) (old new : Desk) (input : List ℕ) → old.left ≡ Some input
        → (ran : RanAll end is_quiet keys number texts old new) → TicksComeLast ran.steps input }
    ensures some { (reason : Stop) (keys : Keys) (number : ℕ) (texts : List (List ℕ)) (old new : Desk) (input : List ℕ) → old.left ≡ Some input
        → (ran : RanSome reason is_quiet keys number texts old new) → TicksComeLast ran.broke.steps input }
{}
