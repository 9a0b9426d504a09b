//! Time, at each phase of a line.

ghost use Rattle.std.specs.Prelude.{Option, List, [], ℕ};
ghost use Rattle.s0_crypto.specs.declared.key_pair.Keys.{Keys};
ghost use Rattle.proof_device.specs.device_sim.State.{State};
ghost use Rattle.proof_device.specs.world_model.State.{first_machine};
ghost use Rattle.proof_walk.specs.Phases.{Between};
ghost use Rattle.proof_walk.specs.Walk.{Walk};
ghost use Rattle.proof_walk.specs.Time.{MayCount, KnowTime};

/// At each phase of a line, so many ticks have begun as lines have asked for, but for those that are still to come; the number of a tick is above
/// those before it, and lines have asked for so many.
pub fn time_goes_on()
    ensures walk { Walk MayCount KnowTime }
    ensures first { (keys : Keys) (records : Option (List (List ℕ))) (devices : List State) → KnowTime Between [] (first_machine keys records devices) }
{}
