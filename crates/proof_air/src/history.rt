//! The history of the air, at each phase of a line.

ghost use Rattle.std.specs.Prelude.{Option, List, [], ℕ};
ghost use Rattle.s0_crypto.specs.declared.key_pair.Keys.{Keys};
ghost use Rattle.law_wire.specs.device_sim.State.{State};
ghost use Rattle.proof_walk.specs.world_model.State.{first_machine};
ghost use Rattle.proof_walk.specs.Phases.{Between};
ghost use Rattle.proof_walk.specs.Walk.{Walk};
ghost use Rattle.proof_air.specs.Hearing.{KnowAir, MayHear};

/// At each phase of a line the history that the air keeps is the one that the transcript shows: the frames that went on the air, and the sessions that began.
pub fn history_goes_on()
    ensures walk { Walk MayHear KnowAir }
    ensures first { (keys : Keys) (records : Option (List (List ℕ))) (devices : List State) → KnowAir Between [] (first_machine keys records devices) }
{
    chip_sim::rules_of_events();
}
