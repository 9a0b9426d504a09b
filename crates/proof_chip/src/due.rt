//! What the chip has told of the results that are due to it.

ghost use Rattle.std.specs.Prelude.{◌≡◌, Option, List, [], ℕ};
ghost use Rattle.s0_crypto.specs.declared.key_pair.Keys.{Keys};
ghost use Rattle.outside_model.specs.Devices.{State};
ghost use Rattle.zw_text.specs.declared.entry.Entry.{Entry};
ghost use Rattle.law_transcript.specs.Lists.{EachAfter};
ghost use Rattle.world_model.specs.State.{Machine, first_machine};
ghost use Rattle.proof_air.specs.proof_walk.Phases.{Between};
ghost use Rattle.proof_air.specs.proof_walk.Walk.{WalkOver};
ghost use Rattle.proof_chip.specs.Knowing.{AnyEntry};
ghost use Rattle.proof_chip.specs.Told.{KnowResults, KnowTold, ToldBefore};

/// At each phase of a line, but for the time in a tick until all its results have come: where no entry of the tick tells that the chip took a payload or was to
/// ask what a node lists, nor that it dropped a frame, and no answer waits that tells so, no result is due to it.
pub fn results_are_told()
    ensures walk { WalkOver KnowResults AnyEntry KnowTold }
    ensures first { (keys : Keys) (records : Option (List (List ℕ))) (devices : List State) → KnowTold Between [] (first_machine keys records devices) }
    ensures none { (past : List Entry) (m : Machine) → KnowTold Between past m → EachAfter (ToldBefore m.outside.outer.clock) [] past →
        m.outside.outer.chip.state.port.waiting ≡ [] → m.outside.outer.due ≡ [] }
{}
