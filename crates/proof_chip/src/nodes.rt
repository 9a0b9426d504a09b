//! The nodes that the chip knows.

ghost use Rattle.std.specs.Prelude.{◌≡◌, Option, List, [], ℕ};
ghost use Rattle.s0_crypto.specs.declared.key_pair.Keys.{Keys};
ghost use Rattle.outside_model.specs.Devices.{State};
ghost use Rattle.zw_text.specs.declared.entry.Entry.{Entry};
ghost use Rattle.world_model.specs.State.{Machine, first_machine};
ghost use Rattle.proof_air.specs.proof_walk.Walk.{Walk};
ghost use Rattle.proof_chip.specs.Knowing.{AnyEntry, KnownNodes};

/// At each phase of a line chip and air know the same joined nodes: both learn of a node only where it joins.
pub fn nodes_go_on()
    ensures walk { Walk AnyEntry (λ here past m. KnownNodes past m) }
    ensures first { (keys : Keys) (records : Option (List (List ℕ))) (devices : List State) → KnownNodes [] (first_machine keys records devices) }
    ensures same { (past : List Entry) (m : Machine) → KnownNodes past m → m.outside.outer.chip.state.joined ≡ m.outside.outer.air.joined }
{}
