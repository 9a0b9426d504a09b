//! The results that the chip waits for.

ghost use Rattle.std.specs.Prelude.{◌≡◌, Option, None, List, [], ℕ};
ghost use Rattle.s0_crypto.specs.declared.key_pair.Keys.{Keys};
ghost use Rattle.outside_model.specs.Devices.{State};
ghost use Rattle.zw_text.specs.declared.entry.Entry.{Entry};
ghost use Rattle.world_model.specs.State.{Machine, first_machine};
ghost use Rattle.proof_air.specs.proof_walk.Phases.{Between, Giving};
ghost use Rattle.proof_air.specs.proof_walk.Walk.{WalkOver};
ghost use Rattle.proof_air.specs.Hearing.{KnowAir};
ghost use Rattle.proof_chip.specs.Knowing.{AnyEntry};
ghost use Rattle.proof_chip.specs.Calling.{KnowCalls};

use proof_line::{
    frames_fly_in_order, hosts_make_requests, outsides_make_requests, requests_keep_facts,
};

/// At each phase of a line, where the history of the air is known, the chip waits for one result of each SendData that was aborted, and of the one under way:
/// those of its frames on the air, and those without a route that are due. So where all results of a tick have come, none is under way.
pub fn calls_go_on()
    ensures walk { WalkOver KnowAir AnyEntry KnowCalls }
    ensures first { (keys : Keys) (records : Option (List (List ℕ))) (devices : List State) → KnowCalls Between [] (first_machine keys records devices) }
    ensures none { (ticks : ℕ) (past : List Entry) (m : Machine) → KnowCalls (Giving 0 ticks) past m → m.outside.outer.chip.state.sending ≡ None }
{
    frames_fly_in_order();
    requests_keep_facts();
    hosts_make_requests();
    outsides_make_requests();
}
