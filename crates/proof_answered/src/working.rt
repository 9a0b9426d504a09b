//! Nodes at work, over quiet lines.

ghost use Rattle.std.specs.Prelude.{◌≡◌, Bool, List, Option, length, ℕ};
ghost use Rattle.s0_crypto.specs.declared.key_pair.Keys.{Keys};
ghost use Rattle.device_sim.specs.State.{State};
ghost use Rattle.host_model.specs.State.{first_host};
ghost use Rattle.world_model.specs.State.{first_machine};
ghost use Rattle.proof_calm.specs.proof_work.proof_walk.Walk.{WalkWhere};
ghost use Rattle.proof_calm.specs.proof_work.Phases.{AsksNothing};
ghost use Rattle.proof_answered.specs.Few.{AreIdle};
ghost use Rattle.proof_answered.specs.Heard.{IsHeardThen};
ghost use Rattle.proof_answered.specs.Workers.{IsWorkHeard, KnowStaff, KnowWorkers, KnowsWorkers, OnlySpeak};

use crate::payloads_are_heard;
use host_model::attempts_have_what_they_give;
use proof_calm::frames_fly_in_order;
use proof_device::devices_stay_the_same;

/// Where orders are for some nodes, and what comes to the host is of these, it has to do with these alone: of the others no series is due or runs, no command
/// waits, and none is to be told that there is no more for it. So what it asks for, and what the chip sends, is for these; and where each frame of the host
/// that arrives is heard, the call of each payload says so, at each phase of quiet lines and ticks. The other nodes may sleep.
pub fn workers_hear()
    ensures { (these : List Bool) → WalkWhere (IsWorkHeard these) AsksNothing (KnowWorkers these) }
{
    attempts_have_what_they_give();
    frames_fly_in_order();
    payloads_are_heard();
}

/// At first nothing is to be done for any node, and where no device is at work nobody speaks. Where the orders of a stretch that are accepted are for some
/// nodes, and its `wake` lines too, and no device of another node is at work, these alone speak on the air. So what comes to the host is of these, it has to do
/// with these alone, and each payload that it asks to send is for one of these. Of events no more is assumed than that each frame of the host that arrives is
/// heard; so the call of each payload says that.
pub fn workers_alone_speak()
    ensures first { (these : List Bool) (keys : Keys) (records : Option (List (List ℕ))) (devices : List State) → AreIdle devices →
        KnowsWorkers these (first_host keys) × OnlySpeak these (first_machine keys records devices) }
    ensures walk { (these : List Bool) → length these ≡ 233 → WalkWhere IsHeardThen AsksNothing (KnowStaff these) }
{
    devices_stay_the_same();
    frames_fly_in_order();
    workers_hear();
}
