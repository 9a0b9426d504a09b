//! First attempts, over quiet lines.

ghost use Rattle.std.specs.Prelude.{◌≡◌, Bool, List, length, ℕ};
ghost use Rattle.s0_crypto.specs.declared.key_pair.Keys.{Keys};
ghost use Rattle.chip_functions.specs.declared.notice.Notice.TheVariants.{SendData};
ghost use Rattle.chip_functions.specs.declared.notice.TransmitStatus.TheVariants.{CompleteOk};
ghost use Rattle.chip_sim.specs.Answers.{notice_frame};
ghost use Rattle.host_requests.specs.declared.task.Purpose.TheVariants.{Attempt};
ghost use Rattle.host_requests.specs.declared.under_way.UnderWay.{UnderWay};
ghost use Rattle.host_node.specs.Steps.{after_sign};
ghost use Rattle.host_model.specs.Did.{after_all as after_events};
ghost use Rattle.host_model.specs.Events.{HostEvent};
ghost use Rattle.host_model.specs.State.{HostState, first_host, node_of, with_node};
ghost use Rattle.proof_calm.specs.proof_work.proof_walk.Walk.{WalkWhere};
ghost use Rattle.proof_calm.specs.proof_work.Phases.{AsksNothing};
ghost use Rattle.proof_calm.specs.Calls.{FrameFollows, IsSending};
ghost use Rattle.proof_answered.specs.Few.{IsStretched};
ghost use Rattle.proof_answered.specs.FirstAttempts.{AllFirst, AndInTime, KnowFirst};
ghost use Rattle.proof_answered.specs.Heard.{IsHeardFor, IsHeardThen, KnowHeard};
ghost use Rattle.proof_answered.specs.Workers.{IsWorkedFor, KnowStaff};

use crate::{payloads_are_heard, workers_alone_speak};
use proof_calm::frames_fly_in_order;

/// A request of an attempt that is called back as heard is a sign of its node, and the attempt goes on. So where each frame of the host that arrives is heard
/// and the wait of no attempt runs out, each series that is due or runs is at its first attempt, at each phase of quiet lines and ticks: where the chip is
/// asked for nodes of a set alone, or the lines are for nodes of a set.
pub fn attempts_stay_first()
    ensures well { (h : HostState) (u : UnderWay) (n : ℕ) (more : Bool) (payload : List ℕ) (events : List HostEvent) → IsSending u h →
        u.purpose ≡ Attempt n more payload → FrameFollows h (notice_frame (SendData h.requests.last_id CompleteOk)) events →
        (after_events h events).nodes ≡ (with_node h n (after_sign (node_of h n))).nodes }
    ensures first { (keys : Keys) → AllFirst (first_host keys) }
    ensures walk { (these : List Bool) → WalkWhere (AndInTime (IsHeardFor these)) AsksNothing (KnowFirst IsStretched (KnowHeard these)) }
    ensures working { (these : List Bool) → length these ≡ 233 →
        WalkWhere (AndInTime IsHeardThen) AsksNothing (KnowFirst (IsWorkedFor these) (KnowStaff these)) }
{
    frames_fly_in_order();
    payloads_are_heard();
    workers_alone_speak();
}
