//! A node that sleeps: what the host keeps of it, what its device hears, and its lines.

ghost use Rattle.std.specs.Prelude.{◌≡◌, ◌++◌, ◌∷◌, Bool, List, [], length, true, ℕ};
ghost use Rattle.zw_text.specs.Transcript.{line_of, lines_run};
ghost use Rattle.zw_text.specs.declared.entry.Entry.{Entry};
ghost use Rattle.zw_text.specs.declared.entry.Entry.TheVariants.{Said};
ghost use Rattle.zw_text.specs.declared.line.Line.{Line};
ghost use Rattle.law_time.specs.Stretches.{turns, wakes_last, wakes_never};
ghost use Rattle.chip_sim.specs.Nodes.{is_marked};
ghost use Rattle.device_sim.specs.State.{State};
ghost use Rattle.mesh_sim.specs.Air.{is_joined};
ghost use Rattle.world_model.specs.Events.{Event, May, entries, happens};
ghost use Rattle.world_model.specs.State.{Machine};
ghost use Rattle.proof_calm.specs.proof_work.proof_walk.Phases.{Between, Goes, Phase, Said_line, Turns};
ghost use Rattle.proof_calm.specs.Resting.{LineAt};
ghost use Rattle.proof_answered.specs.FirstAttempts.{IsInTime};
ghost use Rattle.proof_answered.specs.Sleepers.{AreWokenSo, HasSleeper, IsAlone};
ghost use Rattle.proof_answered.specs.Sleepers.{SaysAs, SleeperAt, StaysUp, wakes_at_most_last};
ghost use Rattle.proof_answered.specs.Workers.{IsWorkedFor, KnowStaff};

use proof_calm::frames_fly_in_order;
use proof_device::devices_stay_the_same;

/// Where a node is woken once, after its orders, or never, no `wake` line of it stands before another line of it.
pub fn nodes_are_woken_last()
    ensures last { (n : ℕ) (stretch : List Entry) → wakes_last (turns n stretch) ≡ true → wakes_at_most_last (turns n stretch) ≡ true }
    ensures never { (n : ℕ) (stretch : List Entry) → wakes_never (turns n stretch) ≡ true → wakes_at_most_last (turns n stretch) ≡ true }
{}

/// A node that sleeps, alone in its stretch, is where that may be at each phase: not woken yet; woken, with its Notification on the way to the host; up, in the
/// host too; told that there is no more for it; or asleep again, with nothing left. So it is where its device stays awake while that is wanted, what the device
/// says tells of no waking and asks for nothing, and no attempt ends without a report.
pub fn sleepers_are_where_they_may_be()
    ensures said { (these : List Bool) (n : ℕ) → is_marked these n ≡ true → (device : State) (past : List Entry) (m : Machine) (words : List ℕ)
        (line : Line) → line_of (Said words) ≡ line ∷ [] → AreWokenSo these (past ++ Said words ∷ []) → SleeperAt n device Between past m →
        SleeperAt n device (Said_line line) (past ++ Said words ∷ []) m }
    ensures turn { (n : ℕ) (device : State) (here next : Phase) (past : List Entry) (m : Machine) → Turns here m next → LineAt here m →
        SleeperAt n device here past m → SleeperAt n device next past m }
    ensures event { (these : List Bool) (n : ℕ) → IsAlone these n → length these ≡ 233 → (here next : Phase) (past : List Entry) (m : Machine)
        (event : Event) → Goes here m event next → May m event → IsWorkedFor these (past ++ entries m event) → KnowStaff these here past m →
        KnowStaff these next (past ++ entries m event) (happens m event) → lines_run (entries m event) ≡ [] → is_joined m.outside.outer.air n ≡ true →
        IsInTime m event → StaysUp these m event → SaysAs these m event → (is : HasSleeper n m.outside.devices) →
        (later : HasSleeper n (happens m event).outside.devices) → SleeperAt n is.device here past m →
        SleeperAt n later.device next (past ++ entries m event) (happens m event) }
{
    devices_stay_the_same();
    frames_fly_in_order();
}
