//! That commands are answered in time, and end as their devices judge them, as laws of the transcript.

ghost use Rattle.std.specs.Prelude.{◌≡◌, ◌++◌, true, false, List, [], ◌∷◌, ℕ, codes};
ghost use Rattle.std.specs.List.{list_all, AllByRecursion};
ghost use Rattle.s0_crypto.specs.declared.key_pair.Keys.{Keys};
ghost use Rattle.s0_crypto.specs.Sealing.{keys_of};
ghost use Rattle.zw_text.specs.declared.entry.Entry.TheVariants.{Said};
ghost use Rattle.zw_text.specs.Transcript.{joined};
ghost use Rattle.law_wire.specs.law_transcript.Headline.{IsAsMade};
ghost use Rattle.law_wire.specs.law_transcript.Lists.{Has};
ghost use Rattle.law_wire.specs.law_transcript.Worked.{plain_exchange, the_switch};
ghost use Rattle.law_time.specs.Calm.{is_not_stuck};
ghost use Rattle.law_time.specs.Stretches.{AnswersAlone, AnswersAsleep, AnswersTogether, EndsAsJudged, commands_in, workers};
ghost use Rattle.law_time.specs.Verdicts.{is_answered};
ghost use Rattle.law_time.specs.WorkedStretches.{before_failing, failing_as_success, success_as_failing, the_thermostat, with_other};
ghost use Rattle.law_time.specs.WrongWaits.{left_in_time};
ghost use Rattle.proof_rests.specs.proof_attempts.proof_host.device_sim.State.{State};
ghost use Rattle.proof_rests.specs.world_lines.Spoken.{Spoken};
ghost use Rattle.proof_rests.specs.world_lines.Done.{AreDone};
ghost use Rattle.proof_rests.specs.world_lines.Whole.{AreWhole};
ghost use Rattle.proof_ready.specs.Ease.{clock_of};
ghost use Rattle.proof_ready.specs.Each.{AnswersEach, is_each_long, is_time_for};
ghost use Rattle.proof_ready.specs.Ready.{IsLongFor};
ghost use Rattle.proof_ready.specs.Stretch.{IsStretchByText, first_of, moment, told_before, told_in};

use crate::nodes::joined_nodes_are_there;
use crate::stretch::workers_are_plain;
use crate::stuck::still_stretches_end_in_time;
use proof_in_time::{
    devices_go_on, devices_stay_the_same, locks_end_as_judged, nodes_are_plain_by_kind,
    stretches_end_as_judged,
};

/// So each command of a node at work in a stretch by its text (`IsStretchByText`), as it was for `still_stretches_end_in_time`, has the final outcome that its
/// device's kind says.
pub fn still_nodes_are_answered()
    ensures { (key : List ℕ) (keys : Keys) (devices : List State) (before lines : List Spoken) (n : ℕ) →
        (text : IsStretchByText key keys devices before lines) →
        list_all (is_not_stuck (told_before keys devices before) (clock_of (told_before keys devices before)))
        (joined (told_before keys devices before)) ≡ true →
        Has (workers (told_before keys devices before) (told_in keys devices before lines)) n →
        IsLongFor (moment keys devices before).outside.devices (told_before keys devices before) (told_in keys devices before lines) text.are_fit n →
        list_all (is_answered (moment keys devices before).outside.devices (told_before keys devices before) (told_in keys devices before lines) n)
        (commands_in (told_before keys devices before) (told_in keys devices before lines) n) ≡ true }
{
    joined_nodes_are_there();
    still_stretches_end_in_time();
    stretches_end_as_judged();
    workers_are_plain();
}

/// Wherever lines go on from others, all run whole, from the first machine on with devices as their makers left them: if the moment between is calm,
/// and the later lines are a stretch for plain listeners, each command of these has the final outcome that its device's kind says, once 500 ticks have
/// passed since the last order (`together`); and so it is of one plain node that sleeps, since its `wake` line (`asleep`); and of one node of any kind, that
/// takes segments or is a lock too, where 500 ticks have passed for each of its commands (`alone`). And so it is of each node by its own ticks, since its own
/// last order or `wake` line: 101, and for each of its commands and one more 30, or 24 where several plain listeners are at work (`each`).
pub fn stretches_are_answered_in_time()
    ensures together { (key : List ℕ) (devices : List State) (before lines : List Spoken) → AllByRecursion (IsAsMade key) devices →
        AreDone (first_of (keys_of key) devices) (before ++ lines) → AreWhole (first_of (keys_of key) devices) (before ++ lines) →
        AnswersTogether key (moment (keys_of key) devices before).outside.devices (told_before (keys_of key) devices before)
        (told_in (keys_of key) devices before lines) }
    ensures asleep { (key : List ℕ) (devices : List State) (before lines : List Spoken) → AllByRecursion (IsAsMade key) devices →
        AreDone (first_of (keys_of key) devices) (before ++ lines) → AreWhole (first_of (keys_of key) devices) (before ++ lines) →
        AnswersAsleep key (moment (keys_of key) devices before).outside.devices (told_before (keys_of key) devices before)
        (told_in (keys_of key) devices before lines) }
    ensures alone { (key : List ℕ) (devices : List State) (before lines : List Spoken) → AllByRecursion (IsAsMade key) devices →
        AreDone (first_of (keys_of key) devices) (before ++ lines) → AreWhole (first_of (keys_of key) devices) (before ++ lines) →
        AnswersAlone key (moment (keys_of key) devices before).outside.devices (told_before (keys_of key) devices before)
        (told_in (keys_of key) devices before lines) }
    ensures each { (key : List ℕ) (devices : List State) (before lines : List Spoken) → AllByRecursion (IsAsMade key) devices →
        AreDone (first_of (keys_of key) devices) (before ++ lines) → AreWhole (first_of (keys_of key) devices) (before ++ lines) →
        AnswersEach key (moment (keys_of key) devices before).outside.devices (told_before (keys_of key) devices before)
        (told_in (keys_of key) devices before lines) }
{
    still_nodes_are_answered();
}

/// Wherever lines go on from others, the last of which an allocation failure may have cut short, from the first machine on with devices as their makers left
/// them: where the later lines are quiet, each command of a node whose device lists Supervision, that has a final outcome, has the one that the device's kind
/// says.
pub fn stretches_end_by_kind()
    ensures { (key : List ℕ) (devices : List State) (before lines : List Spoken) → AllByRecursion (IsAsMade key) devices →
        AreDone (first_of (keys_of key) devices) (before ++ lines) →
        EndsAsJudged (moment (keys_of key) devices before).outside.devices (told_before (keys_of key) devices before)
        (told_in (keys_of key) devices before lines) }
{
    devices_go_on();
    devices_stay_the_same();
    locks_end_as_judged();
    nodes_are_plain_by_kind();
    stretches_end_as_judged();
}

/// A switch with one command has had its own ticks once 149 have passed, not 148, and a node of another kind alone with 161, not 160; and its command has the
/// outcome that is due.
pub fn worked_ends()
    ensures own { is_each_long (the_switch ∷ []) [] (with_other 8 (Said (codes "tick 149")) plain_exchange) 2 ≡ true }
    ensures soon { is_each_long (the_switch ∷ []) [] (with_other 8 (Said (codes "tick 148")) plain_exchange) 2 ≡ false }
    ensures alone { is_time_for 30 [] (with_other 8 (Said (codes "tick 161")) plain_exchange) 2 ≡ true }
    ensures alone_soon { is_time_for 30 [] (with_other 8 (Said (codes "tick 160")) plain_exchange) 2 ≡ false }
    ensures answered { AnswersEach [] (the_switch ∷ []) [] (with_other 8 (Said (codes "tick 149")) plain_exchange) }
{}

/// Where a command succeeds that its device does not take, or fails though it does, that is broken; and so it is where a command of a switch has no outcome
/// though 149 ticks have passed.
pub fn rejected_ends()
    ensures succeeded { EndsAsJudged (the_thermostat ∷ []) before_failing failing_as_success → ⊥ }
    ensures failed { EndsAsJudged (the_thermostat ∷ []) before_failing success_as_failing → ⊥ }
    ensures left { AnswersEach [] (the_switch ∷ []) [] (with_other 8 (Said (codes "tick 149")) left_in_time) → ⊥ }
{}
