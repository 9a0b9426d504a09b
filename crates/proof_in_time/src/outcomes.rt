//! Final outcomes of commands, as the entries tell them.

ghost use Rattle.std.specs.Prelude.{◌≡◌, ◌≢◌, ◌⊎◌, ◌≤◌, ◌+◌, ◌*◌, ◌++◌, ◌∷◌, Bool, List, Some, [], false, length, suc, true, ℕ};
ghost use Rattle.s0_crypto.specs.declared.key_pair.Keys.{Keys};
ghost use Rattle.zw_text.specs.Transcript.{lines_run, outcome, shown};
ghost use Rattle.law_transcript.specs.Commands.{waiting};
ghost use Rattle.law_transcript.specs.Lists.{Has};
ghost use Rattle.law_transcript.specs.Restarts.{ticks_asked};
ghost use Rattle.law_time.specs.Sessions.{is_final, is_open};
ghost use Rattle.law_time.specs.Stretches.{Turn, accepted_for, commands_in, turn_of, turns, waited, wakes_last};
ghost use Rattle.law_time.specs.Stretches.Turn.{Wakes};
ghost use Rattle.chip_sim.specs.Nodes.{is_marked};
ghost use Rattle.device_sim.specs.State.{State};
ghost use Rattle.host_node.specs.State.{is_up};
ghost use Rattle.host_model.specs.State.{node_of};
ghost use Rattle.world_model.specs.State.{first_machine};
ghost use Rattle.world_lines.specs.Spoken.{Spoken, after_all, transcript_of};
ghost use Rattle.world_lines.specs.Done.{AreDone};
ghost use Rattle.proof_answered.specs.Turns.{marked_to};
ghost use Rattle.proof_in_time.specs.InHand.{ticks_of_all};
ghost use Rattle.proof_in_time.specs.Stretch.{IsListeningFor, IsLockStretchFor, IsOpenStretchFor, IsStretchFor};
ghost use Rattle.proof_in_time.specs.Waited.{waited_for};

use crate::commands_end_in_time;
use proof_host::asides_keep_facts;
use proof_spoken::{
    answers_stand_after_their_lines, interviews_give_what_is_known, lines_tell_what_nodes_list,
    runs_have_their_tables, the_machine_keeps_facts,
};
use proof_walk::time_goes_on;

/// Over a stretch as in `commands_end_in_time`, where the host listens to a node and an attempt of it takes so many ticks at most (`IsListeningFor`): each
/// command for it whose acceptance was entered in it has its final outcome in the entries, once lines have asked, from then on, for one tick, until whose end
/// the node may be blocked, and for each command that waits for the node then, and for one session that is open, for as many as there are of these nodes, and
/// those of an attempt, and one more (`accepted`); and so has each that waits as the stretch begins: after as many for each that waits and one more, where the
/// last session of its node has its final outcome (`waiting`); or, where the wait after a series of that session runs, after as many for each, once more, and
/// 102 more (`rests`). At most 16 wait (`few`), and no more than waited before some lines and were accepted in them (`waits`). For one node alone that sleeps
/// it has so each that waited or was accepted up to the `wake` line of the node, from the end of that line on, and after two ticks more (`woken`).
pub fn outcomes_come_in_time()
    ensures accepted { (long : ℕ) (these : List Bool) (n command sessions : ℕ) (keys : Keys) (devices : List State) (before first lines : List Spoken) →
        IsListeningFor these n keys devices before (first ++ lines) long → is_marked these n ≡ true →
        Has (shown (accepted_for n) (transcript_of (after_all (first_machine keys (Some []) devices) before) first)) command →
        suc (length (waiting n (transcript_of (first_machine keys (Some []) devices) (before ++ first)))) ≤ sessions →
        ticks_asked (lines_run (transcript_of (first_machine keys (Some []) devices) (before ++ first))) + (1 + ticks_of_all long these sessions) ≤
        ticks_asked (lines_run (transcript_of (first_machine keys (Some []) devices) (before ++ (first ++ lines)))) →
        is_final (outcome command (transcript_of (first_machine keys (Some []) devices) (before ++ (first ++ lines)))) ≡ true }
    ensures waiting { (long : ℕ) (these : List Bool) (n command sessions : ℕ) (keys : Keys) (devices : List State) (before lines : List Spoken) →
        IsListeningFor these n keys devices before lines long → is_marked these n ≡ true →
        Has (waiting n (transcript_of (first_machine keys (Some []) devices) before)) command →
        is_open n (transcript_of (first_machine keys (Some []) devices) before) ≡ false →
        length (waiting n (transcript_of (first_machine keys (Some []) devices) before)) ≤ sessions →
        ticks_asked (lines_run (transcript_of (first_machine keys (Some []) devices) before)) + (1 + ticks_of_all long these sessions) ≤
        ticks_asked (lines_run (transcript_of (first_machine keys (Some []) devices) (before ++ lines))) →
        is_final (outcome command (transcript_of (first_machine keys (Some []) devices) (before ++ lines))) ≡ true }
    ensures rests { (long : ℕ) (these : List Bool) (n command : ℕ) (keys : Keys) (devices : List State) (before lines : List Spoken) →
        IsListeningFor these n keys devices before lines long → is_marked these n ≡ true →
        Has (waiting n (transcript_of (first_machine keys (Some []) devices) before)) command →
        (node_of (after_all (first_machine keys (Some []) devices) before).host.state n).again_wait ≢ 0 →
        ticks_asked (lines_run (transcript_of (first_machine keys (Some []) devices) before)) +
        (102 + ticks_of_all long these (suc (length (waiting n (transcript_of (first_machine keys (Some []) devices) before))))) ≤
        ticks_asked (lines_run (transcript_of (first_machine keys (Some []) devices) (before ++ lines))) →
        is_final (outcome command (transcript_of (first_machine keys (Some []) devices) (before ++ lines))) ≡ true }
    ensures few { (n : ℕ) (keys : Keys) (devices : List State) (before : List Spoken) → AreDone (first_machine keys (Some []) devices) before →
        length (waiting n (transcript_of (first_machine keys (Some []) devices) before)) ≤ 16 }
    ensures waits { (n : ℕ) (keys : Keys) (devices : List State) (before first : List Spoken) →
        AreDone (first_machine keys (Some []) devices) (before ++ first) →
        length (waiting n (transcript_of (first_machine keys (Some []) devices) (before ++ first))) ≤
        length (commands_in (transcript_of (first_machine keys (Some []) devices) before)
        (transcript_of (after_all (first_machine keys (Some []) devices) before) first) n) }
    ensures woken { (these : List Bool) (n command sessions : ℕ) (keys : Keys) (devices : List State) (before first : List Spoken) (wake : Spoken)
        (lines : List Spoken) →
        IsStretchFor these keys devices before (first ++ wake ∷ lines) → is_marked these n ≡ true →
        is_up (node_of (after_all (first_machine keys (Some []) devices) before).host.state n) ≡ false → turn_of n wake.line ≡ Wakes ∷ [] →
        Has (commands_in (transcript_of (first_machine keys (Some []) devices) before)
        (transcript_of (after_all (first_machine keys (Some []) devices) before) (first ++ wake ∷ [])) n) command →
        suc (length (waiting n (transcript_of (first_machine keys (Some []) devices) (before ++ (first ++ wake ∷ []))))) ≤ sessions →
        ticks_asked (lines_run (transcript_of (first_machine keys (Some []) devices) (before ++ (first ++ wake ∷ [])))) + (2 + ticks_of_all 6 these sessions) ≤
        ticks_asked (lines_run (transcript_of (first_machine keys (Some []) devices) (before ++ (first ++ wake ∷ lines)))) →
        is_final (outcome command (transcript_of (first_machine keys (Some []) devices) (before ++ (first ++ wake ∷ lines)))) ≡ true }
{
    asides_keep_facts();
    commands_end_in_time();
    lines_tell_what_nodes_list();
    runs_have_their_tables();
    the_machine_keeps_facts();
    time_goes_on();
}

/// So over such a stretch, for 16 nodes at most: each command of one of these nodes, whether it waited before the stretch or was accepted in it, has its final
/// outcome in the entries, where the stretch waits for 500 ticks after its last order or `wake` line, or, after the last one for this node (`waited_for`),
/// for 24 ticks for each of its commands, once more, and 101 more, whatever goes on with the other nodes. Where the host listens to these nodes, one for
/// which a command waits as the stretch begins has no session open, or the wait after a series of that one runs (`listening`). One node alone that sleeps is
/// woken once, after its orders; it takes 30 ticks for each of its commands (`sleeping`). And so it is of one node alone that listens and whose messages may
/// go in segments (`openly`), or that is a lock (`sealed`).
pub fn stretches_end_in_time()
    ensures listening { (these : List Bool) (n command : ℕ) (keys : Keys) (devices : List State) (before lines : List Spoken) →
        IsStretchFor these keys devices before lines → is_marked these n ≡ true → marked_to these 232 ≤ 16 →
        (node_of (after_all (first_machine keys (Some []) devices) before).host.state n).listens ≡ true →
        (Has (waiting n (transcript_of (first_machine keys (Some []) devices) before)) command →
        (is_open n (transcript_of (first_machine keys (Some []) devices) before) ≡ false) ⊎
        ((node_of (after_all (first_machine keys (Some []) devices) before).host.state n).again_wait ≢ 0)) →
        Has (commands_in (transcript_of (first_machine keys (Some []) devices) before)
        (transcript_of (after_all (first_machine keys (Some []) devices) before) lines) n) command →
        (500 ≤ waited (transcript_of (after_all (first_machine keys (Some []) devices) before) lines)) ⊎
        (101 + 24 * suc (length (commands_in (transcript_of (first_machine keys (Some []) devices) before)
        (transcript_of (after_all (first_machine keys (Some []) devices) before) lines) n)) ≤
        waited_for n (transcript_of (after_all (first_machine keys (Some []) devices) before) lines)) →
        is_final (outcome command (transcript_of (first_machine keys (Some []) devices) (before ++ lines))) ≡ true }
    ensures sleeping { (these : List Bool) (n command : ℕ) (keys : Keys) (devices : List State) (before lines : List Spoken) →
        IsStretchFor these keys devices before lines → is_marked these n ≡ true → marked_to these 232 ≤ 16 →
        is_up (node_of (after_all (first_machine keys (Some []) devices) before).host.state n) ≡ false →
        wakes_last (turns n (transcript_of (after_all (first_machine keys (Some []) devices) before) lines)) ≡ true →
        Has (commands_in (transcript_of (first_machine keys (Some []) devices) before)
        (transcript_of (after_all (first_machine keys (Some []) devices) before) lines) n) command →
        (500 ≤ waited (transcript_of (after_all (first_machine keys (Some []) devices) before) lines)) ⊎
        (101 + 30 * suc (length (commands_in (transcript_of (first_machine keys (Some []) devices) before)
        (transcript_of (after_all (first_machine keys (Some []) devices) before) lines) n)) ≤
        waited_for n (transcript_of (after_all (first_machine keys (Some []) devices) before) lines)) →
        is_final (outcome command (transcript_of (first_machine keys (Some []) devices) (before ++ lines))) ≡ true }
    ensures openly { (these : List Bool) (n command : ℕ) (keys : Keys) (devices : List State) (before lines : List Spoken) →
        IsOpenStretchFor these keys devices before lines → is_marked these n ≡ true →
        (Has (waiting n (transcript_of (first_machine keys (Some []) devices) before)) command →
        (is_open n (transcript_of (first_machine keys (Some []) devices) before) ≡ false) ⊎
        ((node_of (after_all (first_machine keys (Some []) devices) before).host.state n).again_wait ≢ 0)) →
        Has (commands_in (transcript_of (first_machine keys (Some []) devices) before)
        (transcript_of (after_all (first_machine keys (Some []) devices) before) lines) n) command →
        101 + 30 * suc (length (commands_in (transcript_of (first_machine keys (Some []) devices) before)
        (transcript_of (after_all (first_machine keys (Some []) devices) before) lines) n)) ≤
        waited_for n (transcript_of (after_all (first_machine keys (Some []) devices) before) lines) →
        is_final (outcome command (transcript_of (first_machine keys (Some []) devices) (before ++ lines))) ≡ true }
    ensures sealed { (these : List Bool) (n command : ℕ) (keys : Keys) (devices : List State) (before lines : List Spoken) →
        IsLockStretchFor these keys devices before lines → is_marked these n ≡ true →
        (Has (waiting n (transcript_of (first_machine keys (Some []) devices) before)) command →
        (is_open n (transcript_of (first_machine keys (Some []) devices) before) ≡ false) ⊎
        ((node_of (after_all (first_machine keys (Some []) devices) before).host.state n).again_wait ≢ 0)) →
        Has (commands_in (transcript_of (first_machine keys (Some []) devices) before)
        (transcript_of (after_all (first_machine keys (Some []) devices) before) lines) n) command →
        101 + 30 * suc (length (commands_in (transcript_of (first_machine keys (Some []) devices) before)
        (transcript_of (after_all (first_machine keys (Some []) devices) before) lines) n)) ≤
        waited_for n (transcript_of (after_all (first_machine keys (Some []) devices) before) lines) →
        is_final (outcome command (transcript_of (first_machine keys (Some []) devices) (before ++ lines))) ≡ true }
{
    answers_stand_after_their_lines();
    interviews_give_what_is_known();
    lines_tell_what_nodes_list();
    outcomes_come_in_time();
    the_machine_keeps_facts();
}
