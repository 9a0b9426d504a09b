//! When the sessions of commands are over.

ghost use Rattle.std.specs.Prelude.{◌≡◌, ◌≤◌, ◌+◌, ◌++◌, ◌∷◌, Bool, List, Some, [], false, length, suc, true, ℕ};
ghost use Rattle.s0_crypto.specs.declared.key_pair.Keys.{Keys};
ghost use Rattle.chip_sim.specs.Nodes.{is_marked};
ghost use Rattle.device_sim.specs.State.{State};
ghost use Rattle.law_time.specs.Stretches.{Turn, turn_of};
ghost use Rattle.law_time.specs.Stretches.Turn.{Wakes};
ghost use Rattle.host_node.specs.State.{is_up};
ghost use Rattle.host_model.specs.State.{Command, command_at, node_of};
ghost use Rattle.world_model.specs.State.{first_machine};
ghost use Rattle.world_lines.specs.Spoken.{Spoken, after_all};
ghost use Rattle.proof_in_time.specs.InHand.{HasEnded, IsGiven, IsInHand, RestsBefore, ticks_begun, ticks_blocked, ticks_of_all};
ghost use Rattle.proof_in_time.specs.Stretch.{IsListeningFor, IsStretchFor};

use crate::{
    locks_never_run_out, locks_stay_in_step, messages_are_answered, nodes_stay_in_step,
    open_waits_never_run_out, waits_never_run_out,
};
use host_model::facts_are_kept;
use proof_answered::{attempts_stay_first, frames_fly_in_order, nodes_are_served_in_turn};
use proof_course_plain::{devices_go_on, devices_stay_the_same};
use proof_messages::reports_tell;
use proof_walk::time_goes_on;

/// Over lines as in `waits_never_run_out`, `open_waits_never_run_out` or `locks_never_run_out`, for nodes to which the host listens: after some of these, a
/// command for one of these nodes that waits there, or whose session is open and has a series that is due or runs, has the final outcome of its session once so
/// many ticks have begun from then on as there are of these nodes, and those of an attempt, and one more, for each session of its node up to its own
/// (`in_hand`), and one more where the node is blocked there: since the keeper failed for a session of it, it is so until its next tick. For with each tick the
/// turn of the node comes nearer, and from its attempt on as many ticks begin at most until the host is told as that takes (`long`): six and one where messages
/// go whole, sealed or not, 23 and one where they may go in segments. One that waits after a session that is open and whose series is over has it once the wait
/// until the next series has gone down, and as many ticks for its own session and each of those before (`rests`). So each command that was accepted in these
/// lines has it (`accepted`) within as many such spans as commands wait for its node there, and one more for the session that is open, and that one tick more
/// where the node is blocked: it stands among those that wait, or its session is open. As the stretch begins no task of the host waits, what is on its way to
/// it asks for none, and it listens to these nodes. So it stays where no attempt runs: what they answer asks for a nonce or a segment only while one does. Of
/// one node alone that sleeps, each command that waited as the stretch began, or was accepted in it, has it within as many spans, and two ticks more, from the
/// end of its `wake` line on (`woken`): its Notification comes to the host in the next tick, and the node stays up while something is left for it.
pub fn commands_end_in_time()
    ensures in_hand { (long : ℕ) (these : List Bool) (n command more : ℕ) (keys : Keys) (devices : List State) (before first lines : List Spoken) →
        IsListeningFor these n keys devices before (first ++ lines) long → is_marked these n ≡ true →
        IsInHand command more (node_of (after_all (first_machine keys (Some []) devices) (before ++ first)).host.state n) →
        ticks_begun (after_all (first_machine keys (Some []) devices) (before ++ first)) +
        (ticks_blocked (node_of (after_all (first_machine keys (Some []) devices) (before ++ first)).host.state n) + ticks_of_all long these (suc more)) ≤
        ticks_begun (after_all (first_machine keys (Some []) devices) (before ++ (first ++ lines))) →
        HasEnded command (node_of (after_all (first_machine keys (Some []) devices) (before ++ (first ++ lines))).host.state n).book }
    ensures rests { (long : ℕ) (these : List Bool) (n command more : ℕ) (keys : Keys) (devices : List State) (before first lines : List Spoken) →
        IsListeningFor these n keys devices before (first ++ lines) long → is_marked these n ≡ true →
        RestsBefore command more (node_of (after_all (first_machine keys (Some []) devices) (before ++ first)).host.state n) →
        ticks_begun (after_all (first_machine keys (Some []) devices) (before ++ first)) +
        ((node_of (after_all (first_machine keys (Some []) devices) (before ++ first)).host.state n).again_wait +
        (1 + ticks_of_all long these (suc (suc more)))) ≤
        ticks_begun (after_all (first_machine keys (Some []) devices) (before ++ (first ++ lines))) →
        HasEnded command (node_of (after_all (first_machine keys (Some []) devices) (before ++ (first ++ lines))).host.state n).book }
    ensures accepted { (long : ℕ) (these : List Bool) (n command sessions : ℕ) (found : Command) (keys : Keys) (devices : List State)
        (before first lines : List Spoken) →
        IsListeningFor these n keys devices before (first ++ lines) long → is_marked these n ≡ true →
        command_at (after_all (first_machine keys (Some []) devices) (before ++ first)).host.state.commands command ≡ Some found →
        found.order.node ≡ n →
        length (after_all (first_machine keys (Some []) devices) before).host.state.commands + 1 ≤ command →
        length (node_of (after_all (first_machine keys (Some []) devices) (before ++ first)).host.state n).waiting + 1 ≤ sessions →
        ticks_begun (after_all (first_machine keys (Some []) devices) (before ++ first)) +
        (ticks_blocked (node_of (after_all (first_machine keys (Some []) devices) (before ++ first)).host.state n) + ticks_of_all long these sessions) ≤
        ticks_begun (after_all (first_machine keys (Some []) devices) (before ++ (first ++ lines))) →
        HasEnded command (node_of (after_all (first_machine keys (Some []) devices) (before ++ (first ++ lines))).host.state n).book }
    ensures woken { (these : List Bool) (n command sessions : ℕ) (keys : Keys) (devices : List State) (before first : List Spoken) (wake : Spoken)
        (lines : List Spoken) →
        IsStretchFor these keys devices before (first ++ wake ∷ lines) → is_marked these n ≡ true →
        is_up (node_of (after_all (first_machine keys (Some []) devices) before).host.state n) ≡ false → turn_of n wake.line ≡ Wakes ∷ [] →
        IsGiven n command (after_all (first_machine keys (Some []) devices) before).host.state
        (after_all (first_machine keys (Some []) devices) (before ++ (first ++ wake ∷ []))).host.state →
        length (node_of (after_all (first_machine keys (Some []) devices) (before ++ (first ++ wake ∷ []))).host.state n).waiting + 1 ≤ sessions →
        ticks_begun (after_all (first_machine keys (Some []) devices) (before ++ (first ++ wake ∷ []))) + (2 + ticks_of_all 6 these sessions) ≤
        ticks_begun (after_all (first_machine keys (Some []) devices) (before ++ (first ++ wake ∷ lines))) →
        HasEnded command (node_of (after_all (first_machine keys (Some []) devices) (before ++ (first ++ wake ∷ lines))).host.state n).book }
{
    attempts_stay_first();
    devices_go_on();
    devices_stay_the_same();
    facts_are_kept();
    frames_fly_in_order();
    locks_never_run_out();
    locks_stay_in_step();
    messages_are_answered();
    nodes_are_served_in_turn();
    nodes_stay_in_step();
    open_waits_never_run_out();
    reports_tell();
    time_goes_on();
    waits_never_run_out();
}
