//! When the commands of a stretch by its text have their outcomes.

ghost use Rattle.std.specs.Prelude.{◌≡◌, ◌≢◌, ◌++◌, true, List, ℕ};
ghost use Rattle.std.specs.List.{list_all};
ghost use Rattle.s0_crypto.specs.declared.key_pair.Keys.{Keys};
ghost use Rattle.zw_text.specs.Transcript.{joined, outcome};
ghost use Rattle.law_wire.specs.law_transcript.Lists.{Has};
ghost use Rattle.law_wire.specs.law_transcript.Nodes.{is_joined};
ghost use Rattle.law_time.specs.Sessions.{is_final};
ghost use Rattle.law_time.specs.Stretches.{commands_in};
ghost use Rattle.proof_rests.specs.proof_attempts.proof_host.device_sim.State.{State};
ghost use Rattle.proof_rests.specs.proof_requests.host_model.State.{node_of};
ghost use Rattle.proof_rests.specs.world_lines.Spoken.{Spoken, transcript_of};
ghost use Rattle.proof_ready.specs.Ease.{AfterLines, clock_of};
ghost use Rattle.proof_ready.specs.Ready.{IsLongFor};
ghost use Rattle.proof_ready.specs.Stretch.{IsStretchByText, first_of, moment, told_before, told_in};
ghost use Rattle.law_time.specs.Calm.{is_not_stuck, is_series_to_come};

use crate::host::calm_hosts_are_done;
use crate::known::workers_are_known;
use crate::nodes::joined_nodes_are_there;
use crate::ready::sleepers_are_asleep;
use crate::stretch::still_stretches_begin;
use proof_in_time::stretches_end_in_time;

/// Where another series of attempts of a joined node is to come by the transcript, the wait for it runs in the host.
pub fn series_to_come_are_waited_for()
    ensures { AfterLines (λ devices past m. (n : ℕ) → is_joined past n ≡ true → is_series_to_come past (clock_of past) n ≡ true →
        (node_of m.host.state n).again_wait ≢ 0) }
{
    calm_hosts_are_done();
    joined_nodes_are_there();
}

/// So over a stretch by its text (`IsStretchByText`), where as it begins another series is to come for each listening node for which a command waits and whose
/// session is open: once a joined node has had its ticks since the last order or `wake` line (`IsLongFor`), each command of it, whether it waited before or was
/// accepted in the stretch, has its final outcome in the entries.
pub fn still_stretches_end_in_time()
    ensures { (key : List ℕ) (keys : Keys) (devices : List State) (before lines : List Spoken) (n command : ℕ) →
        (text : IsStretchByText key keys devices before lines) →
        list_all (is_not_stuck (told_before keys devices before) (clock_of (told_before keys devices before)))
        (joined (told_before keys devices before)) ≡ true →
        is_joined (told_before keys devices before) n ≡ true →
        Has (commands_in (told_before keys devices before) (told_in keys devices before lines) n) command →
        IsLongFor (moment keys devices before).outside.devices (told_before keys devices before) (told_in keys devices before lines) text.are_fit n →
        is_final (outcome command (transcript_of (first_of keys devices) (before ++ lines))) ≡ true }
{
    calm_hosts_are_done();
    joined_nodes_are_there();
    series_to_come_are_waited_for();
    sleepers_are_asleep();
    still_stretches_begin();
    stretches_end_in_time();
    workers_are_known();
}
