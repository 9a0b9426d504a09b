//! Locks in step with the host, and which final outcome their commands have.

ghost use Rattle.std.specs.Prelude.{◌≡◌, ◌++◌, List, Some, [], true, ℕ};
ghost use Rattle.std.specs.List.{AllByRecursion, list_all};
ghost use Rattle.s0_crypto.specs.declared.key_pair.Keys.{Keys};
ghost use Rattle.s0_crypto.specs.Sealing.{keys_of};
ghost use Rattle.zw_text.specs.Transcript.{lines_run, outcome};
ghost use Rattle.law_transcript.specs.Headline.{IsAsMade};
ghost use Rattle.law_transcript.specs.Lists.{Has};
ghost use Rattle.law_transcript.specs.Nodes.{device_of};
ghost use Rattle.law_time.specs.Sessions.{is_final};
ghost use Rattle.law_time.specs.Stretches.{commands_in, is_quiet_line};
ghost use Rattle.law_time.specs.Verdicts.{is_answered};
ghost use Rattle.device_sim.specs.State.{State};
ghost use Rattle.world_model.specs.Did.{AllAlong};
ghost use Rattle.world_model.specs.State.{first_machine};
ghost use Rattle.world_lines.specs.Spoken.{Spoken, after_all, transcript_of};
ghost use Rattle.world_lines.specs.Done.{AreDone, events_of};
ghost use Rattle.proof_course_sealed.specs.LockNodes.{IsLockKind, IsLockNode};
ghost use Rattle.proof_in_time.specs.Locks.{LockGoes};

use crate::verdicts::stretches_end_as_judged;
use proof_course_plain::{
    at_most_two_are_on_the_air, hosts_write_well, lines_ask_plainly, lines_keep_and_ask_well,
    restarts_go_on, units_are_judged_whole,
};
use proof_course_sealed::{
    lines_ask_fitly, lines_have_courses, locks_as_made_begin_courses, locks_judge_what_is_asked,
    worlds_follow_the_courses,
};

/// Over any lines from the first machine on, whatever is lost, repeated or changed and however often the host starts again: where the first device of a node
/// is a lock as its maker left it, with the keys of the network, at each event its courses are where the machine is, of its sessions and of the nonces of both
/// ends; the host's last session of it is the last that it took, or the next one, and it is at no work. And each order for the node is for an end point up to
/// 127.
pub fn locks_stay_in_step()
    ensures along { (n : ℕ) (keys : Keys) (devices : List State) (lines : List Spoken) → IsLockNode keys devices n →
        AreDone (first_machine keys (Some []) devices) lines → AllAlong (LockGoes n) (first_machine keys (Some []) devices) (events_of lines) }
{
    at_most_two_are_on_the_air();
    hosts_write_well();
    lines_ask_plainly();
    lines_keep_and_ask_well();
    restarts_go_on();
    units_are_judged_whole();
    lines_ask_fitly();
    lines_have_courses();
    locks_judge_what_is_asked();
    worlds_follow_the_courses();
}

/// Where all devices are as their makers left them, of each node whose first device is of a kind that lists Supervision and Security 0: over quiet lines after
/// others, whatever is lost, repeated or changed, each command that waited before them or was accepted in them, and has a final outcome, has the one that the
/// kind says, on the values that the device had as the session began.
pub fn locks_end_as_judged()
    ensures { (key : List ℕ) (devices : List State) (before lines : List Spoken) (n command : ℕ) (device : State) → AllByRecursion (IsAsMade key) devices →
        device_of n devices ≡ Some device → IsLockKind device.kind → AreDone (first_machine (keys_of key) (Some []) devices) (before ++ lines) →
        list_all is_quiet_line (lines_run (transcript_of (after_all (first_machine (keys_of key) (Some []) devices) before) lines)) ≡ true →
        Has (commands_in (transcript_of (first_machine (keys_of key) (Some []) devices) before)
        (transcript_of (after_all (first_machine (keys_of key) (Some []) devices) before) lines) n) command →
        is_final (outcome command (transcript_of (first_machine (keys_of key) (Some []) devices) (before ++ lines))) ≡ true →
        is_answered (after_all (first_machine (keys_of key) (Some []) devices) before).outside.devices
        (transcript_of (first_machine (keys_of key) (Some []) devices) before)
        (transcript_of (after_all (first_machine (keys_of key) (Some []) devices) before) lines) n command ≡ true }
{
    locks_as_made_begin_courses();
    stretches_end_as_judged();
}
