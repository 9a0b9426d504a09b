//! What the chip puts on the air, and what it writes to the host.

ghost use Rattle.std.specs.Prelude.{false, true, Some, List, []};
ghost use Rattle.s0_crypto.specs.declared.key_pair.Keys.{Keys};
ghost use Rattle.outside_model.specs.Devices.{State};
ghost use Rattle.world_model.specs.State.{first_machine};
ghost use Rattle.world_lines.specs.Spoken.{Spoken, transcript_of};
ghost use Rattle.world_lines.specs.Done.{AreDone};
ghost use Rattle.world_lines.specs.Whole.{AreWhole};
ghost use Rattle.proof_answers.specs.Answered.{AnswersByLink};

use proof_chip::{
    calls_go_on, frames_fly_in_order, hosts_make_requests, hosts_obey_the_line,
    lines_keep_and_ask_well, nodes_go_on, outsides_make_requests, requests_keep_facts,
};
use proof_devices::{
    acks_go_on, devices_are_as_shown, devices_live_on, frames_go_on, history_goes_on,
    landings_go_on, networks_go_on, time_goes_on,
};
use proof_serial::hosts_write_well;

/// Over any lines from the first on, the last of which an allocation failure may have cut short, over a keeper that tells its records and has none at first,
/// the chip's link keeps the rules of the serial line in time, and by what that link did the controller puts on the air just the frames of the SendData that
/// are taken: each directly after the answer to its request, unless its node has no way then. Each frame that the chip begins to write is the next that it has
/// for its host by the transcript, in order: the answers to requests, what was heard, the results of SendData and the information of nodes. It drops one only
/// where 32 others wait, and no more than these wait at the beginning of a line or a tick, and wherever one may be added. And where words of a line stand or a
/// tick begins none waits, unless the link has a frame under way. Where all lines were run whole it is so up to the end of the last one.
pub fn chips_answer_in_order()
    ensures cut { (keys : Keys) (devices : List State) (lines : List Spoken) →
        AreDone (first_machine keys (Some []) devices) lines →
        AnswersByLink false devices (transcript_of (first_machine keys (Some []) devices) lines) }
    ensures whole { (keys : Keys) (devices : List State) (lines : List Spoken) →
        AreDone (first_machine keys (Some []) devices) lines → AreWhole (first_machine keys (Some []) devices) lines →
        AnswersByLink true devices (transcript_of (first_machine keys (Some []) devices) lines) }
{
    chip_sim::rules_of_histories();
    time_goes_on();
    history_goes_on();
    landings_go_on();
    networks_go_on();
    frames_go_on();
    nodes_go_on();
    calls_go_on();
    devices_live_on();
    devices_are_as_shown();
    acks_go_on();
    frames_fly_in_order();
    requests_keep_facts();
    hosts_make_requests();
    outsides_make_requests();
    hosts_obey_the_line();
    hosts_write_well();
    lines_keep_and_ask_well();
}
