//! What hosts send in the lines of a run.

ghost use Rattle.std.specs.Prelude.{Some, ℕ, List, []};
ghost use Rattle.device_sim.specs.State.{State};
ghost use Rattle.s0_crypto.specs.Sealing.{keys_of};
ghost use Rattle.proof_air.specs.law_transcript.Nodes.{always, listing_of};
ghost use Rattle.proof_air.specs.world_model.State.{first_machine};
ghost use Rattle.proof_air.specs.world_lines.Spoken.{Spoken, transcript_of};
ghost use Rattle.proof_air.specs.world_lines.Done.{AreDone};
ghost use Rattle.proof_air.specs.law_transcript.Payloads.{SendsWhatIsDue};

use host_requests::callback_ids;
use proof_line::{
    asides_keep_facts, events_keep_facts, laws_follow, lines_keep_and_ask_well, restarts_go_on,
    rooms_go_on, the_machine_keeps_facts,
};
use proof_spoken::{
    hosts_leave_nonces, hosts_write_well, interviews_give_what_is_known,
    interviews_tell_what_nodes_list, orders_are_carried_as_said, tables_keep_orders,
};

/// In every run of lines over a keeper that tells its records and has none at first: each payload that the host asks its chip to send is the message of the
/// last session of its node, as the transcript shows the order and the classes by which it is carried (plain, a segment of it, or sealed), a Nonce Get, a
/// Nonce Report, a No More Information, or the Set or Get that a line asked for. That a node asked for the nonce that it is given, and gave the one that
/// a message is sealed for, stands in what the chip has brought from it by then, openly or sealed with the network key.
pub fn lines_send_what_is_due()
    ensures { (key : List ℕ) (devices : List State) (lines : List Spoken) → AreDone (first_machine (keys_of key) (Some []) devices) lines →
        SendsWhatIsDue (always (listing_of devices)) key (transcript_of (first_machine (keys_of key) (Some []) devices) lines) }
{
    events_keep_facts();
    asides_keep_facts();
    laws_follow();
    hosts_leave_nonces();
    tables_keep_orders();
    interviews_give_what_is_known();
    orders_are_carried_as_said();
    interviews_tell_what_nodes_list();
    the_machine_keeps_facts();
    restarts_go_on();
    lines_keep_and_ask_well();
    hosts_write_well();
    rooms_go_on();
    callback_ids();
}
