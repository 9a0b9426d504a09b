//! What a host alone asks its chip to send.

ghost use Rattle.std.specs.Prelude.{Some, List, [], ℕ};
ghost use Rattle.s0_crypto.specs.Sealing.{keys_of};
ghost use Rattle.device_sim.specs.State.{State};
ghost use Rattle.zw_text.specs.declared.entry.Entry.{Entry};
ghost use Rattle.law_transcript.specs.Payloads.{SendsWhatIsDue};
ghost use Rattle.proof_known.specs.law_host.Heard.{heard_by_host, listing_heard};
ghost use Rattle.world_model.specs.State.{first_machine};
ghost use Rattle.world_lines.specs.Spoken.{Spoken, transcript_of};
ghost use Rattle.world_lines.specs.Done.{AreDone};
ghost use Rattle.proof_known.specs.proof_alone.State.{first_alone};
ghost use Rattle.proof_known.specs.proof_alone.Runs.{Told};

use host_requests::callback_ids;
use proof_host::{events_keep_facts, laws_follow};
use proof_known::{
    hosts_keep_what_is_said, hosts_know_what_nodes_list, lines_are_a_hosts,
    what_is_heard_is_a_hosts,
};
use proof_messages::hosts_leave_nonces;
use proof_sending::{orders_are_carried_as_said, tables_keep_orders};

/// Whatever bytes came to a host alone, over a keeper that tells its records and has none at first, also where it starts again: each payload that it asks
/// its chip to send is the message of the last session of its node, by the classes that the node had listed when the command was accepted (plain, a segment
/// of it, or sealed), a Nonce Get, a Nonce Report, a No More Information, or the Set or Get that a line asked for. That a node asked for the nonce that it
/// is given, and gave the one that a message is sealed for, stands in a payload that had come from it by then, openly or sealed with the network key.
pub fn hosts_send_what_is_due()
    ensures told { (key : List ℕ) (told : List Entry) → Told (first_alone (keys_of key) (Some [])) told → SendsWhatIsDue listing_heard key told }
    ensures heard { (key : List ℕ) (devices : List State) (lines : List Spoken) → AreDone (first_machine (keys_of key) (Some []) devices) lines →
        SendsWhatIsDue listing_heard key (heard_by_host (transcript_of (first_machine (keys_of key) (Some []) devices) lines)) }
{
    events_keep_facts();
    laws_follow();
    hosts_leave_nonces();
    tables_keep_orders();
    orders_are_carried_as_said();
    callback_ids();
    hosts_know_what_nodes_list();
    hosts_keep_what_is_said();
    lines_are_a_hosts();
    what_is_heard_is_a_hosts();
}
