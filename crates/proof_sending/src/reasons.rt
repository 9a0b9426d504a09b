//! The reasons of what a host sends.

ghost use Rattle.std.specs.Prelude.{ℕ, List};
ghost use Rattle.std.specs.List.{AllByRecursion};
ghost use Rattle.serial_frame.specs.Items.{unit_text};
ghost use Rattle.serial_frame.specs.declared.unit.Unit.TheVariants.{Framed};
ghost use Rattle.s0_crypto.specs.declared.key_pair.Keys.{Keys};
ghost use Rattle.host_keep.specs.Rows.{IsRecord};
ghost use Rattle.host_keep.specs.declared.record.Record.{Record};
ghost use Rattle.host_requests.specs.declared.task.Purpose.{Purpose};
ghost use Rattle.host_requests.specs.Frames.{frame_of};
ghost use Rattle.host_requests.specs.State.{next_id};
ghost use Rattle.host_model.specs.State.{HostState, first_host};
ghost use Rattle.host_model.specs.Events.{HostEvent};
ghost use Rattle.host_model.specs.Facts.{HostFacts};
ghost use Rattle.host_model.specs.After.{after};
ghost use Rattle.host_model.specs.May.{May};
ghost use Rattle.host_model.specs.Did.{MayAll, after_all};
ghost use Rattle.host_model.specs.Opening.{opened};
ghost use Rattle.host_model.specs.Taking.{AreJudged};
ghost use Rattle.serial_frame.specs.declared.item.Item.{Item};
ghost use Rattle.host_model.specs.Outs.{outs};
ghost use Rattle.s0_crypto.specs.Sealing.{keys_of};
ghost use Rattle.proof_air.specs.law_transcript.Lists.{Has};
ghost use Rattle.proof_air.specs.law_transcript.Units.{Carried, sending_in};
ghost use Rattle.proof_line.specs.proof_host.Facts.{AreBegun, Facts};
ghost use Rattle.zw_text.specs.declared.entry.Entry.{Entry};
ghost use Rattle.proof_sending.specs.Due.{sends, AreCarried, IsShown, WritesWhatIsDue};
ghost use Rattle.proof_sending.specs.Heard.{HaveReasons, ItemTells};
ghost use Rattle.proof_sending.specs.Reasons.{Reason, HasReason, IsReasoned, WritesDue};

use host_requests::callback_ids;
use proof_line::events_keep_facts;
use proof_spoken::{hosts_leave_nonces, tables_keep_orders};

/// Of a host that has heard of these reasons, all that it has to send is due: its frame on the line, which may be written again, the tasks that wait, and
/// the texts that wait to be sealed or to be given. So it is at first and after a restart, and so it stays, whatever happens to a host that keeps to some
/// transcript, where what it is asked and told has its reason among them, or among more. And each frame that it writes is due: a part of an attempt is a
/// Nonce Get, or the message of the last session of its node, a segment of it, or the message sealed for a nonce that the node gave.
pub fn hosts_send_for_reasons()
    ensures first { (heard : List Reason) (keys : Keys) → IsReasoned (Has heard) keys (first_host keys) }
    ensures opened { (heard : List Reason) (keys : Keys) (records : List Record) → AllByRecursion IsRecord records →
        IsReasoned (Has heard) keys (opened keys records) }
    ensures more { (heard more : List Reason) (keys : Keys) (h : HostState) → ((reason : Reason) → Has heard reason → Has more reason) →
        IsReasoned (Has heard) keys h → IsReasoned (Has more) keys h }
    ensures kept { (heard : List Reason) (keys : Keys) (past : List Entry) (h : HostState) (event : HostEvent) → Facts past h → May h event →
        HasReason (Has heard) keys h event → IsReasoned (Has heard) keys h → IsReasoned (Has heard) keys (after h event) }
    ensures written { (heard : List Reason) (keys : Keys) (h : HostState) (event : HostEvent) → HostFacts h → May h event →
        HasReason (Has heard) keys h event → IsReasoned (Has heard) keys h → WritesDue (Has heard) keys h (outs h event) }
{
    events_keep_facts();
    hosts_leave_nonces();
    tables_keep_orders();
}

/// What the host judges gives the events that this makes of it their reasons, where a nonce that a node asks for or gives in it, plainly or in what opens,
/// is among them; and where each event has its reason, it stays so.
pub fn what_is_judged_gives_reasons()
    ensures judged { (heard : List Reason) (keys : Keys) (past : List Entry) (h : HostState) (items : List Item) (events : List HostEvent) →
        AllByRecursion (ItemTells (Has heard) keys) items → AreJudged h items events → Facts past h → MayAll h events →
        IsReasoned (Has heard) keys h → HaveReasons (Has heard) keys h events }
    ensures all { (heard : List Reason) (keys : Keys) (past : List Entry) (h : HostState) (events : List HostEvent) → Facts past h → MayAll h events →
        HaveReasons (Has heard) keys h events → IsReasoned (Has heard) keys h → IsReasoned (Has heard) keys (after_all h events) }
{
    events_keep_facts();
    hosts_leave_nonces();
    tables_keep_orders();
}

/// So each payload that it asks to be sent is due by the transcript, as the law of payloads has it: where the host keeps to the transcript (the sessions that
/// began are those of its table, and the orders that these carry are as they were asked for), and where the transcript shows the reasons.
pub fn hosts_ask_what_is_due()
    ensures { (heard : List Reason) (listing : List Entry → ℕ → List ℕ) (key : List ℕ) (past : List Entry) (h : HostState) (event : HostEvent) →
        ((reason : Reason) → Has heard reason → IsShown listing key past reason) → AreBegun past h.nodes → AreCarried listing past h.commands →
        HostFacts h → May h event → HasReason (Has heard) (keys_of key) h event → IsReasoned (Has heard) (keys_of key) h →
        WritesWhatIsDue listing key past (outs h event) }
{
    hosts_send_for_reasons();
    callback_ids();
}

/// Whatever holds of what a purpose is for holds of each payload that its frame asks to be sent.
pub fn frames_ask_for_their_purpose()
    ensures { (purpose : Purpose) (last : ℕ) (carried : Carried) → Has (sending_in (unit_text (Framed (frame_of purpose (next_id last))))) carried →
        Has (sends purpose) carried }
{
    callback_ids();
}
