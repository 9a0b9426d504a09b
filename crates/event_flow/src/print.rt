//! The text of an entry.

ghost use Rattle.std.specs.Prelude.{◌≡◌, ◌∷◌, ◌++◌, [], IfOk, codes, decimal, string_bytes};
ghost use Rattle.std.specs.List.{join_with_byte};
ghost use Rattle.hex.specs.Hex.{encode_upper};
ghost use Rattle.zw_text.specs.Entry.{ends_word};
ghost use Rattle.event_flow.specs.Entry.{event_text, refusal_words};

use crate::{EventEntry, EventRefusal};
use std::alloc::{AllocError, Global};
use zw_base::{Bytes, NoMemory, NodeId};

/// The text of an entry, without a line feed.
#[tactic(auto, unfolding(crate::specs::Entry::event_text))]
pub fn print_event(alloc: Global, entry: &EventEntry) -> Result<Bytes, NoMemory>
    ensures { IfOk result (λ text. text ≡ event_text entry.now) }
{
    match entry {
        EventEntry::Refused { refusal } => print_refusal(alloc, *refusal),
        EventEntry::Queued { node, number } => print_pair(alloc, "queued", *node, *number),
        EventEntry::Frame {
            frame,
            sender,
            receiver,
            payload,
        } => print_frame(alloc, *frame, *sender, *receiver, payload.bytes()),
        EventEntry::Taken { node, kind, level } => print_taken(alloc, *node, *kind, *level),
        EventEntry::Known { node, number } => print_pair(alloc, "known", *node, *number),
        EventEntry::Old { node, id } => print_pair(alloc, "old", *node, u64::from(*id)),
        EventEntry::TableNode {
            node,
            queued,
            taken,
            known,
        } => print_row(alloc, *node, *queued, *taken, *known),
    }
}

fn bytes_of(alloc: Global, text: &str) -> Result<Bytes, NoMemory>
    ensures { IfOk result (λ bytes. bytes ≡ text.now) }
{
    Bytes::from_slice(alloc, text.as_bytes())
}

fn print_refusal(alloc: Global, refusal: EventRefusal) -> Result<Bytes, NoMemory>
    ensures { IfOk result (λ text. text ≡ join_with_byte 32 (codes "refused" ∷ refusal_words refusal)) }
{
    match refusal {
        EventRefusal::Full { unknown } => print_number(alloc, "refused full", unknown),
        EventRefusal::Idle => bytes_of(alloc, "refused idle"),
        EventRefusal::NeverSent => bytes_of(alloc, "refused neversent"),
        EventRefusal::Stale { later } => print_number(alloc, "refused stale", later),
    }
}

fn print_number(alloc: Global, word: &str, n: u64) -> Result<Bytes, NoMemory>
    ensures { IfOk result (λ text. text ≡ join_with_byte 32 (word.now ∷ decimal n ∷ [])) }
{
    let text = format!(in alloc; "{word} {n}")?;
    bytes_of(alloc, text.as_str())
}

fn print_pair(alloc: Global, word: &str, node: NodeId, n: u64) -> Result<Bytes, NoMemory>
    ensures { IfOk result (λ text. text ≡ join_with_byte 32 (word.now ∷ decimal node ∷ decimal n ∷ [])) }
{
    let node = node.number();
    let text = format!(in alloc; "{word} {node} {n}")?;
    bytes_of(alloc, text.as_str())
}

fn print_frame(
    alloc: Global,
    frame: u64,
    sender: NodeId,
    receiver: NodeId,
    payload: &[u8],
) -> Result<Bytes, NoMemory>
    ensures { IfOk result (λ text. text ≡ join_with_byte 32 (codes "frame" ∷ decimal frame ∷ ends_word sender receiver ∷ encode_upper payload.now ∷ [])) }
{
    let text = show_frame(alloc, frame, sender, receiver, payload)?;
    let bytes = Bytes::from_slice(alloc, text.as_bytes())?;
    Ok(bytes)
}

fn show_frame(
    alloc: Global,
    frame: u64,
    sender: NodeId,
    receiver: NodeId,
    payload: &[u8],
) -> Result<String, AllocError>
    ensures { IfOk result (λ text. string_bytes text ≡ codes "frame " ++
        (decimal frame ++ (codes " " ++ (decimal sender ++ (codes ">" ++ (decimal receiver ++ (codes " " ++ encode_upper payload.now))))))) }
{
    let sender = sender.number();
    let receiver = receiver.number();
    let payload = hex::encode_upper(alloc, payload)?;
    format!(in alloc; "frame {frame} {sender}>{receiver} {payload}")
}

fn print_taken(alloc: Global, node: NodeId, kind: u8, level: u8) -> Result<Bytes, NoMemory>
    ensures { IfOk result (λ text. text ≡ join_with_byte 32 (codes "taken" ∷ decimal node ∷ decimal kind ∷ decimal level ∷ [])) }
{
    let node = node.number();
    let text = format!(in alloc; "taken {node} {kind} {level}")?;
    bytes_of(alloc, text.as_str())
}

fn print_row(
    alloc: Global,
    node: NodeId,
    queued: u64,
    taken: u64,
    known: u64,
) -> Result<Bytes, NoMemory>
    ensures { IfOk result (λ text. text ≡
        join_with_byte 32
        (codes "node" ∷ decimal node ∷ codes "queued" ∷ decimal queued ∷ codes "taken" ∷ decimal taken ∷ codes "known" ∷ decimal known ∷ [])) }
{
    let node = node.number();
    let text = format!(in alloc; "node {node} queued {queued} taken {taken} known {known}")?;
    bytes_of(alloc, text.as_str())
}
