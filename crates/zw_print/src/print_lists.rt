//! Entries with a list of numbers.

ghost use Rattle.std.specs.Prelude.{◌≡◌, ◌∷◌, [], ◌++◌, OnOk, codes, decimal, string_bytes};
ghost use Rattle.std.specs.List.{join_with_byte};
ghost use Rattle.hex.specs.Hex.{encode_upper};
ghost use Rattle.zw_text.specs.Entry.{ends_word, number_words};
ghost use Rattle.zw_print.specs.Lists.{list_text};

use crate::print_parts::push_count;
use std::alloc::{AllocError, Global};
use zw_base::{NodeId, push_number};

/// `air I A>B via R HEX`
pub fn print_air(
    alloc: Global,
    text: &mut String,
    frame: u64,
    sender: NodeId,
    receiver: NodeId,
    repeaters: &[NodeId],
    payload: &[u8],
) -> Result<(), AllocError>
    ensures { OnOk result (string_bytes text.new ≡ string_bytes text.old ++
        join_with_byte 32 (codes "air" ∷ decimal frame ∷ ends_word sender receiver ∷ codes "via" ∷ number_words repeaters.now
        (encode_upper payload.now ∷ []))) }
{
    write_air(alloc, text, frame, sender, receiver, repeaters, payload)?;
    Ok(())
}

fn write_air(
    alloc: Global,
    text: &mut String,
    frame: u64,
    sender: NodeId,
    receiver: NodeId,
    repeaters: &[NodeId],
    payload: &[u8],
) -> Result<(), AllocError>
    ensures { OnOk result (string_bytes text.new ≡ string_bytes text.old ++ (codes "air " ++
        (decimal frame ++ (codes " " ++
        (decimal sender ++ (codes ">" ++ (decimal receiver ++ (codes " via " ++ (list_text repeaters.now ++ (codes " " ++ encode_upper payload.now)))))))))) }
{
    let payload = hex::encode_upper(alloc, payload)?;
    text.push_str("air ")?;
    push_number(text, frame)?;
    text.push_str(" ")?;
    write_ends(text, sender, receiver)?;
    write_way(text, repeaters, payload.as_str())
}

/// From which node to which.
fn write_ends(text: &mut String, sender: NodeId, receiver: NodeId) -> Result<(), AllocError>
    ensures { OnOk result (string_bytes text.new ≡ string_bytes text.old ++ (decimal sender ++ (codes ">" ++ decimal receiver))) }
{
    push_number(text, u64::from(sender.number()))?;
    text.push_str(">")?;
    push_number(text, u64::from(receiver.number()))
}

/// Over which nodes, and the payload in hex.
fn write_way(text: &mut String, repeaters: &[NodeId], payload: &str) -> Result<(), AllocError>
    ensures { OnOk result (string_bytes text.new ≡ string_bytes text.old ++ (codes " via " ++ (list_text repeaters.now ++ (codes " " ++ payload.now)))) }
{
    text.push_str(" via ")?;
    write_nodes(text, repeaters)?;
    text.push_str(" ")?;
    text.push_str(payload)
}

/// `neighbours N LIST`
pub fn print_neighbours(text: &mut String, node: NodeId, list: &[NodeId]) -> Result<(), AllocError>
    ensures { OnOk result (string_bytes text.new ≡ string_bytes text.old ++
        join_with_byte 32 (codes "neighbours" ∷ decimal node ∷ number_words list.now [])) }
{
    write_list(text, "neighbours", node, list)?;
    Ok(())
}

fn write_list(
    text: &mut String,
    word: &str,
    node: NodeId,
    list: &[NodeId],
) -> Result<(), AllocError>
    ensures { OnOk result (string_bytes text.new ≡ string_bytes text.old ++ (word.now ++ (codes " " ++ (decimal node ++ (codes " " ++ list_text list.now))))) }
{
    let node = node.number();
    text.push_str(word)?;
    write!(text, " {node} ")?;
    write_nodes(text, list)
}

/// `node N sessions LIST`
pub fn print_sessions(text: &mut String, node: NodeId, sessions: &[u32]) -> Result<(), AllocError>
    ensures { OnOk result (string_bytes text.new ≡ string_bytes text.old ++
        join_with_byte 32 (codes "node" ∷ decimal node ∷ codes "sessions" ∷ number_words sessions.now [])) }
{
    write_sessions(text, node, sessions)?;
    Ok(())
}

fn write_sessions(text: &mut String, node: NodeId, sessions: &[u32]) -> Result<(), AllocError>
    ensures { OnOk result (string_bytes text.new ≡ string_bytes text.old ++
        (codes "node " ++ (decimal node ++ (codes " sessions " ++ list_text sessions.now)))) }
{
    let node = node.number();
    write!(text, "node {node} sessions ")?;
    write_numbers(text, sessions)
}

fn write_numbers(text: &mut String, numbers: &[u32]) -> Result<(), AllocError>
    ensures { OnOk result (string_bytes text.new ≡ string_bytes text.old ++ list_text numbers.now) }
{
    let [first, rest @ ..] = numbers else {
        return text.push_str("-");
    };
    let first = *first;
    push_number(text, u64::from(first))?;
    for number in rest {
        push_count(text, u64::from(*number))?;
    }
    Ok(())
}

fn write_nodes(text: &mut String, nodes: &[NodeId]) -> Result<(), AllocError>
    ensures { OnOk result (string_bytes text.new ≡ string_bytes text.old ++ list_text nodes.now) }
{
    let [first, rest @ ..] = nodes else {
        return text.push_str("-");
    };
    let first = first.number();
    push_number(text, u64::from(first))?;
    for node in rest {
        push_count(text, u64::from(node.number()))?;
    }
    Ok(())
}
