//! The lines of a scenario that is made from a number.

ghost use Rattle.std.specs.Prelude.{◌≡◌, ◌++◌, IfOk, IfSome, OnOk};
ghost use Rattle.run_generate.specs.Generate.{command_lines, generated_lines, joining_lines, node_at, word_at};

use std::alloc::Global;
use zw_base::{EndPoint, List, NoMemory, NodeId, Order, What, Word, read_node};
use zw_text::Line;

/// How many commands there are to a hundred.
const HUNDRED: u32 = 100;

/// The ticks after the joining of the nodes, and after each command.
const TICKS_JOINED: u32 = 10;

const TICKS_COMMAND: u32 = 5;

/// Every so many commands an acknowledgement is lost.
const LOSS_EVERY: u32 = 7;

/// The nodes that commands are for in turn, from node 2 on, are so far apart.
const NODES: u32 = 4;

const NODE_STEP: u8 = 8;

const FIRST_NODE: u8 = 2;

/// Of so many commands the first half switches on, the others off.
const WORDS: u32 = 8;

/// The lines: three nodes join, and so many hundred commands follow.
pub fn generated(alloc: Global, hundreds: u8) -> Result<List<Line>, NoMemory>
    ensures { IfOk result (λ lines. lines.items ≡ generated_lines hundreds) }
{
    let mut lines = List::new(alloc);
    add_joining(10, &mut lines)?;
    add_joining(18, &mut lines)?;
    add_joining(26, &mut lines)?;
    lines.push(Line::Tick {
        count: TICKS_JOINED,
    })?;
    for turn in 0..HUNDRED * u32::from(hundreds) {
        add_command(turn, &mut lines)?;
    }
    Ok(lines)
}

/// A node is linked to the controller, joins and is interviewed.
fn add_joining(number: u8, lines: &mut List<Line>) -> Result<(), NoMemory>
    ensures { OnOk result (lines.new.items ≡ lines.old.items ++ joining_lines number) }
{
    let (Some(controller), Some(node)) = (read_node(1), read_node(number)) else {
        return Err(NoMemory);
    };
    lines.push(Line::Link {
        first: controller,
        second: node,
    })?;
    lines.push(Line::Join { node })?;
    lines.push(Line::Interview { node })
}

/// A command in its turn, with a lost acknowledgement before it in every seventh, and time to carry it.
fn add_command(turn: u32, lines: &mut List<Line>) -> Result<(), NoMemory>
    ensures { OnOk result (lines.new.items ≡ lines.old.items ++ command_lines turn) }
{
    if turn % LOSS_EVERY == 0 {
        lines.push(Line::LoseAck { count: 1 })?;
    }
    let Some(node) = node_at(turn) else {
        return Err(NoMemory);
    };
    lines.push(Line::Command {
        order: Order {
            node,
            end: EndPoint::root(),
            what: What::Value(word_at(turn)),
        },
    })?;
    lines.push(Line::Tick {
        count: TICKS_COMMAND,
    })
}

/// The node that is switched in a turn.
fn node_at(turn: u32) -> Option<NodeId>
    ensures { IfSome result (λ node. node ≡ node_at turn) }
{
    read_node(FIRST_NODE + NODE_STEP * (turn % NODES) as u8)
}

/// Whether it is switched on or off.
fn word_at(turn: u32) -> Word
    ensures { result ≡ word_at turn }
{
    if turn % WORDS < NODES {
        Word::On
    } else {
        Word::Off
    }
}
