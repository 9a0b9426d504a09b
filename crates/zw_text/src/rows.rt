//! Lines of several words, after the first.

ghost use Rattle.std.specs.Prelude.{◌≡◌};
ghost use Rattle.zw_words.specs.Words.{words};
ghost use Rattle.zw_words.specs.Fields.{Gives};
ghost use Rattle.zw_text.specs.Line.{line_by, order_line};
ghost use Rattle.zw_text.specs.declared.word.LineWord.{LineWord};

use crate::{Line, LineFault, ReadLineFault};
use std::alloc::Global;
use zw_base::{EndPoint, NodeId, Order, What};
use zw_words::{
    last_hex, last_node, last_number, last_value, take_node, take_number, take_side, take_target,
};

/// The least node of an order.
const LEAST_ORDER_NODE: u32 = 2;

/// The least node.
const LEAST_NODE: u32 = 1;

/// The greatest byte.
const MOST_BYTE: u32 = 255;

/// The greatest type of a setpoint.
const MOST_KIND: u32 = 15;

/// The greatest temperature, in tenths of a degree.
const MOST_TENTHS: u32 = 65_535;

/// The greatest number with nine digits.
const MOST_NUMBER: u32 = 999_999_999;

/// The most values of a `bulk` line: as many as a line has room for.
const MOST_VALUES: usize = 512;

/// An order to the node itself.
fn order_to(node: NodeId, what: What) -> Line
    ensures { result ≡ order_line node what }
{
    Line::Command {
        order: Order {
            node,
            end: EndPoint::root(),
            what,
        },
    }
}

/// `N V` or `N.E V`.
#[tactic(auto, unfolding(crate::specs::Line::line_by))]
pub fn read_set(mut text: &[u8]) -> Result<Line, LineFault>
    ensures { result ≡ line_by LineWord.Set (words text.now) }
{
    let target = take_target(&mut text, LEAST_ORDER_NODE)?;
    let word = last_value(text)?;
    Ok(Line::Command {
        order: Order {
            node: target.node,
            end: target.end,
            what: What::Value(word),
        },
    })
}

/// `N M`.
#[tactic(auto, unfolding(crate::specs::Line::line_by))]
pub fn read_mode(mut text: &[u8]) -> Result<Line, LineFault>
    ensures { result ≡ line_by LineWord.Mode (words text.now) }
{
    let node = take_node(&mut text, LEAST_ORDER_NODE)?;
    let mode = last_number(text, 0, MOST_BYTE)?;
    Ok(order_to(node, What::Mode(mode as u8)))
}

/// `N T X`.
#[tactic(auto, unfolding(crate::specs::Line::line_by))]
pub fn read_setpoint(mut text: &[u8]) -> Result<Line, LineFault>
    ensures { result ≡ line_by LineWord.Setpoint (words text.now) }
{
    let node = take_node(&mut text, LEAST_ORDER_NODE)?;
    let kind = take_number(&mut text, 0, MOST_KIND)?;
    let tenths = last_number(text, 0, MOST_TENTHS)?;
    Ok(order_to(
        node,
        What::Setpoint {
            kind: kind as u8,
            tenths: tenths as u16,
        },
    ))
}

/// `N M T X`.
#[tactic(auto, unfolding(crate::specs::Line::line_by))]
pub fn read_comfort(mut text: &[u8]) -> Result<Line, LineFault>
    ensures { result ≡ line_by LineWord.Comfort (words text.now) }
{
    let node = take_node(&mut text, LEAST_ORDER_NODE)?;
    let mode = take_number(&mut text, 0, MOST_BYTE)?;
    let kind = take_number(&mut text, 0, MOST_KIND)?;
    let tenths = last_number(text, 0, MOST_TENTHS)?;
    Ok(order_to(
        node,
        What::Comfort {
            mode: mode as u8,
            kind: kind as u8,
            tenths: tenths as u16,
        },
    ))
}

/// `N P X`.
#[tactic(auto, unfolding(crate::specs::Line::line_by))]
pub fn read_config(mut text: &[u8]) -> Result<Line, LineFault>
    ensures { result ≡ line_by LineWord.Config (words text.now) }
{
    let node = take_node(&mut text, LEAST_ORDER_NODE)?;
    let param = take_number(&mut text, 0, MOST_BYTE)?;
    let value = last_number(text, 0, MOST_NUMBER)?;
    Ok(order_to(
        node,
        What::Config {
            param: param as u8,
            value,
        },
    ))
}

/// `N P H`.
#[tactic(auto, unfolding(crate::specs::Line::line_by))]
pub fn read_bulk(alloc: Global, mut text: &[u8]) -> Result<Line, ReadLineFault>
    ensures { Gives result (line_by LineWord.Bulk (words text.now)) }
{
    let node = take_node(&mut text, LEAST_ORDER_NODE)?;
    let offset = take_number(&mut text, 0, MOST_BYTE)?;
    let values = last_hex(alloc, text, 1, MOST_VALUES)?;
    Ok(order_to(
        node,
        What::Bulk {
            offset: offset as u8,
            values,
        },
    ))
}

/// `N G M`.
#[tactic(auto, unfolding(crate::specs::Line::line_by))]
pub fn read_assoc(mut text: &[u8]) -> Result<Line, LineFault>
    ensures { result ≡ line_by LineWord.Assoc (words text.now) }
{
    let node = take_node(&mut text, LEAST_ORDER_NODE)?;
    let group = take_number(&mut text, 1, MOST_BYTE)?;
    let member = last_node(text, LEAST_NODE)?;
    Ok(order_to(
        node,
        What::Associate {
            group: group as u8,
            member,
        },
    ))
}

/// `N G M`.
#[tactic(auto, unfolding(crate::specs::Line::line_by))]
pub fn read_unassoc(mut text: &[u8]) -> Result<Line, LineFault>
    ensures { result ≡ line_by LineWord.Unassoc (words text.now) }
{
    let node = take_node(&mut text, LEAST_ORDER_NODE)?;
    let group = take_number(&mut text, 1, MOST_BYTE)?;
    let member = last_node(text, LEAST_NODE)?;
    Ok(order_to(
        node,
        What::Dissociate {
            group: group as u8,
            member,
        },
    ))
}

/// `N X`.
#[tactic(auto, unfolding(crate::specs::Line::line_by))]
pub fn read_interval(mut text: &[u8]) -> Result<Line, LineFault>
    ensures { result ≡ line_by LineWord.Interval (words text.now) }
{
    let node = take_node(&mut text, LEAST_ORDER_NODE)?;
    let seconds = last_number(text, 0, MOST_NUMBER)?;
    Ok(order_to(node, What::Interval(seconds)))
}

/// `S P X`.
#[tactic(auto, unfolding(crate::specs::Line::line_by))]
pub fn read_garble(mut text: &[u8]) -> Result<Line, LineFault>
    ensures { result ≡ line_by LineWord.Garble (words text.now) }
{
    let side = take_side(&mut text)?;
    let place = take_number(&mut text, 0, MOST_BYTE)?;
    let xor = last_number(text, 1, MOST_BYTE)?;
    Ok(Line::Garble {
        side,
        place: place as u8,
        xor: xor as u8,
    })
}

/// `N V`.
#[tactic(auto, unfolding(crate::specs::Line::line_by))]
pub fn read_send(mut text: &[u8]) -> Result<Line, LineFault>
    ensures { result ≡ line_by LineWord.Send (words text.now) }
{
    let node = take_node(&mut text, LEAST_NODE)?;
    let word = last_value(text)?;
    Ok(Line::Send { node, word })
}

/// `A B`.
#[tactic(auto, unfolding(crate::specs::Line::line_by))]
pub fn read_link(mut text: &[u8]) -> Result<Line, LineFault>
    ensures { result ≡ line_by LineWord.Link (words text.now) }
{
    let first = take_node(&mut text, LEAST_NODE)?;
    let second = last_node(text, LEAST_NODE)?;
    Ok(Line::Link { first, second })
}

/// `A B`.
#[tactic(auto, unfolding(crate::specs::Line::line_by))]
pub fn read_unlink(mut text: &[u8]) -> Result<Line, LineFault>
    ensures { result ≡ line_by LineWord.Unlink (words text.now) }
{
    let first = take_node(&mut text, LEAST_NODE)?;
    let second = last_node(text, LEAST_NODE)?;
    Ok(Line::Unlink { first, second })
}

/// `N V`.
#[tactic(auto, unfolding(crate::specs::Line::line_by))]
pub fn read_local(mut text: &[u8]) -> Result<Line, LineFault>
    ensures { result ≡ line_by LineWord.Local (words text.now) }
{
    let node = take_node(&mut text, LEAST_NODE)?;
    let value = last_number(text, 0, MOST_BYTE)?;
    Ok(Line::Local {
        node,
        value: value as u8,
    })
}
