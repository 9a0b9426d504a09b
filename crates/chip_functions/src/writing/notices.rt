//! Notices, as the chip writes them.

ghost use Rattle.std.specs.Prelude.{◌≡◌, ◌≤◌, length, IfOk};
ghost use Rattle.serial_frame.specs.declared.frame.Kind.TheVariants.{Request as of_request};
ghost use Rattle.chip_functions.specs.Notice.{handler, update, notice_function, notice_body, HasNoticeRow, IsUpdate, IsNotice, IsNoticeBody};
ghost use Rattle.chip_functions.specs.Classes.{classes};
ghost use Rattle.chip_functions.specs.AddNode.{add_notice, added, IsAdded};
ghost use Rattle.chip_functions.specs.Field.{IsNode};

use super::joined;
use crate::function::{ADD_NODE, APPLICATION_COMMAND_HANDLER, APPLICATION_UPDATE, SEND_DATA};
use crate::notice::{DEVICE_CLASSES, UPDATE_FAILED, UPDATE_RECEIVED};
use crate::{AddStatus, AddedNode, Notice, Update};
use serial_frame::{Frame, Kind};
use std::alloc::Global;
use zw_base::{Bytes, NoMemory, NodeId};

fn function(value: &Notice) -> u8
    ensures { result ≡ notice_function value.now }
{
    match value {
        Notice::ApplicationCommandHandler { .. } => APPLICATION_COMMAND_HANDLER,
        Notice::SendData { .. } => SEND_DATA,
        Notice::AddNode { .. } => ADD_NODE,
        Notice::ApplicationUpdate { .. } => APPLICATION_UPDATE,
    }
}

fn handler(alloc: Global, rx_status: u8, source: NodeId, payload: &Bytes) -> Result<Bytes, NoMemory>
    requires { length payload.now ≤ 255 }
    ensures body { IfOk result (λ body. body ≡ handler.spell (rx_status, (source, payload.now))) }
    ensures node { IsNode source }
{
    let prefix = [rx_status, source.number(), payload.len() as u8];
    joined(alloc, &prefix, payload.as_slice())
}

fn update(alloc: Global, value: &Update) -> Result<Bytes, NoMemory>
    requires { length (update.spell value.now) ≤ 252 }
    ensures body { IfOk result (λ body. body ≡ update.spell value.now) }
    ensures row { IsUpdate value.now }
{
    match value {
        Update::Received {
            node,
            basic,
            generic,
            specific,
            classes,
        } => {
            let len = classes.len() as u8 + DEVICE_CLASSES;
            let prefix = [
                UPDATE_RECEIVED,
                node.number(),
                len,
                *basic,
                *generic,
                *specific,
            ];
            joined(alloc, &prefix, classes.as_slice())
        }
        Update::RequestFailed => Bytes::from_slice(alloc, &[UPDATE_FAILED, 0, 0]),
    }
}

fn add_notice(
    alloc: Global,
    callback_id: u8,
    status: AddStatus,
    said: &AddedNode,
) -> Result<Bytes, NoMemory>
    requires { length (added.spell said.now) ≤ 250 }
    ensures body { IfOk result (λ body. body ≡ add_notice.spell (callback_id, (status, said.now))) }
    ensures row { IsAdded said.now }
{
    let status = status.code();
    match said {
        AddedNode::Unnamed => Bytes::from_slice(alloc, &[callback_id, status, 0, 0]),
        AddedNode::Named { node } => {
            Bytes::from_slice(alloc, &[callback_id, status, node.number(), 0])
        }
        AddedNode::Described {
            node,
            basic,
            generic,
            specific,
            classes,
        } => {
            let len = classes.len() as u8 + DEVICE_CLASSES;
            let prefix = [
                callback_id,
                status,
                node.number(),
                len,
                *basic,
                *generic,
                *specific,
            ];
            joined(alloc, &prefix, classes.as_slice())
        }
    }
}

fn body(alloc: Global, value: &Notice) -> Result<Bytes, NoMemory>
    requires { length (notice_body value.now) ≤ 252 }
    ensures body { IfOk result (λ body. body ≡ notice_body value.now) }
    ensures row { HasNoticeRow value.now → IsNotice value.now }
{
    match value {
        Notice::ApplicationCommandHandler {
            rx_status,
            source,
            payload,
        } => handler(alloc, *rx_status, *source, payload),
        Notice::SendData {
            callback_id,
            status,
        } => Bytes::from_slice(alloc, &[*callback_id, status.code()]),
        Notice::AddNode {
            callback_id,
            status,
            added,
        } => add_notice(alloc, *callback_id, *status, added),
        Notice::ApplicationUpdate { update: value } => update(alloc, value),
    }
}

/// The frame of a notice. It needs a value that a row has, with a body of at most 252 bytes.
pub fn write_notice(alloc: Global, value: &Notice) -> Result<Frame, NoMemory>
    requires row { HasNoticeRow value.now }
    requires fits { length (notice_body value.now) ≤ 252 }
    ensures frame { IfOk result (λ frame. frame ≡ record { kind = of_request; func = notice_function value.now; body = notice_body value.now }) }
    // It is read as that value.
    ensures body { IfOk result (λ frame. IsNoticeBody frame.func frame.body value.now) }
{
    Ok(Frame {
        kind: Kind::Request,
        func: function(value),
        body: body(alloc, value)?,
    })
}
