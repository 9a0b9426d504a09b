//! Requests, as the host writes them.

ghost use Rattle.std.specs.Prelude.{◌≡◌, ◌≤◌, length, IfOk};
ghost use Rattle.serial_frame.specs.declared.frame.Kind.TheVariants.{Request as of_request};
ghost use Rattle.chip_functions.specs.Request.{send_data, request_function, request_body, HasRequestRow, IsRequest, IsRequestBody};
ghost use Rattle.chip_functions.specs.Field.{IsNode};

use super::between;
use crate::Request;
use crate::function::{
    ADD_NODE, GET_CAPABILITIES, GET_INIT_DATA, GET_NODE_PROTOCOL_INFO, GET_ROUTING_INFO,
    GET_VERSION, IS_FAILED_NODE, MEMORY_GET_ID, REQUEST_NODE_INFO, SEND_DATA, SEND_DATA_ABORT,
};
use serial_frame::{Frame, Kind};
use std::alloc::Global;
use zw_base::{Bytes, NoMemory, NodeId};

fn function(value: &Request) -> u8
    ensures { result ≡ request_function value.now }
{
    match value {
        Request::GetInitData => GET_INIT_DATA,
        Request::GetCapabilities => GET_CAPABILITIES,
        Request::SendData { .. } => SEND_DATA,
        Request::GetVersion => GET_VERSION,
        Request::SendDataAbort => SEND_DATA_ABORT,
        Request::MemoryGetId => MEMORY_GET_ID,
        Request::GetNodeProtocolInfo { .. } => GET_NODE_PROTOCOL_INFO,
        Request::AddNode { .. } => ADD_NODE,
        Request::RequestNodeInfo { .. } => REQUEST_NODE_INFO,
        Request::IsFailedNode { .. } => IS_FAILED_NODE,
        Request::GetRoutingInfo { .. } => GET_ROUTING_INFO,
    }
}

fn send_data(
    alloc: Global,
    node: NodeId,
    payload: &Bytes,
    options: u8,
    callback_id: u8,
) -> Result<Bytes, NoMemory>
    requires { length payload.now ≤ 255 }
    ensures body { IfOk result (λ body. body ≡ send_data.spell (node, (payload.now, (options, callback_id)))) }
    ensures node { IsNode node }
{
    let prefix = [node.number(), payload.len() as u8];
    between(alloc, &prefix, payload.as_slice(), &[options, callback_id])
}

fn body(alloc: Global, value: &Request) -> Result<Bytes, NoMemory>
    requires { length (request_body value.now) ≤ 252 }
    ensures body { IfOk result (λ body. body ≡ request_body value.now) }
    ensures row { HasRequestRow value.now → IsRequest value.now }
{
    match value {
        Request::GetInitData
        | Request::GetCapabilities
        | Request::GetVersion
        | Request::SendDataAbort
        | Request::MemoryGetId => Ok(Bytes::new(alloc)),
        Request::SendData {
            node,
            payload,
            options,
            callback_id,
        } => send_data(alloc, *node, payload, *options, *callback_id),
        Request::GetNodeProtocolInfo { node }
        | Request::RequestNodeInfo { node }
        | Request::IsFailedNode { node } => Bytes::from_slice(alloc, &[node.number()]),
        Request::AddNode { mode, callback_id } => {
            Bytes::from_slice(alloc, &[mode.code(), *callback_id])
        }
        Request::GetRoutingInfo {
            node,
            remove_bad,
            remove_non_repeaters,
            function_id,
        } => Bytes::from_slice(
            alloc,
            &[
                node.number(),
                *remove_bad,
                *remove_non_repeaters,
                *function_id,
            ],
        ),
    }
}

/// The frame of a request. It needs a value that a row has, with a body of at most 252 bytes.
pub fn write_request(alloc: Global, value: &Request) -> Result<Frame, NoMemory>
    requires row { HasRequestRow value.now }
    requires fits { length (request_body value.now) ≤ 252 }
    ensures frame { IfOk result (λ frame. frame ≡ record { kind = of_request; func = request_function value.now; body = request_body value.now }) }
    // It is read as that value.
    ensures body { IfOk result (λ frame. IsRequestBody frame.func frame.body value.now) }
{
    Ok(Frame {
        kind: Kind::Request,
        func: function(value),
        body: body(alloc, value)?,
    })
}
