//! The requests of purposes, as frames.

ghost use Rattle.std.specs.Prelude.{◌≡◌, ◌≤◌, length, IfOk};
ghost use Rattle.chip_functions.specs.Request.{request_body};
ghost use Rattle.host_requests.specs.Frames.{HasPayload, send, nonce_report, task_request, request_frame};

use crate::Task;
use chip_functions::{Request, TRANSMIT_OPTIONS, write_request};
use serial_frame::Frame;
use std::alloc::Global;
use zw_base::{Bytes, NoMemory, NodeId};

/// The Security 0 Command Class and its Nonce Report.
pub const SECURITY: u8 = 0x98;

pub const NONCE_REPORT: u8 = 0x80;

/// The Wake Up Command Class and its No More Information.
pub const WAKE_UP: u8 = 0x84;

pub const NO_MORE_INFORMATION: u8 = 0x08;

/// A SendData of this payload.
pub fn send(
    alloc: Global,
    node: NodeId,
    payload: &[u8],
    callback_id: u8,
) -> Result<Request, NoMemory>
    requires { length payload.now ≤ 46 }
    ensures request { IfOk result (λ request.
        request ≡ send node payload.now callback_id) }
    ensures fits { IfOk result (λ request.
        length (request_body request) ≤ 252) }
{
    Ok(Request::SendData {
        node,
        payload: Bytes::from_slice(alloc, payload)?,
        options: TRANSMIT_OPTIONS,
        callback_id,
    })
}

/// A nonce for a node.
fn offer(alloc: Global, node: NodeId, nonce: &[u8; 8], callback_id: u8) -> Result<Request, NoMemory>
    ensures request { IfOk result (λ request.
        request ≡ send node (nonce_report nonce.now) callback_id) }
    ensures fits { IfOk result (λ request.
        length (request_body request) ≤ 252) }
{
    let mut payload = Bytes::from_slice(alloc, &[SECURITY, NONCE_REPORT])?;
    payload.extend(nonce)?;
    Ok(Request::SendData {
        node,
        payload,
        options: TRANSMIT_OPTIONS,
        callback_id,
    })
}

/// The request of a task.
fn task_request(alloc: Global, task: &Task, callback_id: u8) -> Result<Request, NoMemory>
    ensures request { IfOk result (λ request.
        request ≡ task_request task.now callback_id) }
    ensures fits { IfOk result (λ request.
        length (request_body request) ≤ 252) }
{
    Ok(match task {
        Task::Plain { node, payload } | Task::Segment { node, payload } => {
            send(alloc, *node, payload.bytes(), callback_id)?
        }
        Task::Offer { node, nonce } => offer(alloc, *node, nonce, callback_id)?,
        Task::NoMore { node } => {
            send(alloc, *node, &[WAKE_UP, NO_MORE_INFORMATION], callback_id)?
        }
        Task::First { node } => Request::GetNodeProtocolInfo { node: *node },
        Task::Second { node } => Request::RequestNodeInfo { node: *node },
        Task::Members => Request::GetInitData,
        Task::Neighbours { node } => Request::GetRoutingInfo {
            node: *node,
            remove_bad: 0,
            remove_non_repeaters: 0,
            function_id: 0,
        },
        Task::IsFailed { node } => Request::IsFailedNode { node: *node },
        Task::Version => Request::GetVersion,
        Task::MemoryId => Request::MemoryGetId,
        Task::Capabilities => Request::GetCapabilities,
    })
}

/// The frame of a task's request.
pub fn task_frame(alloc: Global, task: &Task, callback_id: u8) -> Result<Frame, NoMemory>
    requires payload { HasPayload task.now }
    requires id { 1 ≤ callback_id }
    ensures { IfOk result (λ frame.
        frame ≡ request_frame (task_request task.now callback_id)) }
{
    let request = task_request(alloc, task, callback_id)?;
    write_request(alloc, &request)
}
