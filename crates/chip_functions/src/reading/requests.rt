//! Requests, as the chip reads them.

ghost use Rattle.std.specs.Prelude.{◌≡◌, IfOk, IfErr};
ghost use Rattle.chip_functions.specs.Place.{Gives, IsBodyFault};
ghost use Rattle.chip_functions.specs.Seen.{place_of};
ghost use Rattle.chip_functions.specs.Request.{send_data_at, add_request_at, get_routing_info_at, IsRequestBody, request_at, request_of};
ghost use Rattle.chip_functions.specs.declared.request.Request.{Request};

use crate::function::{
    ADD_NODE, GET_CAPABILITIES, GET_INIT_DATA, GET_NODE_PROTOCOL_INFO, GET_ROUTING_INFO,
    GET_VERSION, IS_FAILED_NODE, MEMORY_GET_ID, REQUEST_NODE_INFO, SEND_DATA, SEND_DATA_ABORT,
};
use crate::place::Place;
use crate::{BodyFault, Request};
use std::alloc::Global;

#[tactic(auto, unfolding(crate::specs::Request::send_data_at))]
fn send_data(alloc: Global, place: &mut Place) -> Result<Request, BodyFault>
    requires { place.old.before ≡ 0 }
    ensures { Gives (λ x. (x, place_of place.new)) result (send_data_at (place_of place.old)) }
{
    let node = place.node()?;
    let payload = place.counted(alloc)?;
    let options = place.byte()?;
    let callback_id = place.callback_id()?;
    Ok(Request::SendData {
        node,
        payload,
        options,
        callback_id,
    })
}

#[tactic(auto, unfolding(crate::specs::Request::add_request_at))]
fn add_request(place: &mut Place) -> Result<Request, BodyFault>
    requires { place.old.before ≡ 0 }
    ensures { Gives (λ x. (x, place_of place.new)) result (add_request_at (place_of place.old)) }
{
    Ok(Request::AddNode {
        mode: place.add_mode()?,
        callback_id: place.callback_id()?,
    })
}

#[tactic(auto, unfolding(crate::specs::Request::get_routing_info_at))]
fn get_routing_info(place: &mut Place) -> Result<Request, BodyFault>
    requires { place.old.before ≡ 0 }
    ensures { Gives (λ x. (x, place_of place.new)) result (get_routing_info_at (place_of place.old)) }
{
    let node = place.node()?;
    let bytes = place.piece(3)?;
    Ok(Request::GetRoutingInfo {
        node,
        remove_bad: bytes[0],
        remove_non_repeaters: bytes[1],
        function_id: bytes[2],
    })
}

#[tactic(auto, unfolding(crate::specs::Request::request_at))]
fn request(alloc: Global, func: u8, place: &mut Place) -> Result<Request, BodyFault>
    requires { place.old.before ≡ 0 }
    ensures { Gives (λ x. (x, place_of place.new)) result (request_at func (place_of place.old)) }
{
    match func {
        GET_INIT_DATA => Ok(Request::GetInitData),
        GET_CAPABILITIES => Ok(Request::GetCapabilities),
        SEND_DATA => send_data(alloc, place),
        GET_VERSION => Ok(Request::GetVersion),
        SEND_DATA_ABORT => Ok(Request::SendDataAbort),
        MEMORY_GET_ID => Ok(Request::MemoryGetId),
        GET_NODE_PROTOCOL_INFO => Ok(Request::GetNodeProtocolInfo {
            node: place.node()?,
        }),
        ADD_NODE => add_request(place),
        REQUEST_NODE_INFO => Ok(Request::RequestNodeInfo {
            node: place.node()?,
        }),
        IS_FAILED_NODE => Ok(Request::IsFailedNode {
            node: place.node()?,
        }),
        GET_ROUTING_INFO => get_routing_info(place),
        _ => Err(BodyFault::UnknownFunction(func)),
    }
}

/// The whole body of a function, read from left to right.
#[tactic(auto, unfolding(crate::specs::Request::request_of))]
fn whole_request(alloc: Global, func: u8, body: &[u8]) -> Result<Request, BodyFault>
    ensures { Gives (λ request. request) result (request_of func body.now) }
{
    let mut place = Place {
        before: 0,
        rest: body,
    };
    let request = request(alloc, func, &mut place)?;
    match place.rest {
        [] => Ok(request),
        [..] => Err(BodyFault::BadField(place.before)),
    }
}

/// The request that the whole body of a function is.
pub fn read_request(alloc: Global, func: u8, body: &[u8]) -> Result<Request, BodyFault>
    // What is read is spelled so.
    ensures found { IfOk result (λ request. IsRequestBody func body.now request) }
    // What is spelled so is read, unless there is no memory.
    ensures only { (request : Request) → IsRequestBody func body.now request → Gives (λ found. found) result (Ok request) }
    // Which value it is, or which fault.
    ensures exact { Gives (λ request. request) result (request_of func body.now) }
    // A fault names the function, tells how many bytes there are and that more are needed, or names one of them.
    ensures fault { IfErr result (λ fault. IsBodyFault func body.now fault) }
{
    whole_request(alloc, func, body)
}
