//! Responses, as the host reads them.

ghost use Rattle.std.specs.Prelude.{◌≡◌, ◌≤◌, IfOk, IfErr};
ghost use Rattle.chip_functions.specs.Place.{Gives, IsBodyFault};
ghost use Rattle.chip_functions.specs.Seen.{place_of};
ghost use Rattle.chip_functions.specs.Field.{byte, mask, ◌then◌};
ghost use Rattle.chip_functions.specs.Response.{
  init_data_at,
  capabilities_at,
  version_at,
  memory_id_at,
  protocol_info_at,
  IsResponseBody,
  response_at,
  response_of,
};
ghost use Rattle.chip_functions.specs.declared.response.Response.{Response};

use crate::function::{
    GET_CAPABILITIES, GET_INIT_DATA, GET_NODE_PROTOCOL_INFO, GET_ROUTING_INFO, GET_VERSION,
    IS_FAILED_NODE, MEMORY_GET_ID, REQUEST_NODE_INFO, SEND_DATA,
};
use crate::mask::MASK_BYTES;
use crate::place::Place;
use crate::{BodyFault, NodeMask, Response};
use std::alloc::Global;

/// The nodes, and the type and the version of the chip.
fn nodes_and_chip(place: &mut Place) -> Result<(NodeMask, u8, u8), BodyFault>
    requires { place.old.before ≤ 3 }
    ensures { Gives (λ x. ((x.0, (x.1, x.2)), place_of place.new)) result ((mask then byte then byte).read (place_of place.old)) }
{
    Ok((place.mask()?, place.byte()?, place.byte()?))
}

#[tactic(auto, unfolding(crate::specs::Response::init_data_at))]
fn init_data(place: &mut Place) -> Result<Response, BodyFault>
    requires { place.old.before ≡ 0 }
    ensures { Gives (λ x. (x, place_of place.new)) result (init_data_at (place_of place.old)) }
{
    let version = place.byte()?;
    let capabilities = place.byte()?;
    place.mark(MASK_BYTES)?;
    let (nodes, chip_type, chip_version) = nodes_and_chip(place)?;
    Ok(Response::GetInitData {
        version,
        capabilities,
        nodes,
        chip_type,
        chip_version,
    })
}

#[tactic(auto, unfolding(crate::specs::Response::capabilities_at))]
fn capabilities(place: &mut Place) -> Result<Response, BodyFault>
    requires { place.old.before ≡ 0 }
    ensures { Gives (λ x. (x, place_of place.new)) result (capabilities_at (place_of place.old)) }
{
    let version = place.byte()?;
    let revision = place.byte()?;
    let manufacturer = place.number16()?;
    let product_type = place.number16()?;
    let product = place.number16()?;
    let mut functions = [0; 32];
    functions.copy_from_slice(place.piece(32)?);
    Ok(Response::GetCapabilities {
        version,
        revision,
        manufacturer,
        product_type,
        product,
        functions,
    })
}

#[tactic(auto, unfolding(crate::specs::Response::version_at))]
fn version(place: &mut Place) -> Result<Response, BodyFault>
    requires { place.old.before ≡ 0 }
    ensures { Gives (λ x. (x, place_of place.new)) result (version_at (place_of place.old)) }
{
    let mut text = [0; 12];
    text.copy_from_slice(place.piece(12)?);
    Ok(Response::GetVersion {
        text,
        library_type: place.byte()?,
    })
}

#[tactic(auto, unfolding(crate::specs::Response::memory_id_at))]
fn memory_id(place: &mut Place) -> Result<Response, BodyFault>
    requires { place.old.before ≡ 0 }
    ensures { Gives (λ x. (x, place_of place.new)) result (memory_id_at (place_of place.old)) }
{
    Ok(Response::MemoryGetId {
        home_id: place.number32()?,
        node: place.node()?,
    })
}

#[tactic(auto, unfolding(crate::specs::Response::protocol_info_at))]
fn protocol_info(place: &mut Place) -> Result<Response, BodyFault>
    requires { place.old.before ≡ 0 }
    ensures { Gives (λ x. (x, place_of place.new)) result (protocol_info_at (place_of place.old)) }
{
    Ok(Response::GetNodeProtocolInfo {
        capability: place.byte()?,
        security: place.byte()?,
        reserved: place.byte()?,
        basic: place.byte()?,
        generic: place.byte()?,
        specific: place.byte()?,
    })
}

#[tactic(auto, unfolding(crate::specs::Response::response_at))]
fn response(func: u8, place: &mut Place) -> Result<Response, BodyFault>
    requires { place.old.before ≡ 0 }
    ensures { Gives (λ x. (x, place_of place.new)) result (response_at func (place_of place.old)) }
{
    match func {
        GET_INIT_DATA => init_data(place),
        GET_CAPABILITIES => capabilities(place),
        SEND_DATA => Ok(Response::SendData {
            answer: place.byte()?,
        }),
        GET_VERSION => version(place),
        MEMORY_GET_ID => memory_id(place),
        GET_NODE_PROTOCOL_INFO => protocol_info(place),
        REQUEST_NODE_INFO => Ok(Response::RequestNodeInfo {
            answer: place.byte()?,
        }),
        IS_FAILED_NODE => Ok(Response::IsFailedNode {
            failed: place.failed()?,
        }),
        GET_ROUTING_INFO => Ok(Response::GetRoutingInfo {
            nodes: place.mask()?,
        }),
        _ => Err(BodyFault::UnknownFunction(func)),
    }
}

/// The prefix of the body of a function, read from left to right.
#[tactic(auto, unfolding(crate::specs::Response::response_of))]
fn first_response(func: u8, body: &[u8]) -> Result<Response, BodyFault>
    ensures { Gives (λ response. response) result (response_of func body.now) }
{
    let mut place = Place {
        before: 0,
        rest: body,
    };
    response(func, &mut place)
}

/// The response that the body of a function begins with.
pub fn read_response(_alloc: Global, func: u8, body: &[u8]) -> Result<Response, BodyFault>
    // What is read is spelled so.
    ensures found { IfOk result (λ response. IsResponseBody func body.now response) }
    // What is spelled so is read, unless there is no memory.
    ensures only { (response : Response) → IsResponseBody func body.now response → Gives (λ found. found) result (Ok response) }
    // Which value it is, or which fault.
    ensures exact { Gives (λ response. response) result (response_of func body.now) }
    // A fault names the function, tells how many bytes there are and that more are needed, or names one of them.
    ensures fault { IfErr result (λ fault. IsBodyFault func body.now fault) }
{
    first_response(func, body)
}
