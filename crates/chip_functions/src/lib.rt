//! The bodies of the Z-Wave Serial API functions that host and chip use.
//!
//! It promises that a value is written in the one written form of its row; and that bytes are read as a value exactly
//! when a row relates them to that value, and otherwise answer the first fault from the left.
//! The definitions are in `specs/`: `Place` and `Field` (fields of a body), `Mask` (nodes in bits), and the rows, one
//! file a direction: `Request`, `Response` and `Notice`, with `Classes` and `AddNode` for what they share.
#![tactic(auto)]

mod add_node;
mod fault;
mod function;
mod laws;
mod mask;
mod notice;
mod place;
mod reading;
mod request;
mod response;
mod writing;

pub use add_node::{AddMode, AddStatus, AddedNode};
pub use fault::BodyFault;
pub use function::{
    ADD_NODE, APPLICATION_COMMAND_HANDLER, APPLICATION_UPDATE, GET_CAPABILITIES, GET_INIT_DATA,
    GET_NODE_PROTOCOL_INFO, GET_ROUTING_INFO, GET_VERSION, IS_FAILED_NODE, MEMORY_GET_ID,
    REQUEST_NODE_INFO, SEND_DATA, SEND_DATA_ABORT,
};
pub use laws::{one_notice, one_request, one_response};
pub use mask::NodeMask;
pub use notice::{Notice, TransmitStatus, UPDATE_FAILED, UPDATE_RECEIVED, Update};
pub use reading::{read_notice, read_request, read_response};
pub use request::{Request, TRANSMIT_OPTIONS};
pub use response::{REFUSED, Response};
pub use writing::{write_notice, write_request, write_response};
