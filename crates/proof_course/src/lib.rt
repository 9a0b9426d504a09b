//! The course of the sessions and nonces between a host and one node, on the way to the chip, over the air and back to
//! the host.
//!
//! Nothing here is a byte: a message is known by its session, a nonce by its number. The crate promises that a device
//! takes each session once and in order, that the host is told of each what the device did, and that no nonce is
//! mistaken for another, whatever is lost, written twice, delayed or heard again. A frame that is heard for the first
//! time has no test of its age, and the ends share the numbers of sessions modulo 64 and 16, and those of nonces modulo
//! 256. There is no code here.
//!
//! The definitions are in `specs/`: `Ways` and `Flying` for what is on its way, whatever it is; `Sessions`,
//! `SessionFacts` and `SessionLaws` for sessions; `NodeNonces` and `NodeNonceFacts` for the nonces that a node gives,
//! `HostNonces` and `HostNonceFacts` for those of the host, `NonceLaws` for both.
#![tactic(auto)]

mod nonces;
mod sessions;

pub use nonces::{
    first_bytes_name_one_of_the_host, first_bytes_name_one_of_the_node, nonces_of_nodes_keep_facts,
    nonces_of_the_host_keep_facts,
};
pub use sessions::{courses_keep_facts, ids_name_one_session, what_is_told_was_done};
