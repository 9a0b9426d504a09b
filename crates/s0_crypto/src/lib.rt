//! The keys, the sealing and the opening of Security 0 messages.
//!
//! It promises that `seal` and `unseal` relate plain texts and messages exactly as `specs/Seal.antt` says, that what
//! was sealed opens to its plain text and no other, and that each refusal of `unseal` comes exactly for its cause.
//! `specs/Modes.antt` defines the modes of AES-128, `specs/Opening.antt` the parts of a message, and `specs/Sealing.antt`
//! what opens, and what is sealed, as functions.
#![tactic(auto)]

mod code;
mod ends;
mod fault;
mod join;
mod key_pair;
mod key_stream;
mod network_keys;
mod opening;
mod sealing;

pub use ends::SealEnds;
pub use fault::SealFault;
pub use key_pair::Keys;
pub use network_keys::keys;
pub use opening::{open, unseal};
pub use sealing::seal;
pub use zw_base::{Bytes, NoMemory, NodeId};
