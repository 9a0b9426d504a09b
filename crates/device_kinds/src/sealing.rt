//! Which messages are sealed, and the reports of nonces (Z-Wave Security 0).

ghost use Rattle.std.specs.Prelude.{◌≡◌, slice_index, IfOk, IsTrue};
ghost use Rattle.encap.specs.Opening.{begins_with};
ghost use Rattle.class_info.specs.InfoSpelling.{form};
ghost use Rattle.device_kinds.specs.Worded.{IsPayload};

use crate::SECURITY;
use class_info::InfoMessage;
use std::alloc::Global;
use zw_base::{NoMemory, Payload};

/// The command of a Security message.
const MESSAGE: u8 = 0x81;

/// Whether these bytes begin a Security message.
pub fn is_sealed(bytes: &[u8]) -> bool
    ensures value { result ≡ begins_with bytes.now 0x98 0x81 }
    ensures class { IsTrue result → slice_index bytes.now 0 ≡ 0x98 }
    ensures command { IsTrue result → slice_index bytes.now 1 ≡ 0x81 }
{
    bytes.len() >= 2 && bytes[0] == SECURITY && bytes[1] == MESSAGE
}

/// The report of a nonce.
pub fn nonce_report(alloc: Global, nonce: [u8; 8]) -> Result<Payload, NoMemory>
    ensures value { IfOk result (λ payload. payload ≡ form (InfoMessage.NonceReport nonce)) }
    ensures size { IfOk result (λ payload. IsPayload payload) }
{
    let text = class_info::write(alloc, &InfoMessage::NonceReport { nonce })?;
    Ok(Payload::fitting(text.as_slice()))
}
