//! One wrap taken off.

ghost use Rattle.std.specs.Prelude.{◌≡◌, ◌+◌, ◌<◌, ◌^◌, ◌≤◌, length, IfOk, IfErr};
ghost use Rattle.encap.specs.Begins.{IsSupervision, IsMultiChannel, IsCrc16};
ghost use Rattle.encap.specs.Faults.{IsCrc16Fault, IsChannelFault, IsSupervisionFault};
ghost use Rattle.encap.specs.Layers.{TakesCrc16Off, TakesChannelOff, TakesSupervisionOff};

use crate::WrapFault;
use crate::begins::{CRC16, MULTI_CHANNEL, SUPERVISION_GET, begins};
use crate::plan::{Ends, Supervised};
use zw_base::{crc_ccitt, read_end};

/// The bytes that CRC-16, Multi Channel and Supervision have at least.
const LEAST: usize = 4;

/// What is inside one wrap, and what the wrap said.
#[derive(Clone, Copy)]
pub struct Peeled<'a, T> {
    pub wrap: T,
    pub inner: &'a [u8],
}

/// Takes CRC-16 off, where the bytes begin with it.
pub fn crc16_off(bytes: &[u8]) -> Result<Peeled<'_, bool>, WrapFault>
    requires { length bytes.now < 2 ^ 16 }
    ensures len { IfOk result (λ peeled. length peeled.inner.now ≤ length bytes.now) }
    ensures off { IfOk result (λ peeled. TakesCrc16Off peeled.wrap peeled.inner.now bytes.now) }
    ensures fault { IfErr result (λ fault. IsCrc16 bytes.now × IsCrc16Fault bytes.now fault) }
{
    if !begins(bytes, CRC16) {
        return Ok(Peeled {
            wrap: false,
            inner: bytes,
        });
    }
    let len = bytes.len();
    if len < LEAST {
        return Err(too_short(bytes));
    }
    let want = crc_ccitt(&bytes[..len - 2]);
    let got = u16::from(bytes[len - 2]) * 256 + u16::from(bytes[len - 1]);
    if want != got {
        return Err(WrapFault::BadCrc { want, got });
    }
    Ok(Peeled {
        wrap: true,
        inner: &bytes[2..len - 2],
    })
}

/// Takes Multi Channel off, where the bytes begin with it.
pub fn channel_off(bytes: &[u8]) -> Result<Peeled<'_, Option<Ends>>, WrapFault>
    requires { length bytes.now < 2 ^ 16 }
    ensures len { IfOk result (λ peeled. length peeled.inner.now ≤ length bytes.now) }
    ensures off { IfOk result (λ peeled. TakesChannelOff peeled.wrap peeled.inner.now bytes.now) }
    ensures fault { IfErr result (λ fault. IsMultiChannel bytes.now × IsChannelFault bytes.now fault) }
{
    if !begins(bytes, MULTI_CHANNEL) {
        return Ok(Peeled {
            wrap: None,
            inner: bytes,
        });
    }
    if bytes.len() < LEAST {
        return Err(too_short(bytes));
    }
    match (read_end(bytes[2] % 128), read_end(bytes[3])) {
        (Some(source), Some(target)) => Ok(Peeled {
            wrap: Some(Ends { source, target }),
            inner: &bytes[4..],
        }),
        _ => Err(WrapFault::BitAddress),
    }
}

/// Takes Supervision off, where the bytes begin with it.
pub fn supervision_off(bytes: &[u8]) -> Result<Peeled<'_, Option<Supervised>>, WrapFault>
    requires { length bytes.now < 2 ^ 16 }
    ensures len { IfOk result (λ peeled. length peeled.inner.now ≤ length bytes.now) }
    ensures off { IfOk result (λ peeled. TakesSupervisionOff peeled.wrap peeled.inner.now bytes.now) }
    ensures fault { IfErr result (λ fault. IsSupervision bytes.now × IsSupervisionFault bytes.now fault) }
{
    if !begins(bytes, SUPERVISION_GET) {
        return Ok(Peeled {
            wrap: None,
            inner: bytes,
        });
    }
    if bytes.len() < LEAST {
        return Err(too_short(bytes));
    }
    let said = u16::from(bytes[3]);
    let got = (bytes.len() - LEAST) as u16;
    if said != got {
        return Err(WrapFault::Length { said, got });
    }
    let session = Supervised {
        updates: bytes[2] >= 128,
        id: bytes[2] % 64,
    };
    Ok(Peeled {
        wrap: Some(session),
        inner: &bytes[4..],
    })
}

/// The fault of bytes that end before their last field.
fn too_short(bytes: &[u8]) -> WrapFault
    requires { length bytes.now < 4 }
    ensures { result ≡ WrapFault.Length 4 (length bytes.now) }
{
    WrapFault::Length {
        said: LEAST as u16,
        got: bytes.len() as u16,
    }
}
