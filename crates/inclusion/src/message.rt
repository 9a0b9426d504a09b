//! The payloads of the key exchange.

ghost use Rattle.std.specs.Prelude.{◌≡◌};
ghost use Rattle.std.specs.Str.{bytes_eq};
ghost use Rattle.inclusion.specs.Messages.{HasHeader, has_command, key_set, key_set_in, key_verify, message_of, nonce_report};

use zw_base::Payload;

/// The command class Security 0.
pub(crate) const SECURITY: u8 = 0x98;

/// Its command Network Key Set.
const KEY_SET: u8 = 0x06;

/// Its command Nonce Report.
const NONCE_REPORT: u8 = 0x80;

/// Its command Security Message Encapsulation.
const SEALED: u8 = 0x81;

/// A Scheme Get, as the host sends it.
pub const SCHEME_GET: [u8; 3] = [SECURITY, 0x04, 0x00];

pub(crate) const SCHEME_REPORT: [u8; 3] = [SECURITY, 0x05, 0x00];

pub(crate) const NONCE_GET: [u8; 2] = [SECURITY, 0x40];

pub(crate) const KEY_VERIFY: [u8; 2] = [SECURITY, 0x07];

/// The bytes of a Nonce Report.
const NONCE_REPORT_LEN: usize = 10;

/// The bytes of a Network Key Set.
const KEY_SET_LEN: usize = 18;

/// The bytes of the shortest Security message.
const SHORTEST: usize = 20;

/// What a payload is.
#[derive(Clone, Copy, Debug, PartialEq, Eq)]
pub enum Message {
    SchemeGet,
    SchemeReport,
    NonceGet,
    NonceReport([u8; 8]),
    /// A Security message that is long enough to name a nonce.
    Sealed,
    /// Nothing that the exchange knows.
    Other,
}

/// Whether bytes are of Security 0 and of that command.
fn has_command(bytes: &[u8], command: u8) -> bool
    ensures { result ≡ has_command bytes.now command }
{
    bytes.len() >= 2 && bytes[0] == SECURITY && bytes[1] == command
}

/// What a payload is.
#[tactic(auto, unfolding(crate::specs::Messages::message_of))]
pub(crate) fn message_of(payload: &[u8]) -> Message
    ensures value { result ≡ message_of payload.now }
    ensures header { HasHeader result payload.now }
{
    if payload == SCHEME_GET.as_slice() {
        return Message::SchemeGet;
    }
    if payload == SCHEME_REPORT.as_slice() {
        return Message::SchemeReport;
    }
    if payload == NONCE_GET.as_slice() {
        return Message::NonceGet;
    }
    if has_command(payload, NONCE_REPORT) && payload.len() == NONCE_REPORT_LEN {
        let mut nonce = [0; 8];
        nonce.copy_from_slice(&payload[2..]);
        return Message::NonceReport(nonce);
    }
    if has_command(payload, SEALED) && payload.len() >= SHORTEST {
        return Message::Sealed;
    }
    Message::Other
}

/// The key that a plain text sets.
pub(crate) fn key_in(plain: &[u8]) -> Option<[u8; 16]>
    ensures { result ≡ key_set_in plain.now }
{
    if !has_command(plain, KEY_SET) || plain.len() != KEY_SET_LEN {
        return None;
    }
    let mut key = [0; 16];
    key.copy_from_slice(&plain[2..]);
    Some(key)
}

/// Whether a plain text is a Verify.
pub(crate) fn is_verify(plain: &[u8]) -> bool
    ensures { result ≡ bytes_eq plain.now key_verify }
{
    plain == KEY_VERIFY.as_slice()
}

/// The plain text that sets a key.
pub(crate) fn key_set(key: &[u8; 16]) -> [u8; 18]
    ensures { result ≡ key_set key.now }
{
    let mut plain = [0; KEY_SET_LEN];
    plain[0] = SECURITY;
    plain[1] = KEY_SET;
    plain[2..].copy_from_slice(key);
    plain
}

/// The payload that reports a nonce.
pub(crate) fn nonce_report(nonce: &[u8; 8]) -> Payload
    ensures { result ≡ nonce_report nonce.now }
{
    let n = nonce;
    Payload::fitting(&[
        SECURITY,
        NONCE_REPORT,
        n[0],
        n[1],
        n[2],
        n[3],
        n[4],
        n[5],
        n[6],
        n[7],
    ])
}
