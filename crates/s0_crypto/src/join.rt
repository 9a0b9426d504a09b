//! The vector of a message.

ghost use Rattle.std.specs.Prelude.{◌≡◌, ◌++◌};

/// The nonce of the sender, then that of the receiver.
pub(crate) fn join(s: &[u8; 8], r: &[u8; 8]) -> [u8; 16]
    ensures { result ≡ s.now ++ r.now }
{
    [
        s[0], s[1], s[2], s[3], s[4], s[5], s[6], s[7], r[0], r[1], r[2], r[3], r[4], r[5], r[6],
        r[7],
    ]
}
