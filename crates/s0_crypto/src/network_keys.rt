//! The keys that a network key gives.

ghost use Rattle.std.specs.Prelude.{◌≡◌};
ghost use Rattle.s0_crypto.specs.Sealing.{keys_of};

use crate::Keys;
use aes_block::Aes128;

/// The keys of a network: what its key makes of 16 times 0xAA, and of 16 times 0x55.
#[tactic(auto, unfolding(crate::specs::Sealing::keys_of))]
pub fn keys(network: [u8; 16]) -> Keys
    ensures { result ≡ keys_of network }
{
    let network = Aes128::new(network);
    Keys {
        encrypt: Aes128::new(network.encrypt([0xAA; 16])),
        code: Aes128::new(network.encrypt([0x55; 16])),
    }
}
