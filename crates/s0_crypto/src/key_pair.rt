//! The two keys of Security 0.

use aes_block::Aes128;

/// The key that enciphers and the key of the codes. Contracts see each as its 16 bytes.
#[derive(Drop)]
pub struct Keys {
    pub encrypt: Aes128,
    pub code: Aes128,
}
