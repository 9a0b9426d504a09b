//! AES-128 under one key (FIPS 197, section 5.1).

ghost use Rattle.std.specs.Prelude.{◌≡◌, ℕ};
ghost use Rattle.aes_block.specs.Cipher.{aes};

use crate::doubling::double;
use crate::key_schedule::next_round_key;
use crate::state::{add_round_key, mix_columns, shift_rows, sub_bytes};
use std::marker::Model;

/// The rounds of AES-128 (FIPS 197, section 5).
const ROUNDS: usize = 10;

/// AES-128 under one key. Contracts see the key.
#[derive(Drop)]
pub struct Aes128 {
    round_keys: [[u8; 16]; 11],
}

impl Model for Aes128 {
    ghost use Rattle.std.specs.Prelude.{ℕ, List};
    ghost use Rattle.aes_block.specs.Schedule.{first_key, IsSchedule};

    ghost Value = { List ℕ };

    ghost view = { λ a. first_key a.round_keys };

    ghost invariant = { λ a. IsSchedule a.round_keys };
}

impl Aes128 {
    /// AES-128 under this key.
    pub fn new(key: [u8; 16]) -> Aes128
        ensures { result ≡ key }
    {
        let mut round_keys = [key; ROUNDS + 1];
        let mut power = 1;
        for round in 0..ROUNDS {
            round_keys[round + 1] = next_round_key(&round_keys[round], power);
            power = double(power);
        }
        Aes128 { round_keys }
    }

    /// The cipher text of a block.
    pub fn encrypt(&self, block: [u8; 16]) -> [u8; 16]
        ensures { result ≡ aes self.now block }
    {
        let mut state = add_round_key(block, &self.round_keys[0]);
        for round in 1..ROUNDS {
            let mixed = mix_columns(shift_rows(sub_bytes(state)));
            state = add_round_key(mixed, &self.round_keys[round]);
        }
        add_round_key(shift_rows(sub_bytes(state)), &self.round_keys[ROUNDS])
    }
}
