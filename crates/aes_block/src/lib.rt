//! AES-128 of one block, as FIPS 197 defines it.
//!
//! It promises that `encrypt` answers exactly the standard's function of key and block, and does not allocate. The
//! definitions, without any table, are in `specs/`: `Field`, `Schedule` and `Cipher`.
#![tactic(auto)]

mod cipher;
mod doubling;
mod field;
mod key_schedule;
mod state;
mod substitution;

pub use cipher::Aes128;
pub use field::inverses_exist;
pub use substitution::table_is_substitution;
