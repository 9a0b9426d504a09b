//! The program without its real input and output: the words name a command, which reads its input and writes what it
//! does.
//!
//! `run_command` is the whole of it. `specs/Commands` says what each command reads, runs and writes at each status. The
//! commands are in `run_sim`, `run_generate`, `run_replay`, `run_include`, `run_tools`, `port_run` and `run_audit`.
//! `run` of `proof_commands` calls it, and promises besides what every run keeps true.
#![tactic(auto)]

mod chacha;
mod console;

pub use chacha::ChaChaDraw;
pub use console::run_command;
