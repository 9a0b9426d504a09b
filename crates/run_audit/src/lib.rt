//! The command `audit` of the program: a transcript is read whole, and judged.
//!
//! It promises what is read and written at each status, and the cause of each status. The definitions are in
//! `specs/Audited.antt`.
#![tactic(auto)]

mod audited;

pub use audited::run_audit;
