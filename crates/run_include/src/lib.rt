//! The command `include` of the program: nodes are added with a Security 0 key, line by line.
//!
//! It promises what is read and written at each status, the cause of each status, and that what the transcript says of
//! a node is true at both ends. The definitions are in `specs/Run.antt`.
#![tactic(auto)]

mod machine;
mod run;

pub use run::run_include;
