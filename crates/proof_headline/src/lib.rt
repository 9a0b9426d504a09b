//! The headline of whole runs: once only, in order, success after the change, and the confirmed value.
//!
//! It holds of every node that takes commands in sessions, sealed or not, over any lines that were read, restarts among
//! them. Such a node is plain (`plain_nodes`: its commands are not sealed, whole or in segments, and its course is that
//! of `proof_course_plain`) or a lock (`lock_nodes`: `proof_course_sealed`). So its device is tied to the host, and
//! each success that the host is told of it is true (`nodes_are_tied`). So it has the headline
//! (`nodes_have_the_headline`, `nodes_report_after_the_change`). If all nodes that may be asked are such nodes, the
//! whole run has it (`askable_nodes_have_the_headline`). The kinds of the devices tell which nodes these are: all that
//! list Supervision (`supervised_nodes_are_plain_or_locks`).
//! Success is reported after the change (`successes_follow_changes`, `runs_report_after_the_change`) if a report of
//! success comes once the device has ended that session so (`specs/Truly`). `runs_have_the_headline` combines this with
//! what follows of a host and its devices that are tied (`proof_once`) and with what was said (`proof_spoken`); for
//! lines that were read it is `lines_have_the_headline`.
//!
//! Each law is the contract of a function with an empty body. The definitions are in `specs/`: `Truly`; `Plain`
//! and `Supervised` say what such nodes and kinds are.
#![tactic(auto)]

mod devices;
mod headline;
mod lock_nodes;
mod nodes;
mod plain_nodes;

pub use devices::supervised_nodes_are_plain_or_locks;
pub use headline::{
    lines_have_the_headline, others_are_told_nothing, runs_have_the_headline,
    runs_report_after_the_change, successes_follow_changes,
};
pub use lock_nodes::locks_are_tied;
pub use nodes::{
    askable_nodes_have_the_headline, nodes_are_tied, nodes_have_the_headline,
    nodes_report_after_the_change,
};
pub use plain_nodes::{devices_as_made_begin_courses, orders_go_plain, plain_nodes_are_tied};
pub use proof_spoken::devices_go_on;
