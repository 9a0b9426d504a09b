//! What the host keeps of its nodes, and which node it looks at next.
//!
//! Of each node it keeps what waits for it, its sessions and their attempts, whether it is awake, and the plain text
//! that waits for its nonce. Each event of a node is one method, which does all of it or nothing, and its contract is a
//! function of the state before. `facts_are_kept` says what holds of every node after every event. In the table of all
//! nodes an event changes the node at its number and no other. Sets that follow each event find the next node to be
//! served, told or ticked, so no call walks all nodes.
//! The definitions are in `specs/`: `State`, `Steps` (the node after each event), `Events` and `Facts` of one node;
//! `TableState` (the nodes by number), `Search` (which is next) and `TableFacts` of all.
#![tactic(auto)]

mod agenda;
mod attempt;
mod laws;
mod no_more;
mod node;
mod node_set;
mod nodes;
mod series;
mod table_laws;

pub use attempt::{AttemptEnd, Moment, Plan};
pub use laws::{
    a_restart_needs_the_records_alone, a_tick_without_waits_is_nothing, facts_are_kept,
    what_is_taken_back_is_undone,
};
pub use no_more::NoMore;
pub use node::{Begun, Node};
pub use nodes::Nodes;
pub use series::Series;
pub use table_laws::{facts_of_all_are_kept, the_least_is_found};
