//! Neighbours and routes: which nodes hear each other, which may repeat a frame, and the route from node 1.
//!
//! It promises that a route has the fewest repeaters of all walks in the table, and among those with equally few comes
//! first; that there is no route exactly when there is no walk; and that nothing here allocates.
//! The definitions are in `specs/`: `Network` (links and repeaters), `Walk` (walks and which of two comes first).
#![tactic(auto)]

mod node_set;
mod route;
mod table;

pub use route::{MAX_REPEATERS, Route};
pub use table::RouteTable;
