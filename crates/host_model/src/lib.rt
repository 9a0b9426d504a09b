//! The host of a Z-Wave controller chip as definitions: its state, its events, its calls as lists of events, and its
//! start from records.
//!
//! The code is in the crates above (`host_parts` to `host_core`); what is proved of every host depends on this crate
//! alone.
//! It promises that every event keeps the facts of a host (`facts_are_kept`), that lists of events can be joined
//! (`lists_go_on`, `pieces_go_on`, and for the loops of its calls `turns_of_a_pump_go_on`, `ticks_of_nodes_go_on`,
//! `messages_go_on`), and that a pump ends (`a_pump_ends`). Of records it promises that a host may take up a record
//! exactly when it may follow those before it, that the host's tables are then what the records give
//! (`legal_records_restore_the_host`), that each event does to the tables what its records do
//! (`events_do_what_their_records_do`), and that a restart changes none of them.
//!
//! The definitions are in `specs/`: `State`, `Sessions` for what goes on the air, `Ends` for requests and attempts that
//! end, `Events` with `After`, `Outs`, `Records` and `May`, `Did` for lists of events, `Taking`, `Pumping`, `Ticking`
//! for which list a call is, and `Facts`; `Restoring` for one record, `Opening` for all of them and the restart,
//! `Holding` for when tables agree with what is kept, `Recording` for the records of events, `Listing` for the final table.
#![tactic(auto)]

mod event_laws;
mod lists;
mod loops;
mod opening;
mod out;
mod pumping;
mod record_laws;

pub use event_laws::{facts_are_kept, facts_are_kept_by_all};
pub use host_keep::records_go_on;
pub use host_node::a_restart_needs_the_records_alone;
pub use lists::{lists_go_on, pieces_go_on};
pub use loops::{messages_go_on, ticks_of_nodes_go_on, turns_of_a_pump_go_on};
pub use opening::{
    a_record_restores_what_it_says, a_restart_keeps_what_is_held, legal_records_restore_the_host,
};
pub use out::HostOut;
pub use pumping::{a_pump_ends, attempts_have_what_they_give, nodes_are_told_in_few_turns};
pub use record_laws::{
    a_host_begins_with_what_is_kept, events_do_what_their_records_do, records_of_events_are_legal,
};
