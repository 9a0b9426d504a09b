//! What the audit keeps of a transcript that is read line by line, in place of its entries, and the two rules that need
//! only this.
//!
//! It keeps the line that is run, the accepted commands and how they ended, the sessions of each node and the changes
//! of its device. It promises that the first line of a text is read as its entry, and that each table is what the
//! entries so far show.
//! The definitions are in `specs/`.
#![tactic(auto)]

mod changes;
mod endings;
mod group;
mod kind;
mod laws;
mod line;
mod orders;
mod scene;
mod sessions;
mod setting;

pub use changes::Changes;
pub use endings::{Ending, Endings};
pub use laws::{changes_follow, tables_follow};
pub use line::next_entry;
pub use orders::Orders;
pub use scene::Scene;
pub use sessions::{PLACES, Sessions};
pub use setting::{makes, setting_at, setting_count};
