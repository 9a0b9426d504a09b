//! A keeper of records over a file, one record a line, for a host whose records are to outlive the program.
//!
//! It promises that a record is kept only where its line was added and synced, that a line that could not be kept whole is
//! cut off again or every later call fails, and that opening what a keeper left gives its records. All that is said of a
//! `Store`; of a real file nothing is claimed.
//! The definitions are in `specs/`: `Lines` for the lines of records, `Holding` for what a store holds, `Drawer` for a keeper
//! and a store in memory as their callers see them.
#![tactic(auto)]

mod disk_file;
mod file_keeper;
mod laws;
mod lines;
mod memory_store;
mod reading;
mod store;
mod writing;

pub use disk_file::{DiskFault, DiskFile};
pub use file_keeper::FileKeeper;
pub use laws::bytes_have_one_split;
pub use memory_store::MemoryStore;
pub use reading::OpenFault;
pub use store::Store;
