//! What a host must not forget: its records, their texts, and the keeper that holds them.
//!
//! It promises that a text is read as a record exactly when it is that record's text, and that a keeper adds a record
//! or leaves everything unchanged. It says what records in their order give, and which record may follow them.
//! The definitions are in `specs/`: `Rows` for the numbers of a record, `RecordText` for its text, `RowReading` for
//! reading it, `Keeping` and `Shelf` for keepers, `Packed` for texts in one, `Kept` for what records give, `Legal` for which may follow.
#![tactic(auto)]

mod final_status;
mod keeper;
mod kinds;
mod laws;
mod memory_keeper;
mod plain_keeper;
mod reading;
mod record;
mod row;
mod texts;
mod worked;
mod writing;

pub use final_status::FinalStatus;
pub use keeper::{KeepFault, Keeper, keep};
pub use laws::{a_text_is_of_one_record, records_go_on, texts_give_one_thing};
pub use memory_keeper::MemoryKeeper;
pub use plain_keeper::PlainKeeper;
pub use reading::{RecordFault, read_record};
pub use record::Record;
pub use texts::Texts;
pub use worked::worked_records;
pub use writing::write_record;
