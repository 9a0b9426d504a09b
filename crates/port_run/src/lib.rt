//! The host on a serial port: lines given as words drive it, a source and a sink are the port, and a clock tells time.
//!
//! It promises that the words are read before the host starts; that what is written is the units that the host puts out
//! at the words that were run, the bytes that were read and the ticks that passed, in their order; and the cause of
//! each end.
//! The definitions are in `specs/`: `Lines` (what a word is), `Steps` (what the host does at one), `Schedule` (which
//! steps words are), `Serving` (what was read and written), `Ending` (how it ends) and `Quiet` (what follows from a
//! clock that counts a quiet moment as a tick).
#![tactic(auto)]

mod asking;
mod clock;
mod ending;
mod line;
mod quiet;
mod run;
mod serving;
mod steps;
mod stop;
mod waiting;

pub use asking::Answer;
pub use clock::{Clock, QuietClock};
pub use ending::Served;
pub use line::{LinesFault, PortLine, read_port};
pub use quiet::quiet_ticks_come_last;
pub use run::run_host;
pub use serving::serve;
pub use stop::Stop;
