//! The laws of whole runs of the commands, at every status, as one promise: `commands_keep_laws`; and the top call, `run`.
//!
//! `run` is the whole program without its real input and output: `run_command` of `run_all`, which says what a run did,
//! with that promise.
//!
//! A run of `sim` (`specs/Sim`) and of `generate` (`specs/Generate`) has a story: its lines, each with its events of the
//! machine, and the laws are of every such story (`specs/Laws`). In a run of `sim` a restart reads the records
//! (`specs/RestartReads`). The story of `host` is the events of its host (`specs/Port`), also after earlier lives whose
//! records the keeper holds (`specs/Lives`); that of `replay` its transcript (`specs/Replay`); that of `include` its
//! lines, with the parts of its transcript (`specs/Include`). What holds of every run of the machine (`proof_world`), of
//! every host (`proof_host`) and of lines that add nodes (`proof_include`) holds of each such story.
//! A transcript has the words of a line, separated by one space, and not its text. Nothing is lost by this
//! (`lines_are_read_as_said`), so a law that reads the lines of a run from its transcript reads the lines that were
//! run. Besides `run` there is no code here.
#![tactic(auto)]

mod all;
mod generate;
mod include;
mod laws;
mod mesh;
mod port;
mod replay;
mod sim;
mod top;
mod words;

pub use all::commands_keep_laws;
pub use mesh::the_mesh_is_auditable;
pub use run_all::ChaChaDraw;
pub use top::run;
pub use words::{lines_are_read_as_said, replayed_lines_are_read_as_said, said_lines_are_entries};
