//! Two rules of the audit, for a transcript that is read line by line: the rule of the air, and the rule of payloads.
//!
//! The rule of the air concerns the numbers of frames, what became of each, and how fresh each is. The rule of payloads
//! concerns what the host asked to be sent and what the controller sent. The crate promises that a line is found to
//! break its rule exactly when it does, judged by the lines before it. That what is kept follows the transcript, entry
//! by entry, is proved in `proofs/Flies` and `proofs/Picks`.
//! The rules are in `specs/AirRule` and `specs/PayloadRule`, over the lists that a transcript shows. `Flying` and
//! `Sending` say what is kept in place of these lists, `KeepingFrames` and `KeepingPayloads` that it belongs to a
//! transcript.
#![tactic(auto)]

mod air;
mod frames;
mod payloads;

pub use air::Air;
pub use payloads::Payloads;
