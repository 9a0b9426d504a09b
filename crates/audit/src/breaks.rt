//! Which rule a line breaks.

/// The rules of a transcript, in the order in which a line is judged by them (this project's own).
#[derive(Clone, Copy, Debug, PartialEq, Eq)]
pub enum Break {
    /// The line is no entry, or has no line feed.
    Text,
    /// A command or a session has not the number that is next, or may not begin.
    Sessions,
    /// A change that the session does not ask for, or that comes twice; or an outcome that the changes do not bear out.
    Once,
    /// A frame has not the number that is next, or a fate that it cannot have.
    Air,
    /// The controller's frame is no payload that the host asked to be sent.
    Payload,
    /// What is confirmed is not what the successful command asks for.
    Store,
    /// The table at the end is not that of the transcript.
    Table,
}
