//! What became of No More Information (Wake Up Command Class).

/// What became of the No More Information that lets a node sleep, since it woke.
#[derive(Clone, Copy, Debug, PartialEq, Eq)]
pub enum NoMore {
    /// None was queued, or its request has ended.
    Unasked,
    /// It is queued, or its request is under way.
    Queued,
    /// It found the queue full, and is tried again only once the node notifies again.
    Dropped,
}
