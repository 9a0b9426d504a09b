//! Why a host does not take what it was asked.

use zw_base::NoMemory;

/// Why a host does not take an order or a question. It is then as it was before.
#[derive(Clone, Copy, Debug, PartialEq, Eq)]
pub enum Refused {
    /// The node is not joined.
    NotJoined,
    /// The host does not know which classes the node lists.
    NotInterviewed,
    /// The node does not list this class, which is needed.
    Unsupported(u8),
    /// A value is out of its range.
    BadValue,
    /// The node does not list Supervision.
    Unsupervised,
    /// This many bytes are too many for the node.
    TooLong(u16),
    /// This many commands, the most, wait for the node.
    MailboxFull(u8),
    /// The node would have more properties than this.
    StoreFull(u16),
    /// The node lists Security 0, and takes its messages sealed.
    Secured,
    /// This many housekeeping requests, the most, wait.
    QueueFull(u8),
    /// The node is joined already, or is the controller.
    AlreadyJoined,
    /// The keeper did not keep the record.
    KeeperFault,
    /// There was no memory.
    NoMemory,
}

impl From<NoMemory> for Refused {
    ghost use Rattle.std.specs.Prelude.{◌≡◌};
    ghost use Rattle.host_orders.specs.declared.refused.Refused.TheVariants.{NoMemory as no_memory};

    ghost from_gives = { λ _ e. e ≡ no_memory };

    fn from(_error: NoMemory) -> Refused {
        Refused::NoMemory
    }
}
