//! Why no exchange begins.

use zw_base::NoMemory;

/// Why an exchange does not begin. The first that holds is told.
#[derive(Clone, Copy, Debug, PartialEq, Eq)]
pub enum AddFault {
    /// An exchange is under way.
    Busy,
    /// The node counts as secure.
    Secure,
    NoMemory,
}

impl From<NoMemory> for AddFault {
    ghost use Rattle.std.specs.Prelude.{◌≡◌};
    ghost use Rattle.inclusion.specs.declared.fault.AddFault.TheVariants.{NoMemory as no_memory};

    ghost from_gives = { λ _ fault. fault ≡ no_memory };

    fn from(_error: NoMemory) -> AddFault {
        AddFault::NoMemory
    }
}
