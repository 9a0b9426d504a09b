//! What is kept of one property, and why something was not kept.

ghost use Rattle.std.specs.Prelude.{◌≡◌};
ghost use Rattle.value_store.specs.Values.{has_value, no_value};

use std::alloc::AllocError;
use zw_base::{NoMemory, Property};

/// The values of a property.
#[derive(Clone, Copy, Debug, PartialEq, Eq)]
pub struct Stored {
    /// The value of the last command of which a final report said Success.
    pub confirmed: Option<u32>,
    /// The value of the last report.
    pub heard: Option<u32>,
}

impl Stored {
    /// Neither value.
    pub(crate) fn none() -> Stored
        ensures { result ≡ no_value }
    {
        Stored {
            confirmed: None,
            heard: None,
        }
    }

    /// Whether there is a value, confirmed or heard.
    pub fn has_value(self) -> bool
        ensures { result ≡ has_value self }
    {
        self.confirmed.is_some() || self.heard.is_some()
    }
}

/// A property with its values.
#[derive(Clone, Copy, Debug, PartialEq, Eq)]
pub struct Held {
    pub property: Property,
    pub stored: Stored,
}

/// Why something was not kept.
#[derive(Clone, Copy, Debug, PartialEq, Eq)]
pub enum StoreFault {
    /// The node would have more than 512 properties.
    StoreFull,
    /// There was no memory.
    NoMemory,
}

impl From<AllocError> for StoreFault {
    ghost use Rattle.std.specs.Prelude.{◌≡◌};
    ghost use Rattle.value_store.specs.declared.stored.StoreFault.TheVariants.{NoMemory as no_memory};

    ghost from_gives = { λ _ e. e ≡ no_memory };

    fn from(_error: AllocError) -> StoreFault {
        StoreFault::NoMemory
    }
}
