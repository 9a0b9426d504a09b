//! Values that are on or off.

ghost use Rattle.std.specs.Prelude.{◌≡◌};
ghost use Rattle.class_core.specs.Fields.{switch_byte, lock_byte};

/// The byte of what is off, or of a door that is not secured.
pub const OFF: u8 = 0x00;
/// The byte of what is on, or of a door that is secured.
pub const ON: u8 = 0xFF;

/// A switch, or a sensor that has two values (Binary Switch and Binary Sensor Command Classes).
#[derive(Clone, Copy, Debug, PartialEq, Eq)]
pub enum Switch {
    /// 0x00.
    Off,
    /// 0xFF.
    On,
}

impl Switch {
    /// The byte that stands for it.
    pub fn byte(self) -> u8
        ensures { result ≡ switch_byte self }
    {
        match self {
            Switch::Off => OFF,
            Switch::On => ON,
        }
    }
}

/// The mode of a door lock (Door Lock Command Class).
#[derive(Clone, Copy, Debug, PartialEq, Eq)]
pub enum LockMode {
    /// 0x00.
    Unsecured,
    /// 0xFF.
    Secured,
}

impl LockMode {
    /// The byte that stands for it.
    pub fn byte(self) -> u8
        ensures { result ≡ lock_byte self }
    {
        match self {
            LockMode::Unsecured => OFF,
            LockMode::Secured => ON,
        }
    }
}
