//! How a session ended.

/// The status that ended a session (Supervision Report).
#[derive(Clone, Copy, PartialEq, Eq)]
pub enum FinalStatus {
    /// 0x00.
    NoSupport,
    /// 0x02.
    Fail,
    /// 0xFF.
    Success,
}

/// The byte of no support.
const NO_SUPPORT: u8 = 0x00;
/// The byte of a failure.
const FAIL: u8 = 0x02;
/// The byte of success.
const SUCCESS: u8 = 0xFF;

impl FinalStatus {
    ghost use Rattle.std.specs.Prelude.{◌≡◌};
    ghost use Rattle.host_keep.specs.Status.{status_byte, status_of};

    /// The status with this byte, where there is one.
    pub fn of(byte: u8) -> Option<FinalStatus>
        ensures { result ≡ status_of byte }
    {
        match byte {
            NO_SUPPORT => Some(FinalStatus::NoSupport),
            FAIL => Some(FinalStatus::Fail),
            SUCCESS => Some(FinalStatus::Success),
            _ => None,
        }
    }

    /// The byte that stands for it.
    pub fn byte(self) -> u8
        ensures { result ≡ status_byte self }
    {
        match self {
            FinalStatus::NoSupport => NO_SUPPORT,
            FinalStatus::Fail => FAIL,
            FinalStatus::Success => SUCCESS,
        }
    }
}
