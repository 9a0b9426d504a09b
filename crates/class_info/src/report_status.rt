//! The status of a Supervision Report (Supervision Command Class).

ghost use Rattle.std.specs.Prelude.{◌≡◌};
ghost use Rattle.class_info.specs.Values.{status_byte};

/// No row of the node's classes took the command.
pub const NO_SUPPORT: u8 = 0x00;
/// The command is being carried out.
pub const WORKING: u8 = 0x01;
/// The command was refused.
pub const FAIL: u8 = 0x02;
/// The command was carried out.
pub const SUCCESS: u8 = 0xFF;

/// What became of a supervised command.
#[derive(Clone, Copy, Debug, PartialEq, Eq)]
pub enum ReportStatus {
    /// 0x00.
    NoSupport,
    /// 0x01.
    Working,
    /// 0x02.
    Fail,
    /// 0xFF.
    Success,
}

impl ReportStatus {
    /// The byte that stands for it.
    pub fn byte(self) -> u8
        ensures { result ≡ status_byte self }
    {
        match self {
            ReportStatus::NoSupport => NO_SUPPORT,
            ReportStatus::Working => WORKING,
            ReportStatus::Fail => FAIL,
            ReportStatus::Success => SUCCESS,
        }
    }
}
