//! The fields that these classes alone have, each read at its offset from the class byte.

ghost use Rattle.std.specs.Prelude.{◌≡◌};
ghost use Rattle.class_core.specs.Reading.{bits_at, flag_at, limited_at};
ghost use Rattle.class_info.specs.Values.{is_battery};
ghost use Rattle.class_info.specs.InfoReading.{nonce_at, status_at};

use crate::battery_level::BatteryLevel;
use crate::report_status::{FAIL, NO_SUPPORT, ReportStatus, SUCCESS, WORKING};
use crate::session::{SessionId, TransportId};
use class_core::ClassFault;
use class_core::fields::byte;

/// How many bytes a nonce has.
const NONCE_LEN: u8 = 8;

/// The charge of a battery at an offset.
#[tactic(auto, unfolding(class_core::specs::Reading::limited_at))]
pub(crate) fn battery_level(bytes: &[u8], at: u8) -> Result<BatteryLevel, ClassFault>
    ensures { result ≡ limited_at is_battery at bytes.now }
{
    match BatteryLevel::of(byte(bytes, at)?) {
        Some(level) => Ok(level),
        None => Err(ClassFault::BadValue(u16::from(at))),
    }
}

/// The status of a report at an offset.
#[tactic(auto, unfolding(crate::specs::InfoReading::status_at))]
pub(crate) fn report_status(bytes: &[u8], at: u8) -> Result<ReportStatus, ClassFault>
    ensures { result ≡ status_at at bytes.now }
{
    match byte(bytes, at)? {
        NO_SUPPORT => Ok(ReportStatus::NoSupport),
        WORKING => Ok(ReportStatus::Working),
        FAIL => Ok(ReportStatus::Fail),
        SUCCESS => Ok(ReportStatus::Success),
        _ => Err(ClassFault::BadValue(u16::from(at))),
    }
}

/// Bit 6 of the byte at an offset.
#[tactic(auto, unfolding(class_core::specs::Reading::bits_at, class_core::specs::Reading::flag_at))]
pub(crate) fn bit_six(bytes: &[u8], at: u8) -> Result<bool, ClassFault>
    ensures { result ≡ flag_at 6 at bytes.now }
{
    Ok(byte(bytes, at)? / 64 % 2 == 1)
}

/// The session in the low six bits of the byte at an offset.
#[tactic(auto, unfolding(class_core::specs::Reading::bits_at))]
pub(crate) fn session_id(bytes: &[u8], at: u8) -> Result<SessionId, ClassFault>
    ensures { result ≡ bits_at 0 6 at bytes.now }
{
    Ok(SessionId::from_low_bits(byte(bytes, at)?))
}

/// The session in the high four bits of the byte at an offset.
#[tactic(auto, unfolding(class_core::specs::Reading::bits_at))]
pub(crate) fn transport_id(bytes: &[u8], at: u8) -> Result<TransportId, ClassFault>
    ensures { result ≡ bits_at 4 4 at bytes.now }
{
    Ok(TransportId::from_high_bits(byte(bytes, at)?))
}

/// The eight bytes of a nonce at an offset.
#[tactic(auto, unfolding(crate::specs::InfoReading::nonce_at))]
pub(crate) fn nonce(bytes: &[u8], at: u8) -> Result<[u8; 8], ClassFault>
    ensures { result ≡ nonce_at at bytes.now }
{
    let end = u16::from(at) + u16::from(NONCE_LEN);
    if bytes.len() < usize::from(end) {
        return Err(ClassFault::Short(end));
    }
    let mut nonce = [0; 8];
    nonce.copy_from_slice(&bytes[usize::from(at)..usize::from(end)]);
    Ok(nonce)
}
