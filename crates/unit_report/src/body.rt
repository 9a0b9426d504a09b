//! The lines below a frame.

ghost use Rattle.std.specs.Prelude.{◌≤◌, length, string_bytes, IfOk, IfSome};
ghost use Rattle.chip_functions.specs.Place.{Gives};
ghost use Rattle.unit_report.specs.Named.{body_of, AreBelow, Shows};

use crate::payload::payload_line;
use crate::words::show_body_fault;
use chip_functions::{BodyFault, Notice, Request, read_notice, read_request, read_response};
use serial_frame::{Frame, Kind};
use std::alloc::Global;
use zw_base::{Bytes, NoMemory};
use zw_words::Side;

/// The lines below a frame from that side, each with a line feed.
pub(crate) fn show_below(alloc: Global, from: Side, frame: &Frame) -> Result<String, NoMemory>
    ensures { IfOk result (λ text. Shows (AreBelow (body_of from frame.now.kind frame.now.func frame.now.body)) (string_bytes text)) }
{
    match read_body(alloc, from, frame) {
        Ok(carried) => show_carried(alloc, carried),
        Err(BodyFault::NoMemory) => Err(NoMemory),
        Err(fault) => {
            let words = show_body_fault(alloc, fault)?;
            Ok(format!(in alloc; "  body {words}\n")?)
        }
    }
}

/// The lines of a good body, which may carry a payload.
fn show_carried(alloc: Global, carried: Option<Bytes>) -> Result<String, NoMemory>
    requires { IfSome carried (λ payload. length payload ≤ 252) }
    ensures { IfOk result (λ text. Shows (AreBelow (Ok carried)) (string_bytes text)) }
{
    match carried {
        None => Ok(String::from_str(alloc, "  body ok\n")?),
        Some(payload) => {
            let line = payload_line(alloc, payload.as_slice())?;
            Ok(format!(in alloc; "  body ok\n{line}\n")?)
        }
    }
}

/// The payload that the body of a frame from that side carries, where it carries one.
fn read_body(alloc: Global, from: Side, frame: &Frame) -> Result<Option<Bytes>, BodyFault>
    ensures reads { Gives (λ payload. payload) result (body_of from frame.now.kind frame.now.func frame.now.body) }
    ensures short { IfOk result (λ payload. IfSome payload (λ bytes. length bytes ≤ 252)) }
{
    let body = frame.body.as_slice();
    match (frame.kind, from) {
        (Kind::Response, _) => {
            let _ = read_response(alloc, frame.func, body)?;
            Ok(None)
        }
        (Kind::Request, Side::Host) => match read_request(alloc, frame.func, body)? {
            Request::SendData { payload, .. } => Ok(Some(payload)),
            _ => Ok(None),
        },
        (Kind::Request, Side::Chip) => match read_notice(alloc, frame.func, body)? {
            Notice::ApplicationCommandHandler { payload, .. } => Ok(Some(payload)),
            _ => Ok(None),
        },
    }
}
