//! Each row both ways, by bytes that were written by hand.

ghost use Rattle.std.specs.Prelude.{◌≤◌, length};

mod faults;
mod nodes;
mod tables;

use crate::parts::part;
use crate::rows::check_row;
use chip_functions::*;
use serial_frame::{Frame, Kind, MAX_BODY};
use std::alloc::Global;
use tables::ROWS;

/// The frame of the request that a body is.
fn request_again(alloc: Global, func: u8, body: &[u8]) -> Result<Frame, BodyFault>
    requires { length body.now ≤ 252 }
{
    let value = read_request(alloc, func, body)?;
    Ok(write_request(alloc, &value)?)
}

/// The frame of the response that a body begins with.
fn response_again(alloc: Global, func: u8, body: &[u8]) -> Result<Frame, BodyFault> {
    let value = read_response(alloc, func, body)?;
    Ok(write_response(alloc, &value)?)
}

/// The frame of the notice that a body begins with.
fn notice_again(alloc: Global, func: u8, body: &[u8]) -> Result<Frame, BodyFault>
    requires { length body.now ≤ 252 }
{
    let value = read_notice(alloc, func, body)?;
    Ok(write_notice(alloc, &value)?)
}

/// The frame of what a part spells, written again. None where it is no body that a frame can have.
fn again(alloc: Global, line: &[u8]) -> Result<Option<Frame>, BodyFault> {
    let [way, func, body @ ..] = line else {
        return Ok(None);
    };
    if body.len() > MAX_BODY {
        return Ok(None);
    }
    match way {
        0 => Ok(Some(request_again(alloc, *func, body)?)),
        1 => Ok(Some(response_again(alloc, *func, body)?)),
        2 => Ok(Some(notice_again(alloc, *func, body)?)),
        _ => Ok(None),
    }
}

/// The part that a frame in that direction is.
fn matches_part(way: u8, frame: &Frame, line: &[u8]) -> bool {
    let kind = if way == 1 {
        Kind::Response
    } else {
        Kind::Request
    };
    match line {
        [first, func, body @ ..] => {
            *first == way
                && frame.kind == kind
                && frame.func == *func
                && frame.body.as_slice() == body
        }
        _ => false,
    }
}

/// Whether that part is read and written as this one.
fn is_written_as(alloc: Global, line: &[u8], form: &[u8]) -> bool {
    match (again(alloc, line), line) {
        (Ok(Some(frame)), [way, ..]) => matches_part(*way, &frame, form),
        _ => false,
    }
}

#[test]
fn rows_both_ways(rt: HostRuntime) {
    let mut table: &[u8] = ROWS;
    for row in 0..ROWS.len() {
        let Some((line, rest)) = part(table) else {
            break;
        };
        check_row(&rt, is_written_as(rt.alloc(), line, line), row);
        table = rest;
    }
    assert!(rt; table.is_empty());
}
