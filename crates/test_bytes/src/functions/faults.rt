//! The texts of faults, and how many bytes a body needs.

use super::tables::CUT;
use crate::rows::check_row;
use chip_functions::{BodyFault, read_request};
use std::alloc::Global;

/// The function of a GetRoutingInfo.
const GET_ROUTING_INFO: u8 = 0x80;

const NAMES: &[(BodyFault, &str)] = &[
    (BodyFault::UnknownFunction(4), "unknownfunction"),
    (BodyFault::Short { need: 2, got: 1 }, "short"),
    (BodyFault::BadField(3), "badfield"),
    (BodyFault::NoMemory, "nomemory"),
];

fn is_named(alloc: Global, fault: BodyFault, name: &str) -> bool {
    match format!(in alloc; "{fault}") {
        Ok(text) => text.as_str() == name,
        Err(_) => false,
    }
}

#[test]
fn names_of_faults(rt: HostRuntime) {
    for (row, (fault, name)) in NAMES.iter().enumerate() {
        check_row(&rt, is_named(rt.alloc(), *fault, name), row);
    }
}

fn needs(alloc: Global, body: &[u8], need: u16) -> bool {
    match read_request(alloc, GET_ROUTING_INFO, body) {
        Err(
            BodyFault::Short {
                need: needed,
                got: _,
            },
        ) => needed == need,
        _ => false,
    }
}

#[test]
fn bytes_of_cut_bodies(rt: HostRuntime) {
    for (row, (body, need)) in CUT.iter().enumerate() {
        check_row(&rt, needs(rt.alloc(), body, *need), row);
    }
}
