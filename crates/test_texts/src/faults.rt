//! The texts of the faults of lines.

use crate::rows::check_row;
use std::alloc::Global;
use zw_words::LineFault;

const NAMES: &[(LineFault, &str)] = &[
    (LineFault::Unknown, "unknown"),
    (LineFault::Missing, "missing"),
    (LineFault::Extra, "extra"),
    (LineFault::Number, "number"),
    (LineFault::TooLong, "toolong"),
];

fn is_named(alloc: Global, fault: LineFault, name: &str) -> bool {
    match format!(in alloc; "{fault}") {
        Ok(text) => text.as_str() == name,
        Err(_) => false,
    }
}

#[test]
fn names_of_faults(rt: HostRuntime) {
    for (row, (fault, name)) in NAMES.iter().enumerate() {
        check_row(&rt, is_named(rt.alloc(), *fault, name), row);
    }
}
