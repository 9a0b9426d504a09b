//! The texts of faults.

use crate::rows::check_row;
use class_core::ClassFault;
use std::alloc::Global;

const NAMES: &[(ClassFault, &str)] = &[
    (ClassFault::Empty, "empty"),
    (ClassFault::UnknownClass(1), "unknownclass"),
    (ClassFault::UnknownCommand(1, 2), "unknowncommand"),
    (ClassFault::Short(3), "short"),
    (ClassFault::BadValue(4), "badvalue"),
    (ClassFault::NoMemory, "nomemory"),
];

fn is_named(alloc: Global, fault: ClassFault, name: &str) -> bool {
    match format!(in alloc; "{fault}") {
        Ok(text) => text.as_str() == name,
        Err(_) => false,
    }
}

#[test]
fn names_of_faults(rt: HostRuntime) {
    for (row, (fault, name)) in NAMES.iter().enumerate() {
        check_row(&rt, is_named(rt.alloc(), *fault, name), row);
    }
}
