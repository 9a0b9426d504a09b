//! The units on the serial line when a node is added.

ghost use Rattle.std.specs.Prelude.{◌≡◌, ◌≤◌, IfOk, length};
ghost use Rattle.chip_functions.specs.AddNode.{added_spelling as added_text};
ghost use Rattle.include_world.specs.Units.{chip_unit, closing_units, found_units, host_unit, lock, opening_units, units_of};

use chip_functions::{AddMode, AddStatus, AddedNode, Notice, Request, write_notice, write_request};
use include_text::{IncludeEntry, Side};
use serial_frame::{Unit, encode};
use std::alloc::Global;
use zw_base::{Bytes, NoMemory, NodeId};

/// The callback id of the adding.
const CALLBACK: u8 = 1;

/// The device classes of a lock: basic, generic and specific.
const BASIC: u8 = 0x04;

/// The command classes of a lock: Door Lock, Security 0, Supervision.
const CLASSES: [u8; 3] = [0x62, 0x98, 0x6C];

/// Two units, in their order.
#[derive(Drop)]
pub(crate) struct TwoUnits {
    pub(crate) first: IncludeEntry,
    pub(crate) second: IncludeEntry,
}

/// The units of an adding, in their order. No function that makes them owns more than two values that may be dropped.
#[derive(Drop)]
pub(crate) struct AddUnits {
    pub(crate) opening: TwoUnits,
    pub(crate) found: TwoUnits,
    pub(crate) closing: TwoUnits,
}

/// What the host writes to begin or to end the adding.
fn host_unit(alloc: Global, mode: AddMode) -> Result<IncludeEntry, NoMemory>
    ensures { IfOk result (λ entry. entry ≡ host_unit mode) }
{
    let request = Request::AddNode {
        mode,
        callback_id: CALLBACK,
    };
    let unit = Unit::Framed(write_request(alloc, &request)?);
    Ok(IncludeEntry::Written {
        side: Side::Host,
        unit: encode(alloc, &unit)?,
    })
}

/// What the chip tells of the adding.
fn chip_unit(alloc: Global, status: AddStatus, added: AddedNode) -> Result<IncludeEntry, NoMemory>
    requires { length (added_text added) ≤ 100 }
    ensures { IfOk result (λ entry. entry ≡ chip_unit status added) }
{
    let notice = Notice::AddNode {
        callback_id: CALLBACK,
        status,
        added,
    };
    let unit = Unit::Framed(write_notice(alloc, &notice)?);
    Ok(IncludeEntry::Written {
        side: Side::Chip,
        unit: encode(alloc, &unit)?,
    })
}

/// The device that is added: a lock.
fn lock(alloc: Global, node: NodeId) -> Result<AddedNode, NoMemory>
    ensures { IfOk result (λ added. added ≡ lock node) }
{
    Ok(AddedNode::Described {
        node,
        basic: BASIC,
        generic: 0,
        specific: 0,
        classes: Bytes::from_slice(alloc, &CLASSES)?,
    })
}

/// The host asks for a node, and the chip is ready.
fn opening_units(alloc: Global) -> Result<TwoUnits, NoMemory>
    ensures { IfOk result (λ units. units ≡ opening_units) }
{
    Ok(TwoUnits {
        first: host_unit(alloc, AddMode::Any)?,
        second: chip_unit(alloc, AddStatus::LearnReady, AddedNode::Unnamed)?,
    })
}

/// The chip tells of the device, and that it is done with the radio.
fn found_units(alloc: Global, node: NodeId) -> Result<TwoUnits, NoMemory>
    ensures { IfOk result (λ units. units ≡ found_units node) }
{
    Ok(TwoUnits {
        first: chip_unit(alloc, AddStatus::AddingSlave, lock(alloc, node)?)?,
        second: chip_unit(alloc, AddStatus::ProtocolDone, AddedNode::Named { node })?,
    })
}

/// The host ends the adding, and the chip is done.
fn closing_units(alloc: Global, node: NodeId) -> Result<TwoUnits, NoMemory>
    ensures { IfOk result (λ units. units ≡ closing_units node) }
{
    Ok(TwoUnits {
        first: host_unit(alloc, AddMode::Stop)?,
        second: chip_unit(alloc, AddStatus::Done, AddedNode::Named { node })?,
    })
}

/// The units of the adding of a node.
pub(crate) fn units_of(alloc: Global, node: NodeId) -> Result<AddUnits, NoMemory>
    ensures { IfOk result (λ units. units ≡ units_of node) }
{
    Ok(AddUnits {
        opening: opening_units(alloc)?,
        found: found_units(alloc, node)?,
        closing: closing_units(alloc, node)?,
    })
}
