//! Notices, as the host reads them.

ghost use Rattle.std.specs.Prelude.{◌≡◌, ◌≤◌, IfOk, IfErr};
ghost use Rattle.chip_functions.specs.Place.{Gives, IsBodyFault};
ghost use Rattle.chip_functions.specs.Seen.{place_of};
ghost use Rattle.chip_functions.specs.Notice.{
  handler_at,
  callback_at,
  add_notice_at,
  received_at,
  request_failed_at,
  update,
  update_at,
  IsNoticeBody,
  notice_at,
  notice_of,
};
ghost use Rattle.chip_functions.specs.AddNode.{added, unnamed_at, named_at};
ghost use Rattle.chip_functions.specs.Classes.{classes_after};
ghost use Rattle.chip_functions.specs.declared.notice.Notice.{Notice};

use crate::function::{ADD_NODE, APPLICATION_COMMAND_HANDLER, APPLICATION_UPDATE, SEND_DATA};
use crate::notice::{DEVICE_CLASSES, UPDATE_FAILED, UPDATE_RECEIVED};
use crate::place::Place;
use crate::{AddedNode, BodyFault, Notice, Update};
use std::alloc::Global;
use zw_base::{Bytes, NodeId, read_node};

#[tactic(auto, unfolding(crate::specs::Notice::handler_at))]
fn handler(alloc: Global, place: &mut Place) -> Result<Notice, BodyFault>
    requires { place.old.before ≡ 0 }
    ensures { Gives (λ x. (x, place_of place.new)) result (handler_at (place_of place.old)) }
{
    Ok(Notice::ApplicationCommandHandler {
        rx_status: place.byte()?,
        source: place.node()?,
        payload: place.counted(alloc)?,
    })
}

#[tactic(auto, unfolding(crate::specs::Notice::callback_at))]
fn callback(place: &mut Place) -> Result<Notice, BodyFault>
    requires { place.old.before ≡ 0 }
    ensures { Gives (λ x. (x, place_of place.new)) result (callback_at (place_of place.old)) }
{
    Ok(Notice::SendData {
        callback_id: place.byte()?,
        status: place.status()?,
    })
}

/// The information of a node, so many bytes in all. Their number stands at the place before.
fn device_classes(
    alloc: Global,
    before: u16,
    len: u8,
    place: &mut Place,
) -> Result<(u8, u8, u8, Bytes), BodyFault>
    requires { place.old.before ≤ 5 }
    ensures { Gives (λ x. ((x.0, (x.1, (x.2, x.3))), place_of place.new)) result (classes_after before len (place_of place.old)) }
{
    if len < DEVICE_CLASSES {
        return Err(BodyFault::BadField(before));
    }
    let basic = place.byte()?;
    let generic = place.byte()?;
    let specific = place.byte()?;
    let classes = Bytes::from_slice(alloc, place.piece(len - DEVICE_CLASSES)?)?;
    Ok((basic, generic, specific, classes))
}

#[tactic(auto, unfolding(crate::specs::Notice::received_at))]
fn received(alloc: Global, place: &mut Place) -> Result<Update, BodyFault>
    requires { place.old.before ≤ 1 }
    ensures { Gives (λ x. (x, place_of place.new)) result (received_at (place_of place.old)) }
{
    let node = place.node()?;
    let before = place.before;
    let len = place.byte()?;
    let (basic, generic, specific, classes) = device_classes(alloc, before, len, place)?;
    Ok(Update::Received {
        node,
        basic,
        generic,
        specific,
        classes,
    })
}

/// After the length 0 nothing follows.
#[tactic(auto, unfolding(crate::specs::AddNode::unnamed_at))]
fn unnamed(place: &mut Place) -> Result<AddedNode, BodyFault>
    requires { place.old.before ≤ 4 }
    ensures { Gives (λ x. (x, place_of place.new)) result (unnamed_at (place_of place.old)) }
{
    place.mark(0)?;
    Ok(AddedNode::Unnamed)
}

#[tactic(auto, unfolding(crate::specs::AddNode::named_at))]
fn named(alloc: Global, node: NodeId, place: &mut Place) -> Result<AddedNode, BodyFault>
    requires { place.old.before ≤ 4 }
    ensures { Gives (λ x. (x, place_of place.new)) result (named_at node (place_of place.old)) }
{
    let before = place.before;
    let len = place.byte()?;
    if len == 0 {
        return Ok(AddedNode::Named { node });
    }
    let (basic, generic, specific, classes) = device_classes(alloc, before, len, place)?;
    Ok(AddedNode::Described {
        node,
        basic,
        generic,
        specific,
        classes,
    })
}

fn added(alloc: Global, place: &mut Place) -> Result<AddedNode, BodyFault>
    requires { place.old.before ≤ 3 }
    ensures { Gives (λ x. (x, place_of place.new)) result (added.read (place_of place.old)) }
{
    let before = place.before;
    let number = place.byte()?;
    if number == 0 {
        return unnamed(place);
    }
    match read_node(number) {
        Some(node) => named(alloc, node, place),
        None => Err(BodyFault::BadField(before)),
    }
}

#[tactic(auto, unfolding(crate::specs::Notice::add_notice_at))]
fn add_notice(alloc: Global, place: &mut Place) -> Result<Notice, BodyFault>
    requires { place.old.before ≡ 0 }
    ensures { Gives (λ x. (x, place_of place.new)) result (add_notice_at (place_of place.old)) }
{
    Ok(Notice::AddNode {
        callback_id: place.byte()?,
        status: place.add_status()?,
        added: added(alloc, place)?,
    })
}

#[tactic(auto, unfolding(crate::specs::Notice::request_failed_at))]
fn request_failed(place: &mut Place) -> Result<Update, BodyFault>
    requires { place.old.before ≤ 1 }
    ensures { Gives (λ x. (x, place_of place.new)) result (request_failed_at (place_of place.old)) }
{
    place.mark(0)?;
    place.mark(0)?;
    Ok(Update::RequestFailed)
}

fn update(alloc: Global, place: &mut Place) -> Result<Update, BodyFault>
    requires { place.old.before ≡ 0 }
    ensures { Gives (λ x. (x, place_of place.new)) result (update.read (place_of place.old)) }
{
    match place.byte()? {
        UPDATE_RECEIVED => received(alloc, place),
        UPDATE_FAILED => request_failed(place),
        _ => Err(BodyFault::BadField(0)),
    }
}

#[tactic(auto, unfolding(crate::specs::Notice::notice_at, crate::specs::Notice::update_at))]
fn notice(alloc: Global, func: u8, place: &mut Place) -> Result<Notice, BodyFault>
    requires { place.old.before ≡ 0 }
    ensures { Gives (λ x. (x, place_of place.new)) result (notice_at func (place_of place.old)) }
{
    match func {
        APPLICATION_COMMAND_HANDLER => handler(alloc, place),
        SEND_DATA => callback(place),
        ADD_NODE => add_notice(alloc, place),
        APPLICATION_UPDATE => Ok(Notice::ApplicationUpdate {
            update: update(alloc, place)?,
        }),
        _ => Err(BodyFault::UnknownFunction(func)),
    }
}

/// The prefix of the body of a function, read from left to right.
#[tactic(auto, unfolding(crate::specs::Notice::notice_of))]
fn first_notice(alloc: Global, func: u8, body: &[u8]) -> Result<Notice, BodyFault>
    ensures { Gives (λ notice. notice) result (notice_of func body.now) }
{
    let mut place = Place {
        before: 0,
        rest: body,
    };
    notice(alloc, func, &mut place)
}

/// The notice that the body of a function begins with.
pub fn read_notice(alloc: Global, func: u8, body: &[u8]) -> Result<Notice, BodyFault>
    // What is read is spelled so.
    ensures found { IfOk result (λ notice. IsNoticeBody func body.now notice) }
    // What is spelled so is read, unless there is no memory.
    ensures only { (notice : Notice) → IsNoticeBody func body.now notice → Gives (λ found. found) result (Ok notice) }
    // Which value it is, or which fault.
    ensures exact { Gives (λ notice. notice) result (notice_of func body.now) }
    // A fault names the function, tells how many bytes there are and that more are needed, or names one of them.
    ensures fault { IfErr result (λ fault. IsBodyFault func body.now fault) }
{
    first_notice(alloc, func, body)
}
