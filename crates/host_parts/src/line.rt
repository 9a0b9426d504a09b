//! What goes to the line: a frame of a request, and the answer to an item of the chip.

ghost use Rattle.std.specs.Prelude.{◌≡◌, ◌≢◌, ◌++◌, ◌≤◌, ◌∷◌, [], None, false, length, IfOk, OnOk, OnErr};
ghost use Rattle.host_requests.specs.Events.{after};
ghost use Rattle.host_requests.specs.Events.RequestsEvent.{BeginsAttempt};
ghost use Rattle.host_requests.specs.Frames.{frame_of};
ghost use Rattle.host_requests.specs.State.{next_id};
ghost use Rattle.host_requests.specs.declared.task.Purpose.TheVariants.{Attempt};
ghost use Rattle.serial_frame.specs.declared.unit.Unit.TheVariants.{Framed};
ghost use Rattle.serial_link.specs.State.{IsBusy, submitted_link};
ghost use Rattle.host_model.specs.After.{is_busy as busy, task_purpose};
ghost use Rattle.host_model.specs.Outs.{answer_to};
ghost use Rattle.host_model.specs.declared.out.HostOut.TheVariants.{Write};

use host_model::HostOut;
use host_requests::Requests;
use serial_frame::{Frame, Item, Refusal, Unit};
use serial_link::Link;
use std::alloc::Global;
use zw_base::{List, NoMemory, NodeId, Payload};

/// True while the frame of the link's own is neither acknowledged nor given up.
pub fn is_busy(link: &Link) -> bool
    ensures { result ≡ busy link.now.side.turn }
{
    link.is_busy()
}

/// The frame of the task that has waited longest.
pub fn front_frame(requests: &Requests, alloc: Global) -> Result<Frame, NoMemory>
    requires { requests.now.queue ≢ [] }
    ensures { IfOk result (λ frame.
        frame ≡ frame_of (task_purpose requests.now.queue)
        (next_id requests.now.last_id)) }
{
    let found = requests.front_frame(alloc)?;
    Ok(found.unwrap())
}

/// A frame goes to the line, and its first copy is put out.
pub fn put_on_line(
    alloc: Global,
    link: &mut Link,
    frame: Frame,
    out: &mut List<HostOut>,
) -> Result<(), NoMemory>
    requires { ¬ IsBusy link.old.side.turn }
    ensures link { OnOk result (link.new ≡ submitted_link link.old frame) }
    ensures outs { OnOk result (out.new.items ≡
        out.old.items ++ Write (Framed frame) ∷ []) }
    ensures err { OnErr result ((link.new ≡ link.old)
        × (out.new.items ≡ out.old.items)) }
{
    out.reserve(1)?;
    let copy = frame.copy(alloc)?;
    link.begin(frame);
    out.put(HostOut::Write(Unit::Framed(copy)));
    Ok(())
}

/// A part of an attempt of a node goes to the line, and is the request under way. `more` says that it is not the last.
pub fn submit_attempt(
    alloc: Global,
    link: &mut Link,
    requests: &mut Requests,
    node: NodeId,
    more: bool,
    payload: Payload,
    out: &mut List<HostOut>,
) -> Result<(), NoMemory>
    requires free { ¬ IsBusy link.old.side.turn }
    requires idle { requests.old.under_way ≡ None }
    requires paid { requests.old.owes ≡ false }
    requires none_waits { requests.old.queue ≡ [] }
    requires payload { 1 ≤ length payload }
    ensures link { OnOk result (link.new ≡
        submitted_link link.old
        (frame_of (Attempt node more payload) (next_id requests.old.last_id))) }
    ensures requests { OnOk result (requests.new ≡
        after requests.old (BeginsAttempt node more payload)) }
    ensures outs { OnOk result (out.new.items ≡ out.old.items ++
        Write (Framed (frame_of (Attempt node more payload)
        (next_id requests.old.last_id))) ∷ []) }
    ensures err { OnErr result ((link.new ≡ link.old)
        × (requests.new ≡ requests.old) × (out.new.items ≡ out.old.items)) }
{
    let frame = requests.attempt_frame(alloc, node, &payload)?;
    put_on_line(alloc, link, frame, out)?;
    requests.begin_attempt(node, more, payload);
    Ok(())
}

/// The unit that answers an item.
pub fn answer(item: &Item, out: &mut List<HostOut>)
    requires { 1 ≤ out.old.room }
    ensures { out.new.items ≡ out.old.items ++ answer_to item.now }
{
    match item {
        Item::Good(Unit::Framed(_)) => out.put(HostOut::Write(Unit::Ack)),
        Item::Good(Unit::Ack) | Item::Good(Unit::Nak) | Item::Good(Unit::Can) => {}
        Item::Refused(refusal) => answer_refusal(*refusal, out),
    }
}

// A whole frame that is not good is answered NAK.
fn answer_refusal(refusal: Refusal, out: &mut List<HostOut>)
    requires { 1 ≤ out.old.room }
    ensures { out.new.items ≡ out.old.items ++
        answer_to (Item.Refused refusal) }
{
    if matches!(refusal, Refusal::BadSum { .. } | Refusal::BadKind(_)) {
        out.put(HostOut::Write(Unit::Nak));
    }
}
