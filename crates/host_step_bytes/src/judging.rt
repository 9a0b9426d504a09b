//! Bytes of the chip, item by item.

ghost use Rattle.std.specs.Prelude.{◌≡◌, ◌≢◌, ◌≤◌, length, Ok, IfOk, OnOk, OnErr};
ghost use Rattle.std.specs.Option.{option_copied};
ghost use Rattle.serial_frame.specs.declared.item.Item.TheVariants.{Good};
ghost use Rattle.serial_link.specs.declared.turn.Turn.{Turn};
ghost use Rattle.chip_functions.specs.declared.fault.BodyFault.TheVariants.{NoMemory as no_memory};
ghost use Rattle.chip_functions.specs.Response.{response_of};
ghost use Rattle.chip_functions.specs.Notice.{notice_of};
ghost use Rattle.host_requests.specs.Events.{interviewed_by};
ghost use Rattle.host_requests.specs.Events.RequestsEvent.{Fails as request_fails, IsSent as request_is_sent};
ghost use Rattle.host_model.specs.After.{is_busy, gives_up};
ghost use Rattle.host_model.specs.Taking.{Fed, FedPrefix, IsJudged, IsFollowed, FrameEvents, ResponseEvents, NoticeEvents, InterviewEvents, told_if};
ghost use Rattle.host_step_bytes.specs.Updates.{Lists, HasShortPayload};
ghost use Rattle.host_step_bytes.specs.Calls.{seen, Are, Does, Stops, DoesAlone, TakesOne};

use crate::messages::take_payload;
use chip_functions::{BodyFault, Notice, Update, read_notice, read_response};
use host_keep::Keeper;
use host_model::HostOut;
use host_step_kept::HostCore;
use serial_frame::{Frame, Item, Kind, Unit};
use std::alloc::Global;
use zw_base::{Bytes, Draw, List, NoMemory, NodeId};

/// Bit 7 of a capability byte says that the node listens (GetNodeProtocolInfo): it is set from this value on.
const LISTENS: u8 = 0x80;

/// Takes bytes of the chip, in any pieces: each item that ends in them is judged, in order, and what it asks of the host is done. What
/// is left of them waits for the next piece. It answers `Err` where there was no memory: a prefix of the bytes was judged then, and of the
/// next item some of its events happened.
pub fn feed<D: Draw, P: Keeper>(
    core: &mut HostCore,
    piece: &[u8],
    draw: &mut D,
    out: &mut List<HostOut>,
    keeper: &mut P,
) -> Result<(), NoMemory>
    ensures ok { OnOk result
        (Fed core.old piece.now core.new out.old.items out.new.items
        (P.shelf keeper.old) (P.shelf keeper.new)) }
    ensures err { OnErr result
        (FedPrefix core.old piece.now core.new out.old.items out.new.items
        (P.shelf keeper.old) (P.shelf keeper.new)) }
    ensures never_fewer { P.number keeper.old ≤ P.number keeper.new }
    ensures reads { P.reads keeper.new ≡ P.reads keeper.old }
{
    let mut left = piece;
    while let Some(rest) = take_item(core, left, draw, out, keeper)? {
        left = rest;
    }
    Ok(())
}

// Takes the bytes up to the end of the first item, and answers with what is left; or takes all of them.
fn take_item<'a, D: Draw, P: Keeper>(
    core: &mut HostCore,
    piece: &'a [u8],
    draw: &mut D,
    out: &mut List<HostOut>,
    keeper: &mut P,
) -> Result<Option<&'a [u8]>, NoMemory>
    ensures takes { IfOk result (λ left.
        TakesOne core.old piece.now core.new
        (seen P.shelf core.old out.old keeper.old)
        (seen P.shelf core.new out.new keeper.new) (option_copied left)) }
    ensures err { OnErr result
        (FedPrefix core.old piece.now core.new out.old.items out.new.items
        (P.shelf keeper.old) (P.shelf keeper.new)) }
    ensures never_fewer { P.number keeper.old ≤ P.number keeper.new }
    ensures reads { P.reads keeper.new ≡ P.reads keeper.old }
{
    let _ = core.decoder();
    let (found, left) = core.next_item(piece)?;
    let Some(item) = found else {
        return Ok(None);
    };
    judge(core, &item, draw, out, keeper)?;
    Ok(Some(left))
}

// An item is judged: it is answered, and then the host does what it asks.
fn judge<D: Draw, P: Keeper>(
    core: &mut HostCore,
    item: &Item,
    draw: &mut D,
    out: &mut List<HostOut>,
    keeper: &mut P,
) -> Result<(), NoMemory>
    ensures ok { OnOk result (Does (IsJudged core.old.state item.now)
        (seen P.shelf core.old out.old keeper.old)
        (seen P.shelf core.new out.new keeper.new)) }
    ensures decoder { core.new.decoder ≡ core.old.decoder }
    ensures err { OnErr result (Stops
        (seen P.shelf core.old out.old keeper.old)
        (seen P.shelf core.new out.new keeper.new)) }
    ensures never_fewer { P.number keeper.old ≤ P.number keeper.new }
    ensures reads { P.reads keeper.new ≡ P.reads keeper.old }
{
    let was_busy = core.is_busy();
    core.hear(item, out)?;
    follow(core, was_busy, item, draw, out, keeper)?;
    Ok(())
}

// What follows an item that was answered. `was_busy` says that a frame of the host's own was out before.
fn follow<D: Draw, P: Keeper>(
    core: &mut HostCore,
    was_busy: bool,
    item: &Item,
    draw: &mut D,
    out: &mut List<HostOut>,
    keeper: &mut P,
) -> Result<(), NoMemory>
    ensures ok { OnOk result ((turn : Turn) → was_busy ≡ is_busy turn →
        Does (IsFollowed core.old.state turn item.now)
        (seen P.shelf core.old out.old keeper.old)
        (seen P.shelf core.new out.new keeper.new)) }
    ensures decoder { core.new.decoder ≡ core.old.decoder }
    ensures err { OnErr result (Stops
        (seen P.shelf core.old out.old keeper.old)
        (seen P.shelf core.new out.new keeper.new)) }
    ensures never_fewer { P.number keeper.old ≤ P.number keeper.new }
    ensures reads { P.reads keeper.new ≡ P.reads keeper.old }
{
    match item {
        Item::Good(unit) => {
            follow_unit(core, was_busy, unit, draw, out, keeper)?;
            Ok(())
        }
        Item::Refused(_) => Ok(()),
    }
}

// What follows a good unit.
fn follow_unit<D: Draw, P: Keeper>(
    core: &mut HostCore,
    was_busy: bool,
    unit: &Unit,
    draw: &mut D,
    out: &mut List<HostOut>,
    keeper: &mut P,
) -> Result<(), NoMemory>
    ensures ok { OnOk result ((turn : Turn) → was_busy ≡ is_busy turn →
        Does (IsFollowed core.old.state turn (Good unit.now))
        (seen P.shelf core.old out.old keeper.old)
        (seen P.shelf core.new out.new keeper.new)) }
    ensures decoder { core.new.decoder ≡ core.old.decoder }
    ensures err { OnErr result (Stops
        (seen P.shelf core.old out.old keeper.old)
        (seen P.shelf core.new out.new keeper.new)) }
    ensures never_fewer { P.number keeper.old ≤ P.number keeper.new }
    ensures reads { P.reads keeper.new ≡ P.reads keeper.old }
{
    match unit {
        Unit::Ack => {
            acknowledged(core, was_busy, out)?;
            Ok(())
        }
        Unit::Nak => {
            refused(core, was_busy, out)?;
            Ok(())
        }
        Unit::Can => {
            refused(core, was_busy, out)?;
            Ok(())
        }
        Unit::Framed(frame) => {
            take_frame(core, frame, draw, out, keeper)?;
            Ok(())
        }
    }
}

// A frame of the host's own was acknowledged, if one was out.
fn acknowledged(
    core: &mut HostCore,
    was_busy: bool,
    out: &mut List<HostOut>,
) -> Result<(), NoMemory>
    ensures ok { OnOk result
        (DoesAlone (Are (told_if was_busy request_is_sent))
        core.old.state out.old.items core.new.state out.new.items) }
    ensures decoder { core.new.decoder ≡ core.old.decoder }
    ensures err { OnErr result ((core.new ≡ core.old)
        × (out.new.items ≡ out.old.items)) }
{
    if !was_busy {
        return Ok(());
    }
    core.sent(out)?;
    Ok(())
}

// Its last copy may have been refused.
fn refused(core: &mut HostCore, was_busy: bool, out: &mut List<HostOut>) -> Result<(), NoMemory>
    ensures ok { OnOk result ((turn : Turn) → was_busy ≡ is_busy turn →
        DoesAlone (Are (told_if (gives_up turn core.old.state.side.turn)
        request_fails))
        core.old.state out.old.items core.new.state out.new.items) }
    ensures decoder { core.new.decoder ≡ core.old.decoder }
    ensures err { OnErr result ((core.new ≡ core.old)
        × (out.new.items ≡ out.old.items)) }
{
    if !was_busy || core.is_busy() {
        return Ok(());
    }
    core.failed(out)?;
    Ok(())
}

// A good frame of the chip.
fn take_frame<D: Draw, P: Keeper>(
    core: &mut HostCore,
    frame: &Frame,
    draw: &mut D,
    out: &mut List<HostOut>,
    keeper: &mut P,
) -> Result<(), NoMemory>
    ensures ok { OnOk result
        (Does (FrameEvents core.old.state
        frame.now.kind frame.now.func frame.now.body)
        (seen P.shelf core.old out.old keeper.old)
        (seen P.shelf core.new out.new keeper.new)) }
    ensures decoder { core.new.decoder ≡ core.old.decoder }
    ensures err { OnErr result (Stops
        (seen P.shelf core.old out.old keeper.old)
        (seen P.shelf core.new out.new keeper.new)) }
    ensures never_fewer { P.number keeper.old ≤ P.number keeper.new }
    ensures reads { P.reads keeper.new ≡ P.reads keeper.old }
{
    let body = frame.body.as_slice();
    take_body(core, frame.kind, frame.func, body, draw, out, keeper)?;
    Ok(())
}

// The body of a good frame.
fn take_body<D: Draw, P: Keeper>(
    core: &mut HostCore,
    kind: Kind,
    func: u8,
    body: &[u8],
    draw: &mut D,
    out: &mut List<HostOut>,
    keeper: &mut P,
) -> Result<(), NoMemory>
    requires { length body.now ≤ 65534 }
    ensures ok { OnOk result
        (Does (FrameEvents core.old.state kind func body.now)
        (seen P.shelf core.old out.old keeper.old)
        (seen P.shelf core.new out.new keeper.new)) }
    ensures decoder { core.new.decoder ≡ core.old.decoder }
    ensures err { OnErr result (Stops
        (seen P.shelf core.old out.old keeper.old)
        (seen P.shelf core.new out.new keeper.new)) }
    ensures never_fewer { P.number keeper.old ≤ P.number keeper.new }
    ensures reads { P.reads keeper.new ≡ P.reads keeper.old }
{
    match kind {
        Kind::Response => {
            take_response(core, func, body, out)?;
            Ok(())
        }
        Kind::Request => {
            take_notice(core, func, body, draw, out, keeper)?;
            Ok(())
        }
    }
}

// A response, of which the request under way hears. One that cannot be read tells nothing.
fn take_response(
    core: &mut HostCore,
    func: u8,
    body: &[u8],
    out: &mut List<HostOut>,
) -> Result<(), NoMemory>
    ensures ok { OnOk result
        (DoesAlone (ResponseEvents (response_of func body.now))
        core.old.state out.old.items core.new.state out.new.items) }
    ensures decoder { core.new.decoder ≡ core.old.decoder }
    ensures err { OnErr result ((core.new ≡ core.old)
        × (out.new.items ≡ out.old.items)) }
{
    match read_response(core.alloc(), func, body) {
        Ok(response) => {
            core.responded(response, out)?;
            Ok(())
        }
        Err(fault) => unread(fault),
    }
}

// A body that cannot be read tells nothing, unless there was no memory.
fn unread(fault: BodyFault) -> Result<(), NoMemory>
    ensures ok { OnOk result (fault ≢ no_memory) }
    ensures err { OnErr result (fault ≡ no_memory) }
{
    match fault {
        BodyFault::NoMemory => Err(NoMemory),
        _ => Ok(()),
    }
}

// A notice of the chip. One that cannot be read tells nothing.
fn take_notice<D: Draw, P: Keeper>(
    core: &mut HostCore,
    func: u8,
    body: &[u8],
    draw: &mut D,
    out: &mut List<HostOut>,
    keeper: &mut P,
) -> Result<(), NoMemory>
    requires { length body.now ≤ 65534 }
    ensures ok { OnOk result
        (Does (NoticeEvents core.old.state (notice_of func body.now))
        (seen P.shelf core.old out.old keeper.old)
        (seen P.shelf core.new out.new keeper.new)) }
    ensures decoder { core.new.decoder ≡ core.old.decoder }
    ensures err { OnErr result (Stops
        (seen P.shelf core.old out.old keeper.old)
        (seen P.shelf core.new out.new keeper.new)) }
    ensures never_fewer { P.number keeper.old ≤ P.number keeper.new }
    ensures reads { P.reads keeper.new ≡ P.reads keeper.old }
{
    match read_notice(core.alloc(), func, body) {
        Ok(notice) => {
            take_read(core, notice, draw, out, keeper)?;
            Ok(())
        }
        Err(fault) => unread(fault),
    }
}

// A notice that was read.
fn take_read<D: Draw, P: Keeper>(
    core: &mut HostCore,
    notice: Notice,
    draw: &mut D,
    out: &mut List<HostOut>,
    keeper: &mut P,
) -> Result<(), NoMemory>
    requires { HasShortPayload notice }
    ensures ok { OnOk result (Does (NoticeEvents core.old.state (Ok notice))
        (seen P.shelf core.old out.old keeper.old)
        (seen P.shelf core.new out.new keeper.new)) }
    ensures decoder { core.new.decoder ≡ core.old.decoder }
    ensures err { OnErr result (Stops
        (seen P.shelf core.old out.old keeper.old)
        (seen P.shelf core.new out.new keeper.new)) }
    ensures never_fewer { P.number keeper.old ≤ P.number keeper.new }
    ensures reads { P.reads keeper.new ≡ P.reads keeper.old }
{
    match notice {
        Notice::ApplicationCommandHandler {
            source,
            payload,
            ..
        } => {
            take_payload(core, source, payload.as_slice(), draw, out, keeper)?;
            Ok(())
        }
        Notice::SendData {
            callback_id,
            status,
        } => {
            core.called_back(callback_id, status, out)?;
            Ok(())
        }
        Notice::ApplicationUpdate { update } => {
            take_update(core, update, out, keeper)?;
            Ok(())
        }
        Notice::AddNode { .. } => Ok(()),
    }
}

// An ApplicationUpdate, with which an interview may end well.
fn take_update<P: Keeper>(
    core: &mut HostCore,
    update: Update,
    out: &mut List<HostOut>,
    keeper: &mut P,
) -> Result<(), NoMemory>
    ensures ok { OnOk result
        (Does (InterviewEvents update
        (interviewed_by core.old.state.requests update))
        (seen P.shelf core.old out.old keeper.old)
        (seen P.shelf core.new out.new keeper.new)) }
    ensures decoder { core.new.decoder ≡ core.old.decoder }
    ensures err { OnErr result (Stops
        (seen P.shelf core.old out.old keeper.old)
        (seen P.shelf core.new out.new keeper.new)) }
    ensures never_fewer { P.number keeper.old ≤ P.number keeper.new }
    ensures reads { P.reads keeper.new ≡ P.reads keeper.old }
{
    let Some(capability) = core.requests().interviewed_by(&update) else {
        core.updated(update, out)?;
        return Ok(());
    };
    let Some(found) = listed(core.alloc(), &update)? else {
        return Ok(());
    };
    let listens = capability >= LISTENS;
    let _ = host_step_kept::interviewed(core, found.0, listens, found.1, update, out, keeper)?;
    Ok(())
}

// The node of an ApplicationUpdate, and a copy of the classes that it lists. None where no information came.
fn listed(alloc: Global, update: &Update) -> Result<Option<(NodeId, Bytes)>, NoMemory>
    ensures { IfOk result (λ found. Lists update.now found) }
{
    match update {
        Update::Received { node, classes, .. } => {
            let copy = Bytes::from_slice(alloc, classes.as_slice())?;
            Ok(Some((*node, copy)))
        }
        Update::RequestFailed => Ok(None),
    }
}
