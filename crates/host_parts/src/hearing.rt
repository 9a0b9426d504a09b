//! What the request under way hears, and what ends with it.

ghost use Rattle.std.specs.Prelude.{◌≡◌, ◌++◌, IfOk, OnOk, OnErr};
ghost use Rattle.host_requests.specs.Events.{after as after_request, end_at};
ghost use Rattle.host_model.specs.State.{HostState};
ghost use Rattle.host_model.specs.Events.{Requests_do};
ghost use Rattle.host_model.specs.After.{after};
ghost use Rattle.host_model.specs.Outs.{outs};
ghost use Rattle.host_parts.specs.Heard.{ListsHeard, heard_as};
ghost use Rattle.host_parts.specs.Within.{with_requests};

use crate::Command;
use crate::ends::{MOST_ENTRIES, end_request, nodes_in};
use chip_functions::{Response, TransmitStatus, Update};
use host_model::HostOut;
use host_node::{Moment, Nodes};
use host_requests::{End, Requests};
use std::alloc::Global;
use zw_base::{List, NoMemory, NodeId, Sequence};

/// What the request under way hears of the link, of the chip and of the clock.
#[derive(Drop)]
pub enum Heard {
    /// Its frame was acknowledged.
    Sent,
    /// Its frame was not acknowledged in any of its copies.
    Failed,
    /// The chip sent a response.
    Responded(Response),
    /// The chip sent the callback of the SendData with this id.
    CalledBack { id: u8, status: TransmitStatus },
    /// The chip sent an ApplicationUpdate.
    Updated(Update),
    /// A tick of 100 ms passed.
    Ticked,
}

/// The request under way hears this, and what ends with it is done.
pub fn request_hears(
    alloc: Global,
    requests: &mut Requests,
    nodes: &mut Nodes,
    commands: &mut Vec<Command>,
    heard: Heard,
    moment: Moment,
    out: &mut List<HostOut>,
) -> Result<(), NoMemory>
    ensures state { (h : HostState) →
        OnOk result (with_requests h requests.new nodes.new commands.new.items ≡
        after (with_requests h requests.old nodes.old commands.old.items)
        (Requests_do (heard_as heard) moment)) }
    ensures outs { (h : HostState) →
        OnOk result (out.new.items ≡ out.old.items ++
        outs (with_requests h requests.old nodes.old commands.old.items)
        (Requests_do (heard_as heard) moment)) }
    ensures err { (h : HostState) →
        OnErr result ((with_requests h
        requests.new nodes.new commands.new.items ≡
        with_requests h requests.old nodes.old commands.old.items)
        × (out.new.items ≡ out.old.items)) }
{
    out.reserve(MOST_ENTRIES)?;
    let list = nodes_heard(alloc, &heard)?;
    let end = tell(requests, heard);
    end_request(nodes, commands, end, list, moment, out);
    Ok(())
}

// The nodes that are listed in what is heard.
fn nodes_heard(alloc: Global, heard: &Heard) -> Result<Sequence<NodeId>, NoMemory>
    ensures { IfOk result (λ list. ListsHeard heard.now list) }
{
    match heard {
        Heard::Responded(response) => nodes_in(alloc, response),
        _ => Ok(Sequence::new(alloc)),
    }
}

// The request under way is told, and may end.
fn tell(requests: &mut Requests, heard: Heard) -> Option<End>
    ensures state { requests.new ≡
        after_request requests.old (heard_as heard) }
    ensures end { result ≡ end_at requests.old (heard_as heard) }
{
    match heard {
        Heard::Sent => requests.sent(),
        Heard::Failed => requests.failed(),
        Heard::Responded(response) => requests.response(response),
        Heard::CalledBack { id, status } => requests.callback(id, status),
        Heard::Updated(update) => requests.update(update),
        Heard::Ticked => requests.tick(),
    }
}
