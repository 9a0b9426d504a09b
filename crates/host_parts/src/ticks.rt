//! Ticks of 100 ms, of the line and of a node.

ghost use Rattle.std.specs.Prelude.{◌≡◌, ◌++◌, ◌+◌, ◌≤◌, OnOk, OnErr};
ghost use Rattle.serial_frame.specs.Stream.{after_tick};
ghost use Rattle.host_model.specs.State.{HostState};
ghost use Rattle.host_model.specs.Events.{Line_ticks, Node_ticks};
ghost use Rattle.host_model.specs.After.{after};
ghost use Rattle.host_model.specs.Outs.{outs, copy_out};
ghost use Rattle.host_parts.specs.Within.{with_commands, with_line};

use crate::Command;
use crate::ends::{MOST_ENTRIES, end_attempt, end_request, open_command};
use crate::line::is_busy;
use host_model::HostOut;
use host_node::{Moment, Nodes};
use host_requests::Requests;
use serial_frame::{Frame, Unit};
use serial_link::Link;
use std::alloc::Global;
use zw_base::{List, NoMemory, NodeId, Sequence};

/// The line counts a tick: an unfinished frame of the chip may be forgotten, a copy of the host's own may be written, or
/// that frame given up, and then the request under way ends.
pub fn tick_line(
    alloc: Global,
    link: &mut Link,
    requests: &mut Requests,
    nodes: &mut Nodes,
    commands: &mut Vec<Command>,
    out: &mut List<HostOut>,
) -> Result<(), NoMemory>
    ensures decoder { OnOk result (link.new.decoder ≡
        after_tick link.old.decoder) }
    ensures state { (h : HostState) →
        OnOk result (with_line h link.new.side
        requests.new nodes.new commands.new.items ≡
        after (with_line h link.old.side requests.old
        nodes.old commands.old.items) Line_ticks) }
    ensures outs { (h : HostState) →
        OnOk result (out.new.items ≡ out.old.items ++
        outs (with_line h link.old.side requests.old
        nodes.old commands.old.items) Line_ticks) }
    ensures stays { OnErr result (link.new.decoder ≡ link.old.decoder) }
    ensures err { (h : HostState) →
        OnErr result ((with_line h link.new.side
        requests.new nodes.new commands.new.items ≡
        with_line h link.old.side requests.old nodes.old commands.old.items)
        × (out.new.items ≡ out.old.items)) }
{
    out.reserve(1 + MOST_ENTRIES)?;
    let copy = link.next_copy()?;
    let list = Sequence::new(alloc);
    let was_busy = is_busy(link);
    link.ticked();
    write_copy(copy, out);
    if !was_busy || is_busy(link) {
        return Ok(());
    }
    let end = requests.failed();
    end_request(nodes, commands, end, list, Moment::BeforeItsTick, out);
    Ok(())
}

/// A node counts a tick, at which its attempt may end.
pub fn tick_node(
    nodes: &mut Nodes,
    commands: &mut Vec<Command>,
    node: NodeId,
    out: &mut List<HostOut>,
) -> Result<(), NoMemory>
    ensures state { (h : HostState) →
        OnOk result (with_commands h nodes.new commands.new.items ≡
        after (with_commands h nodes.old commands.old.items)
        (Node_ticks node)) }
    ensures outs { (h : HostState) →
        OnOk result (out.new.items ≡ out.old.items ++
        outs (with_commands h nodes.old commands.old.items) (Node_ticks node)) }
    ensures err { (h : HostState) →
        OnErr result ((with_commands h nodes.new commands.new.items ≡
        with_commands h nodes.old commands.old.items)
        × (out.new.items ≡ out.old.items)) }
{
    out.reserve(MOST_ENTRIES)?;
    let command = open_command(nodes.of(node));
    let end = nodes.tick(node);
    end_attempt(commands, node, end, command, out);
    Ok(())
}

// The copy that a tick writes, where one is due.
fn write_copy(copy: Option<Frame>, out: &mut List<HostOut>)
    requires { 1 ≤ out.old.room }
    ensures outs { out.new.items ≡ out.old.items ++ copy_out copy }
    ensures room { out.old.room ≤ out.new.room + 1 }
{
    if let Some(frame) = copy {
        out.put(HostOut::Write(Unit::Framed(frame)));
    }
}
