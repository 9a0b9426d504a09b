//! What the end of a request is to the host, and the end of an attempt. The room for what it enters was made before.

ghost use Rattle.std.specs.Prelude.{◌≡◌, ◌++◌, ◌≤◌, IfOk};
ghost use Rattle.host_model.specs.State.{HostState};
ghost use Rattle.host_model.specs.Sessions.{open_command};
ghost use Rattle.host_model.specs.Ends.{
  after_end_if,
  end_entries_if,
  after_part,
  part_end,
  part_entries,
  after_task,
  task_entries,
  attempt_ended,
  attempt_entries,
  without_report,
  without_report_entries,
  done_of,
};
ghost use Rattle.host_model.specs.Outs.{noted};
ghost use Rattle.host_parts.specs.Ending.{Lists, ListsEnd, ListsHow};
ghost use Rattle.host_parts.specs.Parts.{part_as};
ghost use Rattle.host_parts.specs.Within.{with_commands};

use crate::Command;
use crate::command::set_outcome;
use chip_functions::{Response, TransmitStatus};
use host_model::HostOut;
use host_node::{AttemptEnd, Moment, Node, Nodes};
use host_requests::{End, How, Purpose, Task};
use std::alloc::Global;
use zw_base::{List, NoMemory, NodeId, Sequence};
use zw_text::{Done, Ended, Entry, Outcome};

/// The most entries that the end of a request makes.
pub(crate) const MOST_ENTRIES: usize = 2;

/// The nodes of an answer that lists some.
pub(crate) fn nodes_in(alloc: Global, response: &Response) -> Result<Sequence<NodeId>, NoMemory>
    ensures { IfOk result (λ list. Lists response.now list) }
{
    match response {
        Response::GetRoutingInfo { nodes } => {
            let list = nodes.nodes(alloc)?;
            Sequence::from_slice(alloc, list.as_slice())
        }
        _ => Ok(Sequence::new(alloc)),
    }
}

/// The command of the open session of a node.
pub(crate) fn open_command(node: &Node) -> Option<u32>
    ensures { result ≡ open_command node.now }
{
    match node.current() {
        Some(session) => node.command_of(session),
        None => None,
    }
}

/// A request ended, where one did. An answer that lists nodes has them in `list`.
pub(crate) fn end_request(
    nodes: &mut Nodes,
    commands: &mut Vec<Command>,
    end: Option<End>,
    list: Sequence<NodeId>,
    moment: Moment,
    out: &mut List<HostOut>,
)
    requires listed { ListsEnd end list }
    requires room { 2 ≤ out.old.room }
    ensures state { (h : HostState) →
        with_commands h nodes.new commands.new.items ≡
        after_end_if (with_commands h nodes.old commands.old.items) end moment }
    ensures outs { (h : HostState) →
        out.new.items ≡ out.old.items ++
        noted (end_entries_if (with_commands h
        nodes.old commands.old.items) end) }
{
    let Some(end) = end else {
        return;
    };
    let End { purpose, how } = end;
    match purpose {
        Purpose::Attempt { node, more, .. } => {
            end_part(nodes, commands, node, more, &how, moment, out);
        }
        Purpose::Housekeeping(task) => end_task(nodes, task, &how, list, out),
        Purpose::Abort => {}
    }
}

// A part of an attempt ended.
fn end_part(
    nodes: &mut Nodes,
    commands: &mut Vec<Command>,
    node: NodeId,
    more: bool,
    how: &How,
    moment: Moment,
    out: &mut List<HostOut>,
)
    requires { 2 ≤ out.old.room }
    ensures state { (h : HostState) →
        with_commands h nodes.new commands.new.items ≡
        after_part (with_commands h nodes.old commands.old.items) node
        (part_end more how.now) moment }
    ensures outs { (h : HostState) →
        out.new.items ≡ out.old.items ++
        noted (part_entries (with_commands h nodes.old commands.old.items) node
        (part_end more how.now)) }
{
    match part_end(how, more) {
        Part::Good => nodes.succeeded(node),
        Part::PassedOver => {}
        Part::Bad => end_running(nodes, commands, node, moment, out),
    }
}

/// What the end of a part of an attempt is: a good callback begins its wait, a segment that is not the last may fail.
#[derive(Drop)]
enum Part {
    Good,
    PassedOver,
    Bad,
}

fn part_end(how: &How, more: bool) -> Part
    ensures { part_as result ≡ part_end more how.now }
{
    match how {
        How::AtCallback(TransmitStatus::CompleteOk) => Part::Good,
        How::AtCallback(TransmitStatus::NoAck) => {
            if more { Part::PassedOver } else { Part::Bad }
        }
        How::AtCallback(TransmitStatus::Fail)
        | How::AtCallback(TransmitStatus::NotIdle)
        | How::AtCallback(TransmitStatus::NoRoute)
        | How::AtResponse(_)
        | How::AtUpdate { .. }
        | How::Refused
        | How::Silent
        | How::LinkFailed
        | How::AbortSent => Part::Bad,
    }
}

// The running attempt of a node ends without a report.
fn end_running(
    nodes: &mut Nodes,
    commands: &mut Vec<Command>,
    node: NodeId,
    moment: Moment,
    out: &mut List<HostOut>,
)
    requires { 2 ≤ out.old.room }
    ensures state { (h : HostState) →
        with_commands h nodes.new commands.new.items ≡
        without_report (with_commands h nodes.old commands.old.items)
        node moment }
    ensures outs { (h : HostState) →
        out.new.items ≡ out.old.items ++
        noted (without_report_entries (with_commands h
        nodes.old commands.old.items) node) }
{
    let command = open_command(nodes.of(node));
    let end = nodes.end_attempt(node, moment);
    end_attempt(commands, node, end, command, out);
}

/// An attempt of a node ended, perhaps the last of its series, whose session had that command.
pub(crate) fn end_attempt(
    commands: &mut Vec<Command>,
    node: NodeId,
    end: AttemptEnd,
    command: Option<u32>,
    out: &mut List<HostOut>,
)
    requires { 2 ≤ out.old.room }
    ensures state { (h : HostState) →
        record h { commands = commands.new.items } ≡
        attempt_ended (record h { commands = commands.old.items }) end command }
    ensures outs { out.new.items ≡ out.old.items ++
        noted (attempt_entries node end command) }
{
    let AttemptEnd::Unanswered(falls_asleep) = end else {
        return;
    };
    if let Some(command) = command {
        set_outcome(commands, command, Outcome::Unanswered);
        out.put(HostOut::Note(Entry::Out {
            command,
            ended: Ended::Unanswered,
        }));
    }
    if falls_asleep {
        out.put(HostOut::Note(Entry::Asleep { node }));
    }
}

// A housekeeping request ended.
fn end_task(
    nodes: &mut Nodes,
    task: Task,
    how: &How,
    list: Sequence<NodeId>,
    out: &mut List<HostOut>,
)
    requires listed { ListsHow how.now list }
    requires room { 2 ≤ out.old.room }
    ensures state { (h : HostState) →
        record h { nodes = nodes.new } ≡
        after_task (record h { nodes = nodes.old }) task }
    ensures outs { (h : HostState) → out.new.items ≡ out.old.items ++
        noted (task_entries (record h { nodes = nodes.old }) task how.now) }
{
    match task {
        Task::Plain { node, .. } => out.put(HostOut::Note(Entry::Done {
            node,
            done: done(how),
        })),
        Task::NoMore { node } => {
            if nodes.end_no_more(node) {
                out.put(HostOut::Note(Entry::Asleep { node }));
            }
        }
        Task::Second { node } => out.put(HostOut::Note(Entry::InterviewFailed { node })),
        Task::Neighbours { node } => {
            if let How::AtResponse(Response::GetRoutingInfo { .. }) = how {
                out.put(HostOut::Note(Entry::Neighbours { node, list }));
            }
        }
        Task::IsFailed { node } => {
            if let How::AtResponse(Response::IsFailedNode { failed }) = how {
                out.put(HostOut::Note(Entry::Failed {
                    node,
                    failed: *failed,
                }));
            }
        }
        Task::Offer { .. }
        | Task::Segment { .. }
        | Task::First { .. }
        | Task::Members
        | Task::Version
        | Task::MemoryId
        | Task::Capabilities => {}
    }
}

// How a request without Supervision ended.
fn done(how: &How) -> Done
    ensures { result ≡ done_of how.now }
{
    match how {
        How::AtCallback(TransmitStatus::CompleteOk) => Done::Delivered,
        How::AtCallback(TransmitStatus::NoAck) => Done::NoAck,
        How::AtCallback(TransmitStatus::Fail) => Done::Fail,
        How::AtCallback(TransmitStatus::NotIdle) => Done::NotIdle,
        How::AtCallback(TransmitStatus::NoRoute) => Done::NoRoute,
        How::AtResponse(_) | How::AtUpdate { .. } | How::Silent | How::AbortSent => Done::Silent,
        How::Refused => Done::Refused,
        How::LinkFailed => Done::LinkFailed,
    }
}
