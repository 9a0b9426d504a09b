//! What the host does of itself: it lets nodes sleep, and submits a request.

ghost use Rattle.std.specs.Prelude.{◌≡◌, ◌++◌, ◌≤◌, length, OnOk, OnErr};
ghost use Rattle.host_model.specs.Events.{Queues_no_more, Drops_no_more, Submits_abort, Submits_front, Starts, Gives_text, Gives_segment};
ghost use Rattle.host_model.specs.Outs.{outs};
ghost use Rattle.host_model.specs.May.{May};
ghost use Rattle.host_step.specs.Changes.{parts_after};

use crate::HostCore;
use host_model::{HostOut, facts_are_kept};
use host_node::the_least_is_found;
use host_parts::{Start, front_frame, put_on_line, submit_attempt};
use host_requests::Task;
use zw_base::{List, NoMemory, NodeId, Payload};
use zw_text::Entry;

impl HostCore {
    /// No More Information waits to be sent to a node.
    pub fn queue_no_more(&mut self, node: NodeId)
        requires { May self.old.state (Queues_no_more node) }
        ensures { self.new ≡ parts_after self.old (Queues_no_more node) }
    {
        the_least_is_found();
        facts_are_kept();
        self.nodes.queue_no_more(node);
        self.requests.push(Task::NoMore { node });
    }

    /// No More Information to a node finds 64 tasks waiting.
    pub fn drop_no_more(&mut self, node: NodeId, out: &mut List<HostOut>) -> Result<(), NoMemory>
        requires { May self.old.state (Drops_no_more node) }
        ensures state { OnOk result (self.new ≡
            parts_after self.old (Drops_no_more node)) }
        ensures outs { OnOk result (out.new.items ≡
            out.old.items ++ outs self.old.state (Drops_no_more node)) }
        ensures err { OnErr result ((self.new ≡ self.old)
            × (out.new.items ≡ out.old.items)) }
    {
        the_least_is_found();
        facts_are_kept();
        out.reserve(1)?;
        self.nodes.drop_no_more(node);
        out.put(HostOut::Note(Entry::QueueFull { node }));
        Ok(())
    }

    /// The abort that is owed goes to the line.
    pub fn submit_abort(&mut self, out: &mut List<HostOut>) -> Result<(), NoMemory>
        requires { May self.old.state Submits_abort }
        ensures state { OnOk result (self.new ≡
            parts_after self.old Submits_abort) }
        ensures outs { OnOk result (out.new.items ≡
            out.old.items ++ outs self.old.state Submits_abort) }
        ensures err { OnErr result ((self.new ≡ self.old)
            × (out.new.items ≡ out.old.items)) }
    {
        let frame = self.requests.abort_frame(self.alloc)?;
        put_on_line(self.alloc, &mut self.link, frame, out)?;
        self.requests.begin_abort();
        Ok(())
    }

    /// The task that waited longest goes to the line.
    pub fn submit_front(&mut self, out: &mut List<HostOut>) -> Result<(), NoMemory>
        requires { May self.old.state Submits_front }
        ensures state { OnOk result (self.new ≡
            parts_after self.old Submits_front) }
        ensures outs { OnOk result (out.new.items ≡
            out.old.items ++ outs self.old.state Submits_front) }
        ensures err { OnErr result ((self.new ≡ self.old)
            × (out.new.items ≡ out.old.items)) }
    {
        let frame = front_frame(&self.requests, self.alloc)?;
        put_on_line(self.alloc, &mut self.link, frame, out)?;
        self.requests.begin_front();
        Ok(())
    }

    /// The attempt of a node that is due starts: its first part goes to the line, and the node was served last.
    pub fn start(
        &mut self,
        node: NodeId,
        start: Start,
        out: &mut List<HostOut>,
    ) -> Result<(), NoMemory>
        requires may { May self.old.state
            (Starts node start.plan start.more start.payload) }
        requires payload { 1 ≤ length start.payload }
        ensures state { OnOk result (self.new ≡
            parts_after self.old (Starts node
            start.plan start.more start.payload)) }
        ensures outs { OnOk result (out.new.items ≡ out.old.items ++
            outs self.old.state (Starts node start.plan start.more start.payload)) }
        ensures err { OnErr result ((self.new ≡ self.old)
            × (out.new.items ≡ out.old.items)) }
    {
        facts_are_kept();
        let Start {
            plan,
            payload,
            more,
        } = start;
        submit_attempt(
            self.alloc,
            &mut self.link,
            &mut self.requests,
            node,
            more,
            payload,
            out,
        )?;
        self.served = node.number();
        self.nodes.start_attempt(node, plan);
        Ok(())
    }

    /// The running attempt of a node gives its sealed text to the line.
    pub fn give_text(
        &mut self,
        node: NodeId,
        payload: Payload,
        out: &mut List<HostOut>,
    ) -> Result<(), NoMemory>
        requires may { May self.old.state (Gives_text node payload) }
        requires payload { 1 ≤ length payload }
        ensures state { OnOk result (self.new ≡
            parts_after self.old (Gives_text node payload)) }
        ensures outs { OnOk result (out.new.items ≡ out.old.items ++
            outs self.old.state (Gives_text node payload)) }
        ensures err { OnErr result ((self.new ≡ self.old)
            × (out.new.items ≡ out.old.items)) }
    {
        facts_are_kept();
        submit_attempt(
            self.alloc,
            &mut self.link,
            &mut self.requests,
            node,
            false,
            payload,
            out,
        )?;
        self.served = node.number();
        let _ = self.nodes.give_text(node);
        Ok(())
    }

    /// The running attempt of a node gives its next segment to the line. `more` says that it is not the last.
    pub fn give_segment(
        &mut self,
        node: NodeId,
        more: bool,
        payload: Payload,
        out: &mut List<HostOut>,
    ) -> Result<(), NoMemory>
        requires may { May self.old.state (Gives_segment node more payload) }
        requires payload { 1 ≤ length payload }
        ensures state { OnOk result (self.new ≡
            parts_after self.old (Gives_segment node more payload)) }
        ensures outs { OnOk result (out.new.items ≡ out.old.items ++
            outs self.old.state (Gives_segment node more payload)) }
        ensures err { OnErr result ((self.new ≡ self.old)
            × (out.new.items ≡ out.old.items)) }
    {
        facts_are_kept();
        submit_attempt(
            self.alloc,
            &mut self.link,
            &mut self.requests,
            node,
            more,
            payload,
            out,
        )?;
        self.served = node.number();
        let _ = self.nodes.give_segment(node);
        Ok(())
    }
}
