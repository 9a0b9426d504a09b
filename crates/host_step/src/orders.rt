//! Requests that wait after the others.

ghost use Rattle.std.specs.Prelude.{◌≡◌, ◌+◌, ◌≤◌, ◌<◌, length};
ghost use Rattle.host_requests.specs.Frames.{StandsAlone};
ghost use Rattle.host_requests.specs.declared.requests.TheConstants.{QUEUE_CAPACITY};
ghost use Rattle.host_model.specs.Events.{Queues, Queues_interview, Queues_probe};
ghost use Rattle.host_model.specs.After.{after};
ghost use Rattle.host_step.specs.Changes.{parts_after};

use crate::HostCore;
use host_requests::Task;
use zw_base::NodeId;

impl HostCore {
    /// A task waits after the others. The two of an interview come by `queue_interview`.
    pub fn queue(&mut self, task: Task)
        requires alone { StandsAlone task }
        requires room { length self.old.state.requests.queue < QUEUE_CAPACITY }
        ensures { self.new ≡ parts_after self.old (Queues task) }
    {
        self.requests.push(task);
    }

    /// The two tasks of an interview wait after the others.
    pub fn queue_interview(&mut self, node: NodeId)
        requires { length self.old.state.requests.queue + 2 ≤ QUEUE_CAPACITY }
        ensures { self.new ≡ parts_after self.old (Queues_interview node) }
    {
        self.requests.push_interview(node);
    }

    /// The three tasks of a probe wait after the others.
    pub fn queue_probe(&mut self)
        requires { length self.old.state.requests.queue + 3 ≤ QUEUE_CAPACITY }
        ensures { self.new ≡ parts_after self.old Queues_probe }
    {
        self.requests.push_probe();
    }
}
