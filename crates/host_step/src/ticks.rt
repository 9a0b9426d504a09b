//! Ticks of 100 ms, of the line and of a node.

ghost use Rattle.std.specs.Prelude.{◌≡◌, ◌++◌, OnOk, OnErr};
ghost use Rattle.serial_frame.specs.Stream.{after_tick};
ghost use Rattle.host_model.specs.Events.{Line_ticks, Node_ticks};
ghost use Rattle.host_model.specs.After.{after};
ghost use Rattle.host_model.specs.Outs.{outs};
ghost use Rattle.host_model.specs.May.{May};
ghost use Rattle.host_step.specs.Changes.{parts_after};

use crate::HostCore;
use host_model::{HostOut, facts_are_kept};
use host_parts::{tick_line, tick_node};
use zw_base::{List, NoMemory, NodeId};

impl HostCore {
    /// The line counts a tick: an unfinished frame of the chip may be forgotten, a copy of the host's own may be written, or
    /// that frame given up, and then the request under way ends.
    pub fn tick_line(&mut self, out: &mut List<HostOut>) -> Result<(), NoMemory>
        ensures state { OnOk result (self.new ≡
            record { decoder = after_tick self.old.decoder; state = after self.old.state Line_ticks }) }
        ensures outs { OnOk result (out.new.items ≡
            out.old.items ++ outs self.old.state Line_ticks) }
        ensures err { OnErr result ((self.new ≡ self.old)
            × (out.new.items ≡ out.old.items)) }
    {
        facts_are_kept();
        tick_line(
            self.alloc,
            &mut self.link,
            &mut self.requests,
            &mut self.nodes,
            &mut self.commands,
            out,
        )
    }

    /// A node counts a tick, at which its attempt may end.
    pub fn tick_node(&mut self, node: NodeId, out: &mut List<HostOut>) -> Result<(), NoMemory>
        requires { May self.old.state (Node_ticks node) }
        ensures state { OnOk result (self.new ≡
            parts_after self.old (Node_ticks node)) }
        ensures outs { OnOk result (out.new.items ≡
            out.old.items ++ outs self.old.state (Node_ticks node)) }
        ensures err { OnErr result ((self.new ≡ self.old)
            × (out.new.items ≡ out.old.items)) }
    {
        facts_are_kept();
        tick_node(&mut self.nodes, &mut self.commands, node, out)
    }
}
