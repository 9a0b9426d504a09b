//! Reports of sessions that end none.

ghost use Rattle.std.specs.Prelude.{◌≡◌, ◌++◌, ◌<◌, OnOk, OnErr};
ghost use Rattle.host_model.specs.Events.{Reports_old, Works};
ghost use Rattle.host_model.specs.After.{after};
ghost use Rattle.host_model.specs.Outs.{outs};
ghost use Rattle.host_model.specs.May.{May};
ghost use Rattle.host_step.specs.Changes.{parts_after};

use crate::HostCore;
use host_model::{HostOut, facts_are_kept};
use supervision::WORKING;
use zw_base::{List, NoMemory, NodeId};
use zw_text::Entry;

impl HostCore {
    /// A Supervision Report with this id is for no open session.
    pub fn old_report(&self, node: NodeId, id: u8, out: &mut List<HostOut>) -> Result<(), NoMemory>
        ensures state { self.now.state ≡
            after self.now.state (Reports_old node id) }
        ensures outs { OnOk result (out.new.items ≡ out.old.items ++
            outs self.now.state (Reports_old node id)) }
        ensures err { OnErr result (out.new.items ≡ out.old.items) }
    {
        out.push(HostOut::Note(Entry::Old { node, id }))
    }

    /// The open session of a node is at work.
    pub fn works(&mut self, node: NodeId, id: u8)
        requires six_bits { id < 64 }
        requires may { May self.old.state (Works node id) }
        ensures { self.new ≡ parts_after self.old (Works node id) }
    {
        facts_are_kept();
        let _ = self.nodes.report(node, id, WORKING);
    }
}
