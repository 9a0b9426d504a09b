//! A nonce that is offered again, and a text that is sealed (Security 0).

ghost use Rattle.std.specs.Prelude.{◌≡◌, ◌++◌, IfOk, OnOk, OnErr, IsSome};
ghost use Rattle.host_node.specs.State.{SealsText};
ghost use Rattle.host_model.specs.Events.{Offers};
ghost use Rattle.host_model.specs.State.{node_of};
ghost use Rattle.host_model.specs.Outs.{outs};
ghost use Rattle.host_model.specs.May.{May};
ghost use Rattle.host_step.specs.Changes.{parts_after};

use crate::HostCore;
use host_model::HostOut;
use host_requests::Task;
use zw_base::{List, NoMemory, NodeId, Payload};
use zw_text::Entry;

impl HostCore {
    /// The live nonce of a node waits to be sent to it, or finds 64 tasks waiting.
    pub fn offer(&mut self, node: NodeId, out: &mut List<HostOut>) -> Result<(), NoMemory>
        requires { May self.old.state (Offers node) }
        ensures state { OnOk result (self.new ≡
            parts_after self.old (Offers node)) }
        ensures outs { OnOk result (out.new.items ≡
            out.old.items ++ outs self.old.state (Offers node)) }
        ensures err { OnErr result ((self.new ≡ self.old)
            × (out.new.items ≡ out.old.items)) }
    {
        out.reserve(1)?;
        let nonce = self.nonces.live(node).unwrap();
        if self.is_full() {
            out.put(HostOut::Note(Entry::QueueFull { node }));
            return Ok(());
        }
        self.requests.push(Task::Offer { node, nonce });
        Ok(())
    }

    /// The message that seals the pending plain text of a node under a nonce of it and `drawn`, the controller's own.
    pub fn seal_text(
        &self,
        node: NodeId,
        nonce: [u8; 8],
        drawn: [u8; 8],
    ) -> Result<Payload, NoMemory>
        requires { IsSome (node_of self.now.state node).pending }
        ensures { IfOk result (λ text.
            SealsText (node_of self.now.state node)
            self.now.state.keys drawn nonce text) }
    {
        self.nodes.of(node).seal_text(&self.keys, nonce, drawn)
    }
}
