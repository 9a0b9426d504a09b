//! What an event changes that has a record, once that is kept. Whoever calls these knows that the host still has its facts after it.

ghost use Rattle.std.specs.Prelude.{◌≡◌, ◌+◌, ◌^◌, ◌<◌, Some, None, Contains, IsSome, length, IfOk};
ghost use Rattle.std.specs.List.{AllByRecursion};
ghost use Rattle.supervision.specs.Host.{open_session};
ghost use Rattle.s0_session.specs.Nonces.{IsRestorable, given_of, account_of, nonce_given};
ghost use Rattle.value_store.specs.Values.{IsReserved};
ghost use Rattle.host_node.specs.Events.NodeEvent.{Joins, Interviews, Restores_seen, Takes_nonce, Blocks};
ghost use Rattle.host_requests.specs.Events.RequestsEvent.{Updates};
ghost use Rattle.host_model.specs.State.{node_of, command_at};
ghost use Rattle.host_model.specs.Sessions.{settings_with};
ghost use Rattle.host_model.specs.After.{node_does, requests_do, finishing, holding, giving, spending};
ghost use Rattle.host_model.specs.Facts.{HostFacts};
ghost use Rattle.host_model.specs.Restoring.{given_again};
ghost use Rattle.host_step.specs.Changes.{beginning, cancelling};

use crate::HostCore;
use chip_functions::Update;
use host_keep::FinalStatus;
use host_parts::{confirm, hold, outcome_of, set_outcome};
use zw_base::{Bytes, List, NoMemory, NodeId, Payload, Setting};
use zw_text::Outcome;

impl HostCore {
    /// The invariant of a host.
    pub fn invariant_holds(&self)
        ensures { HostFacts self.now.state }
    {
        let _ = &self.nodes;
    }

    /// A node joins.
    pub fn join(&mut self, node: NodeId)
        requires { HostFacts (node_does self.old.state node Joins) }
        ensures { self.new ≡ record self.old { state = node_does self.old.state node Joins } }
    {
        self.nodes.join(node);
    }

    /// An interview tells what a node is.
    pub fn learn(&mut self, node: NodeId, listens: bool, classes: Bytes)
        requires { HostFacts (node_does self.old.state node
            (Interviews listens classes)) }
        ensures { self.new ≡ record self.old { state = node_does self.old.state node (Interviews listens classes) } }
    {
        self.nodes.interviewed(node, listens, classes);
    }

    /// The request under way is told of an update.
    pub fn tell_update(&mut self, update: Update)
        ensures { self.new ≡ record self.old { state = requests_do self.old.state (Updates update) } }
    {
        let _ = self.requests.update(update);
    }

    /// A session of a node begins for this command.
    pub fn begin(&mut self, node: NodeId, command: u32)
        requires waits { 0 < length (node_of self.old.state node).waiting }
        requires closed { open_session
            (node_of self.old.state node).book ≡ None }
        requires facts { HostFacts (beginning self.old.state node command) }
        ensures { self.new ≡ record self.old { state = beginning self.old.state node command } }
    {
        let _ = self.nodes.begin(node);
        set_outcome(&mut self.commands, command, Outcome::Begun);
    }

    /// A node is passed over until its next tick.
    pub fn block(&mut self, node: NodeId)
        requires { HostFacts (node_does self.old.state node Blocks) }
        ensures { self.new ≡ record self.old { state = node_does self.old.state node Blocks } }
    {
        self.nodes.block(node);
    }

    /// What a final status of a command confirms.
    pub fn confirmed_by(&self, command: u32, status: FinalStatus) -> Result<List<Setting>, NoMemory>
        ensures { IfOk result (λ made.
            made.items ≡ settings_with status
            (command_at self.now.state.commands command)) }
    {
        match (status, self.command_at(command)) {
            (FinalStatus::Success, Some(found)) => { found.settings(self.alloc) }
            (FinalStatus::Success, None) | (FinalStatus::NoSupport, _) | (FinalStatus::Fail, _) => {
                Ok(List::new(self.alloc))
            }
        }
    }

    /// The open session of a node ends with this status, which confirms these settings; the node is held awake, where it is to be.
    pub fn finish(
        &mut self,
        node: NodeId,
        id: u8,
        command: u32,
        status: FinalStatus,
        is_held: bool,
        confirmed: &[Setting],
    )
        requires six_bits { id < 64 }
        requires confirms { confirmed.now ≡
            settings_with status (command_at self.old.state.commands command) }
        requires reserved { AllByRecursion (λ setting.
            IsReserved self.old.state.store node setting.property) confirmed.now }
        requires facts { HostFacts
            (holding (finishing self.old.state node id command status)
            node is_held) }
        ensures { self.new ≡ record self.old { state = holding (finishing self.old.state node id command status) node is_held } }
    {
        let _ = self.nodes.report(node, id, status.byte());
        set_outcome(&mut self.commands, command, outcome_of(status));
        confirm(&mut self.store, node, confirmed);
        hold(&mut self.nodes, node, is_held);
    }

    /// A command that waits for a node is cancelled.
    pub fn cancel(&mut self, node: NodeId, command: u32)
        requires waits { Contains
            (node_of self.old.state node).waiting command }
        requires facts { HostFacts (cancelling self.old.state node command) }
        ensures { self.new ≡ record self.old { state = cancelling self.old.state node command } }
    {
        let _ = self.nodes.cancel(node, command);
        set_outcome(&mut self.commands, command, Outcome::Cancelled);
    }

    /// A node is given a nonce, whose last seven bytes are those drawn.
    pub fn give(&mut self, node: NodeId, drawn: [u8; 8]) -> [u8; 8]
        requires few { given_of self.old.state.nonces node + 1 < 2 ^ 64 }
        requires facts { HostFacts (giving self.old.state node drawn) }
        ensures nonce { result ≡
            nonce_given (account_of self.old.state.nonces node) drawn }
        ensures state { self.new ≡
            record self.old { state = giving self.old.state node drawn } }
    {
        self.nonces.give(node, drawn)
    }

    /// So many nonces were given to a node, of which this is live.
    pub fn restore_nonce(&mut self, node: NodeId, given: u64, nonce: [u8; 8])
        requires restorable { IsRestorable given (Some nonce) }
        requires facts { HostFacts
            (given_again self.old.state node given nonce) }
        ensures { self.new ≡ record self.old { state = given_again self.old.state node given nonce } }
    {
        self.nonces.restore(node, given, Some(nonce));
    }

    /// The live nonce of a node is spent.
    pub fn spend(&mut self, node: NodeId)
        requires { HostFacts (spending self.old.state node) }
        ensures { self.new ≡ record self.old { state = spending self.old.state node } }
    {
        let given = self.nonces.given(node);
        self.nonces.restore(node, given, None);
    }

    /// A nonce of a node is taken, so that this many were seen, and the pending plain text is sealed to this.
    pub fn take_nonce(&mut self, node: NodeId, seen: u64, text: Payload)
        requires pending { IsSome (node_of self.old.state node).pending }
        requires facts { HostFacts
            (node_does self.old.state node (Takes_nonce seen text)) }
        ensures { self.new ≡ record self.old { state = node_does self.old.state node (Takes_nonce seen text) } }
    {
        self.nodes.take_nonce(node, seen, text);
    }

    /// So many nonces of a node were seen.
    pub fn restore_seen(&mut self, node: NodeId, seen: u64)
        requires { HostFacts (node_does self.old.state node
            (Restores_seen seen)) }
        ensures { self.new ≡ record self.old { state = node_does self.old.state node (Restores_seen seen) } }
    {
        self.nodes.restore_seen(node, seen);
    }
}
