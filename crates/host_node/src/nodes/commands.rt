//! Commands: from the one that is put to wait, to the session that carries it.

ghost use Rattle.std.specs.Prelude.{◌≡◌, ◌<◌, ◌↔◌, None, length, IsOk, OnOk, OnErr, Contains};
ghost use Rattle.supervision.specs.Host.{begun_of, open_session};
ghost use Rattle.host_node.specs.Steps.{oldest};
ghost use Rattle.host_node.specs.Events.NodeEvent.{Joins, Interviews, Puts, Takes_back, Accepts, Cancels, Begins, Blocks};
ghost use Rattle.host_node.specs.TableState.{node_of, nodes_after};

use crate::Begun;
use crate::nodes::Nodes;
use wake_mailbox::NotWaiting;
use zw_base::{Bytes, NoMemory, NodeId};

impl Nodes {
    /// A node joins the network.
    pub fn join(&mut self, node: NodeId)
        ensures { self.new ≡ nodes_after self.old node Joins }
    {
        let one = &mut self.nodes[node.number() as usize];
        one.join();
        self.agenda.follow(one);
    }

    /// An interview told whether a node listens, and its class list.
    pub fn interviewed(&mut self, node: NodeId, listens: bool, classes: Bytes)
        ensures { self.new ≡ nodes_after self.old node
            (Interviews listens classes) }
    {
        let one = &mut self.nodes[node.number() as usize];
        one.interviewed(listens, classes);
        self.agenda.follow(one);
    }

    /// Puts a command after those that wait for a node, of which there are fewer than 16. While its record is not kept
    /// `take_back` undoes it; once it is, `accept` follows.
    pub fn put(&mut self, node: NodeId, command: u32) -> Result<(), NoMemory>
        requires { length (node_of self.old node).waiting < 16 }
        ensures ok { OnOk result (self.new ≡
            nodes_after self.old node (Puts command)) }
        ensures err { OnErr result (self.new ≡ self.old) }
    {
        let one = &mut self.nodes[node.number() as usize];
        one.put(command)?;
        self.agenda.follow(one);
        Ok(())
    }

    /// The command that was put last waits no more.
    pub fn take_back(&mut self, node: NodeId)
        ensures { self.new ≡ nodes_after self.old node Takes_back }
    {
        let one = &mut self.nodes[node.number() as usize];
        one.take_back();
        self.agenda.follow(one);
    }

    /// The command that was put last is accepted.
    pub fn accept(&mut self, node: NodeId)
        ensures { self.new ≡ nodes_after self.old node Accepts }
    {
        let one = &mut self.nodes[node.number() as usize];
        one.accept();
        self.agenda.follow(one);
    }

    /// A command that waits is cancelled.
    pub fn cancel(&mut self, node: NodeId, command: u32) -> Result<(), NotWaiting>
        ensures waits { IsOk result ↔
            Contains (node_of self.old node).waiting command }
        ensures ok { OnOk result (self.new ≡
            nodes_after self.old node (Cancels command)) }
        ensures err { OnErr result (self.new ≡ self.old) }
    {
        let one = &mut self.nodes[node.number() as usize];
        one.cancel(command)?;
        self.agenda.follow(one);
        Ok(())
    }

    /// The session of the command that has waited longest begins. It takes no memory.
    pub fn begin(&mut self, node: NodeId) -> Begun
        requires waits { 0 < length (node_of self.old node).waiting }
        requires closed { open_session (node_of self.old node).book ≡ None }
        ensures command { result.command ≡ oldest (node_of self.old node) }
        ensures session { result.session ≡
            begun_of (node_of self.new node).book }
        ensures state { self.new ≡ nodes_after self.old node Begins }
    {
        let one = &mut self.nodes[node.number() as usize];
        let begun = one.begin();
        self.agenda.follow(one);
        begun
    }

    /// The record of a session was not kept: none begins for the node before its next tick.
    pub fn block(&mut self, node: NodeId)
        ensures { self.new ≡ nodes_after self.old node Blocks }
    {
        let one = &mut self.nodes[node.number() as usize];
        one.block();
        self.agenda.follow(one);
    }
}
