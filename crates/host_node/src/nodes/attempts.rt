//! The attempts of open sessions, and the nonces that they wait for.

ghost use Rattle.std.specs.Prelude.{◌≡◌, ◌<◌, IsTrue, IsSome};
ghost use Rattle.supervision.specs.Session.{IsStatus};
ghost use Rattle.supervision.specs.Host.{told_of};
ghost use Rattle.host_node.specs.State.{has_segment};
ghost use Rattle.host_node.specs.Steps.{attempt_end};
ghost use Rattle.host_node.specs.Events.{FitsPlan};
ghost use Rattle.host_node.specs.Events.NodeEvent.{Starts, Gives_segment, Gives_text, Succeeds, Ends_attempt, Reports, Takes_nonce, Restores_seen};
ghost use Rattle.host_node.specs.TableState.{node_of, nodes_after};

use crate::nodes::Nodes;
use crate::{AttemptEnd, Moment, Plan, Series};
use supervision::Told;
use zw_base::{NodeId, Payload};

impl Nodes {
    /// The attempt that is due runs, and gives its first: the message, the first segment or a Nonce Get.
    pub fn start_attempt(&mut self, node: NodeId, plan: Plan)
        requires due { (node_of self.old node).series ≡ Series.Due }
        requires plan { FitsPlan plan }
        ensures { self.new ≡ nodes_after self.old node (Starts plan) }
    {
        let one = &mut self.nodes[node.number() as usize];
        one.start_attempt(plan);
        self.agenda.follow(one);
    }

    /// The running attempt gives its next segment, whose number, from 0, is answered.
    pub fn give_segment(&mut self, node: NodeId) -> u8
        requires { IsTrue (has_segment (node_of self.old node)) }
        ensures number { result ≡ (node_of self.old node).next_segment }
        ensures state { self.new ≡ nodes_after self.old node Gives_segment }
    {
        let one = &mut self.nodes[node.number() as usize];
        let given = one.give_segment();
        self.agenda.follow(one);
        given
    }

    /// The running attempt gives its sealed text, where it has one.
    pub fn give_text(&mut self, node: NodeId) -> Option<Payload>
        ensures text { result ≡ (node_of self.old node).text }
        ensures state { self.new ≡ nodes_after self.old node Gives_text }
    {
        let one = &mut self.nodes[node.number() as usize];
        let text = one.give_text();
        self.agenda.follow(one);
        text
    }

    /// A request of the node's running attempt was called back as well received.
    pub fn succeeded(&mut self, node: NodeId)
        ensures { self.new ≡ nodes_after self.old node Succeeds }
    {
        let one = &mut self.nodes[node.number() as usize];
        one.succeeded();
        self.agenda.follow(one);
    }

    /// The running attempt ends without a report.
    pub fn end_attempt(&mut self, node: NodeId, moment: Moment) -> AttemptEnd
        ensures answer { result ≡ attempt_end (node_of self.old node) }
        ensures state { self.new ≡
            nodes_after self.old node (Ends_attempt moment) }
    {
        let one = &mut self.nodes[node.number() as usize];
        let end = one.end_attempt(moment);
        self.agenda.follow(one);
        end
    }

    /// Takes a Supervision Report of a node with this id and status.
    pub fn report(&mut self, node: NodeId, id: u8, status: u8) -> Told
        requires six_bits { id < 64 }
        requires known { IsStatus status }
        ensures answer { result ≡
            told_of (node_of self.old node).book id status }
        ensures state { self.new ≡
            nodes_after self.old node (Reports id status) }
    {
        let one = &mut self.nodes[node.number() as usize];
        let told = one.report(id, status);
        self.agenda.follow(one);
        told
    }

    /// A nonce of the node is taken, so that this many were seen: its running attempt has `text` to give.
    pub fn take_nonce(&mut self, node: NodeId, seen: u64, text: Payload)
        requires { IsSome (node_of self.old node).pending }
        ensures { self.new ≡ nodes_after self.old node (Takes_nonce seen text) }
    {
        let one = &mut self.nodes[node.number() as usize];
        one.take_nonce(seen, text);
        self.agenda.follow(one);
    }

    /// So many nonces of the node were seen, by the records.
    pub fn restore_seen(&mut self, node: NodeId, seen: u64)
        ensures { self.new ≡ nodes_after self.old node (Restores_seen seen) }
    {
        let one = &mut self.nodes[node.number() as usize];
        one.restore_seen(seen);
        self.agenda.follow(one);
    }
}
