//! One node, as the host sees it.

ghost use Rattle.std.specs.Prelude.{◌≡◌, ◌↔◌, ◌<◌, ◌≤◌, Option, Some, None, length, slice_get, IsTrue, IfOk, IfSome, Contains};
ghost use Rattle.std.specs.Option.{option_copied};
ghost use Rattle.supervision.specs.Session.{IsStatus};
ghost use Rattle.supervision.specs.Host.{begun_of, open_session, command_at, told_of};
ghost use Rattle.host_node.specs.State.{
  unknown,
  is_up as up,
  has_segment as segment_left,
  has_work as to_be_served,
  wants_no_more as to_be_told,
  needs_tick as has_ticks,
  Lists,
};
ghost use Rattle.host_node.specs.Facts.{NodeFacts};
ghost use Rattle.host_node.specs.Steps.{after_join, after_interview};

mod attempts;
mod commands;
mod nonces;
mod ticks;
mod waking;

use crate::{NoMore, Series};
pub use commands::Begun;
use s0_crypto::SealEnds;
use s0_session::Sender;
use std::alloc::Global;
use std::marker::Model;
use supervision::{HostNode, Told, WORKING, session_id};
use wake_mailbox::Mailbox;
use zw_base::{Bytes, NoMemory, NodeId, Payload, read_node};

/// The node of the controller, which seals for all others.
const CONTROLLER: u8 = 1;

/// What the host keeps of one node. Contracts see all of it in one record.
#[derive(Drop)]
pub struct Node {
    node: NodeId,
    joined: bool,
    listens: bool,
    classes: Option<Bytes>,
    mailbox: Mailbox,
    sessions: HostNode,
    series: Series,
    attempt_wait: u8,
    again_wait: u8,
    next_segment: u8,
    segments: u8,
    text: Option<Payload>,
    sender: Sender,
    no_more: NoMore,
    blocked: bool,
}

impl Model for Node {
    ghost use Rattle.host_node.specs.State.{NodeState};
    ghost use Rattle.host_node.specs.Inside.{IsNode, state_of};

    ghost Value = { NodeState };

    ghost view = { state_of };

    ghost invariant = { IsNode };
}

impl Node {
    /// A node of which nothing is known.
    pub fn new(alloc: Global, node: NodeId) -> Result<Node, NoMemory>
        ensures { IfOk result (λ made. made ≡ unknown node) }
    {
        let ends = SealEnds {
            sender: read_node(CONTROLLER).unwrap(),
            receiver: node,
        };
        Ok(Node {
            node,
            joined: false,
            listens: false,
            classes: None,
            mailbox: Mailbox::new(alloc)?,
            sessions: HostNode::new(alloc),
            series: Series::Idle,
            attempt_wait: 0,
            again_wait: 0,
            next_segment: 0,
            segments: 0,
            text: None,
            sender: Sender::new(alloc, ends),
            no_more: NoMore::Unasked,
            blocked: false,
        })
    }

    /// Its number in the network.
    pub fn node(&self) -> NodeId
        ensures value { result ≡ self.now.node }
        ensures facts { NodeFacts self.now }
    {
        self.node
    }

    pub fn is_joined(&self) -> bool
        ensures { result ≡ self.now.joined }
    {
        self.joined
    }

    /// Whether it listens at all times, by its last interview.
    pub fn listens(&self) -> bool
        ensures { result ≡ self.now.listens }
    {
        self.listens
    }

    /// The class list of its last interview, where there was one.
    pub fn classes(&self) -> Option<&[u8]>
        ensures { option_copied result ≡ self.now.classes }
    {
        match &self.classes {
            Some(classes) => Some(classes.as_slice()),
            None => None,
        }
    }

    /// The same, as it is kept.
    pub fn class_list(&self) -> &Option<Bytes>
        ensures { result.now ≡ self.now.classes }
    {
        &self.classes
    }

    /// Whether its class list has that class.
    pub fn lists(&self, class: u8) -> bool
        ensures { IsTrue result ↔ Lists self.now.classes class }
    {
        match &self.classes {
            Some(classes) => classes.as_slice().contains(&class),
            None => false,
        }
    }

    /// How many commands wait for it, 0 to 16.
    pub fn waiting(&self) -> u8
        ensures count { result ≡ length self.now.waiting }
        ensures bound { result ≤ 16 }
    {
        self.mailbox.len()
    }

    /// The command that has waited longest.
    pub fn oldest(&self) -> Option<u32>
        ensures { result ≡ slice_get self.now.waiting 0 }
    {
        self.mailbox.front()
    }

    /// Whether that command waits.
    pub fn waits(&self, command: u32) -> bool
        ensures { IsTrue result ↔ Contains self.now.waiting command }
    {
        self.mailbox.waits(command)
    }

    /// Whether it counts as awake by its Wake Up Notification. A listening node need not.
    pub fn is_awake(&self) -> bool
        ensures { result ≡ self.now.awake }
    {
        self.mailbox.is_awake()
    }

    /// Whether it hears what is sent to it: it listens, or counts as awake.
    pub fn is_up(&self) -> bool
        ensures { result ≡ up self.now }
    {
        self.listens || self.mailbox.is_awake()
    }

    /// Whether it is held awake.
    pub fn is_held(&self) -> bool
        ensures { IsTrue result ↔ (0 < self.now.hold) }
    {
        self.mailbox.is_held()
    }

    /// The session that was begun and has no final report.
    pub fn current(&self) -> Option<u64>
        ensures { result ≡ open_session self.now.book }
    {
        self.sessions.current()
    }

    /// How many sessions were begun.
    pub fn sessions(&self) -> u64
        ensures { result ≡ begun_of self.now.book }
    {
        self.sessions.sessions()
    }

    /// The commands of the sessions begun, in order: the first is that of session 1.
    pub fn commands(&self) -> &[u32]
        ensures { result.now ≡ self.now.book.commands }
    {
        self.sessions.commands()
    }

    /// The command of a session, 1 to `sessions`.
    pub fn command_of(&self, session: u64) -> Option<u32>
        ensures { result ≡ command_at self.now.book.commands session }
    {
        self.sessions.command_of(session)
    }

    /// What `report` would answer to a Supervision Report with this id and status.
    pub fn told(&self, id: u8, status: u8) -> Told
        requires six_bits { id < 64 }
        requires known { IsStatus status }
        ensures { result ≡ told_of self.now.book id status }
    {
        match self.sessions.current() {
            Some(session) if session_id(session) == id => {
                if status == WORKING {
                    Told::Working
                } else {
                    Told::Final(session)
                }
            }
            _ => Told::Old,
        }
    }

    /// Where the attempts of the open session stand.
    pub fn series(&self) -> Series
        ensures { result ≡ self.now.series }
    {
        self.series
    }

    /// How many attempts of the series have ended, 0 to 3.
    pub fn attempts(&self) -> u8
        ensures { result ≡ self.now.book.attempts }
    {
        self.sessions.attempts()
    }

    /// Whether the running attempt has a segment that was not given.
    pub fn has_segment(&self) -> bool
        ensures { result ≡ segment_left self.now }
    {
        self.next_segment < self.segments
    }

    /// The segment that the running attempt gives next, from 0.
    pub fn next_segment(&self) -> u8
        ensures { result ≡ self.now.next_segment }
    {
        self.next_segment
    }

    /// How many segments the running attempt has, 0 where its message is not cut.
    pub fn segments(&self) -> u8
        ensures { result ≡ self.now.segments }
    {
        self.segments
    }

    /// The sealed text that the running attempt has not given yet, at most 46 bytes.
    pub fn text(&self) -> Option<&[u8]>
        ensures value { option_copied result ≡ self.now.text }
        ensures short { IfSome result (λ text. length text.now ≤ 46) }
    {
        match &self.text {
            Some(text) => Some(text.bytes()),
            None => None,
        }
    }

    /// How many nonces of it were seen.
    pub fn seen(&self) -> u64
        ensures { result ≡ self.now.seen }
    {
        self.sender.seen()
    }

    /// What became of No More Information since it woke.
    pub fn no_more(&self) -> NoMore
        ensures { result ≡ self.now.no_more }
    {
        self.no_more
    }

    /// Whether it is to be served: its attempt has more to give, or is due, or a session may begin.
    pub fn has_work(&self) -> bool
        ensures { result ≡ to_be_served self.now }
    {
        match self.series {
            Series::Running => self.text.is_some() || self.has_segment(),
            Series::Due => true,
            Series::Idle => {
                self.sessions.current().is_none()
                    && !self.mailbox.is_empty()
                    && self.is_up()
                    && !self.blocked
            }
        }
    }

    /// Whether No More Information is to be queued for it.
    pub fn wants_no_more(&self) -> bool
        ensures { result ≡ to_be_told self.now }
    {
        self.mailbox.is_awake()
            && !self.listens
            && self.classes.is_some()
            && matches!(self.no_more, NoMore::Unasked)
            && self.mailbox.is_empty()
            && self.series.is_idle()
            && !self.mailbox.is_held()
    }

    /// Whether `tick` changes it: a wait of it runs, or it is blocked.
    pub fn needs_tick(&self) -> bool
        ensures { result ≡ has_ticks self.now }
    {
        self.blocked || self.mailbox.is_held() || self.again_wait > 0 || self.attempt_wait > 0
    }

    /// It joins the network.
    pub fn join(&mut self)
        ensures { self.new ≡ after_join self.old }
    {
        self.joined = true;
    }

    /// An interview told whether it listens, and its class list.
    pub fn interviewed(&mut self, listens: bool, classes: Bytes)
        ensures { self.new ≡ after_interview self.old listens classes }
    {
        self.listens = listens;
        self.classes = Some(classes);
    }
}
