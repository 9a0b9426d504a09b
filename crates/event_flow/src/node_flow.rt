//! The events of one device: both ends of its sessions.

ghost use Rattle.std.specs.Prelude.{◌≡◌, ◌<◌, length, Some, None, IfOk, OnOk, OnErr};
ghost use Rattle.supervision.specs.Host.{begun_of, open_session, told_of};
ghost use Rattle.supervision.specs.Device.{heard_of};
ghost use Rattle.event_flow.specs.State.{event_frame, known_count, receipt_frame, silent, unknown_count};
ghost use Rattle.event_flow.specs.Steps.{delivers, device_hears, does, goes_on, host_hears, listed, queues, repeats, row_by, with_begun, with_queued};

use crate::frame::{Content, Effect, Frame, Notice};
use crate::{EventEntry, EventRefusal};
use std::alloc::Global;
use std::marker::Model;
use supervision::{DeviceBook, Heard, HostNode, SUCCESS, Told, session_id};
use zw_base::{List, NoMemory, NodeId};

/// What a session is begun for: the class and the command of a Notification Report.
pub const EVENT: u32 = 0x7105;

/// The most events of a device that are not known to be taken (this project's own limit).
pub const MOST_UNKNOWN: usize = 16;

/// A frame is stale once so many sessions have begun since it was sent (this project's own limit).
pub const STALE_AGE: u64 = 62;

/// The events that a device has queued, its sessions, and what the host keeps of them and took. Contracts see all four.
#[derive(Debug, Drop)]
pub struct NodeFlow {
    queued: List<Notice>,
    device: HostNode,
    host: DeviceBook,
    taken: List<Notice>,
}

impl Model for NodeFlow {
    ghost use Rattle.event_flow.specs.State.{NodeState};
    ghost use Rattle.event_flow.specs.Inside.{IsNode, state_of};

    ghost Value = { NodeState };

    ghost view = { state_of };

    ghost invariant = { IsNode };
}

fn effect(enters: Option<EventEntry>, sends: Option<Frame>) -> Effect
    ensures { result ≡ record { enters = enters; sends = sends } }
{
    Effect { enters, sends }
}

fn refusal(refusal: EventRefusal) -> Effect
    ensures { result ≡ record { enters = Some (EventEntry.Refused refusal); sends = None } }
{
    effect(Some(EventEntry::Refused { refusal }), None)
}

impl NodeFlow {
    /// Nothing happened. It takes no memory.
    pub fn new(alloc: Global) -> NodeFlow
        ensures { result ≡ silent }
    {
        NodeFlow {
            queued: List::new(alloc),
            device: HostNode::new(alloc),
            host: DeviceBook::new(),
            taken: List::new(alloc),
        }
    }

    /// How many events the device knows to be taken.
    pub fn known(&self) -> u64
        ensures { result ≡ known_count self.now }
    {
        match self.device.current() {
            None => self.device.sessions(),
            Some(session) => session.saturating_sub(1),
        }
    }

    fn unknown(&self) -> u64
        ensures { result ≡ unknown_count self.now }
    {
        (self.queued.len() as u64).saturating_sub(self.known())
    }

    /// The line of the table, where an event was queued.
    pub fn row(&self, node: NodeId) -> Option<EventEntry>
        ensures { listed result ≡ row_by node self.now self.now.queued }
    {
        if self.queued.is_empty() {
            return None;
        }
        Some(EventEntry::TableNode {
            node,
            queued: self.queued.len() as u64,
            taken: self.taken.len() as u64,
            known: self.known(),
        })
    }

    /// The frame of the last session that has begun; one has.
    fn event_frame(&self, node: NodeId) -> Frame
        requires { 0 < begun_of self.now.device }
        ensures { result ≡ event_frame node self.now }
    {
        let session = self.device.sessions();
        Frame {
            node,
            session,
            begun: session,
            content: Content::Event(self.queued.as_slice()[session as usize - 1]),
        }
    }

    fn receipt_frame(&self, node: NodeId) -> Frame
        ensures { result ≡ receipt_frame node self.now }
    {
        Frame {
            node,
            session: self.host.taken(),
            begun: self.device.sessions(),
            content: Content::Receipt,
        }
    }

    /// The next session begins where it may, and its frame is sent.
    fn go_on(&mut self, node: NodeId, enters: EventEntry) -> Effect
        ensures node { self.new ≡ (goes_on node self.old enters).node }
        ensures effect { result ≡ (goes_on node self.old enters).effect }
    {
        if self.device.current().is_some() || self.device.sessions() >= self.queued.len() as u64 {
            return effect(Some(enters), None);
        }
        self.begin();
        let frame = self.event_frame(node);
        effect(Some(enters), Some(frame))
    }

    fn begin(&mut self)
        requires closed { open_session self.old.device ≡ None }
        requires waits { begun_of self.old.device < length self.old.queued }
        ensures { self.new ≡ with_begun self.old }
    {
        let session = self.device.begin(EVENT);
        let _ = session.unwrap();
    }

    /// An event happens at the device.
    pub fn queue(&mut self, node: NodeId, notice: Notice) -> Result<Effect, NoMemory>
        ensures node { OnOk result (self.new ≡ (queues node self.old notice).node) }
        ensures effect { IfOk result (λ effect. effect ≡ (queues node self.old notice).effect) }
        ensures err { OnErr result (self.new ≡ self.old) }
    {
        let unknown = self.unknown();
        if unknown >= MOST_UNKNOWN as u64 {
            return Ok(refusal(EventRefusal::Full { unknown }));
        }
        self.add(notice)?;
        let number = self.queued.len() as u64;
        Ok(self.go_on(node, EventEntry::Queued { node, number }))
    }

    /// One more event is queued, and there is room for its session.
    fn add(&mut self, notice: Notice) -> Result<(), NoMemory>
        requires { unknown_count self.old < MOST_UNKNOWN }
        ensures ok { OnOk result (self.new ≡ with_queued self.old notice) }
        ensures err { OnErr result (self.new ≡ self.old) }
    {
        self.queued.reserve(1)?;
        self.device.reserve_for(MOST_UNKNOWN)?;
        self.queued.put(notice);
        Ok(())
    }

    /// The device sends the frame of its open session once more.
    pub fn repeat(&self, node: NodeId) -> Effect
        ensures { does self.now result.enters result.sends ≡ repeats node self.now }
    {
        if self.device.current().is_none() {
            return refusal(EventRefusal::Idle);
        }
        effect(None, Some(self.event_frame(node)))
    }

    /// A frame arrives at whom it is for.
    pub fn deliver(&mut self, frame: &Frame) -> Result<Effect, NoMemory>
        ensures node { OnOk result (self.new ≡ (delivers self.old frame.now).node) }
        ensures effect { IfOk result (λ effect. effect ≡ (delivers self.old frame.now).effect) }
        ensures err { OnErr result (self.new ≡ self.old) }
    {
        let later = self.device.sessions().saturating_sub(frame.begun);
        if later >= STALE_AGE {
            return Ok(refusal(EventRefusal::Stale { later }));
        }
        let id = session_id(frame.session);
        match frame.content {
            Content::Event(notice) => self.hear(frame.node, id, notice),
            Content::Receipt => Ok(self.report(frame.node, id)),
        }
    }

    /// The host hears an event.
    fn hear(&mut self, node: NodeId, id: u8, notice: Notice) -> Result<Effect, NoMemory>
        requires { id < 64 }
        ensures node { OnOk result (self.new ≡ (host_hears node self.old id notice (heard_of self.old.host id)).node) }
        ensures effect { IfOk result (λ effect. effect ≡ (host_hears node self.old id notice (heard_of self.old.host id)).effect) }
        ensures err { OnErr result (self.new ≡ self.old) }
    {
        self.taken.reserve(1)?;
        if self.host.taken() == u64::MAX {
            return Err(NoMemory);
        }
        match self.host.hear(id) {
            Heard::New(_) => {
                self.host.finish(SUCCESS);
                self.taken.put(notice);
                let taken = EventEntry::Taken {
                    node,
                    kind: notice.kind,
                    level: notice.level,
                };
                Ok(effect(Some(taken), Some(self.receipt_frame(node))))
            }
            Heard::Again(_) => Ok(effect(None, Some(self.receipt_frame(node)))),
            Heard::Old => Ok(effect(Some(EventEntry::Old { node, id }), None)),
        }
    }

    /// The device hears an answer.
    fn report(&mut self, node: NodeId, id: u8) -> Effect
        requires { id < 64 }
        ensures node { self.new ≡ (device_hears node self.old id (told_of self.old.device id SUCCESS)).node }
        ensures effect { result ≡ (device_hears node self.old id (told_of self.old.device id SUCCESS)).effect }
    {
        match self.device.report(id, SUCCESS) {
            Told::Final(session) => {
                self.go_on(
                    node,
                    EventEntry::Known {
                        node,
                        number: session,
                    },
                )
            }
            Told::Working | Told::Old => effect(Some(EventEntry::Old { node, id }), None),
        }
    }
}
