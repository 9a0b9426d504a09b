//! What the host asked to be sent, and what the controller sent.

ghost use Rattle.std.specs.Prelude.{◌≡◌, ◌+◌, ◌<◌, drop, length, None, Some, IfOk, OnOk, is_none, MatchOption};
ghost use Rattle.chip_functions.specs.Request.{request_of as request_by};
ghost use Rattle.law_transcript.specs.Carrying.{is_request};
ghost use Rattle.law_transcript.specs.Units.{read_well, sending_of as carried_by};
ghost use Rattle.audit_rules.specs.PayloadRule.{same_carried};
ghost use Rattle.audit_rules.specs.Sending.{
  asked_for,
  following,
  breaks_sending,
  changed,
  first_of,
  is_that,
  may_send,
  no_sendings,
  sendings_after,
  sent,
  sent_by,
  settled,
  wrote,
};
ghost use Rattle.std.specs.List.{flat_map};

use chip_functions::{BodyFault, Request, read_request};
use serial_frame::{Frame, Kind, Unit, encode};
use std::alloc::Global;
use std::marker::Model;
use zw_base::{Bytes, NoMemory, NodeId};
use zw_text::{Entry, Side};

/// How many bytes of a frame stand before its body: SOF, length, type and function.
const HEAD: usize = 4;
/// How many bytes a frame has beside its body: those, and the checksum.
const BESIDE_BODY: usize = 5;
/// How many bytes a frame has at most.
const MAX_FRAME: usize = 257;
/// The controller.
const CONTROLLER: u8 = 1;

/// A payload, and the node that it is to.
#[derive(Debug, Drop)]
struct Sending {
    node: NodeId,
    payload: Bytes,
}

impl Model for Sending {
    ghost use Rattle.law_transcript.specs.Units.{Carried};

    ghost Value = { Carried };

    ghost view = { λ s. record { node = s.node; payload = s.payload } };
}

/// Whether the bytes are those of the request frame that their own function and body make.
fn is_whole(alloc: Global, unit: &[u8]) -> Result<bool, NoMemory>
    ensures { IfOk result (λ whole. whole ≡ is_request unit.now) }
{
    if unit.len() < BESIDE_BODY || unit.len() > MAX_FRAME {
        return Ok(false);
    }
    let body = &unit[HEAD..unit.len() - 1];
    let frame = Frame {
        kind: Kind::Request,
        func: unit[HEAD - 1],
        body: Bytes::from_slice(alloc, body)?,
    };
    let written = encode(alloc, &Unit::Framed(frame))?;
    Ok(written.as_slice() == unit)
}

/// What a request asks to be sent.
fn sending_by(alloc: Global, request: &Request) -> Result<Option<Sending>, NoMemory>
    ensures { IfOk result (λ sending. sending ≡ first_of (carried_by request.now)) }
{
    match request {
        Request::SendData { node, payload, .. } => Ok(Some(Sending {
            node: *node,
            payload: Bytes::from_slice(alloc, payload.as_slice())?,
        })),
        _ => Ok(None),
    }
}

/// What the body of a function asks to be sent.
fn sending_in(alloc: Global, func: u8, body: &[u8]) -> Result<Option<Sending>, NoMemory>
    ensures { IfOk result (λ sending. sending ≡ first_of (flat_map carried_by (read_well (request_by func body.now)))) }
{
    match read_request(alloc, func, body) {
        Ok(request) => sending_by(alloc, &request),
        Err(BodyFault::NoMemory) => Err(NoMemory),
        Err(_) => Ok(None),
    }
}

/// What a unit asks to be sent.
fn sending_of(alloc: Global, unit: &[u8]) -> Result<Option<Sending>, NoMemory>
    ensures { IfOk result (λ sending. sending ≡ asked_for unit.now) }
{
    if is_whole(alloc, unit)? {
        sending_in(alloc, unit[HEAD - 1], &unit[HEAD..unit.len() - 1])
    } else {
        Ok(None)
    }
}

/// Whether it is that payload to that node.
fn is_sending(sending: &Sending, node: NodeId, payload: &[u8]) -> bool
    ensures { result ≡ same_carried (record { node = node; payload = payload.now }) sending.now }
{
    node == sending.node && payload == sending.payload.as_slice()
}

/// Whether it is that payload to that node, where there is one.
fn is_there(sending: &Option<Sending>, node: NodeId, payload: &[u8]) -> bool
    ensures { result ≡ is_that sending.now (record { node = node; payload = payload.now }) }
{
    match sending {
        Some(sending) => is_sending(sending, node, payload),
        None => false,
    }
}

/// The first place, from one on, at which that payload to that node stands.
fn find(sendings: &[Sending], from: usize, node: NodeId, payload: &[u8]) -> Option<usize>
    ensures { MatchOption result (following (record { node = node; payload = payload.now }) (drop from sendings.now) ≡ None)
        (λ at. (at < length sendings.now) ×
        (following (record { node = node; payload = payload.now }) (drop from sendings.now) ≡ Some (drop (at + 1) sendings.now))) }
{
    for at in from..sendings.len() {
        if is_sending(&sendings[at], node, payload) {
            return Some(at);
        }
    }
    None
}

/// What the host's units ask to be sent, as far as the controller has not sent it. What becomes of the last unit may
/// still be told.
#[derive(Drop)]
pub struct Payloads {
    alloc: Global,
    /// What the units before the last one ask for.
    asked: Vec<Sending>,
    /// How many of them lie before the last one that was sent, it included.
    passed: usize,
    /// What the last unit asks for.
    last: Option<Sending>,
    /// The last frame of the controller, where only the last unit can have asked for it.
    unmet: Option<Sending>,
    /// There is a unit.
    written: bool,
}

impl Model for Payloads {
    ghost use Rattle.std.specs.Prelude.{◌≤◌, drop, length};
    ghost use Rattle.audit_rules.specs.Sending.{Sendings};

    ghost Value = { Sendings };

    ghost view = { λ p. record { left = drop p.passed p.asked.items; last = p.last; unmet = p.unmet; written = p.written } };

    ghost invariant = { λ p. p.passed ≤ length p.asked.items };
}

impl Payloads {
    /// No units and no frames. It takes no memory.
    pub fn new(alloc: Global) -> Payloads
        ensures { result ≡ no_sendings }
    {
        Payloads {
            alloc,
            asked: Vec::new(alloc),
            passed: 0,
            last: None,
            unmet: None,
            written: false,
        }
    }

    /// Whether the controller may send this: it was asked for, after all that was sent.
    fn may_send(&self, node: NodeId, payload: &[u8]) -> bool
        ensures { result ≡ may_send self.now (record { node = node; payload = payload.now }) }
    {
        self.unmet.is_none()
            && (is_there(&self.last, node, payload)
                || find(self.asked.as_slice(), self.passed, node, payload).is_some())
    }

    /// Whether the entry breaks the rule of payloads.
    pub fn breaks(&self, entry: &Entry) -> bool
        ensures { result ≡ breaks_sending self.now entry.now }
    {
        match entry {
            Entry::Air {
                sender,
                receiver,
                payload,
                ..
            } => sender.number() == CONTROLLER && !self.may_send(*receiver, payload.bytes()),
            _ => false,
        }
    }

    /// The controller sends this.
    fn send(&mut self, node: NodeId, payload: &[u8]) -> Result<(), NoMemory>
        ensures { OnOk result (self.new ≡ sent self.old (record { node = node; payload = payload.now })) }
    {
        match find(self.asked.as_slice(), self.passed, node, payload) {
            Some(at) => self.passed = at + 1,
            None => {
                let payload = Bytes::from_slice(self.alloc, payload)?;
                self.unmet = Some(Sending { node, payload });
                self.passed = self.asked.len();
            }
        }
        Ok(())
    }

    /// What the last unit asks for stands.
    fn settle(&mut self) -> Result<(), NoMemory>
        ensures { OnOk result (self.new ≡ settled self.old) }
    {
        let last = self.last.take();
        match &self.unmet {
            Some(unmet) => {
                if is_there(&last, unmet.node, unmet.payload.as_slice()) {
                    self.unmet = None;
                }
            }
            None => {
                if let Some(last) = last {
                    self.asked.push(last)?;
                }
            }
        }
        Ok(())
    }

    /// The host writes a unit.
    fn write(&mut self, unit: &[u8]) -> Result<(), NoMemory>
        ensures { OnOk result (self.new ≡ wrote self.old unit.now) }
    {
        let sending = sending_of(self.alloc, unit)?;
        self.settle()?;
        self.last = sending;
        self.written = true;
        Ok(())
    }

    /// The last unit has become another, or none.
    fn change(&mut self, sending: Option<Sending>)
        ensures { self.new ≡ changed self.old sending }
    {
        if self.written {
            self.last = sending;
        }
    }

    /// A frame goes on the air.
    fn send_by(&mut self, sender: NodeId, receiver: NodeId, payload: &[u8]) -> Result<(), NoMemory>
        ensures { OnOk result (self.new ≡ sent_by self.old sender receiver payload.now) }
    {
        if sender.number() == CONTROLLER {
            self.send(receiver, payload)?;
        }
        Ok(())
    }

    /// Takes the next entry.
    pub fn take(&mut self, entry: &Entry) -> Result<(), NoMemory>
        ensures { OnOk result (self.new ≡ sendings_after self.old entry.now) }
    {
        match entry {
            Entry::Written {
                side: Side::Host,
                unit,
            } => self.write(unit.as_slice())?,
            Entry::Garbled {
                side: Side::Host,
                unit,
            } => {
                let sending = sending_of(self.alloc, unit.as_slice())?;
                self.change(sending);
            }
            Entry::Dropped { side: Side::Host } | Entry::Overrun { side: Side::Host } => {
                self.change(None)
            }
            Entry::Air {
                sender,
                receiver,
                payload,
                ..
            } => self.send_by(*sender, *receiver, payload.bytes())?,
            _ => {}
        }
        Ok(())
    }
}
