//! The frames on the air, and how fresh they are.

ghost use Rattle.std.specs.Prelude.{◌≡◌, ◌+◌, ◌==◌, length, IfOk, OnOk, vec_len};
ghost use Rattle.air_frames.specs.Ages.{is_class};
ghost use Rattle.audit_rules.specs.Flying.{
  at_number,
  counted,
  is_fresh_now,
  is_there,
  is_young,
  landing,
  lands,
  no_frames,
  node_between,
  none_shown,
  sending,
  showing,
  shown_count,
  shown_if,
  with_frame,
};

use air_frames::{
    MAX_LATER_SESSIONS, MAX_LATER_SESSIONS_OF_SEGMENTS, MAX_NEW_NONCES, is_new, nonce_of,
};
use audit_books::{PLACES, Sessions};
use std::alloc::Global;
use std::marker::Model;
use zw_base::{NoMemory, NodeId};

/// The command class Transport Service.
const TRANSPORT_SERVICE: u8 = 0x55;
/// The command class Security 0.
const SECURITY: u8 = 0x98;
/// The controller.
const CONTROLLER: u8 = 1;

/// A frame that went on the air, and the counts of its node as they stood then.
#[derive(Clone, Copy, Debug)]
pub struct Flown {
    node: NodeId,
    segment: bool,
    sealed: bool,
    begun: u64,
    shown: u64,
}

/// How many new nonces went one way between a node and the controller, and the last one.
#[derive(Clone, Copy, Debug)]
pub struct Shown {
    count: u32,
    last: Option<[u8; 8]>,
}

/// The frames so far, by their number, which counts from 1.
#[derive(Drop)]
pub struct Frames {
    frames: Vec<Flown>,
    /// Whether something became of each frame in a tick.
    landed: Vec<bool>,
    /// What the controller showed each node.
    outward: Vec<Shown>,
    /// What each node showed the controller.
    homeward: Vec<Shown>,
}

impl Model for Frames {
    ghost use Rattle.std.specs.Prelude.{◌≡◌, length};
    ghost use Rattle.audit_rules.specs.Flying.{Flying};

    ghost Value = { Flying };

    ghost view = { λ f. record { frames = f.frames.items; landed = f.landed.items; outward = f.outward.items; homeward = f.homeward.items } };

    ghost invariant = { λ f. (length f.outward.items ≡ 233) × (length f.homeward.items ≡ 233) };
}

/// The node of a frame: its end that is not the controller.
fn node_of(sender: NodeId, receiver: NodeId) -> NodeId
    ensures { result ≡ node_between sender receiver }
{
    if sender.number() == CONTROLLER {
        receiver
    } else {
        sender
    }
}

/// Whether a payload is of a command class.
fn is_of_class(payload: &[u8], class: u8) -> bool
    ensures { result ≡ is_class payload.now class }
{
    payload.first() == Some(&class)
}

/// The nonces with one more, where there is one.
fn count_nonce(shown: Shown, nonce: Option<[u8; 8]>) -> Result<Shown, NoMemory>
    ensures { IfOk result (λ more. more ≡ counted shown nonce) }
{
    let Some(nonce) = nonce else {
        return Ok(shown);
    };
    let count = if is_new(shown.last, &nonce) {
        shown.count.checked_add(1).ok_or(NoMemory)?
    } else {
        shown.count
    };
    Ok(Shown {
        count,
        last: Some(nonce),
    })
}

/// Counts a nonce of the node, where it is shown there.
fn show(
    table: &mut Vec<Shown>,
    is_shown: bool,
    node: NodeId,
    nonce: Option<[u8; 8]>,
) -> Result<(), NoMemory>
    requires { vec_len table.old ≡ 233 }
    ensures items { OnOk result (table.new.items ≡ shown_if is_shown node nonce table.old.items) }
    ensures len { length table.new.items ≡ 233 }
{
    if is_shown {
        let place = usize::from(node.number());
        table[place] = count_nonce(table[place], nonce)?;
    }
    Ok(())
}

/// Whether a frame is fresh, by its class and what was counted since.
fn is_young(segment: bool, sealed: bool, later: u64, nonces: u64) -> bool
    ensures { result ≡ is_young segment sealed later nonces }
{
    later < MAX_LATER_SESSIONS
        && ((!segment || later < MAX_LATER_SESSIONS_OF_SEGMENTS)
            && (!sealed || nonces < MAX_NEW_NONCES))
}

/// No nonces, of any node.
#[tactic(auto, unfolding(crate::specs::Flying::none_shown))]
fn no_nonces(alloc: Global) -> Result<Vec<Shown>, NoMemory>
    ensures items { IfOk result (λ table. table.items ≡ none_shown) }
    ensures len { IfOk result (λ table. length table.items ≡ 233) }
{
    let mut shown = Vec::with_capacity(alloc, PLACES)?;
    for _ in 0..PLACES {
        shown.push(Shown {
            count: 0,
            last: None,
        })?;
    }
    Ok(shown)
}

impl Frames {
    /// No frames.
    pub fn new(alloc: Global) -> Result<Frames, NoMemory>
        ensures { IfOk result (λ frames. frames ≡ no_frames) }
    {
        let outward = no_nonces(alloc)?;
        let homeward = no_nonces(alloc)?;
        Ok(Frames {
            frames: Vec::new(alloc),
            landed: Vec::new(alloc),
            outward,
            homeward,
        })
    }

    /// Whether the frame is the next one.
    pub fn is_next(&self, frame: u64) -> bool
        ensures { result ≡ (frame == length self.now.frames + 1) }
    {
        frame > 0 && frame - 1 == self.frames.len() as u64
    }

    /// Whether the frame was sent.
    pub fn is_sent(&self, frame: u64) -> bool
        ensures { result ≡ is_there self.now frame }
    {
        frame > 0 && frame <= self.frames.len() as u64
    }

    /// What is kept of the frame.
    fn get(&self, frame: u64) -> Option<Flown>
        ensures { result ≡ at_number self.now.frames frame }
    {
        if frame == 0 {
            return None;
        }
        match self.frames.get(frame as usize - 1) {
            Some(flown) => Some(*flown),
            None => None,
        }
    }

    /// Whether something became of the frame in a tick.
    pub fn has_landed(&self, frame: u64) -> bool
        ensures { result ≡ lands self.now frame }
    {
        if frame == 0 {
            return false;
        }
        match self.landed.get(frame as usize - 1) {
            Some(landed) => *landed,
            None => false,
        }
    }

    /// How many new nonces a node and the controller have shown each other.
    fn shown(&self, node: NodeId) -> u64
        ensures { result ≡ shown_count self.now node }
    {
        let place = usize::from(node.number());
        u64::from(self.homeward[place].count) + u64::from(self.outward[place].count)
    }

    /// Whether the frame is fresh enough to be heard again.
    pub fn is_fresh(&self, sessions: &Sessions, frame: u64) -> bool
        ensures { result ≡ is_fresh_now self.now sessions.now (at_number self.now.frames frame) }
    {
        match self.get(frame) {
            Some(flown) => {
                let later = sessions.count(flown.node).saturating_sub(flown.begun);
                let nonces = self.shown(flown.node).saturating_sub(flown.shown);
                is_young(flown.segment, flown.sealed, later, nonces)
            }
            None => false,
        }
    }

    /// Counts the nonce that a frame shows, where it is between a node and the controller.
    fn show(&mut self, sender: NodeId, receiver: NodeId, payload: &[u8]) -> Result<(), NoMemory>
        ensures { OnOk result (self.new ≡ showing self.old sender receiver payload.now) }
    {
        let nonce = nonce_of(payload);
        show(
            &mut self.outward,
            sender.number() == CONTROLLER,
            receiver,
            nonce,
        )?;
        show(
            &mut self.homeward,
            receiver.number() == CONTROLLER,
            sender,
            nonce,
        )?;
        Ok(())
    }

    /// Keeps a frame with the counts of its node.
    fn keep(&mut self, sessions: &Sessions, node: NodeId, payload: &[u8]) -> Result<(), NoMemory>
        ensures { OnOk result (self.new ≡ with_frame self.old sessions.now node payload.now) }
    {
        let flown = Flown {
            node,
            segment: is_of_class(payload, TRANSPORT_SERVICE),
            sealed: is_of_class(payload, SECURITY),
            begun: sessions.count(node),
            shown: self.shown(node),
        };
        self.frames.push(flown)?;
        self.landed.push(false)?;
        Ok(())
    }

    /// A frame goes on the air.
    pub fn send(
        &mut self,
        sessions: &Sessions,
        sender: NodeId,
        receiver: NodeId,
        payload: &[u8],
    ) -> Result<(), NoMemory>
        ensures { OnOk result (self.new ≡ sending self.old sessions.now sender receiver payload.now) }
    {
        self.show(sender, receiver, payload)?;
        self.keep(sessions, node_of(sender, receiver), payload)?;
        Ok(())
    }

    /// Something became of the frame in a tick.
    pub fn land(&mut self, frame: u64)
        ensures { self.new ≡ landing self.old frame }
    {
        if frame > 0 && frame <= self.landed.len() as u64 {
            self.landed[frame as usize - 1] = true;
        }
    }
}
