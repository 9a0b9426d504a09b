//! The air: frames that are sent, lost, repeated and forgotten.

ghost use Rattle.std.specs.Prelude.{◌≡◌, ◌+◌, ◌-◌, ◌^◌, ◌<◌, ◌≤◌, ◌∷◌, [], ◌++◌, length, IfOk, OnOk};
ghost use Rattle.std.specs.Result.{result_err};
ghost use Rattle.include_world.specs.Air.{
  first_air,
  arriving,
  air_entry,
  departing,
  forgetting,
  landing,
  losing_more,
  pair_of,
  sending,
  sent_entries,
  refusal_of,
  flight_at,
};

use crate::{Flight, Pair};
use air_frames::{Heading, MAX_NEW_NONCES};
use include_text::{IncludeEntry, IncludeRefusal};
use std::alloc::Global;
use std::marker::Model;
use zw_base::{List, NoMemory, NodeId, Payload, Replies, controller};

/// One place for each node number from 0 to 232; that of 0 is never used.
const NODES: usize = 233;

/// The air between node 1 and the others. Contracts see its state, and its room: how many more frames can surely be sent.
#[derive(Drop)]
pub(crate) struct Air {
    losing: u64,
    landed: usize,
    frames: List<Flight>,
    pairs: [Pair; 233],
}

impl Model for Air {
    ghost use Rattle.std.specs.Prelude.{◌≤◌, length};
    ghost use Rattle.include_world.specs.Air.{Airing};

    ghost Value = { Airing };

    ghost view = { λ a. record {
      state = record { losing = a.losing; landed = a.landed; frames = a.frames.items; pairs = a.pairs };
      room = a.frames.room;
    } };

    ghost invariant = { λ a. a.landed ≤ length a.frames.items };
}

/// A frame that is heard.
#[derive(Drop)]
pub struct Coming {
    pub number: u64,
    pub node: NodeId,
    pub heading: Heading,
    pub payload: Payload,
}

impl Air {
    /// Nothing was sent.
    #[tactic(auto, unfolding(crate::specs::Air::first_air))]
    pub(crate) fn new(alloc: Global) -> Air
        ensures { result.state ≡ first_air }
    {
        Air {
            losing: 0,
            landed: 0,
            frames: List::new(alloc),
            pairs: [Pair::new(); NODES],
        }
    }

    /// Marks so many of the next frames, from either side, as lost.
    pub(crate) fn lose(&mut self, count: u32)
        ensures state { self.new.state ≡ losing_more self.old.state count }
        ensures room { self.new.room ≡ self.old.room }
    {
        self.losing = self.losing.saturating_add(u64::from(count));
    }

    /// The frames of a node that were sent so far are heard no more.
    pub(crate) fn forget(&mut self, node: NodeId)
        ensures state { self.new.state ≡ forgetting self.old.state node }
        ensures room { self.new.room ≡ self.old.room }
    {
        self.pairs[node.number() as usize].forgotten = self.frames.len() as u64;
    }

    /// How many frames are on the air.
    pub(crate) fn flying(&self) -> usize
        ensures { result ≡ length self.now.state.frames - self.now.state.landed }
    {
        self.frames.len() - self.landed
    }

    /// Makes room for so many more frames of a node, and sees that their nonces can be counted.
    pub(crate) fn reserve(&mut self, node: NodeId, frames: u8) -> Result<(), NoMemory>
        ensures state { self.new.state ≡ self.old.state }
        ensures ok { OnOk result (frames ≤ self.new.room) }
        ensures countable { OnOk result ((pair_of self.new.state node).nonces.shown + frames < 2 ^ 64) }
        ensures grows { self.old.room ≤ self.new.room }
    {
        if self.pairs[node.number() as usize].nonces.shown() > u64::MAX - u64::from(frames) {
            return Err(NoMemory);
        }
        self.frames.reserve(frames as usize)
    }

    /// Puts a frame on the air, for which there is room, and enters it.
    #[tactic(auto, unfolding(crate::specs::Air::departing))]
    pub(crate) fn depart(
        &mut self,
        node: NodeId,
        heading: Heading,
        payload: &[u8],
        out: &mut List<IncludeEntry>,
    )
        requires room { 0 < self.old.room }
        requires out_room { 0 < out.old.room }
        requires countable { (pair_of self.old.state node).nonces.shown + 1 < 2 ^ 64 }
        requires short { length payload.now ≤ 46 }
        ensures state { self.new.state ≡ departing self.old.state node heading payload.now }
        ensures room { self.new.room + 1 ≡ self.old.room }
        ensures outs { out.new.items ≡ out.old.items ++ air_entry self.old.state node heading payload.now ∷ [] }
        ensures out_room { out.new.room + 1 ≡ out.old.room }
    {
        let at = node.number() as usize;
        self.pairs[at].nonces.show(heading, payload);
        let flight = Flight {
            node,
            heading,
            lost: self.losing > 0,
            payload: Payload::fitting(payload),
            shown: self.pairs[at].nonces.shown(),
        };
        self.losing = self.losing.saturating_sub(1);
        self.frames.put(flight);
        let (from, to) = match heading {
            Heading::Outward => (controller(), node),
            Heading::Homeward => (node, controller()),
        };
        out.put(IncludeEntry::Air {
            frame: self.frames.len() as u64,
            from,
            to,
            payload: Payload::fitting(payload),
        });
    }

    /// Puts replies on the air, for which there is room, and enters them.
    pub(crate) fn send(
        &mut self,
        node: NodeId,
        heading: Heading,
        replies: &Replies,
        out: &mut List<IncludeEntry>,
    )
        requires room { 8 ≤ self.old.room }
        requires out_room { 8 ≤ out.old.room }
        requires countable { (pair_of self.old.state node).nonces.shown + 8 < 2 ^ 64 }
        ensures state { self.new.state ≡ sending self.old.state node heading replies.now }
        ensures outs { out.new.items ≡ out.old.items ++ sent_entries self.old.state node heading replies.now }
    {
        for at in 0..replies.len() {
            let Some(reply) = replies.get(at) else {
                unreachable!()
            };
            self.depart(node, heading, reply, out);
        }
    }

    /// The frame that arrives next, where it is heard. None where it is lost.
    pub(crate) fn next(&self) -> Option<Coming>
        requires { self.now.state.landed < length self.now.state.frames }
        ensures { result ≡ arriving self.now.state }
    {
        let flight = &self.frames.as_slice()[self.landed];
        let number = self.next_number();
        if flight.lost || number <= self.pairs[flight.node.number() as usize].forgotten {
            return None;
        }
        Some(heard_copy(number, flight))
    }

    /// The number of the frame that arrives next.
    pub(crate) fn next_number(&self) -> u64
        requires { self.now.state.landed < length self.now.state.frames }
        ensures { result ≡ self.now.state.landed + 1 }
    {
        let sent = self.frames.len();
        let left = sent - self.landed - 1;
        (sent - left) as u64
    }

    /// The frame that arrives next has arrived.
    pub(crate) fn land(&mut self)
        requires { self.old.state.landed < length self.old.state.frames }
        ensures state { self.new.state ≡ landing self.old.state }
        ensures room { self.new.room ≡ self.old.room }
    {
        let sent = self.frames.len();
        let left = sent - self.landed - 1;
        self.landed = sent - left;
    }

    /// The frame of that number, where it may be repeated.
    pub(crate) fn repeatable(&self, number: u64) -> Result<Coming, IncludeRefusal>
        ensures refused { result_err result ≡ refusal_of self.now.state number }
        ensures coming { IfOk result (λ coming. coming ≡ flight_at self.now.state number) }
    {
        if number == 0 || number > self.frames.len() as u64 {
            return Err(IncludeRefusal::NeverSent);
        }
        let flight = &self.frames.as_slice()[(number - 1) as usize];
        let pair = &self.pairs[flight.node.number() as usize];
        if number <= pair.forgotten {
            return Err(IncludeRefusal::Forgotten);
        }
        let nonces = pair.nonces.shown().saturating_sub(flight.shown);
        if nonces >= MAX_NEW_NONCES {
            return Err(IncludeRefusal::Stale(nonces));
        }
        Ok(heard_copy(number, flight))
    }
}

/// The frame of that number, as it is heard.
fn heard_copy(number: u64, flight: &Flight) -> Coming
    ensures { result ≡ record { number = number; node = flight.now.node; heading = flight.now.heading; payload = flight.now.payload } }
{
    Coming {
        number,
        node: flight.node,
        heading: flight.heading,
        payload: Payload::fitting(flight.payload.bytes()),
    }
}
