//! The frames that are kept.

ghost use Rattle.std.specs.Prelude.{
  ◌≡◌,
  ◌+◌,
  ◌-◌,
  ◌<◌,
  ◌≤◌,
  ◌^◌,
  ◌⊎◌,
  [],
  ◌∷◌,
  ◌++◌,
  nat_lt,
  length,
  slice_set,
  IfOk,
  OnOk,
  OnErr,
  IsSome,
  MatchResult,
  Some,
  None,
};
ghost use Rattle.std.specs.Option.{option_copied};
ghost use Rattle.air_frames.specs.Flown.{IsSound};
ghost use Rattle.air_frames.specs.Frames.{no_frames, peer_of, putting, landing, next_of, remembered};
ghost use Rattle.std.specs.VecDeque.{deque_len, deque_capacity};
ghost use Rattle.circular_buffer.specs.Buffer.{buffer, keep_last};
ghost use Rattle.air_frames.specs.Frames.{pushed_out};
ghost use Rattle.air_frames.specs.Ages.{refusal_of};

use crate::ages::check_age;
use crate::{Departure, Frame, MAX_LATER_FRAMES, Peer, Refusal};
use circular_buffer::HeapCircularBuffer;
use std::alloc::Global;
use std::collections::VecDeque;
use std::marker::Model;
use zw_base::{NoMemory, NodeId};

/// How many frames are kept in the memory that is taken at the start: each one, until more than 4,096 later ones were
/// sent.
pub const KEPT_FRAMES: usize = 4097;

/// One place for each node number from 0 to 232; that of 0 is never used.
const PEERS: usize = 233;

/// The frames that were sent, and what is counted for each node. Contracts see the last frames, how many were sent and
/// how many of them have arrived, and the room: how many more can surely be sent.
#[derive(Drop)]
pub struct Frames {
    sent: u64,
    landed: u64,
    late: VecDeque<Frame>,
    ring: HeapCircularBuffer<Frame>,
    peers: Vec<Peer>,
}

impl Model for Frames {
    ghost use Rattle.air_frames.specs.Frames.{Keeping};

    ghost Value = { Keeping };

    ghost use Rattle.air_frames.specs.Ring.{keeping_of, IsKept};

    ghost view = { keeping_of };

    ghost invariant = { IsKept };
}

impl Frames {
    /// No frame was sent. It takes the memory for the last 4,097 frames.
    pub fn new(alloc: Global) -> Result<Frames, NoMemory>
        ensures { IfOk result (λ frames. frames.state ≡ no_frames) }
    {
        let mut peers = Vec::with_capacity(alloc, PEERS)?;
        for _ in 0..PEERS {
            peers.push(Peer::new())?;
        }
        Ok(Frames {
            sent: 0,
            landed: 0,
            late: VecDeque::new(alloc),
            ring: HeapCircularBuffer::with_capacity(alloc, KEPT_FRAMES)?,
            peers,
        })
    }

    /// How many frames were sent.
    pub fn sent(&self) -> u64
        ensures { result ≡ self.now.state.sent }
    {
        self.sent
    }

    /// How many frames have arrived. Those after them are on the air.
    pub fn landed(&self) -> u64
        ensures value { result ≡ self.now.state.landed }
        ensures to_sent { result ≤ self.now.state.sent }
    {
        self.landed
    }

    /// The number of the frame that arrives next.
    pub fn next_number(&self) -> u64
        requires { self.now.state.landed < self.now.state.sent }
        ensures { result ≡ self.now.state.landed + 1 }
    {
        self.sent - (self.flying() - 1)
    }

    /// How many frames are on the air.
    pub fn flying(&self) -> u64
        ensures value { result ≡ self.now.state.sent - self.now.state.landed }
        ensures all { self.now.state.landed + result ≡ self.now.state.sent }
    {
        self.sent - self.landed
    }

    /// How many sessions of a node have begun.
    pub fn begun(&self, node: NodeId) -> u64
        ensures { result ≡ (peer_of self.now.state node).begun }
    {
        self.peers[node.number() as usize].begun()
    }

    /// From now on so many sessions of a node have begun.
    pub fn set_begun(&mut self, node: NodeId, sessions: u64)
        ensures state { self.new.state ≡ record self.old.state {
          peers = slice_set self.old.state.peers node (record (peer_of self.old.state node) { begun = sessions });
        } }
        ensures room { self.new.room ≡ self.old.room }
    {
        self.peers[node.number() as usize].set_begun(sessions);
    }

    /// Makes room for so many more frames. It fails only where their numbers do not fit, or where a frame that is still
    /// on the air would give way.
    pub fn reserve(&mut self, frames: u8) -> Result<(), NoMemory>
        ensures state { self.new.state ≡ self.old.state }
        ensures ok { OnOk result (frames ≤ self.new.room) }
        ensures err { OnErr result ((2 ^ 64 ≤ self.old.state.sent + frames) ⊎ (4097 < self.old.state.sent - self.old.state.landed + frames)) }
        ensures grows { self.old.room ≤ self.new.room }
    {
        if u64::MAX - self.sent < frames as u64 {
            return Err(NoMemory);
        }
        let pushed_out = (self.flying() + frames as u64).saturating_sub(KEPT_FRAMES as u64);
        if pushed_out > 0 {
            self.late.reserve(frames as usize)?;
        }
        Ok(())
    }

    /// Puts a frame on the air, for which there is room, and answers its number.
    pub fn put(&mut self, departure: Departure) -> u64
        requires sound { IsSound departure.route }
        requires room { 0 < self.old.room }
        ensures number { result ≡ self.old.state.sent + 1 }
        ensures state { self.new.state ≡ putting self.old.state departure }
        ensures room { self.new.room + 1 ≡ self.old.room }
    {
        let peer = &mut self.peers[departure.node.number() as usize];
        peer.show(departure.heading, departure.payload.bytes());
        let frame = Frame::new(departure, peer);
        self.sent += 1;
        let flying = self.sent - self.landed;
        keep(&mut self.ring, &mut self.late, frame, flying);
        self.sent
    }

    /// The frame that arrives next.
    pub fn next(&self) -> Option<&Frame>
        ensures value { option_copied result ≡ next_of self.now.state }
        ensures some { self.now.state.landed < self.now.state.sent → IsSome result }
    {
        if self.landed == self.sent {
            return None;
        }
        if let Some(frame) = self.late.front() {
            return Some(frame);
        }
        let forgotten = self.sent - self.ring.len() as u64;
        self.ring.get((self.landed - forgotten) as usize)
    }

    /// The frame that arrives next has arrived.
    pub fn land(&mut self)
        requires { self.old.state.landed < self.old.state.sent }
        ensures state { self.new.state ≡ landing self.old.state }
        ensures room { self.old.room ≤ self.new.room }
    {
        let _landed = self.late.pop_front();
        self.landed += 1;
    }

    /// The frame of that number, unless it was never sent or is forgotten.
    pub fn get(&self, number: u64) -> Option<&Frame>
        ensures { option_copied result ≡ remembered self.now.state number }
    {
        if number == 0 || number > self.sent {
            return None;
        }
        let later = self.sent - number;
        if later > MAX_LATER_FRAMES {
            return None;
        }
        self.ring.nth_back(later as usize)
    }

    /// The frame of that number, where it may be repeated.
    pub fn repeatable(&self, number: u64) -> Result<&Frame, Refusal>
        ensures { MatchResult result (λ frame. (refusal_of self.now.state number ≡ None) × (remembered self.now.state number ≡ Some frame.now))
            (λ refusal. refusal_of self.now.state number ≡ Some refusal) }
    {
        if number == 0 || number > self.sent {
            return Err(Refusal::NeverSent);
        }
        let Some(frame) = self.get(number) else {
            return Err(Refusal::Forgotten);
        };
        let peer = &self.peers[frame.node().number() as usize];
        check_age(frame, peer)?;
        Ok(frame)
    }
}

/// Puts a frame after those of the ring, where so many are on the air then. The oldest gives way where the ring is full,
/// and is kept apart where it is still on the air.
fn keep(ring: &mut HeapCircularBuffer<Frame>, late: &mut VecDeque<Frame>, frame: Frame, flying: u64)
    requires capacity { ring.old.capacity ≡ 4097 }
    requires full { 4097 < flying → length ring.old.items ≡ 4097 }
    requires room { 4097 < flying → deque_len late.old < deque_capacity late.old }
    ensures ring { ring.new ≡ buffer (keep_last 4097 (ring.old.items ++ frame ∷ [])) 4097 }
    ensures late { late.new.items ≡ late.old.items ++ pushed_out (nat_lt 4097 flying) (ring.old.items ++ frame ∷ []) }
    ensures len { 4097 < flying → deque_len late.new ≡ deque_len late.old + 1 }
    ensures same_len { flying ≤ 4097 → deque_len late.new ≡ deque_len late.old }
    ensures room { deque_capacity late.new ≡ deque_capacity late.old }
{
    if let Some(oldest) = ring.push_back(frame) {
        if flying > KEPT_FRAMES as u64 {
            late.push_back_reserved(oldest);
        }
    }
}
