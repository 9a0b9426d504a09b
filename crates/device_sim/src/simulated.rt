//! A device of a kind.

use crate::{Change, Device, Profile};
use device_stack::Stack;
use std::alloc::Global;
use zw_base::{Bytes, List, NoMemory, NodeId, Replies, Setting};

/// A device: what every device owns, and the kind that it is of, by its type.
#[derive(Drop)]
pub struct Simulated<K> {
    pub(crate) stack: Stack,
    pub(crate) kind: K,
}

impl<K: Drop> Device for Simulated<K> {
    ghost state = { λ s. s.stack };

    fn node(&self) -> NodeId {
        self.stack.node()
    }

    fn profile(&self, alloc: Global) -> Result<Profile, NoMemory> {
        let kind = self.stack.kind();
        Ok(Profile {
            listening: kind.listens(),
            classes: Bytes::from_slice(alloc, kind.classes())?,
        })
    }

    fn awake(&self) -> bool {
        self.stack.awake()
    }

    #[tactic(auto, unfolding(crate::specs::Event::device_after, crate::specs::Event::device_replies, crate::specs::Event::outcome_of))]
    fn hear(&mut self, payload: &[u8], drawn: [u8; 8], out: &mut Replies) -> Result<(), NoMemory> {
        self.stack.hear(payload, drawn, out)
    }

    #[tactic(auto, unfolding(crate::specs::Event::device_after, crate::specs::Event::device_replies, crate::specs::Event::outcome_of))]
    fn tick(&mut self, out: &mut Replies) -> Result<u64, NoMemory> {
        self.stack.tick(out)
    }

    #[tactic(auto, unfolding(crate::specs::Event::device_after, crate::specs::Event::device_replies, crate::specs::Event::outcome_of))]
    fn wake(&mut self, out: &mut Replies) -> Result<(), NoMemory> {
        self.stack.wake(out)
    }

    #[tactic(auto, unfolding(crate::specs::Event::device_after, crate::specs::Event::device_replies, crate::specs::Event::outcome_of))]
    fn local(&mut self, value: u8, out: &mut Replies) -> Result<(), NoMemory> {
        self.stack.set_by_hand(value, out)
    }

    fn show(&self, alloc: Global) -> Result<List<Setting>, NoMemory> {
        self.stack.show(alloc)
    }

    fn changes(&self) -> u64 {
        self.stack.changes()
    }

    fn change(&self, alloc: Global, at: u64) -> Result<Option<Change>, NoMemory> {
        self.stack.change(alloc, at)
    }
}
