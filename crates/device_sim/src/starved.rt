//! A device that finds no memory once.

ghost use Rattle.std.specs.Prelude.{◌≡◌, [], All, IsErr, OnOk, OnErr};
ghost use Rattle.zw_base.specs.Faults.{raised};
ghost use Rattle.device_stack.specs.Kinds.{IsPayload};
ghost use Rattle.device_sim.specs.Event.{Hears, device_after, device_replies};

use crate::{Change, Device, Profile};
use std::alloc::Global;
use zw_base::{List, NoMemory, NodeId, Replies, Setting};

/// A device of which one call of `hear` finds no memory, and changes nothing; else it is the one that it owns.
#[derive(Drop)]
pub struct Starved<D> {
    inner: D,
    at: u64,
    heard: u64,
}

impl<D: Device> Starved<D> {
    /// This device, which finds no memory at its call of `hear` of that number, counted from 1.
    pub fn new(inner: D, at: u64) -> Starved<D>
        ensures state { ⟦<Starved<D> as Device>⟧.state result ≡ D.state inner }
        ensures at { result.at ≡ at }
        ensures heard { result.heard ≡ 0 }
    {
        Starved {
            inner,
            at,
            heard: 0,
        }
    }
}

impl<D: Device> Device for Starved<D> {
    ghost state = { λ s. D.state s.inner };

    fn node(&self) -> NodeId {
        self.inner.node()
    }

    fn profile(&self, alloc: Global) -> Result<Profile, NoMemory> {
        self.inner.profile(alloc)
    }

    fn awake(&self) -> bool {
        self.inner.awake()
    }

    fn hear(&mut self, payload: &[u8], drawn: [u8; 8], out: &mut Replies) -> Result<(), NoMemory>
        requires { out.old ≡ [] }
        ensures ok { OnOk result (D.state self.new.inner ≡ device_after (D.state self.old.inner) (Hears payload.now drawn)) }
        ensures replies { OnOk result (out.new ≡ device_replies (D.state self.old.inner) (Hears payload.now drawn)) }
        ensures sizes { OnOk result (All IsPayload out.new) }
        ensures err { OnErr result (D.state self.new.inner ≡ D.state self.old.inner) }
        ensures err_replies { OnErr result (out.new ≡ []) }

        // It finds no memory at the chosen call.
        ensures starves { raised self.old.heard ≡ self.old.at → IsErr result }
        ensures counted { self.new.heard ≡ raised self.old.heard }
        ensures at { self.new.at ≡ self.old.at }
    {
        self.heard = self.heard.saturating_add(1);
        if self.heard == self.at {
            return Err(NoMemory);
        }
        self.inner.hear(payload, drawn, out)
    }

    fn tick(&mut self, out: &mut Replies) -> Result<u64, NoMemory> {
        self.inner.tick(out)
    }

    fn wake(&mut self, out: &mut Replies) -> Result<(), NoMemory> {
        self.inner.wake(out)
    }

    fn local(&mut self, value: u8, out: &mut Replies) -> Result<(), NoMemory> {
        self.inner.local(value, out)
    }

    fn show(&self, alloc: Global) -> Result<List<Setting>, NoMemory> {
        self.inner.show(alloc)
    }

    fn changes(&self) -> u64 {
        self.inner.changes()
    }

    fn change(&self, alloc: Global, at: u64) -> Result<Option<Change>, NoMemory> {
        self.inner.change(alloc, at)
    }
}
