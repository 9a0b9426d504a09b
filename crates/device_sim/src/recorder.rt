//! A device that keeps what it heard.

ghost use Rattle.std.specs.Prelude.{◌≡◌, [], ◌∷◌, ◌++◌, All, length, slice_get, OnOk, OnErr};
ghost use Rattle.std.specs.Option.{option_copied};
ghost use Rattle.device_stack.specs.Kinds.{IsPayload};
ghost use Rattle.device_sim.specs.Event.{Hears, device_after, device_replies};

use crate::{Change, Device, Profile};
use std::alloc::Global;
use zw_base::{Bytes, List, NoMemory, NodeId, Replies, Setting};

/// A device that keeps each payload that it heard; else it is the one that it owns.
#[derive(Drop)]
pub struct Recorder<D> {
    alloc: Global,
    inner: D,
    payloads: List<Bytes>,
}

impl<D: Device> Recorder<D> {
    /// This device, which has heard nothing yet. It takes no memory.
    pub fn new(alloc: Global, inner: D) -> Recorder<D>
        ensures state { ⟦<Recorder<D> as Device>⟧.state result ≡ D.state inner }
        ensures payloads { result.payloads.items ≡ [] }
    {
        Recorder {
            alloc,
            inner,
            payloads: List::new(alloc),
        }
    }

    /// How many payloads it heard.
    pub fn heard(&self) -> u64
        ensures { result ≡ length self.now.payloads.items }
    {
        self.payloads.len() as u64
    }

    /// The payload that it heard at that place, counted from 0.
    pub fn payload(&self, at: u64) -> Option<&[u8]>
        ensures { option_copied result ≡ slice_get self.now.payloads.items at }
    {
        match self.payloads.as_slice().get(at as usize) {
            Some(payload) => Some(payload.as_slice()),
            None => None,
        }
    }
}

impl<D: Device> Device for Recorder<D> {
    ghost state = { λ r. D.state r.inner };

    fn node(&self) -> NodeId {
        self.inner.node()
    }

    fn profile(&self, alloc: Global) -> Result<Profile, NoMemory> {
        self.inner.profile(alloc)
    }

    fn awake(&self) -> bool {
        self.inner.awake()
    }

    fn hear(&mut self, payload: &[u8], drawn: [u8; 8], out: &mut Replies) -> Result<(), NoMemory>
        requires { out.old ≡ [] }
        ensures ok { OnOk result (D.state self.new.inner ≡ device_after (D.state self.old.inner) (Hears payload.now drawn)) }
        ensures replies { OnOk result (out.new ≡ device_replies (D.state self.old.inner) (Hears payload.now drawn)) }
        ensures sizes { OnOk result (All IsPayload out.new) }
        ensures err { OnErr result (D.state self.new.inner ≡ D.state self.old.inner) }
        ensures err_replies { OnErr result (out.new ≡ []) }
        ensures recorded { OnOk result (self.new.payloads.items ≡ self.old.payloads.items ++ payload.now ∷ []) }
        ensures err_recorded { OnErr result (self.new.payloads.items ≡ self.old.payloads.items) }
    {
        let copy = Bytes::from_slice(self.alloc, payload)?;
        self.payloads.reserve(1)?;
        self.inner.hear(payload, drawn, out)?;
        self.payloads.put(copy);
        Ok(())
    }

    fn tick(&mut self, out: &mut Replies) -> Result<u64, NoMemory> {
        self.inner.tick(out)
    }

    fn wake(&mut self, out: &mut Replies) -> Result<(), NoMemory> {
        self.inner.wake(out)
    }

    fn local(&mut self, value: u8, out: &mut Replies) -> Result<(), NoMemory> {
        self.inner.local(value, out)
    }

    fn show(&self, alloc: Global) -> Result<List<Setting>, NoMemory> {
        self.inner.show(alloc)
    }

    fn changes(&self) -> u64 {
        self.inner.changes()
    }

    fn change(&self, alloc: Global, at: u64) -> Result<Option<Change>, NoMemory> {
        self.inner.change(alloc, at)
    }
}
