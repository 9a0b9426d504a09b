//! Frames that arrive or are repeated.

ghost use Rattle.std.specs.Prelude.{◌≡◌, ◌-◌, ◌<◌, ◌^◌, length, map, OnOk, OnErr};
ghost use Rattle.outside_model.specs.State.{outside, tells};
ghost use Rattle.air_frames.specs.declared.ages.Refusal.{Refusal as Refused};
ghost use Rattle.mesh_sim.specs.Faults.{fault_of};
ghost use Rattle.outside_model.specs.Events.{refusal_entries};
ghost use Rattle.outside_model.specs.Did.{RunOf, PrefixOf, Stops, Enters};
ghost use Rattle.outside_model.specs.Schedules.{Arrivals, Delivers, IsRepeat};

use crate::Outside;
use crate::dealing::deal_and_enter;
use device_sim::Device;
use mesh_sim::RepeatFault;
use outside_step::OutsideCore;
use zw_base::{Draw, List, NoMemory};
use zw_text::{Entry, Refusal};

impl Outside {
    /// Each frame that is on the air now arrives, in the order of numbers.
    pub fn deliver<D: Draw>(
        &mut self,
        devices: &mut Vec<Box<dyn Device>>,
        draw: &mut D,
        out: &mut List<Entry>,
    ) -> Result<(), NoMemory>
        requires few { length devices.old.items < 2 ^ 64 }
        ensures ok { OnOk result (RunOf (Delivers self.old) (outside self.old (map (λ d. state d) devices.old.items))
            (outside self.new (map (λ d. state d) devices.new.items)) out.old.items out.new.items) }
        ensures err { OnErr result (Stops (PrefixOf (Delivers self.old)) (outside self.old (map (λ d. state d) devices.old.items))
            (map (λ d. state d) devices.new.items) out.old.items out.new.items) }
        ensures kept { length devices.new.items ≡ length devices.old.items }
    {
        for _ in 0..self.core.flying() {
            self.arrive(devices, draw, out)?;
        }
        Ok(())
    }

    /// The next frame arrives.
    fn arrive<D: Draw>(
        &mut self,
        devices: &mut Vec<Box<dyn Device>>,
        draw: &mut D,
        out: &mut List<Entry>,
    ) -> Result<(), NoMemory>
        requires few { length devices.old.items < 2 ^ 64 }
        requires flying { self.old.air.frames.landed < self.old.air.frames.sent }
        ensures ok { OnOk result (RunOf (Arrivals 1) (outside self.old (map (λ d. state d) devices.old.items))
            (outside self.new (map (λ d. state d) devices.new.items)) out.old.items out.new.items) }
        ensures err { OnErr result (Stops (PrefixOf (Arrivals 1)) (outside self.old (map (λ d. state d) devices.old.items))
            (map (λ d. state d) devices.new.items) out.old.items out.new.items) }
        ensures kept { length devices.new.items ≡ length devices.old.items }
    {
        let mut events = List::new(self.core.alloc());
        self.core.arrive(devices, draw, &mut events)?;
        deal_and_enter(&mut self.core, &events, devices, out)
    }

    /// A frame is heard again, or that is refused.
    pub fn repeat<D: Draw>(
        &mut self,
        frame: u64,
        devices: &mut Vec<Box<dyn Device>>,
        draw: &mut D,
        out: &mut List<Entry>,
    ) -> Result<(), NoMemory>
        requires few { length devices.old.items < 2 ^ 64 }
        ensures ok { OnOk result (RunOf (IsRepeat frame) (outside self.old (map (λ d. state d) devices.old.items))
            (outside self.new (map (λ d. state d) devices.new.items)) out.old.items out.new.items) }
        ensures err { OnErr result (Stops (PrefixOf (IsRepeat frame)) (outside self.old (map (λ d. state d) devices.old.items))
            (map (λ d. state d) devices.new.items) out.old.items out.new.items) }
        ensures kept { length devices.new.items ≡ length devices.old.items }
    {
        let mut events = List::new(self.core.alloc());
        match self.core.repeat(frame, devices, draw, &mut events) {
            Ok(()) => deal_and_enter(&mut self.core, &events, devices, out),
            Err(fault) => refuse_repeat(&mut self.core, fault, out),
        }
    }
}

/// A frame is not repeated.
fn refuse_repeat(
    core: &mut OutsideCore,
    fault: RepeatFault,
    out: &mut List<Entry>,
) -> Result<(), NoMemory>
    ensures ok { OnOk result ((refused : Refused) × (fault ≡ fault_of refused) ×
        Enters (tells core.old (refusal_entries refused)) core.new out.old.items out.new.items) }
    ensures err { OnErr result (out.new.items ≡ out.old.items) }
{
    match fault {
        RepeatFault::NeverSent => core.refuse(Refusal::NeverSent, out),
        RepeatFault::Forgotten => core.refuse(Refusal::Forgotten, out),
        RepeatFault::Stale(later) => core.refuse(Refusal::Stale { later }, out),
        RepeatFault::NoMemory => Err(NoMemory),
    }
}
