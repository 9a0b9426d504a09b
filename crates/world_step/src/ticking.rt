//! Ticks of 100 ms.

ghost use Rattle.std.specs.Prelude.{◌≡◌, ◌≤◌, ℕ, ◌<◌, ◌^◌, length, map, List as Items, Option, OnOk, OnErr};
ghost use Rattle.s0_crypto.specs.declared.key_pair.Keys.{Keys};
ghost use Rattle.device_sim.specs.State.{State};
ghost use Rattle.world_model.specs.Did.{Does, Nothing, Stops};
ghost use Rattle.world_model.specs.Prefixes.{OutsideTickPrefix, TickPrefix, TicksPrefix};
ghost use Rattle.world_model.specs.Ticking.{IsOutsideTick, IsHostTick, IsTick, Ticks};
ghost use Rattle.world_step.specs.Scene.{scene_of};
ghost use Rattle.host_core.specs.Calls.{shelf_of};

use crate::Sides;
use crate::routing::route;
use device_sim::Device;
use host_keep::Keeper;
use zw_base::{Draw, List, NoMemory};
use zw_text::Entry;

impl Sides {
    /// So many ticks pass.
    pub fn ticks<D: Draw, P: Keeper>(
        &mut self,
        count: u32,
        devices: &mut Vec<Box<dyn Device>>,
        draw: &mut D,
        keeper: &mut P,
        out: &mut List<Entry>,
    ) -> Result<(), NoMemory>
        requires few { length devices.old.items < 2 ^ 64 }
        ensures ok { OnOk result ((keys : Keys) →
            Does (Ticks count) (scene_of keys self.old.host self.old.outer (map (λ d. state d) devices.old.items)
            (P.shelf keeper.old) out.old.items)
            (scene_of keys self.new.host self.new.outer (map (λ d. state d) devices.new.items) (P.shelf keeper.new) out.new.items)) }
        ensures err { OnErr result ((keys : Keys) →
            Stops (TicksPrefix count) (scene_of keys self.old.host self.old.outer (map (λ d. state d) devices.old.items)
            (P.shelf keeper.old) out.old.items)
            (scene_of keys self.new.host self.new.outer (map (λ d. state d) devices.new.items) (P.shelf keeper.new) out.new.items)) }
        ensures kept { length devices.new.items ≡ length devices.old.items }
        ensures never_fewer { P.number keeper.old ≤ P.number keeper.new }
        ensures reads { P.reads keeper.new ≡ P.reads keeper.old }
    {
        for _ in 0..count {
            self.tick(devices, draw, keeper, out)?;
        }
        Ok(())
    }

    // One tick passes: what is outside the host ticks, then the host, and the whole settles.
    fn tick<D: Draw, P: Keeper>(
        &mut self,
        devices: &mut Vec<Box<dyn Device>>,
        draw: &mut D,
        keeper: &mut P,
        out: &mut List<Entry>,
    ) -> Result<(), NoMemory>
        requires few { length devices.old.items < 2 ^ 64 }
        ensures ok { OnOk result ((keys : Keys) →
            Does IsTick (scene_of keys self.old.host self.old.outer (map (λ d. state d) devices.old.items)
            (P.shelf keeper.old) out.old.items)
            (scene_of keys self.new.host self.new.outer (map (λ d. state d) devices.new.items) (P.shelf keeper.new) out.new.items)) }
        ensures err { OnErr result ((keys : Keys) →
            Stops TickPrefix (scene_of keys self.old.host self.old.outer (map (λ d. state d) devices.old.items)
            (P.shelf keeper.old) out.old.items)
            (scene_of keys self.new.host self.new.outer (map (λ d. state d) devices.new.items) (P.shelf keeper.new) out.new.items)) }
        ensures kept { length devices.new.items ≡ length devices.old.items }
        ensures never_fewer { P.number keeper.old ≤ P.number keeper.new }
        ensures reads { P.reads keeper.new ≡ P.reads keeper.old }
    {
        self.outer.begin_tick()?;
        self.tick_outside(devices, draw, out)?;
        self.tick_host(draw, keeper, out)?;
        self.settle(draw, keeper, out)
    }

    // Frames arrive, results are given to the chip, and devices and chip tick.
    fn tick_outside<D: Draw>(
        &mut self,
        devices: &mut Vec<Box<dyn Device>>,
        draw: &mut D,
        out: &mut List<Entry>,
    ) -> Result<(), NoMemory>
        requires few { length devices.old.items < 2 ^ 64 }
        ensures ok { OnOk result ((keys : Keys) (records : Option (Items (Items ℕ))) (faults : ℕ) →
            Does IsOutsideTick (scene_of keys self.old.host self.old.outer
            (map (λ d. state d) devices.old.items) (shelf_of records faults) out.old.items)
            (scene_of keys self.new.host self.new.outer (map (λ d. state d) devices.new.items) (shelf_of records faults) out.new.items)) }
        ensures err { OnErr result ((keys : Keys) (records : Option (Items (Items ℕ))) (faults : ℕ) →
            Stops OutsideTickPrefix (scene_of keys self.old.host self.old.outer
            (map (λ d. state d) devices.old.items) (shelf_of records faults) out.old.items)
            (scene_of keys self.new.host self.new.outer (map (λ d. state d) devices.new.items) (shelf_of records faults) out.new.items)) }
        ensures kept { length devices.new.items ≡ length devices.old.items }
    {
        self.outer.deliver(devices, draw, out)?;
        self.outer.give_due(devices, out)?;
        self.outer.tick_devices(devices, draw, out)?;
        self.outer.tick_chip(out)
    }

    // The host ticks.
    fn tick_host<D: Draw, P: Keeper>(
        &mut self,
        draw: &mut D,
        keeper: &mut P,
        out: &mut List<Entry>,
    ) -> Result<(), NoMemory>
        ensures ok { OnOk result ((keys : Keys) (ds : Items State) →
            Does IsHostTick (scene_of keys self.old.host self.old.outer ds (P.shelf keeper.old) out.old.items)
            (scene_of keys self.new.host self.new.outer ds (P.shelf keeper.new) out.new.items)) }
        ensures err { OnErr result ((keys : Keys) (ds : Items State) →
            Stops Nothing (scene_of keys self.old.host self.old.outer ds (P.shelf keeper.old) out.old.items)
            (scene_of keys self.new.host self.new.outer ds (P.shelf keeper.new) out.new.items)) }
        ensures never_fewer { P.number keeper.old ≤ P.number keeper.new }
        ensures reads { P.reads keeper.new ≡ P.reads keeper.old }
    {
        let mut outs = List::new(self.alloc);
        self.host.tick(draw, &mut outs, keeper)?;
        route(self.alloc, outs, &mut self.outer, out)
    }
}
