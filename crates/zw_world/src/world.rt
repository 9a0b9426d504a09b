//! The world, and its lines.

ghost use Rattle.std.specs.Prelude.{◌≡◌, ◌<◌, ◌^◌, length, map, IfOk, OnOk, OnErr, false};
ghost use Rattle.world_model.specs.Did.{Does, Stops};
ghost use Rattle.world_model.specs.Prefixes.{LineRestPrefix, LinePrefix};
ghost use Rattle.world_model.specs.Lines.{IsLine, IsLineRest};
ghost use Rattle.zw_world.specs.Keeping.{GoesOn, KeepsOrRefuses};
ghost use Rattle.zw_world.specs.World.{first_world, scene};

use device_sim::Device;
use host_core::Host;
use host_keep::Keeper;
use outside_calls::Outside;
use std::alloc::Global;
use std::marker::Model;
use world_step::Sides;
use zw_base::{Draw, List, NoMemory};
use zw_text::{Entry, Line};

/// A host, and all that is outside it but for the devices. Contracts see a `WorldState`.
#[derive(Drop)]
pub struct World {
    pub(crate) key: [u8; 16],
    pub(crate) sides: Sides,
}

impl Model for World {
    ghost use Rattle.std.specs.Coded.{codes};
    ghost use Rattle.value_store.specs.Values.{values_code};
    ghost use Rattle.route_table.specs.Network.{network_code};
    ghost use Rattle.s0_crypto.specs.Sealing.{keys_of};
    ghost use Rattle.zw_world.specs.World.{WorldState};

    ghost Value = { WorldState };

    ghost coded = { Prim.hlevel (codes, values_code, network_code) };

    ghost view = { λ w. record { keys = keys_of w.key; host = w.sides.host; outer = w.sides.outer } };
}

impl World {
    /// A world at clock 0: node 2 is joined, was interviewed, listens, and is linked to node 1.
    pub fn new(alloc: Global, key: [u8; 16]) -> Result<World, NoMemory>
        ensures { IfOk result (λ world. world ≡ first_world key) }
    {
        Ok(World {
            key,
            sides: Sides {
                alloc,
                host: Host::new(alloc, key)?,
                outer: Outside::new(alloc)?,
            },
        })
    }

    /// Runs a line.
    pub fn step<D: Draw, P: Keeper>(
        &mut self,
        line: &Line,
        devices: &mut Vec<Box<dyn Device>>,
        draw: &mut D,
        keeper: &mut P,
        out: &mut List<Entry>,
    ) -> Result<(), NoMemory>
        requires few { length devices.old.items < 2 ^ 64 }
        ensures ok { OnOk result (Does (IsLine line.now)
            (scene self.old (map (λ d. state d) devices.old.items) (P.shelf keeper.old) out.old.items)
            (scene self.new (map (λ d. state d) devices.new.items) (P.shelf keeper.new) out.new.items)) }
        ensures err { OnErr result (Stops (LinePrefix line.now)
            (scene self.old (map (λ d. state d) devices.old.items) (P.shelf keeper.old) out.old.items)
            (scene self.new (map (λ d. state d) devices.new.items) (P.shelf keeper.new) out.new.items)) }
        ensures kept { length devices.new.items ≡ length devices.old.items }
        ensures goes_on { GoesOn (P.number keeper.old) (P.number keeper.new) (P.reads keeper.old) (P.reads keeper.new) }
        ensures keeps { OnOk result (KeepsOrRefuses line.now out.old.items out.new.items (P.number keeper.old) (P.number keeper.new)
            (P.reads keeper.old) (P.reads keeper.new)) }
    {
        self.sides.outer.begin_line();
        self.run_line(line, devices, draw, keeper, out)
    }

    // What follows the beginning of a line: so many ticks, or its own effect and a settling.
    fn run_line<D: Draw, P: Keeper>(
        &mut self,
        line: &Line,
        devices: &mut Vec<Box<dyn Device>>,
        draw: &mut D,
        keeper: &mut P,
        out: &mut List<Entry>,
    ) -> Result<(), NoMemory>
        requires few { length devices.old.items < 2 ^ 64 }
        ensures ok { OnOk result (Does (IsLineRest line.now)
            (scene self.old (map (λ d. state d) devices.old.items) (P.shelf keeper.old) out.old.items)
            (scene self.new (map (λ d. state d) devices.new.items) (P.shelf keeper.new) out.new.items)) }
        ensures err { OnErr result (Stops (LineRestPrefix line.now)
            (scene self.old (map (λ d. state d) devices.old.items) (P.shelf keeper.old) out.old.items)
            (scene self.new (map (λ d. state d) devices.new.items) (P.shelf keeper.new) out.new.items)) }
        ensures kept { length devices.new.items ≡ length devices.old.items }
        ensures goes_on { GoesOn (P.number keeper.old) (P.number keeper.new) (P.reads keeper.old) (P.reads keeper.new) }
        ensures keeps { OnOk result (self.old.outer.in_tick ≡ false →
            KeepsOrRefuses line.now out.old.items out.new.items
            (P.number keeper.old) (P.number keeper.new) (P.reads keeper.old) (P.reads keeper.new)) }
    {
        if let Line::Tick { count } = line {
            return self.sides.ticks(*count, devices, draw, keeper, out);
        }
        self.effect(line, devices, draw, keeper, out)?;
        self.sides.settle(draw, keeper, out)
    }
}
