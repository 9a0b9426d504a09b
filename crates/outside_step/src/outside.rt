//! What is outside the host, but for the devices.

ghost use Rattle.std.specs.Prelude.{◌≡◌, ◌+◌, ◌≤◌, true, false, OnOk, OnErr, IfOk};
ghost use Rattle.serial_frame.specs.Stream.{no_rest};
ghost use Rattle.chip_sim.specs.State.{fresh_chip};
ghost use Rattle.chip_sim.specs.Events.{Joined, Linked, after};
ghost use Rattle.mesh_sim.specs.Air.{first_air, joining, linking};
ghost use Rattle.outside_model.specs.State.{first_outer, is_stalled};

use chip_sim::Chip;
use mesh_sim::Air;
use outside_model::{Call, Due};
use serial_pipes::Way;
use std::alloc::Global;
use std::marker::Model;
use zw_base::{NoMemory, NodeId, read_node};

/// Chip, air, the two directions of the serial line, and time. Contracts see an `OuterState`.
#[derive(Drop)]
pub struct OutsideCore {
    pub(crate) alloc: Global,
    pub(crate) chip: Chip,
    pub(crate) air: Air,
    pub(crate) to_chip: Way,
    pub(crate) to_host: Way,
    pub(crate) piece: usize,
    pub(crate) stalled_until: u64,
    pub(crate) clock: u64,
    pub(crate) in_tick: bool,
    pub(crate) stamped: bool,
    pub(crate) due: Vec<Due>,
    pub(crate) calls: Vec<Call>,
}

impl Model for OutsideCore {
    ghost use Rattle.std.specs.Coded.{codes};
    ghost use Rattle.route_table.specs.Network.{network_code};
    ghost use Rattle.outside_model.specs.State.{OuterState};

    ghost Value = { OuterState };

    ghost coded = { Prim.hlevel (codes, network_code) };

    ghost view = { λ o. record {
      chip = o.chip;
      air = o.air.state;
      to_chip = o.to_chip;
      to_host = o.to_host;
      piece = o.piece;
      stalled_until = o.stalled_until;
      clock = o.clock;
      in_tick = o.in_tick;
      stamped = o.stamped;
      due = o.due.items;
      calls = o.calls.items;
    } };
}

/// The node of that number, which is one.
fn node(number: u8) -> NodeId
    requires { (1 ≤ number) × (number ≤ 232) }
    ensures { result ≡ number }
{
    match read_node(number) {
        Some(node) => node,
        None => unreachable!(),
    }
}

/// The chip at the beginning: node 2 is joined, listens, and is linked to node 1.
fn first_chip(alloc: Global) -> Result<Chip, NoMemory>
    ensures decoder { IfOk result (λ chip. chip.decoder ≡ no_rest) }
    ensures state { IfOk result (λ chip. chip.state ≡ after (after fresh_chip (Joined 2 true)) (Linked 1 2 true)) }
{
    let mut chip = Chip::new(alloc)?;
    chip.join(node(2), true);
    chip.set_link(node(1), node(2), true);
    Ok(chip)
}

/// The air at the beginning, likewise.
fn first_air(alloc: Global) -> Result<Air, NoMemory>
    ensures { IfOk result (λ air. air.state ≡ linking (joining first_air 2 true) 1 2 true) }
{
    let mut air = Air::new(alloc)?;
    air.join(node(2), true);
    air.set_link(node(1), node(2), true);
    Ok(air)
}

impl OutsideCore {
    /// All of it at clock 0: node 2 is joined, listens, and is linked to node 1.
    pub fn new(alloc: Global) -> Result<OutsideCore, NoMemory>
        ensures { IfOk result (λ core. core ≡ first_outer) }
    {
        let to_chip = Way::new(alloc)?;
        let to_host = Way::new(alloc)?;
        let air = first_air(alloc)?;
        Ok(OutsideCore {
            alloc,
            chip: first_chip(alloc)?,
            air,
            to_chip,
            to_host,
            piece: 0,
            stalled_until: 0,
            clock: 0,
            in_tick: false,
            stamped: false,
            due: Vec::new(alloc),
            calls: Vec::new(alloc),
        })
    }

    /// Where memory is taken from.
    pub fn alloc(&self) -> Global {
        self.alloc
    }

    /// How many ticks began.
    pub fn clock(&self) -> u64
        ensures { result ≡ self.now.clock }
    {
        self.clock
    }

    /// A line begins, outside any tick.
    pub fn begin_line(&mut self)
        ensures { self.new ≡ record self.old { in_tick = false } }
    {
        self.in_tick = false;
    }

    /// A tick begins.
    pub fn begin_tick(&mut self) -> Result<(), NoMemory>
        ensures ok { OnOk result (self.new ≡ record self.old { clock = self.old.clock + 1; in_tick = true; stamped = false }) }
        ensures err { OnErr result (self.new ≡ self.old) }
    {
        if self.clock == u64::MAX {
            return Err(NoMemory);
        }
        self.clock += 1;
        self.in_tick = true;
        self.stamped = false;
        Ok(())
    }

    /// Whether no byte moves.
    pub fn is_stalled(&self) -> bool
        ensures { result ≡ is_stalled self.now }
    {
        self.clock < self.stalled_until
    }
}
