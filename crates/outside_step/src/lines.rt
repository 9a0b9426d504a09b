//! What lines set of the air, the chip or time.

ghost use Rattle.std.specs.Prelude.{◌≡◌, ◌+◌, ◌<◌, max, OnOk, OnErr};
ghost use Rattle.chip_sim.specs.Events.{Collides, after};
ghost use Rattle.mesh_sim.specs.Air.{linking};
ghost use Rattle.outside_model.specs.State.{with_chip};
ghost use Rattle.outside_model.specs.Events.{begins};

use crate::OutsideCore;
use zw_base::{NoMemory, NodeId};

impl OutsideCore {
    /// Two nodes hear each other, or no longer.
    pub fn set_link(&mut self, a: NodeId, b: NodeId, live: bool)
        ensures { self.new ≡ record self.old { air = linking self.old.air a b live } }
    {
        self.air.set_link(a, b, live);
    }

    /// So many more frames are to be lost.
    pub fn lose(&mut self, count: u32) -> Result<(), NoMemory>
        ensures ok { OnOk result (self.new ≡ record self.old { air = record self.old.air { losing = self.old.air.losing + count } }) }
        ensures err { OnErr result (self.new ≡ self.old) }
    {
        if self.air.losing() > u64::MAX - u64::from(count) {
            return Err(NoMemory);
        }
        self.air.lose(count);
        Ok(())
    }

    /// So many more acknowledgements are to be lost.
    pub fn lose_ack(&mut self, count: u32) -> Result<(), NoMemory>
        ensures ok { OnOk result (self.new ≡ record self.old { air = record self.old.air { ack_losing = self.old.air.ack_losing + count } }) }
        ensures err { OnErr result (self.new ≡ self.old) }
    {
        if self.air.ack_losing() > u64::MAX - u64::from(count) {
            return Err(NoMemory);
        }
        self.air.lose_ack(count);
        Ok(())
    }

    /// The chip is to answer a good frame by CAN.
    pub fn collide(&mut self) -> Result<(), NoMemory>
        ensures ok { OnOk result (self.new ≡ with_chip self.old (after self.old.chip.state Collides)) }
        ensures err { OnErr result (self.new ≡ self.old) }
    {
        if !self.chip.can_collide() {
            return Err(NoMemory);
        }
        self.chip.collide();
        Ok(())
    }

    /// No byte moves until so many ticks passed; of two stalls the longer holds.
    pub fn stall(&mut self, ticks: u32) -> Result<(), NoMemory>
        ensures ok { OnOk result (self.new ≡ record self.old { stalled_until = max self.old.stalled_until (self.old.clock + ticks) }) }
        ensures err { OnErr result (self.new ≡ self.old) }
    {
        if self.clock > u64::MAX - u64::from(ticks) {
            return Err(NoMemory);
        }
        self.stalled_until = self.stalled_until.max(self.clock + u64::from(ticks));
        Ok(())
    }

    /// Bytes move in pieces of so many; 0 is no cutting.
    pub fn cut(&mut self, size: u32)
        ensures { self.new ≡ record self.old { piece = size } }
    {
        self.piece = size as usize;
    }

    /// From now on so many sessions of a node have begun, and never fewer than before.
    pub fn set_begun(&mut self, node: NodeId, sessions: u64)
        ensures { self.new ≡ record self.old { air = begins self.old.air node sessions } }
    {
        if self.air.begun(node) <= sessions {
            self.air.set_begun(node, sessions);
        }
    }
}
