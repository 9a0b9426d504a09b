//! Lines that set something of the air, the chip or time.

ghost use Rattle.std.specs.Prelude.{◌≡◌, ◌∷◌, [], OnOk, OnErr};
ghost use Rattle.outside_model.specs.Events.{Links, Loses, Loses_acks, Collides_next, Stalls, Cuts, Host_begins};
ghost use Rattle.outside_model.specs.Did.{Goes};

use crate::Outside;
use zw_base::{NoMemory, NodeId};

impl Outside {
    /// Two nodes hear each other, or no longer.
    pub fn set_link(&mut self, a: NodeId, b: NodeId, live: bool)
        ensures { Goes (Links a b live ∷ []) self.old self.new [] [] }
    {
        self.core.set_link(a, b, live);
    }

    /// So many more frames are to be lost.
    pub fn lose(&mut self, count: u32) -> Result<(), NoMemory>
        ensures ok { OnOk result (Goes (Loses count ∷ []) self.old self.new [] []) }
        ensures err { OnErr result (self.new ≡ self.old) }
    {
        self.core.lose(count)
    }

    /// So many more acknowledgements are to be lost.
    pub fn lose_ack(&mut self, count: u32) -> Result<(), NoMemory>
        ensures ok { OnOk result (Goes (Loses_acks count ∷ []) self.old self.new [] []) }
        ensures err { OnErr result (self.new ≡ self.old) }
    {
        self.core.lose_ack(count)
    }

    /// The chip is to answer a good frame by CAN.
    pub fn collide(&mut self) -> Result<(), NoMemory>
        ensures ok { OnOk result (Goes (Collides_next ∷ []) self.old self.new [] []) }
        ensures err { OnErr result (self.new ≡ self.old) }
    {
        self.core.collide()
    }

    /// No byte moves until so many ticks passed; of two stalls the longer holds.
    pub fn stall(&mut self, ticks: u32) -> Result<(), NoMemory>
        ensures ok { OnOk result (Goes (Stalls ticks ∷ []) self.old self.new [] []) }
        ensures err { OnErr result (self.new ≡ self.old) }
    {
        self.core.stall(ticks)
    }

    /// Bytes move in pieces of so many; 0 is no cutting.
    pub fn cut(&mut self, size: u32)
        ensures { Goes (Cuts size ∷ []) self.old self.new [] [] }
    {
        self.core.cut(size);
    }

    /// From now on so many sessions of a node have begun, and never fewer than before.
    pub fn set_begun(&mut self, node: NodeId, sessions: u64)
        ensures { Goes (Host_begins node sessions ∷ []) self.old self.new [] [] }
    {
        self.core.set_begun(node, sessions);
    }
}
