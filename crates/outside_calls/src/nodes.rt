//! Nodes that join, and the links that the chip learns of them.

ghost use Rattle.std.specs.Prelude.{◌≡◌, ◌<◌, ◌^◌, ◌∷◌, [], length, map, OnOk, OnErr};
ghost use Rattle.mesh_sim.specs.Air.{is_joined};
ghost use Rattle.outside_model.specs.Events.{Joins, Discovers};
ghost use Rattle.outside_model.specs.Did.{Goes, GoesFor};
ghost use Rattle.outside_model.specs.Schedules.{IsOne};

use crate::Outside;
use crate::devices::listens_in;
use device_sim::Device;
use zw_base::{NoMemory, NodeId};

impl Outside {
    /// Whether a node is joined.
    pub fn is_joined(&self, node: NodeId) -> bool
        ensures { result ≡ is_joined self.now.air node }
    {
        self.core.is_joined(node)
    }

    /// A node joins in the air and to the chip: as one that listens where the list has a device of it that does.
    pub fn join(&mut self, node: NodeId, devices: &Vec<Box<dyn Device>>) -> Result<(), NoMemory>
        requires few { length devices.now.items < 2 ^ 64 }
        ensures ok { OnOk result (GoesFor (map (λ d. state d) devices.now.items) (IsOne (Joins node)) self.old self.new [] []) }
        ensures err { OnErr result (self.new ≡ self.old) }
    {
        let listening = listens_in(devices, node, self.core.alloc())?;
        self.core.join(node, listening);
        Ok(())
    }

    /// The chip's table becomes the live links between known nodes.
    pub fn discover(&mut self)
        ensures { Goes (Discovers ∷ []) self.old self.new [] [] }
    {
        self.core.discover();
    }
}
