//! What is outside the host, but for the devices; and time.

ghost use Rattle.std.specs.Prelude.{◌≡◌, ◌∷◌, [], OnOk, OnErr, IfOk};
ghost use Rattle.outside_model.specs.State.{first_outer, is_stalled};
ghost use Rattle.outside_model.specs.Events.{Begins_line, Begins_tick, Host_notes};
ghost use Rattle.outside_model.specs.Did.{Goes};

use outside_step::OutsideCore;
use std::alloc::Global;
use std::marker::Model;
use zw_base::{List, NoMemory};
use zw_text::Entry;

/// Chip, air, the two directions of the serial line, and time. Contracts see an `OuterState`.
#[derive(Drop)]
pub struct Outside {
    pub(crate) core: OutsideCore,
}

impl Model for Outside {
    ghost use Rattle.std.specs.Coded.{codes};
    ghost use Rattle.route_table.specs.Network.{network_code};
    ghost use Rattle.outside_model.specs.State.{OuterState};

    ghost Value = { OuterState };

    ghost coded = { Prim.hlevel (codes, network_code) };

    ghost view = { λ o. o.core };
}

impl Outside {
    /// The outside at clock 0: node 2 is joined, listens, and is linked to node 1.
    pub fn new(alloc: Global) -> Result<Outside, NoMemory>
        ensures { IfOk result (λ outer. outer ≡ first_outer) }
    {
        Ok(Outside {
            core: OutsideCore::new(alloc)?,
        })
    }

    /// How many ticks began.
    pub fn clock(&self) -> u64
        ensures { result ≡ self.now.clock }
    {
        self.core.clock()
    }

    /// A line begins, outside any tick.
    pub fn begin_line(&mut self)
        ensures { Goes (Begins_line ∷ []) self.old self.new [] [] }
    {
        self.core.begin_line();
    }

    /// A tick begins.
    pub fn begin_tick(&mut self) -> Result<(), NoMemory>
        ensures ok { OnOk result (Goes (Begins_tick ∷ []) self.old self.new [] []) }
        ensures err { OnErr result (self.new ≡ self.old) }
    {
        self.core.begin_tick()
    }

    /// Whether no byte moves.
    pub fn is_stalled(&self) -> bool
        ensures { result ≡ is_stalled self.now }
    {
        self.core.is_stalled()
    }

    /// An entry of the host.
    pub fn note(&mut self, entry: Entry, out: &mut List<Entry>) -> Result<(), NoMemory>
        ensures ok { OnOk result (Goes (Host_notes entry ∷ []) self.old self.new out.old.items out.new.items) }
        ensures no_entries { OnErr result (out.new.items ≡ out.old.items) }
    {
        self.core.note(entry, out)
    }
}
