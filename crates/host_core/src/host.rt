//! The host.

ghost use Rattle.std.specs.Prelude.{◌≡◌, ◌≤◌, ℕ, List as Items, Option, IfOk, OnOk, OnErr};
ghost use Rattle.serial_frame.specs.Stream.{after_tick, no_rest};
ghost use Rattle.s0_crypto.specs.Sealing.{keys_of};
ghost use Rattle.supervision.specs.Host.{begun_of, command_at as command_of_session};
ghost use Rattle.value_store.specs.Values.{held_of, known_of};
ghost use Rattle.value_store.specs.ValueText.{values_text};
ghost use Rattle.host_model.specs.State.{first_host, node_of, command_at};
ghost use Rattle.host_model.specs.Pumping.{Pumps};
ghost use Rattle.host_model.specs.Taking.{Fed, FedPrefix};
ghost use Rattle.host_model.specs.Ticking.{tick_events};
ghost use Rattle.host_step_bytes.specs.Calls.{seen, Are, Does, Stops};
ghost use Rattle.host_core.specs.Orders.{outcome_at};
ghost use Rattle.host_core.specs.Recorded.{TablesAreTold};

use crate::laws::tables_stand_in_the_records;
use crate::pumping::pump;
use crate::ticking::tick;
use host_keep::Keeper;
use host_model::HostOut;
use host_step_kept::HostCore;
use s0_crypto::keys;
use std::alloc::Global;
use std::marker::Model;
use value_store::{Held, Stored};
use zw_base::{Bytes, Draw, List, NoMemory, NodeId, Property};
use zw_text::Outcome;

/// The host: commands, sessions, requests and values of 231 nodes, after one serial link. Contracts see what is unfinished of
/// the chip's bytes, and a `HostState`.
#[derive(Drop)]
pub struct Host {
    pub(crate) core: HostCore,
}

impl Model for Host {
    ghost use Rattle.std.specs.Coded.{codes};
    ghost use Rattle.value_store.specs.Values.{values_code};
    ghost use Rattle.host_model.specs.State.{HostParts};

    ghost Value = { HostParts };

    ghost coded = { Prim.hlevel (codes, values_code) };

    ghost view = { λ h. h.core };
}

impl Host {
    /// A host at the beginning: node 2 is joined, was interviewed and listens. The keys are made of the network's key.
    pub fn new(alloc: Global, key: [u8; 16]) -> Result<Host, NoMemory>
        ensures first { IfOk result (λ host.
            host ≡ record { decoder = no_rest; state = first_host (keys_of key) }) }
        ensures tables { IfOk result (λ host.
            (told : Option (Items (Items ℕ))) →
            TablesAreTold told host.state) }
    {
        tables_stand_in_the_records();
        Ok(Host {
            core: HostCore::new(alloc, keys(key))?,
        })
    }

    /// Lets sleep what nothing keeps awake, and submits the next requests, until one is under way or none may be.
    pub fn pump<D: Draw, P: Keeper>(
        &mut self,
        _draw: &mut D,
        out: &mut List<HostOut>,
        keeper: &mut P,
    ) -> Result<(), NoMemory>
        ensures ok { OnOk result (Does (Pumps self.old.state)
            (seen P.shelf self.old out.old keeper.old)
            (seen P.shelf self.new out.new keeper.new)) }
        ensures decoder { self.new.decoder ≡ self.old.decoder }
        ensures err { OnErr result (Stops
            (seen P.shelf self.old out.old keeper.old)
            (seen P.shelf self.new out.new keeper.new)) }
        ensures never_fewer { P.number keeper.old ≤ P.number keeper.new }
        ensures reads { P.reads keeper.new ≡ P.reads keeper.old }
        ensures tables { TablesAreTold
            (P.shelf keeper.old).records self.old.state →
            TablesAreTold (P.shelf keeper.new).records self.new.state }
    {
        tables_stand_in_the_records();
        pump(&mut self.core, out, keeper)
    }

    /// Takes bytes of the chip, in any pieces. Each item that ends in them is judged.
    pub fn feed<D: Draw, P: Keeper>(
        &mut self,
        piece: &[u8],
        draw: &mut D,
        out: &mut List<HostOut>,
        keeper: &mut P,
    ) -> Result<(), NoMemory>
        ensures ok { OnOk result
            (Fed self.old piece.now self.new out.old.items out.new.items
            (P.shelf keeper.old) (P.shelf keeper.new)) }
        ensures err { OnErr result
            (FedPrefix self.old piece.now self.new out.old.items out.new.items
            (P.shelf keeper.old) (P.shelf keeper.new)) }
        ensures never_fewer { P.number keeper.old ≤ P.number keeper.new }
        ensures reads { P.reads keeper.new ≡ P.reads keeper.old }
        ensures tables { TablesAreTold
            (P.shelf keeper.old).records self.old.state →
            TablesAreTold (P.shelf keeper.new).records self.new.state }
    {
        tables_stand_in_the_records();
        host_step_bytes::feed(&mut self.core, piece, draw, out, keeper)
    }

    /// A tick of 100 ms passes: of the line, of the request under way, and of the nodes that have a wait. It asks no keeper.
    pub fn tick<D: Draw, P: Keeper>(
        &mut self,
        _draw: &mut D,
        out: &mut List<HostOut>,
        _keeper: &mut P,
    ) -> Result<(), NoMemory>
        ensures ok { OnOk result (Does (Are (tick_events self.old.state))
            (seen P.shelf self.old out.old _keeper.old)
            (seen P.shelf self.new out.new _keeper.new)) }
        ensures decoder { OnOk result (self.new.decoder ≡
            after_tick self.old.decoder) }
        ensures err { OnErr result (Stops
            (seen P.shelf self.old out.old _keeper.old)
            (seen P.shelf self.new out.new _keeper.new)) }
        ensures never_fewer { P.number _keeper.old ≤ P.number _keeper.new }
        ensures reads { P.reads _keeper.new ≡ P.reads _keeper.old }
        ensures tables { TablesAreTold
            (P.shelf _keeper.old).records self.old.state →
            TablesAreTold (P.shelf _keeper.new).records self.new.state }
    {
        tables_stand_in_the_records();
        tick(&mut self.core, out)?;
        Ok(())
    }

    /// What became of a command; `None` outside 1 to the last number given.
    pub fn outcome(&self, command: u32) -> Option<Outcome>
        ensures { result ≡ outcome_at
            (command_at self.now.state.commands command) }
    {
        match self.core.command_at(command) {
            Some(found) => Some(found.outcome()),
            None => None,
        }
    }

    /// How many sessions of a node were begun.
    pub fn sessions(&self, node: NodeId) -> u64
        ensures { result ≡ begun_of (node_of self.now.state node).book }
    {
        self.core.node(node).sessions()
    }

    /// The command of a session, 1 to `sessions`.
    pub fn command_of(&self, node: NodeId, session: u64) -> Option<u32>
        ensures { result ≡ command_of_session
            (node_of self.now.state node).book.commands session }
    {
        self.core.node(node).command_of(session)
    }

    /// The values of a property, `None` exactly where it has none.
    pub fn stored(&self, node: NodeId, property: Property) -> Option<Stored>
        ensures { result ≡ known_of self.now.state.store node property }
    {
        self.core.stored(node, property)
    }

    /// The properties of a node that have a value, in their order.
    pub fn values(&self, alloc: Global, node: NodeId) -> Result<List<Held>, NoMemory>
        ensures { IfOk result (λ held.
            held.items ≡ held_of self.now.state.store node) }
    {
        self.core.values(alloc, node)
    }

    /// The same as JSON with no space.
    pub fn json(&self, alloc: Global, node: NodeId) -> Result<Bytes, NoMemory>
        ensures { IfOk result (λ text.
            text ≡ values_text node (held_of self.now.state.store node)) }
    {
        self.core.json(alloc, node)
    }

    /// Whether a node is joined. The controller is not.
    pub fn is_joined(&self, node: NodeId) -> bool
        ensures { result ≡ (node_of self.now.state node).joined }
    {
        self.core.node(node).is_joined()
    }
}
