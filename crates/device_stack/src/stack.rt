//! What every device owns.

ghost use Rattle.std.specs.Prelude.{◌≡◌, ℕ, length, slice_get, IfOk, OnOk, OnErr};
ghost use Rattle.device_stack.specs.State.{fresh};

use crate::work::Work;
use device_kinds::{Change, HOST, Journal, Kind, node as node_of};
use s0_crypto::SealEnds;
use s0_session::{Account, Sender};
use std::alloc::Global;
use std::marker::Model;
use supervision::DeviceBook;
use transport_segments::Assembler;
use zw_base::{NoMemory, NodeId};

/// A device of any kind: its sessions and its work, the nonces that it gives and what it seals, the datagram that comes in
/// segments, its clock in ticks of 100 ms, and its journal. Contracts see all that it is.
#[derive(Drop)]
pub struct Stack {
    pub(crate) alloc: Global,
    pub(crate) node: NodeId,
    pub(crate) kind: Kind,
    pub(crate) key: [u8; 16],
    pub(crate) sessions: DeviceBook,
    pub(crate) work_left: u8,
    pub(crate) work: Work,
    pub(crate) given: Account,
    pub(crate) sealing: Sender,
    pub(crate) reassembly: Assembler,
    pub(crate) clock: u64,
    pub(crate) active_at: u64,
    pub(crate) awake: bool,
    pub(crate) journal: Journal,
}

impl Model for Stack {
    ghost use Rattle.std.specs.Option.{ForSome};
    ghost use Rattle.device_stack.specs.State.{State};
    ghost use Rattle.device_kinds.specs.Worded.{IsShort};

    ghost Value = { State };

    ghost view = { λ s. record {
      node = s.node;
      kind = s.kind;
      key = s.key;
      sessions = s.sessions;
      work_left = s.work_left;
      work = s.work;
      given = s.given;
      sealing = s.sealing;
      reassembly = s.reassembly;
      clock = s.clock;
      active_at = s.active_at;
      awake = s.awake;
      journal = s.journal;
    } };

    ghost invariant = { λ s. ForSome s.sealing.pending IsShort };
}

impl Stack {
    /// A device of that node and kind with nothing taken, nothing given or seen, every value 0, and an empty journal.
    pub fn new(alloc: Global, node: NodeId, kind: Kind, key: [u8; 16]) -> Result<Stack, NoMemory>
        ensures { IfOk result (λ stack. stack ≡ fresh node kind key) }
    {
        let ends = SealEnds {
            sender: node,
            receiver: node_of(HOST),
        };
        Ok(Stack {
            alloc,
            node,
            kind,
            key,
            sessions: DeviceBook::new(),
            work_left: 0,
            work: Work::idle(alloc),
            given: Account::new(),
            sealing: Sender::new(alloc, ends),
            reassembly: Assembler::new(alloc)?,
            clock: 0,
            active_at: 0,
            awake: true,
            journal: Journal::new(alloc),
        })
    }

    pub fn node(&self) -> NodeId
        ensures { result ≡ self.now.node }
    {
        self.node
    }

    pub fn kind(&self) -> Kind
        ensures { result ≡ self.now.kind }
    {
        self.kind
    }

    /// Whether it hears what comes.
    pub fn awake(&self) -> bool
        ensures { result ≡ self.now.awake }
    {
        self.awake
    }

    /// How many changes it made.
    pub fn changes(&self) -> u64
        ensures { result ≡ length self.now.journal }
    {
        self.journal.len() as u64
    }

    /// The change at that place of the journal, counted from 0.
    pub fn change(&self, alloc: Global, at: u64) -> Result<Option<Change>, NoMemory>
        ensures { IfOk result (λ change. change ≡ slice_get self.now.journal at) }
    {
        self.journal.get(alloc, at)
    }
}
