//! The host and what is asked of it.

ghost use Rattle.std.specs.Prelude.{◌≡◌, ◌<◌, length, IfOk, OnErr, OnSome};
ghost use Rattle.std.specs.Option.{option_copied};
ghost use Rattle.serial_frame.specs.Stream.{no_rest, IsRest, FeedsOne};
ghost use Rattle.s0_session.specs.Nonces.{live_of, given_of};
ghost use Rattle.value_store.specs.Values.{held_of, known_of};
ghost use Rattle.value_store.specs.ValueText.{values_text};
ghost use Rattle.host_node.specs.Search.{next_of, first_wanting as least_wanting, ticking_above as least_ticking};
ghost use Rattle.host_model.specs.State.{first_host, node_of, command_at as the_command};
ghost use Rattle.host_model.specs.After.{is_busy as busy, is_full as full};
ghost use Rattle.host_model.specs.Facts.{HostFacts};

use host_model::facts_are_kept;
use host_node::{Node, Nodes};
use host_parts::{Command, is_busy};
use host_requests::{QUEUE_CAPACITY, Requests};
use s0_crypto::Keys;
use s0_session::NonceBook;
use serial_frame::{Decoder, Item};
use serial_link::Link;
use std::alloc::Global;
use std::marker::Model;
use value_store::{Held, Store, Stored};
use zw_base::{Bytes, List, NoMemory, NodeId, Property, read_node};

/// The classes of node 2, which is known from the beginning: Switch Binary, Association, Supervision.
const FIRST_CLASSES: [u8; 3] = [0x25, 0x85, 0x6C];

/// The node that is joined from the beginning.
const FIRST_NODE: u8 = 2;

/// The controller's own node, which counts as the one served last at the beginning.
const CONTROLLER: u8 = 1;

/// The host. Contracts see what is unfinished of the chip's bytes, and a `HostState`.
#[derive(Drop)]
pub struct HostCore {
    pub(crate) alloc: Global,
    pub(crate) keys: Keys,
    pub(crate) link: Link,
    pub(crate) requests: Requests,
    pub(crate) served: u8,
    pub(crate) nodes: Nodes,
    pub(crate) commands: Vec<Command>,
    pub(crate) nonces: NonceBook,
    pub(crate) store: Store,
}

impl Model for HostCore {
    ghost use Rattle.std.specs.Coded.{codes};
    ghost use Rattle.value_store.specs.Values.{values_code};
    ghost use Rattle.host_model.specs.State.{HostParts};
    ghost use Rattle.host_model.specs.Facts.{HostFacts};

    ghost Value = { HostParts };

    ghost coded = { Prim.hlevel (codes, values_code) };

    ghost use Rattle.host_step.specs.Inside.{parts_of, state_of};

    ghost view = { parts_of };

    ghost invariant = { λ c. HostFacts (state_of c) };
}

impl HostCore {
    /// A host at the beginning: node 2 is joined, was interviewed and listens.
    #[tactic(auto, unfolding(host_model::specs::State::first_nodes))]
    pub fn new(alloc: Global, keys: Keys) -> Result<HostCore, NoMemory>
        ensures { IfOk result (λ core.
            core ≡ record { decoder = no_rest; state = first_host keys }) }
    {
        facts_are_kept();
        let first = read_node(FIRST_NODE).unwrap();
        let mut nodes = Nodes::new(alloc)?;
        nodes.join(first);
        nodes.interviewed(first, true, Bytes::from_slice(alloc, &FIRST_CLASSES)?);
        Ok(HostCore {
            alloc,
            keys,
            link: Link::new(alloc)?,
            requests: Requests::new(alloc)?,
            served: CONTROLLER,
            nodes,
            commands: Vec::new(alloc),
            nonces: NonceBook::new(alloc)?,
            store: Store::new(alloc),
        })
    }

    /// Where memory is taken from.
    pub fn alloc(&self) -> Global {
        self.alloc
    }

    /// The keys of the network.
    pub fn keys(&self) -> &Keys
        ensures { result.now ≡ self.now.state.keys }
    {
        &self.keys
    }

    /// What is kept of a node.
    pub fn node(&self, node: NodeId) -> &Node
        ensures value { result.now ≡ node_of self.now.state node }
        ensures facts { HostFacts self.now.state }
    {
        self.nodes.of(node)
    }

    /// The request under way and those that wait.
    pub fn requests(&self) -> &Requests
        ensures { result.now ≡ self.now.state.requests }
    {
        &self.requests
    }

    /// True where 64 tasks wait.
    pub fn is_full(&self) -> bool
        ensures { result ≡ full self.now.state }
    {
        self.requests.len() >= QUEUE_CAPACITY
    }

    /// True while a frame of the host's own is neither acknowledged nor given up.
    pub fn is_busy(&self) -> bool
        ensures { result ≡ busy self.now.state.side.turn }
    {
        is_busy(&self.link)
    }

    /// How many commands were accepted.
    pub fn commands(&self) -> usize
        ensures { result ≡ length self.now.state.commands }
    {
        self.commands.len()
    }

    /// The command of that number, from 1.
    pub fn command_at(&self, number: u32) -> Option<&Command>
        ensures { option_copied result ≡
            the_command self.now.state.commands number }
    {
        if number == 0 {
            return None;
        }
        self.commands.get(number as usize - 1)
    }

    /// The nonce that is live for a node.
    pub fn live(&self, node: NodeId) -> Option<[u8; 8]>
        ensures { result ≡ live_of self.now.state.nonces node }
    {
        self.nonces.live(node)
    }

    /// How many nonces were given to a node.
    pub fn given(&self, node: NodeId) -> u64
        ensures { result ≡ given_of self.now.state.nonces node }
    {
        self.nonces.given(node)
    }

    /// The number of the node that was served last.
    pub fn served(&self) -> u8
        ensures { result ≡ self.now.state.served }
    {
        self.served
    }

    /// The next node with work after the one that was served last, in cyclic order.
    pub fn next_with_work(&self) -> Option<NodeId>
        ensures { result ≡ next_of self.now.state.nodes self.now.state.served }
    {
        self.nodes.next_with_work(self.served)
    }

    /// The least node that is to be told that there is no more for it.
    pub fn first_wanting(&self) -> Option<NodeId>
        ensures { result ≡ least_wanting self.now.state.nodes }
    {
        self.nodes.first_wanting()
    }

    /// The least node above a number that has a wait or is blocked.
    pub fn ticking_above(&self, number: u8) -> Option<NodeId>
        ensures { result ≡ least_ticking self.now.state.nodes number }
    {
        self.nodes.ticking_above(number)
    }

    /// The values of a property, `None` exactly where it has none.
    pub fn stored(&self, node: NodeId, property: Property) -> Option<Stored>
        ensures { result ≡ known_of self.now.state.store node property }
    {
        self.store.get(node, property)
    }

    /// The properties of a node that have a value, in their order.
    pub fn values(&self, alloc: Global, node: NodeId) -> Result<List<Held>, NoMemory>
        ensures { IfOk result (λ held.
            held.items ≡ held_of self.now.state.store node) }
    {
        self.store.list(alloc, node)
    }

    /// The same as JSON with no space.
    pub fn json(&self, alloc: Global, node: NodeId) -> Result<Bytes, NoMemory>
        ensures { IfOk result (λ text.
            text ≡ values_text node (held_of self.now.state.store node)) }
    {
        self.store.to_json(alloc, node)
    }

    /// What is unfinished of the chip's bytes.
    pub fn decoder(&self) -> Decoder
        ensures state { result ≡ self.now.decoder }
        ensures is_rest { IsRest result }
    {
        self.link.decoder()
    }

    /// Goes back to what was unfinished before an item that is not judged now.
    pub fn go_back(&mut self, decoder: Decoder)
        requires { IsRest decoder }
        ensures { self.new ≡ record self.old { decoder = decoder } }
    {
        self.link.go_back(decoder);
    }

    /// Takes the bytes up to the end of the first item, which is to be judged, or all of them. The answer is that item and
    /// the bytes that were not taken.
    pub fn next_item<'a>(&mut self, piece: &'a [u8]) -> Result<(Option<Item>, &'a [u8]), NoMemory>
        ensures feeds { IfOk result (λ found.
            FeedsOne self.old.decoder piece.now
            self.new.decoder found.0 found.1.now) }
        ensures shorter { IfOk result (λ found.
            OnSome found.0 (length found.1.now < length piece.now)) }
        ensures state { self.new.state ≡ self.old.state }
        ensures err { OnErr result (self.new ≡ self.old) }
    {
        self.link.next_item(piece)
    }
}
