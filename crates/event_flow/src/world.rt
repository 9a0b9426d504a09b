//! The events of all devices, and the frames between them and the host.

ghost use Rattle.std.specs.Prelude.{◌≡◌, ◌+◌, ◌-◌, ◌≤◌, ◌<◌, List as Items, [], ◌∷◌, ◌++◌, length, All, IfOk, OnOk, OnErr};
ghost use Rattle.std.specs.Option.{option_copied};
ghost use Rattle.event_flow.specs.State.{all_silent, frame_at};
ghost use Rattle.event_flow.specs.Steps.{after, delivered, entries, frame_entries, happens, listed, row_by, table_of};
ghost use Rattle.event_flow.specs.Flow.{Flow, NamesNode, after_all, run};
ghost use Rattle.event_flow.specs.declared.line.EventLine.{EventLine as AnyLine};

use crate::frame::{Effect, Frame, Notice, entry_of};
use crate::node_flow::NodeFlow;
use crate::{EventEntry, EventLine, EventRefusal};
use std::alloc::Global;
use std::marker::Model;
use zw_base::{List, NoMemory, NodeId, read_node};

/// How many nodes there are.
const NODES: usize = 232;

/// The events of all devices on their way to the host. Contracts see the nodes and the frames that were sent.
#[derive(Debug, Drop)]
pub struct EventWorld {
    nodes: Vec<NodeFlow>,
    frames: List<Frame>,
}

impl Model for EventWorld {
    ghost use Rattle.std.specs.Prelude.{◌≡◌, length};
    ghost use Rattle.event_flow.specs.State.{FlowState};

    ghost Value = { FlowState };

    ghost view = { λ w. record { nodes = w.nodes.items; frames = w.frames.items } };

    ghost invariant = { λ w. length w.nodes.items ≡ 232 };
}

impl EventWorld {
    /// Nothing happened at any node, and no frame was sent.
    #[tactic(auto, unfolding(crate::specs::State::all_silent))]
    pub fn new(alloc: Global) -> Result<EventWorld, NoMemory>
        ensures { IfOk result (λ world. world ≡ all_silent) }
    {
        let mut nodes = Vec::new(alloc);
        for _ in 0..NODES {
            nodes.push(NodeFlow::new(alloc))?;
        }
        Ok(EventWorld {
            nodes,
            frames: List::new(alloc),
        })
    }

    /// Runs one line, and enters what it brings about.
    pub fn step(&mut self, line: &EventLine, out: &mut List<EventEntry>) -> Result<(), NoMemory>
        ensures ok { OnOk result (self.new ≡ after self.old line.now) }
        ensures entries { OnOk result (out.new.items ≡ out.old.items ++ entries self.old line.now) }
        ensures err { OnErr result (self.new ≡ self.old) }
        ensures no_entries { OnErr result (out.new.items ≡ out.old.items) }

        // After these lines from the start, the transcript with this line too flows, and the world is the one after it.
        ensures flow { (lines : Items AnyLine) → All NamesNode (lines ++ line.now ∷ []) → self.old ≡ after_all all_silent lines →
            OnOk result (Flow (run all_silent (lines ++ line.now ∷ [])) × (self.new ≡ after_all all_silent (lines ++ line.now ∷ []))) }
    {
        self.run_line(line, out)
    }

    fn run_line(&mut self, line: &EventLine, out: &mut List<EventEntry>) -> Result<(), NoMemory>
        ensures ok { OnOk result (self.new ≡ after self.old line.now) }
        ensures entries { OnOk result (out.new.items ≡ out.old.items ++ entries self.old line.now) }
        ensures err { OnErr result (self.new ≡ self.old) }
        ensures no_entries { OnErr result (out.new.items ≡ out.old.items) }
    {
        out.reserve(2)?;
        self.frames.reserve(1)?;
        let effect = happen(&mut self.nodes, self.frames.as_slice(), line)?;
        enter(effect, &mut self.frames, out);
        Ok(())
    }

    /// Enters the table: a line for each node of which an event was queued.
    pub fn table(&self, out: &mut List<EventEntry>) -> Result<(), NoMemory>
        ensures ok { OnOk result (out.new.items ≡ out.old.items ++ table_of self.now) }
        ensures err { OnErr result (out.new.items ≡ out.old.items) }
    {
        out.reserve(self.nodes.len())?;
        for i in 0..NODES {
            put_row(&self.nodes[i], node_at(i), out);
        }
        Ok(())
    }
}

/// The place of a node in the table of nodes.
fn place_of(node: NodeId) -> usize
    ensures value { result ≡ node - 1 }
    ensures within { result < 232 }
{
    node.number() as usize - 1
}

/// The node at that place.
fn node_at(place: usize) -> NodeId
    requires { place < 232 }
    ensures { result ≡ place + 1 }
{
    read_node((place + 1) as u8).unwrap()
}

/// What a line brings about.
fn happen(nodes: &mut Vec<NodeFlow>, frames: &[Frame], line: &EventLine) -> Result<Effect, NoMemory>
    requires { length nodes.old.items ≡ 232 }
    ensures nodes { OnOk result (nodes.new.items ≡ (happens nodes.old.items frames.now line.now).nodes) }
    ensures effect { IfOk result (λ effect. effect ≡ (happens nodes.old.items frames.now line.now).effect) }
    ensures err { OnErr result (nodes.new.items ≡ nodes.old.items) }
{
    match line {
        EventLine::Event { node, kind, level } => {
            let notice = Notice {
                kind: *kind,
                level: *level,
            };
            nodes[place_of(*node)].queue(*node, notice)
        }
        EventLine::Again(node) => Ok(nodes[place_of(*node)].repeat(*node)),
        EventLine::Deliver(frame) => deliver(nodes, frame_of(frames, *frame)),
    }
}

/// The frame of that number, from 1 on.
fn frame_of(frames: &[Frame], number: u64) -> Option<&Frame>
    ensures { option_copied result ≡ frame_at frames.now number }
{
    let before = number.checked_sub(1)?;
    frames.get(before as usize)
}

/// The frame arrives, where it was sent.
fn deliver(nodes: &mut Vec<NodeFlow>, frame: Option<&Frame>) -> Result<Effect, NoMemory>
    requires { length nodes.old.items ≡ 232 }
    ensures nodes { OnOk result (nodes.new.items ≡ (delivered nodes.old.items (option_copied frame.entry)).nodes) }
    ensures effect { IfOk result (λ effect. effect ≡ (delivered nodes.old.items (option_copied frame.entry)).effect) }
    ensures err { OnErr result (nodes.new.items ≡ nodes.old.items) }
{
    match frame {
        Some(frame) => nodes[place_of(frame.node)].deliver(frame),
        None => Ok(Effect {
            enters: Some(EventEntry::Refused {
                refusal: EventRefusal::NeverSent,
            }),
            sends: None,
        }),
    }
}

/// Enters an effect, and keeps its frame.
fn enter(effect: Effect, frames: &mut List<Frame>, out: &mut List<EventEntry>)
    requires entries { 2 ≤ out.old.room }
    requires frame { 1 ≤ frames.old.room }
    ensures frames { frames.new.items ≡ frames.old.items ++ listed effect.sends }
    ensures entries { out.new.items ≡ out.old.items ++ (listed effect.enters ++ frame_entries (length frames.old.items) effect.sends) }
{
    let Effect { enters, sends } = effect;
    if let Some(entry) = enters {
        out.put(entry);
    }
    if let Some(frame) = sends {
        frames.put(frame);
        out.put(entry_of(frames.len() as u64, &frame));
    }
}

/// Enters the line of a node.
fn put_row(flow: &NodeFlow, node: NodeId, out: &mut List<EventEntry>)
    requires { 1 ≤ out.old.room }
    ensures entries { out.new.items ≡ out.old.items ++ row_by node flow.now flow.now.queued }
    ensures room { out.old.room ≤ out.new.room + 1 }
{
    if let Some(entry) = flow.row(node) {
        out.put(entry);
    }
}
