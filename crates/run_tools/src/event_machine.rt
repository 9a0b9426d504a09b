//! The events of devices as a machine that runs lines.

ghost use Rattle.std.specs.Prelude.{◌≡◌, ◌++◌, [], ◌∷◌, List as Items, ℕ, map, codes, decimal, IfOk, OnOk, OnErr};
ghost use Rattle.std.specs.List.{join_with_byte};
ghost use Rattle.event_flow.specs.Steps.{after};
ghost use Rattle.run_tools.specs.Events.{entry_line, line_pieces, said_line, said_text};

use event_flow::{EventEntry, EventLine, EventWorld, print_event, read_event};
use run_lines::{Answer, Machine};
use std::alloc::Global;
use std::marker::Model;
use zw_base::{Bytes, List, NoMemory, NodeId};
use zw_words::ReadLineFault;

/// All events on their way to the host, and the memory for what they are answered by. Contracts see the events.
#[derive(Drop)]
pub struct EventMachine {
    alloc: Global,
    world: EventWorld,
}

impl Model for EventMachine {
    ghost use Rattle.event_flow.specs.State.{FlowState};

    ghost Value = { FlowState };

    ghost view = { λ machine. machine.world };
}

impl EventMachine {
    pub fn new(alloc: Global, world: EventWorld) -> EventMachine
        ensures { result ≡ world }
    {
        EventMachine { alloc, world }
    }
}

impl Machine<(), ()> for EventMachine {
    ghost use Rattle.run_tools.specs.Events.{event_fault, EventRuns, EventStops, EventEnds};

    ghost refuses = { event_fault };

    ghost runs = { λ old text new pieces. EventRuns old text new pieces };

    ghost stops = { λ old text new pieces. EventStops old text new pieces };

    ghost ends = { λ last pieces. EventEnds last pieces };

    fn run_line(
        &mut self,
        _first: &mut (),
        _second: &mut (),
        text: &[u8],
        out: &mut Answer,
    ) -> Result<(), ReadLineFault> {
        match read_event(self.alloc, text) {
            Ok(Some(line)) => {
                run_event(self.alloc, &mut self.world, &line, out)?;
                Ok(())
            }
            Ok(None) => Ok(()),
            Err(fault) => Err(fault),
        }
    }

    fn end(&self, _first: &(), _second: &(), out: &mut Answer) -> Result<(), NoMemory> {
        let mut entries = List::new(self.alloc);
        self.world.table(&mut entries)?;
        add_entries(self.alloc, entries.as_slice(), out)
    }
}

/// Runs a line, and adds the line and what was entered.
fn run_event(
    alloc: Global,
    world: &mut EventWorld,
    line: &EventLine,
    out: &mut Answer,
) -> Result<(), NoMemory>
    requires { out.old.items ≡ [] }
    ensures ok { OnOk result (world.new ≡ after world.old line.now) }
    ensures pieces { OnOk result (out.new.items ≡ line_pieces world.old line.now) }
    ensures prefix { OnErr result ((rest : Items (Items ℕ)) × (line_pieces world.old line.now ≡ out.new.items ++ rest)) }
{
    let said = said_line(alloc, line)?;
    let text = said.as_slice();
    out.push(text)?;
    let mut entries = List::new(alloc);
    world.step(line, &mut entries)?;
    let told = entries.as_slice();
    add_entries(alloc, told, out)
}

/// Adds the line of each entry.
fn add_entries(alloc: Global, entries: &[EventEntry], out: &mut Answer) -> Result<(), NoMemory>
    ensures ok { OnOk result (out.new.items ≡ out.old.items ++ map entry_line entries.now) }
    ensures prefix { OnErr result ((rest : Items (Items ℕ)) × (out.old.items ++ map entry_line entries.now ≡ out.new.items ++ rest)) }
{
    for entry in entries {
        out.push(entry_line(alloc, entry)?.as_slice())?;
    }
    Ok(())
}

/// The line of an entry.
fn entry_line(alloc: Global, entry: &EventEntry) -> Result<Bytes, NoMemory>
    ensures { IfOk result (λ line. line ≡ entry_line entry.now) }
{
    let mut text = print_event(alloc, entry)?;
    text.push(b'\n')?;
    Ok(text)
}

/// The line that repeats a line.
fn said_line(alloc: Global, line: &EventLine) -> Result<Bytes, NoMemory>
    ensures { IfOk result (λ text. text ≡ said_line line.now) }
{
    let mut text = said_text(alloc, line)?;
    text.push(b'\n')?;
    Ok(text)
}

/// The words of a line after the sign that it was read.
fn said_text(alloc: Global, line: &EventLine) -> Result<Bytes, NoMemory>
    ensures { IfOk result (λ text. text ≡ said_text line.now) }
{
    match line {
        EventLine::Event { node, kind, level } => said_event(alloc, *node, *kind, *level),
        EventLine::Again(node) => said_number(alloc, "again", u64::from(node.number())),
        EventLine::Deliver(frame) => said_number(alloc, "deliver", *frame),
    }
}

fn said_event(alloc: Global, node: NodeId, kind: u8, level: u8) -> Result<Bytes, NoMemory>
    ensures { IfOk result (λ text. text ≡ join_with_byte 32 (codes ">" ∷ codes "event" ∷ decimal node ∷ decimal kind ∷ decimal level ∷ [])) }
{
    let node = node.number();
    let text = format!(in alloc; "> event {node} {kind} {level}")?;
    Bytes::from_slice(alloc, text.as_bytes())
}

fn said_number(alloc: Global, word: &str, number: u64) -> Result<Bytes, NoMemory>
    ensures { IfOk result (λ text. text ≡ join_with_byte 32 (codes ">" ∷ word.now ∷ decimal number ∷ [])) }
{
    let text = format!(in alloc; "> {word} {number}")?;
    Bytes::from_slice(alloc, text.as_bytes())
}
