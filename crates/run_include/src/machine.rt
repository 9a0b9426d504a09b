//! The world of `include` as a machine that runs lines.

ghost use Rattle.std.specs.Prelude.{◌≡◌, ◌++◌, [], List as Items, ℕ, IfOk, OnOk, OnErr};
ghost use Rattle.run_include.specs.Run.{entry_line, pieces_of, AnswersLine, StopsLine};

use include_text::{IncludeEntry, IncludeLine, print_include, read_include};
use include_world::IncludeWorld;
use run_lines::{Answer, Machine};
use std::alloc::Global;
use std::marker::Model;
use zw_base::{Bytes, Draw, List, NoMemory};
use zw_words::ReadLineFault;

/// The world of `include`, and the memory for what its lines are answered by. Contracts see the world.
#[derive(Drop)]
pub struct IncludeMachine {
    alloc: Global,
    world: IncludeWorld,
}

impl Model for IncludeMachine {
    ghost use Rattle.include_world.specs.World.{WorldState};

    ghost Value = { WorldState };

    ghost view = { λ machine. machine.world };
}

impl IncludeMachine {
    pub fn new(alloc: Global, world: IncludeWorld) -> IncludeMachine
        ensures { result ≡ world }
    {
        IncludeMachine { alloc, world }
    }
}

impl<D: Draw> Machine<D, ()> for IncludeMachine {
    ghost use Rattle.include_text.specs.Line.{line_at};
    ghost use Rattle.run_lines.specs.Lines.{fault_by};
    ghost use Rattle.run_include.specs.Run.{IncludeRuns, IncludeStops, IncludeEnds};

    ghost refuses = { fault_by line_at };

    ghost runs = { λ old text new pieces. IncludeRuns old text new pieces };

    ghost stops = { λ old text new pieces. IncludeStops old text new pieces };

    ghost ends = { λ last pieces. IncludeEnds last pieces };

    fn run_line(
        &mut self,
        first: &mut D,
        _second: &mut (),
        text: &[u8],
        out: &mut Answer,
    ) -> Result<(), ReadLineFault> {
        match read_include(self.alloc, text) {
            Ok(Some(line)) => {
                self.run_one(text, &line, first, out)?;
                Ok(())
            }
            Ok(None) => Ok(()),
            Err(fault) => Err(fault),
        }
    }

    fn end(&self, _first: &D, _second: &(), out: &mut Answer) -> Result<(), NoMemory> {
        let mut entries = List::new(self.alloc);
        self.world.table(&mut entries)?;
        add_entries(self.alloc, entries.as_slice(), out)
    }
}

impl IncludeMachine {
    /// Runs a line, and adds what was entered, also where there was no memory for all of it.
    fn run_one<D: Draw>(
        &mut self,
        text: &[u8],
        line: &IncludeLine,
        draw: &mut D,
        out: &mut Answer,
    ) -> Result<(), NoMemory>
        requires { out.old.items ≡ [] }
        ensures ok { OnOk result (AnswersLine text.now line.now self.old self.new out.new.items) }
        ensures err { OnErr result (StopsLine text.now line.now self.old self.new out.new.items) }
    {
        let mut entries = List::new(self.alloc);
        let stepped = self.world.step(line, draw, &mut entries);
        let added = add_entries(self.alloc, entries.as_slice(), out);
        stepped?;
        added
    }
}

/// Adds the line of each entry.
fn add_entries(alloc: Global, entries: &[IncludeEntry], out: &mut Answer) -> Result<(), NoMemory>
    ensures ok { OnOk result (out.new.items ≡ out.old.items ++ pieces_of entries.now) }
    ensures prefix { OnErr result ((rest : Items (Items ℕ)) × (out.old.items ++ pieces_of entries.now ≡ out.new.items ++ rest)) }
{
    for entry in entries {
        out.push(entry_line(alloc, entry)?.as_slice())?;
    }
    Ok(())
}

/// The line of an entry.
fn entry_line(alloc: Global, entry: &IncludeEntry) -> Result<Bytes, NoMemory>
    ensures { IfOk result (λ line. line ≡ entry_line entry.now) }
{
    let mut text = print_include(alloc, entry)?;
    text.push(b'\n')?;
    Ok(text)
}
