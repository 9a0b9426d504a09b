//! The host alone as a machine that runs lines.

ghost use Rattle.std.specs.Prelude.{◌≡◌, [], OnOk, OnErr};
ghost use Rattle.run_replay.specs.Lines.{IsReplayed};
ghost use Rattle.run_replay.specs.Replay.{point_of, AnswersLine, StopsLine};

use crate::replay::Replay;
use host_keep::Keeper;
use run_lines::{Answer, Machine, add_entries, said_entry};
use std::alloc::Global;
use std::marker::Model;
use zw_base::{Draw, List, NoMemory};
use zw_text::{ReplayLine, read_replay};
use zw_words::ReadLineFault;

/// The host with its clock, and the memory for what its lines are answered by. Contracts see the host and the clock.
#[derive(Drop)]
pub struct ReplayMachine {
    alloc: Global,
    replay: Replay,
}

impl Model for ReplayMachine {
    ghost use Rattle.std.specs.Coded.{codes};
    ghost use Rattle.value_store.specs.Values.{values_code};
    ghost use Rattle.run_replay.specs.Machine.{ReplayState};

    ghost Value = { ReplayState };

    ghost coded = { Prim.hlevel (codes, values_code) };

    ghost view = { λ m. m.replay };
}

impl ReplayMachine {
    pub fn new(alloc: Global, replay: Replay) -> ReplayMachine
        ensures { result ≡ replay }
    {
        ReplayMachine { alloc, replay }
    }
}

impl<D: Draw, P: Keeper> Machine<D, P> for ReplayMachine {
    ghost use Rattle.zw_text.specs.Line.{replay_at};
    ghost use Rattle.run_lines.specs.Lines.{fault_by};
    ghost use Rattle.run_replay.specs.Replay.{point_of, ReplayRuns, ReplayStops, IsTable};

    ghost refuses = { fault_by replay_at };

    ghost runs = { λ old text new pieces. ReplayRuns (point_of old.machine (P.shelf old.second)) text
        (point_of new.machine (P.shelf new.second)) pieces };

    ghost stops = { λ old text new pieces. ReplayStops (point_of old.machine (P.shelf old.second)) text
        (point_of new.machine (P.shelf new.second)) pieces };

    ghost ends = { λ last pieces. IsTable (point_of last.machine (P.shelf last.second)) pieces };

    fn run_line(
        &mut self,
        first: &mut D,
        second: &mut P,
        text: &[u8],
        out: &mut Answer,
    ) -> Result<(), ReadLineFault> {
        match read_replay(self.alloc, text) {
            Ok(Some(line)) => {
                self.run_one(text, &line, first, second, out)?;
                Ok(())
            }
            Ok(None) => Ok(()),
            Err(fault) => Err(fault),
        }
    }

    fn end(&self, _first: &D, _second: &P, out: &mut Answer) -> Result<(), NoMemory> {
        let mut entries = List::new(self.alloc);
        self.replay.table(&mut entries)?;
        add_entries(self.alloc, false, entries.as_slice(), out)
    }
}

impl ReplayMachine {
    /// Runs a line, and adds the line itself and what was entered, also where there was no memory for all of it.
    fn run_one<D: Draw, P: Keeper>(
        &mut self,
        text: &[u8],
        line: &ReplayLine,
        draw: &mut D,
        keeper: &mut P,
        out: &mut Answer,
    ) -> Result<(), NoMemory>
        requires replayed { IsReplayed line.now }
        requires empty { out.old.items ≡ [] }
        ensures ok { OnOk result (AnswersLine text.now line.now (point_of self.old (P.shelf keeper.old))
            (point_of self.new (P.shelf keeper.new)) out.new.items) }
        ensures err { OnErr result (StopsLine text.now line.now (point_of self.old (P.shelf keeper.old))
            (point_of self.new (P.shelf keeper.new)) out.new.items) }
    {
        let mut entries = List::new(self.alloc);
        entries.push(said_entry(self.alloc, text)?)?;
        let stepped = self.replay.step(line, draw, keeper, &mut entries);
        let added = add_entries(self.alloc, false, entries.as_slice(), out);
        stepped?;
        added
    }
}
