//! The world, as it runs the texts of lines.

ghost use Rattle.std.specs.Prelude.{◌≡◌, ◌<◌, ◌^◌, [], length, map, None, ℕ, IfErr, OnOk, OnErr};
ghost use Rattle.zw_text.specs.Line.{line_at};
ghost use Rattle.run_lines.specs.Machine.{RefusesBy};
ghost use Rattle.run_lines.specs.Lines.{fault_by};
ghost use Rattle.run_sim.specs.Sim.{point_of, AnswersLine, StopsLine, SimRuns, SimStops, IsTable};
ghost use Rattle.host_keep.specs.Keeping.{Shelf};

use device_sim::Device;
use host_keep::Keeper;
use run_lines::{Answer, add_entries, said_entry};
use std::alloc::Global;
use zw_base::{Draw, List, NoMemory};
use zw_range::entries_in_range;
use zw_text::{Entry, Line, read_line};
use zw_words::ReadLineFault;
use zw_world::World;

/// The world, whether units and frames are left out of what is written, and the memory for it. The list for the entries of a
/// line keeps its room.
#[derive(Drop)]
pub(crate) struct Simulation {
    pub alloc: Global,
    pub quiet: bool,
    pub world: World,
    pub entries: List<Entry>,
}

impl Simulation {
    /// Runs the text of a line. Each piece of the answer is a line with its line feed.
    pub(crate) fn run_line<D: Draw, P: Keeper>(
        &mut self,
        devices: &mut Vec<Box<dyn Device>>,
        draw: &mut D,
        keeper: &mut P,
        text: &[u8],
        out: &mut Answer,
    ) -> Result<(), ReadLineFault>
        requires few { length devices.old.items < 2 ^ 64 }
        requires empty { out.old.items ≡ [] }
        ensures is_line { OnOk result (fault_by line_at text.now ≡ None) }
        ensures ok { OnOk result (SimRuns self.old.quiet
            (point_of self.old.world (map (λ d. state d) devices.old.items) (P.shelf keeper.old)
            (P.number keeper.old) (P.reads keeper.old)) text.now
            (point_of self.new.world (map (λ d. state d) devices.new.items) (P.shelf keeper.new)
            (P.number keeper.new) (P.reads keeper.new)) out.new.items) }
        ensures err { IfErr result (λ fault. RefusesBy fault (SimStops self.old.quiet) (fault_by line_at text.now)
            (point_of self.old.world (map (λ d. state d) devices.old.items) (P.shelf keeper.old)
            (P.number keeper.old) (P.reads keeper.old)) text.now
            (point_of self.new.world (map (λ d. state d) devices.new.items) (P.shelf keeper.new)
            (P.number keeper.new) (P.reads keeper.new)) out.new.items) }
        ensures quiet { self.new.quiet ≡ self.old.quiet }
        ensures kept { length devices.new.items ≡ length devices.old.items }
    {
        match read_line(self.alloc, text) {
            Ok(Some(line)) => match self.run_one(text, &line, devices, draw, keeper, out) {
                Ok(()) => Ok(()),
                Err(NoMemory) => Err(ReadLineFault::NoMemory),
            },
            Ok(None) => Ok(()),
            Err(fault) => Err(fault),
        }
    }

    /// Runs a line, and adds the line itself and what was entered, also where there was no memory for all of it.
    fn run_one<D: Draw, P: Keeper>(
        &mut self,
        text: &[u8],
        line: &Line,
        devices: &mut Vec<Box<dyn Device>>,
        draw: &mut D,
        keeper: &mut P,
        out: &mut Answer,
    ) -> Result<(), NoMemory>
        requires few { length devices.old.items < 2 ^ 64 }
        requires empty { out.old.items ≡ [] }
        ensures ok { OnOk result (AnswersLine self.old.quiet text.now line.now
            (point_of self.old.world (map (λ d. state d) devices.old.items) (P.shelf keeper.old)
            (P.number keeper.old) (P.reads keeper.old))
            (point_of self.new.world (map (λ d. state d) devices.new.items) (P.shelf keeper.new)
            (P.number keeper.new) (P.reads keeper.new)) out.new.items) }
        ensures err { OnErr result (StopsLine self.old.quiet text.now line.now
            (point_of self.old.world (map (λ d. state d) devices.old.items) (P.shelf keeper.old)
            (P.number keeper.old) (P.reads keeper.old))
            (point_of self.new.world (map (λ d. state d) devices.new.items) (P.shelf keeper.new)
            (P.number keeper.new) (P.reads keeper.new)) out.new.items) }
        ensures quiet { self.new.quiet ≡ self.old.quiet }
        ensures kept { length devices.new.items ≡ length devices.old.items }
    {
        self.entries.clear();
        self.entries.push(said_entry(self.alloc, text)?)?;
        let stepped = self
            .world
            .step(line, devices, draw, keeper, &mut self.entries);
        let told = self.entries.as_slice();
        entries_in_range(told);
        let added = add_entries(self.alloc, self.quiet, told, out);
        stepped?;
        added
    }

    /// Adds the lines of the final table.
    pub(crate) fn add_table(
        &self,
        devices: &Vec<Box<dyn Device>>,
        out: &mut Answer,
    ) -> Result<(), NoMemory>
        requires few { length devices.now.items < 2 ^ 64 }
        requires empty { out.old.items ≡ [] }
        ensures { OnOk result ((shelf : Shelf) (number reads : ℕ) →
            IsTable (point_of self.now.world (map (λ d. state d) devices.now.items) shelf number reads) out.new.items) }
    {
        let mut entries = List::new(self.alloc);
        self.world.table(devices, &mut entries)?;
        let told = entries.as_slice();
        entries_in_range(told);
        add_entries(self.alloc, false, told, out)
    }
}
