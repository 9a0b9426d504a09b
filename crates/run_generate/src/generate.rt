//! `generate`: a scenario that is made from a number is run, and summed up.

ghost use Rattle.std.specs.Prelude.{◌≡◌, ◌<◌, ◌≤◌, ◌^◌, length, map, List as Items, IfOk, OnOk, OnErr, ℕ};
ghost use Rattle.zw_base.specs.Faults.{Rose};
ghost use Rattle.run_lines.specs.Complete.{IsDone};
ghost use Rattle.zw_world.specs.World.{first_world, scene};
ghost use Rattle.run_generate.specs.Generate.{AllDone, GenerateRan, IsCutShort, SomeDone, SumsUp};

use crate::generated::generated;
use crate::summary::summary;
use device_sim::Device;
use host_keep::Keeper;
use run_lines::{Status, write_piece};
use std::alloc::Global;
use zw_base::{Bytes, Draw, List, NoMemory, Sink};
use zw_text::{Entry, Line};
use zw_world::World;

/// Makes the scenario of so many hundred commands, runs it from a world at its beginning, and writes a summary.
pub fn run_generate<K: Sink, D: Draw, P: Keeper>(
    alloc: Global,
    hundreds: u8,
    key: [u8; 16],
    sink: &mut K,
    devices: &mut Vec<Box<dyn Device>>,
    draw: &mut D,
    keeper: &mut P,
) -> Status
    requires { length devices.old.items < 2 ^ 64 }
    ensures ran { GenerateRan result hundreds key (map (λ d. state d) devices.old.items) (map (λ d. state d) devices.new.items)
        (P.shelf keeper.old) (P.shelf keeper.new) (K.written sink.old) (K.written sink.new) }
    ensures few { length devices.new.items < 2 ^ 64 }
    ensures never_falls { K.faults sink.old ≤ K.faults sink.new }
    ensures write_fault { result ≡ Status.WriteFault → Rose (K.faults sink.old) (K.faults sink.new) }
    ensures complete { (Rose (K.faults sink.old) (K.faults sink.new) → ⊥) → IsDone result }
{
    match sum_up(alloc, hundreds, key, devices, draw, keeper) {
        Ok(text) => match write_piece(sink, text.as_slice()) {
            Ok(()) => Status::Ok,
            Err(_) => Status::WriteFault,
        },
        Err(NoMemory) => Status::NoMemory,
    }
}

/// The summary of the scenario, which is run for it.
fn sum_up<D: Draw, P: Keeper>(
    alloc: Global,
    hundreds: u8,
    key: [u8; 16],
    devices: &mut Vec<Box<dyn Device>>,
    draw: &mut D,
    keeper: &mut P,
) -> Result<Bytes, NoMemory>
    requires { length devices.old.items < 2 ^ 64 }
    ensures ok { IfOk result (λ text. SumsUp hundreds key (map (λ d. state d) devices.old.items) (map (λ d. state d) devices.new.items)
        (P.shelf keeper.old) (P.shelf keeper.new) text) }
    ensures err { OnErr result (IsCutShort hundreds key (map (λ d. state d) devices.old.items) (map (λ d. state d) devices.new.items)
        (P.shelf keeper.old) (P.shelf keeper.new)) }
    ensures kept { length devices.new.items ≡ length devices.old.items }
{
    let mut world = World::new(alloc, key)?;
    run_made(alloc, hundreds, &mut world, devices, draw, keeper)
}

/// The same, in a world that is borrowed, so that none of the ways out of here drops it.
fn run_made<D: Draw, P: Keeper>(
    alloc: Global,
    hundreds: u8,
    world: &mut World,
    devices: &mut Vec<Box<dyn Device>>,
    draw: &mut D,
    keeper: &mut P,
) -> Result<Bytes, NoMemory>
    requires { length devices.old.items < 2 ^ 64 }
    ensures ok { IfOk result (λ text. (key : Items ℕ) → world.old ≡ first_world key →
        SumsUp hundreds key (map (λ d. state d) devices.old.items) (map (λ d. state d) devices.new.items)
        (P.shelf keeper.old) (P.shelf keeper.new) text) }
    ensures err { OnErr result ((key : Items ℕ) → world.old ≡ first_world key →
        IsCutShort hundreds key (map (λ d. state d) devices.old.items) (map (λ d. state d) devices.new.items)
        (P.shelf keeper.old) (P.shelf keeper.new)) }
    ensures kept { length devices.new.items ≡ length devices.old.items }
{
    let lines = generated(alloc, hundreds)?;
    let mut entries = List::new(alloc);
    run_all(lines.as_slice(), world, devices, draw, keeper, &mut entries)?;
    let mut table = List::new(alloc);
    world.table(devices, &mut table)?;
    summary(alloc, entries.as_slice(), table.as_slice())
}

/// Runs lines one after another.
fn run_all<D: Draw, P: Keeper>(
    lines: &[Line],
    world: &mut World,
    devices: &mut Vec<Box<dyn Device>>,
    draw: &mut D,
    keeper: &mut P,
    entries: &mut List<Entry>,
) -> Result<(), NoMemory>
    requires { length devices.old.items < 2 ^ 64 }
    ensures ok { OnOk result (AllDone lines.now
        (scene world.old (map (λ d. state d) devices.old.items) (P.shelf keeper.old) entries.old.items)
        (scene world.new (map (λ d. state d) devices.new.items) (P.shelf keeper.new) entries.new.items)) }
    ensures err { OnErr result (SomeDone lines.now
        (scene world.old (map (λ d. state d) devices.old.items) (P.shelf keeper.old) entries.old.items)
        (scene world.new (map (λ d. state d) devices.new.items) (P.shelf keeper.new) entries.new.items)) }
    ensures kept { length devices.new.items ≡ length devices.old.items }
{
    for line in lines {
        world.step(line, devices, draw, keeper, entries)?;
    }
    Ok(())
}
