//! A command, from its words to its status.

ghost use Rattle.std.specs.Prelude.{◌≡◌, ◌^◌, ◌<◌, drop, length, map};
ghost use Rattle.run_words.specs.Parsing.{texts_of};
ghost use Rattle.run_all.specs.Around.{around};
ghost use Rattle.run_all.specs.Commands.{Runs, RunsWords};

use device_sim::Device;
use host_keep::Keeper;
use port_run::run_host;
use run_audit::run_audit;
use run_generate::run_generate;
use run_include::run_include;
use run_lines::Status;
use run_replay::run_replay;
use run_sim::run_sim;
use run_tools::{run_check, run_events};
use run_words::{Asked, WordsFault, read_words};
use std::alloc::Global;
use zw_base::{Draw, Sink, Source};

/// Runs the command that the words name. `devices` are those of the mesh, `key` is the network key that they have, and `keeper` holds
/// the records of the host.
pub fn run_command<S: Source, K: Sink, D: Draw, P: Keeper>(
    alloc: Global,
    words: &[String],
    source: &mut S,
    sink: &mut K,
    devices: &mut Vec<Box<dyn Device>>,
    key: [u8; 16],
    draw: &mut D,
    keeper: &mut P,
) -> Status
    requires { length devices.old.items < 2 ^ 64 }

    // The words ask for a command exactly as its command line takes them, it is run, and the status says how that ended.
    ensures { RunsWords (texts_of words.now) key result
        (around (S.left source.old) (S.faults source.old) (K.written sink.old) (K.faults sink.old)
        (map (λ d. state d) devices.old.items) (P.number keeper.old) (P.shelf keeper.old) (P.reads keeper.old))
        (around (S.left source.new) (S.faults source.new) (K.written sink.new) (K.faults sink.new)
        (map (λ d. state d) devices.new.items) (P.number keeper.new) (P.shelf keeper.new) (P.reads keeper.new)) }
{
    match read_words(alloc, words) {
        Ok(asked) => run_asked(
            alloc, asked, words, source, sink, devices, key, draw, keeper,
        ),
        Err(WordsFault::Usage) => Status::Usage,
        Err(WordsFault::NoMemory) => Status::NoMemory,
    }
}

/// Runs the command that is asked for.
fn run_asked<S: Source, K: Sink, D: Draw, P: Keeper>(
    alloc: Global,
    asked: Asked,
    words: &[String],
    source: &mut S,
    sink: &mut K,
    devices: &mut Vec<Box<dyn Device>>,
    key: [u8; 16],
    draw: &mut D,
    keeper: &mut P,
) -> Status
    requires { length devices.old.items < 2 ^ 64 }
    ensures { Runs asked (texts_of words.now) key result
        (around (S.left source.old) (S.faults source.old) (K.written sink.old) (K.faults sink.old)
        (map (λ d. state d) devices.old.items) (P.number keeper.old) (P.shelf keeper.old) (P.reads keeper.old))
        (around (S.left source.new) (S.faults source.new) (K.written sink.new) (K.faults sink.new)
        (map (λ d. state d) devices.new.items) (P.number keeper.new) (P.shelf keeper.new) (P.reads keeper.new)) }
{
    match asked {
        Asked::Sim { quiet } => run_sim(alloc, quiet, key, source, sink, devices, draw, keeper),
        Asked::Check { from } => run_check(alloc, from, source, sink),
        Asked::Generate { hundreds } => {
            run_generate(alloc, hundreds, key, sink, devices, draw, keeper)
        }
        Asked::Replay => run_replay(alloc, key, source, sink, draw, keeper),
        Asked::Events => run_events(alloc, source, sink),
        Asked::Include => run_include(alloc, key, source, sink, draw),
        Asked::Host => run_host(alloc, later_words(words), source, sink, key, draw, keeper),
        Asked::Audit => run_audit(alloc, source, sink),
    }
}

/// The words after the first.
fn later_words(words: &[String]) -> &[String]
    ensures { result.now ≡ drop 1 words.now }
{
    match words.split_first() {
        Some((_, later)) => later,
        None => words,
    }
}
