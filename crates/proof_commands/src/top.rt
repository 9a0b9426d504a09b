//! The top call: a command, from its words to its status, and what every run keeps true.

ghost use Rattle.std.specs.Prelude.{◌≡◌, ◌^◌, ◌<◌, length, map};
ghost use Rattle.run_words.specs.Parsing.{texts_of};
ghost use Rattle.run_all.specs.Around.{around};
ghost use Rattle.run_all.specs.Commands.{RunsWords};
ghost use Rattle.proof_commands.specs.All.{KeepsLaws};

use crate::commands_keep_laws;
use device_sim::Device;
use host_keep::Keeper;
use run_all::run_command;
use run_lines::Status;
use std::alloc::Global;
use zw_base::{Draw, Sink, Source};

/// Runs the command that the words name. `devices` are those of the mesh, `key` is the network key that they have, and `keeper` holds
/// the records of the host.
pub fn run<S: Source, K: Sink, D: Draw, P: Keeper>(
    alloc: Global,
    words: &[String],
    source: &mut S,
    sink: &mut K,
    devices: &mut Vec<Box<dyn Device>>,
    key: [u8; 16],
    draw: &mut D,
    keeper: &mut P,
) -> Status
    requires { length devices.old.items < 2 ^ 64 }

    // The words ask for a command exactly as its command line takes them, it is run, and the status says how that ended.
    ensures ran { RunsWords (texts_of words.now) key result
        (around (S.left source.old) (S.faults source.old) (K.written sink.old) (K.faults sink.old)
        (map (λ d. state d) devices.old.items) (P.number keeper.old) (P.shelf keeper.old) (P.reads keeper.old))
        (around (S.left source.new) (S.faults source.new) (K.written sink.new) (K.faults sink.new)
        (map (λ d. state d) devices.new.items) (P.number keeper.new) (P.shelf keeper.new) (P.reads keeper.new)) }

    // Where that was `sim`, `generate`, `replay`, `include` or `host`, the run has a story, and each story that it has keeps the laws of that command.
    ensures laws { KeepsLaws result (texts_of words.now) key
        (around (S.left source.old) (S.faults source.old) (K.written sink.old) (K.faults sink.old)
        (map (λ d. state d) devices.old.items) (P.number keeper.old) (P.shelf keeper.old) (P.reads keeper.old))
        (around (S.left source.new) (S.faults source.new) (K.written sink.new) (K.faults sink.new)
        (map (λ d. state d) devices.new.items) (P.number keeper.new) (P.shelf keeper.new) (P.reads keeper.new)) }
{
    commands_keep_laws();
    run_command(alloc, words, source, sink, devices, key, draw, keeper)
}
