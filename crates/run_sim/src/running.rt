//! Lines that are read, run by the world and answered.
//!
//! This is the loop of `run_lines` once more, with its words, and with the world in the machine's place: a machine there says what it does in ghost
//! members of an `impl`, and these cannot speak of the states of boxed devices.

ghost use Rattle.std.specs.Prelude.{◌≡◌, ◌<◌, ◌≤◌, ◌^◌, ◌⊎◌, [], None, length, map, OnOk, IfErr, IsErrOf};
ghost use Rattle.std.specs.Io.KnownBytes.{Appends};
ghost use Rattle.zw_base.specs.Faults.{Rose};
ghost use Rattle.zw_text.specs.Line.{line_at};
ghost use Rattle.run_lines.specs.Run.{LinesRan};
ghost use Rattle.run_lines.specs.Text.{TextRan, TextFails};
ghost use Rattle.run_lines.specs.Lines.{fault_by};
ghost use Rattle.run_lines.specs.Writing.{text_of};
ghost use Rattle.run_sim.specs.Sim.{point_of, SimRuns, SimStops};

use crate::simulation::Simulation;
use device_sim::Device;
use host_keep::Keeper;
use run_lines::{Answer, LineReader, LinesEnd, Next, TextFault, end_at, end_of, write_pieces};
use zw_base::{Draw, Sink, Source};
use zw_words::ReadLineFault;

/// Runs the lines of a source one after another, each as soon as it was read, and writes each answer before it goes on.
pub(crate) fn run_lines<S: Source, K: Sink, D: Draw, P: Keeper>(
    source: &mut S,
    sink: &mut K,
    simulation: &mut Simulation,
    devices: &mut Vec<Box<dyn Device>>,
    draw: &mut D,
    keeper: &mut P,
) -> LinesEnd
    requires few { length devices.old.items < 2 ^ 64 }
    ensures ran { LinesRan result (fault_by line_at) (SimRuns simulation.old.quiet) (SimStops simulation.old.quiet) (S.left source.old) (S.left source.new)
        (point_of simulation.old.world (map (λ d. state d) devices.old.items) (P.shelf keeper.old)
        (P.number keeper.old) (P.reads keeper.old))
        (point_of simulation.new.world (map (λ d. state d) devices.new.items) (P.shelf keeper.new)
        (P.number keeper.new) (P.reads keeper.new))
        (K.written sink.old) (K.written sink.new) }
    ensures kept { length devices.new.items ≡ length devices.old.items }
    ensures source_never_falls { S.faults source.old ≤ S.faults source.new }
    ensures sink_never_falls { K.faults sink.old ≤ K.faults sink.new }
    ensures read_fault { result ≡ LinesEnd.ReadFailed → Rose (S.faults source.old) (S.faults source.new) }
    ensures write_fault { result ≡ LinesEnd.WriteFailed → Rose (K.faults sink.old) (K.faults sink.new) }
{
    let mut reader = LineReader::new();
    let mut pieces = Answer::new(simulation.alloc);
    for number in 1..u32::MAX {
        match reader.next(source) {
            Next::Line => pieces.clear(),
            next => return end_of(next, number),
        }
        match run_text(
            sink,
            simulation,
            devices,
            draw,
            keeper,
            reader.line(),
            &mut pieces,
        ) {
            Ok(()) => {}
            Err(fault) => return end_at(fault, number),
        }
    }
    LinesEnd::NoMemory
}

/// Runs the text of a line and writes the answer, each piece of it at once.
fn run_text<K: Sink, D: Draw, P: Keeper>(
    sink: &mut K,
    simulation: &mut Simulation,
    devices: &mut Vec<Box<dyn Device>>,
    draw: &mut D,
    keeper: &mut P,
    text: &[u8],
    pieces: &mut Answer,
) -> Result<(), TextFault>
    requires few { length devices.old.items < 2 ^ 64 }
    requires empty { pieces.old.items ≡ [] }
    ensures is_line { OnOk result (fault_by line_at text.now ≡ None) }
    ensures ok { OnOk result (TextRan (SimRuns simulation.old.quiet)
        (point_of simulation.old.world (map (λ d. state d) devices.old.items) (P.shelf keeper.old)
        (P.number keeper.old) (P.reads keeper.old)) text.now
        (point_of simulation.new.world (map (λ d. state d) devices.new.items) (P.shelf keeper.new)
        (P.number keeper.new) (P.reads keeper.new))
        (Appends (K.written sink.old) (K.written sink.new))) }
    ensures err { IfErr result (λ fault. TextFails fault (SimRuns simulation.old.quiet) (SimStops simulation.old.quiet) (fault_by line_at text.now)
        (point_of simulation.old.world (map (λ d. state d) devices.old.items) (P.shelf keeper.old)
        (P.number keeper.old) (P.reads keeper.old)) text.now
        (point_of simulation.new.world (map (λ d. state d) devices.new.items) (P.shelf keeper.new)
        (P.number keeper.new) (P.reads keeper.new))
        (K.written sink.old) (K.written sink.new)) }
    ensures quiet { simulation.new.quiet ≡ simulation.old.quiet }
    ensures kept { length devices.new.items ≡ length devices.old.items }
    ensures never_falls { K.faults sink.old ≤ K.faults sink.new }
    ensures failed { IsErrOf result TextFault.Write → Rose (K.faults sink.old) (K.faults sink.new) }
    ensures told { IsErrOf result TextFault.NoMemory → Rose (K.faults sink.old) (K.faults sink.new)
        ⊎ Appends (K.written sink.old) (K.written sink.new) (text_of pieces.new.items) }
{
    match simulation.run_line(devices, draw, keeper, text, pieces) {
        Ok(()) => match write_pieces(sink, pieces) {
            Ok(()) => Ok(()),
            Err(_) => Err(TextFault::Write),
        },
        Err(ReadLineFault::Bad(fault)) => Err(TextFault::Bad(fault)),
        Err(ReadLineFault::NoMemory) => {
            let _ = write_pieces(sink, pieces);
            Err(TextFault::NoMemory)
        }
    }
}
