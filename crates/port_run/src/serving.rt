//! A run from its words to its end.

ghost use Rattle.std.specs.Prelude.{◌≡◌, ◌⊎◌, [], ◌<◌, ◌≤◌, ◌^◌, ℕ, List as Items, length, IfOk, OnOk, IfErr, IsErrOf, MatchResult};
ghost use Rattle.run_lines.specs.declared.reader.TheConstants.{MAX_INPUT};
ghost use Rattle.zw_base.specs.Faults.{Rose};
ghost use Rattle.host_core.specs.Network.{keys_of};
ghost use Rattle.host_core.specs.declared.opening.OpenFault.TheVariants.{KeeperFault as no_keeper};
ghost use Rattle.port_run.specs.Lines.{texts_of};
ghost use Rattle.port_run.specs.Steps.{place, Step};
ghost use Rattle.port_run.specs.Schedule.{LineSteps, AllSteps, RunSteps, CutLine, CutLines, CutRun};
ghost use Rattle.port_run.specs.Serving.{Went, Broke};
ghost use Rattle.port_run.specs.Ending.{desk, Ended, JudgedBy, served_of};

use crate::asking::Answer;
use crate::ending::{first_undone, served_of, unread_of};
use crate::line::read_lines;
use crate::steps::{pump, run_plain};
use crate::waiting::wait;
use crate::{Clock, PortLine, Served, Stop};
use host_core::{Host, OpenFault};
use host_keep::Keeper;
use std::alloc::Global;
use zw_base::{Draw, List, Sink, Source};

/// Starts the host from its records, and runs the lines that the words are over a port. `key` is the network key. The source is read by
/// `wait` alone, at most 4,096 bytes at a time; a read of no bytes is a quiet moment, and no end.
pub fn serve<S: Source, K: Sink, C: Clock, D: Draw, P: Keeper>(
    alloc: Global,
    lines: &[String],
    source: &mut S,
    sink: &mut K,
    clock: &mut C,
    key: [u8; 16],
    draw: &mut D,
    keeper: &mut P,
) -> Served
    ensures ended { Ended result C.may_tell (keys_of key) (P.number keeper.old) (texts_of lines.now)
        (desk (S.left source.old) (K.written sink.old) (P.shelf keeper.old))
        (desk (S.left source.new) (K.written sink.new) (P.shelf keeper.new)) }
    ensures source_never_falls { S.faults source.old ≤ S.faults source.new }
    ensures sink_never_falls { K.faults sink.old ≤ K.faults sink.new }
    ensures not_read { result ≡ Served.ReadFault → Rose (S.faults source.old) (S.faults source.new) }
    ensures not_written { result ≡ Served.WriteFault → Rose (K.faults sink.old) (K.faults sink.new) }
    // A fault is told as itself, and as nothing else.
    ensures source_uncounted { (S.faults source.new ≡ S.faults source.old) ⊎ (result ≡ Served.ReadFault) }
    ensures sink_uncounted { (K.faults sink.new ≡ K.faults sink.old) ⊎ (result ≡ Served.WriteFault) }
    ensures not_kept { result ≡ Served.Opening no_keeper → Rose (P.shelf keeper.old).faults (P.shelf keeper.new).faults }
{
    let lines = match read_lines(alloc, lines) {
        Ok(lines) => lines,
        Err(fault) => return unread_of(fault),
    };
    let mut answers = List::new(alloc);
    if answers.reserve(lines.len()).is_err() {
        return Served::NoMemory;
    }
    let mut host = match Host::open(alloc, key, keeper) {
        Ok(host) => host,
        Err(OpenFault::NoMemory) => return Served::NoMemory,
        Err(fault) => return Served::Opening(fault),
    };
    let run = run_all(
        alloc,
        lines.as_slice(),
        &mut answers,
        &mut host,
        source,
        sink,
        clock,
        draw,
        keeper,
    );
    end_of(run, &host, answers.as_slice())
}

// How a run ends: by its answers, where all lines were run, or by what stopped it.
fn end_of(run: Result<(), Stop>, host: &Host, answers: &[Answer]) -> Served
    requires { OnOk run (length answers.now < 2 ^ 32) }
    ensures { MatchResult run (λ _. JudgedBy result host.now.state answers.now) (λ stop. result ≡ served_of stop) }
{
    match run {
        Ok(()) => judged(host, answers),
        Err(stop) => served_of(stop),
    }
}

// The end, where all lines were run.
fn judged(host: &Host, answers: &[Answer]) -> Served
    requires { length answers.now < 2 ^ 32 }
    ensures { JudgedBy result host.now.state answers.now }
{
    match first_undone(host, answers) {
        None => Served::Ok,
        Some(number) => Served::Undone(number),
    }
}

// What the start of the host left due is submitted, and the lines are run in their order.
fn run_all<S: Source, K: Sink, C: Clock, D: Draw, P: Keeper>(
    alloc: Global,
    lines: &[PortLine],
    answers: &mut List<Answer>,
    host: &mut Host,
    source: &mut S,
    sink: &mut K,
    clock: &mut C,
    draw: &mut D,
    keeper: &mut P,
) -> Result<(), Stop>
    requires empty { answers.old.items ≡ [] }
    requires room { length lines.now ≤ answers.old.room }
    ensures ok { OnOk result ((steps : Items Step) × (taken : ℕ) × RunSteps C.may_tell lines.now answers.new.items steps ×
        Went steps (place host.old (P.shelf keeper.old))
        (place host.new (P.shelf keeper.new)) (K.written sink.old) (K.written sink.new) (S.left source.old)
        (S.left source.new) 0 taken × (taken ≤ MAX_INPUT)) }
    ensures count { OnOk result (length answers.new.items ≡ length lines.now) }
    ensures err { IfErr result (λ stop. Broke (CutRun C.may_tell lines.now) stop
        (place host.old (P.shelf keeper.old)) (place host.new (P.shelf keeper.new))
        (K.written sink.old) (K.written sink.new) (S.left source.old) (S.left source.new) 0) }
    ensures source_never_falls { S.faults source.old ≤ S.faults source.new }
    ensures sink_never_falls { K.faults sink.old ≤ K.faults sink.new }
    ensures not_read { IsErrOf result Stop.ReadFault → Rose (S.faults source.old) (S.faults source.new) }
    ensures not_written { IsErrOf result Stop.WriteFault → Rose (K.faults sink.old) (K.faults sink.new) }
    ensures source_uncounted { (S.faults source.new ≡ S.faults source.old) ⊎ IsErrOf result Stop.ReadFault }
    ensures sink_uncounted { (K.faults sink.new ≡ K.faults sink.old) ⊎ IsErrOf result Stop.WriteFault }
{
    match pump(alloc, host, sink, draw, keeper) {
        Ok(()) => run_lines(
            alloc, lines, answers, host, source, sink, clock, draw, keeper,
        ),
        Err(stop) => Err(stop),
    }
}

// The lines are run in their order. The answers are theirs.
fn run_lines<S: Source, K: Sink, C: Clock, D: Draw, P: Keeper>(
    alloc: Global,
    lines: &[PortLine],
    answers: &mut List<Answer>,
    host: &mut Host,
    source: &mut S,
    sink: &mut K,
    clock: &mut C,
    draw: &mut D,
    keeper: &mut P,
) -> Result<(), Stop>
    requires empty { answers.old.items ≡ [] }
    requires room { length lines.now ≤ answers.old.room }
    ensures ok { OnOk result ((steps : Items Step) × (taken : ℕ) × AllSteps C.may_tell lines.now answers.new.items steps ×
        Went steps (place host.old (P.shelf keeper.old))
        (place host.new (P.shelf keeper.new)) (K.written sink.old) (K.written sink.new) (S.left source.old)
        (S.left source.new) 0 taken × (taken ≤ MAX_INPUT)) }
    ensures count { OnOk result (length answers.new.items ≡ length lines.now) }
    ensures err { IfErr result (λ stop. Broke (CutLines C.may_tell lines.now) stop
        (place host.old (P.shelf keeper.old)) (place host.new (P.shelf keeper.new))
        (K.written sink.old) (K.written sink.new) (S.left source.old) (S.left source.new) 0) }
    ensures source_never_falls { S.faults source.old ≤ S.faults source.new }
    ensures sink_never_falls { K.faults sink.old ≤ K.faults sink.new }
    ensures not_read { IsErrOf result Stop.ReadFault → Rose (S.faults source.old) (S.faults source.new) }
    ensures not_written { IsErrOf result Stop.WriteFault → Rose (K.faults sink.old) (K.faults sink.new) }
    ensures source_uncounted { (S.faults source.new ≡ S.faults source.old) ⊎ IsErrOf result Stop.ReadFault }
    ensures sink_uncounted { (K.faults sink.new ≡ K.faults sink.old) ⊎ IsErrOf result Stop.WriteFault }
{
    let mut taken = 0;
    for line in lines {
        match run_line(
            alloc, line, &mut taken, host, source, sink, clock, draw, keeper,
        ) {
            Ok(answer) => answers.put(answer),
            Err(stop) => return Err(stop),
        }
    }
    Ok(())
}

// A line is run.
fn run_line<S: Source, K: Sink, C: Clock, D: Draw, P: Keeper>(
    alloc: Global,
    line: &PortLine,
    taken: &mut usize,
    host: &mut Host,
    source: &mut S,
    sink: &mut K,
    clock: &mut C,
    draw: &mut D,
    keeper: &mut P,
) -> Result<Answer, Stop>
    requires { taken.old ≤ MAX_INPUT }
    ensures ok { IfOk result (λ answer. (steps : Items Step) × LineSteps C.may_tell line.now answer steps ×
        Went steps (place host.old (P.shelf keeper.old))
        (place host.new (P.shelf keeper.new)) (K.written sink.old) (K.written sink.new) (S.left source.old)
        (S.left source.new) taken.old taken.new) }
    ensures within { OnOk result (taken.new ≤ MAX_INPUT) }
    ensures err { IfErr result (λ stop. Broke (CutLine C.may_tell line.now) stop
        (place host.old (P.shelf keeper.old)) (place host.new (P.shelf keeper.new))
        (K.written sink.old) (K.written sink.new) (S.left source.old) (S.left source.new) taken.old) }
    ensures source_never_falls { S.faults source.old ≤ S.faults source.new }
    ensures sink_never_falls { K.faults sink.old ≤ K.faults sink.new }
    ensures not_read { IsErrOf result Stop.ReadFault → Rose (S.faults source.old) (S.faults source.new) }
    ensures not_written { IsErrOf result Stop.WriteFault → Rose (K.faults sink.old) (K.faults sink.new) }
    ensures source_uncounted { (S.faults source.new ≡ S.faults source.old) ⊎ IsErrOf result Stop.ReadFault }
    ensures sink_uncounted { (K.faults sink.new ≡ K.faults sink.old) ⊎ IsErrOf result Stop.WriteFault }
{
    match line {
        PortLine::Plain { line } => run_plain(alloc, line, host, sink, draw, keeper),
        PortLine::Wait { ticks } => {
            match wait(
                alloc, *ticks, taken, host, source, sink, clock, draw, keeper,
            ) {
                Ok(()) => Ok(Answer::Taken),
                Err(stop) => Err(stop),
            }
        }
    }
}
