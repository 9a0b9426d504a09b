//! Waits: the port is read until so many ticks have passed.

ghost use Rattle.std.specs.Prelude.{◌≡◌, ◌+◌, ◌<◌, ◌≤◌, ◌⊎◌, ℕ, List as Items, Option, length, IfOk, OnOk, IfErr, IsErrOf};
ghost use Rattle.std.specs.Io.KnownBytes.{Consumes, IsAtEnd};
ghost use Rattle.zw_base.specs.Faults.{Rose};
ghost use Rattle.port_run.specs.Steps.{place, Step};
ghost use Rattle.port_run.specs.Schedule.{Turn, IsTurn, turn_steps, piece_steps, due, Waited, CutRead, CutTurn, CutWait};
ghost use Rattle.port_run.specs.Serving.{Went, Broke};

use crate::steps::{take_and_pump, tick_all};
use crate::{Clock, Stop};
use host_core::Host;
use host_keep::Keeper;
use run_lines::{MAX_INPUT, PIECE};
use std::alloc::Global;
use zw_base::{Draw, Sink, Source};

/// Turns are made until so many ticks have passed. `taken` counts the bytes that were read.
pub(crate) fn wait<S: Source, K: Sink, C: Clock, D: Draw, P: Keeper>(
    alloc: Global,
    ticks: u32,
    taken: &mut usize,
    host: &mut Host,
    source: &mut S,
    sink: &mut K,
    clock: &mut C,
    draw: &mut D,
    keeper: &mut P,
) -> Result<(), Stop>
    requires { taken.old ≤ MAX_INPUT }
    ensures ok { OnOk result ((steps : Items Step) × Waited C.may_tell ticks 0 steps ×
        Went steps (place host.old (P.shelf keeper.old))
        (place host.new (P.shelf keeper.new)) (K.written sink.old) (K.written sink.new) (S.left source.old)
        (S.left source.new) taken.old taken.new) }
    ensures within { OnOk result (taken.new ≤ MAX_INPUT) }
    ensures err { IfErr result (λ stop. Broke (CutWait C.may_tell ticks) stop (place host.old (P.shelf keeper.old))
        (place host.new (P.shelf keeper.new)) (K.written sink.old) (K.written sink.new) (S.left source.old)
        (S.left source.new) taken.old) }
    ensures source_never_falls { S.faults source.old ≤ S.faults source.new }
    ensures sink_never_falls { K.faults sink.old ≤ K.faults sink.new }
    ensures not_read { IsErrOf result Stop.ReadFault → Rose (S.faults source.old) (S.faults source.new) }
    ensures not_written { IsErrOf result Stop.WriteFault → Rose (K.faults sink.old) (K.faults sink.new) }
    ensures source_uncounted { (S.faults source.new ≡ S.faults source.old) ⊎ IsErrOf result Stop.ReadFault }
    ensures sink_uncounted { (K.faults sink.new ≡ K.faults sink.old) ⊎ IsErrOf result Stop.WriteFault }
{
    let mut left = ticks;
    while left > 0 {
        match turn(alloc, left, taken, host, source, sink, clock, draw, keeper) {
            Ok(passed) => left -= passed,
            Err(stop) => return Err(stop),
        }
    }
    Ok(())
}

// The port is read once; the host takes the bytes, and then the ticks pass that the clock tells. The answer is how many.
fn turn<S: Source, K: Sink, C: Clock, D: Draw, P: Keeper>(
    alloc: Global,
    left: u32,
    taken: &mut usize,
    host: &mut Host,
    source: &mut S,
    sink: &mut K,
    clock: &mut C,
    draw: &mut D,
    keeper: &mut P,
) -> Result<u32, Stop>
    requires some { 0 < left }
    requires short { taken.old ≤ MAX_INPUT }
    ensures ok { IfOk result (λ ticks. (one : Turn) × IsTurn C.may_tell left one × (ticks ≡ one.ticks) ×
        Went (turn_steps one) (place host.old (P.shelf keeper.old))
        (place host.new (P.shelf keeper.new)) (K.written sink.old) (K.written sink.new) (S.left source.old)
        (S.left source.new) taken.old taken.new) }
    ensures within { OnOk result (taken.new ≤ MAX_INPUT) }
    ensures some_ticks { IfOk result (λ ticks. (0 < ticks) ⊎ (taken.old < taken.new)) }
    ensures few { IfOk result (λ ticks. ticks ≤ left) }
    ensures more { taken.old ≤ taken.new }
    ensures err { IfErr result (λ stop. Broke (CutTurn C.may_tell left) stop (place host.old (P.shelf keeper.old))
        (place host.new (P.shelf keeper.new)) (K.written sink.old) (K.written sink.new) (S.left source.old)
        (S.left source.new) taken.old) }
    ensures source_never_falls { S.faults source.old ≤ S.faults source.new }
    ensures sink_never_falls { K.faults sink.old ≤ K.faults sink.new }
    ensures not_read { IsErrOf result Stop.ReadFault → Rose (S.faults source.old) (S.faults source.new) }
    ensures not_written { IsErrOf result Stop.WriteFault → Rose (K.faults sink.old) (K.faults sink.new) }
    ensures source_uncounted { (S.faults source.new ≡ S.faults source.old) ⊎ IsErrOf result Stop.ReadFault }
    ensures sink_uncounted { (K.faults sink.new ≡ K.faults sink.old) ⊎ IsErrOf result Stop.WriteFault }
{
    let mut piece = [0; PIECE];
    let got = match source.read(&mut piece) {
        Ok(got) => got,
        Err(_) => return Err(Stop::ReadFault),
    };
    if *taken + got > MAX_INPUT {
        return Err(Stop::InputTooLong);
    }
    *taken += got;
    let ticks = due(got, clock.passed(got), left);
    if let Err(stop) = take_read(alloc, host, &piece[..got], sink, draw, keeper) {
        return Err(stop);
    }
    match tick_all(alloc, ticks, host, sink, draw, keeper) {
        Ok(()) => Ok(ticks),
        Err(stop) => Err(stop),
    }
}

// The host takes what a read gave, and submits what it may; nothing, where that gave no bytes.
fn take_read<K: Sink, D: Draw, P: Keeper>(
    alloc: Global,
    host: &mut Host,
    piece: &[u8],
    sink: &mut K,
    draw: &mut D,
    keeper: &mut P,
) -> Result<(), Stop>
    requires { length piece.now ≤ PIECE }
    ensures ok { OnOk result ((left left' : Option (Items ℕ)) (taken : ℕ) → Consumes left left' piece.now →
        (length piece.now ≡ 0 → IsAtEnd left') →
        Went (piece_steps piece.now) (place host.old (P.shelf keeper.old))
        (place host.new (P.shelf keeper.new)) (K.written sink.old) (K.written sink.new) left left' taken (taken + length piece.now)) }
    ensures err { IfErr result (λ stop. (left left' : Option (Items ℕ)) (taken : ℕ) → Consumes left left' piece.now →
        taken + length piece.now ≤ MAX_INPUT →
        Broke (CutRead piece.now) stop (place host.old (P.shelf keeper.old))
        (place host.new (P.shelf keeper.new)) (K.written sink.old) (K.written sink.new) left left' taken) }
    ensures never_falls { K.faults sink.old ≤ K.faults sink.new }
    ensures failed { IsErrOf result Stop.WriteFault → Rose (K.faults sink.old) (K.faults sink.new) }
    ensures uncounted { (K.faults sink.new ≡ K.faults sink.old) ⊎ IsErrOf result Stop.WriteFault }
{
    if piece.is_empty() {
        return Ok(());
    }
    take_and_pump(alloc, host, piece, sink, draw, keeper)
}

// How many ticks pass in a turn: a read of no bytes is one at least.
fn due(got: usize, passed: u8, left: u32) -> u32
    ensures { result ≡ due got passed left }
{
    let ticks = if got == 0 && passed == 0 { 1 } else { passed };
    left.min(u32::from(ticks))
}
