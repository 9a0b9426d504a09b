//! The steps of the host of a port: each is one call of the host, and the units that it puts out are written before the next.

ghost use Rattle.std.specs.Prelude.{◌≡◌, ◌⊎◌, ◌+◌, ◌≤◌, ◌∷◌, [], ℕ, List as Items, Option, length, OnOk, IfErr, IfOk, IsErrOf};
ghost use Rattle.std.specs.Io.KnownBytes.{Appends, Consumes};
ghost use Rattle.zw_base.specs.Faults.{Rose};
ghost use Rattle.run_lines.specs.declared.reader.TheConstants.{MAX_INPUT, PIECE};
ghost use Rattle.port_run.specs.Steps.{place, Asks, Takes, Ticks, Pumps};
ghost use Rattle.port_run.specs.Schedule.{tick_steps, CutIn, CutTaking, CutPiece, CutPlain};
ghost use Rattle.port_run.specs.Serving.{unit_bytes, units_of, WritesPart, WritesSome, Went, Broke};

use crate::Stop;
use crate::asking::{Answer, ask};
use host_core::{Host, HostOut};
use host_keep::Keeper;
use run_lines::write_piece;
use serial_frame::encode;
use std::alloc::Global;
use zw_base::{Draw, List, Sink};
use zw_text::Line;

/// Writes the units among what the host put out, in their order.
fn write_units<K: Sink>(alloc: Global, sink: &mut K, outs: &[HostOut]) -> Result<(), Stop>
    ensures ok { OnOk result (Appends (K.written sink.old) (K.written sink.new) (units_of outs.now)) }
    ensures err { IfErr result (λ stop. WritesSome stop (K.written sink.old) (K.written sink.new) outs.now) }
    ensures never_falls { K.faults sink.old ≤ K.faults sink.new }
    ensures failed { IsErrOf result Stop.WriteFault → Rose (K.faults sink.old) (K.faults sink.new) }
    ensures uncounted { (K.faults sink.new ≡ K.faults sink.old) ⊎ IsErrOf result Stop.WriteFault }
{
    for one in outs {
        if let Err(stop) = write_unit(alloc, sink, one) {
            return Err(stop);
        }
    }
    Ok(())
}

// Writes a unit; a note is not written.
fn write_unit<K: Sink>(alloc: Global, sink: &mut K, one: &HostOut) -> Result<(), Stop>
    ensures ok { OnOk result (Appends (K.written sink.old) (K.written sink.new) (unit_bytes one.now)) }
    ensures err { IfErr result (λ stop. WritesPart stop (K.written sink.old) (K.written sink.new) (unit_bytes one.now)) }
    ensures never_falls { K.faults sink.old ≤ K.faults sink.new }
    ensures failed { IsErrOf result Stop.WriteFault → Rose (K.faults sink.old) (K.faults sink.new) }
    ensures uncounted { (K.faults sink.new ≡ K.faults sink.old) ⊎ IsErrOf result Stop.WriteFault }
{
    match one {
        HostOut::Write(unit) => {
            let Ok(bytes) = encode(alloc, unit) else {
                return Err(Stop::NoMemory);
            };
            match write_piece(sink, bytes.as_slice()) {
                Ok(()) => Ok(()),
                Err(_) => Err(Stop::WriteFault),
            }
        }
        HostOut::Note(_) => Ok(()),
    }
}

/// The host submits what it may.
pub(crate) fn pump<K: Sink, D: Draw, P: Keeper>(
    alloc: Global,
    host: &mut Host,
    sink: &mut K,
    draw: &mut D,
    keeper: &mut P,
) -> Result<(), Stop>
    ensures ok { OnOk result ((left : Option (Items ℕ)) (taken : ℕ) →
        Went (Pumps ∷ []) (place host.old (P.shelf keeper.old))
        (place host.new (P.shelf keeper.new)) (K.written sink.old) (K.written sink.new) left left taken taken) }
    ensures err { IfErr result (λ stop. (left : Option (Items ℕ)) (taken : ℕ) → taken ≤ MAX_INPUT →
        Broke (CutIn (Pumps ∷ [])) stop (place host.old (P.shelf keeper.old))
        (place host.new (P.shelf keeper.new)) (K.written sink.old) (K.written sink.new) left left taken) }
    ensures never_falls { K.faults sink.old ≤ K.faults sink.new }
    ensures failed { IsErrOf result Stop.WriteFault → Rose (K.faults sink.old) (K.faults sink.new) }
    ensures uncounted { (K.faults sink.new ≡ K.faults sink.old) ⊎ IsErrOf result Stop.WriteFault }
{
    let mut outs = List::new(alloc);
    match host.pump(draw, &mut outs, keeper) {
        Ok(()) => write_units(alloc, sink, outs.as_slice()),
        Err(_) => Err(Stop::NoMemory),
    }
}

// The host takes bytes.
fn take<K: Sink, D: Draw, P: Keeper>(
    alloc: Global,
    host: &mut Host,
    piece: &[u8],
    sink: &mut K,
    draw: &mut D,
    keeper: &mut P,
) -> Result<(), Stop>
    requires { length piece.now ≤ PIECE }
    ensures ok { OnOk result ((left left' : Option (Items ℕ)) (taken : ℕ) → Consumes left left' piece.now →
        Went (Takes piece.now ∷ []) (place host.old (P.shelf keeper.old))
        (place host.new (P.shelf keeper.new)) (K.written sink.old) (K.written sink.new) left left' taken (taken + length piece.now)) }
    ensures err { IfErr result (λ stop. (left left' : Option (Items ℕ)) (taken : ℕ) → Consumes left left' piece.now →
        taken + length piece.now ≤ MAX_INPUT →
        Broke (CutTaking piece.now) stop (place host.old (P.shelf keeper.old))
        (place host.new (P.shelf keeper.new)) (K.written sink.old) (K.written sink.new) left left' taken) }
    ensures never_falls { K.faults sink.old ≤ K.faults sink.new }
    ensures failed { IsErrOf result Stop.WriteFault → Rose (K.faults sink.old) (K.faults sink.new) }
    ensures uncounted { (K.faults sink.new ≡ K.faults sink.old) ⊎ IsErrOf result Stop.WriteFault }
{
    let mut outs = List::new(alloc);
    match host.feed(piece, draw, &mut outs, keeper) {
        Ok(()) => write_units(alloc, sink, outs.as_slice()),
        Err(_) => Err(Stop::NoMemory),
    }
}

// A tick of 100 ms passes.
fn tick<K: Sink, D: Draw, P: Keeper>(
    alloc: Global,
    host: &mut Host,
    sink: &mut K,
    draw: &mut D,
    keeper: &mut P,
) -> Result<(), Stop>
    ensures ok { OnOk result ((left : Option (Items ℕ)) (taken : ℕ) →
        Went (Ticks ∷ []) (place host.old (P.shelf keeper.old))
        (place host.new (P.shelf keeper.new)) (K.written sink.old) (K.written sink.new) left left taken taken) }
    ensures err { IfErr result (λ stop. (left : Option (Items ℕ)) (taken : ℕ) → taken ≤ MAX_INPUT →
        Broke (CutIn (Ticks ∷ [])) stop (place host.old (P.shelf keeper.old))
        (place host.new (P.shelf keeper.new)) (K.written sink.old) (K.written sink.new) left left taken) }
    ensures never_falls { K.faults sink.old ≤ K.faults sink.new }
    ensures failed { IsErrOf result Stop.WriteFault → Rose (K.faults sink.old) (K.faults sink.new) }
    ensures uncounted { (K.faults sink.new ≡ K.faults sink.old) ⊎ IsErrOf result Stop.WriteFault }
{
    let mut outs = List::new(alloc);
    match host.tick(draw, &mut outs, keeper) {
        Ok(()) => write_units(alloc, sink, outs.as_slice()),
        Err(_) => Err(Stop::NoMemory),
    }
}

// A tick passes, and the host submits what it may.
fn tick_and_pump<K: Sink, D: Draw, P: Keeper>(
    alloc: Global,
    host: &mut Host,
    sink: &mut K,
    draw: &mut D,
    keeper: &mut P,
) -> Result<(), Stop>
    ensures ok { OnOk result ((left : Option (Items ℕ)) (taken : ℕ) →
        Went (Ticks ∷ Pumps ∷ []) (place host.old (P.shelf keeper.old))
        (place host.new (P.shelf keeper.new)) (K.written sink.old) (K.written sink.new) left left taken taken) }
    ensures err { IfErr result (λ stop. (left : Option (Items ℕ)) (taken : ℕ) → taken ≤ MAX_INPUT →
        Broke (CutIn (Ticks ∷ Pumps ∷ [])) stop (place host.old (P.shelf keeper.old))
        (place host.new (P.shelf keeper.new)) (K.written sink.old) (K.written sink.new) left left taken) }
    ensures never_falls { K.faults sink.old ≤ K.faults sink.new }
    ensures failed { IsErrOf result Stop.WriteFault → Rose (K.faults sink.old) (K.faults sink.new) }
    ensures uncounted { (K.faults sink.new ≡ K.faults sink.old) ⊎ IsErrOf result Stop.WriteFault }
{
    match tick(alloc, host, sink, draw, keeper) {
        Ok(()) => pump(alloc, host, sink, draw, keeper),
        Err(stop) => Err(stop),
    }
}

/// So many ticks pass, and the host submits what it may after each.
pub(crate) fn tick_all<K: Sink, D: Draw, P: Keeper>(
    alloc: Global,
    ticks: u32,
    host: &mut Host,
    sink: &mut K,
    draw: &mut D,
    keeper: &mut P,
) -> Result<(), Stop>
    ensures ok { OnOk result ((left : Option (Items ℕ)) (taken : ℕ) →
        Went (tick_steps ticks) (place host.old (P.shelf keeper.old))
        (place host.new (P.shelf keeper.new)) (K.written sink.old) (K.written sink.new) left left taken taken) }
    ensures err { IfErr result (λ stop. (left : Option (Items ℕ)) (taken : ℕ) → taken ≤ MAX_INPUT →
        Broke (CutIn (tick_steps ticks)) stop (place host.old (P.shelf keeper.old))
        (place host.new (P.shelf keeper.new)) (K.written sink.old) (K.written sink.new) left left taken) }
    ensures never_falls { K.faults sink.old ≤ K.faults sink.new }
    ensures failed { IsErrOf result Stop.WriteFault → Rose (K.faults sink.old) (K.faults sink.new) }
    ensures uncounted { (K.faults sink.new ≡ K.faults sink.old) ⊎ IsErrOf result Stop.WriteFault }
{
    for _ in 0..ticks {
        if let Err(stop) = tick_and_pump(alloc, host, sink, draw, keeper) {
            return Err(stop);
        }
    }
    Ok(())
}

/// The host takes bytes, and submits what it may.
pub(crate) fn take_and_pump<K: Sink, D: Draw, P: Keeper>(
    alloc: Global,
    host: &mut Host,
    piece: &[u8],
    sink: &mut K,
    draw: &mut D,
    keeper: &mut P,
) -> Result<(), Stop>
    requires { length piece.now ≤ PIECE }
    ensures ok { OnOk result ((left left' : Option (Items ℕ)) (taken : ℕ) → Consumes left left' piece.now →
        Went (Takes piece.now ∷ Pumps ∷ []) (place host.old (P.shelf keeper.old))
        (place host.new (P.shelf keeper.new)) (K.written sink.old) (K.written sink.new) left left' taken (taken + length piece.now)) }
    ensures err { IfErr result (λ stop. (left left' : Option (Items ℕ)) (taken : ℕ) → Consumes left left' piece.now →
        taken + length piece.now ≤ MAX_INPUT →
        Broke (CutPiece piece.now) stop (place host.old (P.shelf keeper.old))
        (place host.new (P.shelf keeper.new)) (K.written sink.old) (K.written sink.new) left left' taken) }
    ensures never_falls { K.faults sink.old ≤ K.faults sink.new }
    ensures failed { IsErrOf result Stop.WriteFault → Rose (K.faults sink.old) (K.faults sink.new) }
    ensures uncounted { (K.faults sink.new ≡ K.faults sink.old) ⊎ IsErrOf result Stop.WriteFault }
{
    match take(alloc, host, piece, sink, draw, keeper) {
        Ok(()) => pump(alloc, host, sink, draw, keeper),
        Err(stop) => Err(stop),
    }
}

/// A line but `wait` is run: it has its effect, and the host submits what it may.
pub(crate) fn run_plain<K: Sink, D: Draw, P: Keeper>(
    alloc: Global,
    line: &Line,
    host: &mut Host,
    sink: &mut K,
    draw: &mut D,
    keeper: &mut P,
) -> Result<Answer, Stop>
    ensures ok { IfOk result (λ answer. (left : Option (Items ℕ)) (taken : ℕ) →
        Went (Asks line.now answer ∷ Pumps ∷ []) (place host.old (P.shelf keeper.old))
        (place host.new (P.shelf keeper.new)) (K.written sink.old) (K.written sink.new) left left taken taken) }
    ensures err { IfErr result (λ stop. (left : Option (Items ℕ)) (taken : ℕ) → taken ≤ MAX_INPUT →
        Broke (CutPlain line.now) stop (place host.old (P.shelf keeper.old))
        (place host.new (P.shelf keeper.new)) (K.written sink.old) (K.written sink.new) left left taken) }
    ensures never_falls { K.faults sink.old ≤ K.faults sink.new }
    ensures failed { IsErrOf result Stop.WriteFault → Rose (K.faults sink.old) (K.faults sink.new) }
    ensures uncounted { (K.faults sink.new ≡ K.faults sink.old) ⊎ IsErrOf result Stop.WriteFault }
{
    let answer = match ask(host, line, keeper) {
        Ok(answer) => answer,
        Err(_) => return Err(Stop::NoMemory),
    };
    match pump(alloc, host, sink, draw, keeper) {
        Ok(()) => Ok(answer),
        Err(stop) => Err(stop),
    }
}
