//! `host`: the command of the program.

ghost use Rattle.std.specs.Prelude.{◌≡◌, ◌≤◌, ◌⊎◌};
ghost use Rattle.zw_base.specs.Faults.{Rose};
ghost use Rattle.port_run.specs.Lines.{texts_of};
ghost use Rattle.port_run.specs.Ending.{desk, HostRan, HasGoodPort, IsServed};

use crate::{QuietClock, serve};
use host_keep::Keeper;
use run_lines::Status;
use std::alloc::Global;
use zw_base::{Draw, Sink, Source};

/// Drives a port by the lines that the words after `host` are, with a clock that takes a quiet moment for a tick. `key` is the network key
/// of the host; `keeper` holds its records.
pub fn run_host<S: Source, K: Sink, D: Draw, P: Keeper>(
    alloc: Global,
    lines: &[String],
    source: &mut S,
    sink: &mut K,
    key: [u8; 16],
    draw: &mut D,
    keeper: &mut P,
) -> Status
    ensures ran { HostRan result key (P.number keeper.old) (texts_of lines.now)
        (desk (S.left source.old) (K.written sink.old) (P.shelf keeper.old))
        (desk (S.left source.new) (K.written sink.new) (P.shelf keeper.new)) }
    ensures source_never_falls { S.faults source.old ≤ S.faults source.new }
    ensures sink_never_falls { K.faults sink.old ≤ K.faults sink.new }
    ensures read_fault { result ≡ Status.ReadFault → Rose (S.faults source.old) (S.faults source.new) }
    ensures write_fault { result ≡ Status.WriteFault → Rose (K.faults sink.old) (K.faults sink.new) }
    ensures source_uncounted { (S.faults source.new ≡ S.faults source.old) ⊎ (result ≡ Status.ReadFault) }
    ensures sink_uncounted { (K.faults sink.new ≡ K.faults sink.old) ⊎ (result ≡ Status.WriteFault) }
    ensures keeper_fault { result ≡ Status.KeeperFault → Rose (P.shelf keeper.old).faults (P.shelf keeper.new).faults }
    ensures complete { HasGoodPort (texts_of lines.now) (S.left source.old) → (Rose (S.faults source.old) (S.faults source.new) → ⊥)
        → (Rose (K.faults sink.old) (K.faults sink.new) → ⊥) → (Rose (P.shelf keeper.old).faults (P.shelf keeper.new).faults → ⊥) → IsServed result }
{
    let mut clock = QuietClock;
    let served = serve(alloc, lines, source, sink, &mut clock, key, draw, keeper);
    served.status()
}
