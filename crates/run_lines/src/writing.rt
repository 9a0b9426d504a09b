//! Pieces written to a sink.

ghost use Rattle.std.specs.Prelude.{◌≡◌, ◌≤◌, OnOk, OnErr};
ghost use Rattle.std.specs.Io.KnownBytes.{Appends};
ghost use Rattle.zw_base.specs.Faults.{Rose};
ghost use Rattle.run_lines.specs.Writing.{text_of, AppendsPrefix};

use crate::Answer;
use zw_base::{Failed, Sink};

/// Writes the pieces of an answer in their order.
pub fn write_pieces<K: Sink>(sink: &mut K, pieces: &Answer) -> Result<(), Failed>
    ensures written { OnOk result (Appends (K.written sink.old) (K.written sink.new) (text_of pieces.now.items)) }
    ensures prefix { OnErr result (AppendsPrefix (K.written sink.old) (K.written sink.new) (text_of pieces.now.items)) }
    ensures never_falls { K.faults sink.old ≤ K.faults sink.new }
    ensures failed { OnErr result (Rose (K.faults sink.old) (K.faults sink.new)) }
    ensures uncounted { OnOk result (K.faults sink.new ≡ K.faults sink.old) }
{
    write_piece(sink, pieces.text())
}

/// Writes a piece whole, however many bytes the sink takes at a time.
pub fn write_piece<K: Sink>(sink: &mut K, piece: &[u8]) -> Result<(), Failed>
    ensures written { OnOk result (Appends (K.written sink.old) (K.written sink.new) piece.now) }
    ensures prefix { OnErr result (AppendsPrefix (K.written sink.old) (K.written sink.new) piece.now) }
    ensures never_falls { K.faults sink.old ≤ K.faults sink.new }
    ensures failed { OnErr result (Rose (K.faults sink.old) (K.faults sink.new)) }
    ensures uncounted { OnOk result (K.faults sink.new ≡ K.faults sink.old) }
{
    let mut done = 0;
    while done < piece.len() {
        done += sink.write(&piece[done..])?;
    }
    Ok(())
}
