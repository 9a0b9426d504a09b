//! Data frames (Serial API: frame layout).

ghost use Rattle.std.specs.Prelude.{◌≡◌, IfOk};

use std::alloc::Global;
use std::marker::Model;
use zw_base::{Bytes, NoMemory};

/// The longest body of a frame: a length byte counts itself, type, function and body.
pub const MAX_BODY: usize = 252;

/// The type of a frame.
#[derive(Clone, Copy, Debug, PartialEq, Eq)]
pub enum Kind {
    /// Type 0x00.
    Request,
    /// Type 0x01.
    Response,
}

/// A data frame, with a body of at most 252 bytes. Contracts see its three parts.
#[derive(Debug, Drop)]
pub struct Frame {
    pub kind: Kind,
    /// The function of the Serial API, any byte.
    pub func: u8,
    pub body: Bytes,
}

impl Model for Frame {
    ghost use Rattle.std.specs.Prelude.{◌≤◌, length};
    ghost use Rattle.serial_frame.specs.Frame.{FrameParts};

    ghost Value = { FrameParts };

    ghost view = { λ f. record { kind = f.kind; func = f.func; body = f.body } };

    ghost invariant = { λ f. length f.body ≤ 252 };
}

impl Frame {
    /// A frame with the same parts.
    pub fn copy(&self, alloc: Global) -> Result<Frame, NoMemory>
        ensures { IfOk result (λ copy. copy ≡ self.now) }
    {
        Ok(Frame {
            kind: self.kind,
            func: self.func,
            body: Bytes::from_slice(alloc, self.body.as_slice())?,
        })
    }
}
