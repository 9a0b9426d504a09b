//! A frame for the host, with the memory of its first copy.

ghost use Rattle.std.specs.Prelude.{◌≡◌, IfOk};

use serial_frame::Frame;
use std::alloc::Global;
use std::marker::Model;
use zw_base::NoMemory;

/// A frame and a copy of it, so that it can be submitted with no further memory. Contracts see the frame.
#[derive(Debug, Drop)]
pub struct Post {
    frame: Frame,
    copy: Frame,
}

impl Model for Post {
    ghost use Rattle.std.specs.Prelude.{◌≡◌};
    ghost use Rattle.serial_frame.specs.Frame.{FrameParts};

    ghost Value = { FrameParts };

    ghost view = { λ p. p.frame };

    ghost invariant = { λ p. p.copy ≡ p.frame };
}

impl Post {
    /// The frame with a copy of it.
    pub fn of(alloc: Global, frame: Frame) -> Result<Post, NoMemory>
        ensures { IfOk result (λ post. post ≡ frame) }
    {
        let copy = frame.copy(alloc)?;
        Ok(Post { frame, copy })
    }

    /// The frame, and the copy of it.
    pub fn into_parts(self) -> (Frame, Frame)
        ensures frame { result.0 ≡ self }
        ensures copy { result.1 ≡ self }
    {
        (self.frame, self.copy)
    }
}
