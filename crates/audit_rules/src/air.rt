//! The rule of the air.

ghost use Rattle.std.specs.Prelude.{◌≡◌, IfOk, OnOk};
ghost use Rattle.std.specs.Option.{option_copied};
ghost use Rattle.audit_rules.specs.Flying.{breaks_flying, breaks_landing, flying_after, landing_if, may_hear_now, no_frames, repeats_frame};

use crate::frames::Frames;
use audit_books::{Scene, Sessions};
use std::alloc::Global;
use std::marker::Model;
use zw_base::NoMemory;
use zw_text::{Entry, Line};

/// The frames so far, as the rule of the air asks for them.
#[derive(Drop)]
pub struct Air {
    frames: Frames,
}

impl Model for Air {
    ghost use Rattle.audit_rules.specs.Flying.{Flying};

    ghost Value = { Flying };

    ghost view = { λ a. a.frames };
}

/// Whether the line that stands directly before asks for the frame once more.
fn is_repeated(line: Option<&Line>, frame: u64) -> bool
    ensures { result ≡ repeats_frame (option_copied line.entry) frame }
{
    match line {
        Some(Line::Repeat { frame: asked }) => *asked == frame,
        _ => false,
    }
}

impl Air {
    /// No frames.
    pub fn new(alloc: Global) -> Result<Air, NoMemory>
        ensures { IfOk result (λ air. air ≡ no_frames) }
    {
        Ok(Air {
            frames: Frames::new(alloc)?,
        })
    }

    /// Whether nothing can become of the frame now: it was not sent, or ticks are run and it has landed.
    fn breaks_fate(&self, scene: &Scene, frame: u64) -> bool
        ensures { result ≡ breaks_landing self.now scene.now frame }
    {
        !self.frames.is_sent(frame) || (scene.ticks() && self.frames.has_landed(frame))
    }

    /// Whether the frame can be heard now.
    fn may_hear(&self, scene: &Scene, sessions: &Sessions, frame: u64) -> bool
        ensures { result ≡ may_hear_now self.now scene.now sessions.now frame }
    {
        scene.ticks() || (is_repeated(scene.line(), frame) && self.frames.is_fresh(sessions, frame))
    }

    /// Whether the entry breaks the rule of the air.
    pub fn breaks(&self, scene: &Scene, sessions: &Sessions, entry: &Entry) -> bool
        ensures { result ≡ breaks_flying self.now scene.now sessions.now entry.now }
    {
        match entry {
            Entry::Air { frame, .. } => !self.frames.is_next(*frame),
            Entry::Lost { frame } | Entry::Unheard { frame } => self.breaks_fate(scene, *frame),
            Entry::Heard { frame } => {
                self.breaks_fate(scene, *frame) || !self.may_hear(scene, sessions, *frame)
            }
            _ => false,
        }
    }

    /// Something became of the frame.
    fn land(&mut self, scene: &Scene, frame: u64)
        ensures { self.new ≡ landing_if scene.now.ticks self.old frame }
    {
        if scene.ticks() {
            self.frames.land(frame);
        }
    }

    /// Takes the next entry.
    pub fn take(
        &mut self,
        scene: &Scene,
        sessions: &Sessions,
        entry: &Entry,
    ) -> Result<(), NoMemory>
        ensures { OnOk result (self.new ≡ flying_after self.old scene.now sessions.now entry.now) }
    {
        match entry {
            Entry::Air {
                sender,
                receiver,
                payload,
                ..
            } => self
                .frames
                .send(sessions, *sender, *receiver, payload.bytes())?,
            Entry::Heard { frame } | Entry::Lost { frame } | Entry::Unheard { frame } => {
                self.land(scene, *frame)
            }
            _ => {}
        }
        Ok(())
    }
}
