//! The line of the scenario that is being run.

ghost use Rattle.std.specs.Prelude.{◌≡◌, IfOk, OnOk};
ghost use Rattle.std.specs.Option.{option_copied};
ghost use Rattle.audit_books.specs.Scenes.{line_in, no_line, scene_after};

use std::alloc::Global;
use std::marker::Model;
use zw_base::NoMemory;
use zw_text::{Entry, Line, ReadLineFault, read_line};

/// What the entries so far show of the line that is being run.
#[derive(Drop)]
pub struct Scene {
    line: Option<Line>,
    ticks: bool,
}

impl Model for Scene {
    ghost use Rattle.audit_books.specs.Scenes.{Scenery};

    ghost Value = { Scenery };

    ghost view = { λ s. record { line = s.line; ticks = s.ticks } };
}

/// The line that the words are, where they are one.
fn line_of(alloc: Global, words: &[u8]) -> Result<Option<Line>, NoMemory>
    ensures { IfOk result (λ line. line ≡ line_in words.now) }
{
    match read_line(alloc, words) {
        Ok(line) => Ok(line),
        Err(ReadLineFault::Bad(_)) => Ok(None),
        Err(ReadLineFault::NoMemory) => Err(NoMemory),
    }
}

impl Scene {
    /// Before the first line.
    pub fn new() -> Scene
        ensures { result ≡ no_line }
    {
        Scene {
            line: None,
            ticks: false,
        }
    }

    /// The line that stands directly before what comes next.
    pub fn line(&self) -> Option<&Line>
        ensures { option_copied result ≡ self.now.line }
    {
        match &self.line {
            Some(line) => Some(line),
            None => None,
        }
    }

    /// Whether ticks are being run.
    pub fn ticks(&self) -> bool
        ensures { result ≡ self.now.ticks }
    {
        self.ticks
    }

    /// Takes the next entry.
    pub fn take(&mut self, alloc: Global, entry: &Entry) -> Result<(), NoMemory>
        ensures { OnOk result (self.new ≡ scene_after self.old entry.now) }
    {
        match entry {
            Entry::Said { words } => {
                let line = line_of(alloc, words.as_slice())?;
                self.ticks = matches!(&line, Some(Line::Tick { .. }));
                self.line = line;
            }
            _ => self.line = None,
        }
        Ok(())
    }
}
