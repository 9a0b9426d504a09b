//! What is to happen to the next units of a side.

ghost use Rattle.std.specs.Prelude.{◌≡◌, ◌++◌, ◌+◌, ◌-◌, ◌∷◌, [], OnOk, OnErr};
ghost use Rattle.serial_pipes.specs.State.{mark_for, used_up};

use serial_frame::Unit;
use std::alloc::Global;
use std::collections::VecDeque;
use std::marker::Model;
use zw_base::NoMemory;

/// A byte of a data frame that is to be changed: its place from Type on, and what it is combined with by exclusive or.
#[derive(Clone, Copy, Debug, PartialEq, Eq)]
pub struct Garble {
    pub place: u8,
    pub xor: u8,
}

/// The mark that a unit uses up.
#[derive(Clone, Copy, Debug, PartialEq, Eq)]
pub enum Mark {
    /// None: it goes on as it is.
    Free,
    /// It is lost.
    Lost,
    /// It is a data frame, and is changed.
    Changed(Garble),
}

/// How many of the next units are to be lost, and how the next data frames are to be changed, in the order of their
/// lines.
#[derive(Drop)]
pub(crate) struct Marks {
    drops: u64,
    garbles: VecDeque<Garble>,
}

impl Model for Marks {
    ghost use Rattle.serial_pipes.specs.State.{MarksState};

    ghost Value = { MarksState };

    ghost view = { λ m. record { drops = m.drops; garbles = m.garbles.items } };
}

impl Marks {
    /// No marks. It takes no memory.
    pub(crate) fn new(alloc: Global) -> Marks
        ensures { result ≡ record { drops = 0; garbles = [] } }
    {
        Marks {
            drops: 0,
            garbles: VecDeque::new(alloc),
        }
    }

    /// One more unit is to be lost.
    pub(crate) fn add_drop(&mut self) -> Result<(), NoMemory>
        ensures ok { OnOk result (self.new ≡ record self.old { drops = self.old.drops + 1 }) }
        ensures err { OnErr result (self.new ≡ self.old) }
    {
        self.drops = self.drops.checked_add(1).ok_or(NoMemory)?;
        Ok(())
    }

    /// One more data frame is to be changed.
    pub(crate) fn add_garble(&mut self, garble: Garble) -> Result<(), NoMemory>
        ensures ok { OnOk result (self.new ≡ record self.old { garbles = self.old.garbles ++ garble ∷ [] }) }
        ensures err { OnErr result (self.new ≡ self.old) }
    {
        self.garbles.push_back(garble)?;
        Ok(())
    }

    /// The mark that a unit uses up: one of the losses, else the oldest change where it is a data frame.
    pub(crate) fn mark_for(&self, unit: &Unit) -> Mark
        ensures { result ≡ mark_for self.now unit.now }
    {
        if self.drops > 0 {
            return Mark::Lost;
        }
        match (unit, self.garbles.front()) {
            (Unit::Framed(_), Some(garble)) => Mark::Changed(*garble),
            _ => Mark::Free,
        }
    }

    /// That mark is used up.
    pub(crate) fn use_up(&mut self, mark: Mark)
        ensures { self.new ≡ used_up self.old mark }
    {
        match mark {
            Mark::Free => {}
            Mark::Lost => self.drops = self.drops.saturating_sub(1),
            Mark::Changed(_) => {
                let _ = self.garbles.pop_front();
            }
        }
    }
}
