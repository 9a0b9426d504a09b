//! A queue of command numbers that is bounded.

ghost use Rattle.std.specs.Prelude.{
  ◌≡◌,
  ℕ,
  ◌-◌,
  ◌++◌,
  ◌∷◌,
  [],
  ◌<◌,
  ◌≤◌,
  ◌↔◌,
  length,
  slice_get,
  drop,
  Contains,
  ◌==◌,
  position,
  IsSome,
  IsTrue,
  IsOk,
  IsErr,
  IfOk,
  OnOk,
  OnErr,
};
ghost use Rattle.wake_mailbox.specs.Mailbox.{last_of, without_last, nothing_waits, holding, counting, ticked, ticked_by, TakesOut, Waiting as TheWaiting};

use std::alloc::Global;
use std::marker::Model;
use zw_base::NoMemory;

/// The most commands that wait for one node.
pub const CAPACITY: usize = 16;

/// How many ticks of 100 ms a node is held awake.
pub const HOLD_TICKS: u8 = 100;

/// Sixteen commands wait already.
#[derive(Clone, Copy, Debug, PartialEq, Eq)]
pub struct Full;

/// That command does not wait.
#[derive(Clone, Copy, Debug, PartialEq, Eq)]
pub struct NotWaiting;

/// The commands that wait for a node, by number, whether the node counts as awake, and for how many more ticks it is held
/// awake. Contracts see the three.
#[derive(Debug, Drop)]
pub struct Mailbox {
    commands: Vec<u32>,
    awake: bool,
    hold: u8,
}

impl Model for Mailbox {
    ghost use Rattle.std.specs.Prelude.{◌≤◌, vec_len, vec_capacity};
    ghost use Rattle.wake_mailbox.specs.Mailbox.{last_of, without_last, Waiting};

    ghost Value = { Waiting };

    ghost view = { λ m. record { commands = m.commands.items; awake = m.awake; hold = m.hold } };

    ghost invariant = { λ m. (vec_len m.commands ≤ 16) × (16 ≤ vec_capacity m.commands) };
}

impl Mailbox {
    /// Makes the room for sixteen commands. None waits, and the node counts as asleep.
    pub fn new(alloc: Global) -> Result<Mailbox, NoMemory>
        ensures { IfOk result (λ mailbox. mailbox ≡ nothing_waits) }
    {
        Ok(Mailbox {
            commands: Vec::with_capacity(alloc, CAPACITY)?,
            awake: false,
            hold: 0,
        })
    }

    /// Puts a command after those that wait.
    pub fn put(&mut self, command: u32) -> Result<(), Full>
        ensures full { IsErr result ↔ (length self.old.commands ≡ CAPACITY) }
        ensures ok { OnOk result (self.new ≡ holding self.old (self.old.commands ++ command ∷ [])) }
        ensures err { OnErr result (self.new ≡ self.old) }
    {
        if self.commands.len() == CAPACITY {
            return Err(Full);
        }
        self.commands.push_reserved(command);
        Ok(())
    }

    /// The command that has waited longest.
    pub fn front(&self) -> Option<u32>
        ensures { result ≡ slice_get self.now.commands 0 }
    {
        self.commands.first().copied()
    }

    /// Takes out the command that has waited longest.
    pub fn pop(&mut self) -> Option<u32>
        ensures front { result ≡ slice_get self.old.commands 0 }
        ensures rest { self.new ≡ holding self.old (drop 1 self.old.commands) }
    {
        if self.commands.is_empty() {
            None
        } else {
            Some(self.commands.remove(0))
        }
    }

    /// Takes out the command of that number.
    pub fn cancel(&mut self, command: u32) -> Result<(), NotWaiting>
        ensures waits { IsOk result ↔ Contains self.old.commands command }
        ensures ok { OnOk result (TakesOut self.old.commands self.new.commands command) }
        ensures err { OnErr result (self.new.commands ≡ self.old.commands) }
        ensures awake { self.new.awake ≡ self.old.awake }
        ensures hold { self.new.hold ≡ self.old.hold }
    {
        match place_of(&self.commands, command) {
            Some(place) => {
                self.commands.remove(place);
                Ok(())
            }
            None => Err(NotWaiting),
        }
    }

    /// Takes out the command that was put last.
    pub fn take_back(&mut self) -> Option<u32>
        ensures last { result ≡ last_of self.old.commands }
        ensures rest { self.new ≡ holding self.old (without_last self.old.commands) }
    {
        self.commands.pop()
    }

    /// Whether that command waits.
    pub fn waits(&self, command: u32) -> bool
        ensures { IsTrue result ↔ Contains self.now.commands command }
    {
        place_of(&self.commands, command).is_some()
    }

    /// How many commands wait, 0 to 16.
    pub fn len(&self) -> u8
        ensures count { result ≡ length self.now.commands }
        ensures bound { result ≤ 16 }
    {
        self.commands.len() as u8
    }

    /// Whether no command waits.
    pub fn is_empty(&self) -> bool
        ensures { IsTrue result ↔ (self.now.commands ≡ []) }
    {
        self.commands.is_empty()
    }

    /// Counts the node as awake or asleep from now on. Where it is asleep it is held no longer.
    pub fn set_awake(&mut self, awake: bool)
        ensures { self.new ≡ counting self.old awake }
    {
        self.awake = awake;
        if !awake {
            self.hold = 0;
        }
    }

    /// Whether the node counts as awake.
    pub fn is_awake(&self) -> bool
        ensures { result ≡ self.now.awake }
    {
        self.awake
    }

    /// Holds the node awake for the next hundred ticks.
    pub fn hold(&mut self)
        ensures { self.new ≡ record self.old { hold = HOLD_TICKS } }
    {
        self.hold = HOLD_TICKS;
    }

    /// Counts one tick of 100 ms.
    pub fn tick(&mut self)
        ensures { self.new ≡ ticked self.old }
    {
        self.hold = self.hold.saturating_sub(1);
    }

    /// Whether the node is held awake.
    pub fn is_held(&self) -> bool
        ensures { IsTrue result ↔ (0 < self.now.hold) }
    {
        self.hold > 0
    }
}

/// Where the command waits first, from 0.
fn place_of(commands: &[u32], command: u32) -> Option<usize>
    ensures waits { IsSome result ↔ Contains commands.now command }
    ensures place { result ≡ position (λ waiting. waiting == command) commands.now }
{
    commands.iter().position(|waiting| *waiting == command)
}

/// A hold lasts until its hundredth tick: whatever was held before, so many ticks later the node is held exactly where
/// they are fewer than a hundred.
pub fn a_hold_lasts_a_hundred_ticks()
    ensures left { (mailbox : TheWaiting) (ticks : ℕ)
        → (ticked_by ticks (record mailbox { hold = HOLD_TICKS })).hold ≡ HOLD_TICKS - ticks }
    ensures held { (mailbox : TheWaiting) (ticks : ℕ)
        → (0 < (ticked_by ticks (record mailbox { hold = HOLD_TICKS })).hold) ↔ (ticks < HOLD_TICKS) }
{}
