//! What the sender of supervised commands keeps of one node.

ghost use Rattle.std.specs.Prelude.{◌≡◌, ◌≢◌, ℕ, ◌+◌, ◌<◌, ◌≤◌, ◌↔◌, Option, Some, None, Err, IsSome, IfOk, OnOk, OnErr};
ghost use Rattle.supervision.specs.Session.{IsStatus};
ghost use Rattle.supervision.specs.Host.{no_sessions, begun_of, open_session, command_at, begins, with_attempts, told_of, after_report};

use crate::session::{WORKING, session_id};
use std::alloc::Global;
use std::marker::Model;
use zw_base::NoMemory;

/// The most attempts of one series.
pub const MAX_ATTEMPTS: u8 = 3;

/// Why no session was begun.
#[derive(Clone, Copy, Debug, PartialEq, Eq)]
pub enum BeginFault {
    /// That session has no final report.
    StillBegun(u64),
    /// There was no memory.
    NoMemory,
}

impl From<NoMemory> for BeginFault {
    ghost use Rattle.std.specs.Prelude.{◌≡◌};
    ghost use Rattle.supervision.specs.declared.host_node.BeginFault.TheVariants.{NoMemory as no_memory};

    ghost from_gives = { λ _ e. e ≡ no_memory };

    fn from(_error: NoMemory) -> BeginFault {
        BeginFault::NoMemory
    }
}

/// What a report says to the sender.
#[derive(Clone, Copy, Debug, PartialEq, Eq)]
pub enum Told {
    /// That session has its final report now.
    Final(u64),
    /// The device is still at work on the open session.
    Working,
    /// Nothing: no session is open, or the report is of another one.
    Old,
}

/// The sessions of one node, at the sender. Contracts see its book, and for how many more sessions it has room.
#[derive(Debug, Drop)]
pub struct HostNode {
    commands: Vec<u32>,
    outcome: Option<u8>,
    attempts: u8,
}

impl Model for HostNode {
    ghost use Rattle.std.specs.Prelude.{◌-◌, vec_len, vec_capacity};
    ghost use Rattle.supervision.specs.Host.{Roomy};

    ghost Value = { Roomy };

    ghost view = { λ n. record {
      book = record { commands = n.commands.items; outcome = n.outcome; attempts = n.attempts };
      room = vec_capacity n.commands - vec_len n.commands;
    } };
}

impl HostNode {
    /// No sessions. It takes no memory.
    pub fn new(alloc: Global) -> HostNode
        ensures { result.book ≡ no_sessions }
    {
        HostNode {
            commands: Vec::new(alloc),
            outcome: None,
            attempts: 0,
        }
    }

    /// Makes room for one more session.
    pub fn reserve(&mut self) -> Result<(), NoMemory>
        ensures book { self.new.book ≡ self.old.book }
        ensures ok { OnOk result (0 < self.new.room) }
        ensures full { OnErr result (self.old.room ≡ 0) }
        ensures grows { self.old.room ≤ self.new.room }
        ensures err { OnErr result (self.new ≡ self.old) }
    {
        self.commands.reserve(1)?;
        Ok(())
    }

    /// Makes room for so many more sessions.
    pub fn reserve_for(&mut self, sessions: usize) -> Result<(), NoMemory>
        ensures book { self.new.book ≡ self.old.book }
        ensures ok { OnOk result (sessions ≤ self.new.room) }
        ensures err { OnErr result (self.new ≡ self.old) }
    {
        self.commands.reserve(sessions)?;
        Ok(())
    }

    /// Begins the next session, for this command, and answers its number.
    pub fn begin(&mut self, command: u32) -> Result<u64, BeginFault>
        ensures ok { OnOk result (self.new.book ≡ begins self.old.book command) }
        ensures number { IfOk result (λ session. session ≡ begun_of self.new.book) }
        ensures still_begun { (session : ℕ) →
            (result ≡ Err (BeginFault.StillBegun session)) ↔ (open_session self.old.book ≡ Some session) }
        ensures err { OnErr result (self.new ≡ self.old) }

        // After `reserve` it cannot fail for lack of memory, and it takes up one place.
        ensures room { 0 < self.old.room → result ≢ Err BeginFault.NoMemory }
        ensures places { self.old.room ≤ self.new.room + 1 }
    {
        if let Some(session) = self.current() {
            return Err(BeginFault::StillBegun(session));
        }
        self.reserve()?;
        self.commands.push_reserved(command);
        self.outcome = None;
        self.attempts = 0;
        Ok(self.sessions())
    }

    /// The session that was begun and has no final report.
    pub fn current(&self) -> Option<u64>
        ensures { result ≡ open_session self.now.book }
    {
        if self.outcome.is_some() || self.commands.is_empty() {
            None
        } else {
            Some(self.commands.len() as u64)
        }
    }

    /// Takes a Supervision Report with this id and status.
    pub fn report(&mut self, id: u8, status: u8) -> Told
        requires six_bits { id < 64 }
        requires known { IsStatus status }
        ensures answer { result ≡ told_of self.old.book id status }
        ensures book { self.new.book ≡ after_report self.old.book id status }
        ensures room { self.new.room ≡ self.old.room }
    {
        match self.current() {
            Some(session) if session_id(session) == id => {
                if status == WORKING {
                    return Told::Working;
                }
                self.outcome = Some(status);
                Told::Final(session)
            }
            _ => Told::Old,
        }
    }

    /// How many attempts of the series have ended, 0 to 3.
    pub fn attempts(&self) -> u8
        ensures { result ≡ self.now.book.attempts }
    {
        self.attempts
    }

    /// Counts one attempt of the series that ended without a report, and answers how many there are now.
    pub fn end_attempt(&mut self) -> u8
        requires open { IsSome (open_session self.old.book) }
        requires more { self.old.book.attempts < MAX_ATTEMPTS }
        ensures count { result ≡ self.old.book.attempts + 1 }
        ensures counted { self.new.book ≡ with_attempts self.old.book result }
        ensures room { self.new.room ≡ self.old.room }
    {
        self.attempts += 1;
        self.attempts
    }

    /// Starts a new series of attempts.
    pub fn restart_series(&mut self)
        ensures book { self.new.book ≡ with_attempts self.old.book 0 }
        ensures room { self.new.room ≡ self.old.room }
    {
        self.attempts = 0;
    }

    /// How many sessions were begun.
    pub fn sessions(&self) -> u64
        ensures { result ≡ begun_of self.now.book }
    {
        self.commands.len() as u64
    }

    /// The commands of the sessions begun, in order: the first is that of session 1.
    pub fn commands(&self) -> &[u32]
        ensures { result.now ≡ self.now.book.commands }
    {
        self.commands.as_slice()
    }

    /// The command of a session, 1 to `sessions`.
    pub fn command_of(&self, session: u64) -> Option<u32>
        ensures { result ≡ command_at self.now.book.commands session }
    {
        let before = session.checked_sub(1)?;
        self.commands.get(before as usize).copied()
    }
}
