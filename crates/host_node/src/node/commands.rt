//! Commands: from the one that is put to wait, to the session that carries it.

ghost use Rattle.std.specs.Prelude.{◌≡◌, ◌<◌, None, length, OnOk, OnErr, IsOk, ◌↔◌, Contains};
ghost use Rattle.supervision.specs.Host.{begun_of, open_session};
ghost use Rattle.host_node.specs.Steps.{after_put, after_take_back, after_accept, after_occasion, after_cancel, after_begin, after_block, oldest};

use crate::Series;
use crate::node::Node;
use wake_mailbox::NotWaiting;
use zw_base::NoMemory;

/// A session that began.
#[derive(Clone, Copy, Debug, PartialEq, Eq)]
pub struct Begun {
    /// The number of the command that it carries.
    pub command: u32,
    /// Its number, from 1.
    pub session: u64,
}

impl Node {
    /// Puts a command after those that wait, and makes the room for its session. Fewer than 16 wait. While its record is
    /// not kept `take_back` undoes it; once it is, `accept` follows.
    pub fn put(&mut self, command: u32) -> Result<(), NoMemory>
        requires { length self.old.waiting < 16 }
        ensures ok { OnOk result (self.new ≡ after_put self.old command) }
        ensures err { OnErr result (self.new ≡ self.old) }
    {
        let waiting = self.mailbox.len() as usize;
        self.sessions.reserve_for(waiting + 1)?;
        self.mailbox.put(command).unwrap();
        Ok(())
    }

    /// The command that was put last waits no more.
    pub fn take_back(&mut self)
        ensures { self.new ≡ after_take_back self.old }
    {
        let _command = self.mailbox.take_back();
    }

    /// The command that was put last is accepted: an occasion for a new series.
    pub fn accept(&mut self)
        ensures { self.new ≡ after_accept self.old }
    {
        self.take_occasion();
    }

    /// A command that waits is cancelled.
    pub fn cancel(&mut self, command: u32) -> Result<(), NotWaiting>
        ensures waits { IsOk result ↔ Contains self.old.waiting command }
        ensures ok { OnOk result (self.new ≡ after_cancel self.old command) }
        ensures err { OnErr result (self.new ≡ self.old) }
    {
        self.mailbox.cancel(command)?;
        Ok(())
    }

    /// Begins the session of the command that has waited longest, and a series of attempts is due. It takes no memory:
    /// the room was made as the command was put.
    pub fn begin(&mut self) -> Begun
        requires waits { 0 < length self.old.waiting }
        requires closed { open_session self.old.book ≡ None }
        ensures command { result.command ≡ oldest self.old }
        ensures session { result.session ≡ begun_of self.new.book }
        ensures state { self.new ≡ after_begin self.old }
    {
        let command = self.mailbox.pop().unwrap();
        let session = self.sessions.begin(command).unwrap();
        self.series = Series::Due;
        Begun { command, session }
    }

    /// The record of a session was not kept: no session begins before the next tick.
    pub fn block(&mut self)
        ensures { self.new ≡ after_block self.old }
    {
        self.blocked = true;
    }

    // A new series is due where the node is up, its session open and its series over.
    pub(super) fn take_occasion(&mut self)
        ensures { self.new ≡ after_occasion self.old }
    {
        if self.sessions.current().is_some() && self.is_up() && self.series.is_idle() {
            self.sessions.restart_series();
            self.series = Series::Due;
            self.again_wait = 0;
        }
    }
}
