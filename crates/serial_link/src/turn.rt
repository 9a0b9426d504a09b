//! The frame that a side submitted, from its first copy to Sent or Failed.

ghost use Rattle.std.specs.Prelude.{◌≡◌, ◌++◌, ◌+◌, ◌<◌, ◌≤◌, ◌↔◌, IsTrue, IfOk};
ghost use Rattle.serial_link.specs.State.{
  IsBusy,
  IsTurn,
  pause_after,
  outs_acknowledged,
  turn_ended,
  outs_ended,
  turn_refused,
  outs_refused,
  copy_due,
  turn_ticked,
  outs_ticked,
};

use crate::LinkOut;
use serial_frame::{Frame, Unit};
use std::alloc::Global;
use std::mem;
use zw_base::{List, NoMemory};

/// How many copies of a frame are written at most.
const MAX_COPIES: u8 = 4;

/// The tick after it was written at which a copy ends.
const COPY_TICKS: u8 = 15;

/// The pauses after the first, the second and the third copy, in ticks.
const FIRST_PAUSE: u8 = 1;

const SECOND_PAUSE: u8 = 11;

const THIRD_PAUSE: u8 = 21;

/// The frame of one's own. Ticks are of 100 ms.
#[derive(Debug, Drop)]
pub enum Turn {
    /// No frame is submitted, or the last one was Sent or Failed.
    Idle,
    /// The copy with this number (1 to 4) was written so many ticks ago (0 to 14).
    Copied { frame: Frame, copies: u8, ticks: u8 },
    /// The copy with this number (1 to 3) ended so many ticks ago, without ACK.
    Paused { frame: Frame, copies: u8, ticks: u8 },
}

impl Turn {
    /// True while a submitted frame is neither Sent nor Failed.
    pub fn is_busy(&self) -> bool
        ensures { IsTrue result ↔ IsBusy self.now }
    {
        !matches!(self, Turn::Idle)
    }

    /// NAK or CAN ends a copy, and means nothing in a pause.
    pub(crate) fn end_refused(&mut self)
        requires { IsTurn self.old }
        ensures turn { self.new ≡ turn_refused self.old }
        ensures valid { IsTurn self.new }
    {
        *self = match mem::replace(self, Turn::Idle) {
            Turn::Copied { frame, copies, .. } => end_copy(frame, copies),
            other => other,
        };
    }

    /// A tick passes.
    pub(crate) fn tick(&mut self)
        requires { IsTurn self.old }
        ensures turn { self.new ≡ turn_ticked self.old }
        ensures valid { IsTurn self.new }
    {
        *self = match mem::replace(self, Turn::Idle) {
            Turn::Idle => Turn::Idle,
            Turn::Copied {
                frame,
                copies,
                ticks,
            } => tick_copy(frame, copies, ticks),
            Turn::Paused {
                frame,
                copies,
                ticks,
            } => tick_pause(frame, copies, ticks),
        };
    }
}

/// The pause after so many copies.
fn pause_after(copies: u8) -> u8
    ensures { result ≡ pause_after copies }
{
    match copies {
        1 => FIRST_PAUSE,
        2 => SECOND_PAUSE,
        _ => THIRD_PAUSE,
    }
}

/// ACK is heard.
pub(crate) fn acknowledge(turn: &mut Turn, out: &mut List<LinkOut>)
    requires { 0 < out.old.room }
    ensures turn { turn.new ≡ Turn.Idle }
    ensures outs { out.new.items ≡ out.old.items ++ outs_acknowledged turn.old }
{
    if turn.is_busy() {
        out.put(LinkOut::Sent);
    }
    *turn = Turn::Idle;
}

/// NAK or CAN is heard.
pub(crate) fn refuse(turn: &mut Turn, out: &mut List<LinkOut>)
    requires valid { IsTurn turn.old }
    requires room { 0 < out.old.room }
    ensures turn { turn.new ≡ turn_refused turn.old }
    ensures valid { IsTurn turn.new }
    ensures outs { out.new.items ≡ out.old.items ++ outs_refused turn.old }
{
    if let Turn::Copied { copies, .. } = turn {
        tell_end(*copies, out);
    }
    turn.end_refused();
}

/// A copy ends without ACK, which is told of the last one.
fn tell_end(copies: u8, out: &mut List<LinkOut>)
    requires { 0 < out.old.room }
    ensures { out.new.items ≡ out.old.items ++ outs_ended copies }
{
    if copies == MAX_COPIES {
        out.put(LinkOut::Failed(copies));
    }
}

/// What follows a copy that ended without ACK.
fn end_copy(frame: Frame, copies: u8) -> Turn
    requires some { 1 ≤ copies }
    requires few { copies ≤ 4 }
    ensures turn { result ≡ turn_ended frame copies }
    ensures valid { IsTurn result }
{
    if copies == MAX_COPIES {
        return Turn::Idle;
    }
    Turn::Paused {
        frame,
        copies,
        ticks: 0,
    }
}

/// A tick, with the copy that it writes.
pub(crate) fn tick(turn: &mut Turn, copy: Option<Frame>, out: &mut List<LinkOut>)
    requires valid { IsTurn turn.old }
    requires copy { copy ≡ copy_due turn.old }
    requires room { 0 < out.old.room }
    ensures turn { turn.new ≡ turn_ticked turn.old }
    ensures valid { IsTurn turn.new }
    ensures outs { out.new.items ≡ out.old.items ++ outs_ticked turn.old }
{
    tell_tick(turn, copy, out);
    turn.tick();
}

/// What is put out at a tick, with the copy that it writes.
fn tell_tick(turn: &Turn, copy: Option<Frame>, out: &mut List<LinkOut>)
    requires valid { IsTurn turn.now }
    requires copy { copy ≡ copy_due turn.now }
    requires room { 0 < out.old.room }
    ensures { out.new.items ≡ out.old.items ++ outs_ticked turn.now }
{
    match turn {
        Turn::Copied { copies, ticks, .. } if *ticks + 1 == COPY_TICKS => tell_end(*copies, out),
        _ => {
            if let Some(copy) = copy {
                out.put(LinkOut::Write(Unit::Framed(copy)));
            }
        }
    }
}

/// The copy that the next tick writes, if its pause ends then.
pub(crate) fn next_copy(alloc: Global, turn: &Turn) -> Result<Option<Frame>, NoMemory>
    requires { IsTurn turn.now }
    ensures { IfOk result (λ copy. copy ≡ copy_due turn.now) }
{
    match turn {
        Turn::Paused {
            frame,
            copies,
            ticks,
        } if *ticks + 1 == pause_after(*copies) => Ok(Some(frame.copy(alloc)?)),
        _ => Ok(None),
    }
}

/// A tick while a copy waits for ACK.
fn tick_copy(frame: Frame, copies: u8, ticks: u8) -> Turn
    requires valid { IsTurn (Turn.Copied frame copies ticks) }
    ensures turn { result ≡ turn_ticked (Turn.Copied frame copies ticks) }
    ensures valid { IsTurn result }
{
    if ticks + 1 == COPY_TICKS {
        return end_copy(frame, copies);
    }
    Turn::Copied {
        frame,
        copies,
        ticks: ticks + 1,
    }
}

/// A tick in a pause.
fn tick_pause(frame: Frame, copies: u8, ticks: u8) -> Turn
    requires valid { IsTurn (Turn.Paused frame copies ticks) }
    ensures turn { result ≡ turn_ticked (Turn.Paused frame copies ticks) }
    ensures valid { IsTurn result }
{
    if ticks + 1 == pause_after(copies) {
        return Turn::Copied {
            frame,
            copies: copies + 1,
            ticks: 0,
        };
    }
    Turn::Paused {
        frame,
        copies,
        ticks: ticks + 1,
    }
}
