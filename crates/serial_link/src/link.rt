//! One side of the serial link.

ghost use Rattle.std.specs.Prelude.{◌≡◌, ◌↔◌, ◌+◌, ◌-◌, ◌^◌, ◌<◌, ◌≤◌, ◌++◌, [], ◌∷◌, false, nat_lt, length, IsTrue, IfOk, OnOk, OnErr, OnSome};
ghost use Rattle.serial_frame.specs.Stream.{mark, after_tick, IsRest, FeedsOne};
ghost use Rattle.serial_link.specs.State;
ghost use Rattle.serial_link.specs.State.{
  copy_due,
  fresh,
  IsBusy,
  IsTurn,
  answer,
  turn_heard,
  outs_heard,
  collisions_after,
  hear_all,
  tick_side,
  submitted_link,
};
ghost use Rattle.serial_link.specs.Rules.{Obeys, KeepsRules, outs_of, asked};
ghost use Rattle.serial_link.specs.Calls.{Takes, OnlyTakes, TakesPrefix, TakesOne, submit_step, aborted_at, tick_steps};

use crate::{LinkOut, SubmitFault, Turn, turn};
use serial_frame::{Decoder, Frame, Item, Refusal, Unit};
use std::alloc::Global;
use std::marker::Model;
use zw_base::{List, NoMemory};

/// The most that is put out at one item, or at a tick.
const MOST_OUTS: usize = 2;

/// One side of the serial link. Contracts see its decoder, the frame of its own and the collisions asked for.
#[derive(Drop)]
pub struct Link {
    alloc: Global,
    decoder: Decoder,
    turn: Turn,
    collisions: u64,
}

impl Model for Link {
    ghost use Rattle.serial_link.specs.State.{LinkState};

    ghost Value = { LinkState };

    ghost use Rattle.serial_link.specs.Inside.{IsLink};

    ghost view = { λ l. record { decoder = l.decoder; side = record { turn = l.turn; collisions = l.collisions } } };

    ghost invariant = { IsLink };
}

impl Link {
    /// A link at the beginning, with nothing heard or submitted.
    pub fn new(alloc: Global) -> Result<Link, NoMemory>
        ensures state { IfOk result (λ link. link ≡ fresh) }
        ensures rules { IfOk result (λ link. Obeys [] [] link) }
    {
        Ok(Link {
            alloc,
            decoder: Decoder::new(alloc),
            turn: Turn::Idle,
            collisions: 0,
        })
    }

    /// True exactly while a submitted frame is neither Sent nor Failed, its pauses included.
    pub fn is_busy(&self) -> bool
        ensures { IsTrue result ↔ IsBusy self.now.side.turn }
    {
        self.turn.is_busy()
    }

    /// Asks for a collision: the next good frame that is not asked for already is answered CAN and not passed up.
    pub fn collide(&mut self)
        requires { self.old.side.collisions + 1 < 2 ^ 64 }
        ensures decoder { self.new.decoder ≡ self.old.decoder }
        ensures turn { self.new.side.turn ≡ self.old.side.turn }
        ensures collisions { self.new.side.collisions ≡ self.old.side.collisions + 1 }
        ensures rules { KeepsRules self.old [] (record { event = asked; outs = [] } ∷ []) self.new }
    {
        self.collisions += 1;
    }

    /// Whether one more collision can be asked for: until 2 ^ 64 - 1 are.
    pub fn can_collide(&self) -> bool
        ensures { IsTrue result ↔ (self.now.side.collisions + 1 < 2 ^ 64) }
    {
        self.collisions < u64::MAX
    }

    /// Submits a frame, which is written at once. A frame that is refused is given up.
    pub fn submit(&mut self, frame: Frame, out: &mut List<LinkOut>) -> Result<(), SubmitFault>
        ensures ok { OnOk result (self.new ≡ submitted_link self.old frame) }
        ensures outs { OnOk result (out.new.items ≡ out.old.items ++ LinkOut.Write (Unit.Framed frame) ∷ []) }
        ensures rules { OnOk result (KeepsRules self.old [] (submit_step frame ∷ []) self.new) }

        // Busy comes before an allocation failure, and both leave all as it was.
        ensures busy { (result ≡ Err SubmitFault.Busy) ↔ IsBusy self.old.side.turn }
        ensures err { OnErr result ((self.new ≡ self.old) × (out.new.items ≡ out.old.items)) }
    {
        if self.turn.is_busy() {
            return Err(SubmitFault::Busy);
        }
        let copy = frame.copy(self.alloc)?;
        out.reserve(1)?;
        out.put(LinkOut::Write(Unit::Framed(copy)));
        self.turn = Turn::Copied {
            frame,
            copies: 1,
            ticks: 0,
        };
        Ok(())
    }

    /// Takes bytes of the other side. Each item that ends in them is one event: its memory is made first, or it is not
    /// done, and neither is what comes after it.
    pub fn feed(&mut self, piece: &[u8], out: &mut List<LinkOut>) -> Result<(), NoMemory>
        ensures ok { OnOk result (Takes self.old piece.now self.new out.old.items out.new.items) }
        ensures only { OnOk result (OnlyTakes self.old piece.now self.new out.old.items out.new.items) }
        ensures err { OnErr result (TakesPrefix self.old piece.now self.new out.old.items out.new.items) }
    {
        let mut left = piece;
        while let Some(rest) = self.take_item(left, out)? {
            left = rest;
        }
        Ok(())
    }

    /// Takes the bytes up to the end of the first item, and answers with what is left; or takes all of them.
    fn take_item<'a>(
        &mut self,
        piece: &'a [u8],
        out: &mut List<LinkOut>,
    ) -> Result<Option<&'a [u8]>, NoMemory>
        ensures takes { IfOk result (TakesOne self.old piece.now self.new out.old.items out.new.items) }
        ensures err { OnErr result (Takes self.old [] self.new out.old.items out.new.items) }
    {
        // The decoder is looked at first, so that its state is known where there is no memory.
        let _ = &self.decoder;
        out.reserve(MOST_OUTS)?;
        let (found, left) = self.decoder.next_item(piece)?;
        let Some(item) = found else {
            return Ok(None);
        };
        hear(&mut self.turn, &mut self.collisions, item, out);
        Ok(Some(left))
    }

    /// Counts a tick of 100 ms: first an unfinished frame of the other side may be aborted, then the frame of one's own
    /// waits. The memory for both is made first, or nothing is done.
    pub fn tick(&mut self, out: &mut List<LinkOut>) -> Result<(), NoMemory>
        ensures decoder { OnOk result (self.new.decoder ≡ after_tick self.old.decoder) }
        ensures side { OnOk result (self.new.side ≡ tick_side (hear_all self.old.side (aborted_at self.old.decoder))) }
        ensures outs { OnOk result (out.new.items ≡ out.old.items ++ outs_of (tick_steps self.old.side (aborted_at self.old.decoder))) }
        ensures rules { OnOk result (KeepsRules self.old (mark ∷ []) (tick_steps self.old.side (aborted_at self.old.decoder)) self.new) }
        ensures err { OnErr result ((self.new ≡ self.old) × (out.new.items ≡ out.old.items)) }
    {
        out.reserve(MOST_OUTS)?;
        let copy = turn::next_copy(self.alloc, &self.turn)?;
        if self.decoder.tick() {
            out.put(LinkOut::Bad(Refusal::Aborted));
        }
        turn::tick(&mut self.turn, copy, out);
        Ok(())
    }
}

// Events whose memory the caller takes first: these calls put nothing out, and the caller writes what is due.
impl Link {
    /// True exactly where the next good frame is to be answered CAN.
    pub fn collides(&self) -> bool
        ensures { result ≡ nat_lt 0 self.now.side.collisions }
    {
        self.collisions > 0
    }

    /// What is unfinished of the other side.
    pub fn decoder(&self) -> Decoder
        ensures state { result ≡ self.now.decoder }
        ensures is_rest { IsRest result }
    {
        self.decoder.copy()
    }

    /// Goes back to what was unfinished before an item that is not heard now.
    pub fn go_back(&mut self, decoder: Decoder)
        requires { IsRest decoder }
        ensures { self.new ≡ record self.old { decoder = decoder } }
    {
        self.decoder = decoder;
    }

    /// Takes the bytes up to the end of the first item, which is to be heard, or all of them. The answer is that item
    /// and the bytes that were not taken.
    pub fn next_item<'a>(&mut self, piece: &'a [u8]) -> Result<(Option<Item>, &'a [u8]), NoMemory>
        ensures feeds { IfOk result (λ found. FeedsOne self.old.decoder piece.now self.new.decoder found.0 found.1.now) }
        ensures shorter { IfOk result (λ found. OnSome found.0 (length found.1.now < length piece.now)) }
        ensures side { self.new.side ≡ self.old.side }
        ensures err { OnErr result (self.new ≡ self.old) }
    {
        self.decoder.next_item(piece)
    }

    /// An item is heard.
    pub fn heard(&mut self, item: &Item)
        ensures { self.new ≡ record self.old { side = State.hear self.old.side item.now } }
    {
        match item {
            Item::Good(Unit::Ack) => self.turn = Turn::Idle,
            Item::Good(Unit::Nak) | Item::Good(Unit::Can) => self.turn.end_refused(),
            Item::Good(Unit::Framed(_)) => self.collisions = self.collisions.saturating_sub(1),
            Item::Refused(_) => {}
        }
    }

    /// Submits a frame, of which the caller writes the first copy.
    pub fn begin(&mut self, frame: Frame)
        requires { ¬ IsBusy self.old.side.turn }
        ensures { self.new ≡ submitted_link self.old frame }
    {
        self.turn = Turn::Copied {
            frame,
            copies: 1,
            ticks: 0,
        };
    }

    /// The copy that the next tick writes.
    pub fn next_copy(&self) -> Result<Option<Frame>, NoMemory>
        ensures { IfOk result (λ copy. copy ≡ copy_due self.now.side.turn) }
    {
        turn::next_copy(self.alloc, &self.turn)
    }

    /// A tick passes. The caller writes the copy that is due.
    pub fn ticked(&mut self)
        ensures { self.new ≡ record { decoder = after_tick self.old.decoder; side = tick_side self.old.side } }
    {
        self.decoder.tick();
        self.turn.tick();
    }
}

/// An item is heard.
fn hear(turn: &mut Turn, collisions: &mut u64, item: Item, out: &mut List<LinkOut>)
    requires valid { IsTurn turn.old }
    requires room { 2 ≤ out.old.room }
    ensures turn { turn.new ≡ turn_heard turn.old item }
    ensures valid { IsTurn turn.new }
    ensures collisions { collisions.new ≡ collisions_after collisions.old item }
    ensures outs { out.new.items ≡ out.old.items ++ (answer (nat_lt 0 collisions.old) item ++ outs_heard turn.old item) }
{
    match item {
        Item::Good(Unit::Ack) => turn::acknowledge(turn, out),
        Item::Good(Unit::Nak) | Item::Good(Unit::Can) => turn::refuse(turn, out),
        Item::Good(Unit::Framed(frame)) => take_frame(collisions, frame, out),
        Item::Refused(refusal) => tell_refusal(refusal, out),
    }
}

/// A good frame is answered CAN where a collision is asked for, else ACK and passed up.
fn take_frame(collisions: &mut u64, frame: Frame, out: &mut List<LinkOut>)
    requires { 2 ≤ out.old.room }
    ensures collisions { collisions.new ≡ collisions.old - 1 }
    ensures outs { out.new.items ≡ out.old.items ++ answer (nat_lt 0 collisions.old) (Item.Good (Unit.Framed frame)) }
{
    if *collisions > 0 {
        *collisions -= 1;
        out.put(LinkOut::Write(Unit::Can));
    } else {
        out.put(LinkOut::Write(Unit::Ack));
        out.put(LinkOut::Got(frame));
    }
}

/// Bytes that are no unit are told, and a whole frame among them is answered NAK.
fn tell_refusal(refusal: Refusal, out: &mut List<LinkOut>)
    requires { 2 ≤ out.old.room }
    ensures { out.new.items ≡ out.old.items ++ answer false (Item.Refused refusal) }
{
    if matches!(refusal, Refusal::BadSum { .. } | Refusal::BadKind(_)) {
        out.put(LinkOut::Write(Unit::Nak));
    }
    out.put(LinkOut::Bad(refusal));
}
