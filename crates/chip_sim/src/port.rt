//! What the chip has towards the host: its link, and the frames that wait for it.

ghost use Rattle.std.specs.Prelude.{IsTrue, ◌↔◌, ◌≡◌, ◌++◌, ◌+◌, ◌<◌, ◌≤◌, ◌^◌, ◌∷◌, [], nat_lt, length, IfOk, OnOk, OnErr, OnSome};
ghost use Rattle.serial_frame.specs.Stream.{after_tick, FeedsOne, IsRest};
ghost use Rattle.serial_link.specs.State.{hear, IsBusy};
ghost use Rattle.chip_sim.specs.Waiting.{no_port, queued, queued_outs, served, served_outs, begun, ticked, ticked_outs};

use crate::ChipOut;
use crate::post::Post;
use crate::waiting::Waiting;
use serial_frame::{Decoder, Item, Unit};
use serial_link::Link;
use std::alloc::Global;
use std::marker::Model;
use zw_base::{List, NoMemory};

/// The most that is put out at a tick: a copy, or the next frame that waits.
const MOST_AT_TICK: usize = 2;

/// The link to the host and the frames that wait for it. Contracts see the decoder apart from the rest.
#[derive(Drop)]
pub struct Port {
    link: Link,
    waiting: Waiting,
}

impl Model for Port {
    ghost use Rattle.chip_sim.specs.Waiting.{PortParts};

    ghost Value = { PortParts };

    ghost view = { λ p. record { decoder = p.link.decoder; port = record { side = p.link.side; waiting = p.waiting } } };
}

impl Port {
    /// Nothing is heard, submitted or waiting.
    pub fn new(alloc: Global) -> Result<Port, NoMemory>
        ensures { IfOk result (λ port. port ≡ no_port) }
    {
        Ok(Port {
            link: Link::new(alloc)?,
            waiting: Waiting::new(alloc)?,
        })
    }

    /// True exactly where the next good frame is to be answered CAN.
    pub fn collides(&self) -> bool
        ensures { result ≡ nat_lt 0 self.now.port.side.collisions }
    {
        self.link.collides()
    }

    /// Asks for a collision.
    pub fn collide(&mut self)
        requires { self.old.port.side.collisions + 1 < 2 ^ 64 }
        ensures { self.new ≡
            record self.old { port = record self.old.port { side = record self.old.port.side { collisions = self.old.port.side.collisions + 1 } } } }
    {
        self.link.collide();
    }

    /// Whether one more collision can be asked for.
    pub fn can_collide(&self) -> bool
        ensures { IsTrue result ↔ (self.now.port.side.collisions + 1 < 2 ^ 64) }
    {
        self.link.can_collide()
    }

    /// What is unfinished of the host's bytes.
    pub fn decoder(&self) -> Decoder
        ensures state { result ≡ self.now.decoder }
        ensures is_rest { IsRest result }
    {
        self.link.decoder()
    }

    /// Goes back to what was unfinished before an item that is not heard now.
    pub fn go_back(&mut self, decoder: Decoder)
        requires { IsRest decoder }
        ensures { self.new ≡ record self.old { decoder = decoder } }
    {
        self.link.go_back(decoder);
    }

    /// Takes the bytes up to the end of the first item, which is to be heard, or all of them.
    pub fn next_item<'a>(&mut self, piece: &'a [u8]) -> Result<(Option<Item>, &'a [u8]), NoMemory>
        ensures feeds { IfOk result (λ found. FeedsOne self.old.decoder piece.now self.new.decoder found.0 found.1.now) }
        ensures shorter { IfOk result (λ found. OnSome found.0 (length found.1.now < length piece.now)) }
        ensures port { self.new.port ≡ self.old.port }
        ensures err { OnErr result (self.new ≡ self.old) }
    {
        self.link.next_item(piece)
    }

    /// The link hears an item.
    pub fn heard(&mut self, item: &Item)
        ensures { self.new ≡ record self.old { port = record self.old.port { side = hear self.old.port.side item.now } } }
    {
        self.link.heard(item);
    }

    /// Gives a frame to the host: it is written where the link is free, else it waits, or is dropped.
    pub fn queue(&mut self, post: Post, out: &mut List<ChipOut>)
        requires { 0 < out.old.room }
        ensures port { self.new ≡ record self.old { port = queued self.old.port post } }
        ensures outs { out.new.items ≡ out.old.items ++ queued_outs self.old.port post }
        ensures room { out.old.room ≤ out.new.room + 1 }
    {
        if !self.link.is_busy() {
            self.write(post, out);
        } else if self.waiting.is_full() {
            out.put(ChipOut::Full);
        } else {
            self.waiting.put(post);
        }
    }

    /// Submits a frame, and writes its first copy.
    fn write(&mut self, post: Post, out: &mut List<ChipOut>)
        requires idle { ¬ IsBusy self.old.port.side.turn }
        requires room { 0 < out.old.room }
        ensures port { self.new ≡ record self.old { port = record self.old.port { side = begun self.old.port.side post } } }
        ensures outs { out.new.items ≡ out.old.items ++ ChipOut.Write (Unit.Framed post) ∷ [] }
        ensures room { out.new.room + 1 ≡ out.old.room }
    {
        let (frame, copy) = post.into_parts();
        self.link.begin(frame);
        out.put(ChipOut::Write(Unit::Framed(copy)));
    }

    /// Writes the first frame that waits, where the link is free.
    pub fn serve(&mut self, out: &mut List<ChipOut>)
        requires { 0 < out.old.room }
        ensures port { self.new ≡ record self.old { port = served self.old.port } }
        ensures outs { out.new.items ≡ out.old.items ++ served_outs self.old.port }
    {
        if self.link.is_busy() {
            return;
        }
        if let Some(post) = self.waiting.take_first() {
            self.write(post, out);
        }
    }

    /// A tick passes: a copy is written, or the frame of the link fails and the next one is written.
    pub fn tick(&mut self, out: &mut List<ChipOut>) -> Result<(), NoMemory>
        ensures decoder { OnOk result (self.new.decoder ≡ after_tick self.old.decoder) }
        ensures port { OnOk result (self.new.port ≡ served (ticked self.old.port)) }
        ensures outs { OnOk result (out.new.items ≡ out.old.items ++ ticked_outs self.old.port) }
        ensures err { OnErr result ((self.new ≡ self.old) × (out.new.items ≡ out.old.items)) }
    {
        out.reserve(MOST_AT_TICK)?;
        let copy = self.link.next_copy()?;
        self.link.ticked();
        if let Some(copy) = copy {
            out.put(ChipOut::Write(Unit::Framed(copy)));
        }
        self.serve(out);
        Ok(())
    }
}
