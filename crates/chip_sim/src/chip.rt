//! The chip and its calls.

ghost use Rattle.std.specs.Prelude.{◌≡◌, ◌++◌, ◌+◌, ◌<◌, ◌≤◌, ◌^◌, ◌↔◌, [], length, IsTrue, IfOk, OnOk, OnErr};
ghost use Rattle.std.specs.Option.{option_copied};
ghost use Rattle.serial_frame.specs.Stream.{no_rest, after_tick};
ghost use Rattle.chip_sim.specs.State.{fresh_chip};
ghost use Rattle.chip_functions.specs.Notice.{HasNoticeRow, notice_body};
ghost use Rattle.chip_sim.specs.Waiting.{queued_outs};
ghost use Rattle.chip_sim.specs.Answers.{notice_frame};
ghost use Rattle.chip_sim.specs.Requests.{given, closed};
ghost use Rattle.chip_sim.specs.Events.{after, outs, update_of, FitsProfile, OwesCall, Ticked, Heard, Done, Informed, Joined, Linked, Forgets, Collides};
ghost use Rattle.chip_sim.specs.Did.{Fed, FedPrefix, FedOne};

use crate::marks::Marks;
use crate::port::Port;
use crate::post::Post;
use crate::{ChipOut, Sending};
use chip_functions::{Notice, TransmitStatus, Update, write_notice};
use route_table::RouteTable;
use std::alloc::Global;
use std::marker::Model;
use zw_base::{Bytes, List, NoMemory, NodeId, Profile};

/// The device classes that each ApplicationUpdate tells: basic, generic and specific.
const BASIC: u8 = 4;

const GENERIC: u8 = 0;

const SPECIFIC: u8 = 0;

/// The status of the receipt of each frame.
const RX_STATUS: u8 = 0;

/// A simulated chip. Contracts see what is unfinished of the host's bytes, and a `ChipState`.
#[derive(Drop)]
pub struct Chip {
    pub(crate) alloc: Global,
    pub(crate) port: Port,
    pub(crate) table: RouteTable,
    pub(crate) joined: Marks,
    pub(crate) listening: Marks,
    pub(crate) failing: Marks,
    pub(crate) sending: Option<Sending>,
    pub(crate) aborted: u64,
}

impl Model for Chip {
    ghost use Rattle.std.specs.Coded.{codes};
    ghost use Rattle.route_table.specs.Network.{network_code};
    ghost use Rattle.chip_sim.specs.State.{ChipParts};

    ghost Value = { ChipParts };

    ghost coded = { Prim.hlevel (codes, network_code) };

    ghost view = { λ c. record {
      decoder = c.port.decoder;
      state = record {
        port = c.port.port;
        table = c.table;
        joined = c.joined;
        listening = c.listening;
        failing = c.failing;
        sending = c.sending;
        aborted = c.aborted;
      };
    } };
}

impl Chip {
    /// A chip at the beginning: no node has joined, and its table is empty.
    pub fn new(alloc: Global) -> Result<Chip, NoMemory>
        ensures { IfOk result (λ chip. chip ≡ record { decoder = no_rest; state = fresh_chip }) }
    {
        Ok(Chip {
            alloc,
            port: Port::new(alloc)?,
            table: RouteTable::new(),
            joined: Marks::new(),
            listening: Marks::new(),
            failing: Marks::new(),
            sending: None,
            aborted: 0,
        })
    }

    /// A node joins. One that listens is a repeater of the table.
    pub fn join(&mut self, node: NodeId, listening: bool)
        ensures state { self.new.state ≡ after self.old.state (Joined node listening) }
        ensures decoder { self.new.decoder ≡ self.old.decoder }
    {
        self.joined.set(node, true);
        self.listening.set(node, listening);
        self.table.set_repeater(node, listening);
    }

    /// The links and repeaters that the chip knows.
    pub fn table(&self) -> &RouteTable
        ensures { result.now ≡ self.now.state.table }
    {
        &self.table
    }

    /// Sets whether two nodes hear each other in the chip's table.
    pub fn set_link(&mut self, a: NodeId, b: NodeId, live: bool)
        ensures state { self.new.state ≡ after self.old.state (Linked a b live) }
        ensures decoder { self.new.decoder ≡ self.old.decoder }
    {
        self.table.set_link(a, b, live);
    }

    /// Takes the link of two nodes out of the chip's table.
    pub fn forget_hop(&mut self, a: NodeId, b: NodeId)
        ensures state { self.new.state ≡ after self.old.state (Forgets a b) }
        ensures decoder { self.new.decoder ≡ self.old.decoder }
    {
        self.table.forget_hop(a, b);
    }

    /// Asks for a collision: the next good frame that is not asked for already is answered CAN and not passed up.
    pub fn collide(&mut self)
        requires { self.old.state.port.side.collisions + 1 < 2 ^ 64 }
        ensures state { self.new.state ≡ after self.old.state Collides }
        ensures decoder { self.new.decoder ≡ self.old.decoder }
    {
        self.port.collide();
    }

    /// Whether one more collision can be asked for.
    pub fn can_collide(&self) -> bool
        ensures { IsTrue result ↔ (self.now.state.port.side.collisions + 1 < 2 ^ 64) }
    {
        self.port.can_collide()
    }

    /// Takes bytes of the host. Each item that ends in them is one event.
    pub fn feed(&mut self, piece: &[u8], out: &mut List<ChipOut>) -> Result<(), NoMemory>
        ensures ok { OnOk result (Fed self.old piece.now self.new out.old.items out.new.items) }
        ensures err { OnErr result (FedPrefix self.old piece.now self.new out.old.items out.new.items) }
    {
        let mut left = piece;
        while let Some(rest) = self.take_item(left, out)? {
            left = rest;
        }
        Ok(())
    }

    /// Takes the bytes up to the end of the first item, and answers with what is left; or takes all of them.
    fn take_item<'a>(
        &mut self,
        piece: &'a [u8],
        out: &mut List<ChipOut>,
    ) -> Result<Option<&'a [u8]>, NoMemory>
        ensures takes { IfOk result (FedOne self.old piece.now self.new out.old.items out.new.items) }
        ensures err { OnErr result (Fed self.old [] self.new out.old.items out.new.items) }
    {
        let before = self.port.decoder();
        let (found, left) = self.port.next_item(piece)?;
        let Some(item) = found else {
            return Ok(None);
        };
        match self.judge(&item, out) {
            Ok(_way) => Ok(Some(left)),
            Err(fault) => {
                self.port.go_back(before);
                Err(fault)
            }
        }
    }

    /// Counts a tick of 100 ms.
    pub fn tick(&mut self, out: &mut List<ChipOut>) -> Result<(), NoMemory>
        ensures decoder { OnOk result (self.new.decoder ≡ after_tick self.old.decoder) }
        ensures state { OnOk result (self.new.state ≡ after self.old.state Ticked) }
        ensures outs { OnOk result (out.new.items ≡ out.old.items ++ outs self.old.state Ticked) }
        ensures err { OnErr result ((self.new ≡ self.old) × (out.new.items ≡ out.old.items)) }
    {
        self.port.tick(out)
    }

    /// Hears a payload of a node, of 1 to 46 bytes, and gives it to the host.
    pub fn heard(
        &mut self,
        from: NodeId,
        payload: &[u8],
        out: &mut List<ChipOut>,
    ) -> Result<(), NoMemory>
        requires some { 1 ≤ length payload.now }
        requires few { length payload.now ≤ 46 }
        ensures decoder { self.new.decoder ≡ self.old.decoder }
        ensures state { OnOk result (self.new.state ≡ after self.old.state (Heard from payload.now)) }
        ensures outs { OnOk result (out.new.items ≡ out.old.items ++ outs self.old.state (Heard from payload.now)) }
        ensures err { OnErr result ((self.new ≡ self.old) × (out.new.items ≡ out.old.items)) }
    {
        let notice = Notice::ApplicationCommandHandler {
            rx_status: RX_STATUS,
            source: from,
            payload: Bytes::from_slice(self.alloc, payload)?,
        };
        self.give(&notice, out)
    }

    /// True exactly where an `OnAir` or `NoRoute` output has not had its call of `done`.
    pub fn owes_call(&self) -> bool
        ensures { IsTrue result ↔ OwesCall self.now.state }
    {
        self.aborted > 0 || self.sending.is_some()
    }

    /// Ends the oldest `OnAir` or `NoRoute` output whose call has not come. One that was aborted is passed over.
    pub fn done(&mut self, status: TransmitStatus, out: &mut List<ChipOut>) -> Result<(), NoMemory>
        requires { OwesCall self.old.state }
        ensures decoder { self.new.decoder ≡ self.old.decoder }
        ensures state { OnOk result (self.new.state ≡ after self.old.state (Done status)) }
        ensures outs { OnOk result (out.new.items ≡ out.old.items ++ outs self.old.state (Done status)) }
        ensures err { OnErr result ((self.new ≡ self.old) × (out.new.items ≡ out.old.items)) }
    {
        if self.aborted > 0 {
            self.aborted -= 1;
            return Ok(());
        }
        let Some(sending) = self.sending else {
            return Ok(());
        };
        let notice = Notice::SendData {
            callback_id: sending.callback_id,
            status,
        };
        self.give(&notice, out)?;
        self.close(sending, status);
        Ok(())
    }

    /// Tells the host the information of a node that it asked for, with at most 246 classes, or that none came.
    pub fn info(
        &mut self,
        node: NodeId,
        profile: Option<&Profile>,
        out: &mut List<ChipOut>,
    ) -> Result<(), NoMemory>
        requires { FitsProfile (option_copied profile) }
        ensures decoder { self.new.decoder ≡ self.old.decoder }
        ensures state { OnOk result (self.new.state ≡ after self.old.state (Informed node (option_copied profile.entry))) }
        ensures outs { OnOk result (out.new.items ≡ out.old.items ++ outs self.old.state (Informed node (option_copied profile.entry))) }
        ensures err { OnErr result ((self.new ≡ self.old) × (out.new.items ≡ out.old.items)) }
    {
        let update = update_of(self.alloc, node, profile)?;
        self.give(&Notice::ApplicationUpdate { update }, out)
    }

    /// Gives a notice to the host.
    fn give(&mut self, notice: &Notice, out: &mut List<ChipOut>) -> Result<(), NoMemory>
        requires row { HasNoticeRow notice.now }
        requires fits { length (notice_body notice.now) ≤ 252 }
        ensures decoder { self.new.decoder ≡ self.old.decoder }
        ensures state { OnOk result (self.new.state ≡ given self.old.state (notice_frame notice.now)) }
        ensures outs { OnOk result (out.new.items ≡ out.old.items ++ queued_outs self.old.state.port (notice_frame notice.now)) }
        ensures err { OnErr result ((self.new ≡ self.old) × (out.new.items ≡ out.old.items)) }
    {
        out.reserve(1)?;
        let post = Post::of(self.alloc, write_notice(self.alloc, notice)?)?;
        self.port.queue(post, out);
        Ok(())
    }

    /// The SendData under way has its callback, and the chip is idle again.
    pub(crate) fn close(&mut self, sending: Sending, status: TransmitStatus)
        ensures state { self.new.state ≡ closed self.old.state sending status }
        ensures decoder { self.new.decoder ≡ self.old.decoder }
    {
        let failed = matches!(status, TransmitStatus::NoAck | TransmitStatus::NoRoute);
        self.failing.set(sending.node, failed);
        self.sending = None;
    }
}

/// What an ApplicationUpdate says of a node.
fn update_of(alloc: Global, node: NodeId, profile: Option<&Profile>) -> Result<Update, NoMemory>
    ensures { IfOk result (λ update. update ≡ update_of node (option_copied profile.entry)) }
{
    let Some(profile) = profile else {
        return Ok(Update::RequestFailed);
    };
    Ok(Update::Received {
        node,
        basic: BASIC,
        generic: GENERIC,
        specific: SPECIFIC,
        classes: Bytes::from_slice(alloc, profile.classes.as_slice())?,
    })
}
