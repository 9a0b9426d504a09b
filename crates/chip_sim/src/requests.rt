//! What the chip does with what it hears of the host.

ghost use Rattle.std.specs.Prelude.{◌≡◌, ◌++◌, ◌+◌, ◌<◌, ◌≤◌, ◌^◌, [], IfOk, OnErr, if◌then◌else◌};
ghost use Rattle.std.specs.Option.{option_copied};
ghost use Rattle.chip_sim.specs.Answers.{takes, capabilities, init_data, protocol_info, response_frame};
ghost use Rattle.chip_sim.specs.Requests.{
  IsWay,
  IsWayIf,
  HasWay,
  IsInformation,
  passed,
  asked,
  answer_outs,
  abort_frame,
  reply_to,
  reply_if,
  requested,
  requested_outs,
  sent,
  stopped,
};
ghost use Rattle.chip_sim.specs.Events.{after, outs, collides, May, Judged};

use crate::answers::{
    APPLICATION_VERSION, BASIC_CLASS, CHIP_TYPE, FUNCTIONS, HOME, HOME_ID, INIT_VERSION,
    LIBRARY_TYPE, LISTENS, TAKEN, VERSION_TEXT, neighbours,
};
use crate::post::Post;
use crate::{Chip, ChipOut, Sending};
use chip_functions::{
    BodyFault, Notice, REFUSED, Request, Response, TransmitStatus, read_request, write_notice,
    write_response,
};
use route_table::Route;
use serial_frame::{Frame, Item, Kind, Refusal, Unit};
use std::alloc::Global;
use zw_base::{Bytes, List, NoMemory, NodeId, controller};

/// The most that is put out at an item: an answer, a response, and what the request does.
const MOST_AT_ITEM: usize = 3;

/// The longest payload on the air.
const MAX_PAYLOAD: usize = 46;

impl Chip {
    /// Judges an item of the host. The answer is the way of a SendData that is taken.
    pub(crate) fn judge(
        &mut self,
        item: &Item,
        out: &mut List<ChipOut>,
    ) -> Result<Option<Route>, NoMemory>
        ensures may { IfOk result (λ way. May self.old.state (Judged item.now way)) }
        ensures state { IfOk result (λ way. self.new.state ≡ after self.old.state (Judged item.now way)) }
        ensures outs { IfOk result (λ way. out.new.items ≡ out.old.items ++ outs self.old.state (Judged item.now way)) }
        ensures decoder { self.new.decoder ≡ self.old.decoder }
        ensures err { OnErr result ((self.new ≡ self.old) × (out.new.items ≡ out.old.items)) }
    {
        match self.passed(item) {
            Some(frame) => self.judge_frame(item, frame, out),
            None => self.judge_other(item, out),
        }
    }

    /// The frame that the link passes up.
    fn passed<'a>(&self, item: &'a Item) -> Option<&'a Frame>
        ensures { option_copied result ≡ passed (collides self.now.state) item.now }
    {
        match item {
            Item::Good(Unit::Framed(frame)) if !self.port.collides() => Some(frame),
            _ => None,
        }
    }

    /// An item that is not passed up may end the link's own frame, so that the next one is written.
    fn judge_other(
        &mut self,
        item: &Item,
        out: &mut List<ChipOut>,
    ) -> Result<Option<Route>, NoMemory>
        requires { passed (collides self.old.state) item.now ≡ None }
        ensures may { IfOk result (λ way. May self.old.state (Judged item.now way)) }
        ensures state { IfOk result (λ way. self.new.state ≡ after self.old.state (Judged item.now way)) }
        ensures outs { IfOk result (λ way. out.new.items ≡ out.old.items ++ outs self.old.state (Judged item.now way)) }
        ensures decoder { self.new.decoder ≡ self.old.decoder }
        ensures err { OnErr result ((self.new ≡ self.old) × (out.new.items ≡ out.old.items)) }
    {
        out.reserve(MOST_AT_ITEM)?;
        put_answer(self.port.collides(), item, out);
        self.port.heard(item);
        self.port.serve(out);
        Ok(None)
    }

    /// A frame is passed up: what it asks is answered and done.
    fn judge_frame(
        &mut self,
        item: &Item,
        frame: &Frame,
        out: &mut List<ChipOut>,
    ) -> Result<Option<Route>, NoMemory>
        requires { passed (collides self.old.state) item.now ≡ Some frame.now }
        ensures may { IfOk result (λ way. May self.old.state (Judged item.now way)) }
        ensures state { IfOk result (λ way. self.new.state ≡ after self.old.state (Judged item.now way)) }
        ensures outs { IfOk result (λ way. out.new.items ≡ out.old.items ++ outs self.old.state (Judged item.now way)) }
        ensures decoder { self.new.decoder ≡ self.old.decoder }
        ensures err { OnErr result ((self.new ≡ self.old) × (out.new.items ≡ out.old.items)) }
    {
        if self.aborted == u64::MAX {
            return Err(NoMemory);
        }
        out.reserve(MOST_AT_ITEM)?;
        let request = request_in(self.alloc, frame)?;
        let post = self.post_for(&request)?;
        put_answer(self.port.collides(), item, out);
        self.port.heard(item);
        Ok(self.perform(request, post, out))
    }

    /// The frame that a request gives the host at once, with the memory of its copy.
    fn post_for(&self, request: &Option<Request>) -> Result<Option<Post>, NoMemory>
        ensures { IfOk result (λ post. post ≡ reply_if self.now.state request.now) }
    {
        let Some(request) = request else {
            return Ok(None);
        };
        match self.frame_for(request)? {
            Some(frame) => Ok(Some(Post::of(self.alloc, frame)?)),
            None => Ok(None),
        }
    }

    /// The frame that a request gives the host at once.
    fn frame_for(&self, request: &Request) -> Result<Option<Frame>, NoMemory>
        ensures { IfOk result (λ frame. frame ≡ reply_to self.now.state request.now) }
    {
        match request {
            Request::SendDataAbort => self.abort_frame(),
            Request::SendData { node, payload, .. } => self.answer_send(*node, payload),
            // This project's simulated chip adds no nodes: it passes over the request.
            Request::AddNode { .. } => Ok(None),
            _ => {
                let response = self.information(request);
                Ok(Some(write_response(self.alloc, &response)?))
            }
        }
    }

    /// The callback FAIL of an abort, where a SendData is under way.
    fn abort_frame(&self) -> Result<Option<Frame>, NoMemory>
        ensures { IfOk result (λ frame. frame ≡ abort_frame self.now.state.sending) }
    {
        let Some(sending) = self.sending else {
            return Ok(None);
        };
        let notice = Notice::SendData {
            callback_id: sending.callback_id,
            status: TransmitStatus::Fail,
        };
        Ok(Some(write_notice(self.alloc, &notice)?))
    }

    /// Whether a SendData is taken, as the host is told.
    fn answer_send(&self, node: NodeId, payload: &Bytes) -> Result<Option<Frame>, NoMemory>
        ensures { IfOk result (λ frame. frame ≡ Some (response_frame (Response.SendData (if takes self.now.state node payload.now then TAKEN else REFUSED)))) }
    {
        let answer = if self.takes(node, payload) {
            TAKEN
        } else {
            REFUSED
        };
        Ok(Some(write_response(self.alloc, &Response::SendData { answer })?))
    }

    /// What the chip tells of itself, of a node, or that it asks a node.
    fn information(&self, request: &Request) -> Response
        requires { IsInformation request.now }
        ensures { Some (response_frame result) ≡ reply_to self.now.state request.now }
    {
        match request {
            Request::GetInitData => self.init_data(),
            Request::GetCapabilities => capabilities(),
            Request::GetVersion => Response::GetVersion {
                text: VERSION_TEXT,
                library_type: LIBRARY_TYPE,
            },
            Request::MemoryGetId => Response::MemoryGetId {
                home_id: HOME_ID,
                node: controller(),
            },
            Request::GetNodeProtocolInfo { node } => self.protocol_info(*node),
            Request::IsFailedNode { node } => Response::IsFailedNode {
                failed: self.failing.get(*node),
            },
            Request::GetRoutingInfo { node, .. } => Response::GetRoutingInfo {
                nodes: neighbours(&self.table, *node),
            },
            _ => Response::RequestNodeInfo { answer: TAKEN },
        }
    }

    /// The nodes of the network.
    fn init_data(&self) -> Response
        ensures { result ≡ init_data self.now.state }
    {
        Response::GetInitData {
            version: INIT_VERSION,
            capabilities: 0,
            nodes: self.joined.mask_with_home(),
            chip_type: CHIP_TYPE,
            chip_version: 0,
        }
    }

    /// What the chip knows of a node's protocol.
    fn protocol_info(&self, node: NodeId) -> Response
        ensures { result ≡ protocol_info self.now.state node }
    {
        let listens = node.number() == HOME || (self.joined.get(node) && self.listening.get(node));
        Response::GetNodeProtocolInfo {
            capability: if listens { LISTENS } else { 0 },
            security: 0,
            reserved: 0,
            basic: BASIC_CLASS,
            generic: 0,
            specific: 0,
        }
    }

    /// Whether a SendData is taken: the chip is idle, the node joined, and the payload of 1 to 46 bytes.
    fn takes(&self, node: NodeId, payload: &Bytes) -> bool
        ensures { result ≡ takes self.now.state node payload.now }
    {
        self.sending.is_none()
            && self.joined.get(node)
            && payload.len() >= 1
            && payload.len() <= MAX_PAYLOAD
    }

    /// Gives the host its frame, and does what the request asks. The answer is the way of a SendData that is taken.
    fn perform(
        &mut self,
        request: Option<Request>,
        post: Option<Post>,
        out: &mut List<ChipOut>,
    ) -> Option<Route>
        requires post { post ≡ reply_if self.old.state request }
        requires room { 2 ≤ out.old.room }
        requires aborted { self.old.state.aborted + 1 < 2 ^ 64 }
        ensures may { HasWay request self.old.state result }
        ensures state { self.new.state ≡ requested request self.old.state }
        ensures outs { out.new.items ≡ out.old.items ++ requested_outs request self.old.state result }
        ensures decoder { self.new.decoder ≡ self.old.decoder }
    {
        let request = request?;
        if let Some(post) = post {
            self.port.queue(post, out);
        }
        match request {
            Request::SendData {
                node,
                payload,
                callback_id,
                ..
            } => self.send(node, payload, callback_id, out),
            Request::SendDataAbort => {
                self.stop();
                None
            }
            Request::RequestNodeInfo { node } => {
                out.put(ChipOut::AskInfo(node));
                None
            }
            _ => None,
        }
    }

    /// A SendData that is taken goes on the air over the route of the table, where there is one.
    fn send(
        &mut self,
        node: NodeId,
        payload: Bytes,
        callback_id: u8,
        out: &mut List<ChipOut>,
    ) -> Option<Route>
        requires { 0 < out.old.room }
        ensures may { IsWayIf (takes self.old.state node payload) self.old.state.table node result }
        ensures state { self.new.state ≡
            (if takes self.old.state node payload then record self.old.state {
              sending = Some
                  (record { node = node; callback_id = callback_id });
            } else self.old.state) }
        ensures outs { out.new.items ≡ out.old.items ++ (if takes self.old.state node payload then sent node payload result else []) }
        ensures decoder { self.new.decoder ≡ self.old.decoder }
    {
        if !self.takes(node, &payload) {
            return None;
        }
        self.sending = Some(Sending { node, callback_id });
        let way = self.way_to(node);
        out.put(match way {
            Some(route) => ChipOut::OnAir {
                to: node,
                route,
                payload,
            },
            None => ChipOut::NoRoute,
        });
        way
    }

    /// The way of the table to a node.
    fn way_to(&self, node: NodeId) -> Option<Route>
        ensures { IsWay self.now.state.table node result }
    {
        self.table.route(node)
    }

    /// The SendData under way is aborted.
    fn stop(&mut self)
        requires { self.old.state.aborted + 1 < 2 ^ 64 }
        ensures state { self.new.state ≡ stopped self.old.state.sending self.old.state }
        ensures decoder { self.new.decoder ≡ self.old.decoder }
    {
        if let Some(sending) = self.sending {
            self.close(sending, TransmitStatus::Fail);
            self.aborted += 1;
        }
    }
}

/// What the chip tells of itself.
fn capabilities() -> Response
    ensures { result ≡ capabilities }
{
    Response::GetCapabilities {
        version: APPLICATION_VERSION,
        revision: 0,
        manufacturer: 0,
        product_type: 0,
        product: 0,
        functions: FUNCTIONS,
    }
}

/// The answer to an item: a good frame is acknowledged, or collides; a whole frame that is invalid is refused.
fn put_answer(collides: bool, item: &Item, out: &mut List<ChipOut>)
    requires { 0 < out.old.room }
    ensures outs { out.new.items ≡ out.old.items ++ answer_outs collides item.now }
    ensures room { out.old.room ≤ out.new.room + 1 }
{
    match item {
        Item::Good(Unit::Framed(_)) if collides => out.put(ChipOut::Write(Unit::Can)),
        Item::Good(Unit::Framed(_)) => out.put(ChipOut::Write(Unit::Ack)),
        Item::Refused(Refusal::BadSum { .. }) | Item::Refused(Refusal::BadKind(_)) => {
            out.put(ChipOut::Write(Unit::Nak))
        }
        _ => {}
    }
}

/// The request that a frame is: one of the host's requests, with a body of its function.
fn request_in(alloc: Global, frame: &Frame) -> Result<Option<Request>, NoMemory>
    ensures { IfOk result (λ request. request ≡ asked frame.now) }
{
    if frame.kind == Kind::Response {
        return Ok(None);
    }
    match read_request(alloc, frame.func, frame.body.as_slice()) {
        Ok(request) => Ok(Some(request)),
        Err(BodyFault::NoMemory) => Err(NoMemory),
        Err(_) => Ok(None),
    }
}
