//! How a device hears in segments.

ghost use Rattle.std.specs.Prelude.{◌≡◌, ◌<◌, false, [], ℕ, List, IfOk, IfSome, OnOk, OnErr, All, Some};
ghost use Rattle.std.specs.Option.{option_map, option_to_list};
ghost use Rattle.supervision.specs.Session.{wire_id};
ghost use Rattle.class_info.specs.InfoSpelling.{form};
ghost use Rattle.transport_segments.specs.Segment.{id_of, IsSegment};
ghost use Rattle.transport_segments.specs.Taking.{taken_at};
ghost use Rattle.device_kinds.specs.Worded.{IsPayload, IsShort};
ghost use Rattle.device_stack.specs.Hearing.{hears_in_segments, hears_segment, assembles, acknowledged, repeats_segment, hears_openly};
ghost use Rattle.device_stack.specs.Answers.{status_report};

use crate::Stack;
use class_info::InfoMessage;
use device_kinds::{bare, complete, is_last_of, request, segment_session};
use encap::Supervised;
use supervision::session_id;
use transport_segments::{SegmentFault, Taken, segment_id};
use zw_base::{Bytes, NoMemory, Payload, Replies};

impl Stack {
    /// Hears a payload that may be a segment.
    #[tactic(auto, unfolding(crate::specs::Hearing::hears_in_segments))]
    pub(crate) fn hear_in_segments(
        &mut self,
        payload: &[u8],
        out: &mut Replies,
    ) -> Result<(), NoMemory>
        requires { out.old ≡ [] }
        ensures ok { OnOk result (self.new ≡ (hears_in_segments self.old payload.now).device) }
        ensures replies { OnOk result (out.new ≡ (hears_in_segments self.old payload.now).replies) }
        ensures sizes { OnOk result (All IsPayload out.new) }
        ensures err { OnErr result (self.new ≡ self.old) }
        ensures err_replies { OnErr result (out.new ≡ []) }
    {
        match segment_id(payload) {
            Some(id) => self.hear_segment(id, payload, out),
            None => self.hear_openly(payload, out),
        }
    }

    /// Hears a segment of that session.
    #[tactic(auto, unfolding(crate::specs::Hearing::hears_segment))]
    fn hear_segment(&mut self, id: u8, segment: &[u8], out: &mut Replies) -> Result<(), NoMemory>
        requires empty { out.old ≡ [] }
        requires segment { IsSegment segment.now }
        requires id { id ≡ id_of segment.now }
        ensures ok { OnOk result (self.new ≡ (hears_segment self.old segment.now).device) }
        ensures replies { OnOk result (out.new ≡ (hears_segment self.old segment.now).replies) }
        ensures sizes { OnOk result (All IsPayload out.new) }
        ensures err { OnErr result (self.new ≡ self.old) }
        ensures err_replies { OnErr result (out.new ≡ []) }
    {
        let taken = self.sessions.taken();
        if taken == u64::MAX {
            return Err(NoMemory);
        }
        if id == segment_session(taken + 1) {
            return self.assemble(id, segment, out);
        }
        if is_last_of(taken, id, segment) {
            return self.repeat_segment(id, out);
        }
        Ok(())
    }

    /// Keeps a segment of the session that comes next, and hears the datagram that it completes.
    fn assemble(&mut self, id: u8, segment: &[u8], out: &mut Replies) -> Result<(), NoMemory>
        requires empty { out.old ≡ [] }
        requires range { id < 16 }
        requires id { id ≡ id_of segment.now }
        ensures ok { OnOk result (self.new ≡ (assembles self.old segment.now (taken_at self.old.reassembly segment.now)).device) }
        ensures replies { OnOk result (out.new ≡ (assembles self.old segment.now (taken_at self.old.reassembly segment.now)).replies) }
        ensures sizes { OnOk result (All IsPayload out.new) }
        ensures err { OnErr result (self.new ≡ self.old) }
        ensures err_replies { OnErr result (out.new ≡ []) }
    {
        match self.reassembly.completes(segment) {
            Ok(Some(datagram)) => self.hear_whole(id, datagram.as_slice(), out),
            Ok(None) => self.keep(id, segment, out),
            Err(SegmentFault::NoMemory) => Err(NoMemory),
            Err(_) => Ok(()),
        }
    }

    /// Hears a whole datagram.
    #[tactic(auto, unfolding(crate::specs::Hearing::hears_openly))]
    fn hear_whole(&mut self, id: u8, datagram: &[u8], out: &mut Replies) -> Result<(), NoMemory>
        requires empty { out.old ≡ [] }
        requires range { id < 16 }
        ensures ok { OnOk result (self.new ≡ (acknowledged id (hears_openly self.old datagram.now)).device) }
        ensures replies { OnOk result (out.new ≡ (acknowledged id (hears_openly self.old datagram.now)).replies) }
        ensures sizes { OnOk result (All IsPayload out.new) }
        ensures err { OnErr result (self.new ≡ self.old) }
        ensures err_replies { OnErr result (out.new ≡ []) }
    {
        let answer = self.answer_bytes(datagram)?;
        self.reassembly.clear();
        out.push(complete(id));
        if let Some(text) = answer {
            out.push(Payload::fitting(text.as_slice()));
        }
        Ok(())
    }

    /// Keeps a segment that completes nothing.
    fn keep(&mut self, id: u8, segment: &[u8], out: &mut Replies) -> Result<(), NoMemory>
        requires empty { out.old ≡ [] }
        requires range { id < 16 }
        requires id { id ≡ id_of segment.now }
        requires part { (datagram : List ℕ) → taken_at self.old.reassembly segment.now ≡ Some (Taken.Whole datagram) → ⊥ }
        ensures ok { OnOk result (self.new ≡ (assembles self.old segment.now (taken_at self.old.reassembly segment.now)).device) }
        ensures replies { OnOk result (out.new ≡ (assembles self.old segment.now (taken_at self.old.reassembly segment.now)).replies) }
        ensures sizes { OnOk result (All IsPayload out.new) }
        ensures err { OnErr result (self.new ≡ self.old) }
        ensures err_replies { OnErr result (out.new ≡ []) }
    {
        if let Some(at) = self.keep_part(segment)? {
            out.push(request(id, at));
        }
        Ok(())
    }

    /// Keeps a segment that completes nothing, and answers the place that is to be asked for, where there is one.
    #[tactic(auto, unfolding(transport_segments::specs::Taking::kept_after))]
    fn keep_part(&mut self, segment: &[u8]) -> Result<Option<u16>, NoMemory>
        requires part { (datagram : List ℕ) → taken_at self.old.reassembly segment.now ≡ Some (Taken.Whole datagram) → ⊥ }
        ensures ok { IfOk result (λ missing. assembles self.old segment.now (taken_at self.old.reassembly segment.now) ≡
            record { device = self.new; replies = option_to_list (option_map (λ at. form (InfoMessage.TransportRequest (id_of segment.now) at)) missing) }) }
        ensures range { IfOk result (λ missing. IfSome missing (λ at. at < 2048)) }
        ensures err { OnErr result (self.new ≡ self.old) }
    {
        match self.reassembly.take(segment) {
            Ok(Taken::Need(at)) => Ok(Some(at)),
            Ok(Taken::Kept) => Ok(None),
            Ok(Taken::Whole(_)) => unreachable!(),
            Err(SegmentFault::NoMemory) => Err(NoMemory),
            Err(_) => Ok(None),
        }
    }

    /// Answers the last segment of the last session taken again.
    fn repeat_segment(&mut self, id: u8, out: &mut Replies) -> Result<(), NoMemory>
        requires empty { out.old ≡ [] }
        requires range { id < 16 }
        ensures ok { OnOk result (self.new ≡ self.old) }
        ensures replies { (segment : List ℕ) → id ≡ id_of segment → OnOk result (out.new ≡ (repeats_segment self.old segment).replies) }
        ensures sizes { OnOk result (All IsPayload out.new) }
        ensures err { OnErr result (self.new ≡ self.old) }
        ensures err_replies { OnErr result (out.new ≡ []) }
    {
        let text = self.last_status()?;
        out.push(complete(id));
        out.push(Payload::fitting(text.as_slice()));
        Ok(())
    }

    /// The text that tells the status of the last session taken.
    fn last_status(&self) -> Result<Bytes, NoMemory>
        ensures value { IfOk result (λ text. text ≡
            form (status_report self.now (record { updates = false; id = wire_id self.now.sessions.taken }) self.now.sessions.status)) }
        ensures short { IfOk result (λ text. IsShort text) }
    {
        let asked = Supervised {
            updates: false,
            id: session_id(self.sessions.taken()),
        };
        Ok(bare(
            self.alloc,
            &self.status_report(asked, self.sessions.status()),
        )?)
    }
}
