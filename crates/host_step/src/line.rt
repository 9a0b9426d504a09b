//! What the line brings: an item that is judged, and what the request under way makes of it.

ghost use Rattle.std.specs.Prelude.{◌≡◌, ◌++◌, OnOk, OnErr};
ghost use Rattle.host_requests.specs.Events.RequestsEvent.{IsSent, Fails, Responds, CallsBack, Updates, Ticks};
ghost use Rattle.host_node.specs.declared.attempt.Moment.TheVariants.{BetweenTicks, BeforeItsTick};
ghost use Rattle.host_model.specs.Events.{Hears, Requests_do};
ghost use Rattle.host_model.specs.Outs.{outs};
ghost use Rattle.host_parts.specs.Heard.{heard_as};
ghost use Rattle.host_step.specs.Changes.{parts_after};

use crate::HostCore;
use chip_functions::{Response, TransmitStatus, Update};
use host_model::{HostOut, facts_are_kept};
use host_node::Moment;
use host_parts::{Heard, answer, request_hears};
use serial_frame::Item;
use zw_base::{List, NoMemory};

impl HostCore {
    /// An item of the chip is judged: a unit answers it where one is due.
    pub fn hear(&mut self, item: &Item, out: &mut List<HostOut>) -> Result<(), NoMemory>
        ensures state { OnOk result (self.new ≡
            parts_after self.old (Hears item.now)) }
        ensures outs { OnOk result (out.new.items ≡
            out.old.items ++ outs self.old.state (Hears item.now)) }
        ensures err { OnErr result ((self.new ≡ self.old)
            × (out.new.items ≡ out.old.items)) }
    {
        out.reserve(1)?;
        self.link.heard(item);
        answer(item, out);
        Ok(())
    }

    /// The frame of the request under way was acknowledged.
    pub fn sent(&mut self, out: &mut List<HostOut>) -> Result<(), NoMemory>
        ensures state { OnOk result (self.new ≡
            parts_after self.old (Requests_do IsSent BetweenTicks)) }
        ensures outs { OnOk result (out.new.items ≡ out.old.items ++
            outs self.old.state (Requests_do IsSent BetweenTicks)) }
        ensures err { OnErr result ((self.new ≡ self.old)
            × (out.new.items ≡ out.old.items)) }
    {
        self.request_hears(Heard::Sent, Moment::BetweenTicks, out)
    }

    /// It was not acknowledged in any of its copies.
    pub fn failed(&mut self, out: &mut List<HostOut>) -> Result<(), NoMemory>
        ensures state { OnOk result (self.new ≡
            parts_after self.old (Requests_do Fails BetweenTicks)) }
        ensures outs { OnOk result (out.new.items ≡ out.old.items ++
            outs self.old.state (Requests_do Fails BetweenTicks)) }
        ensures err { OnErr result ((self.new ≡ self.old)
            × (out.new.items ≡ out.old.items)) }
    {
        self.request_hears(Heard::Failed, Moment::BetweenTicks, out)
    }

    /// The chip sent a response.
    pub fn responded(&mut self, response: Response, out: &mut List<HostOut>) -> Result<(), NoMemory>
        ensures state { OnOk result (self.new ≡
            parts_after self.old (Requests_do (Responds response) BetweenTicks)) }
        ensures outs { OnOk result (out.new.items ≡ out.old.items ++
            outs self.old.state (Requests_do (Responds response) BetweenTicks)) }
        ensures err { OnErr result ((self.new ≡ self.old)
            × (out.new.items ≡ out.old.items)) }
    {
        self.request_hears(Heard::Responded(response), Moment::BetweenTicks, out)
    }

    /// The chip sent the callback of the SendData with this id.
    pub fn called_back(
        &mut self,
        id: u8,
        status: TransmitStatus,
        out: &mut List<HostOut>,
    ) -> Result<(), NoMemory>
        ensures state { OnOk result (self.new ≡
            parts_after self.old (Requests_do (CallsBack id status) BetweenTicks)) }
        ensures outs { OnOk result (out.new.items ≡ out.old.items ++
            outs self.old.state (Requests_do (CallsBack id status) BetweenTicks)) }
        ensures err { OnErr result ((self.new ≡ self.old)
            × (out.new.items ≡ out.old.items)) }
    {
        self.request_hears(Heard::CalledBack { id, status }, Moment::BetweenTicks, out)
    }

    /// The chip sent an ApplicationUpdate with which no interview ends well.
    pub fn updated(&mut self, update: Update, out: &mut List<HostOut>) -> Result<(), NoMemory>
        ensures state { OnOk result (self.new ≡
            parts_after self.old (Requests_do (Updates update) BetweenTicks)) }
        ensures outs { OnOk result (out.new.items ≡ out.old.items ++
            outs self.old.state (Requests_do (Updates update) BetweenTicks)) }
        ensures err { OnErr result ((self.new ≡ self.old)
            × (out.new.items ≡ out.old.items)) }
    {
        self.request_hears(Heard::Updated(update), Moment::BetweenTicks, out)
    }

    /// The request under way counts a tick.
    pub fn tick_request(&mut self, out: &mut List<HostOut>) -> Result<(), NoMemory>
        ensures state { OnOk result (self.new ≡
            parts_after self.old (Requests_do Ticks BeforeItsTick)) }
        ensures outs { OnOk result (out.new.items ≡ out.old.items ++
            outs self.old.state (Requests_do Ticks BeforeItsTick)) }
        ensures err { OnErr result ((self.new ≡ self.old)
            × (out.new.items ≡ out.old.items)) }
    {
        self.request_hears(Heard::Ticked, Moment::BeforeItsTick, out)
    }

    // The request under way hears this, and what ends with it is done.
    fn request_hears(
        &mut self,
        heard: Heard,
        moment: Moment,
        out: &mut List<HostOut>,
    ) -> Result<(), NoMemory>
        ensures state { OnOk result (self.new ≡
            parts_after self.old (Requests_do (heard_as heard) moment)) }
        ensures outs { OnOk result (out.new.items ≡ out.old.items ++
            outs self.old.state (Requests_do (heard_as heard) moment)) }
        ensures err { OnErr result ((self.new ≡ self.old)
            × (out.new.items ≡ out.old.items)) }
    {
        facts_are_kept();
        request_hears(
            self.alloc,
            &mut self.requests,
            &mut self.nodes,
            &mut self.commands,
            heard,
            moment,
            out,
        )
    }
}
