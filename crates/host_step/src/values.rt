//! What else payloads of nodes bring: values, a Wake Up Notification, a Segment Request, and what cannot be read.

ghost use Rattle.std.specs.Prelude.{◌≡◌, ◌++◌, OnOk, OnErr};
ghost use Rattle.host_model.specs.Events.{Unreads, Notifies, Resends};
ghost use Rattle.host_model.specs.After.{after};
ghost use Rattle.host_model.specs.Outs.{outs};
ghost use Rattle.host_model.specs.May.{May};
ghost use Rattle.host_model.specs.Taking.{value_event};
ghost use Rattle.host_step.specs.Changes.{parts_after};

use crate::HostCore;
use host_model::{HostOut, facts_are_kept};
use host_requests::Task;
use value_store::StoreFault;
use zw_base::{Bytes, List, NoMemory, NodeId, Payload, Setting};
use zw_text::Entry;

impl HostCore {
    /// A payload of a node tells nothing.
    pub fn unread(
        &self,
        node: NodeId,
        payload: &[u8],
        out: &mut List<HostOut>,
    ) -> Result<(), NoMemory>
        ensures state { self.now.state ≡
            after self.now.state (Unreads node payload.now) }
        ensures outs { OnOk result (out.new.items ≡ out.old.items ++
            outs self.now.state (Unreads node payload.now)) }
        ensures err { OnErr result (out.new.items ≡ out.old.items) }
    {
        let copy = Bytes::from_slice(self.alloc, payload)?;
        out.push(HostOut::Note(Entry::Unread {
            node,
            payload: copy,
        }))
    }

    /// A node reports a value, which is kept, or finds no room.
    pub fn hear_value(
        &mut self,
        node: NodeId,
        setting: &Setting,
        out: &mut List<HostOut>,
    ) -> Result<(), NoMemory>
        ensures state { OnOk result (self.new ≡
            parts_after self.old (value_event self.old.state node setting.now)) }
        ensures outs { OnOk result (out.new.items ≡ out.old.items ++
            outs self.old.state (value_event self.old.state node setting.now)) }
        ensures err { OnErr result ((self.new ≡ self.old)
            × (out.new.items ≡ out.old.items)) }
    {
        facts_are_kept();
        out.reserve(1)?;
        match self
            .store
            .hear_report(node, setting.property, setting.value)
        {
            Ok(()) => {
                out.put(HostOut::Note(Entry::Report {
                    node,
                    setting: *setting,
                }));
                Ok(())
            }
            Err(StoreFault::StoreFull) => {
                out.put(HostOut::Note(Entry::Unstored {
                    node,
                    property: setting.property,
                }));
                Ok(())
            }
            Err(StoreFault::NoMemory) => Err(NoMemory),
        }
    }

    /// A node says that it is awake.
    pub fn notified(&mut self, node: NodeId, out: &mut List<HostOut>) -> Result<(), NoMemory>
        ensures state { OnOk result (self.new ≡
            parts_after self.old (Notifies node)) }
        ensures outs { OnOk result (out.new.items ≡
            out.old.items ++ outs self.old.state (Notifies node)) }
        ensures err { OnErr result ((self.new ≡ self.old)
            × (out.new.items ≡ out.old.items)) }
    {
        facts_are_kept();
        out.reserve(1)?;
        self.nodes.notified(node);
        out.put(HostOut::Note(Entry::Awake { node }));
        Ok(())
    }

    /// A segment that a node asked for waits to be sent again, or finds 64 tasks waiting.
    pub fn resend(
        &mut self,
        node: NodeId,
        payload: Payload,
        out: &mut List<HostOut>,
    ) -> Result<(), NoMemory>
        requires { May self.old.state (Resends node payload) }
        ensures state { OnOk result (self.new ≡
            parts_after self.old (Resends node payload)) }
        ensures outs { OnOk result (out.new.items ≡ out.old.items ++
            outs self.old.state (Resends node payload)) }
        ensures err { OnErr result ((self.new ≡ self.old)
            × (out.new.items ≡ out.old.items)) }
    {
        out.reserve(1)?;
        if self.is_full() {
            out.put(HostOut::Note(Entry::QueueFull { node }));
            return Ok(());
        }
        self.requests.push(Task::Segment { node, payload });
        Ok(())
    }
}
