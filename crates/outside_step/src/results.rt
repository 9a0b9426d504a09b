//! Results that the chip is given: of frames, of payloads without a route, and of nodes' information.

ghost use Rattle.std.specs.Prelude.{◌≡◌, length, drop, slice_get, OnOk};
ghost use Rattle.std.specs.Option.{option_copied};
ghost use Rattle.chip_sim.specs.Events.{Informed, FitsProfile};
ghost use Rattle.outside_model.specs.State.{Does};
ghost use Rattle.outside_model.specs.Chip.{chip_does};
ghost use Rattle.outside_model.specs.Results.{call_back, without_no_route, no_route, no_routes, leading, forgets, frame_ends};

use crate::OutsideCore;
use chip_functions::TransmitStatus;
use outside_model::{Call, Due};
use zw_base::{List, NoMemory, NodeId, Profile};
use zw_text::Entry;

impl OutsideCore {
    /// The chip is given the result that it waits for longest.
    fn call_back(&mut self, status: TransmitStatus, told: &mut List<Entry>) -> Result<(), NoMemory>
        ensures { OnOk result (Does (call_back self.old status) self.new told.old.items told.new.items) }
    {
        self.drop_call();
        if !self.chip.owes_call() {
            return Ok(());
        }
        let mut outputs = List::new(self.alloc);
        self.chip.done(status, &mut outputs)?;
        self.put_outputs(&outputs, told)
    }

    /// The call that the chip waits for longest is no longer waited for.
    fn drop_call(&mut self)
        ensures { self.new ≡ record self.old { calls = drop 1 self.old.calls } }
    {
        if !self.calls.is_empty() {
            self.calls.remove(0);
        }
    }

    /// The first result without a route is no longer due.
    fn drop_no_route(&mut self)
        ensures { self.new ≡ record self.old { due = without_no_route self.old.due } }
    {
        remove_no_route(&mut self.due);
    }

    /// The chip is given the first result without a route.
    pub fn give_no_route(&mut self, told: &mut List<Entry>) -> Result<(), NoMemory>
        ensures { OnOk result (Does (no_route self.old) self.new told.old.items told.new.items) }
    {
        self.drop_no_route();
        self.call_back(TransmitStatus::NoRoute, told)
    }

    /// How many results without a route come before that of a frame.
    fn leading(&self) -> usize
        ensures { result ≡ leading self.now.calls }
    {
        for at in 0..self.calls.len() {
            if self.calls[at] != Call::NoRoute {
                return at;
            }
        }
        self.calls.len()
    }

    /// The chip is given so many results without a route.
    fn give_no_routes(&mut self, count: usize, told: &mut List<Entry>) -> Result<(), NoMemory>
        ensures { OnOk result (Does (no_routes count self.old) self.new told.old.items told.new.items) }
    {
        for _ in 0..count {
            self.give_no_route(told)?;
        }
        Ok(())
    }

    /// A hop that is no link leaves the chip's table, where it is there.
    fn forget(
        &mut self,
        dead: Option<(NodeId, NodeId)>,
        told: &mut List<Entry>,
    ) -> Result<(), NoMemory>
        ensures { OnOk result (Does (forgets self.old dead) self.new told.old.items told.new.items) }
    {
        let Some((first, second)) = dead else {
            return Ok(());
        };
        if !self.chip.table().linked(first, second) {
            return Ok(());
        }
        self.chip.forget_hop(first, second);
        told.push(Entry::Forget { first, second })
    }

    /// A frame of the chip came to its end.
    pub fn end_frame(
        &mut self,
        status: u8,
        dead: Option<(NodeId, NodeId)>,
        told: &mut List<Entry>,
    ) -> Result<(), NoMemory>
        ensures { OnOk result (Does (frame_ends self.old status dead) self.new told.old.items told.new.items) }
    {
        self.forget(dead, told)?;
        self.give_no_routes(self.leading(), told)?;
        self.call_back(
            TransmitStatus::of(status).unwrap_or(TransmitStatus::Fail),
            told,
        )
    }

    /// What is due first.
    pub fn next_due(&self) -> Option<Due>
        ensures { result ≡ slice_get self.now.due 0 }
    {
        if self.due.is_empty() {
            return None;
        }
        Some(self.due[0])
    }

    /// What is due first no longer is.
    pub fn drop_due(&mut self)
        ensures { self.new ≡ record self.old { due = drop 1 self.old.due } }
    {
        if !self.due.is_empty() {
            self.due.remove(0);
        }
    }

    /// How much is due.
    pub fn due(&self) -> usize
        ensures { result ≡ length self.now.due }
    {
        self.due.len()
    }

    /// The chip is given the information of a node, or that there is none.
    pub fn inform(
        &mut self,
        node: NodeId,
        profile: Option<&Profile>,
        told: &mut List<Entry>,
    ) -> Result<(), NoMemory>
        requires { FitsProfile (option_copied profile) }
        ensures { OnOk result (Does (chip_does self.old (Informed node (option_copied profile.entry))) self.new told.old.items told.new.items) }
    {
        let mut outputs = List::new(self.alloc);
        self.chip.info(node, profile, &mut outputs)?;
        self.put_outputs(&outputs, told)
    }
}

/// Takes out the first result without a route.
fn remove_no_route(due: &mut Vec<Due>)
    ensures { due.new.items ≡ without_no_route due.old.items }
{
    for at in 0..due.len() {
        if let Due::NoRoute = due[at] {
            due.remove(at);
            return;
        }
    }
}
