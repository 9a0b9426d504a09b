//! Where the outputs of the chip go.

ghost use Rattle.std.specs.Prelude.{◌≡◌, All, Some, OnOk, IfOk};
ghost use Rattle.outside_model.specs.State.{Does, each};
ghost use Rattle.outside_model.specs.Chip.{put_out, shown_via, IsSendable, chip_ticks};

use crate::OutsideCore;
use chip_sim::ChipOut;
use outside_model::{Call, Due};
use route_table::Route;
use std::alloc::Global;
use zw_base::{List, NoMemory, NodeId, Payload, Sequence, read_node};
use zw_text::{Entry, Side};

impl OutsideCore {
    /// What the chip put out goes where it belongs, in its order.
    pub(crate) fn put_outputs(
        &mut self,
        outputs: &List<ChipOut>,
        told: &mut List<Entry>,
    ) -> Result<(), NoMemory>
        requires { All IsSendable outputs.now.items }
        ensures { OnOk result (Does (each put_out self.old outputs.now.items) self.new told.old.items told.new.items) }
    {
        for output in outputs.as_slice() {
            self.put_output(output, told)?;
        }
        Ok(())
    }

    /// One output of the chip goes where it belongs.
    fn put_output(&mut self, output: &ChipOut, told: &mut List<Entry>) -> Result<(), NoMemory>
        requires { IsSendable output.now }
        ensures { OnOk result (Does (put_out self.old output.now) self.new told.old.items told.new.items) }
    {
        match output {
            ChipOut::Write(unit) => self.to_host.write(Side::Chip, unit, told)?,
            ChipOut::OnAir { to, route, payload } => {
                self.put_on_air(*to, route, payload.as_slice(), told)?
            }
            ChipOut::NoRoute => {
                self.due.push(Due::NoRoute)?;
                self.calls.push(Call::NoRoute)?;
            }
            ChipOut::AskInfo(node) => self.due.push(Due::Info(*node))?,
            ChipOut::Full => told.push(Entry::ChipFull)?,
        }
        Ok(())
    }

    /// A payload of the chip goes on the air.
    fn put_on_air(
        &mut self,
        to: NodeId,
        route: &Route,
        payload: &[u8],
        told: &mut List<Entry>,
    ) -> Result<(), NoMemory>
        requires { IsSendable (ChipOut.OnAir to route.now payload.now) }
        ensures { OnOk result (Does (put_out self.old (ChipOut.OnAir to route.now payload.now)) self.new told.old.items told.new.items) }
    {
        let Some(controller) = read_node(1) else {
            unreachable!()
        };
        let Some(shown) = Payload::of(payload) else {
            unreachable!()
        };
        let repeaters = shown_repeaters(self.alloc, route)?;
        self.calls.push(Call::OfFrame)?;
        let frame = self.air.send(controller, to, *route, payload)?;
        told.push(Entry::Air {
            frame,
            sender: controller,
            receiver: to,
            repeaters,
            payload: shown,
        })
    }

    /// The chip ticks.
    pub fn tick_chip(&mut self, told: &mut List<Entry>) -> Result<(), NoMemory>
        ensures { OnOk result (Does (chip_ticks self.old) self.new told.old.items told.new.items) }
    {
        let mut outputs = List::new(self.alloc);
        self.chip.tick(&mut outputs)?;
        self.put_outputs(&outputs, told)
    }
}

/// The repeaters that are shown of a route.
pub(crate) fn shown_repeaters(alloc: Global, route: &Route) -> Result<Sequence<NodeId>, NoMemory>
    ensures { IfOk result (λ repeaters. repeaters ≡ shown_via route.now) }
{
    let mut repeaters = Sequence::new(alloc);
    let count = (route.count as usize).min(route.hops.len());
    for hop in &route.hops[..count] {
        if let Some(node) = read_node(*hop) {
            repeaters.push(node)?;
        }
    }
    Ok(repeaters)
}
