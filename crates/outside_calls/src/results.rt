//! What is due to the chip, as it is given to it.

ghost use Rattle.std.specs.Prelude.{◌≡◌, ◌<◌, ◌^◌, length, map, IfOk, OnOk, OnErr, Option};
ghost use Rattle.route_table.specs.declared.route.Route.{Route as TheRoute};
ghost use Rattle.mesh_sim.specs.Routes.{IsRoute};
ghost use Rattle.chip_sim.specs.Events.{FitsProfile};
ghost use Rattle.outside_model.specs.State.{Does};
ghost use Rattle.outside_model.specs.Results.{profile_for, informs, gives, MayGive};
ghost use Rattle.outside_model.specs.Did.{GoesFor, PrefixOf, StopsFor};
ghost use Rattle.outside_model.specs.Schedules.{Givings};

use crate::Outside;
use crate::devices::told_profile;
use device_sim::Device;
use mesh_sim::place_in;
use outside_model::Due;
use outside_step::OutsideCore;
use zw_base::{List, NoMemory, NodeId, Profile};
use zw_text::Entry;

impl Outside {
    /// What is due to the chip is given to it, in its order.
    pub fn give_due(
        &mut self,
        devices: &Vec<Box<dyn Device>>,
        out: &mut List<Entry>,
    ) -> Result<(), NoMemory>
        requires few { length devices.now.items < 2 ^ 64 }
        ensures ok { OnOk result (GoesFor (map (λ d. state d) devices.now.items)
            (Givings (length self.old.due)) self.old self.new out.old.items out.new.items) }
        ensures err { OnErr result (StopsFor (map (λ d. state d) devices.now.items)
            (PrefixOf (Givings (length self.old.due))) self.old out.old.items out.new.items) }
    {
        for _ in 0..self.core.due() {
            self.give(devices, out)?;
        }
        Ok(())
    }

    /// The chip is given what is due first.
    fn give(
        &mut self,
        devices: &Vec<Box<dyn Device>>,
        out: &mut List<Entry>,
    ) -> Result<(), NoMemory>
        requires few { length devices.now.items < 2 ^ 64 }
        ensures ok { OnOk result (GoesFor (map (λ d. state d) devices.now.items) (Givings 1) self.old self.new out.old.items out.new.items) }
        ensures no_entries { OnErr result (out.new.items ≡ out.old.items) }
    {
        let mut told = List::new(self.core.alloc());
        give_first(&mut self.core, devices, &mut told)?;
        self.core.enter(told, out)
    }
}

/// The chip is given what is due first, and that is told.
fn give_first(
    core: &mut OutsideCore,
    devices: &Vec<Box<dyn Device>>,
    told: &mut List<Entry>,
) -> Result<(), NoMemory>
    requires few { length devices.now.items < 2 ^ 64 }
    ensures { OnOk result ((route : Option TheRoute) × MayGive core.old core.old.due route
        × Does (gives core.old (map (λ d. state d) devices.now.items) core.old.due route) core.new told.old.items told.new.items) }
{
    let Some(due) = core.next_due() else {
        return Ok(());
    };
    match due {
        Due::NoRoute => core.give_no_route(told),
        Due::Info(node) => {
            core.drop_due();
            inform(core, node, devices, told)
        }
    }
}

/// The chip is given the information of a node.
fn inform(
    core: &mut OutsideCore,
    node: NodeId,
    devices: &Vec<Box<dyn Device>>,
    told: &mut List<Entry>,
) -> Result<(), NoMemory>
    requires few { length devices.now.items < 2 ^ 64 }
    ensures { OnOk result ((route : Option TheRoute) × IsRoute core.old.air.network node route
        × Does (informs core.old (map (λ d. state d) devices.now.items) node route) core.new told.old.items told.new.items) }
{
    let profile = profile_for(core, node, devices)?;
    core.inform(node, profile.as_ref(), told)
}

/// The information of a node that is joined, has a route in the air, and is awake.
fn profile_for(
    core: &OutsideCore,
    node: NodeId,
    devices: &Vec<Box<dyn Device>>,
) -> Result<Option<Profile>, NoMemory>
    requires few { length devices.now.items < 2 ^ 64 }
    ensures found { IfOk result (λ profile. (route : Option TheRoute) × IsRoute core.now.air.network node route
        × (profile ≡ profile_for core.now.air (map (λ d. state d) devices.now.items) node route)) }
    ensures fits { IfOk result (λ profile. FitsProfile profile) }
{
    let route = core.route(node);
    let place = place_in(devices, node);
    match place {
        Some(place) if core.is_joined(node) && route.is_some() => {
            told_profile(&devices[place], core.alloc())
        }
        _ => Ok(None),
    }
}
