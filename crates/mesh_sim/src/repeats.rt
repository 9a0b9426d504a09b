//! Frames that are heard again.

ghost use Rattle.std.specs.Prelude.{◌≡◌, ℕ, ◌<◌, ◌^◌, [], ◌∷◌, length, map, Option, Some, None, OnOk, OnErr, MatchResult, List as Items};
ghost use Rattle.route_table.specs.declared.route.Route.{Route as TheRoute};
ghost use Rattle.device_sim.specs.Event.{Hears};
ghost use Rattle.air_frames.specs.Ages.{refusal_of};
ghost use Rattle.air_frames.specs.declared.ages.Refusal.{Refusal as Refused};
ghost use Rattle.air_frames.specs.History.{Mark, IsOf, refusal_in};
ghost use Rattle.mesh_sim.specs.Faults.{IsFault};
ghost use Rattle.mesh_sim.specs.Steps.{Repeats, Did, IsRepeatOf, IsCut, HasHeard, HasPerhaps, ComesAgain, IsHeardAgain, IsHeardPerhaps};

use crate::arrivals::{Arrival, enter_at_chip};
use crate::devices::listener_in;
use crate::{Air, AirEvent, RepeatFault};
use air_frames::{Heading, Refusal, ages_are_those_of_the_history};
use device_sim::Device;
use zw_base::{Draw, List, NoMemory, Payload};

/// A frame that may be repeated.
#[derive(Drop)]
struct Again {
    heading: Heading,
    arrival: Arrival,
}

impl Air {
    /// Lets a frame be heard once more, at once and without a callback: by node 1, or by the first device of its node,
    /// where that is awake. `draw` gives the bytes for the nonces of the device.
    pub fn repeat<D: Draw>(
        &mut self,
        frame: u64,
        devices: &mut Vec<Box<dyn Device>>,
        draw: &mut D,
        out: &mut List<AirEvent>,
    ) -> Result<(), RepeatFault>
        requires few { length devices.old.items < 2 ^ 64 }
        ensures refused { MatchResult result (λ _. refusal_of self.old.state.frames frame ≡ None)
            (λ fault. IsFault (refusal_of self.old.state.frames frame) fault) }
        ensures by_history { (log : Items Mark) → IsOf log self.old.state.frames
            → MatchResult result (λ _. refusal_in log frame ≡ None) (λ fault. IsFault (refusal_in log frame) fault) }
        ensures still { (refusal : Refused) → refusal_of self.old.state.frames frame ≡ Some refusal →
            map (λ d. state d) devices.new.items ≡ map (λ d. state d) devices.old.items }
        ensures ok { OnOk result ((drawn : Items ℕ) × (route : Option TheRoute) × Did (Repeats frame drawn route ∷ [])
            self.old.state (map (λ d. state d) devices.old.items) self.new.state (map (λ d. state d) devices.new.items) out.old.items out.new.items) }
        ensures err { OnErr result (self.new.state ≡ self.old.state) }
        ensures no_outs { OnErr result (out.new.items ≡ out.old.items) }
        ensures cut { OnErr result (IsCut (IsRepeatOf frame)
            (record { air = self.old.state; devices = map (λ d. state d) devices.old.items }) (map (λ d. state d) devices.new.items)) }
        ensures kept { length devices.new.items ≡ length devices.old.items }
    {
        ages_are_those_of_the_history();
        let Again { heading, arrival } = self.again(frame)?;
        match heading {
            Heading::Homeward => enter_at_chip(arrival, out)?,
            Heading::Outward => self.repeat_outward(&arrival, devices, draw, out)?,
        }
        Ok(())
    }

    /// The frame of that number, where it may be repeated.
    fn again(&self, frame: u64) -> Result<Again, Refusal>
        ensures { MatchResult result (λ again. ComesAgain self.now.state frame again.heading again.arrival.number again.arrival.node again.arrival.payload)
            (λ refusal. refusal_of self.now.state.frames frame ≡ Some refusal) }
    {
        let sent = self.frames.repeatable(frame)?;
        Ok(Again {
            heading: sent.heading(),
            arrival: Arrival {
                number: frame,
                node: sent.node(),
                payload: Payload::fitting(sent.payload()),
            },
        })
    }

    /// A frame of node 1 is heard once more, where the first device of its node is awake.
    fn repeat_outward<D: Draw>(
        &mut self,
        arrival: &Arrival,
        devices: &mut Vec<Box<dyn Device>>,
        draw: &mut D,
        out: &mut List<AirEvent>,
    ) -> Result<(), NoMemory>
        requires few { length devices.old.items < 2 ^ 64 }
        ensures ok { OnOk result ((drawn : Items ℕ) × (route : Option TheRoute) × IsHeardAgain
            self.old.state (map (λ d. state d) devices.old.items)
            self.new.state (map (λ d. state d) devices.new.items)
            arrival.now.number arrival.now.node arrival.now.payload drawn route out.old.items out.new.items) }
        ensures err { OnErr result (self.new.state ≡ self.old.state) }
        ensures no_outs { OnErr result (out.new.items ≡ out.old.items) }
        ensures cut { OnErr result (IsHeardPerhaps self.old.state (map (λ d. state d) devices.old.items)
            (map (λ d. state d) devices.new.items) arrival.now.node arrival.now.payload) }
        ensures kept { length devices.new.items ≡ length devices.old.items }
    {
        match listener_in(devices, arrival.node) {
            Some(place) => {
                let drawn = draw.next();
                self.repeat_at_device(arrival, &mut devices[place], drawn, out)
            }
            None => Ok(()),
        }
    }

    /// A device hears a frame once more.
    fn repeat_at_device(
        &mut self,
        arrival: &Arrival,
        device: &mut Box<dyn Device>,
        drawn: [u8; 8],
        out: &mut List<AirEvent>,
    ) -> Result<(), NoMemory>
        ensures ok { OnOk result ((route : Option TheRoute) × HasHeard self.old.state arrival.now.node arrival.now.payload drawn route
            (state device.old) (state device.new) self.new.state arrival.now.number [] out.old.items out.new.items) }
        ensures err { OnErr result (self.new.state ≡ self.old.state) }
        ensures no_outs { OnErr result (out.new.items ≡ out.old.items) }
        ensures cut { OnErr result (HasPerhaps self.old.state arrival.now.node (state device.old) (state device.new) (Hears arrival.now.payload drawn)) }
    {
        let hearing = self.hear(arrival, device, drawn, out)?;
        self.enter_heard(arrival, &hearing, out);
        Ok(())
    }
}
