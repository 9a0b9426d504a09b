//! The simulated devices of the mesh: what each kind keeps, and what it does with a payload, a tick, a wake-up and a
//! change made by hand.
//!
//! `Device` is the trait of all kinds. Its contract says each answer and each new state exactly, as a function of the
//! state before. A call that runs out of memory leaves the device unchanged. `make_switch` to `make_relay` make the
//! eight kinds; `Starved` and `Recorder` own a device of any kind and are devices themselves.
//! The definitions are in `specs/`: `Kind` is that of `device_kinds`, `State` that of `device_stack`; `Event` says what
//! may happen. The laws that follow from the definitions alone are in `laws`.
#![tactic(auto)]

mod device;
mod kinds;
mod laws;
mod recorder;
mod simulated;
mod starved;

pub use device::Device;
pub use device_stack::{Change, Kind};
pub use kinds::{
    Configurable, Dimmer, Lock, Relay, Sensor, Strip, Switch, Thermostat, make_config, make_dimmer,
    make_lock, make_relay, make_sensor, make_strip, make_switch, make_thermostat,
};
pub use laws::{nonces_are_spent, sessions_rise, when_changes_come};
pub use recorder::Recorder;
pub use simulated::Simulated;
pub use starved::Starved;
pub use zw_base::Profile;
