//! The reports of a device: what the host hears of them.

ghost use Rattle.std.specs.Prelude.{◌≡◌, false, true, ℕ, List};
ghost use Rattle.std.specs.List.{AllByRecursion};
ghost use Rattle.supervision.specs.Session.{IsStatus};
ghost use Rattle.class_info.specs.Values.{status_byte};
ghost use Rattle.device_kinds.specs.declared.kind.Kind.{Kind};
ghost use Rattle.device_kinds.specs.Answers.{report_status};
ghost use Rattle.device_kinds.specs.Kind.{lists};
ghost use Rattle.device_sim.specs.State.{State, fresh};
ghost use Rattle.device_sim.specs.Event.{DeviceEvent, Hears, device_after, device_replies};
ghost use Rattle.proof_messages.specs.Asking.{takes_openly};
ghost use Rattle.proof_messages.specs.Reporting.{TellsOpenly, TellsPlainly, TellsTrue, CanSay};

/// Each payload that a device sends at an event is heard as one report of its last session, with the status that it keeps of it from then on; or
/// as no report. What a device says can be said, from its making on, whatever happens to it. One that takes what is not sealed and lists no Transport Service
/// asks the host for no nonce and no segment, whatever it hears; one that lists that asks for no nonce (`openly`).
pub fn reports_tell()
    ensures replies { (device : State) (event : DeviceEvent) → CanSay device →
        AllByRecursion (TellsTrue (device_after device event)) (device_replies device event) }
    ensures plainly { (device : State) (payload drawn : List ℕ) → takes_openly device.kind ≡ true → lists device.kind 0x55 ≡ false →
        AllByRecursion TellsPlainly (device_replies device (Hears payload drawn)) }
    ensures openly { (device : State) (payload drawn : List ℕ) → takes_openly device.kind ≡ true →
        AllByRecursion TellsOpenly (device_replies device (Hears payload drawn)) }
    ensures fresh { (node : ℕ) (kind : Kind) (key : List ℕ) → CanSay (fresh node kind key) }
    ensures kept { (device : State) (event : DeviceEvent) → CanSay device → CanSay (device_after device event) }
    ensures status { (status : ℕ) → IsStatus status → status_byte (report_status status) ≡ status }
{}
