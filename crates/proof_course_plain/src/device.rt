//! The device of a node, in the course of its sessions.

ghost use Rattle.std.specs.Prelude.{◌≡◌, ℕ, true, List, []};
ghost use Rattle.proof_course.specs.Sessions.{Course, Cargo, first_course};
ghost use Rattle.device_kinds.specs.declared.kind.Kind.{Kind};
ghost use Rattle.device_sim.specs.State.{State, fresh};
ghost use Rattle.device_sim.specs.Event.{DeviceEvent, Hears, Ticks, Wakes, Sets, device_after, device_replies};
ghost use Rattle.proof_once.specs.proof_messages.Asking.{takes_openly};
ghost use Rattle.proof_course_plain.specs.Meaning.{Asked, HostMeans};
ghost use Rattle.proof_course_plain.specs.Making.{Makes, Names, HearsNone};
ghost use Rattle.proof_course_plain.specs.Device.{AtDevice, IsIdle, GoesAs, HearsAs};

use proof_once::{
    devices_end_sessions, messages_do_what_is_asked, messages_follow_the_course, messages_open,
    others_are_no_messages, reports_tell, segments_tell,
};
use proof_traffic::devices_stay_the_same;

/// A device that takes what is not sealed goes on as the course has it: it hears a payload of the host for it, whole or one segment, it
/// ticks, wakes up or is set by hand. What it says then is a report of the last session that it took, with the status that it has by then;
/// or no report. Each change by a session, at once or by work, is of the settings that the session's command asks for; and what it keeps of
/// segments is of the message of the session after its last.
pub fn devices_follow_the_course()
    ensures fresh { (node : ℕ) (kind : Kind) (key : List ℕ) → takes_openly kind ≡ true → AtDevice first_course (fresh node kind key) }
    ensures hears { (orders : List Asked) (commands : List ℕ) (c : Course) (device : State) (since : ℕ) (cargo : Cargo) (payload drawn : List ℕ) →
        AtDevice c device → device.awake ≡ true → HostMeans orders commands payload cargo → Names c.device cargo →
        Makes orders commands device → HearsAs c device since cargo (Hears payload drawn) }
    ensures makes { (orders : List Asked) (commands : List ℕ) (c : Course) (device : State) (cargo : Cargo) (payload drawn : List ℕ) →
        AtDevice c device → device.awake ≡ true → HostMeans orders commands payload cargo → Names c.device cargo →
        Makes orders commands device → Makes orders commands (device_after device (Hears payload drawn)) }
    ensures keeps { (orders : List Asked) (commands : List ℕ) (device : State) (event : DeviceEvent) → HearsNone event →
        Makes orders commands device → Makes orders commands (device_after device event) }
    ensures ticks { (c : Course) (device : State) (drawn : List ℕ) → AtDevice c device → GoesAs c device (Ticks drawn) }
    ensures wakes { (c : Course) (device : State) → AtDevice c device → GoesAs c device Wakes }
    ensures sets { (c : Course) (device : State) (value : ℕ) → AtDevice c device → GoesAs c device (Sets value) }
{
    devices_end_sessions();
    devices_stay_the_same();
    messages_open();
    messages_do_what_is_asked();
    messages_follow_the_course();
    others_are_no_messages();
    reports_tell();
    segments_tell();
}

/// A device is idle as its maker left it; at a tick an idle one stays so, and says nothing.
pub fn idle_devices_stay_idle()
    ensures fresh { (node : ℕ) (kind : Kind) (key : List ℕ) → IsIdle (fresh node kind key) }
    ensures ticks { (device : State) (drawn : List ℕ) → IsIdle device → IsIdle (device_after device (Ticks drawn)) ×
        (device_replies device (Ticks drawn) ≡ []) }
{}
