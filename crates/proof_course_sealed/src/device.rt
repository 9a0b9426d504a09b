//! A lock, in its courses.

ghost use Rattle.std.specs.Prelude.{◌≡◌, ℕ, Bool, false, List, [], length};
ghost use Rattle.proof_course.specs.NodeNonceFacts.{NonceFacts as NodeFacts};
ghost use Rattle.device_kinds.specs.declared.kind.Kind.TheVariants as kinds;
ghost use Rattle.s0_crypto.specs.Sealing.{keys_of};
ghost use Rattle.device_sim.specs.State.{State, fresh};
ghost use Rattle.device_sim.specs.Event.{DeviceEvent, Hears, device_after, device_replies};
ghost use Rattle.proof_course_plain.specs.Judged.{Judges};
ghost use Rattle.proof_course_plain.specs.Making.{Makes, Names, HearsNone};
ghost use Rattle.proof_course_sealed.specs.Labels.{Held, as_session};
ghost use Rattle.proof_course_sealed.specs.Courses.{Courses, first_courses};
ghost use Rattle.proof_course_sealed.specs.Meaning.{Past, first_past, HostMeans};
ghost use Rattle.proof_course_sealed.specs.Lock.{AtLock};
ghost use Rattle.proof_course_sealed.specs.Device.{HearsAs, NamesNonce};

use proof_course_plain::devices_stay_the_same;
use proof_messages::{
    accounts_give_as_the_courses_do, accounts_spend_as_the_courses_do, devices_end_sessions,
    locks_answer_sealed_messages, locks_hear_by_numbers, messages_do_what_is_asked,
    messages_follow_the_course, messages_open, others_are_no_messages, reports_tell,
    sealed_messages_do_what_is_asked, sealers_take_as_the_courses_do,
};

/// A lock goes on as its courses have it: it takes the message of a session that is sealed for its live nonce, and asks for a nonce for the
/// report; it seals the report of its last session for the nonce of the host that counts as the last or the next; it gives a nonce where it
/// is asked for one; and of all else that it hears, and at any other event, it does nothing of these and says nothing. Each change by a
/// session is of the settings that the session's command asks for, and each session is taken with the status that a lock gives its commands.
pub fn locks_follow_the_courses()
    ensures fresh { (node : ℕ) (key : List ℕ) → AtLock (first_past (keys_of key)) first_courses (fresh node kinds.Lock key) }
    ensures hears { (past : Past) (node : ℕ) (c : Courses) (device : State) (since : ℕ) (held : Held) (joined : Bool)
        (payload drawn : List ℕ) → AtLock past c device → NodeFacts c.node → device.node ≡ node → length drawn ≡ 8 →
        HostMeans past node payload held → Names c.sessions.device (as_session held) → NamesNonce c held →
        (joined ≡ false → c.node.given ≡ 0) → HearsAs past node c device since held joined (Hears payload drawn) }
    ensures makes { (past : Past) (node : ℕ) (c : Courses) (device : State) (held : Held) (payload drawn : List ℕ) → AtLock past c device →
        device.node ≡ node → HostMeans past node payload held → Names c.sessions.device (as_session held) → NamesNonce c held →
        Makes past.orders past.commands device → Makes past.orders past.commands (device_after device (Hears payload drawn)) }
    ensures judges { (past : Past) (node : ℕ) (c : Courses) (device : State) (held : Held) (payload drawn : List ℕ) → AtLock past c device →
        device.node ≡ node → HostMeans past node payload held → Names c.sessions.device (as_session held) → NamesNonce c held →
        Judges past.orders past.commands device (device_after device (Hears payload drawn)) }
    ensures other { (past : Past) (c : Courses) (device : State) (event : DeviceEvent) → AtLock past c device → HearsNone event →
        AtLock past c (device_after device event) × (device_replies device event ≡ []) }
{
    devices_end_sessions();
    devices_stay_the_same();
    messages_open();
    messages_do_what_is_asked();
    messages_follow_the_course();
    others_are_no_messages();
    reports_tell();
    sealed_messages_do_what_is_asked();
    accounts_give_as_the_courses_do();
    accounts_spend_as_the_courses_do();
    locks_answer_sealed_messages();
    locks_hear_by_numbers();
    sealers_take_as_the_courses_do();
}
