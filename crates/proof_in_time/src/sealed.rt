//! What a lock is asked in a sealed exchange and what it answers, and what the host makes of its report.

ghost use Rattle.std.specs.Prelude.{◌≡◌, ◌∷◌, List, Option, Some, [], length, ℕ};
ghost use Rattle.class_info.specs.InfoSpelling.{form};
ghost use Rattle.class_info.specs.declared.message.InfoMessage.TheVariants.{NonceGet};
ghost use Rattle.device_sim.specs.Event.{Hears, device_after, device_replies};
ghost use Rattle.device_sim.specs.State.{State};
ghost use Rattle.supervision.specs.Host.{open_session};
ghost use Rattle.host_heard.specs.Telling.{heard_at};
ghost use Rattle.host_model.specs.Events.{HostEvent};
ghost use Rattle.host_model.specs.State.{HostState, node_of};
ghost use Rattle.host_model.specs.Taking.{PayloadEvents};
ghost use Rattle.proof_course.specs.HostNonceFacts.{NonceFacts as HostFacts};
ghost use Rattle.proof_messages.specs.Locks.{IsLock};
ghost use Rattle.proof_course_sealed.specs.Courses.{Courses};
ghost use Rattle.proof_course_sealed.specs.Host.{AtHost};
ghost use Rattle.proof_course_sealed.specs.Lock.{AtLock};
ghost use Rattle.proof_course_sealed.specs.Meaning.{Past};
ghost use Rattle.proof_in_time.specs.Answering.{IsInStep};
ghost use Rattle.proof_in_time.specs.Exchange.{EndsForLive, IsForLive, OffersLive, ReportWaits, SaysOne, ShowsLive};
ghost use Rattle.proof_in_time.specs.Reporting.{EndsSealed};

use proof_course_sealed::exchanges_go_on;
use proof_messages::{
    devices_end_sessions, hosts_open_what_was_sealed, locks_answer_sealed_messages,
    locks_hear_by_numbers, sealed_messages_do_what_is_asked,
};

/// A lock says its live nonce to a Nonce Get. It takes the message of the next session, sealed for its live nonce, or hears that of the last again, and asks
/// for a nonce then: a report of that session waits to be sealed, with a final status. And where it hears the live nonce of the host, it says that report,
/// sealed for it.
pub fn locks_are_asked()
    ensures asked { (device : State) (drawn : List ℕ) → IsLock device →
        SaysOne (ShowsLive (device_after device (Hears (form NonceGet) drawn))) (device_replies device (Hears (form NonceGet) drawn)) }
    ensures sealed { (past : Past) (c : Courses) (device : State) (session : ℕ) (payload drawn : List ℕ) → AtLock past c device →
        IsForLive session device payload → IsInStep session device →
        ReportWaits session (device_after device (Hears payload drawn)) × (device_replies device (Hears payload drawn) ≡ form NonceGet ∷ []) }
    ensures offered { (past : Past) (n session : ℕ) (c : Courses) (text : Option ℕ) (tasks : List ℕ) (h : HostState) (device : State)
        (payload drawn : List ℕ) → AtLock past c device → AtHost past n c text tasks h → HostFacts c.host → device.node ≡ n → OffersLive n h payload →
        ReportWaits session device → length drawn ≡ 8 → SaysOne (EndsForLive n session h) (device_replies device (Hears payload drawn)) }
{
    exchanges_go_on();
    devices_end_sessions();
    locks_answer_sealed_messages();
    locks_hear_by_numbers();
    sealed_messages_do_what_is_asked();
}

/// A report of the open session of a lock, sealed for the live nonce of the host, spends that and ends the session, where both are kept.
pub fn sealed_reports_are_taken()
    ensures { (past : Past) (n session : ℕ) (c : Courses) (text : Option ℕ) (tasks : List ℕ) (h : HostState) (payload : List ℕ) (events : List HostEvent) →
        AtHost past n c text tasks h → EndsForLive n session h payload →
        open_session (node_of h n).book ≡ Some session → PayloadEvents h n payload (heard_at payload) events → EndsSealed n session events }
{
    hosts_open_what_was_sealed();
}
