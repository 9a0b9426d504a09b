//! Devices that are asked.

ghost use Rattle.std.specs.Prelude.{◌≡◌, ◌≤◌, ◌+◌, List, true, ℕ};
ghost use Rattle.zw_base.specs.declared.order.Order.{Order};
ghost use Rattle.device_kinds.specs.declared.kind.Kind.TheVariants.{Configurable};
ghost use Rattle.host_orders.specs.Refusals.{IsFit};
ghost use Rattle.host_orders.specs.Wrapping.{message_of};
ghost use Rattle.host_orders.specs.declared.carriage.Carriage.{Carriage};
ghost use Rattle.supervision.specs.declared.session.TheConstants.{WORKING};
ghost use Rattle.device_sim.specs.Event.{Hears, Ticks, device_after, device_replies};
ghost use Rattle.device_sim.specs.State.{State};
ghost use Rattle.proof_messages.specs.Asking.{takes_openly};
ghost use Rattle.proof_messages.specs.Reporting.{CanSay};
ghost use Rattle.proof_course_plain.specs.Making.{KeepsNext};
ghost use Rattle.proof_course_plain.specs.Meaning.{Asked, IsSegmentOf};
ghost use Rattle.proof_in_time.specs.Answering.{AnswersPart, AnswersSession, IsAtWork, IsDone, IsInStep, IsStill, StaysDone, WorksOn};

use device_sim::when_changes_come;
use proof_messages::{messages_do_what_is_asked, messages_open, segments_tell};

/// A device that is awake and takes what is not sealed answers the message of the next session, or of the last that it took, with one payload, which tells the
/// status of that session: a final one, or that it is at work, for at most five ticks. Whatever it hears then leaves it at that. Each tick brings it nearer to
/// the end of its work, which it tells then.
pub fn messages_are_answered()
    ensures heard { (device : State) (drawn : List ℕ) (carriage : Carriage) (order : Order) (session : ℕ) → IsFit carriage.actuator order →
        order.end ≤ 127 → device.awake ≡ true → takes_openly device.kind ≡ true → IsInStep session device →
        AnswersSession session (device_after device (Hears (message_of carriage order session) drawn))
        (device_replies device (Hears (message_of carriage order session) drawn)) }
    ensures still { (device : State) (payload drawn : List ℕ) → device.sessions.status ≡ WORKING → IsStill device (device_after device (Hears payload drawn)) }
    ensures works { (device : State) (drawn : List ℕ) → CanSay device → IsAtWork device →
        WorksOn device (device_after device (Ticks drawn)) (device_replies device (Ticks drawn)) }
    ensures rests { (device : State) (drawn : List ℕ) → IsDone device →
        StaysDone device (device_after device (Ticks drawn)) (device_replies device (Ticks drawn)) }
{
    messages_do_what_is_asked();
    messages_open();
    when_changes_come();
}

/// A device that takes its commands in segments, awake and in step with the host, makes this of a segment of the message of that session: where it has not
/// taken the session, it keeps the slice and says nothing, or asks for the first slice that is missing, or hears the message and answers it; where it has, it
/// tells the status again at the last segment.
pub fn segments_are_answered()
    ensures { (orders : List Asked) (commands : List ℕ) (device : State) (drawn payload : List ℕ) (session : ℕ)
        (is : IsSegmentOf orders commands session payload) →
        device.awake ≡ true → device.kind ≡ Configurable → IsInStep session device → KeepsNext orders commands (device.sessions.taken + 1) device.reassembly →
        AnswersPart session is.place is.message payload device (device_after device (Hears payload drawn)) (device_replies device (Hears payload drawn)) }
{
    messages_are_answered();
    segments_tell();
}
