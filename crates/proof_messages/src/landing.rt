//! A message that is heard, in the course of the sessions of a device.

ghost use Rattle.std.specs.Prelude.{◌≡◌, ℕ, ◌+◌, ◌%◌, List, true, false};
ghost use Rattle.supervision.specs.Session.{wire_id};
ghost use Rattle.supervision.specs.Device.{heard_of};
ghost use Rattle.device_kinds.specs.declared.verdict.Verdict.{Verdict};
ghost use Rattle.device_sim.specs.State.{State};
ghost use Rattle.proof_messages.specs.Asking.{Follows};
ghost use Rattle.proof_messages.specs.Landing.{LandsAs};
ghost use Rattle.proof_messages.specs.Segments.{KeepsPart, IsWhole};

/// A device that follows a message goes on as a course has it: the message lands, and a session that it takes may end at once. So does one that keeps a
/// segment of the next session, and one that hears the message with the segment that makes it whole.
pub fn messages_follow_the_course()
    ensures message { (old new : State) (verdict : Verdict) (session : ℕ) → Follows old new verdict (heard_of old.sessions (wire_id session))
        → LandsAs old new (record { session = session; is_segment = false }) false }
    ensures part { (old new : State) (message : List ℕ) (session : ℕ) → session % 16 ≡ (old.sessions.taken + 1) % 16 → KeepsPart message (session % 16) old new
        → LandsAs old new (record { session = session; is_segment = true }) false }
    ensures whole { (old heard new : State) (verdict : Verdict) (session : ℕ) → session % 16 ≡ (old.sessions.taken + 1) % 16
        → Follows old heard verdict (heard_of old.sessions (wire_id session)) → IsWhole heard new
        → LandsAs old new (record { session = session; is_segment = true }) true }
{}
