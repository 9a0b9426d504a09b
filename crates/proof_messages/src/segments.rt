//! A segment of the message of a session: what a device makes of it.

ghost use Rattle.std.specs.Prelude.{◌≡◌, ◌≢◌, ℕ, ◌+◌, ◌*◌, ◌%◌, ◌<◌, ◌≤◌, ◌⊎◌, true, false, List, [], ◌∷◌, length};
ghost use Rattle.class_info.specs.InfoSpelling.{form};
ghost use Rattle.class_info.specs.declared.message.InfoMessage.TheVariants as messages;
ghost use Rattle.transport_segments.specs.Segment.{segment_text};
ghost use Rattle.transport_segments.specs.Parts.{slice_at};
ghost use Rattle.transport_segments.specs.Runs.{IsPart, Agrees};
ghost use Rattle.transport_segments.specs.Taking.{is_segment};
ghost use Rattle.device_kinds.specs.Kind.{lists};
ghost use Rattle.device_kinds.specs.declared.kind.Kind.TheVariants as kinds;
ghost use Rattle.host_heard.specs.Telling.{heard_at};
ghost use Rattle.host_heard.specs.declared.payload.Heard.TheVariants.{Messages};
ghost use Rattle.host_heard.specs.declared.told.Told.TheVariants.{SegmentRequest};
ghost use Rattle.device_sim.specs.State.{State};
ghost use Rattle.device_sim.specs.Event.{Hears, device_after, device_replies};
ghost use Rattle.proof_messages.specs.Asking.{IsLeft};
ghost use Rattle.proof_messages.specs.Others.{IsNoGet};
ghost use Rattle.proof_messages.specs.Reporting.{TellsNone};
ghost use Rattle.proof_messages.specs.Segments.{KeepsSegment, MakesWhole};
ghost use Rattle.proof_messages.specs.Slices.{AnswersAgain, KeepsSlices, TakesPart, TakesSlice};

/// A segment of the message of a session carries the low four bits of the session's number. A device that keeps segments, and keeps no byte
/// that is not of this message, goes on keeping them where those bits are of the session that comes next, and says no more than which bytes
/// it wants, the first that is missing, once the last of the message has come (`takes`), and what it keeps stays in slices (`slices`, `takes_slice`); the segment that brings the last missing byte is acknowledged, and makes it hear the message itself. Any other segment leaves
/// its sessions, changes and work as they were, and what it keeps; it is answered only by a device that took a session: the last segment of that, by its
/// status again (`again`). So does each
/// segment at other devices that know Supervision. A segment opens to no Supervision Get, what acknowledges it is no report, and what
/// asks for a segment is heard so (`asks`).
pub fn segments_tell()
    ensures part { (message : List ℕ) (session place : ℕ) → 1 ≤ length message → length message ≤ 512 → 39 * place < length message
        → IsPart message (session % 16) (segment_text (session % 16) (length message) (39 * place) (slice_at message place)) }
    ensures next { (device : State) (message segment drawn : List ℕ) (session : ℕ) → device.awake ≡ true → device.kind ≡ kinds.Configurable
        → IsPart message (session % 16) segment → is_segment message ≡ false → session % 16 ≡ (device.sessions.taken + 1) % 16 →
        Agrees message (session % 16) device.reassembly
        → KeepsSegment message (session % 16) device (device_after device (Hears segment drawn)) (device_replies device (Hears segment drawn))
        ⊎ MakesWhole (session % 16) (device_after device (Hears message drawn)) (device_replies device (Hears message drawn))
        (device_after device (Hears segment drawn)) (device_replies device (Hears segment drawn)) }
    ensures takes { (device : State) (message segment drawn : List ℕ) (session : ℕ) → device.awake ≡ true → device.kind ≡ kinds.Configurable
        → IsPart message (session % 16) segment → is_segment message ≡ false → session % 16 ≡ (device.sessions.taken + 1) % 16 →
        Agrees message (session % 16) device.reassembly
        → TakesPart message (session % 16) segment device (device_after device (Hears message drawn)) (device_after device (Hears segment drawn))
        (device_replies device (Hears message drawn)) (device_replies device (Hears segment drawn)) }
    ensures slices { (device : State) (message drawn : List ℕ) (session place : ℕ) → device.awake ≡ true → device.kind ≡ kinds.Configurable
        → length message ≤ 512 → 39 * place < length message → is_segment message ≡ false → session % 16 ≡ (device.sessions.taken + 1) % 16 →
        Agrees message (session % 16) device.reassembly → KeepsSlices device.reassembly
        → KeepsSlices (device_after device (Hears (segment_text (session % 16) (length message) (39 * place) (slice_at message place)) drawn)).reassembly }
    ensures other { (device : State) (message segment drawn : List ℕ) (session : ℕ) → device.kind ≡ kinds.Configurable
        → IsPart message (session % 16) segment → session % 16 ≢ (device.sessions.taken + 1) % 16 → IsLeft device (device_after device (Hears segment drawn)) }
    ensures takes_slice { (device : State) (message drawn : List ℕ) (session place : ℕ) → device.awake ≡ true → device.kind ≡ kinds.Configurable
        → length message ≤ 512 → 39 * place < length message → is_segment message ≡ false → session % 16 ≡ (device.sessions.taken + 1) % 16 →
        Agrees message (session % 16) device.reassembly → KeepsSlices device.reassembly
        → TakesSlice message session place device (device_after device (Hears message drawn))
        (device_after device (Hears (segment_text (session % 16) (length message) (39 * place) (slice_at message place)) drawn))
        (device_replies device (Hears message drawn))
        (device_replies device (Hears (segment_text (session % 16) (length message) (39 * place) (slice_at message place)) drawn)) }
    ensures again { (device : State) (message segment drawn : List ℕ) (session : ℕ) → device.awake ≡ true → device.kind ≡ kinds.Configurable
        → IsPart message (session % 16) segment → session ≡ device.sessions.taken → 1 ≤ session
        → AnswersAgain session segment device (device_after device (Hears segment drawn)) (device_replies device (Hears segment drawn)) }
    ensures other_says { (device : State) (message segment drawn : List ℕ) (session : ℕ) → device.awake ≡ true → device.kind ≡ kinds.Configurable
        → IsPart message (session % 16) segment → session % 16 ≢ (device.sessions.taken + 1) % 16 → (0 < device.sessions.taken) ⊎
        (device_replies device (Hears segment drawn) ≡ []) }
    ensures elsewhere { (device : State) (message segment drawn : List ℕ) (session : ℕ) → device.kind ≢ kinds.Configurable → lists device.kind 0x6C ≡ true
        → IsPart message (session % 16) segment → IsLeft device (device_after device (Hears segment drawn)) }
    ensures no_get { (message segment : List ℕ) (id : ℕ) → IsPart message id segment → IsNoGet segment }
    ensures asks { (id at : ℕ) → id < 16 → at < 2048 → heard_at (form (messages.TransportRequest id at)) ≡ Messages (SegmentRequest id at ∷ []) }
    ensures acknowledged { (id : ℕ) → TellsNone (form (messages.TransportComplete id)) }
{}
