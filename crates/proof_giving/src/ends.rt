//! Whether the last request of a host has ended badly, by its transcript.

ghost use Rattle.std.specs.Prelude.{◌≡◌, ◌≤◌, ◌<◌, ◌+◌, ◌++◌, nat_lt, Bool, false, true, None, Some, length, List, [], ◌∷◌, ℕ};
ghost use Rattle.std.specs.List.{AllByRecursion, list_any};
ghost use Rattle.serial_frame.specs.Frame.{FrameParts};
ghost use Rattle.serial_frame.specs.declared.unit.TheConstants.{ACK};
ghost use Rattle.serial_frame.specs.declared.unit.Unit.{Unit as LineUnit};
ghost use Rattle.serial_frame.specs.declared.unit.Unit.TheVariants.{Framed};
ghost use Rattle.zw_words.specs.declared.side.Side.TheVariants.{Chip, Host};
ghost use Rattle.zw_text.specs.declared.entry.Entry.{Entry};
ghost use Rattle.zw_text.specs.declared.entry.Entry.TheVariants.{Said, Refused, Written};
ghost use Rattle.zw_text.specs.declared.entry.Refusal.{Refusal};
ghost use Rattle.zw_text.specs.Transcript.{line_of};
ghost use Rattle.law_transcript.specs.Restarts.{is_restart};
ghost use Rattle.host_orders.specs.declared.carriage.Form.TheVariants.{Cut};
ghost use Rattle.host_model.specs.Sessions.{segment_at, segment_count};
ghost use Rattle.law_time.specs.Attempts.{ends_badly, is_inner, is_of_inner};
ghost use Rattle.law_time.specs.Ends.{is_abort_frame};
ghost use Rattle.law_time.specs.Judged.{is_data};
ghost use Rattle.law_time.specs.Moments.{clock};
ghost use Rattle.law_time.specs.Requests.{asked, is_answer};
ghost use Rattle.host_requests.specs.declared.end.How.{How};
ghost use Rattle.host_requests.specs.declared.end.How.TheVariants.{LinkFailed, Silent};
ghost use Rattle.host_requests.specs.declared.task.Purpose.{Purpose};
ghost use Rattle.host_requests.specs.declared.task.Purpose.TheVariants.{Attempt};
ghost use Rattle.host_model.specs.Ends.{part_end};
ghost use Rattle.proof_queue.specs.proof_attempts.proof_requests.Asking.{Doing, TieAsked, WasAsked};
ghost use Rattle.proof_queue.specs.proof_attempts.proof_requests.Ends.{EndsHere};
ghost use Rattle.proof_queue.specs.proof_attempts.proof_requests.Standing.{IsAside, first_ending, standing_of, with_entries};
ghost use Rattle.proof_queue.specs.proof_attempts.proof_requests.proof_alone.Steps.{IsOfUnit};
ghost use Rattle.proof_queue.specs.proof_attempts.proof_requests.proof_waking.Judged.{TieFrames};
ghost use Rattle.supervision.specs.Host.{open_session};
ghost use Rattle.host_heard.specs.declared.told.Told.{Told};
ghost use Rattle.law_transcript.specs.Units.{Carried, sending_in};
ghost use Rattle.law_time.specs.Sessions.{Session, last_command};
ghost use Rattle.host_model.specs.State.{HostState, node_of};
ghost use Rattle.host_model.specs.After.{after};
ghost use Rattle.host_model.specs.Events.{HostEvent};
ghost use Rattle.host_model.specs.Facts.{HostFacts};
ghost use Rattle.proof_queue.specs.proof_attempts.proof_requests.law_host.Heard.{heeds_alone};
ghost use Rattle.proof_giving.specs.Told.{attempts_so_far};
ghost use Rattle.proof_giving.specs.Stays.{KeepsSessions, NoSession, ShowsSessions, Stays};
ghost use Rattle.proof_giving.specs.Tie.{AttemptsAs, IsOver, NodeSo, is_bad_part, signed};

/// A request that is no longer under way, and was asked, has ended. Whether it has badly stays so: by entries that its rules do not look at, the words of a
/// line, also in vain; and later, after an answer of the chip, and after a frame that is acknowledged.
pub fn bad_ends_stay()
    ensures over { (past : List Entry) (line_now now : ℕ) (came : List LineUnit) (d : Doing) → TieAsked past line_now now came d → d.under_way ≡ None →
        is_data (asked past).frame ≡ true → IsOver past line_now d }
    ensures aside { (inner : Bool) (past : List Entry) (now : ℕ) (told : List Entry) → is_data (asked past).frame ≡ true →
        asked (past ++ told) ≡ with_entries (asked past) told → AllByRecursion IsAside told →
        ends_badly (asked (past ++ told)) inner now ≡ ends_badly (asked past) inner now }
    ensures said { (inner : Bool) (past : List Entry) (now : ℕ) (words : List ℕ) → is_data (asked past).frame ≡ true →
        is_restart (line_of (Said words)) ≡ false → ends_badly (asked (past ++ Said words ∷ [])) inner now ≡ ends_badly (asked past) inner now }
    ensures in_vain { (inner : Bool) (past : List Entry) (now : ℕ) (words : List ℕ) (refusal : Refusal) → is_data (asked past).frame ≡ true →
        ends_badly (asked (past ++ Said words ∷ (Refused refusal ∷ []))) inner now ≡ ends_badly (asked past) inner now }
    ensures later { (inner : Bool) (past : List Entry) (now : ℕ) (d : Doing) → IsOver past now d → is_abort_frame (asked past).frame ≡ false →
        (later : ℕ) → now ≤ later → ends_badly (asked past) inner later ≡ ends_badly (asked past) inner now }
    ensures answered { (inner : Bool) (past : List Entry) (now : ℕ) (d : Doing) → IsOver past now d → is_abort_frame (asked past).frame ≡ false →
        (unit : List ℕ) (came : List LineUnit) → is_answer unit ≡ true → clock past ≡ now → TieFrames past came →
        ends_badly (asked (past ++ Written Chip unit ∷ [])) inner now ≡ ends_badly (asked past) inner now }
    ensures judged { (inner : Bool) (past : List Entry) (now : ℕ) (d : Doing) → IsOver past now d → is_abort_frame (asked past).frame ≡ false →
        (f : FrameParts) (rest : List LineUnit) (marks : List Entry) → AllByRecursion IsOfUnit marks → clock past ≡ now → TieFrames past (Framed f ∷ rest) →
        ends_badly (asked (past ++ Written Host (ACK ∷ []) ∷ marks)) inner now ≡ ends_badly (asked past) inner now }
{}

/// Where the request of an attempt ends in the host it ends by its transcript, and badly there just where that end is bad for the attempt in the host: by a
/// frame that is judged, which leaves one of a segment that others follow where that was not heard; in silence; and where the line gives it up.
pub fn attempts_end_badly_as_told()
    ensures frame { (past marks : List Entry) (f : FrameParts) (rest : List LineUnit) (now n id : ℕ) (more : Bool) (payload : List ℕ) (how : How) →
        AllByRecursion IsOfUnit marks → TieFrames past (Framed f ∷ rest) → WasAsked past → first_ending (standing_of (asked past)) ≡ [] →
        clock (past ++ Written Host (ACK ∷ []) ∷ marks) ≡ now → EndsHere (past ++ Written Host (ACK ∷ []) ∷ marks) id (Attempt n more payload) how →
        ends_badly (asked (past ++ Written Host (ACK ∷ []) ∷ marks)) more now ≡ is_bad_part (part_end more how) }
    ensures silent { (inner : Bool) (past : List Entry) (now id : ℕ) (purpose : Purpose) → clock past ≡ now → EndsHere past id purpose Silent →
        ends_badly (asked past) inner now ≡ true }
    ensures given_up { (inner : Bool) (past : List Entry) (now id : ℕ) (purpose : Purpose) → clock past ≡ now → EndsHere past id purpose LinkFailed →
        ends_badly (asked past) inner now ≡ true }
{}

/// An event of a host that begins no session leaves the sessions of each node, and each order. So whether a frame carries a segment of the open session that
/// others follow is told as before; and where the last request stands as it did, whether it has ended badly is, for a node with a series, so that the node
/// stays tied to its attempts if they are left.
pub fn attempts_stay_with_the_request()
    ensures keeps { (h : HostState) (event : HostEvent) (n : ℕ) → n < length h.nodes → NoSession event → KeepsSessions h (after h event) n }
    ensures inner { (taken : List Entry → Carried → List Told) (past later : List Entry) (h g : HostState) (n session : ℕ) →
        ShowsSessions (heeds_alone taken) past h n → ShowsSessions (heeds_alone taken) later g n → HostFacts h → HostFacts g → KeepsSessions h g n →
        open_session (node_of g n).book ≡ Some session → (unit : List ℕ) →
        list_any (is_of_inner (heeds_alone taken) later n unit) (last_command n later)
        ≡ list_any (is_of_inner (heeds_alone taken) past n unit) (last_command n past) }
    ensures goes_on { (taken : List Entry → Carried → List Told) (n : ℕ) (past later : List Entry) (h g : HostState) (now : ℕ) →
        Stays (heeds_alone taken) n past later h g now → (signs : Bool) (time : ℕ) →
        attempts_so_far (heeds_alone taken) n later ≡ attempts_so_far (heeds_alone taken) n past → AttemptsAs signs (heeds_alone taken) n past h time now →
        ((badly : Bool) → NodeSo (attempts_so_far (heeds_alone taken) n past) (signed signs (node_of h n)) time badly →
        NodeSo (attempts_so_far (heeds_alone taken) n past) (signed signs (node_of g n)) time badly) →
        AttemptsAs signs (heeds_alone taken) n later g time now }
{}

/// A frame that carries the segment at a place of a session's message is told to be followed by others just where that is not the last place.
pub fn segments_tell_what_follows()
    ensures { (session : Session) (k n : ℕ) (unit : List ℕ) → 1 ≤ length session.message → k < segment_count session.message →
        sending_in unit ≡ record { node = n; payload = segment_at session.number session.message k } ∷ [] →
        is_inner session Cut unit ≡ nat_lt (k + 1) (segment_count session.message) }
{}
