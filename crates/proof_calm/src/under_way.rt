//! What the chip's answers do to the request under way.

ghost use Rattle.std.specs.Prelude.{◌≡◌, List, None, ℕ};
ghost use Rattle.chip_functions.specs.declared.notice.Notice.TheVariants.{ApplicationCommandHandler, ApplicationUpdate, SendData};
ghost use Rattle.chip_functions.specs.declared.notice.Update.{Update};
ghost use Rattle.chip_functions.specs.declared.notice.TransmitStatus.{TransmitStatus};
ghost use Rattle.chip_sim.specs.Answers.{notice_frame};
ghost use Rattle.serial_frame.specs.declared.item.Item.TheVariants.{Good};
ghost use Rattle.serial_frame.specs.declared.unit.Unit.TheVariants.{Ack};
ghost use Rattle.serial_link.specs.declared.turn.Turn.{Turn};
ghost use Rattle.host_requests.specs.declared.under_way.UnderWay.{UnderWay};
ghost use Rattle.host_model.specs.Did.{after_all};
ghost use Rattle.host_model.specs.Events.{HostEvent};
ghost use Rattle.host_model.specs.State.{HostState};
ghost use Rattle.host_model.specs.Taking.{IsFollowed};
ghost use Rattle.proof_calm.specs.Calls.{FrameFollows, GoesOn, IsSending, answer_taken};

/// A SendData that is under way stays so at the acknowledgement of its frame, at the chip's answer that it was taken, at any payload of a node, and at any
/// information of a node; it ends at the call with its callback id.
pub fn calls_end_requests()
    ensures acknowledged { (h : HostState) (u : UnderWay) (turn : Turn) (events : List HostEvent) → IsSending u h → IsFollowed h turn (Good Ack) events →
        GoesOn u (after_all h events) }
    ensures answered { (h : HostState) (u : UnderWay) (events : List HostEvent) → IsSending u h → FrameFollows h answer_taken events →
        GoesOn u (after_all h events) }
    ensures called { (h : HostState) (u : UnderWay) (status : TransmitStatus) (events : List HostEvent) → IsSending u h →
        FrameFollows h (notice_frame (SendData h.requests.last_id status)) events → (after_all h events).requests.under_way ≡ None }
    ensures heard { (h : HostState) (n : ℕ) (payload : List ℕ) (events : List HostEvent) →
        FrameFollows h (notice_frame (ApplicationCommandHandler 0 n payload)) events →
        (after_all h events).requests.under_way ≡ h.requests.under_way }
    ensures informed { (h : HostState) (u : UnderWay) (update : Update) (events : List HostEvent) → IsSending u h →
        FrameFollows h (notice_frame (ApplicationUpdate update)) events → GoesOn u (after_all h events) }
{}
