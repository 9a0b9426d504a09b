//! What each event after a payload makes of a course.

ghost use Rattle.std.specs.Prelude.{◌≡◌, ℕ, Bool, Option, List, [], ◌∷◌, ◌++◌};
ghost use Rattle.chip_functions.specs.Field.{IsNode};
ghost use Rattle.zw_text.specs.declared.entry.Entry.{Entry};
ghost use Rattle.law_transcript.specs.Units.{Carried};
ghost use Rattle.host_heard.specs.declared.told.Told.{Told};
ghost use Rattle.host_model.specs.Events.{HostEvent};
ghost use Rattle.host_model.specs.May.{May};
ghost use Rattle.host_model.specs.Outs.{outs};
ghost use Rattle.host_model.specs.State.{HostState};
ghost use Rattle.proof_choice.specs.proof_ends.proof_requests.law_host.Course.{Course};
ghost use Rattle.proof_choice.specs.proof_ends.proof_requests.law_host.Heard.{heeds_alone};
ghost use Rattle.proof_choice.specs.proof_ends.proof_requests.law_host.Messages.{Hearing};
ghost use Rattle.proof_choice.specs.proof_ends.proof_requests.proof_alone.Steps.{AreTold};
ghost use Rattle.proof_hearing.specs.Hearing.{
  HeardOne,
  HearsSo,
  Point,
  Remaining,
  RemainsSo,
  StaysLate,
  choosing,
  else_of,
  finishes,
  hearing_at,
  heeded_rest,
};

/// Where a course is in the middle of a payload as the host is, with its books and its queue, each event of the host that is left of the payload has noted
/// what the course notes next, by what the event chose: whether its record was kept, and what the payload opened to. What is left after it is what the course
/// makes of the messages that are left, the books and the queue go together again, and the messages by which the course goes are those by which the host does.
/// Where no event is left the course is done, and whatever is chosen it only adds notes, and changes nothing but its books.
pub fn payloads_are_heard()
    ensures one { (key : List ℕ) (taken : List Entry → Carried → List Told) (before upto : List Entry) (n : ℕ) (payload : List ℕ) →
        IsNode n → (past told : List Entry) (h : HostState) (course : Course) (remaining : Remaining) (event : HostEvent) (left : List HostEvent) →
        Point key (heeds_alone taken) past n h → HearsSo key (hearing_at taken before upto n payload) past h course →
        StaysLate (heeds_alone taken) n past told →
        May h event → AreTold (outs h event) told → (is : RemainsSo h (hearing_at taken before upto n payload) remaining (event ∷ left)) →
        HeardOne key (hearing_at taken before upto n payload) remaining past told h event left is course }
    ensures over { (key : List ℕ) (taken : List Entry → Carried → List Told) (before upto : List Entry) (n : ℕ) (payload : List ℕ) →
        IsNode n → (past : List Entry) (h : HostState) (course : Course) (remaining : Remaining) → Point key (heeds_alone taken) past n h →
        HearsSo key (hearing_at taken before upto n payload) past h course → (is : RemainsSo h (hearing_at taken before upto n payload) remaining []) →
        ((keepings : List Bool) (later : List (Option (List ℕ))) →
        finishes (hearing_at taken before upto n payload) remaining (choosing keepings later course) ≡ choosing keepings later course)
        × (heeded_rest h (hearing_at taken before upto n payload) remaining [] is ≡ []) }
    ensures adds { (hearing : Hearing) (remaining : Remaining) (course : Course) →
        (some : List Entry) × ((finishes hearing remaining course).due ≡ course.due ++ some)
        × (else_of (finishes hearing remaining course) ≡ else_of course) }
{}
