//! The course of a host's notes where the host judges what its chip answers.

ghost use Rattle.std.specs.Prelude.{List, [], ◌∷◌, ◌++◌, ℕ};
ghost use Rattle.serial_frame.specs.declared.item.Item.{Item};
ghost use Rattle.serial_frame.specs.declared.unit.Unit.{Unit as LineUnit};
ghost use Rattle.zw_text.specs.declared.entry.Entry.{Entry};
ghost use Rattle.host_heard.specs.declared.told.Told.{Told};
ghost use Rattle.host_model.specs.Events.{HostEvent};
ghost use Rattle.law_transcript.specs.Units.{Carried};
ghost use Rattle.proof_hearing.specs.proof_queue.proof_attempts.proof_requests.proof_alone.Phases.{Behind, May, Open, Phase};
ghost use Rattle.proof_hearing.specs.proof_queue.proof_attempts.proof_requests.proof_alone.State.{HostMachine, done};
ghost use Rattle.proof_hearing.specs.proof_queue.proof_attempts.proof_requests.proof_alone.Steps.{Does, Judges};
ghost use Rattle.proof_noting.specs.Following.{Outset};
ghost use Rattle.proof_noting.specs.Behind.{OneLeft};
ghost use Rattle.proof_noting.specs.Ground.{GroundAlong};
ghost use Rattle.proof_noting.specs.Noting.{KnowsCourse};
ghost use Rattle.proof_noting.specs.Steps.{BringsPayload, Fitting, StepFollows, first_of};
ghost use Rattle.proof_noting.specs.Sure.{SureRun};

use proof_hearing::{
    hosts_ask_as_told, hosts_know_their_work, hosts_seal_once, hosts_show_open_sessions,
    hosts_tell_of_ends,
};

/// Along such runs the course goes on with each item that is judged and brings no payload of a node: a frame that may end the request or an interview, an
/// answer of the chip, and what is refused; and with the event that is left of it.
pub fn notes_go_with_items()
    ensures judged { (key : List ℕ) (taken : List Entry → Carried → List Told) (from : Outset) → GroundAlong taken (first_of key) → (next : Phase)
        (past told : List Entry) (m : HostMachine) (item : Item) (rest : List LineUnit) (behind : List HostEvent) → (BringsPayload item → ⊥) →
        StepFollows key taken from Open past m (Judges item rest behind told) next }
    ensures event { (key : List ℕ) (taken : List Entry → Carried → List Told) (from : Outset) → GroundAlong taken (first_of key) → (next : Phase)
        (past told : List Entry) (m : HostMachine) (one : HostEvent) → SureRun taken (first_of key) (Behind (one ∷ [])) past m →
        May (Behind (one ∷ [])) m (Does one told) next → OneLeft key taken from past m one → KnowsCourse key taken from (first_of key) next (past ++ told)
        (done m one) }
    ensures fits { (key : List ℕ) (taken : List Entry → Carried → List Told) (from : Outset) (past : List Entry) (m : HostMachine) (one : HostEvent) →
        OneLeft key taken from past m one → Fitting key taken from past }
{
    hosts_ask_as_told();
    hosts_know_their_work();
    hosts_seal_once();
    hosts_show_open_sessions();
    hosts_tell_of_ends();
}
