//! The course of a host's notes where the host judges a payload of a node.

ghost use Rattle.std.specs.Prelude.{List, [], ◌∷◌, ◌++◌, ℕ};
ghost use Rattle.serial_frame.specs.declared.item.Item.{Item};
ghost use Rattle.serial_frame.specs.declared.unit.Unit.{Unit as LineUnit};
ghost use Rattle.zw_text.specs.declared.entry.Entry.{Entry};
ghost use Rattle.host_heard.specs.declared.told.Told.{Told};
ghost use Rattle.host_model.specs.Events.{HostEvent};
ghost use Rattle.law_transcript.specs.Units.{Carried};
ghost use Rattle.proof_hearing.specs.proof_queue.proof_attempts.proof_requests.proof_alone.Phases.{Behind, May, Open, Phase};
ghost use Rattle.proof_hearing.specs.proof_queue.proof_attempts.proof_requests.proof_alone.State.{HostMachine, done};
ghost use Rattle.proof_hearing.specs.proof_queue.proof_attempts.proof_requests.proof_alone.Steps.{Does, Judges};
ghost use Rattle.proof_noting.specs.Following.{Outset};
ghost use Rattle.proof_noting.specs.Behind.{AtOpen, InPayload};
ghost use Rattle.proof_noting.specs.Ground.{GroundAlong};
ghost use Rattle.proof_noting.specs.Noting.{KnowsCourse};
ghost use Rattle.proof_noting.specs.Steps.{BringsPayload, Fitting, StepFollows, first_of};
ghost use Rattle.proof_noting.specs.Sure.{SureRun};

use proof_hearing::{hosts_have_points, hosts_queue_as_told, hosts_show_open_sessions};

/// Along such runs the course goes on with each frame that brings a payload of a node, and with each event that is left of that, to the last.
pub fn notes_go_with_payloads()
    ensures judged { (key : List ℕ) (taken : List Entry → Carried → List Told) (from : Outset) → GroundAlong taken (first_of key) → (next : Phase)
        (past told : List Entry) (m : HostMachine) (item : Item) (rest : List LineUnit) (behind : List HostEvent) → BringsPayload item →
        StepFollows key taken from Open past m (Judges item rest behind told) next }
    ensures event { (key : List ℕ) (taken : List Entry → Carried → List Told) (from : Outset) → GroundAlong taken (first_of key) → (next : Phase)
        (past told : List Entry) (m : HostMachine) (one : HostEvent) (left : List HostEvent) → SureRun taken (first_of key) (Behind (one ∷ left)) past m →
        May (Behind (one ∷ left)) m (Does one told) next → InPayload key taken from (first_of key) past m (one ∷ left) →
        KnowsCourse key taken from (first_of key) next (past ++ told) (done m one) }
    ensures over { (key : List ℕ) (taken : List Entry → Carried → List Told) (from : Outset) → GroundAlong taken (first_of key) → (past : List Entry)
        (m : HostMachine) → SureRun taken (first_of key) (Behind []) past m → InPayload key taken from (first_of key) past m [] → AtOpen key taken from past m }
    ensures fits { (key : List ℕ) (taken : List Entry → Carried → List Told) (from : Outset) (past : List Entry) (m : HostMachine) (left : List HostEvent) →
        InPayload key taken from (first_of key) past m left → Fitting key taken from past }
{
    hosts_have_points();
    hosts_queue_as_told();
    hosts_show_open_sessions();
}
