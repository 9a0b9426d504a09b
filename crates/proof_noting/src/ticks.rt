//! The course of a host's notes in the host's own part of a tick.

ghost use Rattle.std.specs.Prelude.{List, ℕ};
ghost use Rattle.zw_text.specs.declared.entry.Entry.{Entry};
ghost use Rattle.host_heard.specs.declared.told.Told.{Told};
ghost use Rattle.host_model.specs.Events.{HostEvent};
ghost use Rattle.law_transcript.specs.Units.{Carried};
ghost use Rattle.proof_hearing.specs.proof_queue.proof_attempts.proof_requests.proof_alone.Phases.{Phase, Risen, Ticking};
ghost use Rattle.proof_hearing.specs.proof_queue.proof_attempts.proof_requests.proof_alone.State.{HostMachine};
ghost use Rattle.proof_hearing.specs.proof_queue.proof_attempts.proof_requests.proof_alone.Steps.{Does};
ghost use Rattle.proof_noting.specs.Following.{Outset};
ghost use Rattle.proof_noting.specs.Ground.{GroundAlong};
ghost use Rattle.proof_noting.specs.Steps.{CourseFits, StepFollows, TurnFollows, first_of};

use proof_hearing::{
    hosts_ask_as_told, hosts_give_up_as_told, hosts_know_their_work, hosts_know_what_was_told,
    hosts_seal_once, hosts_show_open_sessions,
};

/// Along such runs the course goes on with each part of the host's own tick: its line, the request under way, and each node.
pub fn notes_go_with_ticks()
    ensures begins { (key : List ℕ) (taken : List Entry → Carried → List Told) (from : Outset) → GroundAlong taken (first_of key) → (next : Phase)
        (past : List Entry) (m : HostMachine) → TurnFollows key taken from Risen next past m }
    ensures event { (key : List ℕ) (taken : List Entry → Carried → List Told) (from : Outset) → GroundAlong taken (first_of key) → (left : List HostEvent)
        (next : Phase) (past told : List Entry) (m : HostMachine) (one : HostEvent) → StepFollows key taken from (Ticking left) past m (Does one told) next }
    ensures ends { (key : List ℕ) (taken : List Entry → Carried → List Told) (from : Outset) → GroundAlong taken (first_of key) → (left : List HostEvent)
        (next : Phase) (past : List Entry) (m : HostMachine) → TurnFollows key taken from (Ticking left) next past m }
    ensures fits { (key : List ℕ) (taken : List Entry → Carried → List Told) (from : Outset) → GroundAlong taken (first_of key) → (left : List HostEvent)
        (past : List Entry) (m : HostMachine) → CourseFits key taken from (Ticking left) past m }
{
    hosts_ask_as_told();
    hosts_give_up_as_told();
    hosts_know_their_work();
    hosts_know_what_was_told();
    hosts_seal_once();
    hosts_show_open_sessions();
}
