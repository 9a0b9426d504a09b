//! The course of a host's notes where the host asks its chip, and where it starts again.

ghost use Rattle.std.specs.Prelude.{List, ℕ};
ghost use Rattle.zw_text.specs.declared.entry.Entry.{Entry};
ghost use Rattle.host_heard.specs.declared.told.Told.{Told};
ghost use Rattle.host_model.specs.Events.{HostEvent};
ghost use Rattle.host_model.specs.State.{HostState};
ghost use Rattle.law_transcript.specs.Units.{Carried};
ghost use Rattle.proof_hearing.specs.proof_choice.proof_giving.Tie.{IsRequest};
ghost use Rattle.proof_hearing.specs.proof_queue.proof_attempts.proof_requests.proof_alone.Phases.{Asked, Phase, Submitting};
ghost use Rattle.proof_hearing.specs.proof_queue.proof_attempts.proof_requests.proof_alone.State.{HostMachine};
ghost use Rattle.proof_hearing.specs.proof_queue.proof_attempts.proof_requests.proof_alone.Steps.{Does, Restarts};
ghost use Rattle.zw_text.specs.declared.line.Line.TheVariants as lines;
ghost use Rattle.proof_noting.specs.Following.{Outset};
ghost use Rattle.proof_noting.specs.Ground.{GroundAlong};
ghost use Rattle.proof_noting.specs.Steps.{StepFollows, first_of};

use host_keep::texts_give_one_thing;
use host_model::attempts_have_what_they_give;
use proof_hearing::{hosts_have_points, hosts_seal_once, hosts_show_open_sessions};

/// Along such runs the course goes on with each request that the host submits, which may be sent by its books, and where the host starts again.
pub fn notes_go_with_requests()
    ensures submits { (key : List ℕ) (taken : List Entry → Carried → List Told) (from : Outset) → GroundAlong taken (first_of key) → (past told : List Entry)
        (m : HostMachine) (event : HostEvent) → IsRequest event → StepFollows key taken from Submitting past m (Does event told) Submitting }
    ensures starts { (key : List ℕ) (taken : List Entry → Carried → List Told) (from : Outset) → GroundAlong taken (first_of key) → (next : Phase)
        (past : List Entry) (m : HostMachine) (state : HostState) → StepFollows key taken from (Asked lines.Restart) past m (Restarts state) next }
{
    attempts_have_what_they_give();
    hosts_have_points();
    hosts_seal_once();
    hosts_show_open_sessions();
    texts_give_one_thing();
}
