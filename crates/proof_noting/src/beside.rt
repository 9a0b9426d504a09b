//! The course of a host's notes beside what the host judges, asks and waits for.

ghost use Rattle.std.specs.Prelude.{◌≡◌, ℕ, List};
ghost use Rattle.zw_text.specs.declared.entry.Entry.{Entry};
ghost use Rattle.host_heard.specs.declared.told.Told.{Told};
ghost use Rattle.host_model.specs.Events.{HostEvent};
ghost use Rattle.law_transcript.specs.Units.{Carried};
ghost use Rattle.proof_hearing.specs.proof_queue.proof_attempts.proof_requests.proof_alone.Phases.{
  Asked,
  Open,
  Phase,
  Resting,
  Sleeping,
  Submitting,
};
ghost use Rattle.proof_hearing.specs.proof_queue.proof_attempts.proof_requests.proof_alone.State.{HostMachine};
ghost use Rattle.proof_hearing.specs.proof_queue.proof_attempts.proof_requests.proof_alone.Steps.{Does, Step};
ghost use Rattle.zw_text.specs.declared.line.Line.{Line};
ghost use Rattle.proof_noting.specs.Following.{Outset};
ghost use Rattle.proof_noting.specs.Ground.{GroundAlong};
ghost use Rattle.proof_noting.specs.Noting.{AtRest};
ghost use Rattle.proof_noting.specs.Sure.{SureRun};
ghost use Rattle.proof_noting.specs.Steps.{CourseFits, FittingWhole, IsBeside, IsPumping, IsUnsent, StepFollows, TurnFollows, first_of};

use proof_hearing::hosts_show_open_sessions;

/// Along runs of a host alone of which all is so that the course of its notes goes by, that course goes on with entries of others and of the chip, with lines
/// that do not start the host again and what they are answered, and with the number of a tick; with sessions that begin or do not, and nodes that are let
/// sleep; and where a part is over. Where the words of a line stand last it fits, and at a rest, with no tick of its line to come, nothing is left to be noted.
pub fn notes_go_beside()
    ensures steps { (key : List ℕ) (taken : List Entry → Carried → List Told) (from : Outset) → GroundAlong taken (first_of key) → (here next : Phase)
        (past : List Entry) (m : HostMachine) (step : Step) → IsBeside step → StepFollows key taken from here past m step next }
    ensures events { (key : List ℕ) (taken : List Entry → Carried → List Told) (from : Outset) → GroundAlong taken (first_of key) → (here next : Phase)
        (past told : List Entry) (m : HostMachine) (event : HostEvent) → IsPumping here → IsUnsent event →
        StepFollows key taken from here past m (Does event told) next }
    ensures rests { (key : List ℕ) (taken : List Entry → Carried → List Told) (from : Outset) → GroundAlong taken (first_of key) → (next : Phase)
        (past : List Entry) (m : HostMachine) → TurnFollows key taken from Resting next past m }
    ensures asks { (key : List ℕ) (taken : List Entry → Carried → List Told) (from : Outset) → GroundAlong taken (first_of key) → (line : Line) (next : Phase)
        (past : List Entry) (m : HostMachine) → TurnFollows key taken from (Asked line) next past m }
    ensures opens { (key : List ℕ) (taken : List Entry → Carried → List Told) (from : Outset) → GroundAlong taken (first_of key) → (next : Phase)
        (past : List Entry) (m : HostMachine) → TurnFollows key taken from Open next past m }
    ensures sleeps { (key : List ℕ) (taken : List Entry → Carried → List Told) (from : Outset) → GroundAlong taken (first_of key) → (next : Phase)
        (past : List Entry) (m : HostMachine) → TurnFollows key taken from Sleeping next past m }
    ensures submits { (key : List ℕ) (taken : List Entry → Carried → List Told) (from : Outset) → GroundAlong taken (first_of key) → (next : Phase)
        (past : List Entry) (m : HostMachine) → TurnFollows key taken from Submitting next past m }
    ensures fits_asked { (key : List ℕ) (taken : List Entry → Carried → List Told) (from : Outset) → GroundAlong taken (first_of key) → (line : Line)
        (past : List Entry) (m : HostMachine) → CourseFits key taken from (Asked line) past m }
    ensures whole { (key : List ℕ) (taken : List Entry → Carried → List Told) (from : Outset) → GroundAlong taken (first_of key) → (past : List Entry)
        (m : HostMachine) → SureRun taken (first_of key) Resting past m → m.left ≡ 0 → AtRest key taken from past m → FittingWhole key taken from past }
{
    hosts_show_open_sessions();
}
