//! What a host alone has judged.

ghost use Rattle.std.specs.Prelude.{◌≡◌, List, [], ◌∷◌, Option, ℕ};
ghost use Rattle.s0_crypto.specs.declared.key_pair.Keys.{Keys};
ghost use Rattle.serial_frame.specs.Items.{unit_text};
ghost use Rattle.serial_frame.specs.declared.unit.Unit.TheVariants.{Framed};
ghost use Rattle.zw_text.specs.declared.entry.Entry.{Entry};
ghost use Rattle.proof_alone.specs.law_transcript.Units.{bringing_in};
ghost use Rattle.proof_alone.specs.law_time.Judged.{brought_here, judged_here};
ghost use Rattle.proof_alone.specs.law_time.Moments.{Allows};
ghost use Rattle.proof_alone.specs.law_time.Waking.{may_wake};
ghost use Rattle.proof_alone.specs.host_model.Events.{HostEvent};
ghost use Rattle.proof_alone.specs.State.{HostMachine, first_alone};
ghost use Rattle.proof_alone.specs.Phases.{Phase, Resting};
ghost use Rattle.proof_alone.specs.Runs.{Run, Walk};
ghost use Rattle.proof_waking.specs.Judged.{IsBehindFrame, KnowsJudged};

/// What a host alone has judged by its transcript is what it judged, at each step and wherever a part begins. While events that follow a frame are to come,
/// that frame, and what it brings, is what was judged here.
pub fn hosts_judge_as_told()
    ensures walk { Walk (Allows may_wake) KnowsJudged }
    ensures first { (m : HostMachine) → m.came ≡ [] → KnowsJudged Resting [] m }
    ensures run { (keys : Keys) (records : Option (List (List ℕ))) (here : Phase) (told : List Entry) (m : HostMachine) →
        Run (first_alone keys records) here told m → KnowsJudged here told m }
    ensures here { (past : List Entry) (m : HostMachine) (left : List HostEvent) (behind : IsBehindFrame past m left) →
        judged_here past ≡ unit_text (Framed behind.frame.frame) ∷ [] }
    ensures brought { (past : List Entry) (m : HostMachine) (left : List HostEvent) (behind : IsBehindFrame past m left) →
        brought_here past ≡ bringing_in (unit_text (Framed behind.frame.frame)) }
{}
