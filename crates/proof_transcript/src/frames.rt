//! The laws of frames on the air.

ghost use Rattle.std.specs.Prelude.{ℕ, Option, List, true};
ghost use Rattle.std.specs.List.{AllByRecursion};
ghost use Rattle.s0_crypto.specs.declared.key_pair.Keys.{Keys};
ghost use Rattle.device_sim.specs.State.{State};
ghost use Rattle.law_host.specs.law_transcript.Fates.{FaresInTurn, LosesMarked, NumbersFrames};
ghost use Rattle.law_host.specs.law_transcript.Sessions.{KeepsSessions};
ghost use Rattle.law_host.specs.law_wire.Serial.{ended};
ghost use Rattle.proof_air.specs.world_model.State.{first_machine};
ghost use Rattle.proof_air.specs.world_lines.Spoken.{Spoken, transcript_of};
ghost use Rattle.proof_air.specs.world_lines.Done.{AreDone};
ghost use Rattle.proof_air.specs.world_lines.Whole.{AreWhole};
ghost use Rattle.proof_transcript.specs.Lines.{RepeatsNone};

/// Over any lines from the first on, the last of which an allocation failure may have cut short, each frame that goes on the air has the
/// next number, and the controller is one of its ends.
pub fn lines_number_frames()
    ensures { (keys : Keys) (records : Option (List (List ℕ))) (devices : List State) (lines : List Spoken) →
        AreDone (first_machine keys records devices) lines →
        NumbersFrames (transcript_of (first_machine keys records devices) lines) }
{}

/// Over any such lines a frame consumed by a pending `lose` is never recorded as `heard` on arrival or as `unheard`.
pub fn lines_lose_marked_frames()
    ensures { (keys : Keys) (records : Option (List (List ℕ))) (devices : List State) (lines : List Spoken) →
        AreDone (first_machine keys records devices) lines →
        LosesMarked (transcript_of (first_machine keys records devices) lines) }
{}

/// Over any such lines, each frame that is on the air when a tick begins has one fate in it, in order of numbers, and what is heard besides answers a
/// line that repeats a fresh frame: where no line repeats one, and where sessions are numbered in order.
pub fn ticks_decide_each_frame()
    ensures once { (keys : Keys) (records : Option (List (List ℕ))) (devices : List State) (lines : List Spoken) → AllByRecursion RepeatsNone lines →
        AreDone (first_machine keys records devices) lines → FaresInTurn (transcript_of (first_machine keys records devices) lines) }
    ensures again { (keys : Keys) (records : Option (List (List ℕ))) (devices : List State) (lines : List Spoken) →
        AreDone (first_machine keys records devices) lines →
        KeepsSessions (transcript_of (first_machine keys records devices) lines) → FaresInTurn (transcript_of (first_machine keys records devices) lines) }
{
    lines_number_frames();
    proof_air::lines_repeat_what_is_fresh();
}

/// Over lines that were all run whole so also in the end: each frame that was on the air when the last tick began has its fate.
pub fn all_frames_land_in_the_end()
    ensures once { (keys : Keys) (records : Option (List (List ℕ))) (devices : List State) (lines : List Spoken) → AllByRecursion RepeatsNone lines →
        AreDone (first_machine keys records devices) lines → AreWhole (first_machine keys records devices) lines →
        FaresInTurn (ended true (transcript_of (first_machine keys records devices) lines)) }
    ensures again { (keys : Keys) (records : Option (List (List ℕ))) (devices : List State) (lines : List Spoken) →
        AreDone (first_machine keys records devices) lines → AreWhole (first_machine keys records devices) lines →
        KeepsSessions (transcript_of (first_machine keys records devices) lines) →
        FaresInTurn (ended true (transcript_of (first_machine keys records devices) lines)) }
{
    ticks_decide_each_frame();
}
