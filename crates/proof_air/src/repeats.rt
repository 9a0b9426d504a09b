//! Frames that lines repeat.

ghost use Rattle.std.specs.Prelude.{Option, List, ℕ};
ghost use Rattle.s0_crypto.specs.declared.key_pair.Keys.{Keys};
ghost use Rattle.law_wire.specs.device_sim.State.{State};
ghost use Rattle.law_wire.specs.law_transcript.Fates.{NumbersFrames};
ghost use Rattle.law_wire.specs.law_transcript.Sessions.{KeepsSessions};
ghost use Rattle.proof_walk.specs.world_model.State.{first_machine};
ghost use Rattle.proof_walk.specs.world_lines.Spoken.{Spoken, after_all, transcript_of};
ghost use Rattle.proof_walk.specs.world_lines.Done.{AreDone};
ghost use Rattle.proof_walk.specs.world_lines.Whole.{AreWhole};
ghost use Rattle.proof_air.specs.Hearing.{RefusesAlike, RepeatsFresh};

use crate::history_goes_on;

/// Over any lines from the first on, the last of which an allocation failure may have cut short, what is heard directly after a `repeat` is heard while the
/// frame that the line names is fresh by the transcript, where frames and sessions are numbered in order.
pub fn lines_repeat_what_is_fresh()
    ensures { (keys : Keys) (records : Option (List (List ℕ))) (devices : List State) (lines : List Spoken) →
        AreDone (first_machine keys records devices) lines →
        NumbersFrames (transcript_of (first_machine keys records devices) lines) →
        KeepsSessions (transcript_of (first_machine keys records devices) lines) →
        RepeatsFresh (transcript_of (first_machine keys records devices) lines) }
{
    history_goes_on();
}

/// After lines that were all run whole, a frame is refused for the same reason by the transcript and by the air, where frames and sessions are numbered in
/// order.
pub fn lines_refuse_what_is_old()
    ensures { (keys : Keys) (records : Option (List (List ℕ))) (devices : List State) (lines : List Spoken) →
        AreDone (first_machine keys records devices) lines →
        AreWhole (first_machine keys records devices) lines →
        NumbersFrames (transcript_of (first_machine keys records devices) lines) →
        KeepsSessions (transcript_of (first_machine keys records devices) lines) →
        RefusesAlike (transcript_of (first_machine keys records devices) lines) (after_all (first_machine keys records devices) lines) }
{
    history_goes_on();
}
