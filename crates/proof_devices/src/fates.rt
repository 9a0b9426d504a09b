//! Fates of frames.

ghost use Rattle.std.specs.Prelude.{Option, Some, List, [], ℕ, true};
ghost use Rattle.s0_crypto.specs.declared.key_pair.Keys.{Keys};
ghost use Rattle.device_sim.specs.State.{State};
ghost use Rattle.law_transcript.specs.Fates.{NumbersFrames};
ghost use Rattle.law_transcript.specs.Sessions.{KeepsSessions};
ghost use Rattle.law_wire.specs.Arriving.{MeetsWhatIsDue, RepeatsWhatIsAsked};
ghost use Rattle.law_wire.specs.Serial.{ended};
ghost use Rattle.world_model.specs.State.{first_machine};
ghost use Rattle.world_lines.specs.Spoken.{Spoken, transcript_of};
ghost use Rattle.world_lines.specs.Done.{AreDone};
ghost use Rattle.world_lines.specs.Whole.{AreWhole};
ghost use Rattle.proof_air.specs.proof_walk.Phases.{Between};
ghost use Rattle.proof_air.specs.proof_walk.Walk.{WalkOver};
ghost use Rattle.proof_devices.specs.Acks.{KnowAcks};
ghost use Rattle.proof_devices.specs.Living.{MayAny};
ghost use Rattle.proof_devices.specs.Meeting.{Ground};

use crate::{devices_listen_as_shown, devices_live_on};
use proof_air::{history_goes_on, time_goes_on};
use proof_routes::{frames_go_on, networks_go_on};

/// Over any lines from the first on, the last of which an allocation failure may have cut short, a frame is heard directly after a line that repeats it, where
/// it is fresh and somebody is there to hear it; and where all lines were run whole, also in the end. Frames and sessions are numbered in order.
pub fn lines_repeat_what_is_asked()
    ensures cut { (keys : Keys) (records : Option (List (List ℕ))) (devices : List State) (lines : List Spoken) →
        AreDone (first_machine keys records devices) lines →
        NumbersFrames (transcript_of (first_machine keys records devices) lines) →
        KeepsSessions (transcript_of (first_machine keys records devices) lines) →
        RepeatsWhatIsAsked devices (transcript_of (first_machine keys records devices) lines) }
    ensures whole { (keys : Keys) (records : Option (List (List ℕ))) (devices : List State) (lines : List Spoken) →
        AreDone (first_machine keys records devices) lines →
        AreWhole (first_machine keys records devices) lines →
        NumbersFrames (transcript_of (first_machine keys records devices) lines) →
        KeepsSessions (transcript_of (first_machine keys records devices) lines) →
        RepeatsWhatIsAsked devices (ended true (transcript_of (first_machine keys records devices) lines)) }
{
    history_goes_on();
    time_goes_on();
    devices_live_on();
    devices_listen_as_shown();
}

/// Over any such lines, where the keeper tells its records, each frame meets the fate that is due: it is lost exactly by a mark of `lose`, or as a device's
/// frame that had no way when it was sent; else it is heard exactly where each hop of its way is a link and, at a device, the first of its node is awake; else
/// unheard. A repeated frame is heard only where somebody is there to hear it. Frames are numbered in order.
pub fn lines_meet_what_is_due()
    ensures { (keys : Keys) (texts : List (List ℕ)) (devices : List State) (lines : List Spoken) →
        AreDone (first_machine keys (Some texts) devices) lines →
        NumbersFrames (transcript_of (first_machine keys (Some texts) devices) lines) →
        MeetsWhatIsDue devices (transcript_of (first_machine keys (Some texts) devices) lines) }
{
    history_goes_on();
    time_goes_on();
    devices_live_on();
    devices_listen_as_shown();
    networks_go_on();
    frames_go_on();
}

/// At each phase of a line, where the ways of the frames on the air and the lives of devices are known, the air has as many marks that lose acknowledgements as
/// the transcript says are left: each frame of the controller that is heard in its tick uses one up.
pub fn acks_go_on()
    ensures walk { (devices : List State) → WalkOver (Ground devices) MayAny KnowAcks }
    ensures first { (keys : Keys) (records : Option (List (List ℕ))) (devices : List State) →
        KnowAcks Between [] (first_machine keys records devices) }
{}
