//! Lines of `sim`, as runs of a host alone.

ghost use Rattle.std.specs.Prelude.{◌≡◌, Option, Some, List, [], ℕ};
ghost use Rattle.s0_crypto.specs.declared.key_pair.Keys.{Keys};
ghost use Rattle.law_host.specs.device_sim.State.{State};
ghost use Rattle.zw_text.specs.declared.entry.Entry.{Entry};
ghost use Rattle.law_host.specs.Heard.{heard_by_host};
ghost use Rattle.proof_line.specs.world_model.State.{Machine, first_machine};
ghost use Rattle.proof_line.specs.proof_walk.Phases.{Between};
ghost use Rattle.proof_line.specs.proof_walk.Phases as sim;
ghost use Rattle.proof_line.specs.proof_walk.Walk.{WalkWhere};
ghost use Rattle.proof_line.specs.world_lines.Spoken.{Spoken, after_all, transcript_of};
ghost use Rattle.proof_line.specs.world_lines.Done.{AreDone};
ghost use Rattle.proof_line.specs.world_lines.Whole.{AreWhole};
ghost use Rattle.proof_alone.specs.State.{HostMachine, first_alone};
ghost use Rattle.proof_alone.specs.Phases.{Phase, Resting};
ghost use Rattle.proof_alone.specs.Reading.{Anything, HostKnows, IsFine, ReadsMarked};
ghost use Rattle.proof_alone.specs.Runs.{Run, Told, ToldWhole};
ghost use Rattle.proof_alone.specs.Careful.{RunCarefully, ToldCarefully};

use proof_line::{hosts_write_well, lines_keep_and_ask_well, marks_go_on, units_are_judged_whole};

/// Over any lines from the first on, the last of which an allocation failure may have cut short, over a keeper that tells its records and has none at first,
/// the transcript is that of a run of a host alone; where all were run whole, of one that ends at rest, with
/// what the keeper tells in the end, and no tick of its last line to come. These runs are careful: they judge what has come as the program does, and in a
/// tick before the host's part nothing comes but frames.
pub fn lines_are_a_hosts()
    ensures told { (keys : Keys) (devices : List State) (lines : List Spoken) →
        AreDone (first_machine keys (Some []) devices) lines →
        Told (first_alone keys (Some [])) (transcript_of (first_machine keys (Some []) devices) lines) }
    ensures whole { (keys : Keys) (devices : List State) (lines : List Spoken) →
        AreDone (first_machine keys (Some []) devices) lines → AreWhole (first_machine keys (Some []) devices) lines →
        ToldWhole (first_alone keys (Some [])) (transcript_of (first_machine keys (Some []) devices) lines) }
    ensures keeper { (keys : Keys) (devices : List State) (lines : List Spoken) →
        AreDone (first_machine keys (Some []) devices) lines → AreWhole (first_machine keys (Some []) devices) lines →
        (m : HostMachine) × Run (first_alone keys (Some [])) Resting (transcript_of (first_machine keys (Some []) devices) lines) m
        × (m.records ≡ (after_all (first_machine keys (Some []) devices) lines).records) × (m.left ≡ 0) }
    ensures carefully { (keys : Keys) (devices : List State) (lines : List Spoken) →
        AreDone (first_machine keys (Some []) devices) lines →
        ToldCarefully (first_alone keys (Some [])) (transcript_of (first_machine keys (Some []) devices) lines) }
    ensures rests { (keys : Keys) (devices : List State) (lines : List Spoken) →
        AreDone (first_machine keys (Some []) devices) lines → AreWhole (first_machine keys (Some []) devices) lines →
        (m : HostMachine) × RunCarefully (first_alone keys (Some [])) Resting (transcript_of (first_machine keys (Some []) devices) lines) m
        × (m.records ≡ (after_all (first_machine keys (Some []) devices) lines).records) × (m.left ≡ 0) }
{
    marks_go_on();
    units_are_judged_whole();
    hosts_write_well();
    lines_keep_and_ask_well();
}

/// The walk by which it is so: at each phase of a line the machine is read as a host alone that such a run has led to, where both sides of the line are at
/// rest as they tick, and write frames that the format carries. So what is known at each step of such runs, which are careful, is known of the host of the
/// machine there.
pub fn machines_are_read_as_hosts()
    ensures walk { (start : HostMachine) → WalkWhere IsFine Anything (ReadsMarked start) }
    ensures first { (keys : Keys) (records : Option (List (List ℕ))) (devices : List State) →
        ReadsMarked (first_alone keys records) Between [] (first_machine keys records devices) }
    ensures runs { (start : HostMachine) (here : sim.Phase) (past : List Entry) (m : Machine) → ReadsMarked start here past m →
        HostKnows (Run start) here past m }
    ensures carefully { (start : HostMachine) (here : sim.Phase) (past : List Entry) (m : Machine) → ReadsMarked start here past m →
        HostKnows (RunCarefully start) here past m }
{
    marks_go_on();
}

/// And what a host heard of a run of a host alone is told by such a run too, which leads to the same machine, and is careful if that one was. So it is of what
/// the host heard of any such lines.
pub fn what_is_heard_is_a_hosts()
    ensures told { (start : HostMachine) (told : List Entry) → Told start told → Told start (heard_by_host told) }
    ensures whole { (start : HostMachine) (told : List Entry) → ToldWhole start told → ToldWhole start (heard_by_host told) }
    ensures run { (start : HostMachine) (here : Phase) (told : List Entry) (m : HostMachine) → Run start here told m → Run start here (heard_by_host told) m }
    ensures carefully { (start : HostMachine) (here : Phase) (told : List Entry) (m : HostMachine) → RunCarefully start here told m →
        RunCarefully start here (heard_by_host told) m }
{}
