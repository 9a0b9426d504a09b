//! Time, for a host alone.

ghost use Rattle.std.specs.Prelude.{◌≡◌, false, Option, List, [], ℕ};
ghost use Rattle.s0_crypto.specs.declared.key_pair.Keys.{Keys};
ghost use Rattle.zw_text.specs.declared.entry.Entry.{Entry};
ghost use Rattle.law_host.specs.law_transcript.Lists.{EachAfter};
ghost use Rattle.law_host.specs.law_time.Moments.{clock};
ghost use Rattle.proof_line.specs.proof_walk.Time.{MayCount};
ghost use Rattle.proof_alone.specs.State.{HostMachine, first_alone};
ghost use Rattle.proof_alone.specs.Phases.{Phase};
ghost use Rattle.proof_alone.specs.Runs.{Run, Told, Walk};
ghost use Rattle.proof_alone.specs.Time.{KnowsClock};

/// The number of a tick is above those before it, and lines have asked for so many; and wherever no number is to be entered the clock of the transcript
/// is the host's.
pub fn hosts_tell_time()
    ensures walk { Walk MayCount KnowsClock }
    ensures counts { (keys : Keys) (records : Option (List (List ℕ))) (told : List Entry) → Told (first_alone keys records) told →
        EachAfter MayCount [] told }
    ensures clock { (keys : Keys) (records : Option (List (List ℕ))) (here : Phase) (told : List Entry) (m : HostMachine) →
        Run (first_alone keys records) here told m → m.awaits ≡ false → clock told ≡ m.clock }
{}
