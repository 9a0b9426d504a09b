//! Lines of `sim`, as its host hears them.

ghost use Rattle.std.specs.Prelude.{◌≡◌, Bool, true, Some, List, [], ℕ};
ghost use Rattle.s0_crypto.specs.declared.key_pair.Keys.{Keys};
ghost use Rattle.device_sim.specs.State.{State};
ghost use Rattle.port_run.specs.host_core.Network.{keys_of};
ghost use Rattle.proof_asking.specs.proof_requests.law_host.Heard.{heard_by_host};
ghost use Rattle.proof_asking.specs.proof_requests.law_host.HostLegal.{IsLegalAlone};
ghost use Rattle.proof_asking.specs.proof_requests.law_host.Notes.{first_start};
ghost use Rattle.world_model.specs.State.{first_machine};
ghost use Rattle.world_lines.specs.Spoken.{Spoken, after_all, transcript_of};
ghost use Rattle.world_lines.specs.Done.{AreDone};
ghost use Rattle.world_lines.specs.Whole.{AreWhole};
ghost use Rattle.proof_replay.specs.Laws.{HostsKeepLaws, IsHeardAlone};

use crate::replay::{hosts_are_legal, hosts_keep_laws};
use proof_asking::{
    hosts_answer_lines, lines_are_a_hosts, lines_are_answered, lines_clear_the_line,
    lines_mark_units, what_is_heard_is_a_hosts,
};

/// What the host heard of any lines from the first on, the last of which an allocation failure may have cut short, over a keeper that tells its records and
/// had none at first, is told by a run of a host alone; where all were run whole, of one that came to rest with the records that the keeper tells.
fn lines_are_heard_alone()
    ensures { (keys : Keys) (devices : List State) (lines : List Spoken) (whole : Bool) → AreDone (first_machine keys (Some []) devices) lines →
        (whole ≡ true → AreWhole (first_machine keys (Some []) devices) lines) →
        IsHeardAlone keys whole (heard_by_host (transcript_of (first_machine keys (Some []) devices) lines))
        (after_all (first_machine keys (Some []) devices) lines).records }
{
    lines_are_a_hosts();
    what_is_heard_is_a_hosts();
    hosts_answer_lines();
    lines_clear_the_line();
    lines_are_answered();
    lines_mark_units();
}

/// So the host of `sim` keeps the laws of hosts over what it heard of them.
pub fn lines_that_ran_are_heard()
    ensures { (keys : Keys) (devices : List State) (lines : List Spoken) (whole : Bool) → AreDone (first_machine keys (Some []) devices) lines →
        (whole ≡ true → AreWhole (first_machine keys (Some []) devices) lines) →
        HostsKeepLaws keys whole (heard_by_host (transcript_of (first_machine keys (Some []) devices) lines))
        (after_all (first_machine keys (Some []) devices) lines).records }
{
    lines_are_heard_alone();
    hosts_keep_laws();
}

/// And where its keys are those of a network key it is legal over that as one host alone is.
pub fn lines_that_ran_are_legal()
    ensures { (keys : Keys) (devices : List State) (lines : List Spoken) (whole : Bool) → AreDone (first_machine keys (Some []) devices) lines →
        (whole ≡ true → AreWhole (first_machine keys (Some []) devices) lines) → (key : List ℕ) → keys ≡ keys_of key →
        IsLegalAlone key first_start whole (heard_by_host (transcript_of (first_machine keys (Some []) devices) lines))
        (after_all (first_machine keys (Some []) devices) lines).records }
{
    lines_are_heard_alone();
    hosts_are_legal();
}
