//! Runs of `host`, as runs of a host alone.

ghost use Rattle.std.specs.Prelude.{Bool, true, false, Option, Some, List, [], ℕ};
ghost use Rattle.std.specs.List.{AllByRecursion};
ghost use Rattle.zw_text.specs.declared.entry.Entry.{Entry};
ghost use Rattle.s0_crypto.specs.declared.key_pair.Keys.{Keys};
ghost use Rattle.host_keep.specs.Keeping.{OptAdds};
ghost use Rattle.port_run.specs.host_core.Opening.{Opens};
ghost use Rattle.host_model.specs.declared.out.HostOut.{HostOut};
ghost use Rattle.port_run.specs.declared.asking.Answer.{Answer};
ghost use Rattle.port_run.specs.declared.line.PortLine.{PortLine};
ghost use Rattle.port_run.specs.declared.stop.Stop.{Stop};
ghost use Rattle.port_run.specs.Steps.{AllRan, Place, Step};
ghost use Rattle.port_run.specs.Schedule.{CutRun, RunSteps, is_quiet};
ghost use Rattle.proof_replay.specs.HostSteps.{HaveHeard, HearsFrom, HearsMore, Holds, IsRunSteps, IsServedLine};
ghost use Rattle.proof_asking.specs.proof_requests.proof_alone.State.{first_alone};

use crate::replay::{hosts_are_legal, hosts_are_legal_from_starts, hosts_keep_laws};
use proof_asking::{hosts_listen_as_told, hosts_obey_the_line, hosts_record_what_is_shown};

/// Where a keeper holds nothing, no host has heard anything. Whatever records one holds, a host that starts from them is told by a run of a host alone that
/// begins over that keeper and has gone through this start (`any`). A host that starts from the records that earlier ones left is told by a run of a host alone
/// that goes on from what they heard, so it keeps the laws of hosts over all that. The steps of lines come as this needs, where they were cut short too.
pub fn served_steps_are_heard()
    ensures first { (keys : Keys) (number : ℕ) (told : Option (List (List ℕ))) → Holds number told (Some []) → HaveHeard keys number told [] }
    ensures any { (keys : Keys) (number : ℕ) (told held : Option (List (List ℕ))) → Holds number told held → (place : Place) →
        Opens keys number told place.host → OptAdds told place.shelf.records [] → (whole : Bool) (steps : List Step) (last : Place) (outs : List HostOut) →
        IsRunSteps whole steps → AllRan steps place last outs → HearsFrom (first_alone keys held) keys [] 0 whole steps place last }
    ensures more { (keys : Keys) (number : ℕ) (told : Option (List (List ℕ))) (past : List Entry) (before : HaveHeard keys number told past) (place : Place) →
        Opens keys number told place.host → OptAdds told place.shelf.records [] → (whole : Bool) (steps : List Step) (last : Place) (outs : List HostOut) →
        IsRunSteps whole steps → AllRan steps place last outs → HearsMore keys past before.clock whole steps place last }
    ensures runs { (lines : List PortLine) (answers : List Answer) (steps : List Step) → AllByRecursion IsServedLine lines →
        RunSteps is_quiet lines answers steps → IsRunSteps true steps }
    ensures cuts { (lines : List PortLine) (stop : Stop) (steps : List Step) → AllByRecursion IsServedLine lines →
        CutRun is_quiet lines stop steps → IsRunSteps false steps }
{
    hosts_keep_laws();
    hosts_are_legal();
    hosts_are_legal_from_starts();
    hosts_record_what_is_shown();
    hosts_listen_as_told();
    hosts_obey_the_line();
}
