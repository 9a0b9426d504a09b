//! What holds of a host that starts from its records.

ghost use Rattle.std.specs.Prelude.{◌≡◌, List, [], ◌∷◌, ◌++◌, true};
ghost use Rattle.s0_crypto.specs.declared.key_pair.Keys.{Keys};
ghost use Rattle.host_keep.specs.declared.record.Record.{Record};
ghost use Rattle.host_keep.specs.Kept.{Kept, after as kept_after, kept_of};
ghost use Rattle.host_keep.specs.Legal.{AreLegal, is_legal};
ghost use Rattle.host_model.specs.State.{HostState, first_host};
ghost use Rattle.host_model.specs.Facts.{HostFacts};
ghost use Rattle.host_model.specs.Restoring.{may_restore, restored};
ghost use Rattle.host_model.specs.Opening.{restored_all, restarted, opened};
ghost use Rattle.host_model.specs.Holding.{Holds, HoldsAlone};

use crate::facts_are_kept;
use host_node::{a_restart_needs_the_records_alone, facts_of_all_are_kept};

/// A host may take up a record exactly where it may follow those that gave what the host has, and then has what that gives too.
pub fn a_record_restores_what_it_says()
    ensures may { (h : HostState) (kept : Kept) (one : Record) →
        HoldsAlone h kept → may_restore h one ≡ is_legal kept one }
    ensures holds { (h : HostState) (kept : Kept) (one : Record) →
        HostFacts h → HoldsAlone h kept → is_legal kept one ≡ true →
        HoldsAlone (restored h one) (kept_after kept one) }
    ensures facts { (h : HostState) (one : Record) → HostFacts h →
        may_restore h one ≡ true → HostFacts (restored h one) }
{
    facts_are_kept();
    facts_of_all_are_kept();
    a_restart_needs_the_records_alone();
}

/// Legal records give a host with its facts, which has what they give.
pub fn legal_records_restore_the_host()
    ensures holds { (keys : Keys) (records : List Record) →
        AreLegal records →
        HoldsAlone (restored_all (first_host keys) records) (kept_of records) }
    ensures facts { (keys : Keys) (records : List Record) →
        AreLegal records → HostFacts (restored_all (first_host keys) records) }
    ensures more { (h : HostState) (records more : List Record) →
        restored_all h (records ++ more) ≡
        restored_all (restored_all h records) more }
    ensures nothing { (h : HostState) → restored_all h [] ≡ h }
    ensures one { (h : HostState) (one : Record) →
        restored_all h (one ∷ []) ≡ restored h one }
{
    facts_are_kept();
    facts_of_all_are_kept();
    a_restart_needs_the_records_alone();
}

/// A restart leaves what is held, and the facts of a host; so the host that starts from legal records has what they give.
pub fn a_restart_keeps_what_is_held()
    ensures holds { (h : HostState) (kept : Kept) →
        Holds h kept → Holds (restarted h) kept }
    ensures alone { (h : HostState) (kept : Kept) →
        HoldsAlone h kept → HoldsAlone (restarted h) kept }
    ensures facts { (h : HostState) →
        HostFacts h → HostFacts (restarted h) }
    ensures opened { (keys : Keys) (records : List Record) →
        AreLegal records → HoldsAlone (opened keys records) (kept_of records) }
    ensures opened_facts { (keys : Keys) (records : List Record) →
        AreLegal records → HostFacts (opened keys records) }
{
    facts_are_kept();
    facts_of_all_are_kept();
    a_restart_needs_the_records_alone();
    host_node::facts_are_kept();
}
