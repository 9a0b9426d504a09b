//! A host that starts from any legal records.

ghost use Rattle.std.specs.Prelude.{◌≡◌, List, ◌++◌, true};
ghost use Rattle.s0_crypto.specs.declared.key_pair.Keys.{Keys};
ghost use Rattle.zw_text.specs.declared.entry.Entry.{Entry};
ghost use Rattle.host_model.specs.host_keep.Kept.{Kept, first_kept};
ghost use Rattle.host_model.specs.host_keep.Legal.{AreLegal, is_legal};
ghost use Rattle.host_model.specs.host_keep.declared.record.Record.{Record};
ghost use Rattle.host_model.specs.State.{HostState};
ghost use Rattle.host_model.specs.Holding.{HoldsAlone};
ghost use Rattle.host_model.specs.Opening.{opened};
ghost use Rattle.host_model.specs.Restoring.{restored};
ghost use Rattle.proof_host.specs.Facts.{Facts};
ghost use Rattle.proof_host.specs.RecordsTold.{TellRecords, told_by};

use crate::laws::{first_facts_hold, restarts_keep_facts};
use crate::lives::what_is_kept_starts_a_host;
use host_model::{
    a_host_begins_with_what_is_kept, a_record_restores_what_it_says, a_restart_keeps_what_is_held,
    a_restart_needs_the_records_alone, legal_records_restore_the_host,
};

/// A host that takes up a legal record keeps the facts, where that is told as an event of a host would be. So they hold of any entries that tell legal
/// records, one after another, and of the host that starts from these: whoever left them, no run of a host before it is asked for.
pub fn records_keep_facts()
    ensures one { (past : List Entry) (h : HostState) (kept : Kept) (one : Record) → Facts past h → HoldsAlone h kept → is_legal kept one ≡ true →
        Facts (past ++ told_by kept one) (restored h one) }
    ensures opened { (keys : Keys) (records : List Record) (told : List Entry) → AreLegal records → TellRecords first_kept records told →
        Facts told (opened keys records) }
{
    first_facts_hold();
    restarts_keep_facts();
    what_is_kept_starts_a_host();
    a_host_begins_with_what_is_kept();
    a_record_restores_what_it_says();
    a_restart_needs_the_records_alone();
    legal_records_restore_the_host();
    a_restart_keeps_what_is_held();
}
