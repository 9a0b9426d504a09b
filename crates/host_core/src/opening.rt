//! A host that starts from its records.

ghost use Rattle.std.specs.Prelude.{◌≡◌, ◌⊎◌, ◌<◌, ◌≤◌, ℕ, List as Items, [], Some, Err, IfOk, OnOk};
ghost use Rattle.zw_base.specs.Faults.{raised};
ghost use Rattle.host_keep.specs.Keeping.{Adds, Fails};
ghost use Rattle.host_keep.specs.Legal.{IsFirstBad};
ghost use Rattle.host_model.specs.Did.{RoseBy};
ghost use Rattle.s0_crypto.specs.Sealing.{keys_of};
ghost use Rattle.host_core.specs.Opening.{Opens, IsRecordAt, IsNoneAt, Takes, MayTakeNone};
ghost use Rattle.host_core.specs.Recorded.{TablesAreTold};

use crate::Host;
use crate::laws::tables_stand_in_the_records;
use host_keep::{
    KeepFault, Keeper, Record, RecordFault, a_text_is_of_one_record, read_record, records_go_on,
};
use host_model::{a_record_restores_what_it_says, legal_records_restore_the_host};
use host_step_kept::HostCore;
use s0_crypto::keys;
use std::alloc::Global;
use zw_base::NoMemory;

/// Why a host does not start.
#[derive(Clone, Copy, Debug, PartialEq, Eq)]
pub enum OpenFault {
    /// The keeper failed, and counted that.
    KeeperFault,
    /// The record of that place, from 0, is invalid, or may not follow those before it.
    BadRecord(u64),
    /// There was no memory.
    NoMemory,
}

impl From<NoMemory> for OpenFault {
    ghost use Rattle.std.specs.Prelude.{◌≡◌};
    ghost use Rattle.host_core.specs.declared.opening.OpenFault.TheVariants.{NoMemory as no_memory};

    ghost from_gives = { λ _ e. e ≡ no_memory };

    fn from(_error: NoMemory) -> OpenFault {
        OpenFault::NoMemory
    }
}

impl Host {
    /// The host that starts from the records of a keeper: each is read, in their order, and taken up. The keys are made of the
    /// network's key.
    pub fn open<P: Keeper>(alloc: Global, key: [u8; 16], keeper: &mut P) -> Result<Host, OpenFault>
        ensures opens { IfOk result
            (Opens (keys_of key) (P.number keeper.old)
            (P.shelf keeper.old).records) }
        ensures tables { IfOk result (λ host.
            TablesAreTold (P.shelf keeper.new).records host.state) }
        ensures bad { (at : ℕ) (texts : Items (Items ℕ)) →
            result ≡ Err (OpenFault.BadRecord at)
            → (P.shelf keeper.old).records ≡ Some texts → IsFirstBad texts at }
        ensures place { (at : ℕ) →
            result ≡ Err (OpenFault.BadRecord at) → at < P.number keeper.old }
        ensures failed { result ≡ Err OpenFault.KeeperFault →
            Fails (P.shelf keeper.old) (P.shelf keeper.new) }
        ensures reads { OnOk result
            (RoseBy (P.number keeper.old)
            (P.reads keeper.old) (P.reads keeper.new)) }
        ensures reads_never_fall { RoseBy 0
            (P.reads keeper.old) (P.reads keeper.new) }
        ensures number { P.number keeper.new ≡ P.number keeper.old }
        ensures records { Adds [] (P.shelf keeper.old) (P.shelf keeper.new) }
        ensures never_falls { (P.shelf keeper.old).faults ≤ (P.shelf keeper.new).faults }
    {
        legal_records_restore_the_host();
        a_record_restores_what_it_says();
        records_go_on();
        tables_stand_in_the_records();
        let mut core = HostCore::new(alloc, keys(key))?;
        for at in 0..keeper.count() {
            if let Err(fault) = take_up(&mut core, alloc, keeper, at) {
                return Err(fault);
            }
        }
        core.restart();
        Ok(Host { core })
    }
}

// The record of a place is read and taken up.
fn take_up<P: Keeper>(
    core: &mut HostCore,
    alloc: Global,
    keeper: &mut P,
    at: u64,
) -> Result<(), OpenFault>
    requires { at < P.number keeper.old }
    ensures takes { OnOk result
        (Takes (P.shelf keeper.old).records at core.old core.new) }
    ensures bad { (place : ℕ) → result ≡ Err (OpenFault.BadRecord place) →
        (place ≡ at) × MayTakeNone (P.shelf keeper.old).records
        at core.old.state }
    ensures failed { result ≡ Err OpenFault.KeeperFault →
        Fails (P.shelf keeper.old) (P.shelf keeper.new) }
    ensures reads { OnOk result (P.reads keeper.new ≡
        raised (P.reads keeper.old)) }
    ensures read { (P.reads keeper.new ≡ P.reads keeper.old)
        ⊎ (P.reads keeper.new ≡ raised (P.reads keeper.old)) }
    ensures number { P.number keeper.new ≡ P.number keeper.old }
    ensures records { (P.shelf keeper.new).records ≡
        (P.shelf keeper.old).records }
    ensures never_falls { (P.shelf keeper.old).faults ≤ (P.shelf keeper.new).faults }
{
    a_text_is_of_one_record();
    let next = match record_at(alloc, keeper, at) {
        Ok(next) => next,
        Err(fault) => return Err(fault),
    };
    if host_step_kept::restore(core, next)? {
        Ok(())
    } else {
        Err(OpenFault::BadRecord(at))
    }
}

// The record of a place is read.
fn record_at<P: Keeper>(alloc: Global, keeper: &mut P, at: u64) -> Result<Record, OpenFault>
    requires { at < P.number keeper.old }
    ensures found { IfOk result
        (IsRecordAt (P.shelf keeper.old).records at) }
    ensures bad { (place : ℕ) → result ≡ Err (OpenFault.BadRecord place) →
        (place ≡ at) × IsNoneAt (P.shelf keeper.old).records at }
    ensures failed { result ≡ Err OpenFault.KeeperFault →
        Fails (P.shelf keeper.old) (P.shelf keeper.new) }
    ensures reads { OnOk result (P.reads keeper.new ≡
        raised (P.reads keeper.old)) }
    ensures read { (P.reads keeper.new ≡ P.reads keeper.old)
        ⊎ (P.reads keeper.new ≡ raised (P.reads keeper.old)) }
    ensures number { P.number keeper.new ≡ P.number keeper.old }
    ensures records { (P.shelf keeper.new).records ≡
        (P.shelf keeper.old).records }
    ensures never_falls { (P.shelf keeper.old).faults ≤ (P.shelf keeper.new).faults }
{
    let text = match keeper.read(alloc, at) {
        Ok(text) => text,
        Err(KeepFault::Failed) => return Err(OpenFault::KeeperFault),
        Err(KeepFault::NoMemory) => return Err(OpenFault::NoMemory),
    };
    match read_record(alloc, text.as_slice()) {
        Ok(next) => Ok(next),
        Err(RecordFault::Bad) => Err(OpenFault::BadRecord(at)),
        Err(RecordFault::NoMemory) => Err(OpenFault::NoMemory),
    }
}
