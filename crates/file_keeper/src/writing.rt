//! Adding a line to a store, wholly or not at all.

ghost use Rattle.std.specs.Prelude.{◌≡◌, ◌<◌, ◌≤◌, OnOk, OnErr};
ghost use Rattle.std.specs.Io.KnownBytes.{append_known};
ghost use Rattle.zw_base.specs.Faults.{Rose};
ghost use Rattle.file_keeper.specs.Holding.{AppendsSome, IsWithin, cut_known};

use crate::store::Store;
use zw_base::Failed;

/// What became of bytes that were to be added.
#[derive(Clone, Copy, PartialEq, Eq)]
pub(crate) enum Written {
    /// They were added and synced.
    Whole,
    /// None of them is there, and that is synced.
    Undone,
    /// What is there is not known.
    Unknown,
}

/// Cuts the store to so many bytes, adds these and has all synced; where that fails cuts it to so many again.
#[tactic(auto, using(crate::proofs::Written::within_cut, crate::proofs::Written::within_added, crate::proofs::Written::cut_again))]
pub(crate) fn write<S: Store>(store: &mut S, length: u64, bytes: &[u8]) -> Written
    requires { IsWithin length (S.held store.old) }
    ensures whole { result ≡ Written.Whole → S.held store.new ≡ append_known (cut_known length (S.held store.old)) bytes.now }
    ensures whole_synced { result ≡ Written.Whole → S.synced store.new ≡ S.held store.new }
    ensures undone { result ≡ Written.Undone → S.held store.new ≡ cut_known length (S.held store.old) }
    ensures undone_synced { result ≡ Written.Undone → S.synced store.new ≡ S.held store.new }
    ensures failed { ¬ (result ≡ Written.Whole) → Rose (S.faults store.old) (S.faults store.new) }
    ensures never_falls { S.faults store.old ≤ S.faults store.new }
{
    if store.cut(length).is_err() {
        return Written::Unknown;
    }
    match add(store, bytes) {
        Ok(()) => Written::Whole,
        Err(Failed) => undo(store, length),
    }
}

// Adds the bytes, and has them synced.
fn add<S: Store>(store: &mut S, bytes: &[u8]) -> Result<(), Failed>
    ensures added { OnOk result (S.held store.new ≡ append_known (S.held store.old) bytes.now) }
    ensures synced { OnOk result (S.synced store.new ≡ S.held store.new) }
    ensures torn { OnErr result (AppendsSome (S.held store.old) (S.held store.new) bytes.now) }
    ensures failed { OnErr result (Rose (S.faults store.old) (S.faults store.new)) }
    ensures never_falls { S.faults store.old ≤ S.faults store.new }
{
    store.append(bytes)?;
    store.sync()?;
    Ok(())
}

// Cuts the store to so many bytes, and has that synced.
fn undo<S: Store>(store: &mut S, length: u64) -> Written
    requires { IsWithin length (S.held store.old) }
    ensures not_whole { ¬ (result ≡ Written.Whole) }
    ensures cut { result ≡ Written.Undone → S.held store.new ≡ cut_known length (S.held store.old) }
    ensures synced { result ≡ Written.Undone → S.synced store.new ≡ S.held store.new }
    ensures never_falls { S.faults store.old ≤ S.faults store.new }
{
    if store.cut(length).is_err() || store.sync().is_err() {
        return Written::Unknown;
    }
    Written::Undone
}
