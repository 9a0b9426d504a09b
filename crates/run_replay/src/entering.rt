//! What the host puts out, as it is entered.

ghost use Rattle.std.specs.Prelude.{◌≡◌, ◌≤◌, ◌++◌, length, IfOk, OnOk, OnErr};
ghost use Rattle.run_replay.specs.Machine.{entries_of, entry_of, timed};

use host_core::HostOut;
use serial_frame::encode;
use std::alloc::Global;
use zw_base::{List, NoMemory};
use zw_text::{Entry, Side};

/// Enters what the host put out.
pub fn enter(alloc: Global, outs: List<HostOut>, out: &mut List<Entry>) -> Result<(), NoMemory>
    ensures ok { OnOk result (out.new.items ≡ out.old.items ++ entries_of outs.items) }
    ensures err { OnErr result (out.new.items ≡ out.old.items) }
{
    let mut told = List::new(alloc);
    tell_all(alloc, outs, &mut told)?;
    add_all(told, out)
}

/// Enters what the host put out at a tick, after the number of the tick; nothing where it put out nothing.
pub fn enter_timed(
    alloc: Global,
    tick: u64,
    outs: List<HostOut>,
    out: &mut List<Entry>,
) -> Result<(), NoMemory>
    ensures ok { OnOk result (out.new.items ≡ out.old.items ++ timed tick outs.items) }
    ensures err { OnErr result (out.new.items ≡ out.old.items) }
{
    let told = tell_timed(alloc, tick, outs)?;
    add_all(told, out)
}

/// The entries of what the host put out at a tick.
fn tell_timed(alloc: Global, tick: u64, outs: List<HostOut>) -> Result<List<Entry>, NoMemory>
    ensures { IfOk result (λ told. told.items ≡ timed tick outs.items) }
{
    let mut told = List::new(alloc);
    if outs.is_empty() {
        return Ok(told);
    }
    told.push(Entry::Time { tick })?;
    tell_all(alloc, outs, &mut told)?;
    Ok(told)
}

/// Adds the entries of what the host put out.
fn tell_all(alloc: Global, outs: List<HostOut>, told: &mut List<Entry>) -> Result<(), NoMemory>
    ensures { OnOk result (told.new.items ≡ told.old.items ++ entries_of outs.items) }
{
    for one in outs.into_items() {
        told.push(entry_of(alloc, one)?)?;
    }
    Ok(())
}

/// What is entered of an output of the host.
fn entry_of(alloc: Global, one: HostOut) -> Result<Entry, NoMemory>
    ensures { IfOk result (λ entry. entry ≡ entry_of one) }
{
    match one {
        HostOut::Write(unit) => Ok(Entry::Written {
            side: Side::Host,
            unit: encode(alloc, &unit)?,
        }),
        HostOut::Note(entry) => Ok(entry),
    }
}

/// Adds all entries, or none.
fn add_all(told: List<Entry>, out: &mut List<Entry>) -> Result<(), NoMemory>
    ensures ok { OnOk result (out.new.items ≡ out.old.items ++ told.items) }
    ensures err { OnErr result (out.new.items ≡ out.old.items) }
{
    out.reserve(told.len())?;
    put_all(told, out);
    Ok(())
}

/// Puts entries at the end of others, for which there is room.
fn put_all(told: List<Entry>, out: &mut List<Entry>)
    requires { length told.items ≤ out.old.room }
    ensures { out.new.items ≡ out.old.items ++ told.items }
{
    for entry in told.into_items() {
        out.put(entry);
    }
}
