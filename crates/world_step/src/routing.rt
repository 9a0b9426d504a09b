//! Where what the host puts out goes.

ghost use Rattle.std.specs.Prelude.{◌≡◌, [], OnOk, OnErr};
ghost use Rattle.outside_model.specs.Did.{Goes};
ghost use Rattle.world_model.specs.State.{routed, routed_one, begun_in, noted_by};
ghost use Rattle.world_step.specs.Routing.{begins_by};

use host_model::HostOut;
use outside_calls::Outside;
use outside_step::put_all;
use std::alloc::Global;
use zw_base::{List, NoMemory};
use zw_text::Entry;

/// What the host put out goes where it belongs, in its order: units to the line, and entries to the transcript.
pub(crate) fn route(
    alloc: Global,
    outs: List<HostOut>,
    outer: &mut Outside,
    out: &mut List<Entry>,
) -> Result<(), NoMemory>
    ensures ok { OnOk result (Goes (routed outs.items) outer.old outer.new out.old.items out.new.items) }
    ensures err { OnErr result (out.new.items ≡ out.old.items) }
{
    if outs.is_empty() {
        return Ok(());
    }
    let mut told = List::new(alloc);
    route_all(outs, outer, &mut told)?;
    out.reserve(told.len())?;
    put_all(told, out);
    Ok(())
}

// The same, into a list of its own.
fn route_all(
    outs: List<HostOut>,
    outer: &mut Outside,
    told: &mut List<Entry>,
) -> Result<(), NoMemory>
    ensures { OnOk result (Goes (routed outs.items) outer.old outer.new told.old.items told.new.items) }
{
    for one in outs.into_items() {
        route_one(one, outer, told)?;
    }
    Ok(())
}

// One output of the host goes where it belongs.
fn route_one(one: HostOut, outer: &mut Outside, told: &mut List<Entry>) -> Result<(), NoMemory>
    ensures { OnOk result (Goes (routed_one one) outer.old outer.new told.old.items told.new.items) }
{
    match one {
        HostOut::Write(unit) => outer.write_host(&unit, told),
        HostOut::Note(entry) => note(entry, outer, told),
    }
}

// An entry of the host. The air learns first of a session that begins.
fn note(entry: Entry, outer: &mut Outside, told: &mut List<Entry>) -> Result<(), NoMemory>
    ensures { OnOk result (Goes (noted_by (begun_in entry) entry) outer.old outer.new told.old.items told.new.items) }
{
    begin(&entry, outer);
    outer.note(entry, told)
}

// Where an entry says that a session begins, the air learns of it.
fn begin(entry: &Entry, outer: &mut Outside)
    ensures { Goes (begins_by (begun_in entry.now)) outer.old outer.new [] [] }
{
    if let Entry::Begin { node, session, .. } = entry {
        outer.set_begun(*node, *session);
    }
}
