//! A report ends a session.

ghost use Rattle.std.specs.Prelude.{◌≡◌, ◌++◌, ◌&&◌, ◌+◌, ◌≤◌, ◌<◌, [], length, IfOk, OnOk, OnErr};
ghost use Rattle.host_keep.specs.Keeping.{Kept, Adds};
ghost use Rattle.host_keep.specs.Rows.{IsRecord};
ghost use Rattle.host_keep.specs.RecordText.{record_text};
ghost use Rattle.host_keep.specs.declared.record.Record.TheVariants.{Final as the_final};
ghost use Rattle.host_node.specs.State.{is_false};
ghost use Rattle.host_model.specs.Events.{Finishes, Is_unkept};
ghost use Rattle.host_model.specs.State.{command_at};
ghost use Rattle.host_model.specs.Sessions.{settings_with};
ghost use Rattle.host_step_kept.specs.declared.reports.TheConstants.{MOST_OTHERS};
ghost use Rattle.host_model.specs.Outs.{outs, ended_of, noted, stored_entries};
ghost use Rattle.host_model.specs.May.{May};
ghost use Rattle.host_step.specs.Changes.{parts_after};
ghost use Rattle.host_step_kept.specs.Choices.{chosen};

use host_keep::{FinalStatus, Keeper, Record};
use host_model::{HostOut, facts_are_kept};
use host_node::Node;
use host_step::{HostCore, keep_record};
use zw_base::{List, NoMemory, NodeId, Setting};
use zw_text::{Ended, Entry};

/// The entries of a final report, beside one for each value that it confirms: how the command ended, and the hold.
const MOST_OTHERS: usize = 2;

/// A report ends the open session of a node, once that is kept: its command has its outcome, at success the values that
/// it sets are confirmed, and a node that asks for it is held awake. True where the record was kept.
pub fn finish<P: Keeper>(
    core: &mut HostCore,
    node: NodeId,
    session: u64,
    id: u8,
    command: u32,
    status: FinalStatus,
    wake_request: bool,
    out: &mut List<HostOut>,
    keeper: &mut P,
) -> Result<bool, NoMemory>
    requires six_bits { id < 64 }
    requires may { May core.old.state
        (Finishes node session id command status wake_request) }
    ensures kept { IfOk result (λ is_kept.
        Kept is_kept (record_text (the_final node session status))
        (P.shelf keeper.old) (P.shelf keeper.new)) }
    ensures in_range { OnOk result
        (IsRecord (the_final node session status)) }
    ensures state { IfOk result (λ is_kept. core.new ≡ parts_after core.old
        (chosen is_kept (Finishes node session id command status wake_request)
        (Is_unkept node))) }
    ensures outs { IfOk result (λ is_kept. out.new.items ≡ out.old.items ++
        outs core.old.state (chosen is_kept
        (Finishes node session id command status wake_request)
        (Is_unkept node))) }
    ensures err { OnErr result ((core.new ≡ core.old)
        × (out.new.items ≡ out.old.items)) }
    ensures no_record { OnErr result
        (Adds [] (P.shelf keeper.old) (P.shelf keeper.new)) }
    ensures never_falls { (P.shelf keeper.old).faults ≤ (P.shelf keeper.new).faults }
    ensures never_fewer { P.number keeper.old ≤ P.number keeper.new }
    ensures reads { P.reads keeper.new ≡ P.reads keeper.old }
{
    let confirmed = confirmed_with_room(core, command, status, out)?;
    let fact = Record::Final {
        node,
        session,
        status,
    };
    let is_kept = keep_record(core.alloc(), &fact, keeper)?;
    if is_kept {
        end_session(
            core,
            node,
            session,
            id,
            command,
            status,
            wake_request,
            confirmed.as_slice(),
            out,
        );
    } else {
        out.put(HostOut::Note(Entry::Unkept { node }));
    }
    Ok(is_kept)
}

// What a final status of a command confirms, and room for all that a report makes of it.
fn confirmed_with_room(
    core: &HostCore,
    command: u32,
    status: FinalStatus,
    out: &mut List<HostOut>,
) -> Result<List<Setting>, NoMemory>
    ensures confirms { IfOk result (λ made.
        made.items ≡ settings_with status
        (command_at core.now.state.commands command)) }
    ensures outs { out.new.items ≡ out.old.items }
    ensures room { IfOk result (λ made.
        MOST_OTHERS + length made.items ≤ out.new.room) }
{
    let confirmed = core.confirmed_by(command, status)?;
    out.reserve(MOST_OTHERS + confirmed.len())?;
    Ok(confirmed)
}

// A session ends, whose record was kept.
fn end_session(
    core: &mut HostCore,
    node: NodeId,
    session: u64,
    id: u8,
    command: u32,
    status: FinalStatus,
    wake_request: bool,
    confirmed: &[Setting],
    out: &mut List<HostOut>,
)
    requires six_bits { id < 64 }
    requires may { May core.old.state
        (Finishes node session id command status wake_request) }
    requires confirms { confirmed.now ≡
        settings_with status (command_at core.old.state.commands command) }
    requires room { MOST_OTHERS + length confirmed.now ≤ out.old.room }
    ensures state { core.new ≡
        parts_after core.old (Finishes node
        session id command status wake_request) }
    ensures outs { out.new.items ≡ out.old.items ++
        outs core.old.state (Finishes node
        session id command status wake_request) }
{
    facts_are_kept();
    core.invariant_holds();
    let is_held = asks_for_hold(core.node(node), wake_request);
    core.finish(node, id, command, status, is_held, confirmed);
    out.put(HostOut::Note(Entry::Out {
        command,
        ended: ended_of(status),
    }));
    note_confirmed(node, confirmed, out);
    if is_held {
        out.put(HostOut::Note(Entry::Held { node }));
    }
}

// What is confirmed is entered, for which there is room.
fn note_confirmed(node: NodeId, confirmed: &[Setting], out: &mut List<HostOut>)
    requires { length confirmed.now ≤ out.old.room }
    ensures outs { out.new.items ≡ out.old.items ++
        noted (stored_entries node confirmed.now) }
    ensures room { out.new.room + length confirmed.now ≡ out.old.room }
{
    if let [setting, more @ ..] = confirmed {
        let setting = *setting;
        out.put(HostOut::Note(Entry::Store { node, setting }));
        note_confirmed(node, more, out);
    }
}

// A node that asks for it is held awake, unless it listens.
fn asks_for_hold(node: &Node, wake_request: bool) -> bool
    ensures { result ≡ wake_request && is_false node.now.listens }
{
    wake_request && !node.listens()
}

// The same as an entry tells it.
fn ended_of(status: FinalStatus) -> Ended
    ensures { result ≡ ended_of status }
{
    match status {
        FinalStatus::NoSupport => Ended::NoSupport,
        FinalStatus::Fail => Ended::Fail,
        FinalStatus::Success => Ended::Success,
    }
}
