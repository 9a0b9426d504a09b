//! `audit`: a transcript, and whether it is in order.

ghost use Rattle.std.specs.Prelude.{◌≡◌, ◌≤◌};
ghost use Rattle.zw_base.specs.Faults.{Rose};
ghost use Rattle.run_lines.specs.Complete.{IsDone};
ghost use Rattle.run_audit.specs.Audited.{AuditsTo, HasAudited, IsInOrder, WritesNo, name_of};

use audit::{Break, examine, one_answer};
use run_lines::{Status, write_piece};
use run_tools::{InputFault, read_input};
use std::alloc::Global;
use zw_base::{Failed, NoMemory, Sink, Source};

/// The name of a rule.
fn rule_name(broken: Break) -> &'static str
    ensures { result.now ≡ name_of broken }
{
    match broken {
        Break::Text => "text",
        Break::Sessions => "sessions",
        Break::Once => "once",
        Break::Air => "air",
        Break::Payload => "payload",
        Break::Store => "store",
        Break::Table => "table",
    }
}

/// Reads a source to its end as a transcript, and writes `yes` where it is in order, else the first line that breaks a rule and
/// the rule's name.
pub fn run_audit<S: Source, K: Sink>(alloc: Global, source: &mut S, sink: &mut K) -> Status
    ensures audited { HasAudited result (S.left source.old) (S.left source.new) (K.written sink.old) (K.written sink.new) }
    ensures source_never_falls { S.faults source.old ≤ S.faults source.new }
    ensures sink_never_falls { K.faults sink.old ≤ K.faults sink.new }
    ensures read_fault { result ≡ Status.ReadFault → Rose (S.faults source.old) (S.faults source.new) }
    ensures write_fault { result ≡ Status.WriteFault → Rose (K.faults sink.old) (K.faults sink.new) }
    ensures complete { IsInOrder (S.left source.old) → (Rose (S.faults source.old) (S.faults source.new) → ⊥)
        → (Rose (K.faults sink.old) (K.faults sink.new) → ⊥) → IsDone result }
{
    one_answer();
    audit_source(alloc, source, sink)
}

/// The same, as its statuses tell it.
fn audit_source<S: Source, K: Sink>(alloc: Global, source: &mut S, sink: &mut K) -> Status
    ensures audited { HasAudited result (S.left source.old) (S.left source.new) (K.written sink.old) (K.written sink.new) }
    ensures source_never_falls { S.faults source.old ≤ S.faults source.new }
    ensures sink_never_falls { K.faults sink.old ≤ K.faults sink.new }
    ensures read_fault { result ≡ Status.ReadFault → Rose (S.faults source.old) (S.faults source.new) }
    ensures write_fault { result ≡ Status.WriteFault → Rose (K.faults sink.old) (K.faults sink.new) }
{
    match read_input(alloc, source) {
        Ok(input) => audit_input(alloc, input.as_slice(), sink),
        Err(InputFault::Failed) => Status::ReadFault,
        Err(InputFault::TooLong) => Status::InputTooLong,
        Err(InputFault::NoMemory) => Status::NoMemory,
    }
}

/// Writes whether a text is that of a transcript in order.
fn audit_input<K: Sink>(alloc: Global, input: &[u8], sink: &mut K) -> Status
    ensures audits { AuditsTo result input.now (K.written sink.old) (K.written sink.new) }
    ensures never_falls { K.faults sink.old ≤ K.faults sink.new }
    ensures failed { result ≡ Status.WriteFault → Rose (K.faults sink.old) (K.faults sink.new) }
{
    match examine(alloc, input) {
        Ok(None) => match write_piece(sink, b"yes\n") {
            Ok(()) => Status::Ok,
            Err(Failed) => Status::WriteFault,
        },
        Ok(Some((line, broken))) => write_no(alloc, line, broken, sink),
        Err(NoMemory) => Status::NoMemory,
    }
}

/// Writes the line that breaks a rule, and the rule's name.
fn write_no<K: Sink>(alloc: Global, line: u32, broken: Break, sink: &mut K) -> Status
    ensures writes { WritesNo result line broken (K.written sink.old) (K.written sink.new) }
    ensures never_falls { K.faults sink.old ≤ K.faults sink.new }
    ensures failed { result ≡ Status.WriteFault → Rose (K.faults sink.old) (K.faults sink.new) }
{
    let name = rule_name(broken);
    let Ok(text) = format!(in alloc; "no {line} {name}\n") else {
        return Status::NoMemory;
    };
    match write_piece(sink, text.as_bytes()) {
        Ok(()) => Status::No(line),
        Err(Failed) => Status::WriteFault,
    }
}
