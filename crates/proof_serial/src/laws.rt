//! The laws of the serial line.

ghost use Rattle.std.specs.Prelude.{ℕ, Option, List, []};
ghost use Rattle.std.specs.List.{AllByRecursion};
ghost use Rattle.serial_frame.specs.Items.{IsUnit};
ghost use Rattle.world_model.specs.host_keep.Rows.{IsRecord};
ghost use Rattle.world_model.specs.host_keep.declared.record.Record.{Record};
ghost use Rattle.world_model.specs.host_model.Opening.{opened};
ghost use Rattle.world_model.specs.host_model.State.{HostState, first_host};
ghost use Rattle.world_model.specs.host_model.Events.{HostEvent};
ghost use Rattle.world_model.specs.host_model.May.{May as MayHost};
ghost use Rattle.world_model.specs.host_model.After.{after};
ghost use Rattle.world_model.specs.host_model.Outs.{outs};
ghost use Rattle.world_model.specs.host_model.Facts.{HostFacts};
ghost use Rattle.s0_crypto.specs.declared.key_pair.Keys.{Keys};
ghost use Rattle.serial_frame.specs.declared.item.Item.{Item};
ghost use Rattle.world_model.specs.device_sim.State.{State};
ghost use Rattle.zw_text.specs.declared.line.Line.{Line};
ghost use Rattle.world_model.specs.State.{Machine, first_machine};
ghost use Rattle.world_model.specs.Events.{Event, May};
ghost use Rattle.world_model.specs.Did.{happens_all, MayAll};
ghost use Rattle.world_model.specs.Lines.{restart_events};
ghost use Rattle.world_model.specs.Prefixes.{LinePart};
ghost use Rattle.proof_serial.specs.Chip.{HasFrames};
ghost use Rattle.proof_serial.specs.Host.{HostFits, FitsEvent, AllAskWell};
ghost use Rattle.proof_serial.specs.Line.{host_units, Carried, IsWhole, AreAtRest, IsAtRest, WritesWell, AllWriteWell, LineAfter, Stays, AreLines};
ghost use Rattle.proof_serial.specs.Units.{JudgesUnits, JudgesFrames};

use world_model::{a_restart_keeps_what_is_held, attempts_have_what_they_give, facts_are_kept};

/// What is on the serial line is whole units, in both directions: it is at first; each event that may happen keeps it, with what it adds,
/// judges or loses said exactly (`LineAfter`), where who ticks, starts again or loses bytes has nothing unfinished; after a restart nothing
/// is on its way; and in a line, whole or cut short, that is so, since each side takes all bytes that are there. So it is over any lines,
/// from the first on, the last of which an allocation failure may have cut short (`AreLines`). The frames that the host writes have at most
/// 252 bytes of body (`AllWriteWell`).
pub fn units_are_judged_whole()
    ensures first { (keys : Keys) (records : Option (List (List ℕ))) (devices : List State) →
        IsWhole (first_machine keys records devices) × AreAtRest (first_machine keys records devices) }
    ensures each { (m : Machine) (event : Event) (up down : List Item) → Carried m up down → HasFrames m.outside.outer.chip.state.port →
        May m event → IsAtRest m event → WritesWell m event → LineAfter m event up down }
    ensures restart { (m : Machine) (state : HostState) (up down : List Item) → Carried m up down → HasFrames m.outside.outer.chip.state.port → AreAtRest m →
        MayAll m (restart_events state) → Carried (happens_all m (restart_events state)) [] [] }
    ensures line { (line : Line) (m : Machine) (events : List Event) → IsWhole m → AreAtRest m → LinePart line m events → MayAll m events →
        AllWriteWell m events → Stays m events }
    ensures lines { (keys : Keys) (records : Option (List (List ℕ))) (devices : List State) (lines : List Line) (events : List Event) →
        AreLines lines (first_machine keys records devices) events → MayAll (first_machine keys records devices) events →
        AllWriteWell (first_machine keys records devices) events → Stays (first_machine keys records devices) events }
{}

/// So over any lines from the first on: what each side judges, and what is then still on its way to it, are units that the other side wrote, whole,
/// in the order written, of which some were lost and some are refused for their checksum. The frames that it judges and does not refuse are frames
/// that the other wrote, unchanged, in their order.
pub fn what_is_judged_was_written()
    ensures units { (keys : Keys) (records : Option (List (List ℕ))) (devices : List State) (lines : List Line) (events : List Event) →
        AreLines lines (first_machine keys records devices) events → MayAll (first_machine keys records devices) events →
        AllWriteWell (first_machine keys records devices) events → JudgesUnits (first_machine keys records devices) events }
    ensures frames { (keys : Keys) (records : Option (List (List ℕ))) (devices : List State) (lines : List Line) (events : List Event) →
        AreLines lines (first_machine keys records devices) events → MayAll (first_machine keys records devices) events →
        AllWriteWell (first_machine keys records devices) events → JudgesFrames (first_machine keys records devices) events }
{}

/// The frames that the host writes have at most 252 bytes of body, in every run of which this holds: what tasks are asked for, and what a text is
/// sealed to, has at most 46 bytes, and the keeper tells its records where the host starts again (`AllAskWell`). All else that the host
/// keeps and may write is short at first and by its records (`HostFits`), and each event keeps it so.
pub fn hosts_write_well()
    ensures first { (keys : Keys) → HostFits (first_host keys) }
    ensures opened { (keys : Keys) (records : List Record) → AllByRecursion IsRecord records → HostFits (opened keys records) }
    ensures kept { (h : HostState) (event : HostEvent) → HostFacts h → HostFits h → MayHost h event → FitsEvent event → HostFits (after h event) }
    ensures units { (h : HostState) (event : HostEvent) → HostFacts h → HostFits h → MayHost h event → AllByRecursion IsUnit (host_units (outs h event)) }
    ensures run { (keys : Keys) (records : Option (List (List ℕ))) (devices : List State) (events : List Event) →
        MayAll (first_machine keys records devices) events → AllAskWell (first_machine keys records devices) events →
        AllWriteWell (first_machine keys records devices) events }
{
    attempts_have_what_they_give();
    facts_are_kept();
    a_restart_keeps_what_is_held();
}
