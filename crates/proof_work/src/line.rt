//! Where the frame of the request under way is.

ghost use Rattle.std.specs.Prelude.{List};
ghost use Rattle.s0_crypto.specs.declared.key_pair.Keys.{Keys};
ghost use Rattle.serial_frame.specs.declared.item.Item.{Item};
ghost use Rattle.host_keep.specs.declared.record.Record.{Record};
ghost use Rattle.proof_walk.specs.host_model.State.{HostState, first_host};
ghost use Rattle.proof_walk.specs.host_model.Events.{HostEvent};
ghost use Rattle.proof_walk.specs.host_model.After.{after};
ghost use Rattle.proof_walk.specs.host_model.May.{May};
ghost use Rattle.proof_walk.specs.host_model.Did.{after_all};
ghost use Rattle.proof_walk.specs.host_model.Opening.{opened};
ghost use Rattle.proof_walk.specs.host_model.Taking.{AreJudged};
ghost use Rattle.proof_work.specs.Doing.{IsDone};
ghost use Rattle.proof_work.specs.Line.{HasOnLine, IsNoItem};

/// The frame of the request under way is on the line exactly until it is acknowledged: at the beginning, after each event that is no item, and after items of
/// the chip.
pub fn requests_stay_on_the_line()
    ensures first { (keys : Keys) → HasOnLine (first_host keys) }
    ensures opened { (keys : Keys) (records : List Record) → HasOnLine (opened keys records) }
    ensures each { (h : HostState) (event : HostEvent) → HasOnLine h → IsDone event → IsNoItem event → May h event → HasOnLine (after h event) }
    ensures items { (h : HostState) (items : List Item) (events : List HostEvent) → HasOnLine h → AreJudged h items events → HasOnLine (after_all h events) }
{}
