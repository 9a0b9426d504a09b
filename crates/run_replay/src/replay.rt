//! The host with a clock, line by line.

ghost use Rattle.std.specs.Prelude.{◌≡◌, ◌+◌, IfOk, OnOk, OnErr};
ghost use Rattle.zw_text.specs.declared.line.ReplayLine.TheVariants.{Plain as plain};
ghost use Rattle.run_replay.specs.Machine.{Does, Stops, first_replay, scene};
ghost use Rattle.run_replay.specs.Lines.{AreTicks, IsLine, IsPlain, IsPump, IsReplayed, IsTaking, IsTick};

use crate::entering::{enter, enter_timed};
use host_core::Host;
use host_keep::Keeper;
use std::alloc::Global;
use std::marker::Model;
use zw_base::{Draw, List, NoMemory};
use zw_text::{Entry, Line, ReplayLine};

/// A host, and how many ticks of 100 ms have passed. Contracts see a `ReplayState`.
#[derive(Drop)]
pub struct Replay {
    pub(crate) alloc: Global,
    pub(crate) host: Host,
    pub(crate) clock: u64,
}

impl Model for Replay {
    ghost use Rattle.std.specs.Coded.{codes};
    ghost use Rattle.value_store.specs.Values.{values_code};
    ghost use Rattle.run_replay.specs.Machine.{ReplayState};

    ghost Value = { ReplayState };

    ghost coded = { Prim.hlevel (codes, values_code) };

    ghost view = { λ r. record { host = r.host; clock = r.clock } };
}

impl Replay {
    /// A host at its beginning, at clock 0.
    pub fn new(alloc: Global, key: [u8; 16]) -> Result<Replay, NoMemory>
        ensures { IfOk result (λ replay. replay ≡ first_replay key) }
    {
        Ok(Replay {
            alloc,
            host: Host::new(alloc, key)?,
            clock: 0,
        })
    }

    /// Runs a line: so many ticks, or its own effect and a pump.
    pub fn step<D: Draw, P: Keeper>(
        &mut self,
        line: &ReplayLine,
        draw: &mut D,
        keeper: &mut P,
        out: &mut List<Entry>,
    ) -> Result<(), NoMemory>
        requires { IsReplayed line.now }
        ensures ok { OnOk result (Does (IsLine line.now) (scene self.old (P.shelf keeper.old) out.old.items)
            (scene self.new (P.shelf keeper.new) out.new.items)) }
        ensures err { OnErr result (Stops (scene self.old (P.shelf keeper.old) out.old.items)
            (scene self.new (P.shelf keeper.new) out.new.items)) }
    {
        match line {
            ReplayLine::Plain { line } => self.plain(line, draw, keeper, out),
            ReplayLine::Chip { bytes } => {
                self.feed(bytes.as_slice(), draw, keeper, out)?;
                self.pump(draw, keeper, out)
            }
        }
    }

    // A line that scenarios have too.
    fn plain<D: Draw, P: Keeper>(
        &mut self,
        line: &Line,
        draw: &mut D,
        keeper: &mut P,
        out: &mut List<Entry>,
    ) -> Result<(), NoMemory>
        requires { IsReplayed (plain line.now) }
        ensures ok { OnOk result (Does (IsPlain line.now) (scene self.old (P.shelf keeper.old) out.old.items)
            (scene self.new (P.shelf keeper.new) out.new.items)) }
        ensures err { OnErr result (Stops (scene self.old (P.shelf keeper.old) out.old.items)
            (scene self.new (P.shelf keeper.new) out.new.items)) }
    {
        if let Line::Tick { count } = line {
            return self.ticks(*count, draw, keeper, out);
        }
        self.effect(line, keeper, out)?;
        self.pump(draw, keeper, out)
    }

    // So many ticks pass.
    fn ticks<D: Draw, P: Keeper>(
        &mut self,
        count: u32,
        draw: &mut D,
        keeper: &mut P,
        out: &mut List<Entry>,
    ) -> Result<(), NoMemory>
        ensures ok { OnOk result (Does (AreTicks count) (scene self.old (P.shelf keeper.old) out.old.items)
            (scene self.new (P.shelf keeper.new) out.new.items)) }
        ensures err { OnErr result (Stops (scene self.old (P.shelf keeper.old) out.old.items)
            (scene self.new (P.shelf keeper.new) out.new.items)) }
    {
        for _ in 0..count {
            self.tick(draw, keeper, out)?;
        }
        Ok(())
    }

    // One tick passes, and the host pumps. The number of the tick is entered before the first entry of it.
    fn tick<D: Draw, P: Keeper>(
        &mut self,
        draw: &mut D,
        keeper: &mut P,
        out: &mut List<Entry>,
    ) -> Result<(), NoMemory>
        ensures ok { OnOk result (Does IsTick (scene self.old (P.shelf keeper.old) out.old.items)
            (scene self.new (P.shelf keeper.new) out.new.items)) }
        ensures err { OnErr result (Stops (scene self.old (P.shelf keeper.old) out.old.items)
            (scene self.new (P.shelf keeper.new) out.new.items)) }
    {
        let clock = after_clock(self.clock)?;
        let mut outs = List::new(self.alloc);
        self.host.tick(draw, &mut outs, keeper)?;
        self.host.pump(draw, &mut outs, keeper)?;
        self.clock = clock;
        enter_timed(self.alloc, clock, outs, out)
    }

    // The host takes bytes of the chip.
    fn feed<D: Draw, P: Keeper>(
        &mut self,
        bytes: &[u8],
        draw: &mut D,
        keeper: &mut P,
        out: &mut List<Entry>,
    ) -> Result<(), NoMemory>
        ensures ok { OnOk result (Does (IsTaking bytes.now) (scene self.old (P.shelf keeper.old) out.old.items)
            (scene self.new (P.shelf keeper.new) out.new.items)) }
        ensures err { OnErr result (Stops (scene self.old (P.shelf keeper.old) out.old.items)
            (scene self.new (P.shelf keeper.new) out.new.items)) }
    {
        let mut outs = List::new(self.alloc);
        self.host.feed(bytes, draw, &mut outs, keeper)?;
        enter(self.alloc, outs, out)
    }

    // The host submits what it may.
    fn pump<D: Draw, P: Keeper>(
        &mut self,
        draw: &mut D,
        keeper: &mut P,
        out: &mut List<Entry>,
    ) -> Result<(), NoMemory>
        ensures ok { OnOk result (Does IsPump (scene self.old (P.shelf keeper.old) out.old.items)
            (scene self.new (P.shelf keeper.new) out.new.items)) }
        ensures err { OnErr result (Stops (scene self.old (P.shelf keeper.old) out.old.items)
            (scene self.new (P.shelf keeper.new) out.new.items)) }
    {
        let mut outs = List::new(self.alloc);
        self.host.pump(draw, &mut outs, keeper)?;
        enter(self.alloc, outs, out)
    }
}

/// The clock one tick later.
fn after_clock(clock: u64) -> Result<u64, NoMemory>
    ensures { IfOk result (λ later. later ≡ clock + 1) }
{
    match clock.checked_add(1) {
        Some(later) => Ok(later),
        None => Err(NoMemory),
    }
}
