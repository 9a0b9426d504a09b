//! Settling: bytes move until none does.

ghost use Rattle.std.specs.Prelude.{List as Items, ◌≤◌, ◌≡◌, IfOk, OnOk, OnErr};
ghost use Rattle.s0_crypto.specs.declared.key_pair.Keys.{Keys};
ghost use Rattle.device_sim.specs.State.{State};
ghost use Rattle.world_model.specs.Did.{Does, Nothing, Stops};
ghost use Rattle.world_model.specs.Settling.{IsPump, Passes, Settles};
ghost use Rattle.world_model.specs.Prefixes.{PassesPrefix, SettlesPrefix};
ghost use Rattle.world_step.specs.Scene.{scene_of};
ghost use Rattle.world_step.specs.Moving.{Pass, PassPrefix};

use crate::Sides;
use crate::routing::route;
use host_keep::Keeper;
use zw_base::{Draw, List, NoMemory};
use zw_text::Entry;

/// The most passes of a settling.
const PASSES: u32 = 64;

impl Sides {
    /// The host submits what it may, and then bytes move, pass after pass, until none moves or there were 64 passes.
    pub fn settle<D: Draw, P: Keeper>(
        &mut self,
        draw: &mut D,
        keeper: &mut P,
        out: &mut List<Entry>,
    ) -> Result<(), NoMemory>
        ensures ok { OnOk result ((keys : Keys) (ds : Items State) →
            Does Settles (scene_of keys self.old.host self.old.outer ds (P.shelf keeper.old) out.old.items)
            (scene_of keys self.new.host self.new.outer ds (P.shelf keeper.new) out.new.items)) }
        ensures err { OnErr result ((keys : Keys) (ds : Items State) →
            Stops SettlesPrefix (scene_of keys self.old.host self.old.outer ds (P.shelf keeper.old) out.old.items)
            (scene_of keys self.new.host self.new.outer ds (P.shelf keeper.new) out.new.items)) }
        ensures never_fewer { P.number keeper.old ≤ P.number keeper.new }
        ensures reads { P.reads keeper.new ≡ P.reads keeper.old }
    {
        self.pump(draw, keeper, out)?;
        self.pass_all(draw, keeper, out)
    }

    // The passes.
    fn pass_all<D: Draw, P: Keeper>(
        &mut self,
        draw: &mut D,
        keeper: &mut P,
        out: &mut List<Entry>,
    ) -> Result<(), NoMemory>
        ensures ok { OnOk result ((keys : Keys) (ds : Items State) →
            Does (Passes 64) (scene_of keys self.old.host self.old.outer ds (P.shelf keeper.old) out.old.items)
            (scene_of keys self.new.host self.new.outer ds (P.shelf keeper.new) out.new.items)) }
        ensures err { OnErr result ((keys : Keys) (ds : Items State) →
            Stops (PassesPrefix 64)
            (scene_of keys self.old.host self.old.outer ds (P.shelf keeper.old) out.old.items)
            (scene_of keys self.new.host self.new.outer ds (P.shelf keeper.new) out.new.items)) }
        ensures never_fewer { P.number keeper.old ≤ P.number keeper.new }
        ensures reads { P.reads keeper.new ≡ P.reads keeper.old }
    {
        for _ in 0..PASSES {
            if !self.pass(draw, keeper, out)? {
                return Ok(());
            }
        }
        Ok(())
    }

    // A pass: bytes move to the chip and to the host, and then the host pumps. The answer is whether any byte moved.
    fn pass<D: Draw, P: Keeper>(
        &mut self,
        draw: &mut D,
        keeper: &mut P,
        out: &mut List<Entry>,
    ) -> Result<bool, NoMemory>
        ensures ok { IfOk result (λ moved. (keys : Keys) (ds : Items State) →
            Does (Pass moved) (scene_of keys self.old.host self.old.outer ds (P.shelf keeper.old) out.old.items)
            (scene_of keys self.new.host self.new.outer ds (P.shelf keeper.new) out.new.items)) }
        ensures err { OnErr result ((keys : Keys) (ds : Items State) →
            Stops PassPrefix (scene_of keys self.old.host self.old.outer ds (P.shelf keeper.old) out.old.items)
            (scene_of keys self.new.host self.new.outer ds (P.shelf keeper.new) out.new.items)) }
        ensures never_fewer { P.number keeper.old ≤ P.number keeper.new }
        ensures reads { P.reads keeper.new ≡ P.reads keeper.old }
    {
        let moved = self.move_bytes(draw, keeper, out)?;
        self.pump(draw, keeper, out)?;
        Ok(moved)
    }

    // The host pumps.
    fn pump<D: Draw, P: Keeper>(
        &mut self,
        draw: &mut D,
        keeper: &mut P,
        out: &mut List<Entry>,
    ) -> Result<(), NoMemory>
        ensures ok { OnOk result ((keys : Keys) (ds : Items State) →
            Does IsPump (scene_of keys self.old.host self.old.outer ds (P.shelf keeper.old) out.old.items)
            (scene_of keys self.new.host self.new.outer ds (P.shelf keeper.new) out.new.items)) }
        ensures err { OnErr result ((keys : Keys) (ds : Items State) →
            Stops Nothing (scene_of keys self.old.host self.old.outer ds (P.shelf keeper.old) out.old.items)
            (scene_of keys self.new.host self.new.outer ds (P.shelf keeper.new) out.new.items)) }
        ensures never_fewer { P.number keeper.old ≤ P.number keeper.new }
        ensures reads { P.reads keeper.new ≡ P.reads keeper.old }
    {
        let mut outs = List::new(self.alloc);
        self.host.pump(draw, &mut outs, keeper)?;
        route(self.alloc, outs, &mut self.outer, out)
    }
}
