//! Bytes that come to the chip and to the host.

ghost use Rattle.std.specs.Prelude.{◌≡◌, ℕ, ◌≤◌, ◌<◌, ◌&&◌, ◌||◌, ◌∷◌, [], not, nat_lt, take, length, false, List as Items, Option, IfOk, OnOk, OnErr};
ghost use Rattle.s0_crypto.specs.declared.key_pair.Keys.{Keys};
ghost use Rattle.device_sim.specs.State.{State};
ghost use Rattle.host_core.specs.Calls.{scene as host_scene, shelf_of};
ghost use Rattle.outside_model.specs.State.{is_stalled};
ghost use Rattle.outside_model.specs.Events.{Host_takes};
ghost use Rattle.outside_model.specs.Did.{Goes};
ghost use Rattle.world_model.specs.Did.{Does, Nothing, Stops};
ghost use Rattle.world_model.specs.Prefixes.{MovePrefix};
ghost use Rattle.world_step.specs.Scene.{scene_of};
ghost use Rattle.world_step.specs.Moving.{ChipPart, HostPart, Moves, TakesBytes, TakesPrefix};

use crate::Sides;
use crate::routing::route;
use host_keep::Keeper;
use host_model::HostOut;
use outside_calls::Outside;
use zw_base::{Draw, List, NoMemory};
use zw_text::Entry;

/// The most bytes that the host takes at once.
const PIECE: usize = 256;

impl Sides {
    /// Bytes move to the chip, and then to the host. The answer is whether any did.
    pub(crate) fn move_bytes<D: Draw, P: Keeper>(
        &mut self,
        draw: &mut D,
        keeper: &mut P,
        out: &mut List<Entry>,
    ) -> Result<bool, NoMemory>
        ensures ok { IfOk result (λ moved. (keys : Keys) (ds : Items State) →
            Does (Moves moved) (scene_of keys self.old.host self.old.outer ds (P.shelf keeper.old) out.old.items)
            (scene_of keys self.new.host self.new.outer ds (P.shelf keeper.new) out.new.items)) }
        ensures err { OnErr result ((keys : Keys) (ds : Items State) →
            Stops MovePrefix (scene_of keys self.old.host self.old.outer ds (P.shelf keeper.old) out.old.items)
            (scene_of keys self.new.host self.new.outer ds (P.shelf keeper.new) out.new.items)) }
        ensures never_fewer { P.number keeper.old ≤ P.number keeper.new }
        ensures reads { P.reads keeper.new ≡ P.reads keeper.old }
    {
        let chip = self.chip_takes(out)?;
        let host = self.host_takes(draw, keeper, out)?;
        Ok(either(chip, host))
    }

    // The chip takes all bytes that are on their way to it. The answer is whether there were any.
    fn chip_takes(&mut self, out: &mut List<Entry>) -> Result<bool, NoMemory>
        ensures ok { IfOk result (λ moved. (keys : Keys) (ds : Items State) (records : Option (Items (Items ℕ))) (faults : ℕ) →
            Does (ChipPart moved) (scene_of keys self.old.host self.old.outer ds (shelf_of records faults) out.old.items)
            (scene_of keys self.new.host self.new.outer ds (shelf_of records faults) out.new.items)) }
        ensures err { OnErr result (out.new.items ≡ out.old.items) }
    {
        self.outer.chip_takes(out)
    }

    // The host takes all bytes that are on their way to it. The answer is whether there were any.
    fn host_takes<D: Draw, P: Keeper>(
        &mut self,
        draw: &mut D,
        keeper: &mut P,
        out: &mut List<Entry>,
    ) -> Result<bool, NoMemory>
        ensures ok { IfOk result (λ moved. (keys : Keys) (ds : Items State) →
            Does (HostPart moved)
            (scene_of keys self.old.host self.old.outer ds (P.shelf keeper.old) out.old.items)
            (scene_of keys self.new.host self.new.outer ds (P.shelf keeper.new) out.new.items)) }
        ensures err { OnErr result ((keys : Keys) (ds : Items State) →
            Stops Nothing (scene_of keys self.old.host self.old.outer ds (P.shelf keeper.old) out.old.items)
            (scene_of keys self.new.host self.new.outer ds (P.shelf keeper.new) out.new.items)) }
        ensures never_fewer { P.number keeper.old ≤ P.number keeper.new }
        ensures reads { P.reads keeper.new ≡ P.reads keeper.old }
    {
        if !self.has_bytes() {
            return Ok(false);
        }
        let mut outs = List::new(self.alloc);
        self.take_all(draw, keeper, &mut outs)?;
        route(self.alloc, outs, &mut self.outer, out)?;
        Ok(true)
    }

    // Whether any byte moves to the host: none does in a stall.
    fn has_bytes(&self) -> bool
        ensures { result ≡ (not (is_stalled self.now.outer) && nat_lt 0 (length self.now.outer.to_host.bytes)) }
    {
        !self.outer.is_stalled() && self.outer.to_host() > 0
    }

    // The host takes all bytes that are on their way to it, of which there are some.
    fn take_all<D: Draw, P: Keeper>(
        &mut self,
        draw: &mut D,
        keeper: &mut P,
        outs: &mut List<HostOut>,
    ) -> Result<(), NoMemory>
        requires some { 0 < length self.old.outer.to_host.bytes }
        requires moves { is_stalled self.old.outer ≡ false }
        ensures ok { OnOk result (TakesBytes
            (length self.old.outer.to_host.bytes) self.old.host self.new.host self.old.outer self.new.outer outs.old.items outs.new.items
            (host_scene self.old.host.state [] (P.shelf keeper.old)).shelf
            (host_scene self.new.host.state [] (P.shelf keeper.new)).shelf) }
        ensures err { OnErr result (TakesPrefix self.old.host self.new.host self.old.outer outs.old.items outs.new.items
            (host_scene self.old.host.state [] (P.shelf keeper.old)).shelf
            (host_scene self.new.host.state [] (P.shelf keeper.new)).shelf) }
        ensures never_fewer { P.number keeper.old ≤ P.number keeper.new }
        ensures reads { P.reads keeper.new ≡ P.reads keeper.old }
    {
        self.take_piece(draw, keeper, outs)?;
        while self.outer.to_host() > 0 {
            self.take_piece(draw, keeper, outs)?;
        }
        Ok(())
    }

    // The host takes the next piece.
    fn take_piece<D: Draw, P: Keeper>(
        &mut self,
        draw: &mut D,
        keeper: &mut P,
        outs: &mut List<HostOut>,
    ) -> Result<(), NoMemory>
        requires some { 0 < length self.old.outer.to_host.bytes }
        requires moves { is_stalled self.old.outer ≡ false }
        ensures ok { OnOk result ((count : ℕ) × (1 ≤ count)
            × TakesBytes count self.old.host self.new.host self.old.outer self.new.outer outs.old.items outs.new.items
            (host_scene self.old.host.state [] (P.shelf keeper.old)).shelf
            (host_scene self.new.host.state [] (P.shelf keeper.new)).shelf) }
        ensures err { OnErr result (TakesPrefix self.old.host self.new.host self.old.outer outs.old.items outs.new.items
            (host_scene self.old.host.state [] (P.shelf keeper.old)).shelf
            (host_scene self.new.host.state [] (P.shelf keeper.new)).shelf) }
        ensures never_fewer { P.number keeper.old ≤ P.number keeper.new }
        ensures reads { P.reads keeper.new ≡ P.reads keeper.old }
    {
        let mut buffer = [0; PIECE];
        let piece = take_into(&mut self.outer, &mut buffer);
        self.host.feed(piece, draw, outs, keeper)
    }
}

/// Whether bytes moved to either.
fn either(chip: bool, host: bool) -> bool
    ensures { result ≡ (chip || host) }
{
    chip || host
}

/// How many bytes the host takes at once: as many as move at a time, and no more than a piece.
fn most_at_once(outer: &Outside) -> usize
    ensures some { 1 ≤ result }
    ensures to_max { result ≤ PIECE }
{
    let most = outer.piece();
    if most > PIECE { PIECE } else { most }
}

/// Moves the next piece that is on its way to the host into a buffer, and answers with it.
fn take_into<'a>(outer: &mut Outside, buffer: &'a mut [u8; PIECE]) -> &'a [u8]
    requires some { 0 < length outer.old.to_host.bytes }
    requires moves { is_stalled outer.old ≡ false }
    ensures some { 1 ≤ length result.now }
    ensures within { length result.now ≤ length outer.old.to_host.bytes }
    ensures read { result.now ≡ take (length result.now) outer.old.to_host.bytes }
    ensures goes { Goes (Host_takes (length result.now) ∷ []) outer.old outer.new [] [] }
{
    let most = most_at_once(outer);
    let count = outer.take_host(&mut buffer[..most]);
    &buffer[..count]
}
