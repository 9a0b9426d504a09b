//! Rules of the chip alone, which follow from its events.

ghost use Rattle.std.specs.Prelude.{◌≡◌, ℕ, ◌≤◌, ◌↔◌, List, ◌++◌, length, map, filter, replicate, true, IsTrue, Option, Some, None};
ghost use Rattle.route_table.specs.declared.route.Route.{Route};
ghost use Rattle.serial_frame.specs.Frame.{FrameParts};
ghost use Rattle.serial_frame.specs.declared.item.Item.{Item};
ghost use Rattle.chip_functions.specs.declared.request.Request.{Request};
ghost use Rattle.serial_link.specs.Rules.{SideObeys};
ghost use Rattle.chip_sim.specs.Did.{outs_all};
ghost use Rattle.chip_sim.specs.Link.{link_steps, chip_units, link_units};
ghost use Rattle.chip_sim.specs.State.{ChipState, fresh_chip};
ghost use Rattle.chip_sim.specs.Answers.{takes};
ghost use Rattle.chip_sim.specs.Nodes.{is_marked};
ghost use Rattle.chip_sim.specs.Requests.{passed, asked, heard, reply_to};
ghost use Rattle.chip_sim.specs.Events.{ChipEvent, Judged, collides, outs};
ghost use Rattle.chip_sim.specs.Rules.{
  Always,
  over,
  listed,
  WaitsWell,
  posts,
  kept,
  begun_at,
  taken,
  called,
  done,
  starts,
  asks,
  drops,
  is_start,
  is_ask,
  is_drop,
};

/// What each event puts out beside units, whatever the chip is.
pub fn rules_of_events()
    // A SendData is taken exactly where the chip is idle, the node joined, and the payload of 1 to 46 bytes.
    ensures takes { (s : ChipState) (n : ℕ) (payload : List ℕ) →
        IsTrue (takes s n payload) ↔ ((s.sending ≡ None) × IsTrue (is_marked s.joined n) × (1 ≤ length payload) × (length payload ≤ 46)) }
    // What goes on the air is the payload of a SendData that is taken, over its way.
    ensures starts { (s : ChipState) (e : ChipEvent) → filter is_start (outs s e) ≡ starts s e }
    // Each SendData that is taken goes on the air, or has no route: one of both.
    ensures begins { (s : ChipState) (e : ChipEvent) → length (starts s e) ≡ length (taken s e) }
    // Each request that is passed up has its frame for the host given in the same event.
    ensures replies { (s : ChipState) (item : Item) (way : Option Route) (f : FrameParts) (request : Request) →
        passed (collides s) item ≡ Some f → asked f ≡ Some request → posts s (Judged item way) ≡ listed (reply_to (heard s item) request) }
    // Each RequestNodeInfo gives one `AskInfo`.
    ensures asks { (s : ChipState) (e : ChipEvent) → filter is_ask (outs s e) ≡ asks s e }
{}

/// What holds over every history of events that may happen from the beginning on.
pub fn rules_of_histories()
    // A frame waits only while the link is busy, and at most 32 do.
    ensures waits { Always (λ events s. WaitsWell s.port) }
    // `Full` comes exactly where 32 wait, for the frame that is dropped.
    ensures drops { Always (λ events s. (e : ChipEvent) → filter is_drop (outs s e) ≡ drops s e) }
    // The frames that were not dropped went to the link in their order, each once, and the rest of them wait.
    ensures served { Always (λ events s. over kept fresh_chip events ≡ over begun_at fresh_chip events ++ s.port.waiting) }
    // The link obeys the rules of the serial link, and what the chip writes is what its link puts out.
    ensures link { Always (λ events s. SideObeys (over link_steps fresh_chip events) s.port.side) }
    ensures units { Always (λ events s. chip_units (outs_all fresh_chip events) ≡ link_units (over link_steps fresh_chip events)) }
    // The callbacks are those of the SendData taken, in their order, each once; the one under way has none yet.
    ensures callbacks { Always (λ events s. over taken fresh_chip events ≡ map (λ c. c.sending) (over called fresh_chip events) ++ listed s.sending) }
    // The calls of `done` come in the same order: that of one that was aborted is passed over, that of another gives its callback.
    ensures calls { Always (λ events s. map (λ c. c.aborted) (over called fresh_chip events) ≡ over done fresh_chip events ++ replicate s.aborted true) }
{}
