//! Which requests the chip takes.

ghost use Rattle.std.specs.Prelude.{◌≡◌, ◌≤◌, List, None, length, true, ℕ};
ghost use Rattle.chip_functions.specs.Field.{IsNode};
ghost use Rattle.chip_sim.specs.Nodes.{is_marked};
ghost use Rattle.chip_sim.specs.State.{ChipState};
ghost use Rattle.host_requests.specs.Frames.{frame_of, request_of, send};
ghost use Rattle.host_requests.specs.declared.task.Purpose.{Purpose};
ghost use Rattle.proof_calm.specs.Passes.{IsTakenBy};

/// The chip takes the payload of each request that asks to send one of 1 to 46 bytes to a joined node, where it sends nothing.
pub fn the_chip_takes_payloads()
    ensures { (s : ChipState) (purpose : Purpose) (n : ℕ) (payload : List ℕ) (id : ℕ) → request_of purpose id ≡ send n payload id → IsNode n →
        1 ≤ length payload → length payload ≤ 46 → 1 ≤ id → id ≤ 255 → s.sending ≡ None → is_marked s.joined n ≡ true →
        IsTakenBy s (frame_of purpose id) }
{}
