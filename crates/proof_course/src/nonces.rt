//! What holds of nonces on their way.

ghost use Rattle.std.specs.Prelude.{◌≡◌, ℕ, ◌+◌, ◌<◌, List, ◌∷◌, Some, slice_get};
ghost use Rattle.proof_course.specs.Flying.{Flight};
ghost use Rattle.proof_course.specs.NodeNonces as node;
ghost use Rattle.proof_course.specs.NodeNonceFacts.{NonceFacts as NodeFacts};
ghost use Rattle.proof_course.specs.HostNonces as host;
ghost use Rattle.proof_course.specs.HostNonceFacts.{NonceFacts as HostFacts};
ghost use Rattle.proof_course.specs.NonceLaws.{NamesLive, TakesIt, TakesOffer, NamesGiven};

/// The facts of the nonces that a node gives hold where nothing has happened, and every step that may happen keeps them.
pub fn nonces_of_nodes_keep_facts()
    ensures first { NodeFacts node.first_nonces }
    ensures each { (c : node.Nonces) (step : node.Step) → NodeFacts c → node.May c step → NodeFacts (node.after c step) }
    ensures all { (c : node.Nonces) (steps : List node.Step) → NodeFacts c → node.MayAll c steps → NodeFacts (node.after_all c steps) }
{}

/// So do those of the nonces that the host gives.
pub fn nonces_of_the_host_keep_facts()
    ensures first { HostFacts host.first_nonces }
    ensures each { (c : host.Nonces) (step : host.Step) → HostFacts c → host.May c step → HostFacts (host.after c step) }
    ensures all { (c : host.Nonces) (steps : List host.Step) → HostFacts c → host.MayAll c steps → HostFacts (host.after_all c steps) }
{}

/// A first byte names one nonce of a node: at the node the live one, where a message is heard for the first time or while it is fresh; at the
/// host the one that it judges next.
pub fn first_bytes_name_one_of_the_node()
    ensures landing { (c : node.Nonces) (number since : ℕ) (later : List (Flight node.Cargo)) → NodeFacts c →
        c.air ≡ record { cargo = node.Sealed number; since = since } ∷ later → NamesLive c number }
    ensures repeated { (c : node.Nonces) (number since at : ℕ) → NodeFacts c →
        slice_get c.old at ≡ Some (record { cargo = node.Sealed number; since = since }) → c.given < since + 120 → NamesLive c number }
    ensures judged { (c : node.Nonces) (number : ℕ) (later : List ℕ) → NodeFacts c → c.down ≡ number ∷ later → TakesIt c number }
{}

/// And one of the host: at the node the one that it hears for the first time or while it is fresh; at the host the live one, where it judges a message.
pub fn first_bytes_name_one_of_the_host()
    ensures landing { (c : host.Nonces) (number since : ℕ) (later : List (Flight host.Cargo)) → HostFacts c →
        c.air ≡ record { cargo = host.Offer number; since = since } ∷ later → TakesOffer c number }
    ensures repeated { (c : host.Nonces) (number since at : ℕ) → HostFacts c →
        slice_get c.old at ≡ Some (record { cargo = host.Offer number; since = since }) → c.shown < since + 120 → TakesOffer c number }
    ensures judged { (c : host.Nonces) (number : ℕ) (later : List ℕ) → HostFacts c → c.down ≡ number ∷ later → NamesGiven c number }
{}
