//! How many new nonces the frames between node 1 and a node have shown.

ghost use Rattle.std.specs.Prelude.{◌≡◌, ◌≢◌, ℕ, ◌+◌, ◌-◌, ◌<◌, ◌≤◌, List, [], ◌∷◌, ◌++◌, None, true};
ghost use Rattle.air_frames.specs.declared.frame.Departure.{Departure};
ghost use Rattle.air_frames.specs.declared.frame.Heading.TheVariants.{Outward, Homeward};
ghost use Rattle.air_frames.specs.Ages.{is_class, stale_by};
ghost use Rattle.air_frames.specs.History.{Mark, Goes, Begins};
ghost use Rattle.air_frames.specs.Nonces.{nonce_in};
ghost use Rattle.proof_messages.specs.Payloads.{IsOffer};
ghost use Rattle.proof_messages.specs.Shown.{HasShown};

/// The air counts the nonces of both ends together: each Nonce Report that shows the last nonce again, or the one after it, makes the count
/// the sum of both numbers; nothing else between the two changes it. So a Security 0 frame that is not stale went on the air fewer than 120
/// nonces of either end ago.
pub fn the_air_counts_nonces()
    ensures first { (node : ℕ) → HasShown node [] [] [] 0 0 }
    ensures begins { (node other : ℕ) (log : List Mark) (given shown : List (List ℕ)) (of_node of_host : ℕ) →
        HasShown node log given shown of_node of_host → HasShown node (log ++ Begins other ∷ []) given shown of_node of_host }
    ensures elsewhere { (node : ℕ) (log : List Mark) (given shown : List (List ℕ)) (of_node of_host : ℕ) (d : Departure) →
        HasShown node log given shown of_node of_host → d.node ≢ node →
        HasShown node (log ++ Goes d ∷ []) given shown of_node of_host }
    ensures none { (node : ℕ) (log : List Mark) (given shown : List (List ℕ)) (of_node of_host : ℕ) (d : Departure) →
        HasShown node log given shown of_node of_host → nonce_in d.payload ≡ None →
        HasShown node (log ++ Goes d ∷ []) given shown of_node of_host }
    ensures homeward { (node : ℕ) (log : List Mark) (given shown : List (List ℕ)) (of_node of_host number : ℕ) (d : Departure) →
        HasShown node log given shown of_node of_host → d.node ≡ node → d.heading ≡ Homeward →
        IsOffer given number d.payload → 0 < number → of_node ≤ number → number ≤ of_node + 1 → HasShown node (log ++ Goes d ∷ []) given shown number of_host }
    ensures outward { (node : ℕ) (log : List Mark) (given shown : List (List ℕ)) (of_node of_host number : ℕ) (d : Departure) →
        HasShown node log given shown of_node of_host → d.node ≡ node → d.heading ≡ Outward →
        IsOffer shown number d.payload → 0 < number → of_host ≤ number → number ≤ of_host + 1 → HasShown node (log ++ Goes d ∷ []) given shown of_node number }
    ensures more { (node : ℕ) (log : List Mark) (given shown new other : List (List ℕ)) (of_node of_host : ℕ) →
        HasShown node log given shown of_node of_host → HasShown node log (given ++ new) (shown ++ other) of_node of_host }
    ensures fresh { (payload : List ℕ) (later of_node of_host since_node since_host : ℕ) → is_class payload 0x98 ≡ true →
        since_node ≤ of_node → since_host ≤ of_host →
        stale_by payload later ((of_node + of_host) - (since_node + since_host)) ≡ None → (of_node < since_node + 120) × (of_host < since_host + 120) }
{}
