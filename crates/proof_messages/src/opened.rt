//! What the host seals, and what it opens.

ghost use Rattle.std.specs.Prelude.{◌≡◌, ℕ, List, Some, length};
ghost use Rattle.s0_crypto.specs.declared.key_pair.Keys.{Keys};
ghost use Rattle.s0_session.specs.Nonces.{account_of};
ghost use Rattle.host_heard.specs.Telling.{heard_at};
ghost use Rattle.host_heard.specs.declared.payload.Heard.TheVariants.{Messages};
ghost use Rattle.host_heard.specs.declared.told.Told.{Told};
ghost use Rattle.host_node.specs.State.{NodeState, SealsText, ends_to};
ghost use Rattle.host_model.specs.State.{HostState};
ghost use Rattle.host_model.specs.Events.{HostEvent};
ghost use Rattle.host_model.specs.Taking.{PayloadEvents, ends_from};
ghost use Rattle.proof_course.specs.HostNonces as host;
ghost use Rattle.proof_course.specs.NonceLaws.{NamesGiven};
ghost use Rattle.proof_messages.specs.Numbers.{IsNonce, HasGiven};
ghost use Rattle.proof_messages.specs.Payloads.{IsSealed};
ghost use Rattle.proof_messages.specs.Opened.{OpensAs};

/// A message of a node that was sealed for a nonce of the host's is opened where it names the live one, and tells what its plain text
/// tells; else it is not read. That the live nonce is named only by what was sealed for it is assumed here, as the courses have it.
pub fn hosts_open_what_was_sealed()
    ensures opens { (h : HostState) (n : ℕ) (nonces : List (List ℕ)) (c : host.Nonces) (number : ℕ) (plain payload : List ℕ)
        (messages : List Told) (events : List HostEvent) →
        HasGiven nonces c.given c.is_live (account_of h.nonces n) → IsSealed h.keys (ends_from n) nonces number plain payload →
        NamesGiven c number → heard_at plain ≡ Messages messages →
        PayloadEvents h n payload (heard_at payload) events → OpensAs h n payload messages events (host.names c number) }
{}

/// What the host seals for a nonce of a node is the plain text that waits, sealed for the nonce of that number. Its own nonce has eight
/// bytes wherever the same text was sealed under some eight.
pub fn hosts_seal_what_waits()
    ensures seals { (n : NodeState) (keys : Keys) (own other nonce another text : List ℕ) (nonces : List (List ℕ)) (number : ℕ) →
        SealsText n keys own nonce text →
        SealsText n keys other another text → length other ≡ 8 → IsNonce nonces number nonce → (plain : List ℕ) ×
        ((n.pending ≡ Some plain) × IsSealed keys (ends_to n.node) nonces number plain text) }
{}
