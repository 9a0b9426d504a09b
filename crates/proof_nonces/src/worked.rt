//! A worked transcript, and rejected ones.

ghost use Rattle.s0_crypto.specs.Sealing.{keys_of};
ghost use Rattle.s0_crypto.specs.declared.key_pair.Keys.{Keys};
ghost use Rattle.law_transcript.specs.Worked.{network_key, sealed_exchange};
ghost use Rattle.proof_notes.specs.proof_known.law_host.Worked.{nonce_again};
ghost use Rattle.proof_nonces.specs.Giving.{CountsNonces};
ghost use Rattle.proof_nonces.specs.Sealing.{SealsOnce};
ghost use Rattle.proof_nonces.specs.Worked.{believed_unopened};

/// A lock is asked for a nonce twice, tells one, and a command is sealed for it.
pub fn worked_seals()
    ensures { SealsOnce (keys_of network_key) sealed_exchange }
{}

/// The law is broken where the next attempt of a command is sealed for the nonce for which the one before was sealed.
pub fn rejected_seals()
    ensures { (keys : Keys) → SealsOnce keys nonce_again → ⊥ }
{}

/// The law is broken where a value is noted of a payload that begins as what is sealed, and is too short to open.
pub fn rejected_counts()
    ensures { (keys : Keys) → CountsNonces keys believed_unopened → ⊥ }
{}
