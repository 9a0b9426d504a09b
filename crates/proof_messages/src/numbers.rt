//! Nonces by their numbers, at the end that gives them and at the end that seals for them.

ghost use Rattle.std.specs.Prelude.{◌≡◌, ℕ, ◌&&◌, not, Bool, List, [], ◌++◌, Option, Some, None, true, false, length, slice_index, is_some};
ghost use Rattle.s0_session.specs.declared.account.Account.{Account};
ghost use Rattle.s0_session.specs.Nonces.{nonce_given, after_give, nonce_spent, after_spend, unused};
ghost use Rattle.s0_session.specs.Sending.{taken_from};
ghost use Rattle.proof_course.specs.NodeNonces as node;
ghost use Rattle.proof_course.specs.NodeNonces.{taken_as};
ghost use Rattle.proof_course.specs.NonceLaws.{NamesLive, NamesGiven};
ghost use Rattle.proof_course.specs.HostNonces as host;
ghost use Rattle.proof_messages.specs.Numbers.{IsNonce, HasGiven, with_given};

/// An account gives a nonce as the courses do: where none is live, the next one by its number, which it keeps; else the live one again.
pub fn accounts_give_as_the_courses_do()
    ensures first { HasGiven [] 0 false unused }
    ensures node { (nonces : List (List ℕ)) (c : node.Nonces) (account : Account) (drawn : List ℕ) → length drawn ≡ 8 →
        HasGiven nonces c.given c.is_live account →
        HasGiven (with_given nonces account drawn) (node.after c node.Gives).given (node.after c node.Gives).is_live (after_give account drawn) }
    ensures host { (nonces : List (List ℕ)) (c : host.Nonces) (account : Account) (drawn : List ℕ) → length drawn ≡ 8 →
        HasGiven nonces c.given c.is_live account →
        HasGiven (with_given nonces account drawn) (host.after c host.Gives).given (host.after c host.Gives).is_live (after_give account drawn) }
    ensures offered { (nonces : List (List ℕ)) (given : ℕ) (live : Bool) (account : Account) (drawn : List ℕ) →
        HasGiven nonces given live (after_give account drawn) → IsNonce nonces given (nonce_given account drawn) }
{}

/// A message that names a nonce by its first byte spends what the courses say that it spends. Where it names the live one, and this is the
/// one that it was sealed for, it is found; where it names none, none is.
pub fn accounts_spend_as_the_courses_do()
    ensures node { (nonces : List (List ℕ)) (c : node.Nonces) (number : ℕ) (account : Account) (nonce : List ℕ) →
        HasGiven nonces c.given c.is_live account → IsNonce nonces number nonce →
        HasGiven nonces (node.hears c (node.Sealed number)).given (node.hears c (node.Sealed number)).is_live (after_spend account (slice_index nonce 0)) }
    ensures host { (nonces : List (List ℕ)) (c : host.Nonces) (number : ℕ) (account : Account) (nonce : List ℕ) →
        HasGiven nonces c.given c.is_live account → IsNonce nonces number nonce →
        HasGiven nonces c.given (c.is_live && not (host.names c number)) (after_spend account (slice_index nonce 0)) }
    ensures node_found { (nonces : List (List ℕ)) (c : node.Nonces) (number : ℕ) (account : Account) (nonce : List ℕ) →
        HasGiven nonces c.given c.is_live account → IsNonce nonces number nonce →
        NamesLive c number → node.names c number ≡ true → account.live ≡ Some nonce }
    ensures host_found { (nonces : List (List ℕ)) (c : host.Nonces) (number : ℕ) (account : Account) (nonce : List ℕ) →
        HasGiven nonces c.given c.is_live account → IsNonce nonces number nonce →
        NamesGiven c number → host.names c number ≡ true → account.live ≡ Some nonce }
    ensures node_none { (nonces : List (List ℕ)) (c : node.Nonces) (number : ℕ) (account : Account) (nonce : List ℕ) →
        HasGiven nonces c.given c.is_live account → IsNonce nonces number nonce →
        node.names c number ≡ false → nonce_spent account (slice_index nonce 0) ≡ None }
    ensures host_none { (nonces : List (List ℕ)) (c : host.Nonces) (number : ℕ) (account : Account) (nonce : List ℕ) →
        HasGiven nonces c.given c.is_live account → IsNonce nonces number nonce →
        host.names c number ≡ false → nonce_spent account (slice_index nonce 0) ≡ None }
{}

/// A nonce that a sealer is shown is taken for the number that the courses say, where a text waits.
pub fn sealers_take_as_the_courses_do()
    ensures taken { (nonces : List (List ℕ)) (number count : ℕ) (pending : Option (List ℕ)) (nonce : List ℕ) → IsNonce nonces number nonce →
        taken_from pending count (slice_index nonce 0) ≡ taken_as (is_some pending) count number }
    ensures stays { (nonces more : List (List ℕ)) (number : ℕ) (nonce : List ℕ) → IsNonce nonces number nonce → IsNonce (nonces ++ more) number nonce }
    ensures one { (nonces : List (List ℕ)) (number : ℕ) (a b : List ℕ) → IsNonce nonces number a → IsNonce nonces number b → a ≡ b }
{}
