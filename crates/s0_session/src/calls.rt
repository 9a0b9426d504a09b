//! Laws of any calls of a book.

ghost use Rattle.std.specs.Prelude.{◌≡◌, ◌+◌, ◌<◌, ◌≤◌, ℕ, List, length};
ghost use Rattle.s0_session.specs.declared.account.Account.{Account as TheAccount};
ghost use Rattle.s0_session.specs.Nonces.{given_of};
ghost use Rattle.s0_session.specs.Calls.{Call, after_calls, news, spends, losses, restores, live_count};

/// Whatever the calls, the nonces spent, those lost to a `restore` and the live one are the live one before and the new
/// ones: each new nonce is spent once, or lost, or live. One that a `restore` brings back counts as new.
pub fn each_nonce_is_spent_once_or_live()
    ensures { (node : ℕ) (book : List TheAccount) (calls : List Call) → node < length book
        → spends node book calls + losses node book calls + live_count node (after_calls book calls) ≡ live_count node book + news node book calls }
{}

/// Between two new nonces for a node, whatever the calls, at most one `spend` for it answers `Some`.
pub fn at_most_one_is_spent_between_new_ones()
    ensures { (node : ℕ) (book : List TheAccount) (calls : List Call) → node < length book
        → news node book calls ≡ 0 → spends node book calls ≤ 1 }
{}

/// The count of a node rises by one with each new nonce for it, and not otherwise, while no `restore` sets it.
pub fn new_nonces_are_counted()
    ensures { (node : ℕ) (book : List TheAccount) (calls : List Call) → node < length book
        → restores node calls ≡ 0 → given_of (after_calls book calls) node ≡ given_of book node + news node book calls }
{}
