//! What is kept of the nonces for one node.

ghost use Rattle.std.specs.Prelude.{◌≡◌, ◌+◌, ◌^◌, ◌<◌, slice_index, IfSome};

/// The nonces for one node: how many were given, and the one that is live.
#[derive(Clone, Copy, Debug, PartialEq, Eq)]
pub struct Account {
    given: u64,
    live: Option<[u8; 8]>,
}

impl Account {
    ghost use Rattle.s0_session.specs.Nonces.{unused, nonce_given, after_give, nonce_spent, after_spend, restored_account};

    /// No nonce was given.
    pub fn new() -> Account
        ensures { result ≡ unused }
    {
        Account {
            given: 0,
            live: None,
        }
    }

    /// So many nonces were given, and this one is live.
    pub(crate) fn restored(given: u64, live: Option<[u8; 8]>) -> Account
        ensures { result ≡ restored_account given live }
    {
        Account { given, live }
    }

    /// How many nonces were given.
    pub fn given(&self) -> u64
        ensures { result ≡ self.now.given }
    {
        self.given
    }

    /// The nonce that is live.
    pub(crate) fn live(&self) -> Option<[u8; 8]>
        ensures { result ≡ self.now.live }
    {
        self.live
    }

    /// The live nonce, or a new one, which is live then.
    pub fn give(&mut self, drawn: [u8; 8]) -> [u8; 8]
        requires { self.old.given + 1 < 2 ^ 64 }
        ensures answer { result ≡ nonce_given self.old drawn }
        ensures after { self.new ≡ after_give self.old drawn }
    {
        if let Some(nonce) = self.live {
            return nonce;
        }
        self.given += 1;
        let mut nonce = drawn;
        nonce[0] = (self.given % 256) as u8;
        self.live = Some(nonce);
        nonce
    }

    /// The live nonce, if it has that first byte; it is live no more.
    pub fn spend(&mut self, first: u8) -> Option<[u8; 8]>
        ensures answer { result ≡ nonce_spent self.old first }
        ensures named { IfSome result (λ nonce. slice_index nonce 0 ≡ first) }
        ensures after { self.new ≡ after_spend self.old first }
    {
        let nonce = self.live?;
        if nonce[0] != first {
            return None;
        }
        self.live = None;
        Some(nonce)
    }
}
