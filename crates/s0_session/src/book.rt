//! The nonces that one side gives, by node.

ghost use Rattle.std.specs.Prelude.{◌≡◌, ◌+◌, ◌^◌, ◌<◌, replicate, slice_index, slice_set, IfOk, IfSome};
ghost use Rattle.s0_session.specs.Nonces.{
  unused,
  account_of,
  given_of,
  live_of,
  nonce_given,
  after_give,
  nonce_spent,
  after_spend,
  restored_account,
  IsRestorable,
};

use crate::Account;
use s0_crypto::{NoMemory, NodeId};
use std::alloc::Global;
use std::marker::Model;

/// One account for each node number from 0 to 232; that of 0 is never used.
const ACCOUNTS: usize = 233;

/// The nonces given to each node, of which at most one a node is live. Contracts see the account of each node, by its
/// number.
#[derive(Debug, Drop)]
pub struct NonceBook {
    accounts: Vec<Account>,
}

impl Model for NonceBook {
    ghost use Rattle.std.specs.Prelude.{◌≡◌, List, length};
    ghost use Rattle.s0_session.specs.declared.account.Account.{Account};

    ghost Value = { List Account };

    ghost view = { λ b. b.accounts.items };

    ghost invariant = { λ b. length b.accounts.items ≡ 233 };
}

impl NonceBook {
    /// No nonce was given to any node.
    pub fn new(alloc: Global) -> Result<NonceBook, NoMemory>
        ensures { IfOk result (λ book. book ≡ replicate 233 unused) }
    {
        let mut accounts = Vec::with_capacity(alloc, ACCOUNTS)?;
        for _ in 0..ACCOUNTS {
            accounts.push(Account::new())?;
        }
        Ok(NonceBook { accounts })
    }

    /// Answers a Nonce Get of a node, by the live nonce, or by a new one whose last seven bytes are those drawn.
    pub fn give(&mut self, peer: NodeId, drawn: [u8; 8]) -> [u8; 8]
        requires { given_of self.old peer + 1 < 2 ^ 64 }
        ensures answer { result ≡ nonce_given (account_of self.old peer) drawn }
        ensures after { self.new ≡ slice_set self.old peer (after_give (account_of self.old peer) drawn) }
    {
        let peer = peer.number() as usize;
        self.accounts[peer].give(drawn)
    }

    /// The live nonce of a node, if it has the first byte that a message names; it is live no more.
    pub fn spend(&mut self, peer: NodeId, first: u8) -> Option<[u8; 8]>
        ensures answer { result ≡ nonce_spent (account_of self.old peer) first }
        ensures named { IfSome result (λ nonce. slice_index nonce 0 ≡ first) }
        ensures after { self.new ≡ slice_set self.old peer (after_spend (account_of self.old peer) first) }
    {
        let peer = peer.number() as usize;
        self.accounts[peer].spend(first)
    }

    /// How many nonces were given to a node.
    pub fn given(&self, peer: NodeId) -> u64
        ensures { result ≡ given_of self.now peer }
    {
        let peer = peer.number() as usize;
        self.accounts[peer].given()
    }
    /// The nonce of a node that is live.
    pub fn live(&self, peer: NodeId) -> Option<[u8; 8]>
        ensures { result ≡ live_of self.now peer }
    {
        let peer = peer.number() as usize;
        self.accounts[peer].live()
    }

    /// Sets what was kept of a node: how many nonces were given to it, and the one that is live.
    pub fn restore(&mut self, peer: NodeId, given: u64, live: Option<[u8; 8]>)
        requires { IsRestorable given live }
        ensures { self.new ≡ slice_set self.old peer (restored_account given live) }
    {
        let peer = peer.number() as usize;
        self.accounts[peer] = Account::restored(given, live);
    }
}
