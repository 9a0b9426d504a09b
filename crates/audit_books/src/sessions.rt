//! The sessions of each node.

ghost use Rattle.std.specs.Prelude.{◌≡◌, ◌+◌, ◌==◌, length, IfOk, OnOk};
ghost use Rattle.audit_books.specs.Beginning.{breaks_rule, command_at, follows, no_sessions, sessions_after, sessions_of};
ghost use Rattle.audit_books.specs.Ending.{ending_in};

use crate::endings::Endings;
use crate::orders::Orders;
use std::alloc::Global;
use std::marker::Model;
use zw_base::{NoMemory, NodeId};
use zw_text::Entry;

/// One place for each node number from 0 to 232; that of 0 is never used.
pub const PLACES: usize = 233;

/// The commands that the sessions of each node carry, in order.
#[derive(Drop)]
pub struct Sessions {
    nodes: Vec<Vec<u32>>,
}

impl Model for Sessions {
    ghost use Rattle.std.specs.Prelude.{◌≡◌, ℕ, List, length, map};

    ghost Value = { List (List ℕ) };

    ghost view = { λ s. map (λ commands. commands.items) s.nodes.items };

    ghost invariant = { λ s. length s.nodes.items ≡ 233 };
}

/// Whether the number is the next after so many.
fn is_next(number: u64, count: u64) -> bool
    ensures { result ≡ (number == count + 1) }
{
    number > 0 && number - 1 == count
}

impl Sessions {
    /// No sessions.
    #[tactic(auto, unfolding(crate::specs::Beginning::no_sessions))]
    pub fn new(alloc: Global) -> Result<Sessions, NoMemory>
        ensures { IfOk result (λ sessions. sessions ≡ no_sessions) }
    {
        let mut nodes = Vec::with_capacity(alloc, PLACES)?;
        for _ in 0..PLACES {
            nodes.push(Vec::new(alloc))?;
        }
        Ok(Sessions { nodes })
    }

    /// The commands of the sessions of a node.
    pub fn of(&self, node: NodeId) -> &[u32]
        ensures { result.now ≡ sessions_of self.now node }
    {
        self.nodes[usize::from(node.number())].as_slice()
    }

    /// How many sessions of the node have begun.
    pub fn count(&self, node: NodeId) -> u64
        ensures { result ≡ length (sessions_of self.now node) }
    {
        self.of(node).len() as u64
    }

    /// The command that the session of that number carries; sessions count from 1.
    pub fn command(&self, node: NodeId, session: u64) -> Option<u32>
        ensures { result ≡ command_at (sessions_of self.now node) session }
    {
        if session == 0 {
            return None;
        }
        match self.of(node).get(session as usize - 1) {
            Some(command) => Some(*command),
            None => None,
        }
    }

    /// Whether the command may follow that of the last session: that is an earlier one, and has come to its end.
    fn may_follow(&self, endings: &Endings, node: NodeId, command: u32) -> bool
        ensures { result ≡ follows (ending_in endings.now) (command_at (sessions_of self.now node) (length (sessions_of self.now node))) command }
    {
        match self.command(node, self.count(node)) {
            Some(last) => last < command && endings.get(last).is_final,
            None => true,
        }
    }

    /// Whether the entry breaks the rule of sessions.
    pub fn breaks(&self, orders: &Orders, endings: &Endings, entry: &Entry) -> bool
        ensures { result ≡ breaks_rule self.now orders.now (ending_in endings.now) entry.now }
    {
        match entry {
            Entry::Accepted { command, .. } => !is_next(u64::from(*command), orders.count()),
            Entry::Begin {
                node,
                session,
                command,
            } => {
                !(is_next(*session, self.count(*node))
                    && (orders.is_for(*command, *node)
                        && self.may_follow(endings, *node, *command)))
            }
            _ => false,
        }
    }

    /// Takes the next entry.
    pub fn take(&mut self, entry: &Entry) -> Result<(), NoMemory>
        ensures { OnOk result (self.new ≡ sessions_after self.old entry.now) }
    {
        if let Entry::Begin { node, command, .. } = entry {
            self.nodes[usize::from(node.number())].push(*command)?;
        }
        Ok(())
    }
}
