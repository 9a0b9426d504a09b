//! The changes of devices.

ghost use Rattle.std.specs.Prelude.{◌≡◌, ◌∷◌, ◌<◌, List as Items, Some, not, IfOk, OnOk};
ghost use Rattle.zw_base.specs.declared.property.Setting.{Setting};
ghost use Rattle.audit_books.specs.Accepting.{order_at, to_node};
ghost use Rattle.audit_books.specs.Changing.{
  IsChangingAfter,
  breaks_by_session,
  breaks_change,
  breaks_command,
  breaks_dev,
  breaks_ending,
  command_of,
  greatest_after,
  greatest_of,
  has_changed,
  is_asked,
  no_changes,
};
ghost use Rattle.audit_books.specs.Ending.{ending_in};
ghost use Rattle.audit_books.specs.Groups.{IsFollowing, IsGroup, maker_at, maker_by};

use crate::endings::Endings;
use crate::group::{Maker, is_change, is_made_by, maker_of};
use crate::orders::Orders;
use crate::sessions::{PLACES, Sessions};
use std::alloc::Global;
use std::collections::BTreeSet;
use std::marker::Model;
use zw_base::{By, NoMemory, NodeId, Setting};
use zw_text::{Ended, Entry};

/// How many kinds of devices there are.
const KINDS: u8 = 8;
/// Nodes whose number leaves this modulo 8 have a device that takes a Set without Supervision.
const RELAYS: u8 = 1;

/// The changes by sessions so far.
#[derive(Drop)]
pub struct Changes {
    alloc: Global,
    /// The greatest session of each node that changed its device.
    greatest: Vec<u64>,
    /// The commands whose sessions changed a device.
    changed: BTreeSet<u32>,
    /// What made the setting that the last entry shows.
    maker: Option<Maker>,
}

impl Model for Changes {
    ghost use Rattle.std.specs.Prelude.{◌≡◌, length};
    ghost use Rattle.audit_books.specs.Changing.{Changing};

    ghost Value = { Changing };

    ghost view = { λ c. record { greatest = c.greatest.items; commands = c.changed.keys; maker = c.maker } };

    ghost invariant = { λ c. length c.greatest.items ≡ 233 };
}

/// Whether an ending breaks the rule, where the command's session has changed a device or not.
fn breaks_out(changed: bool, ended: Ended) -> bool
    ensures { result ≡ breaks_ending changed ended }
{
    match ended {
        Ended::Success => !changed,
        Ended::Fail | Ended::NoSupport | Ended::Cancelled => changed,
        Ended::Unanswered => false,
    }
}

/// The command that a session carries.
fn command_by(sessions: &Sessions, maker: &Option<Maker>) -> Option<u32>
    ensures { result ≡ command_of sessions.now maker.now }
{
    match maker {
        Some(maker) => sessions.command(maker.node, maker.session),
        None => None,
    }
}

/// Whether the change that begins with this setting is one that the command may not make: it has failed, is not for the node,
/// or asks for something else.
fn breaks_order(
    alloc: Global,
    orders: &Orders,
    maker: &Maker,
    command: u32,
    setting: Setting,
    rest: &[u8],
) -> Result<bool, NoMemory>
    ensures { IfOk result (λ broken. (following : Items Setting) → IsGroup maker.now rest.now following →
        broken ≡ not (is_asked (to_node maker.now.node (order_at orders.now command)) (setting ∷ following))) }
{
    match orders.get(command) {
        Some(order) => {
            if order.node == maker.node {
                Ok(!is_change(alloc, order, maker, setting, rest)?)
            } else {
                Ok(true)
            }
        }
        None => Ok(true),
    }
}

/// Whether the change that begins with this setting is one that the command may not make, where there is one.
fn breaks_by_command(
    alloc: Global,
    orders: &Orders,
    endings: &Endings,
    maker: &Maker,
    command: Option<u32>,
    setting: Setting,
    rest: &[u8],
) -> Result<bool, NoMemory>
    ensures { IfOk result (λ broken. (following : Items Setting) → IsGroup maker.now rest.now following →
        broken ≡ breaks_command command (λ of. (ending_in endings.now of).has_failed)
        (λ of. to_node maker.now.node (order_at orders.now of)) (setting ∷ following)) }
{
    match command {
        Some(command) => {
            if endings.get(command).has_failed {
                Ok(true)
            } else {
                breaks_order(alloc, orders, maker, command, setting, rest)
            }
        }
        None => Ok(true),
    }
}

impl Changes {
    /// No changes.
    #[tactic(auto, unfolding(crate::specs::Changing::none_yet))]
    pub fn new(alloc: Global) -> Result<Changes, NoMemory>
        ensures { IfOk result (λ changes. changes ≡ no_changes) }
    {
        let mut greatest = Vec::with_capacity(alloc, PLACES)?;
        for _ in 0..PLACES {
            greatest.push(0)?;
        }
        Ok(Changes {
            alloc,
            greatest,
            changed: BTreeSet::new(alloc),
            maker: None,
        })
    }

    fn greatest(&self, node: NodeId) -> u64
        ensures { result ≡ greatest_of self.now.greatest node }
    {
        self.greatest[usize::from(node.number())]
    }

    /// Whether a session of the command changed a device.
    fn has_changed(&self, command: u32) -> bool
        ensures { result ≡ has_changed self.now.commands command }
    {
        self.changed.contains(&command)
    }

    /// Whether a setting that a session makes, after which that text stands, breaks the rule.
    fn breaks_setting(
        &self,
        orders: &Orders,
        endings: &Endings,
        sessions: &Sessions,
        maker: &Maker,
        setting: Setting,
        rest: &[u8],
    ) -> Result<bool, NoMemory>
        ensures { IfOk result (λ broken. (following : Items Setting) → IsGroup maker.now rest.now following →
            broken ≡ breaks_by_session self.now orders.now (ending_in endings.now) sessions.now maker.now (setting ∷ following)) }
    {
        if is_made_by(&self.maker, maker) {
            return Ok(false);
        }
        if maker.session <= self.greatest(maker.node) {
            return Ok(true);
        }
        let command = sessions.command(maker.node, maker.session);
        breaks_by_command(self.alloc, orders, endings, maker, command, setting, rest)
    }

    /// Whether a setting of a device, after which that text stands, breaks the rule.
    fn breaks_dev(
        &self,
        orders: &Orders,
        endings: &Endings,
        sessions: &Sessions,
        node: NodeId,
        by: By,
        setting: Setting,
        rest: &[u8],
    ) -> Result<bool, NoMemory>
        ensures { IfOk result (λ broken. (following : Items Setting) → IsFollowing (maker_by node by) rest.now following →
            broken ≡ breaks_dev self.now orders.now (ending_in endings.now) sessions.now node by (setting ∷ following)) }
    {
        match by {
            By::Session(session) => {
                let maker = Maker { node, session };
                self.breaks_setting(orders, endings, sessions, &maker, setting, rest)
            }
            By::Local => Ok(false),
            By::Plain => Ok(node.number() % KINDS != RELAYS),
        }
    }

    /// Whether the entry, after which that text stands, breaks the rule that each command changes its device at most
    /// once, and as it asks.
    pub fn breaks(
        &self,
        orders: &Orders,
        endings: &Endings,
        sessions: &Sessions,
        entry: &Entry,
        rest: &[u8],
    ) -> Result<bool, NoMemory>
        ensures { IfOk result (λ broken. (following : Items Setting) → IsFollowing (maker_at entry.now) rest.now following →
            broken ≡ breaks_change self.now orders.now (ending_in endings.now) sessions.now entry.now following) }
    {
        match entry {
            Entry::Dev { node, by, setting } => {
                self.breaks_dev(orders, endings, sessions, *node, *by, *setting, rest)
            }
            Entry::Out { command, ended } => Ok(breaks_out(self.has_changed(*command), *ended)),
            _ => Ok(false),
        }
    }

    /// The session that made a setting is the greatest of its node, unless a greater one was before.
    fn raise(&mut self, maker: &Maker)
        ensures { self.new ≡ record self.old { greatest = greatest_after self.old.greatest (Some maker.now) } }
    {
        let place = usize::from(maker.node.number());
        let before = self.greatest[place];
        self.greatest[place] = before.max(maker.session);
    }

    /// Takes the next entry.
    pub fn take(&mut self, sessions: &Sessions, entry: &Entry) -> Result<(), NoMemory>
        ensures { OnOk result (IsChangingAfter self.old sessions.now entry.now self.new) }
    {
        let maker = maker_of(entry);
        if let Some(command) = command_by(sessions, &maker) {
            self.changed.insert(command)?;
        }
        if let Some(by) = &maker {
            self.raise(by);
        }
        self.maker = maker;
        Ok(())
    }
}
