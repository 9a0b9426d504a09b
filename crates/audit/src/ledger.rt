//! All that is kept of the entries so far.

ghost use Rattle.std.specs.Prelude.{◌≡◌, ◌++◌, ◌∷◌, [], None, Some, IfOk, OnOk, List as Items};
ghost use Rattle.zw_text.specs.Fits.{EntryFits};
ghost use Rattle.zw_text.specs.declared.entry.Entry.{Entry as AnyEntry};
ghost use Rattle.audit.specs.Breaking.{IsJudged, first_of_rest};
ghost use Rattle.audit.specs.declared.breaks.Break.TheVariants.{Text};
ghost use Rattle.audit.specs.Keeping.{IsKeptOf, KeepsTables};

use crate::Break;
use audit_books::{Changes, Endings, Orders, Scene, Sessions, changes_follow, tables_follow};
use audit_rules::{Air, Payloads};
use audit_table::{Closing, Stores};
use std::alloc::Global;
use std::marker::Model;
use zw_base::NoMemory;
use zw_text::Entry;

/// What the entries so far show, as far as the rules ask for it.
#[derive(Drop)]
pub struct Ledger {
    alloc: Global,
    scene: Scene,
    orders: Orders,
    endings: Endings,
    sessions: Sessions,
    changes: Changes,
    air: Air,
    payloads: Payloads,
    stores: Stores,
    closing: Closing,
}

impl Model for Ledger {
    ghost use Rattle.audit.specs.Keeping.{Kept};

    ghost Value = { Kept };

    ghost view = { λ l. record {
      scene = l.scene;
      orders = l.orders;
      endings = l.endings;
      sessions = l.sessions;
      changes = l.changes;
      air = l.air;
      payloads = l.payloads;
      stores = l.stores;
      closing = l.closing;
    } };
}

impl Ledger {
    /// Before the first entry.
    pub fn new(alloc: Global) -> Result<Ledger, NoMemory>
        ensures { IfOk result (λ ledger. IsKeptOf ledger []) }
    {
        tables_follow();
        changes_follow();
        let endings = Endings::new(alloc);
        let sessions = Sessions::new(alloc)?;
        let changes = Changes::new(alloc)?;
        let air = Air::new(alloc)?;
        let closing = Closing::new(alloc)?;
        Ok(Ledger {
            alloc,
            scene: Scene::new(),
            orders: Orders::new(alloc),
            endings,
            sessions,
            changes,
            air,
            payloads: Payloads::new(alloc),
            stores: Stores::new(),
            closing,
        })
    }

    /// The first rule but those of sessions and once that the next entry breaks.
    fn judge_rest(&self, entry: &Entry) -> Option<Break>
        ensures judged { (past : Items AnyEntry) → IsKeptOf self.now past → EntryFits entry.now → result ≡ first_of_rest past entry.now }
        ensures no_text { result ≡ Some Text → ⊥ }
    {
        if self.air.breaks(&self.scene, &self.sessions, entry) {
            Some(Break::Air)
        } else if self.payloads.breaks(entry) {
            Some(Break::Payload)
        } else if self.stores.breaks(&self.orders, entry) {
            Some(Break::Store)
        } else if self.closing.breaks(entry) {
            Some(Break::Table)
        } else {
            None
        }
    }

    /// The first rule that the next entry breaks; that text stands after it.
    pub fn judge(&self, entry: &Entry, rest: &[u8]) -> Result<Option<Break>, NoMemory>
        ensures judged { IfOk result (λ broken. (past : Items AnyEntry) → IsKeptOf self.now past → EntryFits entry.now →
            IsJudged past entry.now rest.now broken) }
        ensures keeps { IfOk result (λ broken. (past : Items AnyEntry) → IsKeptOf self.now past → EntryFits entry.now → broken ≡ None →
            KeepsTables past entry.now) }
        ensures no_text { IfOk result (λ broken. broken ≡ Some Text → ⊥) }
    {
        tables_follow();
        changes_follow();
        if self.sessions.breaks(&self.orders, &self.endings, entry) {
            return Ok(Some(Break::Sessions));
        }
        if self
            .changes
            .breaks(&self.orders, &self.endings, &self.sessions, entry, rest)?
        {
            return Ok(Some(Break::Once));
        }
        Ok(self.judge_rest(entry))
    }

    /// Takes the next entry.
    pub fn take(&mut self, entry: &Entry) -> Result<(), NoMemory>
        ensures { OnOk result ((past : Items AnyEntry) → IsKeptOf self.old past → EntryFits entry.now → KeepsTables past entry.now →
            IsKeptOf self.new (past ++ (entry.now ∷ []))) }
    {
        tables_follow();
        changes_follow();
        self.closing.take(
            &self.scene,
            &self.orders,
            &self.endings,
            &self.sessions,
            entry,
        )?;
        self.stores.take(entry)?;
        self.payloads.take(entry)?;
        self.air.take(&self.scene, &self.sessions, entry)?;
        self.changes.take(&self.sessions, entry)?;
        self.sessions.take(entry)?;
        self.endings.take(entry)?;
        self.orders.take(self.scene.line(), entry)?;
        self.scene.take(self.alloc, entry)?;
        Ok(())
    }
}
