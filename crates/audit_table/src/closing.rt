//! The table at the end of a transcript.

ghost use Rattle.std.specs.Prelude.{◌≡◌, ◌<◌, None, Some, IfOk, OnOk, length, not, unwrap_or, ◌==◌, vec_len};
ghost use Rattle.std.specs.Option.{option_copied};
ghost use Rattle.zw_base.specs.PropertyOrder.{same_property};
ghost use Rattle.audit_books.specs.Ending.{ending_in};
ghost use Rattle.audit_table.specs.Knowing.{
  IsWithin,
  after_line,
  all_rows as rows_by,
  breaks_closing,
  closing_after,
  ends_with,
  first_joined,
  known_at,
  line_done,
  no_closing,
  row_shown,
  values_of,
};
ghost use Rattle.audit_table.specs.TableRule.{same_option, same_row};

use crate::rows::all_rows;
use crate::values::Values;
use audit_books::{Endings, Orders, PLACES, Scene, Sessions};
use std::alloc::Global;
use std::marker::Model;
use zw_base::{NoMemory, NodeId, Property, Setting, properties_in_order};
use zw_text::{Entry, Line};

/// The node that is joined from the start.
const FIRST_NODE: usize = 2;

/// What the transcript shows for the table.
#[derive(Drop)]
pub struct Closing {
    alloc: Global,
    joined: Vec<bool>,
    /// What was heard of each node since the last restart.
    heard: Values,
    /// What the device of each node showed.
    made: Values,
    /// The lines of the table, but for those of the devices; none before the table.
    rows: Option<Vec<Entry>>,
    /// How many of them were shown.
    shown: usize,
}

impl Model for Closing {
    ghost use Rattle.std.specs.Prelude.{◌≡◌, length, option_map};
    ghost use Rattle.audit_table.specs.Knowing.{Closing as Kept};

    ghost Value = { Kept };

    ghost view = { λ c. record { joined = c.joined.items; heard = c.heard; made = c.made; rows = option_map (λ rows. rows.items) c.rows; shown = c.shown } };

    ghost invariant = { λ c. length c.joined.items ≡ 233 };
}

/// Whether two properties are the same.
fn is_property(first: Property, second: Property) -> bool
    ensures { result ≡ same_property first second }
{
    properties_in_order(first, second);
    first.cmp(&second).is_eq()
}

/// Whether two values that may be missing are the same.
fn is_value(first: Option<u32>, second: Option<u32>) -> bool
    ensures { result ≡ same_option first second }
{
    match (first, second) {
        (Some(first), Some(second)) => first == second,
        (None, None) => true,
        _ => false,
    }
}

/// Whether two entries are the same line of the table.
fn is_row(row: &Entry, entry: &Entry) -> bool
    ensures { result ≡ same_row row.now entry.now }
{
    match (row, entry) {
        (
            Entry::TableNode { node, sessions },
            Entry::TableNode {
                node: at,
                sessions: listed,
            },
        ) => *node == *at && sessions.as_slice() == listed.as_slice(),
        (
            Entry::TableValue {
                node,
                property,
                confirmed,
                heard,
            },
            Entry::TableValue {
                node: at,
                property: of,
                confirmed: stored,
                heard: reported,
            },
        ) => {
            *node == *at
                && (is_property(*property, *of)
                    && (is_value(*confirmed, *stored) && is_value(*heard, *reported)))
        }
        _ => false,
    }
}

/// Whether the entry is not the line that is due.
fn breaks_row(row: Option<&Entry>, entry: &Entry) -> bool
    ensures { result ≡ Rattle.audit_table.specs.TableRule.breaks_row (option_copied row.entry) entry.now }
{
    match row {
        Some(row) => !is_row(row, entry),
        None => true,
    }
}

/// The node of a line is one.
fn is_within(line: Option<&Line>)
    ensures { IsWithin (option_copied line.entry) }
{
    if let Some(Line::Join { node }) = line {
        let _number = node.number();
    }
}

/// Which nodes are joined from the start.
#[tactic(auto, unfolding(crate::specs::Knowing::first_joined))]
fn first_nodes(alloc: Global) -> Result<Vec<bool>, NoMemory>
    ensures items { IfOk result (λ joined. joined.items ≡ first_joined) }
    ensures len { IfOk result (λ joined. vec_len joined ≡ 233) }
{
    let mut joined = Vec::with_capacity(alloc, PLACES)?;
    for _ in 0..PLACES {
        joined.push(false)?;
    }
    joined[FIRST_NODE] = true;
    Ok(joined)
}

impl Closing {
    /// Before the first entry.
    pub fn new(alloc: Global) -> Result<Closing, NoMemory>
        ensures { IfOk result (λ closing. closing ≡ no_closing) }
    {
        let joined = first_nodes(alloc)?;
        let heard = Values::new(alloc)?;
        let made = Values::new(alloc)?;
        Ok(Closing {
            alloc,
            joined,
            heard,
            made,
            rows: None,
            shown: 0,
        })
    }

    /// Whether the setting is not the last that the device of the node showed of its property, 0 where it showed none.
    fn breaks_device(&self, node: NodeId, setting: &Setting) -> bool
        ensures { result ≡ not (unwrap_or (known_at (values_of self.now.made node) setting.now.property).last 0 == setting.now.value) }
    {
        self.made.get(node, &setting.property).last.unwrap_or(0) != setting.value
    }

    /// Whether the entry is a line of the table and not the one that is due.
    pub fn breaks(&self, entry: &Entry) -> bool
        ensures { result ≡ breaks_closing self.now entry.now }
    {
        match (&self.rows, entry) {
            (Some(rows), Entry::TableNode { .. } | Entry::TableValue { .. }) => {
                breaks_row(rows.get(self.shown), entry)
            }
            (Some(_), Entry::Device { node, setting }) => self.breaks_device(*node, setting),
            _ => false,
        }
    }

    /// The line that was run is done.
    fn finish(&mut self, line: Option<&Line>) -> Result<(), NoMemory>
        ensures { OnOk result (self.new ≡ line_done self.old (option_copied line.entry)) }
    {
        match line {
            Some(Line::Join { node }) => self.joined[usize::from(node.number())] = true,
            Some(Line::Restart) => self.heard = Values::new(self.alloc)?,
            _ => {}
        }
        Ok(())
    }

    /// The line that was run is done, unless the entry after it is a refusal.
    fn run(&mut self, line: Option<&Line>, entry: &Entry) -> Result<(), NoMemory>
        ensures done { OnOk result (self.new ≡ after_line self.old (option_copied line.entry) entry.now) }
        ensures within { IsWithin (option_copied line.entry) }
    {
        is_within(line);
        match entry {
            Entry::Refused { .. } => {}
            _ => self.finish(line)?,
        }
        Ok(())
    }

    /// The table begins.
    fn end(
        &mut self,
        orders: &Orders,
        endings: &Endings,
        sessions: &Sessions,
    ) -> Result<(), NoMemory>
        ensures { OnOk result (self.new ≡ ends_with self.old self.old.rows (rows_by self.old (ending_in endings.now) orders.now sessions.now)) }
    {
        if self.rows.is_none() {
            let joined = self.joined.as_slice();
            let rows = all_rows(
                self.alloc,
                joined,
                &mut self.heard,
                orders,
                endings,
                sessions,
            )?;
            self.heard = Values::new(self.alloc)?;
            self.rows = Some(rows);
        }
        Ok(())
    }

    /// A line of the table was shown.
    fn show_row(&mut self) -> Result<(), NoMemory>
        ensures { OnOk result (self.new ≡ row_shown self.old) }
    {
        if self.rows.is_some() {
            self.shown = self.shown.checked_add(1).ok_or(NoMemory)?;
        }
        Ok(())
    }

    /// Takes the next entry.
    pub fn take(
        &mut self,
        scene: &Scene,
        orders: &Orders,
        endings: &Endings,
        sessions: &Sessions,
        entry: &Entry,
    ) -> Result<(), NoMemory>
        ensures taken { OnOk result (self.new ≡ closing_after self.old scene.now.line (ending_in endings.now) orders.now sessions.now entry.now) }
        ensures within { OnOk result (IsWithin scene.now.line) }
    {
        self.run(scene.line(), entry)?;
        match entry {
            Entry::Dev { node, setting, .. } => self.made.show(*node, setting)?,
            Entry::Report { node, setting } => self.heard.show(*node, setting)?,
            Entry::TableEnd { .. } => self.end(orders, endings, sessions)?,
            Entry::TableNode { .. } | Entry::TableValue { .. } => self.show_row()?,
            _ => {}
        }
        Ok(())
    }
}
