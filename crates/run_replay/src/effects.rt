//! What each line does of its own.

ghost use Rattle.std.specs.Prelude.{◌≡◌, ℕ, List as Items, Option, OnOk, OnErr};
ghost use Rattle.zw_text.specs.declared.line.Line.TheVariants as line;
ghost use Rattle.zw_text.specs.declared.line.Line.TheVariants.{Tick as tick_line};
ghost use Rattle.zw_text.specs.declared.line.ReplayLine.TheVariants.{Plain};
ghost use Rattle.run_replay.specs.Machine.{Does, Stops, scene};
ghost use Rattle.run_replay.specs.Lines.{IsEffect, IsReplayed};
ghost use Rattle.host_core.specs.Calls.{shelf_of};

use crate::refusals::{refuse, refuse_cancel, unless_refused};
use crate::replay::Replay;
use host_core::Question;
use host_keep::Keeper;
use zw_base::{EndPoint, List, NoMemory, NodeId, Order, Word};
use zw_text::{Ended, Entry, Line};

impl Replay {
    /// The effect of a line but `tick`.
    pub(crate) fn effect<P: Keeper>(
        &mut self,
        line: &Line,
        keeper: &mut P,
        out: &mut List<Entry>,
    ) -> Result<(), NoMemory>
        requires replayed { IsReplayed (Plain line.now) }
        requires no_tick { (count : ℕ) → line.now ≡ tick_line count → ⊥ }
        ensures ok { OnOk result (Does (IsEffect line.now) (scene self.old (P.shelf keeper.old) out.old.items)
            (scene self.new (P.shelf keeper.new) out.new.items)) }
        ensures err { OnErr result (Stops (scene self.old (P.shelf keeper.old) out.old.items)
            (scene self.new (P.shelf keeper.new) out.new.items)) }
    {
        match line {
            Line::Command { order } => self.command(order, keeper, out),
            Line::Send { node, word } => self.send(*node, *word, out),
            Line::Get { node, end } => self.get(*node, *end, out),
            Line::Interview { node } => self.interview(*node, out),
            Line::Join { node } => self.join(*node, keeper, out),
            Line::Cancel { command } => self.cancel(*command, keeper, out),
            Line::Neighbours { node } => self.neighbours(*node, out),
            Line::Failed { node } => self.failed(*node, out),
            Line::Probe => self.probe(out),
            Line::Store { node } => self.store(*node, out),
            _ => unreachable!(),
        }
    }

    // An order becomes the next command, and its number is entered; or it is refused.
    fn command<P: Keeper>(
        &mut self,
        order: &Order,
        keeper: &mut P,
        out: &mut List<Entry>,
    ) -> Result<(), NoMemory>
        ensures ok { OnOk result (Does (IsEffect (line.Command order.now))
            (scene self.old (P.shelf keeper.old) out.old.items)
            (scene self.new (P.shelf keeper.new) out.new.items)) }
        ensures err { OnErr result (Stops (scene self.old (P.shelf keeper.old) out.old.items)
            (scene self.new (P.shelf keeper.new) out.new.items)) }
    {
        let command = match self.host.command(order, keeper) {
            Ok(command) => command,
            Err(refused) => return refuse(refused, out),
        };
        out.push(Entry::Accepted {
            command,
            node: order.node,
        })
    }

    // A Set that is not reported is asked for.
    fn send(&mut self, node: NodeId, word: Word, out: &mut List<Entry>) -> Result<(), NoMemory>
        ensures ok { OnOk result ((records : Option (Items (Items ℕ))) (faults : ℕ) →
            Does (IsEffect (line.Send node word))
            (scene self.old (shelf_of records faults) out.old.items)
            (scene self.new (shelf_of records faults) out.new.items)) }
        ensures err { OnErr result (out.new.items ≡ out.old.items) }
    {
        let answer = self.host.send(node, word);
        unless_refused(answer, out)
    }

    // A Get is asked for.
    fn get(&mut self, node: NodeId, end: EndPoint, out: &mut List<Entry>) -> Result<(), NoMemory>
        ensures ok { OnOk result ((records : Option (Items (Items ℕ))) (faults : ℕ) →
            Does (IsEffect (line.Get node end))
            (scene self.old (shelf_of records faults) out.old.items)
            (scene self.new (shelf_of records faults) out.new.items)) }
        ensures err { OnErr result (out.new.items ≡ out.old.items) }
    {
        let answer = self.host.get(node, end);
        unless_refused(answer, out)
    }

    // An interview is asked for.
    fn interview(&mut self, node: NodeId, out: &mut List<Entry>) -> Result<(), NoMemory>
        ensures ok { OnOk result ((records : Option (Items (Items ℕ))) (faults : ℕ) →
            Does (IsEffect (line.Interview node))
            (scene self.old (shelf_of records faults) out.old.items)
            (scene self.new (shelf_of records faults) out.new.items)) }
        ensures err { OnErr result (out.new.items ≡ out.old.items) }
    {
        let answer = self.host.interview(node);
        unless_refused(answer, out)
    }

    // Which nodes hear a node is asked for.
    fn neighbours(&mut self, node: NodeId, out: &mut List<Entry>) -> Result<(), NoMemory>
        ensures ok { OnOk result ((records : Option (Items (Items ℕ))) (faults : ℕ) →
            Does (IsEffect (line.Neighbours node))
            (scene self.old (shelf_of records faults) out.old.items)
            (scene self.new (shelf_of records faults) out.new.items)) }
        ensures err { OnErr result (out.new.items ≡ out.old.items) }
    {
        let answer = self.host.ask(Question::Neighbours(node));
        unless_refused(answer, out)
    }

    // Whether the chip counts a node as failed is asked for.
    fn failed(&mut self, node: NodeId, out: &mut List<Entry>) -> Result<(), NoMemory>
        ensures ok { OnOk result ((records : Option (Items (Items ℕ))) (faults : ℕ) →
            Does (IsEffect (line.Failed node))
            (scene self.old (shelf_of records faults) out.old.items)
            (scene self.new (shelf_of records faults) out.new.items)) }
        ensures err { OnErr result (out.new.items ≡ out.old.items) }
    {
        let answer = self.host.ask(Question::Failed(node));
        unless_refused(answer, out)
    }

    // Version, home and functions of the chip are asked for.
    fn probe(&mut self, out: &mut List<Entry>) -> Result<(), NoMemory>
        ensures ok { OnOk result ((records : Option (Items (Items ℕ))) (faults : ℕ) →
            Does (IsEffect line.Probe) (scene self.old (shelf_of records faults) out.old.items) (scene self.new (shelf_of records faults) out.new.items)) }
        ensures err { OnErr result (out.new.items ≡ out.old.items) }
    {
        let answer = self.host.ask(Question::Probe);
        unless_refused(answer, out)
    }

    // A node joins; or it is refused.
    fn join<P: Keeper>(
        &mut self,
        node: NodeId,
        keeper: &mut P,
        out: &mut List<Entry>,
    ) -> Result<(), NoMemory>
        ensures ok { OnOk result (Does (IsEffect (line.Join node))
            (scene self.old (P.shelf keeper.old) out.old.items)
            (scene self.new (P.shelf keeper.new) out.new.items)) }
        ensures err { OnErr result (Stops (scene self.old (P.shelf keeper.old) out.old.items)
            (scene self.new (P.shelf keeper.new) out.new.items)) }
    {
        if let Err(refused) = self.host.join(node, keeper) {
            return refuse(refused, out);
        }
        Ok(())
    }

    // A command that waits is taken back; or it is refused.
    fn cancel<P: Keeper>(
        &mut self,
        command: u32,
        keeper: &mut P,
        out: &mut List<Entry>,
    ) -> Result<(), NoMemory>
        ensures ok { OnOk result (Does (IsEffect (line.Cancel command))
            (scene self.old (P.shelf keeper.old) out.old.items)
            (scene self.new (P.shelf keeper.new) out.new.items)) }
        ensures err { OnErr result (Stops (scene self.old (P.shelf keeper.old) out.old.items)
            (scene self.new (P.shelf keeper.new) out.new.items)) }
    {
        if let Err(fault) = self.host.cancel(command, keeper) {
            return refuse_cancel(command, fault, out);
        }
        out.push(Entry::Out {
            command,
            ended: Ended::Cancelled,
        })
    }

    // The stored values of a node are shown.
    fn store(&mut self, node: NodeId, out: &mut List<Entry>) -> Result<(), NoMemory>
        ensures ok { OnOk result ((records : Option (Items (Items ℕ))) (faults : ℕ) →
            Does (IsEffect (line.Store node))
            (scene self.old (shelf_of records faults) out.old.items)
            (scene self.new (shelf_of records faults) out.new.items)) }
        ensures err { OnErr result (out.new.items ≡ out.old.items) }
    {
        let text = self.host.json(self.alloc, node)?;
        out.push(Entry::Json { text })
    }
}
