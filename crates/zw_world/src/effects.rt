//! What each line does of its own.

ghost use Rattle.std.specs.Prelude.{◌≡◌, ◌≤◌, ◌<◌, ◌^◌, ℕ, length, map, List as Items, Option, OnOk, OnErr, false};
ghost use Rattle.device_sim.specs.State.{State};
ghost use Rattle.zw_text.specs.declared.line.Line.TheVariants as line;
ghost use Rattle.zw_text.specs.declared.entry.Entry.{Entry as TheEntry};
ghost use Rattle.world_model.specs.Did.{Does, Nothing, Stops};
ghost use Rattle.world_model.specs.Prefixes.{EffectPrefix};
ghost use Rattle.world_model.specs.Lines.{IsEffect};
ghost use Rattle.zw_world.specs.World.{scene};
ghost use Rattle.zw_world.specs.Effects.{IsSetting, IsAsked, is_tick, asks_or_sets};
ghost use Rattle.zw_world.specs.Keeping.{GoesOn, KeepsOrRefuses};
ghost use Rattle.host_core.specs.Calls.{shelf_of};

use crate::World;
use device_sim::Device;
use host_core::Question;
use host_keep::Keeper;
use serial_pipes::Garble;
use zw_base::{Draw, EndPoint, List, NoMemory, NodeId, Order, Word};
use zw_text::{Ended, Entry, Line};

impl World {
    /// The effect of a line but `tick`.
    pub(crate) fn effect<D: Draw, P: Keeper>(
        &mut self,
        line: &Line,
        devices: &mut Vec<Box<dyn Device>>,
        draw: &mut D,
        keeper: &mut P,
        out: &mut List<Entry>,
    ) -> Result<(), NoMemory>
        requires few { length devices.old.items < 2 ^ 64 }
        requires effect { is_tick line.now ≡ Rattle.std.specs.Prelude.false }
        ensures ok { OnOk result (Does (IsEffect line.now)
            (scene self.old (map (λ d. state d) devices.old.items) (P.shelf keeper.old) out.old.items)
            (scene self.new (map (λ d. state d) devices.new.items) (P.shelf keeper.new) out.new.items)) }
        ensures err { OnErr result (Stops (EffectPrefix line.now)
            (scene self.old (map (λ d. state d) devices.old.items) (P.shelf keeper.old) out.old.items)
            (scene self.new (map (λ d. state d) devices.new.items) (P.shelf keeper.new) out.new.items)) }
        ensures kept { length devices.new.items ≡ length devices.old.items }
        ensures goes_on { GoesOn (P.number keeper.old) (P.number keeper.new) (P.reads keeper.old) (P.reads keeper.new) }
        ensures keeps { OnOk result (self.old.outer.in_tick ≡ false →
            KeepsOrRefuses line.now out.old.items out.new.items
            (P.number keeper.old) (P.number keeper.new) (P.reads keeper.old) (P.reads keeper.new)) }
    {
        match line {
            Line::Command { order } => self.command(order, keeper, out),
            Line::Join { node } => self.join(*node, devices, keeper, out),
            Line::Cancel { command } => self.cancel(*command, keeper, out),
            Line::Restart => self.restart(keeper, out),
            Line::Repeat { frame } => self.sides.outer.repeat(*frame, devices, draw, out),
            Line::Wake { node } => self.sides.outer.wake(*node, devices, out),
            Line::Local { node, value } => self.sides.outer.local(*node, *value, devices, out),
            Line::Show { node } => self.sides.outer.show(*node, devices, out),
            line => self.ask_or_set(line, out),
        }
    }

    // A line that asks the host for something, or sets something outside it: nothing is kept, and no device hears.
    fn ask_or_set(&mut self, line: &Line, out: &mut List<Entry>) -> Result<(), NoMemory>
        requires { asks_or_sets line.now ≡ Rattle.std.specs.Prelude.true }
        ensures ok { OnOk result ((ds : Items State) (records : Option (Items (Items ℕ))) (faults : ℕ) →
            Does (IsEffect line.now) (scene self.old ds (shelf_of records faults) out.old.items) (scene self.new ds (shelf_of records faults) out.new.items)) }
        ensures err { OnErr result (out.new.items ≡ out.old.items) }
    {
        match line {
            Line::Send { node, word } => self.send(*node, *word, out),
            Line::Get { node, end } => self.get(*node, *end, out),
            Line::Interview { node } => self.interview(*node, out),
            Line::Discover => self.discover(out),
            Line::Neighbours { node } => self.ask(Question::Neighbours(*node), out),
            Line::Failed { node } => self.ask(Question::Failed(*node), out),
            Line::Probe => self.ask(Question::Probe, out),
            Line::Store { node } => self.store(*node, out),
            line => self.set(line),
        }
    }

    // A line that sets something of the air, the chip, the serial line or time.
    fn set(&mut self, line: &Line) -> Result<(), NoMemory>
        requires { IsSetting line.now }
        ensures ok { OnOk result ((ds : Items State) (records : Option (Items (Items ℕ))) (before : Items TheEntry) (faults : ℕ) →
            Does (IsEffect line.now) (scene self.old ds (shelf_of records faults) before) (scene self.new ds (shelf_of records faults) before)) }
    {
        match line {
            Line::Cut { size } => {
                self.sides.outer.cut(*size);
                Ok(())
            }
            Line::Stall { ticks } => self.sides.outer.stall(*ticks),
            Line::Drop { side } => self.sides.outer.mark_loss(*side),
            Line::Garble { side, place, xor } => self.sides.outer.mark_change(
                *side,
                Garble {
                    place: *place,
                    xor: *xor,
                },
            ),
            Line::Collide => self.sides.outer.collide(),
            Line::Lose { count } => self.sides.outer.lose(*count),
            Line::LoseAck { count } => self.sides.outer.lose_ack(*count),
            Line::Link { first, second } => {
                self.sides.outer.set_link(*first, *second, true);
                Ok(())
            }
            Line::Unlink { first, second } => {
                self.sides.outer.set_link(*first, *second, false);
                Ok(())
            }
            _ => unreachable!(),
        }
    }

    // An order becomes the next command, and its number is entered; or it is refused.
    fn command<P: Keeper>(
        &mut self,
        order: &Order,
        keeper: &mut P,
        out: &mut List<Entry>,
    ) -> Result<(), NoMemory>
        ensures ok { OnOk result ((ds : Items State) →
            Does (IsEffect (line.Command order.now)) (scene self.old ds (P.shelf keeper.old) out.old.items)
            (scene self.new ds (P.shelf keeper.new) out.new.items)) }
        ensures err { OnErr result ((ds : Items State) →
            Stops Nothing (scene self.old ds (P.shelf keeper.old) out.old.items)
            (scene self.new ds (P.shelf keeper.new) out.new.items)) }
        ensures never_fewer { P.number keeper.old ≤ P.number keeper.new }
        ensures reads { P.reads keeper.new ≡ P.reads keeper.old }
        ensures keeps { OnOk result (self.old.outer.in_tick ≡ false →
            KeepsOrRefuses (line.Command order.now) out.old.items out.new.items
            (P.number keeper.old) (P.number keeper.new) (P.reads keeper.old) (P.reads keeper.new)) }
    {
        match self.sides.host.command(order, keeper) {
            Ok(command) => self.sides.outer.note(
                Entry::Accepted {
                    command,
                    node: order.node,
                },
                out,
            ),
            Err(refused) => self.refused(refused, out),
        }
    }

    // A Set that is not reported is asked for.
    fn send(&mut self, node: NodeId, word: Word, out: &mut List<Entry>) -> Result<(), NoMemory>
        ensures ok { OnOk result ((ds : Items State) (records : Option (Items (Items ℕ))) (faults : ℕ) →
            Does (IsEffect (line.Send node word))
            (scene self.old ds (shelf_of records faults) out.old.items)
            (scene self.new ds (shelf_of records faults) out.new.items)) }
        ensures err { OnErr result (out.new.items ≡ out.old.items) }
    {
        let answer = self.sides.host.send(node, word);
        self.unless_refused(answer, out)
    }

    // A Get is asked for.
    fn get(&mut self, node: NodeId, end: EndPoint, out: &mut List<Entry>) -> Result<(), NoMemory>
        ensures ok { OnOk result ((ds : Items State) (records : Option (Items (Items ℕ))) (faults : ℕ) →
            Does (IsEffect (line.Get node end))
            (scene self.old ds (shelf_of records faults) out.old.items)
            (scene self.new ds (shelf_of records faults) out.new.items)) }
        ensures err { OnErr result (out.new.items ≡ out.old.items) }
    {
        let answer = self.sides.host.get(node, end);
        self.unless_refused(answer, out)
    }

    // An interview is asked for.
    fn interview(&mut self, node: NodeId, out: &mut List<Entry>) -> Result<(), NoMemory>
        ensures ok { OnOk result ((ds : Items State) (records : Option (Items (Items ℕ))) (faults : ℕ) →
            Does (IsEffect (line.Interview node))
            (scene self.old ds (shelf_of records faults) out.old.items)
            (scene self.new ds (shelf_of records faults) out.new.items)) }
        ensures err { OnErr result (out.new.items ≡ out.old.items) }
    {
        let answer = self.sides.host.interview(node);
        self.unless_refused(answer, out)
    }

    // A question to the chip is asked for.
    fn ask(&mut self, question: Question, out: &mut List<Entry>) -> Result<(), NoMemory>
        ensures ok { OnOk result ((ds : Items State) (records : Option (Items (Items ℕ))) (faults : ℕ) →
            Does (IsAsked question) (scene self.old ds (shelf_of records faults) out.old.items) (scene self.new ds (shelf_of records faults) out.new.items)) }
        ensures err { OnErr result (out.new.items ≡ out.old.items) }
    {
        let answer = self.sides.host.ask(question);
        self.unless_refused(answer, out)
    }

    // The chip's table becomes the live links between known nodes, and then the members are asked for.
    fn discover(&mut self, out: &mut List<Entry>) -> Result<(), NoMemory>
        ensures ok { OnOk result ((ds : Items State) (records : Option (Items (Items ℕ))) (faults : ℕ) →
            Does (IsEffect line.Discover)
            (scene self.old ds (shelf_of records faults) out.old.items)
            (scene self.new ds (shelf_of records faults) out.new.items)) }
        ensures err { OnErr result (out.new.items ≡ out.old.items) }
    {
        self.sides.outer.discover();
        self.ask(Question::Members, out)
    }

    // A node joins: the host, the air and the chip learn of it; or it is refused.
    fn join<P: Keeper>(
        &mut self,
        node: NodeId,
        devices: &Vec<Box<dyn Device>>,
        keeper: &mut P,
        out: &mut List<Entry>,
    ) -> Result<(), NoMemory>
        requires few { length devices.now.items < 2 ^ 64 }
        ensures ok { OnOk result (Does (IsEffect (line.Join node))
            (scene self.old (map (λ d. state d) devices.now.items) (P.shelf keeper.old) out.old.items)
            (scene self.new (map (λ d. state d) devices.now.items) (P.shelf keeper.new) out.new.items)) }
        ensures err { OnErr result (Stops Nothing
            (scene self.old (map (λ d. state d) devices.now.items) (P.shelf keeper.old) out.old.items)
            (scene self.new (map (λ d. state d) devices.now.items) (P.shelf keeper.new) out.new.items)) }
        ensures never_fewer { P.number keeper.old ≤ P.number keeper.new }
        ensures reads { P.reads keeper.new ≡ P.reads keeper.old }
    {
        match self.sides.host.join(node, keeper) {
            Ok(()) => self.sides.outer.join(node, devices),
            Err(refused) => self.refused(refused, out),
        }
    }

    // A command that waits is taken back; or it is refused.
    fn cancel<P: Keeper>(
        &mut self,
        command: u32,
        keeper: &mut P,
        out: &mut List<Entry>,
    ) -> Result<(), NoMemory>
        ensures ok { OnOk result ((ds : Items State) →
            Does (IsEffect (line.Cancel command)) (scene self.old ds (P.shelf keeper.old) out.old.items)
            (scene self.new ds (P.shelf keeper.new) out.new.items)) }
        ensures err { OnErr result ((ds : Items State) →
            Stops Nothing (scene self.old ds (P.shelf keeper.old) out.old.items)
            (scene self.new ds (P.shelf keeper.new) out.new.items)) }
        ensures never_fewer { P.number keeper.old ≤ P.number keeper.new }
        ensures reads { P.reads keeper.new ≡ P.reads keeper.old }
    {
        match self.sides.host.cancel(command, keeper) {
            Ok(()) => self.sides.outer.note(
                Entry::Out {
                    command,
                    ended: Ended::Cancelled,
                },
                out,
            ),
            Err(fault) => self.uncancelled(command, fault, out),
        }
    }

    // The stored values of a node are shown.
    fn store(&mut self, node: NodeId, out: &mut List<Entry>) -> Result<(), NoMemory>
        ensures ok { OnOk result ((ds : Items State) (records : Option (Items (Items ℕ))) (faults : ℕ) →
            Does (IsEffect (line.Store node))
            (scene self.old ds (shelf_of records faults) out.old.items)
            (scene self.new ds (shelf_of records faults) out.new.items)) }
        ensures err { OnErr result (out.new.items ≡ out.old.items) }
    {
        let text = self.sides.host.json(self.sides.alloc, node)?;
        self.sides.outer.note(Entry::Json { text }, out)
    }
}
