//! The host, the locks and the air as one.

ghost use Rattle.std.specs.Prelude.{◌≡◌, ℕ, ◌+◌, ◌-◌, ◌<◌, ◌≤◌, [], ◌∷◌, ◌++◌, List as Items, Option, Some, None, length, map, IfOk, OnOk, OnErr, is_some};
ghost use Rattle.std.specs.List.{range_with_len};
ghost use Rattle.air_frames.specs.declared.frame.Heading.TheVariants.{Outward, Homeward};
ghost use Rattle.include_world.specs.Air.{arriving, flying, refusal_of};
ghost use Rattle.include_world.specs.World.{
  IncludeEvent,
  Says,
  Lands,
  Did,
  does,
  ends,
  passes,
  first_joiner,
  first_world,
  hears,
  hears_by,
  lands_by,
  adds,
  repeats,
  resets,
  said_entries,
  table_of,
  node_entries,
  tells,
};
ghost use Rattle.include_text.specs.declared.entry.IncludeEntry.{IncludeEntry as AnyEntry};
ghost use Rattle.include_world.specs.Added.{Reached, TellsOn};
ghost use Rattle.include_world.specs.Line.{IsLine, IsTick, IsTicks, ticks_of};

use crate::air::{Air, Coming};
use crate::entering::{put_refused, put_said, put_units};
use crate::units::units_of;
use air_frames::Heading;
use include_text::{IncludeEntry, IncludeLine, IncludeRefusal};
use inclusion::{AddFault, Includer, Joiner, SCHEME_GET};
use std::alloc::Global;
use std::marker::Model;
use zw_base::{Draw, List, NoMemory, NodeId, Replies, read_node};

/// One place for each node number from 0 to 232; that of 0 is never used.
const NODES: usize = 233;

/// The most replies of a call.
const MAX_REPLIES: u8 = 8;

/// The most entries of a line's own effect: the line, that a frame was heard, a key or its end, and eight frames; or the
/// line, six units and a frame.
const MOST_ENTRIES: usize = 11;

/// The host that adds nodes, the locks, and the air between them. Contracts see all of it.
#[derive(Drop)]
pub struct IncludeWorld {
    alloc: Global,
    time: u64,
    includer: Includer,
    joiners: Vec<Joiner>,
    added: [bool; 233],
    air: Air,
}

impl Model for IncludeWorld {
    ghost use Rattle.std.specs.Prelude.{◌≡◌, length};
    ghost use Rattle.include_world.specs.World.{WorldState};

    ghost Value = { WorldState };

    ghost view = { λ w. record { time = w.time; includer = w.includer; joiners = w.joiners.items; added = w.added; air = w.air.state } };

    ghost invariant = { λ w. length w.joiners.items ≡ 233 };
}

/// The lock that stands at that number before the first line.
fn first_joiner(alloc: Global, number: u8) -> Result<Joiner, NoMemory>
    requires { number < 233 }
    ensures { IfOk result (λ joiner. joiner ≡ first_joiner number) }
{
    let number = if number == 0 { 1 } else { number };
    match read_node(number) {
        Some(node) => Joiner::new(alloc, node),
        None => unreachable!(),
    }
}

/// The locks before the first line.
fn first_joiners(alloc: Global) -> Result<Vec<Joiner>, NoMemory>
    ensures { IfOk result (λ joiners. joiners.items ≡ map first_joiner (range_with_len 0 233)) }
{
    let mut joiners = Vec::with_capacity(alloc, NODES)?;
    for number in 0..NODES {
        joiners.push(first_joiner(alloc, number as u8)?)?;
    }
    Ok(joiners)
}

/// The ticks of a line.
fn ticks_of(line: &IncludeLine) -> u32
    ensures { result ≡ ticks_of line.now }
{
    match line {
        IncludeLine::Tick(count) => *count,
        _ => 0,
    }
}

/// Drawn bytes.
fn drawn_by<D: Draw>(draw: &mut D) -> [u8; 8]
    ensures eight { length result ≡ 8 }
    ensures drawn { D.draws draw.old result draw.new }
{
    draw.next()
}

impl IncludeWorld {
    /// Nothing has happened.
    pub fn new(alloc: Global, key: [u8; 16]) -> Result<IncludeWorld, NoMemory>
        ensures first { IfOk result (λ world. world ≡ first_world key) }
        ensures reached { IfOk result (λ world. Reached key [] world) }
    {
        IncludeWorld::made(alloc, key)
    }

    /// The parts of a world in which nothing has happened.
    #[tactic(auto, unfolding(crate::specs::World::first_world))]
    fn made(alloc: Global, key: [u8; 16]) -> Result<IncludeWorld, NoMemory>
        ensures first { IfOk result (λ world. world ≡ first_world key) }
        ensures sixteen { length key ≡ 16 }
    {
        Ok(IncludeWorld {
            alloc,
            time: 0,
            includer: Includer::new(alloc, key)?,
            joiners: first_joiners(alloc)?,
            added: [false; NODES],
            air: Air::new(alloc),
        })
    }

    /// A line is done, event by event. Where there was no memory some first events were done.
    pub fn step<D: Draw>(
        &mut self,
        line: &IncludeLine,
        draw: &mut D,
        out: &mut List<IncludeEntry>,
    ) -> Result<(), NoMemory>
        ensures ok { OnOk result ((events : Items IncludeEvent) × IsLine line.now self.old events × Did events self.old self.new out.old.items out.new.items) }
        ensures err { OnErr result ((events : Items IncludeEvent) × Did events self.old self.new out.old.items out.new.items) }

        // What the transcript says of each node is so, at both ends.
        ensures added { (key : Items ℕ) (T : Items AnyEntry) → Reached key T self.old → TellsOn key T self.new out.old.items out.new.items }
    {
        self.run_line(line, draw, out)
    }

    /// A line and its ticks.
    fn run_line<D: Draw>(
        &mut self,
        line: &IncludeLine,
        draw: &mut D,
        out: &mut List<IncludeEntry>,
    ) -> Result<(), NoMemory>
        ensures ok { OnOk result ((events : Items IncludeEvent) × IsLine line.now self.old events × Did events self.old self.new out.old.items out.new.items) }
        ensures err { OnErr result ((events : Items IncludeEvent) × Did events self.old self.new out.old.items out.new.items) }
    {
        let drawn = drawn_by(draw);
        self.say(line, drawn, out)?;
        self.ticks(ticks_of(line), draw, out)?;
        Ok(())
    }

    /// The table: one entry for each node that was added, in order.
    pub fn table(&self, out: &mut List<IncludeEntry>) -> Result<(), NoMemory>
        ensures ok { OnOk result (out.new.items ≡ out.old.items ++ table_of self.now) }
    {
        for number in 1..NODES {
            self.enter_node(number as u8, out)?;
        }
        Ok(())
    }

    /// What both ends hold of a node, where it was added.
    fn enter_node(&self, number: u8, out: &mut List<IncludeEntry>) -> Result<(), NoMemory>
        requires low { 1 ≤ number }
        requires high { number < 233 }
        ensures ok { OnOk result (out.new.items ≡ out.old.items ++ node_entries self.now number) }
    {
        let Some(node) = read_node(number) else {
            unreachable!()
        };
        let at = number as usize;
        if self.added[at] {
            out.push(IncludeEntry::Node {
                node,
                secure: self.includer.is_secure(node),
                key: self.joiners[at].key().is_some(),
            })?;
        }
        Ok(())
    }

    /// A line is said, and its own effect done.
    #[tactic(auto, unfolding(crate::specs::World::does))]
    fn say(
        &mut self,
        line: &IncludeLine,
        drawn: [u8; 8],
        out: &mut List<IncludeEntry>,
    ) -> Result<(), NoMemory>
        ensures ok { OnOk result (self.new ≡ (does self.old (Says line.now drawn)).world) }
        ensures outs { OnOk result (out.new.items ≡ out.old.items ++ (does self.old (Says line.now drawn)).entries) }
        ensures err { OnErr result (self.new ≡ self.old) }
        ensures no_outs { OnErr result (out.new.items ≡ out.old.items) }
    {
        out.reserve(MOST_ENTRIES)?;
        match line {
            IncludeLine::Add(node) => self.add(*node, out)?,
            IncludeLine::Repeat(number) => self.repeat(*number, drawn, out)?,
            IncludeLine::Reset(node) => {
                put_said(Some(*line), out);
                self.reset(*node);
            }
            IncludeLine::Lose(count) => {
                put_said(Some(*line), out);
                self.air.lose(*count);
            }
            IncludeLine::Tick(_) => put_said(Some(*line), out),
        }
        Ok(())
    }

    /// A node is added, unless an exchange is under way or it is secure.
    fn add(&mut self, node: NodeId, out: &mut List<IncludeEntry>) -> Result<(), NoMemory>
        requires { 11 ≤ out.old.room }
        ensures ok { OnOk result (self.new ≡ (adds self.old node self.old.includer.exchange).world) }
        ensures outs { OnOk result (out.new.items ≡ out.old.items ++
            IncludeEntry.Said (IncludeLine.Add node) ∷ (adds self.old node self.old.includer.exchange).entries) }
        ensures err { OnErr result (self.new ≡ self.old) }
        ensures no_outs { OnErr result (out.new.items ≡ out.old.items) }
    {
        self.air.reserve(node, 1)?;
        let units = units_of(self.alloc, node)?;
        let mut replies = Replies::new(self.alloc)?;
        match self.includer.add(node, &mut replies) {
            Ok(()) => {
                put_said(Some(IncludeLine::Add(node)), out);
                put_units(units, out);
                self.added[node.number() as usize] = true;
                self.air.depart(node, Heading::Outward, &SCHEME_GET, out);
                Ok(())
            }
            Err(AddFault::Busy) => {
                put_refused(IncludeLine::Add(node), IncludeRefusal::Busy, out);
                Ok(())
            }
            Err(AddFault::Secure) => {
                put_refused(IncludeLine::Add(node), IncludeRefusal::Secure, out);
                Ok(())
            }
            Err(AddFault::NoMemory) => Err(NoMemory),
        }
    }

    /// A lock forgets its key, and the host that it was secure; what was sent between them is heard no more.
    fn reset(&mut self, node: NodeId)
        ensures { self.new ≡ resets self.old node }
    {
        self.includer.reset(node);
        self.joiners[node.number() as usize].reset();
        self.air.forget(node);
    }

    /// A frame is heard once more, where it may be.
    fn repeat(
        &mut self,
        number: u64,
        drawn: [u8; 8],
        out: &mut List<IncludeEntry>,
    ) -> Result<(), NoMemory>
        requires { 11 ≤ out.old.room }
        ensures ok { OnOk result (self.new ≡ (repeats self.old number drawn (refusal_of self.old.air number)).world) }
        ensures outs { OnOk result (out.new.items ≡ out.old.items ++
            IncludeEntry.Said (IncludeLine.Repeat number) ∷ (repeats self.old number drawn (refusal_of self.old.air number)).entries) }
        ensures err { OnErr result (self.new ≡ self.old) }
        ensures no_outs { OnErr result (out.new.items ≡ out.old.items) }
    {
        match self.air.repeatable(number) {
            Ok(coming) => self.hear(&coming, drawn, Some(IncludeLine::Repeat(number)), out)?,
            Err(refusal) => put_refused(IncludeLine::Repeat(number), refusal, out),
        }
        Ok(())
    }

    /// A frame is heard at its other end. The line that repeats it is entered before.
    #[tactic(auto, unfolding(crate::specs::World::hears))]
    fn hear(
        &mut self,
        coming: &Coming,
        drawn: [u8; 8],
        said: Option<IncludeLine>,
        out: &mut List<IncludeEntry>,
    ) -> Result<(), NoMemory>
        requires { 11 ≤ out.old.room }
        ensures ok { OnOk result (self.new ≡ (hears self.old coming.now drawn).world) }
        ensures outs { OnOk result (out.new.items ≡ out.old.items ++ (said_entries said ++ (hears self.old coming.now drawn).entries)) }
        ensures err { OnErr result (self.new ≡ self.old) }
        ensures no_outs { OnErr result (out.new.items ≡ out.old.items) }
    {
        match coming.heading {
            Heading::Outward => self.hear_at_lock(coming, drawn, said, out)?,
            Heading::Homeward => self.hear_at_host(coming, drawn, said, out)?,
        }
        Ok(())
    }

    /// A lock hears a frame of the host.
    fn hear_at_lock(
        &mut self,
        coming: &Coming,
        drawn: [u8; 8],
        said: Option<IncludeLine>,
        out: &mut List<IncludeEntry>,
    ) -> Result<(), NoMemory>
        requires { 11 ≤ out.old.room }
        ensures ok { OnOk result (self.new ≡ (hears_by self.old coming.now drawn Outward).world) }
        ensures outs { OnOk result (out.new.items ≡ out.old.items ++ (said_entries said ++ (hears_by self.old coming.now drawn Outward).entries)) }
        ensures err { OnErr result (self.new ≡ self.old) }
        ensures no_outs { OnErr result (out.new.items ≡ out.old.items) }
    {
        self.air.reserve(coming.node, MAX_REPLIES)?;
        let mut replies = Replies::new(self.alloc)?;
        let at = coming.node.number() as usize;
        let had = self.joiners[at].key().is_some();
        self.joiners[at].take(coming.payload.bytes(), drawn, &mut replies)?;
        let has = self.joiners[at].key().is_some();
        put_said(said, out);
        out.put(IncludeEntry::Heard {
            frame: coming.number,
        });
        if !had && has {
            out.put(IncludeEntry::Key { node: coming.node });
        }
        self.air.send(coming.node, Heading::Homeward, &replies, out);
        Ok(())
    }

    /// The host hears a frame of a lock.
    fn hear_at_host(
        &mut self,
        coming: &Coming,
        drawn: [u8; 8],
        said: Option<IncludeLine>,
        out: &mut List<IncludeEntry>,
    ) -> Result<(), NoMemory>
        requires { 11 ≤ out.old.room }
        ensures ok { OnOk result (self.new ≡ (hears_by self.old coming.now drawn Homeward).world) }
        ensures outs { OnOk result (out.new.items ≡ out.old.items ++ (said_entries said ++ (hears_by self.old coming.now drawn Homeward).entries)) }
        ensures err { OnErr result (self.new ≡ self.old) }
        ensures no_outs { OnErr result (out.new.items ≡ out.old.items) }
    {
        self.air.reserve(coming.node, MAX_REPLIES)?;
        let mut replies = Replies::new(self.alloc)?;
        let node = coming.node;
        let was = self.includer.is_secure(node);
        self.includer
            .take(node, coming.payload.bytes(), drawn, &mut replies)?;
        let is = self.includer.is_secure(node);
        put_said(said, out);
        out.put(IncludeEntry::Heard {
            frame: coming.number,
        });
        if !was && is {
            out.put(IncludeEntry::Secure { node });
        }
        self.air.send(node, Heading::Outward, &replies, out);
        Ok(())
    }

    /// So many ticks pass.
    fn ticks<D: Draw>(
        &mut self,
        count: u32,
        draw: &mut D,
        out: &mut List<IncludeEntry>,
    ) -> Result<(), NoMemory>
        ensures ok { OnOk result ((events : Items IncludeEvent) × IsTicks count self.old events × Did events self.old self.new out.old.items out.new.items) }
        ensures err { OnErr result ((events : Items IncludeEvent) × Did events self.old self.new out.old.items out.new.items) }
    {
        for _ in 0..count {
            self.tick(draw, out)?;
        }
        Ok(())
    }

    /// A tick of 100 ms passes.
    fn tick<D: Draw>(&mut self, draw: &mut D, out: &mut List<IncludeEntry>) -> Result<(), NoMemory>
        ensures ok { OnOk result ((events : Items IncludeEvent) × IsTick self.old events × Did events self.old self.new out.old.items out.new.items) }
        ensures err { OnErr result ((events : Items IncludeEvent) × Did events self.old self.new out.old.items out.new.items) }
    {
        self.pass(out)?;
        self.deliver(draw, out)?;
        self.end(out)?;
        Ok(())
    }

    /// A tick of time begins.
    fn pass(&mut self, out: &mut List<IncludeEntry>) -> Result<(), NoMemory>
        ensures ok { OnOk result (self.new ≡ (passes self.old).world) }
        ensures outs { OnOk result (out.new.items ≡ out.old.items ++ (passes self.old).entries) }
        ensures err { OnErr result (self.new ≡ self.old) }
        ensures no_outs { OnErr result (out.new.items ≡ out.old.items) }
    {
        if self.time == u64::MAX {
            return Err(NoMemory);
        }
        let time = self.time + 1;
        if self.tells() {
            out.push(IncludeEntry::Time { tick: time })?;
        }
        self.time = time;
        Ok(())
    }

    /// Whether the tick that begins will have an entry.
    fn tells(&self) -> bool
        ensures { result ≡ tells self.now }
    {
        self.air.flying() > 0 || self.includer.fails_next()
    }

    /// Each frame that is on the air arrives.
    fn deliver<D: Draw>(
        &mut self,
        draw: &mut D,
        out: &mut List<IncludeEntry>,
    ) -> Result<(), NoMemory>
        ensures ok { OnOk result ((draws : Items (Items ℕ)) × (length draws ≡ flying self.old.air) ×
            Did (map Lands draws) self.old self.new out.old.items out.new.items) }
        ensures err { OnErr result ((draws : Items (Items ℕ)) × Did (map Lands draws) self.old self.new out.old.items out.new.items) }
    {
        for _ in 0..self.air.flying() {
            self.land(draw, out)?;
        }
        Ok(())
    }

    /// The next frame arrives. The answer is the bytes that were drawn for it.
    #[tactic(auto, unfolding(crate::specs::World::does))]
    fn land<D: Draw>(
        &mut self,
        draw: &mut D,
        out: &mut List<IncludeEntry>,
    ) -> Result<[u8; 8], NoMemory>
        requires { self.old.air.landed < length self.old.air.frames }
        ensures eight { IfOk result (λ drawn. length drawn ≡ 8) }
        ensures drawn { IfOk result (λ drawn. D.draws draw.old drawn draw.new) }
        ensures ok { IfOk result (λ drawn. self.new ≡ (does self.old (Lands drawn)).world) }
        ensures outs { IfOk result (λ drawn. out.new.items ≡ out.old.items ++ (does self.old (Lands drawn)).entries) }
        ensures err { OnErr result (self.new ≡ self.old) }
        ensures no_outs { OnErr result (out.new.items ≡ out.old.items) }
    {
        out.reserve(MOST_ENTRIES)?;
        let drawn = drawn_by(draw);
        self.hear_next(drawn, out)?;
        self.air.land();
        Ok(drawn)
    }

    /// The next frame is heard, or lost.
    fn hear_next(&mut self, drawn: [u8; 8], out: &mut List<IncludeEntry>) -> Result<(), NoMemory>
        requires within { self.old.air.landed < length self.old.air.frames }
        requires room { 11 ≤ out.old.room }
        ensures ok { OnOk result (self.new ≡ (lands_by self.old (arriving self.old.air) drawn).world) }
        ensures outs { OnOk result (out.new.items ≡ out.old.items ++ (lands_by self.old (arriving self.old.air) drawn).entries) }
        ensures err { OnErr result (self.new ≡ self.old) }
        ensures no_outs { OnErr result (out.new.items ≡ out.old.items) }
    {
        match self.air.next() {
            Some(coming) => self.hear(&coming, drawn, None, out)?,
            None => out.put(IncludeEntry::Lost {
                frame: self.air.next_number(),
            }),
        }
        Ok(())
    }

    /// A tick of time ends.
    fn end(&mut self, out: &mut List<IncludeEntry>) -> Result<(), NoMemory>
        ensures ok { OnOk result (self.new ≡ (ends self.old).world) }
        ensures outs { OnOk result (out.new.items ≡ out.old.items ++ (ends self.old).entries) }
        ensures err { OnErr result (self.new ≡ self.old) }
        ensures no_outs { OnErr result (out.new.items ≡ out.old.items) }
    {
        out.reserve(1)?;
        if let Some(node) = self.includer.tick() {
            out.put(IncludeEntry::Failed { node });
        }
        Ok(())
    }
}
