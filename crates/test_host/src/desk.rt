//! A host on a desk: what a line asks of it, and all that it puts out then.

use host_core::{Host, HostOut, Question};
use host_keep::MemoryKeeper;
use host_orders::Refused;
use serial_frame::{Unit, encode};
use std::alloc::Global;
use std::test::Fail;
use zw_base::{Bytes, EndPoint, FixedDraw, List, NoMemory, NodeId, Order, Word};
use zw_print::print_entry;
use zw_text::{Entry, Line, ReplayLine, Side, read_replay};

/// The network key.
const KEY: [u8; 16] = [
    0x00, 0x01, 0x02, 0x03, 0x04, 0x05, 0x06, 0x07, 0x08, 0x09, 0x0A, 0x0B, 0x0C, 0x0D, 0x0E, 0x0F,
];

/// What the host draws, in turn.
const DRAWN: [[u8; 8]; 6] = [
    [0xA0, 0xA1, 0xA2, 0xA3, 0xA4, 0xA5, 0xA6, 0xA7],
    [0xB0, 0xB1, 0xB2, 0xB3, 0xB4, 0xB5, 0xB6, 0xB7],
    [0xC0, 0xC1, 0xC2, 0xC3, 0xC4, 0xC5, 0xC6, 0xC7],
    [0xD0, 0xD1, 0xD2, 0xD3, 0xD4, 0xD5, 0xD6, 0xD7],
    [0xE0, 0xE1, 0xE2, 0xE3, 0xE4, 0xE5, 0xE6, 0xE7],
    [0xF0, 0xF1, 0xF2, 0xF3, 0xF4, 0xF5, 0xF6, 0xF7],
];

/// A host, its keeper and its draw, and what became of the last line.
#[derive(Drop)]
pub struct Desk {
    alloc: Global,
    host: Host,
    keeper: MemoryKeeper,
    draw: FixedDraw,
    text: String,
}

impl Desk {
    /// A new host, over a keeper of which the calls of these numbers fail.
    pub fn new(alloc: Global, failing: &[u64]) -> Result<Desk, Fail> {
        Ok(Desk {
            alloc,
            host: Host::new(alloc, KEY)?,
            keeper: MemoryKeeper::new(alloc, failing)?,
            draw: FixedDraw::new(alloc, &DRAWN)?,
            text: String::new(alloc),
        })
    }

    /// What the last line asked, and after it all that was put out.
    pub fn text(&self) -> &str {
        self.text.as_str()
    }

    /// Does what a line asks, and lets the host begin what it can.
    pub fn take(&mut self, line: &str) -> Result<(), Fail> {
        self.text = String::from_str(self.alloc, line)?;
        self.act(line)?;
        self.pump()
    }

    fn act(&mut self, action: &str) -> Result<(), Fail> {
        let (word, rest) = action.split_once(' ').unwrap_or((action, ""));
        match word {
            "host" => self.start(rest),
            "open" => self.open(),
            _ => self.read(action),
        }
    }

    /// A new host, over a keeper of which the call of that number fails, if there is a number.
    fn start(&mut self, number: &str) -> Result<(), Fail> {
        let failing = number.parse::<u64>().unwrap_or(0);
        let text = String::from_str(self.alloc, self.text())?;
        *self = Desk::new(self.alloc, &[failing])?;
        self.text = text;
        Ok(())
    }

    /// A host that starts from the records, where the keeper gives them.
    fn open(&mut self) -> Result<(), Fail> {
        match Host::open(self.alloc, KEY, &mut self.keeper) {
            Ok(host) => {
                self.host = host;
                Ok(())
            }
            Err(_) => self.tell("refused"),
        }
    }

    /// A line of the user, or bytes of the chip.
    fn read(&mut self, action: &str) -> Result<(), Fail> {
        let line = read_replay(self.alloc, action.as_bytes()).ok().flatten();
        match line.ok_or("no line")? {
            ReplayLine::Chip { bytes } => self.feed(bytes.as_slice()),
            ReplayLine::Plain { line } => self.say(&line),
        }
    }

    fn say(&mut self, line: &Line) -> Result<(), Fail> {
        match line {
            Line::Command { order } => self.order(order),
            Line::Tick { count } => self.ticks(*count),
            Line::Join { node } => self.join(*node),
            Line::Cancel { command } => self.cancel(*command),
            Line::Send { node, word } => self.send(*node, *word),
            Line::Get { node, end } => self.get(*node, *end),
            Line::Interview { node } => self.interview(*node),
            Line::Neighbours { node } => self.ask(Question::Neighbours(*node)),
            Line::Failed { node } => self.ask(Question::Failed(*node)),
            Line::Probe => self.ask(Question::Probe),
            _ => Err("not for a host".into()),
        }
    }

    fn order(&mut self, order: &Order) -> Result<(), Fail> {
        match self.host.command(order, &mut self.keeper) {
            Ok(number) => self.tell(format!(in self.alloc; "accepted {number}")?.as_str()),
            Err(_) => self.tell("refused"),
        }
    }

    fn join(&mut self, node: NodeId) -> Result<(), Fail> {
        let answer = self.host.join(node, &mut self.keeper);
        self.answer(answer)
    }

    fn cancel(&mut self, command: u32) -> Result<(), Fail> {
        match self.host.cancel(command, &mut self.keeper) {
            Ok(()) => Ok(()),
            Err(_) => Err("not cancelled".into()),
        }
    }

    fn send(&mut self, node: NodeId, word: Word) -> Result<(), Fail> {
        let answer = self.host.send(node, word);
        self.answer(answer)
    }

    fn get(&mut self, node: NodeId, end: EndPoint) -> Result<(), Fail> {
        let answer = self.host.get(node, end);
        self.answer(answer)
    }

    fn interview(&mut self, node: NodeId) -> Result<(), Fail> {
        let answer = self.host.interview(node);
        self.answer(answer)
    }

    fn ask(&mut self, question: Question) -> Result<(), Fail> {
        let answer = self.host.ask(question);
        self.answer(answer)
    }

    fn feed(&mut self, bytes: &[u8]) -> Result<(), Fail> {
        let mut out = List::new(self.alloc);
        self.host
            .feed(bytes, &mut self.draw, &mut out, &mut self.keeper)?;
        self.show(&out)
    }

    /// So many ticks, and after each what the host can begin; `act` does so after the last.
    fn ticks(&mut self, count: u32) -> Result<(), Fail> {
        for _ in 0..count {
            self.tick()?;
            self.pump()?;
        }
        Ok(())
    }

    fn tick(&mut self) -> Result<(), Fail> {
        let mut out = List::new(self.alloc);
        self.host.tick(&mut self.draw, &mut out, &mut self.keeper)?;
        self.show(&out)
    }

    fn pump(&mut self) -> Result<(), Fail> {
        let mut out = List::new(self.alloc);
        self.host.pump(&mut self.draw, &mut out, &mut self.keeper)?;
        self.show(&out)
    }

    fn answer(&mut self, answer: Result<(), Refused>) -> Result<(), Fail> {
        match answer {
            Ok(()) => Ok(()),
            Err(_) => self.tell("refused"),
        }
    }

    /// What is put out stands after the line.
    fn tell(&mut self, text: &str) -> Result<(), Fail> {
        put_following(&mut self.text, text.as_bytes())
    }

    fn show(&mut self, out: &List<HostOut>) -> Result<(), Fail> {
        for one in out.as_slice() {
            let text = text_of(self.alloc, one)?;
            put_following(&mut self.text, text.as_slice())?;
        }
        Ok(())
    }
}

fn put_following(line: &mut String, text: &[u8]) -> Result<(), Fail> {
    line.push_str(" > ")?;
    line.push_str(str::from_utf8(text)?)?;
    Ok(())
}

/// A unit or an entry as it stands in a transcript.
fn text_of(alloc: Global, out: &HostOut) -> Result<Bytes, NoMemory> {
    match out {
        HostOut::Write(unit) => print_entry(alloc, &written(alloc, unit)?),
        HostOut::Note(entry) => print_entry(alloc, entry),
    }
}

/// The entry of a unit that the host writes.
fn written(alloc: Global, unit: &Unit) -> Result<Entry, NoMemory> {
    Ok(Entry::Written {
        side: Side::Host,
        unit: encode(alloc, unit)?,
    })
}
