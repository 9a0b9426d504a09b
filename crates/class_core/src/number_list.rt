//! Lists of numbers of one size.

ghost use Rattle.std.specs.Prelude.{◌≡◌, ◌<◌, ◌≤◌, ◌+◌, ◌*◌, [], ◌∷◌, ◌++◌, length, All, OnOk, OnErr};
ghost use Rattle.class_core.specs.Ranges.{bytes_in, limit};
ghost use Rattle.class_core.specs.Reading.{Gives, numbers_at};

use crate::fault::ClassFault;
use crate::fields::number_in;
use crate::number::Size;
use std::alloc::Global;
use std::marker::Model;
use zw_base::NoMemory;

/// The most numbers of a list: its count is one byte.
pub const MAX_NUMBERS: usize = 255;

/// The room that is made at the first number.
const FIRST_ROOM: usize = 64;

/// At most 255 numbers of one size. Contracts see the size and the numbers.
#[derive(Debug, Drop)]
pub struct NumberList {
    size: Size,
    numbers: Vec<u32>,
}

impl Model for NumberList {
    ghost use Rattle.class_core.specs.Ranges.{Numbers, AreNumbers};

    ghost Value = { Numbers };

    ghost view = { λ l. record { size = l.size; items = l.numbers.items } };

    ghost invariant = { λ l. AreNumbers l.size l.numbers.items };
}

impl NumberList {
    /// No numbers, each of that size. It takes no memory.
    pub fn new(alloc: Global, size: Size) -> NumberList
        ensures { result ≡ record { size = size; items = [] } }
    {
        NumberList {
            size,
            numbers: Vec::new(alloc),
        }
    }

    /// How many bytes each number takes.
    pub fn size(&self) -> Size
        ensures { result ≡ self.now.size }
    {
        self.size
    }

    pub fn len(&self) -> usize
        ensures value { result ≡ length self.now.items }
        ensures most { result ≤ 255 }
    {
        self.numbers.len()
    }

    /// Adds a number at the end.
    pub fn push(&mut self, number: u32) -> Result<(), NoMemory>
        requires fits { number < limit self.old.size }
        requires room { length self.old.items < 255 }
        ensures ok { OnOk result (self.new ≡ record self.old { items = self.old.items ++ number ∷ [] }) }
        ensures err { OnErr result (self.new ≡ self.old) }
    {
        self.make_room()?;
        self.numbers.push(number)?;
        Ok(())
    }

    /// Where there are no numbers yet, makes room for as many as most lists have.
    fn make_room(&mut self) -> Result<(), NoMemory>
        ensures { self.new ≡ self.old }
    {
        if self.numbers.is_empty() {
            self.numbers.reserve(FIRST_ROOM)?;
        }
        Ok(())
    }

    pub fn as_slice(&self) -> &[u32]
        ensures items { result.now ≡ self.now.items }
        ensures each { All (λ n. n < limit self.now.size) result.now }
    {
        self.numbers.as_slice()
    }
}

/// The offset of a number in a list that stands at an offset.
fn offset_of(at: u8, index: u8, size: Size) -> u16
    ensures { result ≡ at + index * bytes_in size }
{
    u16::from(at) + u16::from(index) * u16::from(size.bytes())
}

/// So many numbers of one size at an offset.
#[tactic(auto, unfolding(crate::specs::Reading::numbers_at))]
pub fn numbers(
    alloc: Global,
    bytes: &[u8],
    at: u8,
    size: Size,
    count: u8,
) -> Result<NumberList, ClassFault>
    ensures { Gives result (numbers_at size count at bytes.now) }
{
    let end = offset_of(at, count, size);
    if bytes.len() < usize::from(end) {
        return Err(ClassFault::Short(end));
    }
    let mut list = NumberList::new(alloc, size);
    for i in 0..count {
        let place = usize::from(offset_of(at, i, size));
        list.push(number_in(bytes, place, size).value())?;
    }
    Ok(list)
}
