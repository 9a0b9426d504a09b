//! Texts, packed into one.

ghost use Rattle.std.specs.Prelude.{◌≡◌, ◌<◌, ◌≤◌, [], ◌∷◌, ◌++◌, length, slice_get, slice_range, Some, OnOk, OnErr};
ghost use Rattle.std.specs.List.{flat_map};
ghost use Rattle.host_keep.specs.Packed.{IsPacked, begin_at, texts_of};

use std::alloc::Global;
use std::marker::Model;
use zw_base::NoMemory;

/// Texts in their order, as one text with the end of each. Contracts see the list of them.
#[derive(Drop)]
pub struct Texts {
    bytes: Vec<u8>,
    ends: Vec<usize>,
}

impl Model for Texts {
    ghost use Rattle.std.specs.Prelude.{ℕ, List};
    ghost use Rattle.host_keep.specs.Packed.{IsPacked, texts_of};

    ghost Value = { List (List ℕ) };

    ghost view = { λ t. texts_of t.bytes.items 0 t.ends.items };

    ghost invariant = { λ t. IsPacked t.bytes.items 0 t.ends.items };
}

impl Texts {
    /// No texts. It takes no memory.
    pub fn new(alloc: Global) -> Texts
        ensures { result ≡ [] }
    {
        Texts {
            bytes: Vec::new(alloc),
            ends: Vec::new(alloc),
        }
    }

    /// Adds a text at the end.
    pub fn push(&mut self, text: &[u8]) -> Result<(), NoMemory>
        ensures ok { OnOk result (self.new ≡ self.old ++ text.now ∷ []) }
        ensures err { OnErr result (self.new ≡ self.old) }
    {
        self.ends.reserve(1)?;
        self.bytes.extend_from_slice(text)?;
        let end = self.bytes.as_slice().len();
        self.ends.push_reserved(end);
        Ok(())
    }

    pub fn len(&self) -> usize
        ensures { result ≡ length self.now }
    {
        self.ends.as_slice().len()
    }

    /// Takes all texts away. Their room is kept.
    pub fn clear(&mut self)
        ensures { self.new ≡ [] }
    {
        self.bytes.clear();
        self.ends.clear();
    }

    /// All texts, one after the other.
    pub fn whole(&self) -> &[u8]
        ensures { result.now ≡ flat_map (λ text. text) self.now }
    {
        self.bytes.as_slice()
    }

    /// The text at that place, counted from 0.
    pub fn get(&self, at: usize) -> &[u8]
        requires { at < length self.now }
        ensures { slice_get self.now at ≡ Some result.now }
    {
        let (from, end) = bounds_of(self.bytes.as_slice(), self.ends.as_slice(), at);
        &self.bytes[from..end]
    }
}

/// Between which places the text at a place stands.
fn bounds_of(bytes: &[u8], ends: &[usize], at: usize) -> (usize, usize)
    requires packed { IsPacked bytes.now 0 ends.now }
    requires within { at < length ends.now }
    ensures in_order { result.0 ≤ result.1 }
    ensures to_end { result.1 ≤ length bytes.now }
    ensures text { slice_get (texts_of bytes.now 0 ends.now) at ≡
        Some (slice_range bytes.now result.0 result.1) }
{
    (begin_at(ends, at), ends[at])
}

/// Where the text at a place begins.
fn begin_at(ends: &[usize], at: usize) -> usize
    requires { at < length ends.now }
    ensures { result ≡ begin_at 0 ends.now at }
{
    if at == 0 { 0 } else { ends[at - 1] }
}
