//! A set of nodes as a mask of 256 bits, of which bit n stands for node n.

ghost use Rattle.std.specs.Prelude.{◌≡◌, ℕ, ◌<◌, ◌||◌, ◌&&◌, not, false, nat_eq, MatchOption};
ghost use Rattle.route_table.specs.NodeSet.{has, IsFirst};

const WORDS: usize = 4;

const WORD_BITS: u8 = 64;

/// A set of nodes.
#[derive(Clone, Copy, Debug)]
pub struct NodeSet {
    words: [u64; 4],
}

impl NodeSet {
    pub fn new() -> NodeSet
        ensures { (q : ℕ) → has result q ≡ false }
    {
        NodeSet { words: [0; 4] }
    }

    pub fn contains(&self, n: u8) -> bool
        ensures { result ≡ has self.now n }
    {
        (self.words[(n / WORD_BITS) as usize] >> (n % WORD_BITS)) & 1 == 1
    }

    pub fn insert(&mut self, n: u8)
        ensures { (q : ℕ) → has self.new q ≡ (nat_eq q n || has self.old q) }
    {
        self.words[(n / WORD_BITS) as usize] |= 1 << (n % WORD_BITS);
    }

    pub fn remove(&mut self, n: u8)
        ensures { (q : ℕ) → has self.new q ≡ (not (nat_eq q n) && has self.old q) }
    {
        self.words[(n / WORD_BITS) as usize] &= !(1 << (n % WORD_BITS));
    }

    /// Adds the nodes of the other set.
    pub fn join(&mut self, other: &NodeSet)
        ensures { (q : ℕ) → has self.new q ≡ (has self.old q || has other.now q) }
    {
        for i in 0..WORDS {
            self.words[i] |= other.words[i];
        }
    }

    /// Keeps the nodes that the other set has too.
    pub fn meet(&mut self, other: &NodeSet)
        ensures { (q : ℕ) → has self.new q ≡ (has self.old q && has other.now q) }
    {
        for i in 0..WORDS {
            self.words[i] &= other.words[i];
        }
    }

    /// The lowest node of the set.
    pub fn first(&self) -> Option<u8>
        ensures { MatchOption result ((q : ℕ) → has self.now q ≡ false) (λ n. IsFirst self.now n) }
    {
        for i in 0..WORDS {
            let word = self.words[i];
            if word != 0 {
                return Some(i as u8 * WORD_BITS + word.trailing_zeros() as u8);
            }
        }
        None
    }
}
