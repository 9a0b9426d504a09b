//! The lines of `include`.

ghost use Rattle.std.specs.Prelude.{◌≡◌, bytes_eq};
ghost use Rattle.include_text.specs.Line.{first_word, number_in, word_in, word_text};

use zw_base::NodeId;

/// A line of `include`.
#[derive(Clone, Copy, Debug, PartialEq, Eq)]
pub enum IncludeLine {
    /// A node is to be added, 2 to 232.
    Add(NodeId),
    /// A node forgets its key, 2 to 232.
    Reset(NodeId),
    /// So many of the next frames are lost, 1 to 1,000.
    Lose(u32),
    /// The frame of that number is heard again, 1 to 999,999,999.
    Repeat(u64),
    /// So many ticks of 100 ms pass, 1 to 100,000.
    Tick(u32),
}

/// The first word of a line, one for each kind of line. Its text is the name in lower case.
#[derive(Clone, Copy, Debug, PartialEq, Eq)]
pub enum IncludeWord {
    Add,
    Reset,
    Lose,
    Repeat,
    Tick,
}

/// All first words.
const WORDS: [IncludeWord; 5] = [
    IncludeWord::Add,
    IncludeWord::Reset,
    IncludeWord::Lose,
    IncludeWord::Repeat,
    IncludeWord::Tick,
];

/// The text of a first word.
pub(crate) fn text_of(word: IncludeWord) -> &'static str
    ensures { result.now ≡ word_text word }
{
    match word {
        IncludeWord::Add => "add",
        IncludeWord::Reset => "reset",
        IncludeWord::Lose => "lose",
        IncludeWord::Repeat => "repeat",
        IncludeWord::Tick => "tick",
    }
}

/// Whether these bytes are that first word.
fn is_text_of(bytes: &[u8], word: IncludeWord) -> bool
    ensures { result ≡ bytes_eq bytes.now (word_text word) }
{
    bytes == text_of(word).as_bytes()
}

/// The first word of a line that these bytes are.
#[tactic(auto, unfolding(crate::specs::Line::word_in))]
pub(crate) fn word_of(bytes: &[u8]) -> Option<IncludeWord>
    ensures { result ≡ word_in bytes.now }
{
    WORDS.iter().copied().find(|word| is_text_of(bytes, *word))
}

/// The first word of a line.
pub fn first_word(line: &IncludeLine) -> IncludeWord
    ensures { result ≡ first_word line.now }
{
    match line {
        IncludeLine::Add(_) => IncludeWord::Add,
        IncludeLine::Reset(_) => IncludeWord::Reset,
        IncludeLine::Lose(_) => IncludeWord::Lose,
        IncludeLine::Repeat(_) => IncludeWord::Repeat,
        IncludeLine::Tick(_) => IncludeWord::Tick,
    }
}

/// The number of a line.
pub fn number_in(line: &IncludeLine) -> u64
    ensures { result ≡ number_in line.now }
{
    match line {
        IncludeLine::Add(node) | IncludeLine::Reset(node) => u64::from(node.number()),
        IncludeLine::Lose(count) | IncludeLine::Tick(count) => u64::from(*count),
        IncludeLine::Repeat(frame) => *frame,
    }
}
