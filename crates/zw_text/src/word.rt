//! The first words of lines.

ghost use Rattle.std.specs.Prelude.{◌≡◌, bytes_eq};
ghost use Rattle.zw_text.specs.Line.{is_replayed, line_word_in, word_text};

/// The first word of a line, one for each kind of line (this project's own). Its text is the name in lower case.
#[derive(Clone, Copy, PartialEq, Eq)]
pub enum LineWord {
    Set,
    Mode,
    Setpoint,
    Comfort,
    Config,
    Bulk,
    Assoc,
    Unassoc,
    Interval,
    Tick,
    Cut,
    Stall,
    Drop,
    Garble,
    Collide,
    Send,
    Get,
    Join,
    Interview,
    Lose,
    LoseAck,
    Repeat,
    Wake,
    Cancel,
    Link,
    Unlink,
    Discover,
    Neighbours,
    Failed,
    Probe,
    Local,
    Show,
    Store,
    Restart,
}

/// All first words.
const LINE_WORDS: [LineWord; 34] = [
    LineWord::Set,
    LineWord::Mode,
    LineWord::Setpoint,
    LineWord::Comfort,
    LineWord::Config,
    LineWord::Bulk,
    LineWord::Assoc,
    LineWord::Unassoc,
    LineWord::Interval,
    LineWord::Tick,
    LineWord::Cut,
    LineWord::Stall,
    LineWord::Drop,
    LineWord::Garble,
    LineWord::Collide,
    LineWord::Send,
    LineWord::Get,
    LineWord::Join,
    LineWord::Interview,
    LineWord::Lose,
    LineWord::LoseAck,
    LineWord::Repeat,
    LineWord::Wake,
    LineWord::Cancel,
    LineWord::Link,
    LineWord::Unlink,
    LineWord::Discover,
    LineWord::Neighbours,
    LineWord::Failed,
    LineWord::Probe,
    LineWord::Local,
    LineWord::Show,
    LineWord::Store,
    LineWord::Restart,
];

/// The text of a first word.
fn text_of(word: LineWord) -> &'static str
    ensures { result.now ≡ word_text word }
{
    match word {
        LineWord::Set => "set",
        LineWord::Mode => "mode",
        LineWord::Setpoint => "setpoint",
        LineWord::Comfort => "comfort",
        LineWord::Config => "config",
        LineWord::Bulk => "bulk",
        LineWord::Assoc => "assoc",
        LineWord::Unassoc => "unassoc",
        LineWord::Interval => "interval",
        LineWord::Tick => "tick",
        LineWord::Cut => "cut",
        LineWord::Stall => "stall",
        LineWord::Drop => "drop",
        LineWord::Garble => "garble",
        LineWord::Collide => "collide",
        LineWord::Send => "send",
        LineWord::Get => "get",
        LineWord::Join => "join",
        LineWord::Interview => "interview",
        LineWord::Lose => "lose",
        LineWord::LoseAck => "loseack",
        LineWord::Repeat => "repeat",
        LineWord::Wake => "wake",
        LineWord::Cancel => "cancel",
        LineWord::Link => "link",
        LineWord::Unlink => "unlink",
        LineWord::Discover => "discover",
        LineWord::Neighbours => "neighbours",
        LineWord::Failed => "failed",
        LineWord::Probe => "probe",
        LineWord::Local => "local",
        LineWord::Show => "show",
        LineWord::Store => "store",
        LineWord::Restart => "restart",
    }
}

/// Whether these bytes are that first word.
fn is_text_of(bytes: &[u8], word: LineWord) -> bool
    ensures { result ≡ bytes_eq bytes.now (word_text word) }
{
    bytes == text_of(word).as_bytes()
}

/// The first word of a line that these bytes are.
#[tactic(auto, unfolding(crate::specs::Line::line_word_in))]
pub fn line_word(bytes: &[u8]) -> Option<LineWord>
    ensures { result ≡ line_word_in bytes.now }
{
    LINE_WORDS
        .iter()
        .copied()
        .find(|word| is_text_of(bytes, *word))
}

/// Whether lines that begin with the word are lines of `replay` too: those that speak to the host, and `tick`.
pub fn is_replay_word(word: LineWord) -> bool
    ensures { result ≡ is_replayed word }
{
    matches!(
        word,
        LineWord::Set
            | LineWord::Mode
            | LineWord::Setpoint
            | LineWord::Comfort
            | LineWord::Config
            | LineWord::Bulk
            | LineWord::Assoc
            | LineWord::Unassoc
            | LineWord::Interval
            | LineWord::Tick
            | LineWord::Send
            | LineWord::Get
            | LineWord::Join
            | LineWord::Interview
            | LineWord::Cancel
            | LineWord::Neighbours
            | LineWord::Failed
            | LineWord::Probe
            | LineWord::Store
    )
}
