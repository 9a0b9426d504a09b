//! Cutting a text into words.

ghost use Rattle.std.specs.Prelude.{◌≡◌, ◌<◌, [], ◌∷◌, length, slice_index, IfOk, IfErr, IfSome, IfNone, MatchOption, false, Ok, Err};
ghost use Rattle.zw_words.specs.Words.{is_blank, line_words, without_return, words};

use crate::LineFault;

/// The most bytes of a line, without its line feed and with its carriage return (this project's own limit).
pub const LONGEST_LINE: usize = 1024;

/// What a line begins with where it is a remark.
const REMARK: u8 = b'#';

fn is_blank_byte(byte: u8) -> bool
    ensures { result ≡ is_blank byte }
{
    byte == b' ' || byte == b'\t'
}

/// The first word of the text and what follows it; None where it has no word.
pub fn cut_word(text: &[u8]) -> Option<(&[u8], &[u8])>
    ensures some { IfSome result (λ cut. words text.now ≡ cut.0.now ∷ words cut.1.now) }
    ensures none { IfNone result (words text.now ≡ []) }
{
    for (i, byte) in text.iter().enumerate() {
        if !is_blank_byte(*byte) {
            return Some(cut_blank(&text[i..]));
        }
    }
    None
}

/// The bytes before the first blank, and those from it on. The text does not begin with a blank.
fn cut_blank(text: &[u8]) -> (&[u8], &[u8])
    requires some { 0 < length text.now }
    requires word { is_blank (slice_index text.now 0) ≡ false }
    ensures { words text.now ≡ result.0.now ∷ words result.1.now }
{
    for (i, byte) in text.iter().enumerate() {
        if is_blank_byte(*byte) {
            return text.split_at(i);
        }
    }
    (text, &[])
}

fn drop_return(text: &[u8]) -> &[u8]
    ensures { result.now ≡ without_return text.now }
{
    match text {
        [prefix @ .., b'\r'] => prefix,
        _ => text,
    }
}

/// The first word of a line and what follows it. None stands for a line without a word, and for a remark.
#[tactic(auto, unfolding(crate::specs::Words::line_words))]
pub fn open_line(text: &[u8]) -> Result<Option<(&[u8], &[u8])>, LineFault>
    ensures none { IfOk result (λ found. MatchOption found (line_words text.now ≡ Ok []) (λ cut. line_words text.now ≡ Ok (cut.0.now ∷ words cut.1.now))) }
    ensures err { IfErr result (λ fault. line_words text.now ≡ Err fault) }
{
    if text.len() > LONGEST_LINE {
        return Err(LineFault::TooLong);
    }
    if let [REMARK, ..] = text {
        return Ok(None);
    }
    Ok(cut_word(drop_return(text)))
}
