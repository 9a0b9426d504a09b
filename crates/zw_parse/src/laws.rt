//! Laws on the texts of entries and transcripts. Each is the contract of a function without a body.

ghost use Rattle.std.specs.Prelude.{◌≡◌, List};
ghost use Rattle.zw_text.specs.Entry.{entry_text, transcript_text};
ghost use Rattle.zw_text.specs.Fits.{EntryFits, IsOneLine, feeds};
ghost use Rattle.zw_text.specs.declared.entry.Entry.{Entry as AnyEntry};
ghost use Rattle.zw_parse.specs.Lines.{AreLines};

/// No text is that of two entries.
pub fn one_entry_each()
    ensures { (first second : AnyEntry) → EntryFits first → EntryFits second → entry_text first ≡ entry_text second → first ≡ second }
{}

/// The text of an entry has no line feed, where what the entry took from outside has none.
pub fn entries_without_feed()
    ensures { (entry : AnyEntry) → EntryFits entry → IsOneLine entry → feeds (entry_text entry) ≡ 0 }
{}

/// No text is that of two transcripts.
pub fn one_transcript_each()
    ensures { (first second : List AnyEntry) → AreLines first → AreLines second → transcript_text first ≡ transcript_text second → first ≡ second }
{}
