//! Words that ask, and words that do not.

use crate::rows::check_row;
use run_words::{Asked, WordsFault, read_words};
use std::alloc::Global;
use zw_base::NoMemory;
use zw_words::Side;

const USAGE: Result<Asked, WordsFault> = Err(WordsFault::Usage);

const ROWS: &[(&str, Result<Asked, WordsFault>)] = &[
    ("", USAGE),
    ("sim", Ok(Asked::Sim { quiet: false })),
    ("sim --quiet", Ok(Asked::Sim { quiet: true })),
    ("sim --quiet --quiet", USAGE),
    ("sim now", USAGE),
    ("sim -q", USAGE),
    ("check", Ok(Asked::Check { from: Side::Chip })),
    ("check --from host", Ok(Asked::Check { from: Side::Host })),
    ("check --from=chip", Ok(Asked::Check { from: Side::Chip })),
    ("check --from radio", USAGE),
    ("check --from", USAGE),
    ("generate", USAGE),
    ("generate 0", USAGE),
    ("generate 7", Ok(Asked::Generate { hundreds: 7 })),
    ("generate 50", Ok(Asked::Generate { hundreds: 50 })),
    ("generate 51", USAGE),
    ("generate 05", USAGE),
    ("generate 1 2", USAGE),
    ("replay", Ok(Asked::Replay)),
    ("replay x", USAGE),
    ("events", Ok(Asked::Events)),
    ("include", Ok(Asked::Include)),
    ("audit", Ok(Asked::Audit)),
    ("host", USAGE),
    ("host -x", USAGE),
    ("host wait tick", Ok(Asked::Host)),
    ("Sim", USAGE),
    ("simulate", USAGE),
];

fn words_of(alloc: Global, text: &str) -> Result<Vec<String>, NoMemory> {
    let mut words = Vec::new(alloc);
    for word in text.split_whitespace() {
        words.push(String::from_str(alloc, word)?)?;
    }
    Ok(words)
}

/// Whether the words ask for that.
fn are_read(alloc: Global, text: &str, asked: &Result<Asked, WordsFault>) -> bool {
    match words_of(alloc, text) {
        Ok(words) => read_words(alloc, words.as_slice()) == *asked,
        Err(_) => false,
    }
}

#[test]
fn words_ask(rt: HostRuntime) {
    for (row, (text, asked)) in ROWS.iter().enumerate() {
        check_row(&rt, are_read(rt.alloc(), text, asked), row);
    }
}
