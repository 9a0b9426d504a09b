//! What `check` writes of texts, with ample memory.

use crate::rows::check_row;
use std::alloc::Global;
use unit_report::check;
use zw_words::Side;

/// Every word of a line, at least once.
const CASES: &[(&str, Side, &str)] = &[
    ("", Side::Chip, ""),
    (
        "06 15\r\n\t18 01",
        Side::Chip,
        "ack\nnak\ncan\nunfinished 1\n",
    ),
    ("01030015E8", Side::Chip, "badsum want E9 got E8\n"),
    ("01030015E9", Side::Host, "frame request 15 -\n  body ok\n"),
    ("010200", Side::Chip, "badlength 2\nstray 00\n"),
    ("01030215EB", Side::Chip, "badkind 02\n"),
    (
        "010e001302076c0101032501ff250177",
        Side::Host,
        "frame request 13 02076C0101032501FF2501\n  body ok\n  payload ok\n",
    ),
    (
        "010e001302076c0101032501ff250177",
        Side::Chip,
        "frame request 13 02076C0101032501FF2501\n  body badfield 1\n",
    ),
    (
        "01 04 01 13 01 E8",
        Side::Chip,
        "frame response 13 01\n  body ok\n",
    ),
];

/// Whether the lines are written of a text.
fn is_said(alloc: Global, text: &str, from: Side, lines: &str) -> bool {
    match check(alloc, text.as_bytes(), from) {
        Ok(written) => written.as_slice() == lines.as_bytes(),
        Err(_) => false,
    }
}

#[test]
fn texts_are_named(rt: HostRuntime) {
    for (row, (text, from, lines)) in CASES.iter().enumerate() {
        check_row(&rt, is_said(rt.alloc(), text, *from, lines), row);
    }
}
