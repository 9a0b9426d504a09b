//! Values from outside: transcripts as docs/TRANSCRIPT.md describes them, in order or with one thing wrong, by hand.

use audit::{Break, examine};
use std::alloc::Global;
use std::process::Abort;
use std::test::Fail;

/// A switch is set, and confirms it.
const ORDER: &str = "> set 2 on\naccepted 1 node 2\n";

const BEGIN: &str = "begin 2 1 1\n";

const REQUEST: &str = "h 010E001302076C0101032501FF250177\n";

const FIRST: &str =
    "c 06\nc 0104011301E8\nair 1 1>2 via - 6C0101032501FF\nh 06\n> tick 2\nt 1\nheard 1\n";

const CHANGE: &str = "dev 2 1 0/switch 255\n";

const SECOND: &str =
    "air 2 2>1 via - 6C0201FF00\nc 010500130100E8\nh 06\nt 2\nheard 2\nc 010B00040002056C0201FF0067\nh 06\n";

const SUCCESS: &str = "out 1 success\n";

const STORE: &str = "store 2 0/switch 255\n";

const TABLE: &str =
    "end 2\nnode 2 sessions 1\nvalue 2 0/switch confirmed 255 heard -\ndevice 2 0/switch 255\n";

/// A segment goes on the air, and thirteen sessions of its node begin.
const SEGMENT: &str = "air 1 2>1 via - 55C0\n";

const THIRTEEN: &str =
    "> set 2 on\naccepted 1 node 2\nbegin 2 1 1\nout 1 fail\n> set 2 on\naccepted 2 node 2\nbegin 2 2 2\nout 2 fail\n\
     > set 2 on\naccepted 3 node 2\nbegin 2 3 3\nout 3 fail\n> set 2 on\naccepted 4 node 2\nbegin 2 4 4\nout 4 fail\n\
     > set 2 on\naccepted 5 node 2\nbegin 2 5 5\nout 5 fail\n> set 2 on\naccepted 6 node 2\nbegin 2 6 6\nout 6 fail\n\
     > set 2 on\naccepted 7 node 2\nbegin 2 7 7\nout 7 fail\n> set 2 on\naccepted 8 node 2\nbegin 2 8 8\nout 8 fail\n\
     > set 2 on\naccepted 9 node 2\nbegin 2 9 9\nout 9 fail\n> set 2 on\naccepted 10 node 2\nbegin 2 10 10\nout 10 fail\n\
     > set 2 on\naccepted 11 node 2\nbegin 2 11 11\nout 11 fail\n> set 2 on\naccepted 12 node 2\nbegin 2 12 12\nout 12 fail\n\
     > set 2 on\naccepted 13 node 2\nbegin 2 13 13\nout 13 fail\n";

const FOURTEENTH: &str = "> set 2 on\naccepted 14 node 2\nbegin 2 14 14\n";

const AGAIN: &str = "> repeat 1\nheard 1\n";

/// A value is heard, and stands in the table.
const REPORT: &str = "report 2 0/switch 255\n";

const HEARD: &str = "node 2 sessions -\nvalue 2 0/switch confirmed - heard 255\n";

/// Texts in pieces, the first line that breaks them, and the rule that it breaks.
const CASES: [(&[&str], Option<(u32, Break)>); 75] = [
    (&[], None),
    (
        &[
            ORDER, BEGIN, REQUEST, FIRST, CHANGE, SECOND, SUCCESS, STORE, TABLE,
        ],
        None,
    ),
    (
        &[ORDER, BEGIN, REQUEST, FIRST, CHANGE, SECOND, SUCCESS],
        None,
    ),
    // text
    (&[ORDER, "begin 2 1 1"], Some((3, Break::Text))),
    (&[ORDER, "begins 2 1 1\n"], Some((3, Break::Text))),
    (&["\n"], Some((1, Break::Text))),
    (&[ORDER, ">  tick 1\n"], Some((3, Break::Text))),
    (&[ORDER, "> tick 1 \n"], Some((3, Break::Text))),
    (&[ORDER, "> tick\t1\n"], Some((3, Break::Text))),
    (&[ORDER, "> tick 1\r\n"], Some((3, Break::Text))),
    (&[ORDER, "> drop h0\n"], Some((3, Break::Text))),
    (&[ORDER, "> drop h\n"], None),
    (&["> \n"], Some((1, Break::Text))),
    (&["> # set 2 on\n"], Some((1, Break::Text))),
    // sessions
    (
        &["> set 2 on\naccepted 2 node 2\n"],
        Some((2, Break::Sessions)),
    ),
    (&[ORDER, ORDER], Some((4, Break::Sessions))),
    (&[ORDER, BEGIN, BEGIN], Some((4, Break::Sessions))),
    (&[ORDER, "begin 2 2 1\n"], Some((3, Break::Sessions))),
    (&[BEGIN], Some((1, Break::Sessions))),
    (&[ORDER, "begin 10 1 1\n"], Some((3, Break::Sessions))),
    (
        &[ORDER, "> set 10 on\naccepted 2 node 2\nbegin 2 1 2\n"],
        Some((5, Break::Sessions)),
    ),
    (
        &[
            ORDER,
            BEGIN,
            "> set 2 off\naccepted 2 node 2\nbegin 2 2 2\n",
        ],
        Some((6, Break::Sessions)),
    ),
    (
        &[
            ORDER,
            "> set 2 off\naccepted 2 node 2\nbegin 2 1 2\nout 2 fail\nbegin 2 2 1\n",
        ],
        Some((7, Break::Sessions)),
    ),
    (
        &[
            ORDER,
            BEGIN,
            "out 1 unanswered\n> set 2 off\naccepted 2 node 2\nbegin 2 2 2\n",
        ],
        Some((7, Break::Sessions)),
    ),
    (
        &[
            ORDER,
            BEGIN,
            "out 1 nosupport\n> set 2 off\naccepted 2 node 2\nbegin 2 2 2\n",
        ],
        None,
    ),
    // once
    (
        &[ORDER, BEGIN, REQUEST, FIRST, SECOND, SUCCESS, STORE, TABLE],
        Some((19, Break::Once)),
    ),
    (
        &[ORDER, BEGIN, CHANGE, "h 06\n", CHANGE],
        Some((6, Break::Once)),
    ),
    (&[ORDER, BEGIN, CHANGE, CHANGE], Some((4, Break::Once))),
    (&[ORDER, CHANGE], Some((3, Break::Once))),
    (
        &[ORDER, BEGIN, "out 1 fail\n", CHANGE],
        Some((5, Break::Once)),
    ),
    (
        &[ORDER, BEGIN, "out 1 nosupport\n", CHANGE],
        Some((5, Break::Once)),
    ),
    (
        &[ORDER, BEGIN, "dev 2 1 0/switch 0\n"],
        Some((4, Break::Once)),
    ),
    (
        &[ORDER, BEGIN, "dev 2 1 0/level 255\n"],
        Some((4, Break::Once)),
    ),
    (
        &[ORDER, BEGIN, "dev 2 0 0/switch 255\n"],
        Some((4, Break::Once)),
    ),
    (
        &[
            "> comfort 6 1 2 215\naccepted 1 node 6\nbegin 6 1 1\ndev 6 1 0/mode 1\ndev 6 1 0/setpoint:2 215\n",
        ],
        None,
    ),
    (
        &[
            "> comfort 6 1 2 215\naccepted 1 node 6\nbegin 6 1 1\ndev 6 1 0/setpoint:2 215\ndev 6 1 0/mode 1\n",
        ],
        Some((4, Break::Once)),
    ),
    (
        &["> comfort 6 1 2 215\naccepted 1 node 6\nbegin 6 1 1\ndev 6 1 0/mode 1\nh 06\n"],
        Some((4, Break::Once)),
    ),
    (
        &[
            "> bulk 8 254 0102\naccepted 1 node 8\nbegin 8 1 1\ndev 8 1 0/config:254 1\ndev 8 1 0/config:255 2\n",
        ],
        None,
    ),
    (
        &[
            "> set 3 on\naccepted 1 node 3\nbegin 3 1 1\ndev 3 1 0/level 99\nout 1 success\nstore 3 0/level 99\nh 06\n",
        ],
        None,
    ),
    (
        &["> set 4 on\naccepted 1 node 4\nbegin 4 1 1\ndev 4 1 0/lock 255\nout 1 cancelled\n"],
        Some((5, Break::Once)),
    ),
    (
        &[ORDER, BEGIN, CHANGE, "out 1 fail\n"],
        Some((5, Break::Once)),
    ),
    (
        &[ORDER, BEGIN, CHANGE, "out 1 nosupport\n"],
        Some((5, Break::Once)),
    ),
    (&["dev 9 plain 0/switch 255\n"], None),
    (&["dev 2 plain 0/switch 255\n"], Some((1, Break::Once))),
    (&[ORDER, "out 1 cancelled\n"], None),
    // air
    (&["air 2 2>1 via - 06\n"], Some((1, Break::Air))),
    (&["heard 1\n"], Some((1, Break::Air))),
    (&["lost 1\n"], Some((1, Break::Air))),
    (&["unheard 1\n"], Some((1, Break::Air))),
    (
        &["air 1 2>1 via - 06\n> tick 1\nlost 1\nunheard 1\n"],
        Some((4, Break::Air)),
    ),
    (&["air 1 2>1 via - 06\nheard 1\n"], Some((2, Break::Air))),
    (
        &["air 1 2>1 via - 06\n> repeat 1\nheard 1\nheard 1\n"],
        Some((4, Break::Air)),
    ),
    (
        &["air 1 2>1 via - 06\nair 2 2>1 via - 06\n> repeat 2\nheard 1\n"],
        Some((4, Break::Air)),
    ),
    (
        &["air 1 2>1 via - 06\n> tick 1\nheard 1\n> repeat 1\nheard 1\n> tick 1\n"],
        None,
    ),
    (&[SEGMENT, THIRTEEN, AGAIN], None),
    (
        &[SEGMENT, THIRTEEN, FOURTEENTH, AGAIN],
        Some((58, Break::Air)),
    ),
    // payload
    (&["air 1 1>2 via - 06\n"], Some((1, Break::Payload))),
    (
        &[
            REQUEST,
            "air 1 1>2 via - 6C0101032501FF\nair 2 1>2 via - 6C0101032501FF\n",
        ],
        Some((3, Break::Payload)),
    ),
    (
        &[REQUEST, "dropped h\nair 1 1>2 via - 6C0101032501FF\n"],
        Some((3, Break::Payload)),
    ),
    (
        &[REQUEST, "overrun h\nair 1 1>2 via - 6C0101032501FF\n"],
        Some((3, Break::Payload)),
    ),
    (
        &[
            REQUEST,
            "garbled h 010E001302076C0101032501FF250176\nair 1 1>2 via - 6C0101032501FF\n",
        ],
        Some((3, Break::Payload)),
    ),
    (
        &[REQUEST, "air 1 1>3 via - 6C0101032501FF\n"],
        Some((2, Break::Payload)),
    ),
    (&[REQUEST, "h 06\nair 1 1>2 via - 6C0101032501FF\n"], None),
    (
        &["garbled h 010E001302076C0101032501FF250177\nair 1 1>2 via - 6C0101032501FF\n"],
        Some((2, Break::Payload)),
    ),
    // store
    (
        &[ORDER, BEGIN, CHANGE, SUCCESS, "h 06\n"],
        Some((6, Break::Store)),
    ),
    (
        &[ORDER, BEGIN, CHANGE, SUCCESS, "store 2 0/switch 0\n"],
        Some((6, Break::Store)),
    ),
    (
        &[ORDER, BEGIN, CHANGE, SUCCESS, STORE, STORE],
        Some((7, Break::Store)),
    ),
    // table
    (&["end 0\nnode 2 sessions 1\n"], Some((2, Break::Table))),
    (
        &["end 0\nnode 2 sessions -\nnode 2 sessions -\n"],
        Some((3, Break::Table)),
    ),
    (
        &["end 0\nnode 2 sessions -\ndevice 2 0/switch 255\n"],
        Some((3, Break::Table)),
    ),
    (&["end 0\nnode 2 sessions -\ndevice 2 0/switch 0\n"], None),
    (&[REPORT, "end 0\n", HEARD], None),
    (
        &[REPORT, "> restart\nend 0\n", HEARD],
        Some((5, Break::Table)),
    ),
    (
        &[REPORT, "> restart\nrefused keeperfault\nend 0\n", HEARD],
        None,
    ),
    (
        &[
            ORDER,
            BEGIN,
            CHANGE,
            SUCCESS,
            STORE,
            "end 2\nnode 2 sessions 1\ndevice 2 0/switch 255\nvalue 2 0/switch confirmed 0 heard -\n",
        ],
        Some((10, Break::Table)),
    ),
];

/// The pieces as one text.
fn text_of(alloc: Global, pieces: &[&str]) -> Result<Vec<u8>, Fail> {
    let mut text = Vec::new(alloc);
    for piece in pieces {
        text.extend_from_slice(piece.as_bytes())?;
    }
    Ok(text)
}

pub(crate) fn expect(
    rt: &impl Abort,
    alloc: Global,
    pieces: &[&str],
    want: Option<(u32, Break)>,
) -> Result<(), Fail> {
    let text = text_of(alloc, pieces)?;
    let found = examine(alloc, text.as_slice()).ok().ok_or("no memory")?;
    assert_eq!(rt; found, want, "{pieces:?}");
    Ok(())
}

#[test]
fn finds_the_first_broken_line(rt: HostRuntime) -> Result<(), Fail> {
    for (pieces, want) in CASES {
        expect(&rt, rt.alloc(), pieces, want)?;
    }
    Ok(())
}
