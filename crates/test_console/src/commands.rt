//! Worked inputs of each command, with what they come to.

use crate::rows::check_row;
use crate::worked::{SWITCHES_ON, outcome};
use run_lines::Status;
use std::alloc::Global;
use zw_words::LineFault;

/// A command is carried by a chip's bytes that are typed in.
const CARRIED: &str = "\
set 2 on
chip 06
chip 0104011301E8
chip 010500130100E8
chip 010B00040002056C0201FF0067
";

const CARRIED_SO: &str = "\
> set 2 on
accepted 1 node 2
begin 2 1 1
h 010E001302076C0101032501FF250177
> chip 06
> chip 0104011301E8
h 06
> chip 010500130100E8
h 06
> chip 010B00040002056C0201FF0067
h 06
out 1 success
store 2 0/switch 255
end 0
node 2 sessions 1
value 2 0/switch confirmed 255 heard -
";

/// A report of another session ends none.
const OLD: &str = "set 2 on\nchip 010B00040002056C0202FF0064\n";

const OLD_SO: &str = "\
> set 2 on
accepted 1 node 2
begin 2 1 1
h 010E001302076C0101032501FF250177
> chip 010B00040002056C0202FF0064
h 06
old 2 2
end 0
node 2 sessions 1
";

/// A frame that was begun is given up after 15 ticks, and the next one is read.
const GIVEN_UP: &str = "chip 01FF00\ntick 15\nchip 010B00040002056C0202FF0064\n";

const GIVEN_UP_SO: &str = "\
> chip 01FF00
> tick 15
> chip 010B00040002056C0202FF0064
h 06
old 2 2
end 15
node 2 sessions -
";

/// An event is taken once, however often it and its report are delivered.
const EVENTS: &str = "event 101 6 22\ndeliver 1\ndeliver 1\ndeliver 2\ndeliver 2\n";

const EVENTS_SO: &str = "\
> event 101 6 22
queued 101 1
frame 1 101>1 6C01010471050616
> deliver 1
taken 101 6 22
frame 2 1>101 6C0201FF00
> deliver 1
frame 3 1>101 6C0201FF00
> deliver 2
known 101 1
> deliver 2
old 101 1
node 101 queued 1 taken 1 known 1
";

/// The frames of an exchange, as the chip sends them: acknowledged, taken, sent, and answered.
const ANSWERED: &[u8] =
    b"\x06\x01\x04\x01\x13\x01\xE8\x01\x05\x00\x13\x01\x00\xE8\x01\x0B\x00\x04\x00\x02\x05\x6C\x02\x01\xFF\x00\x67";

/// The unit of the first session, and what acknowledges the three frames of the chip.
const SENT: &[u8] = b"\x01\x0E\x00\x13\x02\x07\x6C\x01\x01\x03\x25\x01\xFF\x25\x01\x77\x06\x06\x06";

/// The unit of the first session, and once more after 16 ticks without an answer.
const SENT_TWICE: &[u8] =
    b"\x01\x0E\x00\x13\x02\x07\x6C\x01\x01\x03\x25\x01\xFF\x25\x01\x77\x01\x0E\x00\x13\x02\x07\x6C\x01\x01\x03\x25\x01\xFF\x25\x01\x77";

const UNKNOWN: Status = Status::BadLine {
    line: 2,
    fault: LineFault::Unknown,
};

const MISSING: Status = Status::BadLine {
    line: 1,
    fault: LineFault::Missing,
};

/// Words, what is read, how it ends, and what is written.
const ANSWERS: &[(&str, &str, Status, &str)] = &[
    (
        "sim",
        "",
        Status::Ok,
        "end 0\nnode 2 sessions -\ndevice 2 0/switch 0\n",
    ),
    (
        "sim",
        "set 3 on",
        Status::Ok,
        "> set 3 on\nrefused notjoined\nend 0\nnode 2 sessions -\ndevice 2 0/switch 0\n",
    ),
    (
        "sim",
        "set 3 on\nup\nset 3 on\n",
        UNKNOWN,
        "> set 3 on\nrefused notjoined\nbadline 2 Unknown\n",
    ),
    (
        "sim|--quiet",
        SWITCHES_ON,
        Status::Ok,
        "> set 2 on\naccepted 1 node 2\nbegin 2 1 1\n> tick 2\nt 1\ndev 2 1 0/switch 255\nt 2\nout 1 success\nstore 2 0/switch 255\n\
         end 2\nnode 2 sessions 1\nvalue 2 0/switch confirmed 255 heard -\ndevice 2 0/switch 255\n",
    ),
    ("check", "01030015E8", Status::Ok, "badsum want E9 got E8\n"),
    (
        "check|--from|host",
        "01030015E9",
        Status::Ok,
        "frame request 15 -\n  body ok\n",
    ),
    ("check", "0103001", Status::BadHex(7), ""),
    (
        "generate|1",
        "",
        Status::Ok,
        "commands 25\nsuccess 25\nticks 510\nnode 2 sessions 25\ndevice 2 0/switch 255\nnode 10 sessions 0\nnode 18 sessions 0\n\
         node 26 sessions 0\n",
    ),
    ("include", "reset 20\n", Status::Ok, "> reset 20\n"),
    (
        "replay",
        "chip 010B00040002056C0201FF0066\n",
        Status::Ok,
        "> chip 010B00040002056C0201FF0066\nh 15\nend 0\nnode 2 sessions -\n",
    ),
    ("host|wait", "", MISSING, ""),
    ("audit", "", Status::Ok, "yes\n"),
    (
        "audit",
        "> set 2 on\naccepted 1 node 2\nbegin 2 1 1\nbegin 2 1 1\n",
        Status::No(4),
        "no 4 sessions\n",
    ),
    ("simulate", "", Status::Usage, ""),
    ("replay", CARRIED, Status::Ok, CARRIED_SO),
    ("replay", OLD, Status::Ok, OLD_SO),
    ("replay", GIVEN_UP, Status::Ok, GIVEN_UP_SO),
    ("events", EVENTS, Status::Ok, EVENTS_SO),
];

/// Whether it ends so, with just this written.
fn comes_to(alloc: Global, words: &str, input: &[u8], want: Status, text: &[u8]) -> bool {
    match outcome(alloc, words, input, 0, 0) {
        Ok((status, written)) => status == want && written.as_slice() == text,
        Err(_) => false,
    }
}

#[test]
fn commands_answer(rt: HostRuntime) {
    for (row, (words, input, status, text)) in ANSWERS.iter().enumerate() {
        let (input, text) = (input.as_bytes(), text.as_bytes());
        check_row(&rt, comes_to(rt.alloc(), words, input, *status, text), row);
    }
}

/// Words, what the port gives, how it ends, and what the port is given.
const PORTS: &[(&str, &[u8], Status, &[u8])] = &[
    ("host|set 2 on|wait 2", ANSWERED, Status::Ok, SENT),
    ("host|set 2 on|wait 20", b"", Status::Undone(1), SENT_TWICE),
];

#[test]
fn a_port_comes_to_this(rt: HostRuntime) {
    for (row, (words, input, status, written)) in PORTS.iter().enumerate() {
        check_row(
            &rt,
            comes_to(rt.alloc(), words, input, *status, written),
            row,
        );
    }
}

/// What is written ends so: a frame is repeated, and the device answers that it knows the session; a lock has the key at both ends,
/// or its last message was lost, or it was reset.
const ENDS: &[(&str, &str, &str)] = &[
    (
        "sim",
        "set 2 on\ntick 2\nrepeat 1\n",
        "> repeat 1\nheard 1\nair 3 2>1 via - 6C0201FF00\nend 2\nnode 2 sessions 1\nvalue 2 0/switch confirmed 255 heard -\ndevice 2 0/switch 255\n",
    ),
    (
        "include",
        "add 20\ntick 8\n",
        "heard 8\nsecure 20\nnode 20 host secure device key\n",
    ),
    (
        "include",
        "add 20\ntick 6\nlose 1\ntick 94\n",
        "lost 8\nt 100\nfailed 20\nnode 20 host - device key\n",
    ),
    (
        "include",
        "add 20\ntick 7\nreset 20\ntick 93\nrepeat 8\n",
        "failed 20\n> repeat 8\nrefused forgotten\nnode 20 host - device -\n",
    ),
];

/// Whether it ends well, and what is written ends so.
fn ends_in(alloc: Global, words: &str, input: &[u8], last: &[u8]) -> bool {
    match outcome(alloc, words, input, 0, 0) {
        Ok((status, written)) => status == Status::Ok && written.as_slice().ends_with(last),
        Err(_) => false,
    }
}

#[test]
fn lines_end_in_this(rt: HostRuntime) {
    for (row, (words, input, last)) in ENDS.iter().enumerate() {
        let (input, last) = (input.as_bytes(), last.as_bytes());
        check_row(&rt, ends_in(rt.alloc(), words, input, last), row);
    }
}
