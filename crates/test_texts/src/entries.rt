//! Values from outside: entries as docs/TRANSCRIPT.md describes them, one of each kind.

use crate::rows::check_row;
use std::alloc::Global;
use zw_parse::{EntryFault, read_entry};
use zw_print::print_entry;
use zw_text::Entry;

/// Texts of entries, each of which is read and printed again.
const TEXTS: &[&str] = &[
    "> set 2 on",
    "> bulk 8 254 0aFF",
    "> drop h",
    "accepted 4294967295 node 232",
    "refused notjoined",
    "refused notinterviewed",
    "refused unsupported 8F",
    "refused badvalue",
    "refused unsupervised",
    "refused toolong 65535",
    "refused mailboxfull 16",
    "refused storefull 512",
    "refused secured",
    "refused queuefull 64",
    "refused alreadyjoined",
    "refused keeperfault",
    "refused notwaiting 7",
    "refused neversent",
    "refused forgotten",
    "refused stale 18446744073709551615",
    "refused nodevice",
    "refused badrecord 0",
    "begin 2 64 65",
    "h 010E001302076C",
    "c 06",
    "h ",
    "dropped h",
    "garbled c FF00",
    "overrun c",
    "air 1 1>2 via - 6C0101",
    "air 3 1>34 via 10 18 8408",
    "air 3 1>34 via 10 ",
    "heard 1",
    "lost 2",
    "unheard 3",
    "dev 2 1 0/switch 255",
    "dev 2 local 0/level 99",
    "dev 9 plain 0/switch 0",
    "forget 1 2",
    "out 1 success",
    "out 1 fail",
    "out 1 nosupport",
    "out 1 unanswered",
    "out 1 cancelled",
    "store 2 127/setpoint:1 215",
    "report 8 0/config:255 4294967295",
    "unstored 2 0/member:1:10",
    "old 2 63",
    "unread 5 6C02FF",
    "awake 5",
    "asleep 5",
    "interviewed 10",
    "interview 10 failed",
    "done 9 ok",
    "done 9 link",
    "neighbours 2 1 10 18",
    "neighbours 2 -",
    "failed 2 yes",
    "failed 2 no",
    "chipfull",
    "queuefull 5",
    "device 2 0/battery 100",
    "json {\"node\":2,\"values\":[]}",
    "held 101",
    "cleared h 4096",
    "unkept 2",
    "t 1",
    "end 0",
    "node 2 sessions -",
    "node 2 sessions 1 15 16",
    "value 2 0/lock confirmed 255 heard -",
    "value 5 0/interval confirmed - heard 300",
    "value 5 0/sensor confirmed 1 heard 2",
    "badline 2 Unknown",
    "badline 1 TooLong",
];

/// Texts after `>` that are the words of no line, or not with one space between two.
const UNSAID: &[&str] = &[
    ">",
    "> ",
    ">  set 2 on",
    "> set  2 on",
    "> set 2 on ",
    "> set\t2 on",
    "> set 2 on\r",
    "> set 2",
    "> set 1 on",
    "> drop h0",
    "> # set 2 on",
    "> chip 06",
];

/// Whether the entry is printed as the text.
fn is_printed(alloc: Global, entry: &Entry, text: &str) -> bool {
    match print_entry(alloc, entry) {
        Ok(printed) => printed.as_slice() == text.as_bytes(),
        Err(_) => false,
    }
}

/// Whether the text is read as an entry, and this printed as the text.
fn is_printed_again(alloc: Global, text: &str) -> bool {
    match read_entry(alloc, text.as_bytes()) {
        Ok(entry) => is_printed(alloc, &entry, text),
        Err(_) => false,
    }
}

/// Whether the text is that of no entry.
fn is_no_entry(alloc: Global, text: &str) -> bool {
    matches!(read_entry(alloc, text.as_bytes()), Err(EntryFault::Bad))
}

#[test]
fn other_words_are_no_line(rt: HostRuntime) {
    for (row, text) in UNSAID.iter().enumerate() {
        check_row(&rt, is_no_entry(rt.alloc(), text), row);
    }
}

#[test]
fn what_is_read_is_printed(rt: HostRuntime) {
    for (row, text) in TEXTS.iter().enumerate() {
        check_row(&rt, is_printed_again(rt.alloc(), text), row);
    }
}
