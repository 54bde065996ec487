// What a sink holds after a parser emitted into it.
use crate::parts::item;
use crate::runs::{Outcome, outcome_of};
use demo::line;
use parse::{Emitted, ErrorKind, emit_into};
use sink::{Sheet, Sink};
use std::process::Abort;
use text::{ByteText, Complete};

// A text, the places, what emitting answers, and the list that is left.
type Behind = (
    &'static str,
    usize,
    Outcome<((u32, u32), (u32, u32))>,
    &'static [u32],
);

const BEHIND: [Behind; 6] = [
    (
        "3u,5d",
        6,
        Outcome::Done(5, ((3, 117), (5, 100))),
        &[7, 8, 51, 117, 53, 100],
    ),
    ("3u,5d", 5, Outcome::Full, &[7, 8]),
    ("3u,5d", 2, Outcome::Full, &[7, 8]),
    ("3u,5x", 5, Outcome::Error(4, ErrorKind::IsA), &[7, 8]),
    ("3u,5x", 4, Outcome::Full, &[7, 8]),
    ("", 2, Outcome::Error(0, ErrorKind::IsA), &[7, 8]),
];

// Two items stand in the sink, and stay in front.
fn emit_behind(rt: &impl Abort, case: Behind, places: &mut [u32]) {
    let (text, _, expected, list) = case;
    let mut sheet = Sheet::new(places);
    assert_eq!(rt; sheet.push(7), Ok(()));
    assert_eq!(rt; sheet.push(8), Ok(()));
    let text = ByteText::new(text.as_bytes());
    let answer = parse::emit(&line(), &text, Complete, &mut sheet);
    assert_eq!(rt; outcome_of(answer), expected);
    assert!(rt; sheet.items() == list);
}

#[test]
fn behind_other_items(rt: HostRuntime) {
    for case in BEHIND {
        let mut places = [0u32; 6];
        assert!(rt; case.1 <= 6);
        emit_behind(&rt, case, &mut places[0..case.1]);
    }
}

// No place at all: an answer without items is given, and one with an item is not.
const NO_PLACES: [(&str, Outcome<u32>); 3] = [
    ("a", Outcome::Full),
    ("b", Outcome::Error(0, ErrorKind::IsA)),
    ("", Outcome::Error(0, ErrorKind::IsA)),
];

#[test]
fn an_empty_slice(rt: HostRuntime) {
    for (text, expected) in NO_PLACES {
        let text = ByteText::new(text.as_bytes());
        let mut none: [u32; 0] = [];
        let Emitted { answer, count } = emit_into(&item(b'a'), &text, Complete, &mut none);
        assert_eq!(rt; outcome_of(answer), expected);
        assert_eq!(rt; count, 0);
    }
}
