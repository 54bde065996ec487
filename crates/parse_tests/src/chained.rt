// A second part that hangs on the first's output.
use crate::parts::{Again, digit};
use crate::runs::{Outcome, Row, run_rows};
use demo::Before;
use parse::ErrorKind;
use sequence::{ParserExt, pair};
use text::{Complete, Streaming};

// A digit, and the same once more. The first item is dropped, and never stands.
const TWICE: [Row<u32>; 4] = [
    ("77", Outcome::Done(2, 55), 1, &[55]),
    ("73", Outcome::Error(1, ErrorKind::IsA), 0, &[]),
    ("7", Outcome::Error(1, ErrorKind::IsA), 0, &[]),
    ("x", Outcome::Error(0, ErrorKind::IsA), 0, &[]),
];

const TWICE_STREAMING: [Row<u32>; 3] = [
    ("77", Outcome::Done(2, 55), 1, &[55]),
    ("7", Outcome::Incomplete(1), 0, &[]),
    ("", Outcome::Incomplete(1), 0, &[]),
];

#[test]
fn flat_map(rt: HostRuntime) {
    let twice = digit().flat_map(Again);
    run_rows(&rt, &twice, Complete, &TWICE);
    run_rows(&rt, &twice, Streaming, &TWICE_STREAMING);
}

// A digit in what comes before a comma. What it leaves of that is dropped.
const BEFORE_COMMA: [Row<u32>; 5] = [
    ("7,3", Outcome::Done(1, 55), 1, &[55]),
    ("7xy,3", Outcome::Done(3, 55), 1, &[55]),
    ("7x", Outcome::Done(2, 55), 1, &[55]),
    ("x,3", Outcome::Error(0, ErrorKind::IsA), 0, &[]),
    (",3", Outcome::Error(0, ErrorKind::IsA), 0, &[]),
];

// Two digits there: the end of the inner span is an end like any other.
const TWO_BEFORE_COMMA: [Row<(u32, u32)>; 2] = [
    ("73,", Outcome::Done(2, (55, 51)), 2, &[55, 51]),
    ("7,3", Outcome::Error(1, ErrorKind::IsA), 1, &[]),
];

const TWO_BEFORE_COMMA_STREAMING: [Row<(u32, u32)>; 3] = [
    ("73,", Outcome::Done(2, (55, 51)), 2, &[55, 51]),
    ("7,3", Outcome::Incomplete(1), 1, &[]),
    (",3", Outcome::Incomplete(1), 0, &[]),
];

#[test]
fn and_then(rt: HostRuntime) {
    let before = Before { code: 44 };
    run_rows(&rt, &before.and_then(digit()), Complete, &BEFORE_COMMA);
    let two = before.and_then(pair(digit(), digit()));
    run_rows(&rt, &two, Complete, &TWO_BEFORE_COMMA);
    run_rows(&rt, &two, Streaming, &TWO_BEFORE_COMMA_STREAMING);
}
