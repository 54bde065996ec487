// Another way at the same place.
use crate::parts::{Stop, digit, item};
use crate::runs::{Outcome, Row, run_rows};
use parse::ErrorKind;
use sequence::{ParserExt, pair};
use text::{Complete, Streaming};

// `ab`, or else two digits. The error is the second way's, also where the first got further; items that stood on the
// first way count for the peak.
const TWO_WAYS: [Row<(u32, u32)>; 6] = [
    ("ab", Outcome::Done(2, (97, 98)), 2, &[97, 98]),
    ("73", Outcome::Done(2, (55, 51)), 2, &[55, 51]),
    ("7x", Outcome::Error(1, ErrorKind::IsA), 1, &[]),
    ("ax", Outcome::Error(0, ErrorKind::IsA), 1, &[]),
    ("x", Outcome::Error(0, ErrorKind::IsA), 0, &[]),
    ("", Outcome::Error(0, ErrorKind::IsA), 0, &[]),
];

// Where the first way is short of input, no second is tried.
const TWO_WAYS_STREAMING: [Row<(u32, u32)>; 4] = [
    ("73", Outcome::Done(2, (55, 51)), 2, &[55, 51]),
    ("7", Outcome::Incomplete(1), 1, &[]),
    ("a", Outcome::Incomplete(1), 1, &[]),
    ("", Outcome::Incomplete(1), 0, &[]),
];

#[test]
fn the_second_after_an_error(rt: HostRuntime) {
    let build = pair(item(b'a'), item(b'b')).or(pair(digit(), digit()));
    run_rows(&rt, &build, Complete, &TWO_WAYS);
    run_rows(&rt, &build, Streaming, &TWO_WAYS_STREAMING);
}

// The first way stops for good behind an `a`; the second would take `ab`.
const STOPPED: [Row<(u32, u32)>; 3] = [
    ("ab", Outcome::Failure(1, ErrorKind::Verify), 1, &[]),
    ("a", Outcome::Failure(1, ErrorKind::Verify), 1, &[]),
    ("b", Outcome::Error(0, ErrorKind::IsA), 0, &[]),
];

#[test]
fn no_second_after_a_failure(rt: HostRuntime) {
    let build = pair(item(b'a'), Stop).or(pair(item(b'a'), item(b'b')));
    run_rows(&rt, &build, Complete, &STOPPED);
    run_rows(
        &rt,
        &item(b'a').or(Stop),
        Complete,
        &[
            ("a", Outcome::Done(1, 97), 1, &[97]),
            ("b", Outcome::Failure(0, ErrorKind::Verify), 0, &[]),
        ],
    );
}

// Two ways that begin alike: what the first took is cut back, and taken again by the second.
const ALIKE: [Row<((u32, u32), u32)>; 3] = [
    ("abc", Outcome::Done(3, ((97, 98), 99)), 3, &[97, 98, 99]),
    ("abd", Outcome::Done(3, ((97, 98), 100)), 3, &[97, 98, 100]),
    ("abx", Outcome::Error(2, ErrorKind::IsA), 2, &[]),
];

#[test]
fn the_same_place_again(rt: HostRuntime) {
    let c = pair(pair(item(b'a'), item(b'b')), item(b'c'));
    let d = pair(pair(item(b'a'), item(b'b')), item(b'd'));
    run_rows(&rt, &c.or(d), Complete, &ALIKE);
}
