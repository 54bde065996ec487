// One part after another.
use crate::parts::{digit, item};
use crate::runs::{Outcome, Row, run_rows};
use demo::line;
use parse::ErrorKind;
use sequence::{delimited, pair, preceded, separated_pair, terminated};
use text::{Complete, Streaming};

const DIGIT: [Row<u32>; 4] = [
    ("7", Outcome::Done(1, 55), 1, &[55]),
    ("73", Outcome::Done(1, 55), 1, &[55]),
    ("x", Outcome::Error(0, ErrorKind::IsA), 0, &[]),
    ("", Outcome::Error(0, ErrorKind::IsA), 0, &[]),
];

#[test]
fn one_item(rt: HostRuntime) {
    run_rows(&rt, &digit(), Complete, &DIGIT);
}

const AB: [Row<(u32, u32)>; 5] = [
    ("ab", Outcome::Done(2, (97, 98)), 2, &[97, 98]),
    ("abc", Outcome::Done(2, (97, 98)), 2, &[97, 98]),
    ("ax", Outcome::Error(1, ErrorKind::IsA), 1, &[]),
    ("a", Outcome::Error(1, ErrorKind::IsA), 1, &[]),
    ("xb", Outcome::Error(0, ErrorKind::IsA), 0, &[]),
];

const AB_STREAMING: [Row<(u32, u32)>; 4] = [
    ("ab", Outcome::Done(2, (97, 98)), 2, &[97, 98]),
    ("ax", Outcome::Error(1, ErrorKind::IsA), 1, &[]),
    ("a", Outcome::Incomplete(1), 1, &[]),
    ("", Outcome::Incomplete(1), 0, &[]),
];

#[test]
fn both_outputs(rt: HostRuntime) {
    let ab = pair(item(b'a'), item(b'b'));
    run_rows(&rt, &ab, Complete, &AB);
    run_rows(&rt, &ab, Streaming, &AB_STREAMING);
}

// The item of the first part is dropped, and never stands.
const SECOND: [Row<u32>; 3] = [
    ("ab", Outcome::Done(2, 98), 1, &[98]),
    ("ax", Outcome::Error(1, ErrorKind::IsA), 0, &[]),
    ("xb", Outcome::Error(0, ErrorKind::IsA), 0, &[]),
];

// The item of the second part is; that of the first stands until the second fails.
const FIRST: [Row<u32>; 3] = [
    ("ab", Outcome::Done(2, 97), 1, &[97]),
    ("ax", Outcome::Error(1, ErrorKind::IsA), 1, &[]),
    ("xb", Outcome::Error(0, ErrorKind::IsA), 0, &[]),
];

#[test]
fn one_output(rt: HostRuntime) {
    run_rows(&rt, &preceded(item(b'a'), item(b'b')), Complete, &SECOND);
    run_rows(&rt, &terminated(item(b'a'), item(b'b')), Complete, &FIRST);
}

const BRACKETED: [Row<u32>; 4] = [
    ("(7)", Outcome::Done(3, 55), 1, &[55]),
    ("(7", Outcome::Error(2, ErrorKind::IsA), 1, &[]),
    ("(x)", Outcome::Error(1, ErrorKind::IsA), 0, &[]),
    ("7)", Outcome::Error(0, ErrorKind::IsA), 0, &[]),
];

const SEPARATED: [Row<(u32, u32)>; 3] = [
    ("7,3", Outcome::Done(3, (55, 51)), 2, &[55, 51]),
    ("7,x", Outcome::Error(2, ErrorKind::IsA), 1, &[]),
    ("7;3", Outcome::Error(1, ErrorKind::IsA), 1, &[]),
];

#[test]
fn three_parts(rt: HostRuntime) {
    run_rows(
        &rt,
        &delimited(item(b'('), digit(), item(b')')),
        Complete,
        &BRACKETED,
    );
    run_rows(
        &rt,
        &separated_pair(digit(), item(b','), digit()),
        Complete,
        &SEPARATED,
    );
}

const LINE: [Row<((u32, u32), (u32, u32))>; 6] = [
    (
        "3u,5d",
        Outcome::Done(5, ((3, 117), (5, 100))),
        4,
        &[51, 117, 53, 100],
    ),
    (
        "1d,1u\n",
        Outcome::Done(5, ((1, 100), (1, 117))),
        4,
        &[49, 100, 49, 117],
    ),
    ("3u,5x", Outcome::Error(4, ErrorKind::IsA), 3, &[]),
    ("3u", Outcome::Error(2, ErrorKind::IsA), 2, &[]),
    ("3x", Outcome::Error(1, ErrorKind::IsA), 1, &[]),
    ("", Outcome::Error(0, ErrorKind::IsA), 0, &[]),
];

const LINE_STREAMING: [Row<((u32, u32), (u32, u32))>; 5] = [
    (
        "3u,5d",
        Outcome::Done(5, ((3, 117), (5, 100))),
        4,
        &[51, 117, 53, 100],
    ),
    ("3u,5x", Outcome::Error(4, ErrorKind::IsA), 3, &[]),
    ("3u,5", Outcome::Incomplete(1), 3, &[]),
    ("3u", Outcome::Incomplete(1), 2, &[]),
    ("", Outcome::Incomplete(1), 0, &[]),
];

#[test]
fn a_nested_build(rt: HostRuntime) {
    run_rows(&rt, &line(), Complete, &LINE);
    run_rows(&rt, &line(), Streaming, &LINE_STREAMING);
}
