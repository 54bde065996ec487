// Functions on outputs.
use crate::parts::{Rising, Small, digit};
use crate::runs::{Outcome, Row, run_rows};
use demo::DigitValue;
use parse::ErrorKind;
use sequence::{ParserExt, pair};
use text::{Complete, Streaming};

const VALUES: [Row<u32>; 3] = [
    ("7", Outcome::Done(1, 7), 1, &[55]),
    ("0x", Outcome::Done(1, 0), 1, &[48]),
    ("x", Outcome::Error(0, ErrorKind::IsA), 0, &[]),
];

#[test]
fn map(rt: HostRuntime) {
    run_rows(&rt, &digit().map(DigitValue), Complete, &VALUES);
}

// A refusal is an error at entry, and the item that stood is cut back.
const SMALL: [Row<u32>; 4] = [
    ("3", Outcome::Done(1, 3), 1, &[51]),
    ("5x", Outcome::Done(1, 5), 1, &[53]),
    ("6", Outcome::Error(0, ErrorKind::MapRes), 1, &[]),
    ("x", Outcome::Error(0, ErrorKind::IsA), 0, &[]),
];

#[test]
fn map_res(rt: HostRuntime) {
    run_rows(&rt, &digit().map_res(Small), Complete, &SMALL);
}

const RISING: [Row<(u32, u32)>; 4] = [
    ("37", Outcome::Done(2, (51, 55)), 2, &[51, 55]),
    ("33x", Outcome::Done(2, (51, 51)), 2, &[51, 51]),
    ("73", Outcome::Error(0, ErrorKind::MapOpt), 2, &[]),
    ("7", Outcome::Error(1, ErrorKind::IsA), 1, &[]),
];

#[test]
fn map_opt(rt: HostRuntime) {
    run_rows(
        &rt,
        &pair(digit(), digit()).map_opt(Rising),
        Complete,
        &RISING,
    );
}

// Entry is where the build itself starts, behind what came before.
const SECOND_SMALL: [Row<(u32, u32)>; 3] = [
    ("73", Outcome::Done(2, (55, 3)), 2, &[55, 51]),
    ("76", Outcome::Error(1, ErrorKind::MapRes), 2, &[]),
    ("7", Outcome::Incomplete(1), 1, &[]),
];

#[test]
fn refused_behind_another(rt: HostRuntime) {
    run_rows(
        &rt,
        &pair(digit(), digit().map_res(Small)),
        Streaming,
        &SECOND_SMALL,
    );
}
