// The same builds over texts of code points.
use crate::parts::digit;
use crate::runs::{Outcome, Row, run, run_rows};
use demo::{Before, Satisfy, line};
use parse::ErrorKind;
use sequence::{ParserExt, pair};
use text::{Complete, Is, Streaming};
use utf8::Utf8Text;

// The code of `€`, which has three bytes.
const EURO: u32 = 0x20AC;

const PRICES: [Row<(u32, u32)>; 4] = [
    ("€5", Outcome::Done(4, (EURO, 53)), 2, &[EURO, 53]),
    ("€", Outcome::Error(3, ErrorKind::IsA), 1, &[]),
    ("é5", Outcome::Error(0, ErrorKind::IsA), 0, &[]),
    ("", Outcome::Error(0, ErrorKind::IsA), 0, &[]),
];

const EURO_STREAMING: Row<(u32, u32)> = ("€", Outcome::Incomplete(1), 1, &[]);

// No byte is a euro.
const PRICES_IN_BYTES: [Row<(u32, u32)>; 1] = [("€5", Outcome::Error(0, ErrorKind::IsA), 0, &[])];

#[test]
fn an_item_of_three_bytes(rt: HostRuntime) {
    let price = pair(
        Satisfy {
            test: Is { code: EURO },
        },
        digit(),
    );
    for row in PRICES {
        let text = Utf8Text::new(row.0.as_bytes());
        run(&rt, &price, &text, Complete, &row);
    }
    run(
        &rt,
        &price,
        &Utf8Text::new("€".as_bytes()),
        Streaming,
        &EURO_STREAMING,
    );
    run_rows(&rt, &price, Complete, &PRICES_IN_BYTES);
}

const BEFORE_EURO: [Row<u32>; 3] = [
    ("5€", Outcome::Done(1, 53), 1, &[53]),
    ("5é€", Outcome::Done(3, 53), 1, &[53]),
    ("€5", Outcome::Error(0, ErrorKind::IsA), 0, &[]),
];

#[test]
fn before_an_item_of_three_bytes(rt: HostRuntime) {
    let build = Before { code: EURO }.and_then(digit());
    for row in BEFORE_EURO {
        let text = Utf8Text::new(row.0.as_bytes());
        run(&rt, &build, &text, Complete, &row);
    }
}

const LINE: [Row<((u32, u32), (u32, u32))>; 2] = [
    (
        "3u,5d",
        Outcome::Done(5, ((3, 117), (5, 100))),
        4,
        &[51, 117, 53, 100],
    ),
    ("3u,5€", Outcome::Error(4, ErrorKind::IsA), 3, &[]),
];

#[test]
fn a_nested_build(rt: HostRuntime) {
    for row in LINE {
        let text = Utf8Text::new(row.0.as_bytes());
        run(&rt, &line(), &text, Complete, &row);
    }
}
