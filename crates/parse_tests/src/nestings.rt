// Three ways, nested both ways round.
use crate::parts::{Rising, digit, item};
use parse::{Checked, Error, ErrorKind, Far, Fault, ParseError};
use sequence::{ParserExt, pair};
use std::fmt::Debug;
use std::process::Abort;
use text::{ByteText, Complete};

fn error_of<O: Drop, E: ParseError>(checked: Checked<O, E>) -> Option<E> {
    match checked.answer {
        Err(Fault::Error(e)) => Some(e),
        _ => None,
    }
}

// The error of three ways, whichever two are taken together: `ab`, `ac`, or two rising digits.
fn three_ways<E: ParseError + PartialEq + Debug + Copy>(
    rt: &impl Abort,
    text: &'static str,
) -> Option<E> {
    let text = ByteText::new(text.as_bytes());
    let first = pair(item(b'a'), item(b'b')).or(pair(item(b'a'), item(b'c')));
    let left = first.or(pair(digit(), digit()).map_opt(Rising));
    let second = pair(item(b'a'), item(b'c')).or(pair(digit(), digit()).map_opt(Rising));
    let right = pair(item(b'a'), item(b'b')).or(second);
    let error = error_of(parse::check::<u32, E, _, _, _>(&left, &text, Complete));
    assert_eq!(rt;
        error_of(parse::check::<u32, E, _, _, _>(&right, &text, Complete)),
        error
    );
    error
}

// A text, and where and what the error is: the last one, and the one that starts furthest on.
const THREE_WAYS: [(&str, Option<(usize, ErrorKind)>, Option<(usize, ErrorKind)>); 7] = [
    ("ab", None, None),
    ("ac", None, None),
    ("12", None, None),
    ("", Some((0, ErrorKind::IsA)), Some((0, ErrorKind::IsA))),
    (
        "21",
        Some((0, ErrorKind::MapOpt)),
        Some((0, ErrorKind::MapOpt)),
    ),
    ("ax", Some((0, ErrorKind::IsA)), Some((1, ErrorKind::IsA))),
    ("1x", Some((1, ErrorKind::IsA)), Some((1, ErrorKind::IsA))),
];

#[test]
fn nestings_give_equal_errors(rt: HostRuntime) {
    for (text, last, furthest) in THREE_WAYS {
        let error = three_ways::<Error>(&rt, text).map(|e| (e.input.start, e.code));
        assert_eq!(rt; error, last, "{}", text);
        let error = three_ways::<Far>(&rt, text).map(|e| (e.input.start, e.code));
        assert_eq!(rt; error, furthest, "{}", text);
    }
}
