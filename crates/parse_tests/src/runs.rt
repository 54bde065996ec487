// Running a parser on the texts of a table.
use parse::{Checked, Emitted, Error, ErrorKind, Fault, Parser, emit_into};
use std::fmt::Debug;
use std::process::Abort;
use text::{ByteText, Input, Manner, Needed, Span};

// What a parser answers, as a row of a table says it: in one word, where a `Result` of spans and faults would be a line.
#[derive(Clone, Copy, PartialEq, Debug)]
pub enum Outcome<O> {
    // where the remainder starts, and the output
    Done(usize, O),
    // how many bytes are needed: 0 where that is unknown
    Incomplete(usize),
    // where the error starts, and its kind
    Error(usize, ErrorKind),
    Failure(usize, ErrorKind),
    Full,
}

// A text, what a parser answers on it, the most items that stand at one moment, and the items that it leaves.
pub type Row<O> = (&'static str, Outcome<O>, usize, &'static [u32]);

// The most items of a row, and one place more.
const PLACES: usize = 5;

// A function: a `From` would need a ghost member that says all of it again.
pub fn outcome_of<O>(answer: Result<(Span, O), Fault<Error>>) -> Outcome<O> {
    match answer {
        Ok((rest, output)) => Outcome::Done(rest.start, output),
        Err(Fault::Incomplete(Needed::Size(size))) => Outcome::Incomplete(size.get()),
        Err(Fault::Incomplete(Needed::Unknown)) => Outcome::Incomplete(0),
        Err(Fault::Error(e)) => Outcome::Error(e.input.start, e.code),
        Err(Fault::Failure(e)) => Outcome::Failure(e.input.start, e.code),
        Err(Fault::Full) => Outcome::Full,
    }
}

// The slice's first places hold these items.
fn check_items(rt: &impl Abort, places: &[u32], count: usize, items: &[u32]) {
    assert!(rt; count <= places.len());
    assert!(rt; &places[0..count] == items);
}

// `emit_into` answers what the row says, or `Full` where there are too few places.
fn run_emit<
    T: Input,
    M: Manner + Copy,
    O: PartialEq + Debug + Copy,
    P: Parser<T, u32, Error, Output = O>,
>(rt: &impl Abort, parser: &P, text: &T, manner: M, row: &Row<O>, places: &mut [u32]) {
    let (source, expected, peak, items) = row;
    let free = places.len();
    let Emitted { answer, count } = emit_into(parser, text, manner, places);
    if free < *peak {
        assert_eq!(rt;
            outcome_of(answer),
            Outcome::Full,
            "{source:?} into {free} places"
        );
        assert_eq!(rt; count, 0, "{source:?} into {free} places");
    } else {
        assert_eq!(rt;
            &outcome_of(answer),
            expected,
            "{source:?} into {free} places"
        );
        check_items(rt, places, count, items);
    }
}

// `check` tells what the row says, and `emit_into` does the same with any number of places.
pub fn run<
    T: Input,
    M: Manner + Copy,
    O: PartialEq + Debug + Copy,
    P: Parser<T, u32, Error, Output = O>,
>(rt: &impl Abort, parser: &P, text: &T, manner: M, row: &Row<O>) {
    let (source, expected, most, items) = row;
    let Checked {
        answer,
        count,
        peak,
    } = parse::check::<u32, Error, _, _, _>(parser, text, manner);
    assert_eq!(rt; &outcome_of(answer), expected, "{source:?}");
    // `as`, since a `u32` has no `From` into a `usize`
    assert_eq!(rt; count as usize, items.len(), "{source:?}");
    assert_eq!(rt; peak as usize, *most, "{source:?}");
    for free in 0..=PLACES {
        let mut places = [0u32; PLACES];
        run_emit(rt, parser, text, manner, row, &mut places[0..free]);
    }
}

// A parser on the rows of a table, over texts of bytes.
pub fn run_rows<
    M: Manner + Copy,
    O: PartialEq + Debug + Copy,
    P: Parser<ByteText<'static>, u32, Error, Output = O>,
>(rt: &impl Abort, parser: &P, manner: M, rows: &[Row<O>]) {
    for row in rows {
        let text = row.0;
        run(rt, parser, &ByteText::new(text.as_bytes()), manner, row);
    }
}
