// A parser on an input: the calls that a program makes.
ghost use Rattle.std.specs.Prelude.{◌≡◌, [], take as front};
ghost use Rattle.sink.specs.Sheets.{sheet_cap};
ghost use Rattle.parse.specs.Run.{Checks, Emits, answer_of, count_of, peak_of};
ghost use Rattle.parse.specs.Whole.{Remains, Undone, Agreeing};

use super::{Done, Fault, ParseError, Parser, Stopped};
use sink::{Sheet, Sink};
use text::{Input, Manner, Span};

// What a check tells a program: the answer, with the remainder as a span, how many items there are, and the most that
// would stand at one moment. Both numbers are told with every answer, so they stand beside it.
#[derive(PartialEq, Eq, Debug, Drop)]
pub struct Checked<O, E> {
    pub answer: Result<(Span, O), Fault<E>>,
    pub count: u32,
    pub peak: u32,
}

impl<O, E> Checked<O, E> {
    // A fault, after so many items stood at one moment.
    pub fn stopped(fault: Fault<E>, peak: u32) -> Checked<O, E>
        ensures { result ≡ record { answer = Err fault; count = 0; peak = peak } }
    {
        Checked {
            answer: Err(fault),
            count: 0,
            peak,
        }
    }
}

impl<T: Input, O: Drop, E> From<Result<Done<T, O>, Stopped<E>>> for Checked<O, E> {
    ghost from_gives = { λ r c.
        (c.answer ≡ answer_of T.place r) ×
        (c.count ≡ count_of r) ×
        (c.peak ≡ peak_of r) };

    fn from(told: Result<Done<T, O>, Stopped<E>>) -> Checked<O, E> {
        match told {
            Ok(done) => Checked {
                answer: Ok((done.rest.span(), done.output)),
                count: done.count,
                peak: done.peak,
            },
            Err(stopped) => Checked::stopped(stopped.fault, stopped.peak),
        }
    }
}

// Tells the outcome, how many items there are, and the most that would stand at one moment. The item and the error type
// come first, since no argument tells them: `check::<u32, Error, _, _, _>(&parser, &text, Complete)`.
pub fn check<I: Copy, E: ParseError, T: Input, M: Manner + Drop, P: Parser<T, I, E>>(
    parser: &P,
    input: &T,
    _manner: M,
) -> Checked<P::Output, E>
    ensures tells { Checks (P.means parser.now (T.cells input.now) (T.place input.now) M.complete)
        result.answer result.count result.peak }
    ensures remains { Remains (T.cells input.now) (T.place input.now) result.answer }
{
    Checked::from(parser.check::<M>(input))
}

// Appends the items of the outcome and answers the rest of it; or answers `Full`, and leaves the sink as it was, exactly
// where the free places are fewer than the peak. Unless it answers `Ok`, the sink's list is as it was.
pub fn emit<E: ParseError, T: Input, M: Manner + Drop, S: Sink, P: Parser<T, S::Item, E>>(
    parser: &P,
    input: &T,
    _manner: M,
    sink: &mut S,
) -> Result<(Span, P::Output), Fault<E>>
    ensures store { S.store sink.new ≡ S.store sink.old }
    ensures emits { Emits (P.means parser.now (T.cells input.now) (T.place input.now) M.complete)
        (S.store sink.old).cap (S.list sink.old) result (S.list sink.new) }
    ensures agrees { Agreeing (P.means parser.now (T.cells input.now) (T.place input.now) M.complete)
        (S.store sink.old).cap (S.list sink.old) result (S.list sink.new) }
    ensures remains { Remains (T.cells input.now) (T.place input.now) result }
    ensures undone { Undone result (S.list sink.old) (S.list sink.new) }
{
    let (rest, output) = parser.emit::<M, S>(input, sink)?;
    Ok((rest.span(), output))
}

// What was emitted into a slice: the answer, and how many items stand in the slice's first places. The count stands
// beside the answer, as it is told with every answer; a part of the slice in its place would keep the slice borrowed.
#[derive(PartialEq, Eq, Debug, Drop)]
pub struct Emitted<O, E> {
    pub answer: Result<(Span, O), Fault<E>>,
    pub count: usize,
}

// Emits into a slice that the caller lends: the slice's first places then hold the items.
pub fn emit_into<I: Copy, E: ParseError, T: Input, M: Manner + Drop, P: Parser<T, I, E>>(
    parser: &P,
    input: &T,
    manner: M,
    places: &mut [I],
) -> Emitted<P::Output, E>
    ensures { Emits (P.means parser.now (T.cells input.now) (T.place input.now) M.complete)
        (sheet_cap places.old) [] result.answer (front result.count places.new) }
{
    let mut sheet = Sheet::new(places);
    let answer = emit(parser, input, manner, &mut sheet);
    let count = sheet.len();
    Emitted { answer, count }
}
