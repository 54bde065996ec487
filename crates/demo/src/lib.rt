// A demonstration of the parser interface: two small leaves, and a parser that is built of them.
//
// `Satisfy` takes one item, and appends its code to the sink. `Before` cuts out the span before an item. `line` is a build
// that reads two runs of hooks, as in `3u,5d`.
#![tactic(auto)]

ghost use Rattle.std.specs.Prelude.{◌≡◌, ◌-◌, IfOk};
ghost use Rattle.text.specs.Cells.{first, part};
ghost use Rattle.text.specs.Search.{until, is};
ghost use Rattle.parse.specs.Run.{told, spanned};
ghost use Rattle.parse.specs.declared.error.ErrorKind.TheVariants.{IsA as IsAKind};
ghost use Rattle.demo.specs.Leaves.{satisfied, satisfied_suffix, before_item, before_inside, digit};

use parse::{Done, ErrorKind, Fault, Function, ParseError, Parser, Stopped, Subspan};
use sequence::dropping::Preceded;
use sequence::maps::Map;
use sequence::pairs::And;
use sequence::ways::Or;
use sequence::{ParserExt, separated_pair};
use sink::Sink;
use text::{Input, Is, Manner, Needed, Predicate};

// One item that meets a test. Its code is the output, and is appended to the sink.
#[derive(Clone, Copy)]
pub struct Satisfy<P> {
    pub test: P,
}

// The item's code and what is left; `Error` where it fails the test, and at the input's end what the manner says.
fn next_item<M: Manner, E: ParseError, T: Input, P: Predicate>(
    input: &T,
    test: &P,
) -> Result<(T, u32), Fault<E>>
    ensures text { IfOk result (λ d. T.cells d.0 ≡ T.cells input.now) }
    ensures raw { IfOk result (λ d. T.raw d.0 ≡ T.raw input.now) }
    ensures item { spanned T.place result
        ≡ told (satisfied (P.holds test.now) (E.made (T.place input.now) IsAKind) M.complete (T.place input.now) (first (part (T.cells input.now) (T.place input.now)))).outcome }
{
    match input.item() {
        Some((code, width)) if test.test(code) => Ok((input.take_from(width), code)),
        None if !M::is_complete() => Err(Fault::Incomplete(Needed::new(1))),
        _ => Err(Fault::Error(E::from_error_kind(input.span(), ErrorKind::IsA))),
    }
}

impl<T: Input, E: ParseError, P: Predicate> Parser<T, u32, E> for Satisfy<P> {
    type Output = u32;

    ghost means = { λ p cs s c. satisfied
        (P.holds p.test)
        (E.made s IsAKind) c s
        (first (part cs s)) };

    fn check<M: Manner>(&self, input: &T) -> Result<Done<T, u32>, Stopped<E>> {
        let (rest, code) = next_item::<M, E, T, P>(input, &self.test).map_err(Stopped::at_once)?;
        Ok(Done {
            rest,
            output: code,
            count: 1,
            peak: 1,
        })
    }

    fn emit<M: Manner, S: Sink<Item = u32>>(
        &self,
        input: &T,
        sink: &mut S,
    ) -> Result<(T, u32), Fault<E>> {
        let (rest, code) = next_item::<M, E, T, P>(input, &self.test)?;
        sink.push(code).map_err(|_full| Fault::Full)?;
        Ok((rest, code))
    }

    ghost suffix = { λ p cs s c k w. satisfied_suffix
        (P.holds p.test)
        (E.made s IsAKind) c cs s k w };
}

// The span before the first item that has this code: all of it where none has.
#[derive(Clone, Copy)]
pub struct Before {
    pub code: u32,
}

impl<T: Input, I: Copy, E: ParseError> Subspan<T, I, E> for Before {
    ghost cuts = { λ p cs s c. before_item p.code cs s };

    fn cut<M: Manner>(&self, input: &T) -> Result<(T, T), Fault<E>> {
        Ok(input.take_split(input.position_of(self.code)))
    }

    ghost inside = { λ p cs s c k w. before_inside I E p.code cs s k w };
}

// The digits `0` to `9`.
#[derive(Clone, Copy)]
pub struct Digit;

impl Predicate for Digit {
    ghost holds = { λ _. digit };

    fn test(&self, item: u32) -> bool {
        (48..=57).contains(&item)
    }
}

// The value of a digit's code.
#[derive(Clone, Copy)]
pub struct DigitValue;

impl<T: Input> Function<T, u32> for DigitValue {
    type Value = u32;

    ghost value = { λ _ _ code. code - 48 };

    fn call(&self, _input: &T, code: u32) -> u32 {
        code.saturating_sub(48)
    }
}

// A number of hooks, and the code of `u` or `d`.
type Run = And<Map<Satisfy<Digit>, DigitValue>, Or<Satisfy<Is>, Satisfy<Is>>>;

// Two runs with a comma between them, as a pair of pairs. The comma is dropped.
pub type Line = And<Run, Preceded<Satisfy<Is>, Run>>;

fn item(code: u32) -> Satisfy<Is>
    ensures { result.test.code ≡ code }
{
    Satisfy { test: Is { code } }
}

fn run() -> Run
    ensures up { result.g.f.test.code ≡ 117 }
    ensures down { result.g.g.test.code ≡ 100 }
{
    Satisfy { test: Digit }
        .map(DigitValue)
        .and(item(117).or(item(100)))
}

// A parser of two runs: `3u,5d`.
pub fn line() -> Line
    ensures comma { result.g.f.test.code ≡ 44 }
    ensures up { (result.f.g.f.test.code ≡ 117) × (result.g.g.g.f.test.code ≡ 117) }
    ensures down { (result.f.g.g.test.code ≡ 100) × (result.g.g.g.g.test.code ≡ 100) }
{
    separated_pair(run(), item(44), run())
}
