// Parsers: one meaning, and two ways to run it. nom's `internal.rs`.
//
// A parser means, for the items of a text, a span of it and a manner, one outcome and a peak: the most of its items that
// stood at one moment. `check` has no sink, and tells the outcome, its items as a count, and the peak. `emit` appends
// the items to a sink, or answers `Full` exactly where the free places are fewer than the peak. Unless it is done, `emit`
// leaves the sink as it was.
//
// The two ways are two functions: what they share is the meaning. nom's one function over a mode would ask at each step
// whether there is a sink.
//
// A leaf says its meaning by a definition on the items; a combinator says its own by the algebra of runs
// (specs/Algebra.antt) from the meanings of its parts, and is proved once for all parts.
#![tactic(auto)]

ghost use Rattle.std.specs.Prelude.{◌≡◌, ℕ, Bool, List, take as front, Err, IfOk};
ghost use Rattle.text.specs.declared.Span.{Span};
ghost use Rattle.text.specs.Cells.{Cell, Solid, Within};
ghost use Rattle.parse.specs.Run.{Run, Suffix, Checks, Emits, told, spanned, answer_of, count_of, peak_of};
ghost use Rattle.parse.specs.Subspans.{Inside, both_spanned};
ghost use Rattle.parse.specs.Faults.{erring, short, or_fault};

use sink::{Mark, Sink};
use std::fmt;
use text::{Input, Manner, Needed, Span};

pub mod calls;
pub mod error;
pub mod function;

pub use calls::{Checked, Emitted, check, emit, emit_into};
pub use error::{Error, ErrorKind, Far, FromExternalError, ParseError, error_to_u32};
pub use function::{Function, Test};

// Why a parser is not done: nom's `Err`, and `Full`.
#[derive(PartialEq, Eq, Debug, Drop)]
pub enum Fault<E> {
    // more input is needed to tell
    Incomplete(Needed),
    // an error after which another way may be tried
    Error(E),
    // an error after which none is
    Failure(E),
    // the sink has fewer free places than the items need at one moment
    Full,
}

impl<E> Fault<E> {
    pub fn is_incomplete(&self) -> bool
        ensures { result ≡ short self.now }
    {
        matches!(self, Fault::Incomplete(_))
    }

    // Whether another way may be tried.
    pub fn is_error(&self) -> bool
        ensures { result ≡ erring self.now }
    {
        matches!(self, Fault::Error(_))
    }
}

impl<E: ParseError> Fault<E> {
    // The fault of a second way, after the error of a first: where it is an error too, both joined.
    pub fn or(self, first: E) -> Fault<E>
        ensures { result ≡ or_fault (E.joined first) self }
    {
        match self {
            Fault::Error(e) => Fault::Error(first.or(e)),
            fault => fault,
        }
    }
}

// In nom's words.
impl<E: fmt::Debug> fmt::Display for Fault<E> {
    fn fmt<W: fmt::Write>(&self, f: &mut fmt::Formatter<W>) -> fmt::Result {
        match self {
            Fault::Incomplete(Needed::Size(size)) => {
                let size = size.get();
                write!(f, "Parsing requires {size} bytes/chars")
            }
            Fault::Incomplete(Needed::Unknown) => write!(f, "Parsing requires more data"),
            Fault::Error(e) => write!(f, "Parsing Error: {e:?}"),
            Fault::Failure(e) => write!(f, "Parsing Failure: {e:?}"),
            Fault::Full => write!(f, "Parsing needs more places in the sink"),
        }
    }
}

// What a check tells of a run that is done: the remainder, the output, how many items `emit` would append, and the most
// that would stand at one moment. Both numbers stop at 4,294,967,295.
#[derive(PartialEq, Eq, Debug, Drop)]
pub struct Done<T, O> {
    pub rest: T,
    pub output: O,
    pub count: u32,
    pub peak: u32,
}

// What a check tells of a run that is not done: why, and the most items that stood at one moment before.
#[derive(PartialEq, Eq, Debug, Drop)]
pub struct Stopped<E> {
    pub fault: Fault<E>,
    pub peak: u32,
}

impl<E> Stopped<E> {
    // A fault before any item stood.
    pub fn at_once(fault: Fault<E>) -> Stopped<E>
        ensures { result ≡ record { fault = fault; peak = 0 } }
    {
        Stopped { fault, peak: 0 }
    }

    // The same fault, where another number of items stood.
    pub fn at(self, peak: u32) -> Stopped<E>
        ensures { result ≡ record { fault = self.fault; peak = peak } }
    {
        Stopped {
            fault: self.fault,
            peak,
        }
    }

    // The fault of a part whose items are dropped.
    pub fn dropped(self) -> Stopped<E>
        ensures { result ≡ record { fault = self.fault; peak = 0 } }
    {
        self.at(0)
    }
}

// Where no more is asked than why: what `?` does of a check in an emit.
impl<E> From<Stopped<E>> for Fault<E> {
    ghost from_gives = { λ stopped fault. fault ≡ stopped.fault };

    fn from(stopped: Stopped<E>) -> Fault<E> {
        stopped.fault
    }
}

// A parser of inputs of a kind, whose items go to a sink and whose errors are of a type. A remainder is an input again, of
// the same text.
pub trait Parser<T: Input, I: Copy, E: ParseError> {
    type Output: Drop;

    // the parser's meaning, for a text's items, a span and a manner (true is `Complete`)
    ghost means: { Self → List Cell → Span → Bool → Run Self.Output I E };

    fn check<M: Manner>(&self, input: &T) -> Result<Done<T, Self::Output>, Stopped<E>>
        ensures text { IfOk result (λ d. T.cells d.rest ≡ T.cells input.now) }
        ensures raw { IfOk result (λ d. T.raw d.rest ≡ T.raw input.now) }
        ensures checks { Checks (means self.now (T.cells input.now) (T.place input.now) M.complete)
            (answer_of T.place result) (count_of result) (peak_of result) };

    fn emit<M: Manner, S: Sink<Item = I>>(
        &self,
        input: &T,
        sink: &mut S,
    ) -> Result<(T, Self::Output), Fault<E>>
        ensures text { IfOk result (λ d. T.cells d.0 ≡ T.cells input.now) }
        ensures raw { IfOk result (λ d. T.raw d.0 ≡ T.raw input.now) }
        ensures store { S.store sink.new ≡ S.store sink.old }
        ensures emits { Emits (means self.now (T.cells input.now) (T.place input.now) M.complete)
            (S.store sink.old).cap (S.list sink.old) (spanned T.place result) (S.list sink.new) };

    // what each implementation proves: a remainder lies in the text, starts no earlier than the span, and ends where it ends
    ghost suffix: { (p : Self) (cs : List Cell) (s : Span) (c : Bool) → Solid cs → Within cs s.start s.end → Suffix cs s (means p cs s c).outcome };
}

// A parser, by its check alone, whose output is a part of its input: what another parser can then be run on.
pub trait Subspan<T: Input, I: Copy, E: ParseError> {
    // its meaning, as a parser's; the items are dropped
    ghost cuts: { Self → List Cell → Span → Bool → Run Span I E };

    // The remainder and the part that is cut out.
    fn cut<M: Manner>(&self, input: &T) -> Result<(T, T), Fault<E>>
        ensures rest { IfOk result (λ d. T.cells d.0 ≡ T.cells input.now) }
        ensures rest_raw { IfOk result (λ d. T.raw d.0 ≡ T.raw input.now) }
        ensures inner { IfOk result (λ d. T.cells d.1 ≡ T.cells input.now) }
        ensures inner_raw { IfOk result (λ d. T.raw d.1 ≡ T.raw input.now) }
        ensures tells { both_spanned T.place result
            ≡ told (cuts self.now (T.cells input.now) (T.place input.now) M.complete).outcome };

    // what each implementation proves: the output lies inside the span, and the remainder is one of the span
    ghost inside: { (p : Self) (cs : List Cell) (s : Span) (c : Bool) → Solid cs → Within cs s.start s.end → Inside cs s (cuts p cs s c).outcome };
}

// Cuts a sink back to where a parser found it, and passes the fault up.
pub fn undo<S: Sink, O, E>(sink: &mut S, mark: Mark, fault: Fault<E>) -> Result<O, Fault<E>>
    ensures answer { result ≡ Err fault }
    ensures store { S.store sink.new ≡ S.store sink.old }
    ensures list { S.list sink.new ≡ front mark.len (S.list sink.old) }
{
    // the mark is of this sink's list, so it is not refused
    let _ = sink.cut_back(mark);
    Err(fault)
}
