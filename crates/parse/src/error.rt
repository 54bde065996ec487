// Errors: what went wrong, and where. nom's `error.rs`.
ghost use Rattle.std.specs.Prelude.{◌≡◌, Some, None, refl};
ghost use Rattle.text.specs.declared.Span.{Span};
ghost use Rattle.parse.specs.declared.error.ErrorKind.{ErrorKind};
ghost use Rattle.parse.specs.Errors.{number_of, further, further_associates};

use std::fmt;
use text::Span;

// Which parser an error comes from: nom's kinds, as far as the parsers here use them, with nom's numbers.
#[derive(Clone, Copy, PartialEq, Eq, Debug)]
pub enum ErrorKind {
    Tag = 1,
    MapRes = 2,
    MapOpt = 3,
    Alt = 4,
    IsNot = 5,
    IsA = 6,
    SeparatedList = 7,
    Many1 = 9,
    Count = 10,
    TakeUntil = 12,
    LengthValue = 15,
    Eof = 23,
    TakeWhile1 = 47,
    Complete = 48,
    ManyMN = 57,
    Many0 = 62,
    Not = 63,
    Permutation = 64,
    ManyTill = 65,
    Verify = 66,
    TakeTill1 = 67,
    TakeWhileMN = 69,
    Many1Count = 72,
}

// The number of a kind, as nom has it.
pub fn error_to_u32(kind: ErrorKind) -> u32
    ensures { result ≡ number_of kind }
{
    kind as u32
}

// An error that a parser can give. Its functions are pure: each is one of its ghost members.
pub trait ParseError: Drop + Sized {
    // an error of a kind at a span
    ghost made: { Span → ErrorKind → Self };
    // the same with the kind of a parser further out
    ghost appended: { Span → ErrorKind → Self → Self };
    // the error of two ways that both failed
    ghost joined: { Self → Self → Self };

    fn from_error_kind(input: Span, kind: ErrorKind) -> Self
        ensures { result ≡ made input kind };

    fn append(input: Span, kind: ErrorKind, other: Self) -> Self
        ensures { result ≡ appended input kind other };

    fn or(self, other: Self) -> Self
        ensures { result ≡ joined self other };

    // what each implementation proves: of three ways, it does not matter which two are joined first
    ghost associates: { (a b c : Self) → joined (joined a b) c ≡ joined a (joined b c) };
}

// An error that can be made from one of another type, as a function that is mapped over an output gives it.
pub trait FromExternalError<X>: Sized {
    ghost external: { Span → ErrorKind → X → Self };

    fn from_external_error(input: Span, kind: ErrorKind, error: X) -> Self
        ensures { result ≡ external input kind error };
}

// The error with the kind and the place of the innermost parser; of two ways the later one's.
#[derive(Clone, Copy, PartialEq, Eq, Debug)]
pub struct Error {
    pub input: Span,
    pub code: ErrorKind,
}

impl ParseError for Error {
    ghost made = { λ s k. record { input = s; code = k } };

    ghost appended = { λ _ _ e. e };

    ghost joined = { λ _ b. b };

    ghost associates = { λ _ _ _. refl };

    fn from_error_kind(input: Span, kind: ErrorKind) -> Error {
        Error { input, code: kind }
    }

    fn append(_input: Span, _kind: ErrorKind, other: Error) -> Error {
        other
    }

    fn or(self, other: Error) -> Error {
        other
    }
}

impl<X: Drop> FromExternalError<X> for Error {
    ghost external = { λ s k _. record { input = s; code = k } };

    fn from_external_error(input: Span, kind: ErrorKind, _error: X) -> Error {
        Error::from_error_kind(input, kind)
    }
}

impl fmt::Display for Error {
    fn fmt<W: fmt::Write>(&self, f: &mut fmt::Formatter<W>) -> fmt::Result {
        let code = self.code;
        let start = self.input.start;
        let end = self.input.end;
        write!(f, "error {code:?} at: {start}..{end}")
    }
}

// The same as a pair: nom has both, and an impl for one does not serve the other.
impl ParseError for (Span, ErrorKind) {
    ghost made = { λ s k. (s, k) };

    ghost appended = { λ _ _ e. e };

    ghost joined = { λ _ b. b };

    ghost associates = { λ _ _ _. refl };

    fn from_error_kind(input: Span, kind: ErrorKind) -> (Span, ErrorKind) {
        (input, kind)
    }

    fn append(_input: Span, _kind: ErrorKind, other: (Span, ErrorKind)) -> (Span, ErrorKind) {
        other
    }

    fn or(self, other: (Span, ErrorKind)) -> (Span, ErrorKind) {
        other
    }
}

impl<X: Drop> FromExternalError<X> for (Span, ErrorKind) {
    ghost external = { λ s k _. (s, k) };

    fn from_external_error(input: Span, kind: ErrorKind, _error: X) -> (Span, ErrorKind) {
        (input, kind)
    }
}

// No more than that there was an error.
impl ParseError for () {
    ghost made = { λ _ _. tt };

    ghost appended = { λ _ _ _. tt };

    ghost joined = { λ _ _. tt };

    ghost associates = { λ _ _ _. refl };

    fn from_error_kind(_input: Span, _kind: ErrorKind) {}

    fn append(_input: Span, _kind: ErrorKind, _other: ()) {}

    fn or(self, _other: ()) {}
}

impl<X: Drop> FromExternalError<X> for () {
    ghost external = { λ _ _ _. tt };

    fn from_external_error(_input: Span, _kind: ErrorKind, _error: X) {}
}

// The error that starts furthest on, and the kind that was appended to it last: of two ways, the one that got further
// tells more of what was meant. At a tie it is the later one.
#[derive(Clone, Copy, PartialEq, Eq, Debug)]
pub struct Far {
    pub input: Span,
    pub code: ErrorKind,
    pub latest: Option<ErrorKind>,
}

impl ParseError for Far {
    ghost made = { λ s k. record { input = s; code = k; latest = None } };

    ghost appended = { λ _ k e. record { input = e.input; code = e.code; latest = Some k } };

    ghost joined = { further };

    ghost associates = { further_associates };

    fn from_error_kind(input: Span, kind: ErrorKind) -> Far {
        Far {
            input,
            code: kind,
            latest: None,
        }
    }

    fn append(_input: Span, kind: ErrorKind, other: Far) -> Far {
        Far {
            input: other.input,
            code: other.code,
            latest: Some(kind),
        }
    }

    fn or(self, other: Far) -> Far {
        if other.input.start < self.input.start {
            self
        } else {
            other
        }
    }
}

impl<X: Drop> FromExternalError<X> for Far {
    ghost external = { λ s k _. record { input = s; code = k; latest = None } };

    fn from_external_error(input: Span, kind: ErrorKind, _error: X) -> Far {
        Far::from_error_kind(input, kind)
    }
}
