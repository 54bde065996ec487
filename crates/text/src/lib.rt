// Texts: what a parser reads.
//
// A text is a view over bytes that the caller lends. It means a list of items, each a code with its width in bytes;
// a byte text has bytes as items, a UTF-8 text (crate `utf8`) code points. A value of a text type is nom's input: a text,
// and a `Span` of it that is to be read. That the span lies in the text, on item boundaries, is a fact of the type. Each
// question is about the items of the span, and leaves the text as it was.
//
// Offsets that are answered count bytes from the start of the span, as nom's count from the start of the input.
#![tactic(auto)]

ghost use Rattle.std.specs.Prelude.{◌≡◌, ℕ, ◌+◌, ◌-◌, Bool, true, false, List, take as front, drop as rest, nat_le};
ghost use Rattle.text.specs.declared.Needed.{Needed};
ghost use Rattle.text.specs.declared.Span.{Span};
ghost use Rattle.text.specs.Cells.{Cell, total, boundary, Within, part, first, Lawful, Short};
ghost use Rattle.text.specs.Search.{matched, until, is, sliced, code_of};
ghost use Rattle.text.specs.Need.{needed, known};
ghost use Rattle.text.specs.Answers.{number_of};

use std::fmt;
use std::num::NonZeroUsize;

pub mod bytes;
pub mod items;
pub mod search;

pub use bytes::{ByteTag, ByteText};
pub use items::{Items, count_items, count_lines};
pub use search::{find, starts_with};

// The most bytes that a text may have.
pub const TEXT_LIMIT: usize = 1_048_576;

// The most bytes that a tag may have.
pub const TAG_LIMIT: usize = 32;

// A part of a text, from byte `start` up to byte `end`.
#[derive(Clone, Copy, PartialEq, Eq, Debug)]
pub struct Span {
    pub start: usize,
    pub end: usize,
}

impl Span {
    // How many bytes it has.
    pub fn len(self) -> usize
        ensures { result ≡ self.end - self.start }
    {
        self.end.saturating_sub(self.start)
    }

    pub fn is_empty(self) -> bool
        ensures { result ≡ nat_le self.end self.start }
    {
        self.end <= self.start
    }
}

// How much more input a parser needs, in bytes where it can tell. A size is never 0. It is nom's enum: as an
// `Option<NonZeroUsize>`, `Incomplete(None)` would no longer say what is not known.
#[derive(Clone, Copy, PartialEq, Eq, Debug)]
pub enum Needed {
    Unknown,
    Size(NonZeroUsize),
}

impl Needed {
    // `n` more bytes; unknown where `n` is 0.
    pub fn new(n: usize) -> Needed
        ensures { result ≡ needed n }
    {
        // by `map_or` the check does not find the proof
        match NonZeroUsize::new(n) {
            Some(size) => Needed::Size(size),
            None => Needed::Unknown,
        }
    }

    pub fn is_known(&self) -> bool
        ensures { result ≡ known self.now }
    {
        matches!(self, Needed::Size(_))
    }
}

// What the end of a span means: under `Streaming` more input may follow, under `Complete` none does.
// It is a type, as in nom, so that each parser is compiled once for each, with no test at run time.
pub trait Manner {
    ghost complete: { Bool };

    fn is_complete() -> bool
        ensures { result ≡ complete };
}

#[derive(Clone, Copy)]
pub struct Streaming;

impl Manner for Streaming {
    ghost complete = { false };

    fn is_complete() -> bool {
        false
    }
}

#[derive(Clone, Copy)]
pub struct Complete;

impl Manner for Complete {
    ghost complete = { true };

    fn is_complete() -> bool {
        true
    }
}

// How a span compares with a tag.
#[derive(Clone, Copy, PartialEq, Eq, Debug)]
pub enum CompareResult {
    // it begins with the tag
    Ok,
    // it is a shorter prefix of the tag
    Incomplete,
    // neither
    Error,
}

// Why bytes are no text or no tag.
#[derive(Clone, Copy, PartialEq, Eq, Debug)]
pub enum Refusal {
    // a text of this many bytes
    TextTooLong(usize),
    // bytes that are not UTF-8, of which the longest well-formed prefix has this many
    Malformed(usize),
    // a tag of this many bytes
    TagTooLong(usize),
}

impl Refusal {
    // Its number in the table of answers (docs/FORMAT.md), to be printed. A variant that tells a value cannot be cast, and
    // a `From` for `u32` would be this match under a name that does not say which number.
    pub fn number(&self) -> u32
        ensures { result ≡ number_of self.now }
    {
        match self {
            Refusal::TextTooLong(_) => 1,
            Refusal::Malformed(_) => 2,
            Refusal::TagTooLong(_) => 3,
        }
    }
}

impl fmt::Display for Refusal {
    fn fmt<W: fmt::Write>(&self, f: &mut fmt::Formatter<W>) -> fmt::Result {
        match self {
            Refusal::TextTooLong(len) => write!(
                f,
                "the text has {len} bytes, and a text may have at most {TEXT_LIMIT}"
            ),
            Refusal::Malformed(valid) => write!(
                f,
                "not well-formed UTF-8; the longest well-formed prefix has {valid} bytes"
            ),
            Refusal::TagTooLong(len) => write!(
                f,
                "the tag has {len} bytes, and a tag may have at most {TAG_LIMIT}"
            ),
        }
    }
}

// A test of one item by its code: what nom takes a closure for. It is a trait, since what a closure answers is a relation
// (`F.post`), which may allow two answers for one item: `holds` could not be had of it, and a parser that asks about an
// item by check and again by emit would not have to be told the same.
pub trait Predicate {
    ghost holds: { Self → ℕ → Bool };

    fn test(&self, item: u32) -> bool
        ensures { result ≡ holds self.now item };
}

// The test for one code.
#[derive(Clone, Copy)]
pub struct Is {
    pub code: u32,
}

impl Predicate for Is {
    ghost holds = { λ p. is p.code };

    fn test(&self, item: u32) -> bool {
        item == self.code
    }
}

// A tag: a short list of items that a text is compared with.
pub trait Needle {
    // the tag's meaning: its items
    ghost spelt: { Self → List Cell };

    // How many bytes it has.
    fn len(&self) -> usize
        ensures { result ≡ total (spelt self.now) };

    // The code of its first item.
    fn first(&self) -> Option<u32>
        ensures { result ≡ code_of (first (spelt self.now)) };

    // what each implementation proves of its items
    ghost short: { (t : Self) → Short (spelt t) };
}

// A text, and a span of it that is to be read. Its items to be read are `part (cells t) (place t)`: a ghost member for
// them would be one more thing to implement, and a law that ties it to these two.
pub trait Input: Sized + Drop {
    type Tag: Needle + Drop;

    // the whole text's meaning: its items, each a code and a width
    ghost cells: { Self → List Cell };
    // the whole text's bytes
    ghost raw: { Self → List ℕ };
    // the span that is to be read
    ghost place: { Self → Span };
    // what a span that is short of n items needs
    ghost lack: { ℕ → Needed };

    // How many bytes the whole text has.
    fn text_len(&self) -> usize
        ensures { result ≡ total (cells self.now) };

    fn span(&self) -> Span
        ensures { result ≡ place self.now };

    // The same text, to be read at another span.
    fn at(&self, span: Span) -> Self
        requires { Within (cells self.now) span.start span.end }
        ensures cells { cells result ≡ cells self.now }
        ensures raw { raw result ≡ raw self.now }
        ensures place { place result ≡ span };

    // Whether an item starts at byte `at` of the whole text, or the text ends there.
    fn is_boundary(&self, at: usize) -> bool
        ensures { result ≡ boundary (cells self.now) at };

    // The first item, as its code and its width.
    fn item(&self) -> Option<(u32, usize)>
        ensures { result ≡ first (part (cells self.now) (place self.now)) };

    // The bytes of any span of the text, as a part of the text.
    fn bytes_at(&self, span: Span) -> &[u8]
        requires { Within (cells self.now) span.start span.end }
        ensures { result.now ≡ front (span.end - span.start) (rest span.start (raw self.now)) };

    // How the span compares with a tag, item by item.
    fn compare(&self, tag: &Self::Tag) -> CompareResult
        ensures { result ≡ matched (part (cells self.now) (place self.now)) (Self.Tag.Needle.spelt tag.now) };

    // How many bytes come before the first item that meets the predicate: all of the span where none does. It is a number
    // and no `Option`, since most callers go on from there in either case (nom's `split_at_position`).
    fn position<P: Predicate>(&self, predicate: &P) -> usize
        ensures { result ≡ until (P.holds predicate.now) (part (cells self.now) (place self.now)) };

    // The same for the first item that has this code.
    fn position_of(&self, code: u32) -> usize
        ensures { result ≡ until (is code) (part (cells self.now) (place self.now)) };

    // How many bytes the first `count` items have, or what is needed where there are fewer.
    fn slice_index(&self, count: usize) -> Result<usize, Needed>
        ensures { result ≡ sliced lack count (part (cells self.now) (place self.now)) };

    // The bytes that are to be read.
    fn bytes(&self) -> &[u8]
        ensures { let s = place self.now in result.now ≡ front (s.end - s.start) (rest s.start (raw self.now)) }
    {
        self.bytes_at(self.span())
    }

    // How many bytes are to be read.
    fn input_len(&self) -> usize
        ensures { result ≡ total (part (cells self.now) (place self.now)) }
    {
        self.span().len()
    }

    // The input past its first `len` bytes.
    fn take_from(&self, len: usize) -> Self
        requires { let s = place self.now in Within (cells self.now) (s.start + len) s.end }
        ensures cells { cells result ≡ cells self.now }
        ensures raw { raw result ≡ raw self.now }
        ensures place { place result ≡ record { start = (place self.now).start + len; end = (place self.now).end } }
    {
        let span = self.span();
        self.at(Span {
            start: span.start + len,
            end: span.end,
        })
    }

    // The input past its first `len` bytes, and these: nom's order.
    fn take_split(&self, len: usize) -> (Self, Self)
        requires { let s = place self.now in Within (cells self.now) (s.start + len) s.end }
        ensures rest_cells { cells result.0 ≡ cells self.now }
        ensures rest_raw { raw result.0 ≡ raw self.now }
        ensures rest { place result.0 ≡ record { start = (place self.now).start + len; end = (place self.now).end } }
        ensures front_cells { cells result.1 ≡ cells self.now }
        ensures front_raw { raw result.1 ≡ raw self.now }
        ensures front { place result.1 ≡ record { start = (place self.now).start; end = (place self.now).start + len } }
    {
        let span = self.span();
        let front = Span {
            start: span.start,
            end: span.start + len,
        };
        (self.take_from(len), self.at(front))
    }

    // The same input once more.
    fn again(&self) -> Self
        ensures cells { cells result ≡ cells self.now }
        ensures raw { raw result ≡ raw self.now }
        ensures place { place result ≡ place self.now }
    {
        self.at(self.span())
    }

    // The whole text.
    fn whole(&self) -> Self
        ensures cells { cells result ≡ cells self.now }
        ensures raw { raw result ≡ raw self.now }
        ensures place { place result ≡ record { start = 0; end = total (cells self.now) } }
        ensures items { part (cells result) (place result) ≡ cells self.now }
    {
        self.at(Span {
            start: 0,
            end: self.text_len(),
        })
    }

    // what each implementation proves: items and bytes of a text belong together, and the span lies in the text, on
    // item boundaries
    ghost lawful: { (t : Self) → Lawful (cells t) (raw t) };

    ghost within: { (t : Self) → Within (cells t) (place t).start (place t).end };
}
