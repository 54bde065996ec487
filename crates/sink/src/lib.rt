// Sinks: where a parser's items go, in place of nom's `Vec`s.
//
// A sink means a list of items and a fixed capacity, at most 65,536. `push` appends an item, and refuses exactly at
// capacity; `cut_back` shortens the list to a mark. Nothing else changes the list. A mark holds a length of the list and
// is linear: it has to be spent, by `keep` or by `cut_back`, and only this module opens one.
#![tactic(auto)]

ghost use Rattle.std.specs.Prelude.{◌≡◌, List, length, Some, take as front};
ghost use Rattle.sink.specs.Answers.{number_of, making, cutting, item_at, Pushes};
ghost use Rattle.sink.specs.Bounds.{Bounded};
ghost use Rattle.sink.specs.Store.{Store};
ghost use Rattle.sink.specs.Words.{words_of};

use std::fmt;

pub mod counter;
pub mod sheet;

pub use counter::Counter;
pub use sheet::Sheet;

// The most places that a sink may have.
pub const SINK_LIMIT: usize = 65_536;

// Whether a sink can have this many places: the check of both kinds of sink.
fn check_places(places: usize) -> Result<(), Refusal>
    ensures { result ≡ making places }
{
    if places > SINK_LIMIT {
        Err(Refusal::TooManyPlaces(places))
    } else {
        Ok(())
    }
}

// Whether a list of this length can be cut back to a mark: what both kinds of sink ask before they cut back.
fn check_mark(mark: usize, len: usize) -> Result<(), Refusal>
    ensures { result ≡ cutting len mark }
{
    if mark > len {
        Err(Refusal::MarkAboveList(mark, len))
    } else {
        Ok(())
    }
}

// Why a sink turns a call away. The sink is then as it was.
#[derive(Clone, Copy, PartialEq, Eq, Debug)]
pub enum Refusal {
    // a capacity of this many places
    TooManyPlaces(usize),
    // no place is free
    Full,
    // a mark at this length, above the list, which has that many items
    MarkAboveList(usize, usize),
    // this place, past the list, which has that many items
    PastList(usize, usize),
}

impl Refusal {
    // Its number in the table of answers (docs/FORMAT.md), to be printed. A variant that tells values cannot be cast, and
    // a `From` for `u32` would be this match under a name that does not say which number.
    pub fn number(&self) -> u32
        ensures { result ≡ number_of self.now }
    {
        match self {
            Refusal::TooManyPlaces(_) => 4,
            Refusal::Full => 5,
            Refusal::MarkAboveList(_, _) => 6,
            Refusal::PastList(_, _) => 7,
        }
    }
}

impl fmt::Display for Refusal {
    ghost output = { λ r. Some (words_of r) };

    fn fmt<W: fmt::Write>(&self, f: &mut fmt::Formatter<W>) -> fmt::Result {
        match self {
            Refusal::TooManyPlaces(places) => write!(
                f,
                "the sink has {places} places, and a sink may have at most {SINK_LIMIT}"
            ),
            Refusal::Full => write!(f, "the sink is full"),
            Refusal::MarkAboveList(mark, len) => write!(
                f,
                "the mark is at {mark}, and the list has {len} items"
            ),
            Refusal::PastList(at, len) => write!(
                f,
                "there is no item {at}, since the list has {len} items"
            ),
        }
    }
}

// A length of a sink's list. It is not `Drop`, so a function that takes one has to spend it on every way out.
pub struct Mark {
    len: usize,
}

impl Mark {
    // A length that was stored, as a mark again.
    pub fn at(len: usize) -> Mark
        ensures { result.len ≡ len }
    {
        Mark { len }
    }
}

// A list of items with a fixed capacity.
pub trait Sink {
    type Item: Copy;

    // the sink's meaning: its items, and what it stores them into
    ghost list: { Self → List Self.Item };

    ghost store: { Self → Store };

    // How many items the list has.
    fn len(&self) -> usize
        ensures { result ≡ length (list self.now) };

    // How many items the list can have.
    fn capacity(&self) -> usize
        ensures { result ≡ (store self.now).cap };

    // Appends the item, or refuses it exactly where the list has as many items as the sink can hold.
    fn push(&mut self, item: Self::Item) -> Result<(), Refusal>
        ensures store { store self.new ≡ store self.old }
        ensures pushes { Pushes (store self.old).cap (list self.old) item result (list self.new) };

    // The item at a place of the list.
    fn read(&self, at: usize) -> Result<Self::Item, Refusal>
        ensures { result ≡ item_at (list self.now) at };

    // What an implementation does at `cut_back`: leaves the first `len` items, or refuses where there are fewer.
    fn truncate(&mut self, len: usize) -> Result<(), Refusal>
        ensures store { store self.new ≡ store self.old }
        ensures answer { result ≡ cutting (length (list self.old)) len }
        ensures list { list self.new ≡ front len (list self.old) };

    // The length of the list, as a mark.
    fn mark(&self) -> Mark
        ensures { result.len ≡ length (list self.now) }
    {
        Mark { len: self.len() }
    }

    // Spends a mark, and leaves the list as it is.
    fn keep(&self, mark: Mark) {
        let Mark { len: _ } = mark;
    }

    // Spends a mark. Leaves that many items from the list's start, and frees the places of the rest. A mark above the
    // list is refused; the list is then as it was, since all of it lies below the mark.
    fn cut_back(&mut self, mark: Mark) -> Result<(), Refusal>
        ensures store { store self.new ≡ store self.old }
        ensures answer { result ≡ cutting (length (list self.old)) mark.len }
        ensures list { list self.new ≡ front mark.len (list self.old) }
    {
        let Mark { len } = mark;
        self.truncate(len)
    }

    // A law, which each implementation proves: the list is within the capacity, and that within the limit.
    ghost bounds: { (s : Self) → Bounded (list s) (store s).cap };
}
