// A sink that only counts: its items are units, so it stores none.
ghost use Rattle.std.specs.Prelude.{◌≡◌, ◌≤◌, min, []};
ghost use Rattle.std.proofs.Math.Option.{none};
ghost use Rattle.sink.specs.Answers.{making};
ghost use Rattle.sink.specs.Counts.{units, units_bounds};

use super::{Refusal, SINK_LIMIT, Sink, check_mark, check_places};

// How many items there are, and how many there can be.
#[derive(Drop)]
pub struct Counter {
    len: usize,
    places: usize,
    ghost within: { len ≤ places },
    ghost few: { places ≤ 65536 },
}

impl Counter {
    // Whether a counter can have this capacity.
    pub fn check(places: usize) -> Result<(), Refusal>
        ensures { result ≡ making places }
    {
        check_places(places)
    }

    // An empty counter of this capacity, or of 65,536 where it is more.
    pub fn new(places: usize) -> Counter
        ensures list { units result.len ≡ [] }
        ensures cap { result.places ≡ min 65536 places }
    {
        Counter {
            len: 0,
            places: places.min(SINK_LIMIT),
        }
    }
}

impl Sink for Counter {
    type Item = ();

    ghost list = { λ c. units c.len };

    ghost store = { λ c. record { cap = c.places; lent = none } };

    ghost bounds = { λ c. units_bounds c.len c.places c.within c.few };

    fn len(&self) -> usize {
        self.len
    }

    fn capacity(&self) -> usize {
        self.places
    }

    fn push(&mut self, _item: ()) -> Result<(), Refusal> {
        if self.len >= self.places {
            return Err(Refusal::Full);
        }
        self.len += 1;
        Ok(())
    }

    fn read(&self, at: usize) -> Result<(), Refusal> {
        if at < self.len {
            Ok(())
        } else {
            Err(Refusal::PastList(at, self.len))
        }
    }

    fn truncate(&mut self, len: usize) -> Result<(), Refusal> {
        check_mark(len, self.len)?;
        self.len = len;
        Ok(())
    }
}
