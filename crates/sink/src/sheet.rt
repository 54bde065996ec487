// A sink over a slice that the caller lends.
//
// The items stand in the slice's first places. A sheet uses at most 65,536 places, however many the slice has, so every
// slice makes one, and `check` tells whether all of it is used.
ghost use Rattle.std.specs.Prelude.{◌≡◌, ◌≤◌, [], length};
ghost use Rattle.std.proofs.Math.Option.{some};
ghost use Rattle.sink.specs.Answers.{making, item_at};
ghost use Rattle.sink.specs.Sheets.{sheet_list, sheet_cap, sheet_bounds};

use super::{Refusal, SINK_LIMIT, Sink, check_mark, check_places};

// The places, and how many items stand in the first of them. The places are lent, since nothing here allocates.
#[derive(Drop)]
pub struct Sheet<'a, I> {
    places: &'a mut [I],
    len: usize,
    ghost within: { len ≤ sheet_cap places.now },
}

impl<'a, I> Sheet<'a, I> {
    // Whether all the places can be used.
    pub fn check(places: &[I]) -> Result<(), Refusal>
        ensures { result ≡ making (length places.now) }
    {
        check_places(places.len())
    }

    // An empty sheet over the places, of which it uses the first 65,536. It writes to the slice that it is handed.
    pub fn new(places: &'a mut [I]) -> Sheet<'a, I>
        ensures lent { result.places.ghost_name ≡ places.entry.ghost_name }
        ensures places { result.places.now ≡ places.old }
        ensures list { sheet_list result.places.now result.len ≡ [] }
        ensures cap { sheet_cap result.places.now ≡ sheet_cap places.old }
    {
        Sheet { places, len: 0 }
    }
}

// The item at a place of a list.
fn picked<I: Copy>(items: &[I], at: usize) -> Result<I, Refusal>
    ensures { result ≡ item_at items.now at }
{
    items
        .get(at)
        .copied()
        .ok_or(Refusal::PastList(at, items.len()))
}

impl<'a, I: Copy> Sink for Sheet<'a, I> {
    type Item = I;

    ghost list = { λ s. sheet_list s.places.now s.len };

    ghost store = { λ s. record {
      cap = sheet_cap s.places.now;
      lent = some s.places.ghost_name;
    } };

    ghost bounds = { λ s. sheet_bounds s.places.now s.len };

    fn len(&self) -> usize {
        self.len
    }

    fn capacity(&self) -> usize {
        self.places.len().min(SINK_LIMIT)
    }

    fn push(&mut self, item: I) -> Result<(), Refusal> {
        if self.len >= self.capacity() {
            return Err(Refusal::Full);
        }
        self.places[self.len] = item;
        self.len += 1;
        Ok(())
    }

    fn read(&self, at: usize) -> Result<I, Refusal> {
        picked(self.items(), at)
    }

    fn truncate(&mut self, len: usize) -> Result<(), Refusal> {
        check_mark(len, self.len)?;
        self.len = len;
        Ok(())
    }
}

impl<'a, I: Copy> Sheet<'a, I> {
    // The list, as a slice.
    pub fn items(&self) -> &[I]
        ensures { result.now ≡ sheet_list self.now.places.now self.now.len }
    {
        &self.places[..self.len]
    }

    // Ends the sheet, and gives its list.
    pub fn into_items(self) -> &'a mut [I]
        ensures { result.now ≡ sheet_list self.entry.places.now self.entry.len }
    {
        let Sheet { places, len } = self;
        &mut places[..len]
    }
}
