// The items of an input, one by one.
ghost use Rattle.std.specs.Prelude.{◌≡◌, length};
ghost use Rattle.std.specs.Iterator.{YieldsFirst, item_count};
ghost use Rattle.text.specs.Cells.{part};
ghost use Rattle.text.specs.Search.{lines};
ghost use Rattle.text.specs.Laws.{Lines};

use super::Input;

// An iterator over the items that are left, each as its code and its width: nom's `iter_elements`.
#[derive(Clone, Copy)]
pub struct Items<T> {
    rest: T,
}

impl<T: Input> Items<T> {
    pub fn new(input: &T) -> Items<T>
        ensures { part (T.cells result.rest) (T.place result.rest) ≡ part (T.cells input.now) (T.place input.now) }
    {
        Items {
            rest: input.again(),
        }
    }
}

impl<T: Input> Iterator for Items<T> {
    type Item = (u32, usize);

    ghost next_gives = { YieldsFirst (λ s. part (T.cells s.rest) (T.place s.rest)) };

    ghost remaining = { item_count (λ s. part (T.cells s.rest) (T.place s.rest)) };

    fn next(&mut self) -> Option<(u32, usize)> {
        let (code, width) = self.rest.item()?;
        self.rest = self.rest.take_from(width);
        Some((code, width))
    }
}

// How many items the input has.
pub fn count_items<T: Input>(input: &T) -> usize
    ensures { result ≡ length (part (T.cells input.now) (T.place input.now)) }
{
    Items::new(input).count()
}

// The item that ends a line.
const LINE_END: u32 = 10;

// How many lines the input has: the pieces between line ends, so always one more than these.
pub fn count_lines<T: Input>(input: &T) -> usize
    ensures value { result ≡ lines (part (T.cells input.now) (T.place input.now)) }
    ensures pieces { Lines (part (T.cells input.now) (T.place input.now)) result }
{
    let mut rest = input.again();
    let mut count = 1;
    // no walk of `Items`: a step passes over all the items up to the line's end
    loop {
        rest = rest.take_from(rest.position_of(LINE_END));
        let Some((_, width)) = rest.item() else {
            return count;
        };
        rest = rest.take_from(width);
        count += 1;
    }
}
