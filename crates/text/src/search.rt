// What is asked of any text, by its interface alone.
ghost use Rattle.std.specs.Prelude.{◌≡◌, ◌+◌, ◌≤◌, IfSome};
ghost use Rattle.text.specs.Cells.{total, part, Within};
ghost use Rattle.text.specs.Search.{begins, matched, found};
ghost use Rattle.text.specs.Laws.{Begins, FirstPlace};

use super::{CompareResult, Input, Needle};

// Counting is asked of any input too; it stands with the iterator over items.
pub use super::items::{count_items, count_lines};

// Whether the input begins with the tag.
pub fn starts_with<T: Input>(input: &T, tag: &T::Tag) -> bool
    ensures value { result ≡ begins (matched (part (T.cells input.now) (T.place input.now)) (T.Tag.Needle.spelt tag.now)) }
    ensures prefix { Begins (part (T.cells input.now) (T.place input.now)) (T.Tag.Needle.spelt tag.now) result }
{
    matches!(input.compare(tag), CompareResult::Ok)
}

// How many bytes come before the first place at which the input begins with the tag. An empty tag is found at 0.
// A tag that is found starts and ends on item boundaries, inside the span.
pub fn find<T: Input>(input: &T, tag: &T::Tag) -> Option<usize>
    ensures value { result ≡ found (part (T.cells input.now) (T.place input.now)) (T.Tag.Needle.spelt tag.now) }
    ensures first { FirstPlace (part (T.cells input.now) (T.place input.now)) (T.Tag.Needle.spelt tag.now) result }
    ensures inside { let s = T.place input.now in
        let size = total (T.Tag.Needle.spelt tag.now) in
        IfSome result (λ n. Within (T.cells input.now) (s.start + n) (s.start + n + size) × (s.start + n + size ≤ s.end)) }
{
    let Some(code) = tag.first() else {
        return Some(0);
    };
    let start = input.span().start;
    let mut rest = input.again();
    // no walk of `Items`: a step passes over all the items up to the next that the tag could begin at
    loop {
        rest = rest.take_from(rest.position_of(code));
        if starts_with(&rest, tag) {
            return Some(rest.span().start - start);
        }
        let (_, width) = rest.item()?;
        rest = rest.take_from(width);
    }
}
