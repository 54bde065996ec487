// What is told of bytes: as a byte text and as a UTF-8 text.
ghost use Rattle.std.specs.Prelude.{◌≡◌};
ghost use Rattle.text.specs.Answers.{byte_text_check};
ghost use Rattle.text.specs.Cells.{part, singles};
ghost use Rattle.utf8.specs.Answers.{utf8_text_check};
ghost use Rattle.utf8.specs.Octets.{scan};
ghost use Rattle.loom.specs.Counts.{counts_of, told};

use std::fmt;
use text::{ByteText, Input, Refusal};
use utf8::Utf8Text;

// A text's size.
#[derive(Clone, Copy, PartialEq, Eq, Debug)]
pub struct Counts {
    pub bytes: usize,
    pub items: usize,
    pub lines: usize,
}

impl fmt::Display for Counts {
    fn fmt<W: fmt::Write>(&self, f: &mut fmt::Formatter<W>) -> fmt::Result {
        let Counts {
            bytes,
            items,
            lines,
        } = *self;
        write!(f, "bytes {bytes}, items {items}, lines {lines}")
    }
}

// What bytes are as one kind of text.
pub type Verdict = Result<Counts, Refusal>;

// A function, since `Verdict` is a `Result`, which has no `Display` of its own.
fn write_verdict<W: fmt::Write>(f: &mut fmt::Formatter<W>, verdict: &Verdict) -> fmt::Result {
    match verdict {
        Ok(counts) => write!(f, "accepted: {counts}"),
        Err(refusal) => {
            let number = refusal.number();
            write!(f, "refused by {number}: {refusal}")
        }
    }
}

// What bytes are as each kind of text.
#[derive(Clone, Copy, PartialEq, Eq, Debug)]
pub struct Report {
    pub as_bytes: Verdict,
    pub as_utf8: Verdict,
}

impl fmt::Display for Report {
    fn fmt<W: fmt::Write>(&self, f: &mut fmt::Formatter<W>) -> fmt::Result {
        write!(f, "  byte text:  ")?;
        write_verdict(f, &self.as_bytes)?;
        write!(f, "\n  UTF-8 text: ")?;
        write_verdict(f, &self.as_utf8)
    }
}

// Not taken into `main`'s code, where a loop may begin at any address: the one over items lay with a jump across a boundary
// of 32 bytes there, and took half as long again (docs/SPEED.md). In a function of its own it begins at a multiple of 16.
#[inline(never)]
fn count<T: Input>(text: &T) -> Counts
    ensures { result ≡ counts_of (part (T.cells text.now) (T.place text.now)) }
{
    Counts {
        bytes: text.input_len(),
        items: text::count_items(text),
        lines: text::count_lines(text),
    }
}

pub fn report_on(bytes: &[u8]) -> Report
    ensures bytes { result.as_bytes ≡ told (byte_text_check bytes.now) (singles bytes.now) }
    ensures utf8 { result.as_utf8 ≡ told (utf8_text_check bytes.now) (scan bytes.now) }
{
    Report {
        as_bytes: ByteText::try_from(bytes).map(|text| count(&text)),
        as_utf8: Utf8Text::try_from(bytes).map(|text| count(&text)),
    }
}
