// The library's scans under C names, for the benchmark in tools/bench to call. Nothing else uses this crate.
#![tactic(auto)]

ghost use Rattle.std.specs.Prelude.{◌≡◌};
ghost use Rattle.text.specs.Answers.{byte_text_check, byte_tag_check, kept};
ghost use Rattle.text.specs.Cells.{total, singles, part};
ghost use Rattle.text.specs.Search.{until};
ghost use Rattle.utf8.specs.Answers.{utf8_text_check, utf8_tag_check};
ghost use Rattle.utf8.specs.Octets.{scan};
ghost use Rattle.bench.specs.Found.{placed, upper};

use text::{ByteTag, ByteText, Input, Needle, Predicate};
use utf8::{Utf8Tag, Utf8Text};

// An upper-case ASCII letter: a test of some cost that the benchmark's texts seldom meet.
struct Upper;

impl Predicate for Upper {
    ghost holds = { λ _ item. upper item };

    fn test(&self, item: u32) -> bool {
        (65..=90).contains(&item)
    }
}

// A C function answers one number, so a tag that is nowhere is told by the input's length.
fn place_of<T: Input>(input: &T, tag: &T::Tag) -> usize
    ensures { result ≡ placed (part (T.cells input.now) (T.place input.now)) (T.Tag.Needle.spelt tag.now) }
{
    text::find(input, tag).unwrap_or(input.input_len())
}

// How many bytes the longest well-formed prefix has.
#[unsafe(no_mangle)]
pub extern "C" fn fazdrigon_valid_up_to(bytes: &[u8]) -> usize
    ensures { result ≡ total (scan bytes.now) }
{
    utf8::valid_up_to(bytes)
}

// Where the tag is first found in a byte text; the text's length where it is not.
#[unsafe(no_mangle)]
pub extern "C" fn fazdrigon_find_bytes(bytes: &[u8], tag: &[u8]) -> usize
    ensures { result ≡ placed (singles (kept (byte_text_check bytes.now) bytes.now)) (singles (kept (byte_tag_check tag.now) tag.now)) }
{
    place_of(&ByteText::new(bytes), &ByteTag::new(tag))
}

// The same in a UTF-8 text.
#[unsafe(no_mangle)]
pub extern "C" fn fazdrigon_find_utf8(bytes: &[u8], tag: &[u8]) -> usize
    ensures { result ≡ placed (scan (kept (utf8_text_check bytes.now) bytes.now)) (scan (kept (utf8_tag_check tag.now) tag.now)) }
{
    place_of(&Utf8Text::new(bytes), &Utf8Tag::new(tag))
}

// Where the first upper-case letter of a byte text is; the text's length where there is none.
#[unsafe(no_mangle)]
pub extern "C" fn fazdrigon_position_bytes(bytes: &[u8]) -> usize
    ensures { result ≡ until upper (singles (kept (byte_text_check bytes.now) bytes.now)) }
{
    ByteText::new(bytes).position(&Upper)
}

// The same in a UTF-8 text.
#[unsafe(no_mangle)]
pub extern "C" fn fazdrigon_position_utf8(bytes: &[u8]) -> usize
    ensures { result ≡ until upper (scan (kept (utf8_text_check bytes.now) bytes.now)) }
{
    Utf8Text::new(bytes).position(&Upper)
}
