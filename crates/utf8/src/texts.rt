// Texts and tags whose items are code points.
ghost use Rattle.std.specs.Prelude.{◌≡◌, suc, ◌≤◌, true, length, drop, is_some, Some, slice_index};
ghost use Rattle.text.specs.declared.Span.{Span};
ghost use Rattle.text.specs.Answers.{kept, Made};
ghost use Rattle.text.specs.Cells.{Within, part, singles};
ghost use Rattle.text.specs.Need.{unknown};
ghost use Rattle.text.specs.Search.{matched};
ghost use Rattle.utf8.specs.Octets.{char as char_of, scan, WellFormed, tails_of};
ghost use Rattle.utf8.specs.Scans.{scan_lawful, scan_short};
ghost use Rattle.utf8.specs.Answers.{well_check, utf8_text_check, utf8_tag_check};
ghost use Rattle.utf8.specs.Rfc.{Octets, codes, TextAnswer, TagAnswer};

use super::check::valid_up_to;
use text::bytes::{compare_bytes, find_byte};
use text::{ByteTag, ByteText, CompareResult, Input, Is, Needed, Needle, Predicate, Refusal, Span};

// A tag of code points.
#[derive(Clone, Copy)]
pub struct Utf8Tag<'a> {
    bytes: &'a [u8],
    ghost few: { length bytes.now ≤ 32 },
    ghost well: { WellFormed bytes.now },
}

// A text of code points, and a span of it. Its bytes are well-formed, wherever a value of it is. They are bytes and not a
// `&str`: that would save the line `well` alone, since every question would be asked of its `as_bytes()`, with a lemma at
// each that `str`'s well-formedness is this one. `char_indices` in place of `split_char` was tried: `position` by it is
// slower than Rust's own (docs/DESIGN-PASS.md).
#[derive(Clone, Copy)]
pub struct Utf8Text<'a> {
    bytes: &'a [u8],
    span: Span,
    ghost few: { length bytes.now ≤ 1048576 },
    ghost well: { WellFormed bytes.now },
    ghost within: { Within (scan bytes.now) span.start span.end },
}

// Whether all of the bytes are code points.
fn check_well_formed(bytes: &[u8]) -> Result<(), Refusal>
    ensures { result ≡ well_check bytes.now }
{
    let valid = valid_up_to(bytes);
    if valid == bytes.len() {
        Ok(())
    } else {
        Err(Refusal::Malformed(valid))
    }
}

impl<'a> Utf8Tag<'a> {
    // Whether the bytes are a tag: accepted exactly where they are UTF-8 by RFC 3629 and within the limit.
    pub fn check(bytes: &[u8]) -> Result<(), Refusal>
        ensures value { result ≡ utf8_tag_check bytes.now }
        ensures exact { TagAnswer bytes.now result }
    {
        ByteTag::check(bytes)?;
        check_well_formed(bytes)
    }

    // The bytes as a tag, or an empty tag where they are refused: the call that cannot fail, beside `try_from`.
    pub fn new(bytes: &'a [u8]) -> Utf8Tag<'a>
        ensures { result.bytes.now ≡ kept (utf8_tag_check bytes.now) bytes.now }
    {
        Utf8Tag::try_from(bytes).unwrap_or(Utf8Tag { bytes: &[] })
    }
}

impl<'a> TryFrom<&'a [u8]> for Utf8Tag<'a> {
    type Error = Refusal;

    ghost try_from_gives = { λ bytes r. Made
        (utf8_tag_check bytes.now)
        (λ t. t.bytes.now ≡ bytes.now) r };

    fn try_from(bytes: &'a [u8]) -> Result<Utf8Tag<'a>, Refusal> {
        Utf8Tag::check(bytes)?;
        Ok(Utf8Tag { bytes })
    }
}

impl<'a> Utf8Text<'a> {
    // Whether the bytes are a text: accepted exactly where they are UTF-8 by RFC 3629 and within the limit.
    pub fn check(bytes: &[u8]) -> Result<(), Refusal>
        ensures value { result ≡ utf8_text_check bytes.now }
        ensures exact { TextAnswer bytes.now result }
    {
        ByteText::check(bytes)?;
        check_well_formed(bytes)
    }

    // All of a text that is short enough and well-formed.
    fn over_all(bytes: &'a [u8]) -> Utf8Text<'a>
        requires few { length bytes.now ≤ 1048576 }
        requires well { WellFormed bytes.now }
        ensures bytes { result.bytes.now ≡ bytes.now }
        ensures span { result.span ≡ record { start = 0; end = length bytes.now } }
        ensures all { part (scan result.bytes.now) result.span ≡ scan result.bytes.now }
    {
        Utf8Text {
            bytes,
            span: Span {
                start: 0,
                end: bytes.len(),
            },
        }
    }

    // The bytes as a text, or an empty text where they are refused (the call that cannot fail, beside `try_from`); all of
    // it is to be read. Its items are the code points that RFC 3629 has for its bytes.
    pub fn new(bytes: &'a [u8]) -> Utf8Text<'a>
        ensures bytes { result.bytes.now ≡ kept (utf8_text_check bytes.now) bytes.now }
        ensures span { result.span ≡ record { start = 0; end = length result.bytes.now } }
        ensures all { part (scan result.bytes.now) result.span ≡ scan result.bytes.now }
        ensures items { Octets result.bytes.now (codes (scan result.bytes.now)) }
    {
        Utf8Text::try_from(bytes).unwrap_or(Utf8Text::over_all(&[]))
    }
}

impl<'a> TryFrom<&'a [u8]> for Utf8Text<'a> {
    type Error = Refusal;

    ghost try_from_gives = { λ bytes r. Made
        (utf8_text_check bytes.now)
        (λ t. (t.bytes.now ≡ bytes.now) × (t.span ≡ record { start = 0; end = length bytes.now }) × (part (scan t.bytes.now) t.span ≡ scan t.bytes.now) × Octets t.bytes.now (codes (scan t.bytes.now))) r };

    fn try_from(bytes: &'a [u8]) -> Result<Utf8Text<'a>, Refusal> {
        Utf8Text::check(bytes)?;
        Ok(Utf8Text::over_all(bytes))
    }
}

// The code point that the bytes begin with, and the bytes behind it: no byte is held against its range again. Each width
// has a way of its own through the function, which a processor foretells better than a computed width. Bytes are widened by
// `as`: with `u32::from` the proof of this function did not close.
fn split_char(bytes: &[u8]) -> (u32, &[u8])
    requires { is_some (char_of bytes.now) ≡ true }
    ensures point { Some (result.0, suc (tails_of (slice_index bytes.now 0))) ≡ char_of bytes.now }
    ensures rest { result.1.now ≡ drop (suc (tails_of (slice_index bytes.now 0))) bytes.now }
{
    let lead = bytes[0];
    if lead < 0x80 {
        return (lead as u32, &bytes[1..]);
    }
    let second = (bytes[1] - 0x80) as u32;
    if lead < 0xE0 {
        return ((lead - 0xC0) as u32 * 64 + second, &bytes[2..]);
    }
    let third = (bytes[2] - 0x80) as u32;
    if lead < 0xF0 {
        return (
            ((lead - 0xE0) as u32 * 64 + second) * 64 + third,
            &bytes[3..],
        );
    }
    let fourth = (bytes[3] - 0x80) as u32;
    (
        (((lead - 0xF0) as u32 * 64 + second) * 64 + third) * 64 + fourth,
        &bytes[4..],
    )
}

// How bytes compare with a tag's bytes. Where both are well-formed, comparing bytes is comparing code points.
pub fn compare_chars(text: &[u8], tag: &[u8]) -> CompareResult
    ensures bytes { result ≡ matched (singles text.now) (singles tag.now) }
    ensures items { WellFormed text.now → WellFormed tag.now → result ≡ matched (scan text.now) (scan tag.now) }
{
    compare_bytes(text, tag)
}

impl<'a> Needle for Utf8Tag<'a> {
    ghost spelt = { λ t. scan t.bytes.now };

    fn len(&self) -> usize {
        self.bytes.len()
    }

    fn first(&self) -> Option<u32> {
        if self.bytes.is_empty() {
            return None;
        }
        let (code, _rest) = split_char(self.bytes);
        Some(code)
    }

    ghost short = { λ t. scan_short t.bytes.now t.well t.few };
}

impl<'a> Input for Utf8Text<'a> {
    type Tag = Utf8Tag<'a>;

    ghost cells = { λ t. scan t.bytes.now };

    ghost raw = { λ t. t.bytes.now };

    ghost place = { λ t. t.span };

    ghost lack = { unknown };

    fn text_len(&self) -> usize {
        self.bytes.len()
    }

    fn span(&self) -> Span {
        self.span
    }

    fn at(&self, span: Span) -> Utf8Text<'a> {
        Utf8Text {
            bytes: self.bytes,
            span,
        }
    }

    fn is_boundary(&self, at: usize) -> bool {
        match self.bytes.get(at) {
            Some(b) => *b < 0x80 || *b >= 0xC0,
            None => at == self.bytes.len(),
        }
    }

    fn item(&self) -> Option<(u32, usize)> {
        let bytes = self.bytes();
        if bytes.is_empty() {
            return None;
        }
        let (code, rest) = split_char(bytes);
        Some((code, bytes.len() - rest.len()))
    }

    fn bytes_at(&self, span: Span) -> &[u8] {
        &self.bytes[span.start..span.end]
    }

    fn compare(&self, tag: &Utf8Tag<'a>) -> CompareResult {
        compare_chars(self.bytes(), tag.bytes)
    }

    fn position<P: Predicate>(&self, predicate: &P) -> usize {
        let bytes = self.bytes();
        let mut rest = bytes;
        // over `char_indices` it is slower than Rust's own (docs/DESIGN-PASS.md)
        while !rest.is_empty() {
            let (code, after) = split_char(rest);
            if predicate.test(code) {
                break;
            }
            rest = after;
        }
        bytes.len() - rest.len()
    }

    // taken into `find`, which asks at each place where a tag may begin
    #[inline(always)]
    fn position_of(&self, code: u32) -> usize {
        match u8::try_from(code) {
            Ok(byte @ ..0x80) => find_byte(self.bytes(), byte),
            _ => self.position(&Is { code }),
        }
    }

    fn slice_index(&self, count: usize) -> Result<usize, Needed> {
        let bytes = self.bytes();
        let mut rest = bytes;
        // by `split_char`, as `position` is
        for _ in 0..count {
            if rest.is_empty() {
                return Err(Needed::Unknown);
            }
            let (_code, after) = split_char(rest);
            rest = after;
        }
        Ok(bytes.len() - rest.len())
    }

    ghost lawful = { λ t. scan_lawful t.bytes.now t.well t.few };

    ghost within = { λ t. t.within };
}
