// Texts and tags whose items are bytes.
ghost use Rattle.std.specs.Prelude.{◌≡◌, ◌≤◌, length};
ghost use Rattle.text.specs.Cells.{Within, part, singles};
ghost use Rattle.text.specs.Singles.{singles_lawful, singles_short};
ghost use Rattle.text.specs.Search.{matched, until, is};
ghost use Rattle.text.specs.Laws.{FirstByte};
ghost use Rattle.text.specs.Need.{needed};
ghost use Rattle.text.specs.Answers.{over, byte_text_check, byte_tag_check, kept, Made};

use super::{
    CompareResult, Input, Is, Needed, Needle, Predicate, Refusal, Span, TAG_LIMIT, TEXT_LIMIT,
};
use memchr::memchr;

// A tag of bytes.
#[derive(Clone, Copy)]
pub struct ByteTag<'a> {
    bytes: &'a [u8],
    ghost few: { length bytes.now ≤ 32 },
}

// A text of bytes, and a span of it.
#[derive(Clone, Copy)]
pub struct ByteText<'a> {
    bytes: &'a [u8],
    span: Span,
    ghost few: { length bytes.now ≤ 1048576 },
    ghost within: { Within (singles bytes.now) span.start span.end },
}

// Whether there are at most `limit` bytes, or how many there are.
fn check_len(bytes: &[u8], limit: usize) -> Result<(), usize>
    ensures { result ≡ over limit bytes.now }
{
    if bytes.len() <= limit {
        Ok(())
    } else {
        Err(bytes.len())
    }
}

impl<'a> ByteTag<'a> {
    // Whether the bytes are a tag.
    pub fn check(bytes: &[u8]) -> Result<(), Refusal>
        ensures { result ≡ byte_tag_check bytes.now }
    {
        check_len(bytes, TAG_LIMIT).map_err(Refusal::TagTooLong)
    }

    // The bytes as a tag, or an empty tag where they are refused: the call that cannot fail, beside `try_from`.
    pub fn new(bytes: &'a [u8]) -> ByteTag<'a>
        ensures { result.bytes.now ≡ kept (byte_tag_check bytes.now) bytes.now }
    {
        ByteTag::try_from(bytes).unwrap_or(ByteTag { bytes: &[] })
    }
}

impl<'a> TryFrom<&'a [u8]> for ByteTag<'a> {
    type Error = Refusal;

    ghost try_from_gives = { λ bytes r. Made
        (byte_tag_check bytes.now)
        (λ t. t.bytes.now ≡ bytes.now) r };

    fn try_from(bytes: &'a [u8]) -> Result<ByteTag<'a>, Refusal> {
        ByteTag::check(bytes)?;
        Ok(ByteTag { bytes })
    }
}

impl<'a> ByteText<'a> {
    // Whether the bytes are a text.
    pub fn check(bytes: &[u8]) -> Result<(), Refusal>
        ensures { result ≡ byte_text_check bytes.now }
    {
        check_len(bytes, TEXT_LIMIT).map_err(Refusal::TextTooLong)
    }

    // All of a text that is short enough.
    fn over_all(bytes: &'a [u8]) -> ByteText<'a>
        requires { length bytes.now ≤ 1048576 }
        ensures bytes { result.bytes.now ≡ bytes.now }
        ensures span { result.span ≡ record { start = 0; end = length bytes.now } }
        ensures all { part (singles result.bytes.now) result.span ≡ singles result.bytes.now }
    {
        ByteText {
            bytes,
            span: Span {
                start: 0,
                end: bytes.len(),
            },
        }
    }

    // The bytes as a text, or an empty text where they are refused; all of it is to be read. `try_from` tells why: this
    // one cannot fail, for callers that have checked, or that take refused bytes for no bytes.
    pub fn new(bytes: &'a [u8]) -> ByteText<'a>
        ensures bytes { result.bytes.now ≡ kept (byte_text_check bytes.now) bytes.now }
        ensures span { result.span ≡ record { start = 0; end = length result.bytes.now } }
        ensures all { part (singles result.bytes.now) result.span ≡ singles result.bytes.now }
    {
        ByteText::try_from(bytes).unwrap_or(ByteText::over_all(&[]))
    }
}

impl<'a> TryFrom<&'a [u8]> for ByteText<'a> {
    type Error = Refusal;

    ghost try_from_gives = { λ bytes r. Made
        (byte_text_check bytes.now)
        (λ t. (t.bytes.now ≡ bytes.now) × (t.span ≡ record { start = 0; end = length bytes.now }) × (part (singles t.bytes.now) t.span ≡ singles t.bytes.now)) r };

    fn try_from(bytes: &'a [u8]) -> Result<ByteText<'a>, Refusal> {
        ByteText::check(bytes)?;
        Ok(ByteText::over_all(bytes))
    }
}

// How bytes compare with a tag's bytes.
pub fn compare_bytes(text: &[u8], tag: &[u8]) -> CompareResult
    ensures { result ≡ matched (singles text.now) (singles tag.now) }
{
    if text.starts_with(tag) {
        CompareResult::Ok
    } else if text.len() < tag.len() && tag.starts_with(text) {
        CompareResult::Incomplete
    } else {
        CompareResult::Error
    }
}

// How many bytes come before the first that is `byte`: all of them where none is, as `Input::position_of` answers.
#[inline(always)]
pub fn find_byte(bytes: &[u8], byte: u8) -> usize
    ensures value { result ≡ until (is byte) (singles bytes.now) }
    ensures first { FirstByte bytes.now byte result }
{
    // where tags are searched for, or short lines counted, the byte is often near: that is told with no call
    if let [first, second, third, ..] = bytes {
        if *first == byte {
            return 0;
        }
        if *second == byte {
            return 1;
        }
        if *third == byte {
            return 2;
        }
    }
    memchr(byte, bytes).unwrap_or(bytes.len())
}

impl<'a> Needle for ByteTag<'a> {
    ghost spelt = { λ t. singles t.bytes.now };

    fn len(&self) -> usize {
        self.bytes.len()
    }

    fn first(&self) -> Option<u32> {
        let first = self.bytes.first()?;
        Some(u32::from(*first))
    }

    ghost short = { λ t. singles_short t.bytes.now t.few };
}

// The one-line methods stand in `Utf8Text` too: over a `ByteText` inside it each would be a line that calls this one.
impl<'a> Input for ByteText<'a> {
    type Tag = ByteTag<'a>;

    ghost cells = { λ t. singles t.bytes.now };

    ghost raw = { λ t. t.bytes.now };

    ghost place = { λ t. t.span };

    ghost lack = { needed };

    fn text_len(&self) -> usize {
        self.bytes.len()
    }

    fn span(&self) -> Span {
        self.span
    }

    fn at(&self, span: Span) -> ByteText<'a> {
        ByteText {
            bytes: self.bytes,
            span,
        }
    }

    fn is_boundary(&self, at: usize) -> bool {
        at <= self.bytes.len()
    }

    fn item(&self) -> Option<(u32, usize)> {
        let first = self.bytes().first()?;
        Some((u32::from(*first), 1))
    }

    fn bytes_at(&self, span: Span) -> &[u8] {
        &self.bytes[span.start..span.end]
    }

    fn compare(&self, tag: &ByteTag<'a>) -> CompareResult {
        compare_bytes(self.bytes(), tag.bytes)
    }

    fn position<P: Predicate>(&self, predicate: &P) -> usize {
        let bytes = self.bytes();
        // `iter().position(..)` runs at 0.71 of Rust's speed here, this loop at 1.00
        for (at, byte) in bytes.iter().enumerate() {
            if predicate.test(u32::from(*byte)) {
                return at;
            }
        }
        bytes.len()
    }

    fn position_of(&self, code: u32) -> usize {
        match u8::try_from(code) {
            Ok(byte) => find_byte(self.bytes(), byte),
            Err(_) => self.position(&Is { code }),
        }
    }

    fn slice_index(&self, count: usize) -> Result<usize, Needed> {
        let len = self.span.len();
        if count <= len {
            Ok(count)
        } else {
            Err(Needed::new(count - len))
        }
    }

    ghost lawful = { λ t. singles_lawful t.bytes.now t.few };

    ghost within = { λ t. t.within };
}
