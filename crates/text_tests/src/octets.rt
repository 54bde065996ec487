// RFC 3629 at its boundaries.
use std::test::Fail;
use text::Refusal;
use utf8::{Utf8Text, valid_up_to};

// Bytes, and how many of them the longest well-formed prefix has.
const CASES: [(&[u8], usize); 56] = [
    (b"", 0),
    (&[0x00], 1),
    (&[0x7F], 1),
    // a tail with no lead byte
    (&[0x80], 0),
    (&[0xBF], 0),
    (&[0x41, 0x80], 1),
    // lead bytes that no code point has
    (&[0xC0, 0x80], 0),
    (&[0xC1, 0xBF], 0),
    (&[0xF5, 0x80, 0x80, 0x80], 0),
    (&[0xFE], 0),
    (&[0xFF], 0),
    // two bytes: U+0080 to U+07FF
    (&[0xC2, 0x80], 2),
    (&[0xDF, 0xBF], 2),
    (&[0xC2, 0x7F], 0),
    (&[0xC2, 0xC0], 0),
    (&[0xC2], 0),
    (&[0xC2, 0x80, 0xC2], 2),
    // three bytes: U+0800 to U+0FFF, and overlong forms below
    (&[0xE0, 0xA0, 0x80], 3),
    (&[0xE0, 0xBF, 0xBF], 3),
    (&[0xE0, 0x9F, 0xBF], 0),
    (&[0xE0, 0x80, 0x80], 0),
    (&[0xE0, 0xA0], 0),
    (&[0xE0, 0xA0, 0x7F], 0),
    (&[0xE0, 0xA0, 0xC0], 0),
    // U+1000 to U+CFFF
    (&[0xE1, 0x80, 0x80], 3),
    (&[0xEC, 0xBF, 0xBF], 3),
    (&[0xE1, 0x7F, 0x80], 0),
    (&[0xE2, 0x82, 0xAC], 3),
    (&[0xE2, 0x82], 0),
    (&[0xE2], 0),
    // U+D000 to U+D7FF, and the surrogates above
    (&[0xED, 0x80, 0x80], 3),
    (&[0xED, 0x9F, 0xBF], 3),
    (&[0xED, 0xA0, 0x80], 0),
    (&[0xED, 0xBF, 0xBF], 0),
    // U+E000 to U+FFFF
    (&[0xEE, 0x80, 0x80], 3),
    (&[0xEF, 0xBF, 0xBF], 3),
    (&[0xEF, 0xBB, 0xBF], 3),
    (&[0xEF, 0xC0, 0x80], 0),
    // four bytes: U+10000 to U+3FFFF, and overlong forms below
    (&[0xF0, 0x90, 0x80, 0x80], 4),
    (&[0xF0, 0xBF, 0xBF, 0xBF], 4),
    (&[0xF0, 0x8F, 0xBF, 0xBF], 0),
    (&[0xF0, 0x90, 0x80], 0),
    (&[0xF0, 0x90], 0),
    (&[0xF0, 0x90, 0x80, 0x7F], 0),
    (&[0xF0, 0x90, 0xC0, 0x80], 0),
    // U+40000 to U+FFFFF
    (&[0xF1, 0x80, 0x80, 0x80], 4),
    (&[0xF3, 0xBF, 0xBF, 0xBF], 4),
    (&[0xF1, 0x7F, 0x80, 0x80], 0),
    // U+100000 to U+10FFFF, and what is above
    (&[0xF4, 0x80, 0x80, 0x80], 4),
    (&[0xF4, 0x8F, 0xBF, 0xBF], 4),
    (&[0xF4, 0x90, 0x80, 0x80], 0),
    (&[0xF4, 0xBF, 0xBF, 0xBF], 0),
    // a prefix, and what breaks it
    (
        &[0x68, 0xC3, 0xA9, 0xE2, 0x82, 0xAC, 0xF0, 0x9F, 0xA7, 0xB5],
        10,
    ),
    (&[0x68, 0xC3, 0xA9, 0xE2, 0x82, 0x68], 3),
    (&[0xF0, 0x9F, 0xA7, 0xB5, 0xF0, 0x9F, 0xA7], 4),
    (b"pick 3u,5d ; \xFF", 13),
];

#[test]
fn longest_well_formed_prefix(rt: HostRuntime) {
    for (bytes, valid) in CASES {
        assert_eq!(rt; valid_up_to(bytes), valid);
        let answer = if valid == bytes.len() {
            Ok(())
        } else {
            Err(Refusal::Malformed(valid))
        };
        assert_eq!(rt; Utf8Text::check(bytes), answer);
    }
}

// A broken byte at each place of a longer text, on either side of the 64 bytes that the library takes together.
#[test]
fn every_place_of_a_long_text(rt: HostRuntime) -> Result<(), Fail> {
    for len in 0..200usize {
        let mut bytes = Vec::from_elem(rt.alloc(), b'a', len)?;
        assert_eq!(rt; valid_up_to(bytes.as_slice()), len);
        bytes.push(0xC3)?;
        assert_eq!(rt; valid_up_to(bytes.as_slice()), len);
        bytes.push(0xA9)?;
        assert_eq!(rt; valid_up_to(bytes.as_slice()), len.saturating_add(2));
        bytes.extend_from_slice(&[b'b'; 100])?;
        assert_eq!(rt; valid_up_to(bytes.as_slice()), bytes.len());
        bytes.push(0x80)?;
        assert_eq!(rt; valid_up_to(bytes.as_slice()), len.saturating_add(102));
    }
    Ok(())
}
