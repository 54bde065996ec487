// Texts and tags one byte below, at and above their limits.
use std::test::Fail;
use text::{ByteTag, ByteText, Input, Needle, Refusal};
use utf8::{Utf8Tag, Utf8Text};

#[test]
fn texts(rt: HostRuntime) -> Result<(), Fail> {
    for len in [1_048_575usize, 1_048_576, 1_048_577] {
        let bytes = Vec::from_elem(rt.alloc(), b'a', len)?;
        let bytes = bytes.as_slice();
        let (answer, kept) = if len <= 1_048_576 {
            (Ok(()), len)
        } else {
            (Err(Refusal::TextTooLong(len)), 0)
        };
        assert_eq!(rt; ByteText::check(bytes), answer);
        assert_eq!(rt; Utf8Text::check(bytes), answer);
        assert_eq!(rt; ByteText::new(bytes).text_len(), kept);
        assert_eq!(rt; Utf8Text::new(bytes).text_len(), kept);
    }
    Ok(())
}

// A text that is too long is refused for that, whatever its bytes.
#[test]
fn length_comes_before_form(rt: HostRuntime) -> Result<(), Fail> {
    let bytes = Vec::from_elem(rt.alloc(), 0xFF, 1_048_577)?;
    assert_eq!(rt;
        Utf8Text::check(bytes.as_slice()),
        Err(Refusal::TextTooLong(1_048_577))
    );
    let bytes = Vec::from_elem(rt.alloc(), 0xFF, 33)?;
    assert_eq!(rt;
        Utf8Tag::check(bytes.as_slice()),
        Err(Refusal::TagTooLong(33))
    );
    assert_eq!(rt; Utf8Tag::check(&[0xFF]), Err(Refusal::Malformed(0)));
    Ok(())
}

#[test]
fn tags(rt: HostRuntime) -> Result<(), Fail> {
    for len in [0usize, 31, 32, 33] {
        let bytes = Vec::from_elem(rt.alloc(), b'a', len)?;
        let bytes = bytes.as_slice();
        let (answer, kept) = if len <= 32 {
            (Ok(()), len)
        } else {
            (Err(Refusal::TagTooLong(len)), 0)
        };
        assert_eq!(rt; ByteTag::check(bytes), answer);
        assert_eq!(rt; Utf8Tag::check(bytes), answer);
        assert_eq!(rt; ByteTag::new(bytes).len(), kept);
        assert_eq!(rt; Utf8Tag::new(bytes).len(), kept);
    }
    Ok(())
}

#[test]
fn refusals_by_number_and_in_words(rt: HostRuntime) -> Result<(), Fail> {
    let heap = rt.alloc();
    let told = [
        (
            Refusal::TextTooLong(1_048_577),
            1u32,
            "the text has 1048577 bytes, and a text may have at most 1048576",
        ),
        (
            Refusal::Malformed(3),
            2,
            "not well-formed UTF-8; the longest well-formed prefix has 3 bytes",
        ),
        (
            Refusal::TagTooLong(33),
            3,
            "the tag has 33 bytes, and a tag may have at most 32",
        ),
    ];
    for (refusal, number, words) in told {
        assert_eq!(rt; refusal.number(), number);
        assert!(rt; format!(in heap; "{refusal}")?.as_str() == words);
    }
    Ok(())
}
