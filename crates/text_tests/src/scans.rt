// What a text answers about its items.
use std::num::NonZeroUsize;
use std::test::Fail;
use text::{ByteTag, ByteText, CompareResult, Input, Is, Needed, Needle, Refusal, Span};
use utf8::{Utf8Tag, Utf8Text};

// A text, a tag, how they compare, and where the tag is found, in bytes.
const COMPARED: [(&str, &str, CompareResult, Option<usize>); 14] = [
    ("", "", CompareResult::Ok, Some(0)),
    ("pick", "", CompareResult::Ok, Some(0)),
    ("", "pick", CompareResult::Incomplete, None),
    ("pi", "pick", CompareResult::Incomplete, None),
    ("pick", "pick", CompareResult::Ok, Some(0)),
    ("picks", "pick", CompareResult::Ok, Some(0)),
    ("pock", "pick", CompareResult::Error, None),
    ("hooks 8\npick", "pick", CompareResult::Error, Some(8)),
    ("pipick", "pick", CompareResult::Error, Some(2)),
    ("é€", "€", CompareResult::Error, Some(2)),
    ("é", "é€", CompareResult::Incomplete, None),
    ("ééé€", "é€", CompareResult::Error, Some(4)),
    (
        "0123456789012345678901234567890123456789x",
        "x",
        CompareResult::Error,
        Some(40),
    ),
    (
        "0123456789012345678901234567890123456789x",
        "9x",
        CompareResult::Error,
        Some(39),
    ),
];

#[test]
fn compare_and_find(rt: HostRuntime) {
    for (text, tag, compared, found) in COMPARED {
        let bytes = ByteText::new(text.as_bytes());
        let byte_tag = ByteTag::new(tag.as_bytes());
        assert_eq!(rt; bytes.compare(&byte_tag), compared);
        assert_eq!(rt;
            text::starts_with(&bytes, &byte_tag),
            compared == CompareResult::Ok
        );
        assert_eq!(rt; text::find(&bytes, &byte_tag), found);
        let chars = Utf8Text::new(text.as_bytes());
        let char_tag = Utf8Tag::new(tag.as_bytes());
        assert_eq!(rt; chars.compare(&char_tag), compared);
        assert_eq!(rt;
            text::starts_with(&chars, &char_tag),
            compared == CompareResult::Ok
        );
        assert_eq!(rt; text::find(&chars, &char_tag), found);
    }
}

// A text, a code, and the bytes before the first item that has it: in the byte text, and in the UTF-8 text.
const PLACES: [(&str, u32, usize, usize); 7] = [
    ("", 44, 0, 0),
    ("3u,5d", 44, 2, 2),
    ("3u", 44, 2, 2),
    ("é,", 44, 2, 2),
    ("aé€", 0x20AC, 6, 3),
    ("aé€", 0xE2, 3, 6),
    ("ab", 0x1_0000, 2, 2),
];

#[test]
fn position(rt: HostRuntime) {
    for (text, code, byte, char) in PLACES {
        let bytes = ByteText::new(text.as_bytes());
        assert_eq!(rt; bytes.position(&Is { code }), byte);
        assert_eq!(rt; bytes.position_of(code), byte);
        let chars = Utf8Text::new(text.as_bytes());
        assert_eq!(rt; chars.position(&Is { code }), char);
        assert_eq!(rt; chars.position_of(code), char);
    }
}

fn size(n: usize) -> Needed {
    NonZeroUsize::new(n).map_or(Needed::Unknown, Needed::Size)
}

// Bytes lack the difference; code points of unknown widths lack what nobody knows.
#[test]
fn slice_index(rt: HostRuntime) {
    let bytes = ByteText::new("é€".as_bytes());
    assert_eq!(rt; bytes.slice_index(0), Ok(0));
    assert_eq!(rt; bytes.slice_index(5), Ok(5));
    assert_eq!(rt; bytes.slice_index(6), Err(size(1)));
    let chars = Utf8Text::new("é€".as_bytes());
    assert_eq!(rt; chars.slice_index(0), Ok(0));
    assert_eq!(rt; chars.slice_index(1), Ok(2));
    assert_eq!(rt; chars.slice_index(2), Ok(5));
    assert_eq!(rt; chars.slice_index(3), Err(Needed::Unknown));
}

#[test]
fn items_and_boundaries(rt: HostRuntime) {
    let chars = Utf8Text::new(&[0xE2, 0x82, 0xAC]);
    assert_eq!(rt; chars.item(), Some((0x20AC, 3)));
    assert_eq!(rt; text::count_items(&chars), 1);
    assert!(rt;
        chars.is_boundary(0)
            && !chars.is_boundary(1)
            && !chars.is_boundary(2)
            && chars.is_boundary(3)
    );
    assert!(rt; !chars.is_boundary(4));
    let chars = Utf8Text::new("🧵".as_bytes());
    assert_eq!(rt; chars.item(), Some((0x1F9F5, 4)));
    let bytes = ByteText::new(&[0xE2, 0x82, 0xAC]);
    assert_eq!(rt; bytes.item(), Some((0xE2, 1)));
    assert!(rt; bytes.is_boundary(1) && bytes.is_boundary(3) && !bytes.is_boundary(4));
}

#[test]
fn lines_are_the_pieces_between_line_ends(rt: HostRuntime) {
    for (text, lines) in [
        ("", 1usize),
        ("\n", 2),
        ("a\n", 2),
        ("a\nb", 2),
        ("\n\n\n", 4),
        ("é\r\n€", 2),
    ] {
        assert_eq!(rt; text::count_lines(&ByteText::new(text.as_bytes())), lines);
        assert_eq!(rt; text::count_lines(&Utf8Text::new(text.as_bytes())), lines);
    }
}

#[test]
fn needed_is_never_a_size_of_0(rt: HostRuntime) {
    assert_eq!(rt; Needed::new(0), Needed::Unknown);
    assert_eq!(rt; Needed::new(2), size(2));
    assert!(rt; Needed::new(1).is_known() && !Needed::new(0).is_known());
}

// Parts of a text: the items past its first, and those before; and the whole again.
#[test]
fn parts(rt: HostRuntime) {
    let text = Utf8Text::new("é€5".as_bytes());
    assert!(rt; text.is_boundary(2) && text.is_boundary(6));
    let rest = text.at(Span { start: 2, end: 6 });
    assert_eq!(rt; rest.span(), Span { start: 2, end: 6 });
    assert_eq!(rt; rest.item(), Some((0x20AC, 3)));
    assert_eq!(rt; text::count_items(&rest), 2);
    assert_eq!(rt; text::count_items(&rest.whole()), 3);
}

// Bytes as a text, or why they are none.
#[test]
fn tried(rt: HostRuntime) -> Result<(), Fail> {
    let bytes: &[u8] = "é".as_bytes();
    assert_eq!(rt;
        Utf8Text::try_from(bytes).map_err(|_| "refused")?.text_len(),
        2
    );
    assert_eq!(rt;
        ByteText::try_from(bytes).map_err(|_| "refused")?.span(),
        Span { start: 0, end: 2 }
    );
    let cut: &[u8] = &[0xC3];
    assert_eq!(rt; Utf8Text::try_from(cut).err(), Some(Refusal::Malformed(0)));
    assert_eq!(rt; ByteTag::try_from(cut).map_err(|_| "refused")?.len(), 1);
    Ok(())
}
