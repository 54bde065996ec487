// Errors: what is kept of them, and in which words.
use parse::{Error, ErrorKind, Far, Fault, FromExternalError, ParseError, error_to_u32};
use std::alloc::Global;
use std::fmt::Debug;
use std::process::Abort;
use std::test::Fail;
use text::{Needed, Span};

const NUMBERS: [(ErrorKind, u32); 23] = [
    (ErrorKind::Tag, 1),
    (ErrorKind::MapRes, 2),
    (ErrorKind::MapOpt, 3),
    (ErrorKind::Alt, 4),
    (ErrorKind::IsNot, 5),
    (ErrorKind::IsA, 6),
    (ErrorKind::SeparatedList, 7),
    (ErrorKind::Many1, 9),
    (ErrorKind::Count, 10),
    (ErrorKind::TakeUntil, 12),
    (ErrorKind::LengthValue, 15),
    (ErrorKind::Eof, 23),
    (ErrorKind::TakeWhile1, 47),
    (ErrorKind::Complete, 48),
    (ErrorKind::ManyMN, 57),
    (ErrorKind::Many0, 62),
    (ErrorKind::Not, 63),
    (ErrorKind::Permutation, 64),
    (ErrorKind::ManyTill, 65),
    (ErrorKind::Verify, 66),
    (ErrorKind::TakeTill1, 67),
    (ErrorKind::TakeWhileMN, 69),
    (ErrorKind::Many1Count, 72),
];

#[test]
fn numbers_of_kinds(rt: HostRuntime) {
    for (kind, number) in NUMBERS {
        assert_eq!(rt; error_to_u32(kind), number);
        assert_eq!(rt; kind == ErrorKind::IsA, number == 6);
    }
}

fn span(start: usize) -> Span {
    Span { start, end: 9 }
}

fn far(start: usize, code: ErrorKind, latest: Option<ErrorKind>) -> Far {
    Far {
        input: span(start),
        code,
        latest,
    }
}

// Where the first and the second error start, and whether the first is kept.
const FURTHER: [(usize, usize, bool); 5] = [
    (0, 0, false),
    (2, 3, false),
    (3, 3, false),
    (3, 2, true),
    (9, 0, true),
];

#[test]
fn far_keeps_the_furthest(rt: HostRuntime) {
    for (first, second, kept) in FURTHER {
        let one = far(first, ErrorKind::Tag, Some(ErrorKind::Alt));
        let two = far(second, ErrorKind::IsA, Some(ErrorKind::Many0));
        assert_eq!(rt; one.or(two), if kept { one } else { two });
    }
}

#[test]
fn far_keeps_the_latest_kind(rt: HostRuntime) {
    let made = Far::from_error_kind(span(3), ErrorKind::IsA);
    assert_eq!(rt; made, far(3, ErrorKind::IsA, None));
    let once = Far::append(span(2), ErrorKind::Many1, made);
    assert_eq!(rt; once, far(3, ErrorKind::IsA, Some(ErrorKind::Many1)));
    let twice = Far::append(span(0), ErrorKind::Alt, once);
    assert_eq!(rt; twice, far(3, ErrorKind::IsA, Some(ErrorKind::Alt)));
}

// The other errors keep what was made, and of two the later.
#[test]
fn plain_errors(rt: HostRuntime) {
    let first = Error::from_error_kind(span(3), ErrorKind::IsA);
    let second = Error::from_error_kind(span(1), ErrorKind::Tag);
    assert_eq!(rt;
        first,
        Error {
            input: span(3),
            code: ErrorKind::IsA,
        }
    );
    assert_eq!(rt; Error::append(span(0), ErrorKind::Alt, first), first);
    assert_eq!(rt; first.or(second), second);
    let first = <(Span, ErrorKind) as ParseError>::from_error_kind(span(3), ErrorKind::IsA);
    let second = <(Span, ErrorKind) as ParseError>::from_error_kind(span(1), ErrorKind::Tag);
    assert_eq!(rt; first, (span(3), ErrorKind::IsA));
    assert_eq!(rt;
        <(Span, ErrorKind) as ParseError>::append(span(0), ErrorKind::Alt, first),
        first
    );
    assert_eq!(rt; first.or(second), second);
    let unit = <() as ParseError>::from_error_kind(span(3), ErrorKind::IsA);
    assert_eq!(rt;
        <() as ParseError>::append(span(0), ErrorKind::Alt, unit),
        ()
    );
    assert_eq!(rt; unit.or(()), ());
}

#[test]
fn errors_of_other_types(rt: HostRuntime) {
    assert_eq!(rt;
        Error::from_external_error(span(3), ErrorKind::MapRes, 7u8),
        Error {
            input: span(3),
            code: ErrorKind::MapRes,
        }
    );
    assert_eq!(rt;
        Far::from_external_error(span(3), ErrorKind::MapRes, "odd"),
        far(3, ErrorKind::MapRes, None)
    );
    assert_eq!(rt;
        <(Span, ErrorKind) as FromExternalError<_>>::from_external_error(
            span(3),
            ErrorKind::MapRes,
            7u8
        ),
        (span(3), ErrorKind::MapRes)
    );
    assert_eq!(rt;
        <() as FromExternalError<_>>::from_external_error(span(3), ErrorKind::MapRes, 7u8),
        ()
    );
}

fn check_words<E: Debug>(
    rt: &impl Abort,
    heap: Global,
    fault: &Fault<E>,
    words: &str,
) -> Result<(), Fail> {
    assert!(rt; format!(in heap; "{fault}")?.as_str() == words);
    Ok(())
}

#[test]
fn faults_in_words(rt: HostRuntime) -> Result<(), Fail> {
    let heap = rt.alloc();
    let error = Error {
        input: span(4),
        code: ErrorKind::IsA,
    };
    assert!(rt; format!(in heap; "{error}")?.as_str() == "error IsA at: 4..9");
    check_words(
        &rt,
        heap,
        &Fault::Error(error),
        "Parsing Error: Error { input: Span { start: 4, end: 9 }, code: IsA }",
    )?;
    check_words(&rt, heap, &Fault::Failure(()), "Parsing Failure: ()")?;
    check_words(
        &rt,
        heap,
        &Fault::<()>::Incomplete(Needed::new(2)),
        "Parsing requires 2 bytes/chars",
    )?;
    check_words(
        &rt,
        heap,
        &Fault::<()>::Incomplete(Needed::Unknown),
        "Parsing requires more data",
    )?;
    check_words(
        &rt,
        heap,
        &Fault::<()>::Full,
        "Parsing needs more places in the sink",
    )
}
