// Sinks one place below, at and above their limits.
use sink::{Counter, Refusal, Sheet, Sink};
use std::test::Fail;

// A number of places, whether it is accepted, and the capacity that comes of it.
const CAPACITIES: [(usize, bool, usize); 6] = [
    (0, true, 0),
    (1, true, 1),
    (65_535, true, 65_535),
    (65_536, true, 65_536),
    (65_537, false, 65_536),
    (131_072, false, 65_536),
];

#[test]
fn capacities(rt: HostRuntime) -> Result<(), Fail> {
    for (places, accepted, capacity) in CAPACITIES {
        let answer = if accepted {
            Ok(())
        } else {
            Err(Refusal::TooManyPlaces(places))
        };
        assert_eq!(rt; Counter::check(places), answer);
        assert_eq!(rt; Counter::new(places).capacity(), capacity);
        let mut bytes = Vec::from_elem(rt.alloc(), 0u8, places)?;
        assert_eq!(rt; Sheet::check(bytes.as_slice()), answer);
        let sheet = Sheet::new(bytes.as_mut_slice());
        assert_eq!(rt; sheet.capacity(), capacity);
        assert_eq!(rt; sheet.len(), 0);
    }
    Ok(())
}

// Each place up to the limit takes an item, and the one behind it takes none.
#[test]
fn full_at_the_limit(rt: HostRuntime) -> Result<(), Fail> {
    let mut bytes = Vec::from_elem(rt.alloc(), 0u8, 65_537)?;
    let mut sheet = Sheet::new(bytes.as_mut_slice());
    let mut counter = Counter::new(65_537);
    for _ in 0..65_536u32 {
        assert_eq!(rt; sheet.push(7), Ok(()));
        assert_eq!(rt; counter.push(()), Ok(()));
    }
    assert_eq!(rt; sheet.push(7), Err(Refusal::Full));
    assert_eq!(rt; counter.push(()), Err(Refusal::Full));
    assert_eq!(rt; sheet.read(65_535), Ok(7));
    assert_eq!(rt; sheet.read(65_536), Err(Refusal::PastList(65_536, 65_536)));
    assert_eq!(rt; counter.len(), 65_536);
    Ok(())
}

#[test]
fn refusals_by_number_and_in_words(rt: HostRuntime) -> Result<(), Fail> {
    let heap = rt.alloc();
    let told = [
        (
            Refusal::TooManyPlaces(65_537),
            4u32,
            "the sink has 65537 places, and a sink may have at most 65536",
        ),
        (Refusal::Full, 5, "the sink is full"),
        (
            Refusal::MarkAboveList(4, 3),
            6,
            "the mark is at 4, and the list has 3 items",
        ),
        (
            Refusal::PastList(3, 3),
            7,
            "there is no item 3, since the list has 3 items",
        ),
    ];
    for (refusal, number, words) in told {
        assert_eq!(rt; refusal.number(), number);
        assert!(rt; format!(in heap; "{refusal}")?.as_str() == words);
    }
    Ok(())
}
