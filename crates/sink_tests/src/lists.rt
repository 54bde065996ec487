// What pushing, reading, marking and cutting back come to.
use sink::{Counter, Mark, Refusal, Sheet, Sink};

#[test]
fn no_places(rt: HostRuntime) {
    let mut none: [u8; 0] = [];
    let mut sheet = Sheet::new(&mut none);
    assert_eq!(rt; sheet.push(1), Err(Refusal::Full));
    assert_eq!(rt; sheet.read(0), Err(Refusal::PastList(0, 0)));
    assert_eq!(rt; sheet.cut_back(Mark::at(0)), Ok(()));
    assert_eq!(rt; sheet.items().len(), 0);
    let mut counter = Counter::new(0);
    assert_eq!(rt; counter.push(()), Err(Refusal::Full));
    assert_eq!(rt; counter.read(0), Err(Refusal::PastList(0, 0)));
    assert_eq!(rt;
        counter.cut_back(Mark::at(1)),
        Err(Refusal::MarkAboveList(1, 0))
    );
}

// Three of four places are taken. A place, and what is read there.
const READS: [(usize, Result<u8, Refusal>); 5] = [
    (0, Ok(10)),
    (1, Ok(20)),
    (2, Ok(30)),
    (3, Err(Refusal::PastList(3, 3))),
    (4, Err(Refusal::PastList(4, 3))),
];

#[test]
fn reads(rt: HostRuntime) {
    for (at, item) in READS {
        let mut places = [0u8; 4];
        let mut sheet = Sheet::new(&mut places);
        let mut counter = Counter::new(4);
        for pushed in [10, 20, 30] {
            assert_eq!(rt; sheet.push(pushed), Ok(()));
            assert_eq!(rt; counter.push(()), Ok(()));
        }
        assert_eq!(rt; sheet.read(at), item);
        assert_eq!(rt; counter.read(at), item.map(|_| ()));
    }
}

// A full list of three items is cut back. A mark, the answer, and the list that is left.
const CUTS: [(usize, Result<(), Refusal>, &[u8]); 5] = [
    (0, Ok(()), &[]),
    (1, Ok(()), &[10]),
    (3, Ok(()), &[10, 20, 30]),
    (4, Err(Refusal::MarkAboveList(4, 3)), &[10, 20, 30]),
    (
        65_537,
        Err(Refusal::MarkAboveList(65_537, 3)),
        &[10, 20, 30],
    ),
];

#[test]
fn cuts(rt: HostRuntime) {
    for (mark, answer, left) in CUTS {
        let mut places = [0u8; 3];
        let mut sheet = Sheet::new(&mut places);
        let mut counter = Counter::new(3);
        for pushed in [10, 20, 30] {
            assert_eq!(rt; sheet.push(pushed), Ok(()));
            assert_eq!(rt; counter.push(()), Ok(()));
        }
        assert_eq!(rt; sheet.cut_back(Mark::at(mark)), answer);
        assert!(rt; sheet.items() == left);
        assert_eq!(rt; counter.cut_back(Mark::at(mark)), answer);
        assert_eq!(rt; counter.len(), left.len());
        // The freed places take items again, and no more than those.
        for at in left.len()..3 {
            assert_eq!(rt; sheet.push(40), Ok(()));
            assert_eq!(rt; sheet.read(at), Ok(40));
            assert_eq!(rt; counter.push(()), Ok(()));
        }
        assert_eq!(rt; sheet.push(40), Err(Refusal::Full));
        assert_eq!(rt; counter.push(()), Err(Refusal::Full));
    }
}

#[test]
fn keeping_leaves_the_list(rt: HostRuntime) {
    let mut places = [0u8; 3];
    let mut sheet = Sheet::new(&mut places);
    assert_eq!(rt; sheet.push(10), Ok(()));
    let mark = sheet.mark();
    let pushed = sheet.push(20);
    sheet.keep(mark);
    assert_eq!(rt; pushed, Ok(()));
    assert!(rt; sheet.items() == [10, 20].as_slice());
    let mark = sheet.mark();
    let pushed = sheet.push(30);
    let cut = sheet.cut_back(mark);
    assert_eq!(rt; pushed, Ok(()));
    assert_eq!(rt; cut, Ok(()));
    let items: &[u8] = sheet.into_items();
    assert!(rt; items == [10, 20].as_slice());
}
