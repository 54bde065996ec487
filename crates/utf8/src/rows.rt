// The table of lead bytes.
ghost use Rattle.std.specs.Prelude.{◌≡◌};
ghost use Rattle.utf8.specs.Octets.{inside};

// A range of bytes, with its ends. `RangeInclusive` does not serve: it is not `Copy`, and a static cannot hold one.
#[derive(Clone, Copy)]
pub struct Bounds {
    pub low: u8,
    pub high: u8,
}

impl Bounds {
    pub fn contains(&self, b: u8) -> bool
        ensures { result ≡ inside self.now.low self.now.high b }
    {
        (self.low..=self.high).contains(&b)
    }
}

// The bytes that follow a lead byte, but for the first of these.
pub(crate) const TAIL: Bounds = Bounds {
    low: 0x80,
    high: 0xBF,
};

// The lead bytes of one range.
#[derive(Clone, Copy)]
pub struct Row {
    pub lead: Bounds,
    // how many bytes follow
    pub tails: u8,
    // the range of the first of these; the others are from 0x80 to 0xBF
    pub second: Bounds,
    // what marks the lead byte: its other bits are the code point's highest
    pub base: u8,
}

// A row in one line: the lead bytes, how many bytes follow, the range of the first of these, and what marks the lead
// byte. It is a macro since a static's value may call no function.
macro_rules! row {
    ($low:literal..=$high:literal, $tails:literal, $from:literal..=$to:literal, $base:literal) => {
        Row {
            lead: Bounds { low: $low, high: $high },
            tails: $tails,
            second: Bounds { low: $from, high: $to },
            base: $base,
        }
    };
}

// The lead bytes of RFC 3629, section 4, in rising order.
pub(crate) static ROWS: [Row; 9] = [
    row!(0x00..=0x7F, 0, 0x80..=0xBF, 0x00),
    row!(0xC2..=0xDF, 1, 0x80..=0xBF, 0xC0),
    row!(0xE0..=0xE0, 2, 0xA0..=0xBF, 0xE0),
    row!(0xE1..=0xEC, 2, 0x80..=0xBF, 0xE0),
    row!(0xED..=0xED, 2, 0x80..=0x9F, 0xE0),
    row!(0xEE..=0xEF, 2, 0x80..=0xBF, 0xE0),
    row!(0xF0..=0xF0, 3, 0x90..=0xBF, 0xF0),
    row!(0xF1..=0xF3, 3, 0x80..=0xBF, 0xF0),
    row!(0xF4..=0xF4, 3, 0x80..=0x8F, 0xF0),
];
