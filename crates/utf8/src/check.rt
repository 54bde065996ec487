// How far bytes are well-formed UTF-8.
ghost use Rattle.std.specs.Prelude.{◌≡◌, ◌+◌, ◌-◌, ◌≤◌, length, take as front};
ghost use Rattle.std.specs.Option.{option_map};
ghost use Rattle.std.specs.Str.{IsAscii};
ghost use Rattle.text.specs.Cells.{total};
ghost use Rattle.utf8.specs.Octets.{rows as table, row_of, follow, char as char_of, scan, WellFormed};

use super::rows::{ROWS, Row, TAIL};
use simdutf8::Checker;
use std::simd::prelude::*;

// The row of a lead byte.
#[tactic(auto, unfolding(crate::specs::Octets::rows))]
pub fn row_for(lead: u8) -> Option<&'static Row>
    ensures { option_map (λ x. x.now) result ≡ row_of table lead }
{
    ROWS.iter().find(|row| row.lead.contains(lead))
}

// Whether the bytes behind a lead byte begin with those that its row asks for.
fn follows(bytes: &[u8], row: &Row) -> bool
    requires { row.now.tails ≤ 3 }
    ensures { result ≡ follow row.now.tails row.now.second.low row.now.second.high bytes.now }
{
    let tails = usize::from(row.tails);
    if bytes.len() < tails {
        return false;
    }
    if tails == 0 {
        return true;
    }
    if !row.second.contains(bytes[0]) {
        return false;
    }
    if tails == 1 {
        return true;
    }
    if !TAIL.contains(bytes[1]) {
        return false;
    }
    tails == 2 || TAIL.contains(bytes[2])
}

// The width of the code point that the bytes begin with, where they begin with one.
fn first_width(bytes: &[u8]) -> Option<usize>
    ensures { result ≡ option_map (λ c. c.1) (char_of bytes.now) }
{
    let (lead, tails) = bytes.split_first()?;
    if lead.is_ascii() {
        return Some(1);
    }
    let row = row_for(*lead)?;
    if follows(tails, row) {
        Some(usize::from(row.tails) + 1)
    } else {
        None
    }
}

// How many bytes are looked at together, and how many past the last place at which all was well-formed: where a fault lies,
// no more than these are read in vain at once.
const ASCII_BLOCK: usize = 64;

const BLOCK: usize = 64;

const MOST_PAST: usize = 1024;

// How many bytes at the front are ASCII, by whole blocks.
fn ascii_blocks(bytes: &[u8]) -> usize
    ensures { (result ≤ length bytes.now) × IsAscii (front result bytes.now) }
{
    let mut at = 0;
    while bytes.len() - at >= ASCII_BLOCK && bytes[at..at + ASCII_BLOCK].is_ascii() {
        at += ASCII_BLOCK;
    }
    at
}

// How many bytes at the front are ASCII.
fn ascii_front(bytes: &[u8]) -> usize
    ensures { (result ≤ length bytes.now) × WellFormed (front result bytes.now) }
{
    let mut at = ascii_blocks(bytes);
    while at < bytes.len() && bytes[at].is_ascii() {
        at += 1;
    }
    at
}

// How many bytes at the front are well-formed, by whole blocks. The library tells at the end of each whether all that it
// has read is.
fn well_formed_blocks(bytes: &[u8]) -> usize
    ensures { (result ≤ length bytes.now) × WellFormed (front result bytes.now) }
{
    let mut checker = Checker::new();
    let mut at = 0;
    let mut good = 0;
    while bytes.len() - at >= BLOCK && at - good < MOST_PAST {
        checker = checker.step(u8x64::from_slice(&bytes[at..]));
        at += BLOCK;
        if checker.finish() {
            good = at;
        }
    }
    good
}

// The bytes behind the blocks, where no more than `due` are left; and how many may be left when blocks are due again. What
// the blocks stop at is a fault, or code points that lie across the end of each.
fn behind_blocks(bytes: &[u8], due: usize) -> (&[u8], usize)
    ensures { (length result.0.now ≤ length bytes.now)
        × (length bytes.now - length result.0.now + total (scan result.0.now) ≡ total (scan bytes.now)) }
{
    if bytes.len() > due {
        return (bytes, due);
    }
    let left = bytes.split_at(well_formed_blocks(bytes)).1;
    (left, left.len().saturating_sub(BLOCK))
}

// How many bytes the longest well-formed prefix has. The code points that the blocks leave are told by the table, one by one.
pub fn valid_up_to(bytes: &[u8]) -> usize
    ensures { result ≡ total (scan bytes.now) }
{
    let mut rest = bytes.split_at(ascii_front(bytes)).1;
    let mut due = rest.len();
    loop {
        let (left, again) = behind_blocks(rest, due);
        let Some(width) = first_width(left) else {
            return bytes.len() - left.len();
        };
        rest = left.split_at(width).1;
        due = again;
    }
}
