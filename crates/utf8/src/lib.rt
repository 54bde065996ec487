// UTF-8 texts and tags: bytes that are well-formed by RFC 3629, whose items are code points.
//
// That they are well-formed is an invariant of the types `Utf8Text` and `Utf8Tag`, so no value of them is anything else,
// and stepping over a code point tests nothing.
#![tactic(auto)]

pub mod check;
pub mod rows;
pub mod texts;

pub use check::valid_up_to;
pub use texts::{Utf8Tag, Utf8Text, compare_chars};
