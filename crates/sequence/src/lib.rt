// Sequencing: one part after another, a function on an output, or another way at the same place. nom's combinators of
// `internal.rs` and `sequence`.
//
// Each combinator is a generic struct that holds its parts by value, so that parsers nest to any finite depth; each is
// proved once, for all parts, from their meanings alone. Its own meaning stands at its `impl`, as a line of the algebra
// of runs (crate `parse`, specs/Algebra.antt).
//
// Faults pass up by `?` wherever no mark is open. A combinator that has to undo its first part takes a mark beside the
// sink, and ends it by `keep` or by `cut_back`.
#![tactic(auto)]

pub mod build;
pub mod chained;
pub mod dropping;
pub mod maps;
pub mod pairs;
pub mod settle;
pub mod ways;

pub use build::{ParserExt, delimited, pair, preceded, separated_pair, terminated};
pub use ways::nestings_agree;
