// Building parsers of parsers, by nom's names. What is built holds its parts by value, and each part as it was given.
ghost use Rattle.std.specs.Prelude.{◌≡◌};

use crate::chained::{AndThen, FlatMap};
use crate::dropping::{Preceded, Terminated};
use crate::maps::{Map, MapOpt, MapRes, MapTry};
use crate::pairs::And;
use crate::ways::Or;

// nom's methods of a parser. They are here for a value of any type; what is built is a parser where its parts are.
pub trait ParserExt: Sized {
    fn and<G>(self, g: G) -> And<Self, G>
        ensures f { result.f ≡ self }
        ensures g { result.g ≡ g }
    {
        And { f: self, g }
    }

    fn or<G>(self, g: G) -> Or<Self, G>
        ensures f { result.f ≡ self }
        ensures g { result.g ≡ g }
    {
        Or { f: self, g }
    }

    fn map<G>(self, g: G) -> Map<Self, G>
        ensures f { result.f ≡ self }
        ensures g { result.g ≡ g }
    {
        Map { f: self, g }
    }

    fn map_res<G>(self, g: G) -> MapRes<Self, G>
        ensures f { result.f ≡ self }
        ensures g { result.g ≡ g }
    {
        MapTry { f: self, g }
    }

    fn map_opt<G>(self, g: G) -> MapOpt<Self, G>
        ensures f { result.f ≡ self }
        ensures g { result.g ≡ g }
    {
        MapTry { f: self, g }
    }

    fn flat_map<G>(self, g: G) -> FlatMap<Self, G>
        ensures f { result.f ≡ self }
        ensures g { result.g ≡ g }
    {
        FlatMap { f: self, g }
    }

    fn and_then<G>(self, g: G) -> AndThen<Self, G>
        ensures f { result.f ≡ self }
        ensures g { result.g ≡ g }
    {
        AndThen { f: self, g }
    }
}

impl<F> ParserExt for F {}

// Both outputs as a pair.
pub fn pair<F, G>(first: F, second: G) -> And<F, G>
    ensures f { result.f ≡ first }
    ensures g { result.g ≡ second }
{
    And {
        f: first,
        g: second,
    }
}

// The second output.
pub fn preceded<F, G>(first: F, second: G) -> Preceded<F, G>
    ensures f { result.f ≡ first }
    ensures g { result.g ≡ second }
{
    Preceded {
        f: first,
        g: second,
    }
}

// The first output.
pub fn terminated<F, G>(first: F, second: G) -> Terminated<F, G>
    ensures f { result.f ≡ first }
    ensures g { result.g ≡ second }
{
    Terminated {
        f: first,
        g: second,
    }
}

// The output of the second of three.
pub fn delimited<F, G, H>(first: F, second: G, third: H) -> Preceded<F, Terminated<G, H>>
    ensures first { result.f ≡ first }
    ensures second { result.g.f ≡ second }
    ensures third { result.g.g ≡ third }
{
    preceded(first, terminated(second, third))
}

// The outputs of the first and the last of three, as a pair.
pub fn separated_pair<F, G, H>(first: F, separator: G, second: H) -> And<F, Preceded<G, H>>
    ensures first { result.f ≡ first }
    ensures separator { result.g.f ≡ separator }
    ensures second { result.g.g ≡ second }
{
    pair(first, preceded(separator, second))
}
