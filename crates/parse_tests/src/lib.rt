// Tests of parsers, by tables of cases. They stand in a crate of their own, since a crate with tests is proved twice.
#![tactic(auto)]

#[cfg(test)]
mod chained;
#[cfg(test)]
mod codes;
#[cfg(test)]
mod errors;
#[cfg(test)]
mod maps;
#[cfg(test)]
mod nestings;
#[cfg(test)]
mod pairs;
#[cfg(test)]
mod parts;
#[cfg(test)]
mod runs;
#[cfg(test)]
mod sinks;
#[cfg(test)]
mod ways;
