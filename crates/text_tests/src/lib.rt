// Tests of texts and tags, by tables of cases. They stand in a crate of their own, since a crate with tests is proved twice.
#![tactic(auto)]

#[cfg(test)]
mod limits;
#[cfg(test)]
mod octets;
#[cfg(test)]
mod scans;
