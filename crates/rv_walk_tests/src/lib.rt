//! The tests of walks and probes, in a crate of their own, so that these are not proved a second time with their tests.
#![tactic(auto)]

#[cfg(test)]
mod drawn;
#[cfg(test)]
mod probes;
#[cfg(test)]
mod samples;
