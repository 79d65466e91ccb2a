//! Runs by threads on one locked machine.
mod gates;
mod workers;
