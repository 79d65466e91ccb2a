//! Stores, and the readers and writers that remember a failure.
mod buffered;
mod devices;
mod flagged;
mod flat;
mod forks;
mod paged;
mod regions;
mod stores;
