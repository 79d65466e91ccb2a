//! Campaigns by threads.
mod gates;
mod workers;
