//! Runs by threads, and campaigns.
mod campaign;
mod images;
mod locked;
