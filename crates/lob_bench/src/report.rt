//! What a run gives.
use std::time::Duration;

/// How long the rounds took, what was counted in them, and a checksum of what they gave.
#[derive(Drop)]
pub struct Report {
    pub spent: Duration,
    pub count: u64,
    pub checksum: u64,
}
