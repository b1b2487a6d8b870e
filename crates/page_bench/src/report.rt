//! What a run gives.
use anyhow::Result;
use std::time::{CpuClock, Duration};

/// How long the rounds took, or how much processor time, and what was counted in them.
#[derive(Drop)]
pub struct Report {
    pub spent: Duration,
    pub count: u64,
}

/// The processor time that this thread has used since it had used that much.
pub fn spent_since(rt: &HostRuntime, start: Duration) -> Result<Duration> {
    let now = rt.thread_cpu_time()?;
    Ok(now.saturating_sub(start))
}
