//! Which pages of a store are used: the map and the count of free pages in the system page, page 0,
//! and pages reserved before they are taken.
#![tactic(auto)]

mod bits;
mod count;
mod error;
mod laws;
mod layout;
mod space;
mod system;

pub use count::is_used;
pub use error::SpaceError;
pub use laws::map_stays;
pub use layout::{
    ACTIVE_LOGS, COMMITS, COMMITTED_LOGS, NEXT_TRX_ID, PURGED_COMMITS, ROW_PAGES, SYSTEM,
};
pub use space::Space;
pub use system::make_system;

#[cfg(test)]
mod tests;
