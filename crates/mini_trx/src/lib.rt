//! Mini-transactions over numbered pages, and the group of writes that each of them makes.
#![tactic(auto)]

mod cache;
mod frame;
mod group;
mod lent;
mod memo;
mod mtr;
mod page_write;
mod resident;
mod writes;

pub use cache::Cache;
pub use group::Group;
pub use memo::{Holdings, Memo};
pub use mtr::Mtr;
pub use page_write::PageWrite;
pub use resident::Resident;
pub use writes::Writes;

#[cfg(test)]
mod tests;
