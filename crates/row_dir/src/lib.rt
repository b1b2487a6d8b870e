//! The directory of rows: where each document's row stands in the row pages, and where a new one
//! goes.
#![tactic(auto)]

mod dir;
mod error;
mod layout;
mod loading;
mod opening;
mod putting;
mod removing;
mod replacing;
mod rooms;
mod row_pages;
mod slots;
mod stores;

pub use dir::RowDir;
pub use error::DirError;
pub use stores::{known_rows_stand, rows_in_store};

#[cfg(test)]
mod tests;
