//! A LOB as its pieces: begun, grown piece by piece, read, and given back.
#![tactic(auto)]

mod begin;
mod data;
mod first_page;
mod freeing;
mod frees;
mod growth;
mod last;
mod layout;
mod reads;

pub use begin::begin_lob;
pub use freeing::free_last_piece;
pub use frees::{free_first, free_index_page};
pub use growth::add_piece;
pub use reads::read_piece;

#[cfg(test)]
mod freeing_tests;
#[cfg(test)]
mod tests;
