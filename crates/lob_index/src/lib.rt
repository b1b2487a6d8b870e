//! A LOB's index: its heads by their position, nodes taken from its free ones or from pages that
//! become index pages, and given back, and the pages of its versions' data.
#![tactic(auto)]

mod data;
mod heads;
mod index_pages;
mod layout;
mod nodes;
mod taking;

pub use data::{data_page, give_data, put_number, write_data};
pub use heads::{head, head_after, next_head};
pub use nodes::{give_node, take_free};
pub use taking::take_node;

#[cfg(test)]
mod tests;
