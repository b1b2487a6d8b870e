//! The events of a read, over pages.
#![tactic(auto)]

mod copies;
mod events;
mod laws;
mod pieces;
mod places;
mod rows;
mod seek;
mod under_way;
mod walk;

pub use events::step;
pub use laws::{record_stands, seek_leads_to_a_record, walk_leads_to_a_record};
pub use pieces::copy_piece;
pub use seek::judge_rows;
pub use under_way::{lent_read_is_under_way, lent_stays, read_is_started, read_stays_under_way};
pub use walk::put_records;

#[cfg(test)]
mod event_tests;
#[cfg(test)]
mod tests;
#[cfg(test)]
mod version_tests;
