//! A whole store in pages, and what it is where one part changes.
#![tactic(auto)]

mod lobs;
mod parts;
mod rows;
mod runs;
mod standing;
mod store;
mod uses;

pub use lobs::{
    index_page_is_freed, lob_grows, lob_shrinks, piece_is_added, piece_is_freed,
    version_is_dropped, version_is_popped,
};
pub use parts::{
    counters_move, lob_let_in, lob_taken_out, log_let_in, log_listed, log_taken_out, rows_move,
};
pub use rows::row_log;
pub use runs::runs_are_laid;
pub use standing::{
    rows_stand_by_lob, rows_stand_by_log, rows_stand_by_next_trx, rows_stand_by_oldest,
};
pub use store::{
    lob_begins, lob_changes, lob_goes, log_begins, log_changes, log_commits, log_is_purged,
    logs_stand, map_marks_owned, new_store_stands, next_trx_changes, purged_shows, rows_change,
};
pub use uses::{record_appended, version_is_pushed, version_set};
