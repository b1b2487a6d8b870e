//! What rows, undo records and undo logs are in pages, and laws about them.
#![tactic(auto)]

mod laws;
mod log_laws;
mod rows;

pub use laws::{
    one_record_at_a_place, record_names_pages, record_reads_back, record_stays, record_written,
};
pub use log_laws::{log_begins, log_stays, logs_stay, row_purged, row_steps, rows_stay};
pub use rows::{row_bad, row_patched, row_versioned};
