//! What pages mean, as plain data: what a store shows, and how each event moves it.
#![tactic(auto)]

mod changes;
mod commit;
mod consistent;
mod heads;
mod held;
mod ids;
mod owned;
mod patches;
mod purge;
mod rows;
mod under;
mod undo;
mod versions;
mod well;

pub use changes::{changes_begin, history_by_lobs, newest_content, piece_keeps, push_keeps};
pub use commit::commit_shows;
pub use consistent::{
    changes_stay_consistent, lob_events_stay_consistent, pages_stay_consistent,
    records_stay_consistent,
};
pub use heads::heads_keep_their_places;
pub use held::{lobs_are_owned_ones, lobs_stay_owned, rows_stay_rising};
pub use ids::{ids_stay, log_begins, runs_stay_inside, undo_keeps_under};
pub use owned::{changes_take, counts_keep_sound, lob_events_move, records_give};
pub use patches::{copy_stays, mixed_goes_back, page_goes_back, record_taken_off};
pub use purge::{log_goes, purge_frees, record_passes, under_stays};
pub use rows::{row_both, row_over, row_owned, row_purged, row_put_back, row_under, row_undone};
pub use under::{changes_keep_under, pass_loses_the_oldest, purge_keeps_under, unowned_is_unnamed};
pub use undo::{
    half_undone_keeps, record_undone, undo_keeps_others, undo_removes_row, undo_restores,
};
pub use versions::{newest_row_shows, numbers_stay, versions_stay};
pub use well::{
    change_stays_well, events_stay_well, half_done_keeps, newest_is_newest, pages_change_nothing,
    purge_shows_the_same, undo_gives_back,
};
