//! Runs of one and of several sessions as closed terms, each legal and following its lines, and
//! entries that may not stand in them.
#![tactic(auto)]

mod blocks;
mod changes;
mod ends;
mod mixed;
mod opened;
mod pieces;
mod space;
mod told;
mod unpurged;
mod views;

pub use blocks::{row_circle_of_three, row_circle_of_two};
pub use changes::{
    row_cell_of_scalar, row_in_one_transaction, row_inlined_number, row_large_form, row_measured,
    row_no_effect, row_removed_member, row_scalar_itself, row_shorter_text, row_small_form,
    row_wide_numbers,
};
pub use ends::{row_restart_midway, row_rollback_under_reader, row_session_ends};
pub use mixed::{row_levels_and_audits, row_readers_between, row_small_store};
pub use opened::{row_left_deleted, row_left_lists, row_left_versions};
pub use pieces::{
    row_one_piece, row_purged_behind, row_read_in_pieces, row_small_and_large, row_two_pieces,
};
pub use space::row_ten_pieces;
pub use told::{legal_by_test, turns_by_test};
pub use unpurged::row_unpurged;
pub use views::{row_four_views, row_read_committed, row_repeatable_read};
