//! What an engine keeps between two events, and that its events keep it.
#![tactic(auto)]

mod events;
mod held;
mod kinds;
mod paged;
mod pages;
mod purge;
mod quiet;
mod rollback;
mod room;
mod shown;
mod waits;
mod worked;

pub use events::{
    answer_keeps, change_is_granted, commit_keeps, first_keeps, first_plan_keeps, log_may_change,
    outside_keeps, plan_keeps, quiet_keeps, read_keeps, undo_keeps, work_keeps,
};
pub use held::{
    lobs_are_half_purged, lobs_are_half_undone, lobs_are_planned, lobs_are_purged, lobs_are_undone,
    lobs_go_on,
};
pub use kinds::{changes_go_on, kinds_are_planned, records_are_undone};
pub use paged::{page_keeps, pages_move_along};
pub use pages::{
    answer_keeps_pages, audit_keeps_pages, begun_keeps_pages, commit_keeps_pages, drop_keeps_pages,
    end_keeps_pages, first_keeps_pages, first_plan_keeps_pages, half_keeps_pages, last_keeps_pages,
    outside_keeps_pages, pass_keeps_pages, plan_keeps_pages, purge_keeps_pages, quiet_keeps_pages,
    read_keeps_pages, undo_keeps_pages, versions_are_held, work_keeps_pages,
};
pub use purge::{
    begun_keeps, drop_keeps, pass_keeps, purge_goes_on, purge_is_allowed, purge_keeps,
    records_are_passed,
};
pub use quiet::{
    audit_keeps, begin_keeps, change_asks, deadlock_keeps, lock_is_granted, memory_keeps,
    nothing_keeps, piece_is_read, read_is_answered, read_starts, refusal_keeps, rollback_begins,
    wait_keeps,
};
pub use rollback::{
    end_keeps, ends_are_legal, half_keeps, halves_are_undone, last_keeps, last_records_are_undone,
    lob_records_are_undone,
};
pub use room::{first_is_roomy, free_is_told, lob_pages_are_few};
pub use shown::{
    documents_are_stored, found_row_is_measured, holder_may_change, newest_is_fetched,
    newest_is_locked, read_begins, read_is_right, view_is_taken,
};
pub use waits::{circle_is_met, lock_is_met, work_is_busy};
pub use worked::{
    bytes_are_the_documents, events_are_entered, halves_are_counted, locks_are_freed,
    one_row_is_left, read_is_kept_across_it, versions_stand_in_the_store, views_see_commits,
};
