//! Laws on the history of a document in a journal.
#![tactic(auto)]

mod ceiling;
mod held;
mod locks;
mod reads;
mod scripts;
mod stands;

pub use ceiling::{index_pages_suffice, needs_stand_apart};
pub use held::{
    held_by_histories, histories_are_in_order, histories_are_pieced, histories_are_sound,
    new_stores, nothing_is_left,
};
pub use locks::{one_holder, one_owner, owns_its_changes};
pub use reads::{reads_at_commits, reads_newest, reads_shown, views_are_kept};
pub use scripts::scripts_are_numbered;
pub use stands::{documents_stand, edits_give_trees, histories_stand, newest_documents_stand};
