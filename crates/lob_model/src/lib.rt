//! What LOBs are in pages, and what they mean: pieces, each a head with its older versions.
#![tactic(auto)]

mod changes;
mod laws;
pub mod layout;
mod rows;

pub use changes::{
    add_stands, drop_stands, emptied_stands, free_stands, given_node_stands, loose_entry_is_unseen,
    new_lob_stands, other_page_is_unseen, pop_stands, push_stands, refill_stands, search_tells,
    set_version_stands, taken_node_stands, unchained_stands,
};
pub use laws::{
    drop_keeps_what_is_found, drop_keeps_what_is_read, heads_keep_their_places, lob_stays,
    pop_takes_back, push_keeps_older, push_keeps_what_is_read, push_shows_newest,
};
pub use rows::{row_changes, row_entries, row_falls, row_reads, row_searches, row_turns};
