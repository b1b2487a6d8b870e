//! What stands in pages, and laws about it: fields, writes and their frame, lists of nodes, and
//! what is counted of them.
#![tactic(auto)]

mod laws;

pub use laws::{
    apart_by_counting, counting_is_enough, disjoint_writes, empty_base_is_a_list, few_below,
    field_read_back, field_stays, frame_reads_back, list_stays, off_by_counting, other_bytes_stay,
    pinned_pages_cost_nothing, table_reads_back, write_keeps_sizes,
};
