//! What a store's file stands for: where its parts stand, its log and its doublewrite area, and the
//! pages recovered from it.
#![tactic(auto)]

mod laws;
mod layout;
pub mod places;

pub use laws::{
    armed_images_repair, frames_are_told, frames_read_back, gate_decides, log_ends_at_its_gate,
    redo_over_images,
};
pub use layout::Layout;
