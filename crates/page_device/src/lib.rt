//! A store's file over a disk: its control block and its pages, and writes that are synced before
//! the next step.
#![tactic(auto)]

mod laws;
mod new_store;
mod opened;
mod opening;
mod pages;
mod region;
mod synced;

pub use file_model::Layout;
pub use laws::new_file_is_a_store;
pub use new_store::create;
pub use opened::open;
pub use opening::OpenError;
pub use pages::{read_page, write_image, write_page};
pub use region::{live, set_live};
pub use synced::write_synced;
