//! A file of the system as a disk.
#![tactic(auto)]

mod disk;

pub use disk::FileDisk;
