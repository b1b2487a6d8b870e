//! Trees into bytes, and bytes into trees.

pub mod decoder;
pub mod encoder;
pub mod entries;
pub mod numbers;
pub mod parts;
pub mod sizes;
pub mod writer;
