//! What the pages of a store mean, as plain data that all levels share: rows, undo records and
//! logs, LOBs.
#![tactic(auto)]
