//! A store's file on a disk in memory that fails and stops anywhere: what is recovered from each
//! image that a crash may leave. Tests alone.
#![tactic(auto)]

#[cfg(test)]
mod recovered;
#[cfg(test)]
mod script;
#[cfg(test)]
mod tests;
