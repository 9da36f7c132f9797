//! The tests of `rsc_commands`, by its public calls alone. They are a crate above it because a crate that has tests is proved twice.
#![tactic(auto)]

#[cfg(test)]
mod tests;
