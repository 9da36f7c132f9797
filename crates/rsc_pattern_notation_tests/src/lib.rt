//! The tests of `rsc_pattern_notation`, by its public call alone. They are a crate above it because a crate that has tests is proved twice.
#![tactic(auto)]

#[cfg(test)]
mod tests;
