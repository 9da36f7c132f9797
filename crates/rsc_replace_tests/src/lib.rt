//! The tests of `rsc_replace`, by its public calls alone. They are a crate above it because a crate that has tests is proved twice.
#![tactic(auto)]

#[cfg(test)]
mod made;
#[cfg(test)]
mod tests;
