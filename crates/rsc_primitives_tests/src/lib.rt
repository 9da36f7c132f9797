//! The tests of `rsc_primitives`, by its public calls alone. They are a crate above it because a crate that has tests is proved twice.
//! The other modules are public because the tests of other libraries use them too.
#![tactic(auto)]

pub mod forms;
pub mod requests;
pub mod slow_reader;
#[cfg(test)]
mod tests;
