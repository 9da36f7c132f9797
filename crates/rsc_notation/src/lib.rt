//! How the arguments of the programs write bytes, ranges of bytes, assertions, and groups of patterns.
#![tactic(auto)]

pub mod bytes;
pub mod groups;
pub mod looks;
