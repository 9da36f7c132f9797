//! The answers of `rsc_bench` to command lines, over any reader and writer.
#![tactic(auto)]

mod classes;
mod command;
mod error;
mod groups;
mod input;
mod lines;
mod looks;
mod ranges;
mod tokens;

pub use error::BenchError;
pub use lines::run;
