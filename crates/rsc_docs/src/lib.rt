//! The examples of the README.md files and of the doc comments, as tests.
#![tactic(auto)]

#[cfg(test)]
mod examples;
#[cfg(test)]
mod readmes;
