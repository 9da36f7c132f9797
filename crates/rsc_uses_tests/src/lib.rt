//! The tests of `rsc_uses`: each caller, run on values.
#![tactic(auto)]

#[cfg(test)]
mod tests;
