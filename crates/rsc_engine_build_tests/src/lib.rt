//! The tests of `rsc_engine`'s builder: a crate apart from the other tests, so that both are proved at once.
#![tactic(auto)]

#[cfg(test)]
mod tests;
