//! The examples of the libraries' doc comments.
mod alphabet;
mod captures;
mod engine;
mod look;
mod nfa;
mod primitives;
mod replace;
mod search;
