//! The examples of the libraries' README.md, which quote these files.
mod alphabet;
mod captures;
mod engine;
mod look;
mod nfa;
mod primitives;
mod replace;
mod search;
