//! What an engine or a tool would write over the libraries: short callers, each with a contract of its own, which is proved from the
//! contracts, laws and definitions of the libraries alone. Read it as examples.
#![tactic(auto)]

pub mod alphabet;
pub mod captures;
pub mod ends;
pub mod engine;
pub mod lexer;
pub mod lines;
pub mod look;
pub mod nfa;
pub mod parts;
pub mod primitives;
pub mod replace;
pub mod search;
pub mod threads;
pub mod tokenizer;
