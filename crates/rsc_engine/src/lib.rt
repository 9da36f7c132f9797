//! A regex engine over the contracts of the libraries: a builder of automata, and searches in them for the leftmost-first match, whose every answer is proved.
//!
//! [`find`] returns the leftmost-first match of a [`Program`] in an input, and [`Matches`] all of them, one after the other; [`Lines`] the lines that have one.
//!
//! `builder` makes parts and compiles them to the automaton of a `program`. `first`, `iterate`, `cache` and `lines` have the searches. `dfa` finds matches by
//! the rows of a table; they all call it. `word_class` has which word predicates a search takes, `error` why there is no answer.
#![tactic(auto)]

mod builder;
mod cache;
mod dfa;
mod error;
mod first;
mod iterate;
/// Laws that a caller can cite.
pub mod laws;
mod lines;
mod program;
mod word_class;

pub use builder::{Builder, Part};
pub use cache::Cache;
pub use dfa::Dfa;
pub use error::Error;
pub use first::find;
pub use iterate::Matches;
pub use lines::Lines;
pub use program::Program;
pub use word_class::AsciiCompatible;
