//! Assertions about the position between two bytes of a haystack, and the classes of bytes that they can't tell apart.
//!
//! An assertion such as `^`, `$` or `\b` holds at a position or doesn't, and takes no byte. [`Look`] has the eighteen of them, [`LookSet`] is a set of
//! them in 32 bits, and [`LookMatcher`] decides them, for a line terminator and a word predicate.
//!
//! A haystack need not be UTF-8. A Unicode assertion asks for the character on each side; if bytes are there but no character, the side is invalid.
//! `\B` must not hold between two bytes of one character, or an empty match would split it, so it doesn't hold next to an invalid side.
//!
//! An automaton with assertions has to keep apart the bytes that they tell apart. [`LookMatcher::classes_of`] returns the coarsest intervals that do.
//!
//! ```
//! let matcher = LookMatcher::new(UnicodeWord);
//! assert!(rt; matcher.matches(Look::WordUnicode, "𝛃 ".as_bytes(), 4));
//! ```
#![tactic(auto)]

mod assertion;
mod boundaries;
mod error;
/// Laws that a caller can cite.
pub mod laws;
mod look_set;
mod matcher;
mod side;
mod word;

pub use assertion::Look;
pub use error::UnicodeWordBoundaryError;
pub use look_set::{LookSet, LookSetIter};
pub use matcher::LookMatcher;
pub use word::{AsciiWord, UnicodeWord, WordClass};
