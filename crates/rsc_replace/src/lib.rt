//! Replaces the matches of a program, or of one part of a pattern, in a text by what a template stands for.
//!
//! [`expand`] reads a template: `$0`, `$1` and `$name` stand for groups. [`replace_all`] replaces all matches of a program, [`replacen`] the first ones.
//! [`replace_part`] replaces those of a part, and its contract speaks of the part's pattern alone.
#![tactic(auto)]

/// Laws that a caller can cite.
pub mod laws;
mod limited;
mod replace;
mod template;

pub use limited::replacen;
pub use replace::{replace_all, replace_part};
pub use template::expand;
