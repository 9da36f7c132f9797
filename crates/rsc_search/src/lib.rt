//! What a search is given and what it finds: inputs, spans, matches, errors, and sets of patterns.
//!
//! An [`Input`] is a haystack with the [`Span`] of it to search. The haystack isn't cut: assertions at the ends of the span look at the
//! bytes around it. A span's start may be one above its end, which an iteration over matches reaches after an empty match at the end.
//!
//! A [`Match`] has a pattern and a span, a [`HalfMatch`] one end of it, for engines that find no start.
//!
//! A [`PatternSet`] collects the patterns that match. It has a capacity, the number of patterns, so that it takes memory once and an insertion never
//! does: an engine makes it before the search, and clears it between searches.
//!
//! ```
//! let input = Input::new(b"abc").span(Span { start: 1, end: 3 });
//! assert!(rt; input.get_span() == Span { start: 1, end: 3 });
//! assert!(rt; input.haystack() == b"abc".as_slice());
//! ```
#![tactic(auto)]

mod anchored;
mod blocks;
mod error;
mod input;
/// Laws that a caller can cite.
pub mod laws;
mod matches;
mod pattern_set;
mod span;

pub use anchored::{Anchored, MatchKind};
pub use error::{MatchError, MatchErrorKind};
pub use input::Input;
pub use matches::{HalfMatch, Match};
pub use pattern_set::{PatternSet, PatternSetInsertError, PatternSetIter};
pub use span::Span;
