//! Which capturing groups the patterns of a search have, and which slots hold the offsets of a match.
//!
//! A group has two slots, for the start and the end of what it matched. [`GroupInfo`] numbers the slots of all groups of all patterns; the slots of
//! the first groups, which span whole matches, come first. So an engine that wants only where a match is keeps two slots for each pattern, and the
//! slots of explicit groups follow where they are wanted.
//!
//! [`Captures`] holds the pattern that matched and an offset for each slot. An engine writes the slots; a caller reads groups by index or by name,
//! and [`Captures::extract_from`] cuts them out of the haystack.
//!
//! A clone of a group info shares its lists, so each captures value keeps one.
//!
//! ```
//! let info = GroupInfo::new(rt.alloc(), &[&[None, Some("x")], &[None, None, Some("x")]])?;
//! assert!(rt; info.slot(PatternID::must(1), 2) == Some(8));
//! ```
#![tactic(auto)]

mod captures;
mod error;
mod extract;
mod faults;
mod group_info;
pub mod laws;
mod name_iterators;
mod names;
mod order;
mod pairs;
mod repeats;
mod shared_lists;
mod span_iterator;

pub use captures::Captures;
pub use error::{GroupInfoError, GroupInfoErrorKind};
pub use extract::Haystack;
pub use group_info::GroupInfo;
pub use name_iterators::{GroupInfoAllNames, GroupInfoPatternNames};
pub use span_iterator::CapturesPatternIter;
