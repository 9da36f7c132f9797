//! Numbers of few bytes: the indices of patterns and states, and offsets of which an optional one is kept.
mod non_max;
mod pattern_id;
mod small_index;
mod state_id;

pub use non_max::NonMaxUsize;
pub use pattern_id::{PatternID, PatternIDError, PatternIDIter};
pub use small_index::{SmallIndex, SmallIndexError, SmallIndexIter};
pub use state_id::{StateID, StateIDError, StateIDIter};
