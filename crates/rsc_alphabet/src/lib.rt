//! The alphabets of finite automata: sets of bytes, partitions of the bytes into intervals, and maps from a byte to its class.
//!
//! A dense table of an automaton has a row for each state and a column for each symbol. Most automata tell few bytes apart, so a column serves a whole
//! class of bytes. A [`ByteClassSet`] collects where one class ends and the next begins, and [`ByteClasses`] maps each byte to its class.
//!
//! The end of the input is a symbol of its own, a [`Unit`] after all classes: an assertion such as `$` is decided when the byte after a position
//! is known, so an automaton takes one more step at the end. The number of symbols, [`ByteClasses::alphabet_len`], counts it.
//!
//! Classes are intervals, in the order of their bytes, so a partition is the set of its boundaries, and a range of bytes adds at most two of them.
//!
//! ```
//! let mut set = ByteClassSet::empty();
//! set.set_range(b'a', b'z');
//! // Three classes, and the end of the input.
//! assert!(rt; set.byte_classes().alphabet_len() == 4);
//! ```
#![tactic(auto)]

mod ascending;
mod byte_class_set;
mod byte_classes;
mod byte_set;
mod lanes;
/// Laws that a caller can cite.
pub mod laws;
mod masks;
mod unit;

pub use byte_class_set::{ByteClassSet, classes_of_ranges};
pub use byte_classes::{ByteClassElements, ByteClassIter, ByteClassRepresentatives, ByteClasses};
pub use byte_set::{ByteSet, ByteSetIter, ByteSetRangeIter};
pub use unit::Unit;
