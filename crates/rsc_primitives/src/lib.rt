//! What the parts of a regex engine share: small indices, UTF-8 read from either end, and bytes shown as text.
//!
//! Patterns, states and slots have numbers that fit 32 bits, so tables of them are small. [`SmallIndex`], [`PatternID`] and [`StateID`] are such
//! numbers, at most 2147483646, and one type can't be taken for another. An offset that may be missing is an `Option<NonMaxUsize>`.
//!
//! Haystacks are any bytes, and a Unicode assertion has to know the character on each side of a position. [`utf8::decode`] returns the character
//! that begins the bytes and [`utf8::decode_last`] the one that ends them, by RFC 3629, or the byte where no character does.
//!
//! [`escape`] shows bytes to people, as characters or as escapes.
//!
//! ```
//! assert!(rt; utf8::decode("é".as_bytes()) == Some(Ok('é')));
//! assert!(rt; PatternID::new(2147483647).is_err());
//! ```
#![tactic(auto)]

/// Bytes shown as text for people to read.
pub mod escape;
/// Laws that a caller can cite.
pub mod laws;
mod primitives;
mod tables;
/// UTF-8 read from either end of any bytes.
pub mod utf8;

pub use primitives::{
    NonMaxUsize, PatternID, PatternIDError, PatternIDIter, SmallIndex, SmallIndexError,
    SmallIndexIter, StateID, StateIDError, StateIDIter,
};
