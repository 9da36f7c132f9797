//! Laws that a caller can cite: functions whose contracts are the laws. Those of constants return the constants.
ghost use Rattle.std.specs.Prelude.{◌≡◌, ◌↔◌, ◌⊎◌, ◌<◌, ◌≤◌, ◌++◌, ℕ, List, [], length, slice_index, Result, Ok, Some, true, ◌==◌, ◌+◌};
ghost use Rattle.std.specs.Char.{IsScalar, encode_utf8};
ghost use Rattle.std.specs.Int.{w32, from_le_bytes, to_le_bytes};
ghost use Rattle.std.specs.Str.{encode_utf8_all, all_scalars};
ghost use Rattle.std.specs.Hash as fed;
ghost use Rattle.std.specs.Ordering.{nat_cmp};
ghost use Rattle.rsc_primitives.specs.declared.escape.DebugByte.{DebugByte as ADebugByte};
ghost use Rattle.rsc_primitives.specs.Indices.{IsIndex, checked_index, max_index};
ghost use Rattle.rsc_primitives.specs.Utf8.{Encodes, EncodesAll, BeginsAt, EndsAt, IsInside};
ghost use Rattle.rsc_primitives.specs.Decoding.{IsCharBoundary};

use crate::escape::DebugByte;
use crate::{
    NonMaxUsize, PatternID, PatternIDError, PatternIDIter, SmallIndex, SmallIndexError,
    SmallIndexIter, StateID, StateIDError, StateIDIter,
};
use std::hash::Hash;

/// How many indices of each kind there are, and how many bytes one takes.
pub fn limits_of_indices()
    ensures limit { (SmallIndex.LIMIT ≡ max_index + 1) × (PatternID.LIMIT ≡ max_index + 1) × (StateID.LIMIT ≡ max_index + 1) }
    ensures size { (SmallIndex.SIZE ≡ 4) × (PatternID.SIZE ≡ 4) × (StateID.SIZE ≡ 4) }
{}

/// The greatest index of each kind.
pub fn greatest_indices() -> (SmallIndex, PatternID, StateID)
    ensures { (result.0 ≡ max_index) × (result.1 ≡ max_index) × (result.2 ≡ max_index) }
{
    (SmallIndex::MAX, PatternID::MAX, StateID::MAX)
}

/// The index 0 of each kind.
pub fn zero_indices() -> (SmallIndex, PatternID, StateID)
    ensures { (result.0 ≡ 0) × (result.1 ≡ 0) × (result.2 ≡ 0) }
{
    (SmallIndex::ZERO, PatternID::ZERO, StateID::ZERO)
}

/// Reading the four bytes of an index gives the index.
pub fn le_bytes_round_trip()
    ensures { (n : ℕ) → IsIndex n → checked_index (from_le_bytes w32 (to_le_bytes w32 n)) ≡ Ok n }
{}

/// Equality of indices, of their refusals and of [`NonMaxUsize`] is that of the numbers.
pub fn equality_is_of_the_value()
    ensures small_index { (a b : ℕ) → ⟦<SmallIndex as PartialEq>⟧.eq a b ≡ (a == b) }
    ensures pattern_id { (a b : ℕ) → ⟦<PatternID as PartialEq>⟧.eq a b ≡ (a == b) }
    ensures state_id { (a b : ℕ) → ⟦<StateID as PartialEq>⟧.eq a b ≡ (a == b) }
    ensures small_index_error { (a b : ℕ) → ⟦<SmallIndexError as PartialEq>⟧.eq a b ≡ (a == b) }
    ensures pattern_id_error { (a b : ℕ) → ⟦<PatternIDError as PartialEq>⟧.eq a b ≡ (a == b) }
    ensures state_id_error { (a b : ℕ) → ⟦<StateIDError as PartialEq>⟧.eq a b ≡ (a == b) }
    ensures non_max { (a b : ℕ) → ⟦<NonMaxUsize as PartialEq>⟧.eq a b ≡ (a == b) }
{}

/// The order of indices and of [`NonMaxUsize`] is that of the numbers.
pub fn order_is_of_the_number()
    ensures small_index { (a b : ℕ) → ⟦<SmallIndex as Ord>⟧.cmp a b ≡ nat_cmp a b }
    ensures pattern_id { (a b : ℕ) → ⟦<PatternID as Ord>⟧.cmp a b ≡ nat_cmp a b }
    ensures state_id { (a b : ℕ) → ⟦<StateID as Ord>⟧.cmp a b ≡ nat_cmp a b }
    ensures non_max { (a b : ℕ) → ⟦<NonMaxUsize as Ord>⟧.cmp a b ≡ nat_cmp a b }
{}

/// What an index and a [`NonMaxUsize`] feed to a hasher is the number.
pub fn hash_is_of_the_number()
    ensures small_index { (a : ℕ) → ⟦<SmallIndex as Hash>⟧.hash_input a ≡ fed.u32 a }
    ensures pattern_id { (a : ℕ) → ⟦<PatternID as Hash>⟧.hash_input a ≡ fed.u32 a }
    ensures state_id { (a : ℕ) → ⟦<StateID as Hash>⟧.hash_input a ≡ fed.u32 a }
    ensures non_max { (a : ℕ) → ⟦<NonMaxUsize as Hash>⟧.hash_input a ≡ fed.usize a }
{}

/// A clone is its source, and none is refused.
pub fn clones_are_their_sources()
    ensures small_index { (a b : ℕ) → ⟦<SmallIndex as Clone>⟧.is_clone a b → b ≡ a }
    ensures small_index_accepted { (a : ℕ) → ⟦<SmallIndex as Clone>⟧.is_infallible a }
    ensures pattern_id { (a b : ℕ) → ⟦<PatternID as Clone>⟧.is_clone a b → b ≡ a }
    ensures pattern_id_accepted { (a : ℕ) → ⟦<PatternID as Clone>⟧.is_infallible a }
    ensures state_id { (a b : ℕ) → ⟦<StateID as Clone>⟧.is_clone a b → b ≡ a }
    ensures state_id_accepted { (a : ℕ) → ⟦<StateID as Clone>⟧.is_infallible a }
    ensures small_index_error { (a b : ℕ) → ⟦<SmallIndexError as Clone>⟧.is_clone a b → b ≡ a }
    ensures small_index_error_accepted { (a : ℕ) → ⟦<SmallIndexError as Clone>⟧.is_infallible a }
    ensures pattern_id_error { (a b : ℕ) → ⟦<PatternIDError as Clone>⟧.is_clone a b → b ≡ a }
    ensures pattern_id_error_accepted { (a : ℕ) → ⟦<PatternIDError as Clone>⟧.is_infallible a }
    ensures state_id_error { (a b : ℕ) → ⟦<StateIDError as Clone>⟧.is_clone a b → b ≡ a }
    ensures state_id_error_accepted { (a : ℕ) → ⟦<StateIDError as Clone>⟧.is_infallible a }
    ensures small_index_iter { (a b : List ℕ) → ⟦<SmallIndexIter as Clone>⟧.is_clone a b → b ≡ a }
    ensures small_index_iter_accepted { (a : List ℕ) → ⟦<SmallIndexIter as Clone>⟧.is_infallible a }
    ensures pattern_id_iter { (a b : List ℕ) → ⟦<PatternIDIter as Clone>⟧.is_clone a b → b ≡ a }
    ensures pattern_id_iter_accepted { (a : List ℕ) → ⟦<PatternIDIter as Clone>⟧.is_infallible a }
    ensures state_id_iter { (a b : List ℕ) → ⟦<StateIDIter as Clone>⟧.is_clone a b → b ≡ a }
    ensures state_id_iter_accepted { (a : List ℕ) → ⟦<StateIDIter as Clone>⟧.is_infallible a }
    ensures non_max { (a b : ℕ) → ⟦<NonMaxUsize as Clone>⟧.is_clone a b → b ≡ a }
    ensures non_max_accepted { (a : ℕ) → ⟦<NonMaxUsize as Clone>⟧.is_infallible a }
    ensures debug_byte { (a b : ADebugByte) → ⟦<DebugByte as Clone>⟧.is_clone a b → b ≡ a }
    ensures debug_byte_accepted { (a : ADebugByte) → ⟦<DebugByte as Clone>⟧.is_infallible a }
{}

/// The default of an index is 0.
pub fn defaults()
    ensures small_index { (a : ℕ) → ⟦<SmallIndex as Default>⟧.is_default a → a ≡ 0 }
    ensures pattern_id { (a : ℕ) → ⟦<PatternID as Default>⟧.is_default a → a ≡ 0 }
    ensures state_id { (a : ℕ) → ⟦<StateID as Default>⟧.is_default a → a ≡ 0 }
{}

/// What a number converts to is that number, or above the greatest index a refusal of it.
pub fn conversions_are_exact()
    ensures small_index_from_u8 { (n a : ℕ) → ⟦<SmallIndex as From<u8>>⟧.from_gives n a → a ≡ n }
    ensures small_index_from_u16 { (n : ℕ) (r : Result ℕ ℕ) → ⟦<SmallIndex as TryFrom<u16>>⟧.try_from_gives n r → r ≡ Ok n }
    ensures small_index_from_u32 { (n : ℕ) (r : Result ℕ ℕ) → ⟦<SmallIndex as TryFrom<u32>>⟧.try_from_gives n r → r ≡ checked_index n }
    ensures small_index_from_u64 { (n : ℕ) (r : Result ℕ ℕ) → ⟦<SmallIndex as TryFrom<u64>>⟧.try_from_gives n r → r ≡ checked_index n }
    ensures small_index_from_usize { (n : ℕ) (r : Result ℕ ℕ) → ⟦<SmallIndex as TryFrom<usize>>⟧.try_from_gives n r → r ≡ checked_index n }
    ensures pattern_id_from_u8 { (n a : ℕ) → ⟦<PatternID as From<u8>>⟧.from_gives n a → a ≡ n }
    ensures pattern_id_from_u16 { (n : ℕ) (r : Result ℕ ℕ) → ⟦<PatternID as TryFrom<u16>>⟧.try_from_gives n r → r ≡ Ok n }
    ensures pattern_id_from_u32 { (n : ℕ) (r : Result ℕ ℕ) → ⟦<PatternID as TryFrom<u32>>⟧.try_from_gives n r → r ≡ checked_index n }
    ensures pattern_id_from_u64 { (n : ℕ) (r : Result ℕ ℕ) → ⟦<PatternID as TryFrom<u64>>⟧.try_from_gives n r → r ≡ checked_index n }
    ensures pattern_id_from_usize { (n : ℕ) (r : Result ℕ ℕ) → ⟦<PatternID as TryFrom<usize>>⟧.try_from_gives n r → r ≡ checked_index n }
    ensures state_id_from_u8 { (n a : ℕ) → ⟦<StateID as From<u8>>⟧.from_gives n a → a ≡ n }
    ensures state_id_from_u16 { (n : ℕ) (r : Result ℕ ℕ) → ⟦<StateID as TryFrom<u16>>⟧.try_from_gives n r → r ≡ Ok n }
    ensures state_id_from_u32 { (n : ℕ) (r : Result ℕ ℕ) → ⟦<StateID as TryFrom<u32>>⟧.try_from_gives n r → r ≡ checked_index n }
    ensures state_id_from_u64 { (n : ℕ) (r : Result ℕ ℕ) → ⟦<StateID as TryFrom<u64>>⟧.try_from_gives n r → r ≡ checked_index n }
    ensures state_id_from_usize { (n : ℕ) (r : Result ℕ ℕ) → ⟦<StateID as TryFrom<usize>>⟧.try_from_gives n r → r ≡ checked_index n }
{}

/// The bytes that encode a character are what std's `encode_utf8` writes for it, and nothing else is encoded.
#[tactic(auto, using(crate::proofs::CitedLaws::encodes_std))]
pub fn encoding_is_that_of_std()
    ensures { (e : List ℕ) (c : ℕ) → Encodes e c ↔ (IsScalar c × (e ≡ encode_utf8 c)) }
{}

/// The bytes that encode a list of characters are what std's `encode_utf8` writes for one after the other.
#[tactic(auto, using(crate::proofs::CitedLaws::encodes_all_std))]
pub fn encoding_of_a_list_is_that_of_std()
    ensures { (h cs : List ℕ) → EncodesAll h cs ↔ ((all_scalars cs ≡ true) × (h ≡ encode_utf8_all cs)) }
{}

/// No encoding is a proper beginning of another.
#[tactic(auto, using(crate::proofs::CitedLaws::encodes_no_more))]
pub fn no_encoding_begins_another()
    ensures { (e rest : List ℕ) (c d : ℕ) → Encodes e c → Encodes (e ++ rest) d → rest ≡ [] }
{}

/// An encoding of two or more bytes holds no byte below 128.
#[tactic(auto, using(crate::proofs::CitedLaws::encodes_past_ascii))]
pub fn long_encodings_hold_no_ascii()
    ensures { (e : List ℕ) (c k : ℕ) → Encodes e c → 2 ≤ length e → k < length e → 128 ≤ slice_index e k }
{}

/// At most one character begins at a position.
pub fn at_most_one_begins()
    ensures { (h : List ℕ) (i c d : ℕ) → BeginsAt h i c → BeginsAt h i d → c ≡ d }
{}

/// At most one character ends at a position.
pub fn at_most_one_ends()
    ensures { (h : List ℕ) (i c d : ℕ) → EndsAt h i c → EndsAt h i d → c ≡ d }
{}

/// A character begins at a position, or none does.
pub fn one_begins_or_none()
    ensures { (h : List ℕ) (i : ℕ) → ((c : ℕ) × BeginsAt h i c) ⊎ ((c : ℕ) → BeginsAt h i c → ⊥) }
{}

/// A character ends at a position, or none does.
pub fn one_ends_or_none()
    ensures { (h : List ℕ) (i : ℕ) → ((c : ℕ) × EndsAt h i c) ⊎ ((c : ℕ) → EndsAt h i c → ⊥) }
{}

/// Inside an encoded character none begins and none ends.
pub fn none_begins_or_ends_inside()
    ensures begins { (h : List ℕ) (i c : ℕ) → IsInside h i → BeginsAt h i c → ⊥ }
    ensures ends { (h : List ℕ) (i c : ℕ) → IsInside h i → EndsAt h i c → ⊥ }
{}

/// In the encoding of a list of characters the character boundaries are the positions where a character begins, and the end.
#[tactic(auto, using(crate::proofs::CitedLaws::is_char_boundary_encoded))]
pub fn char_boundaries_of_encoded_text()
    ensures { (h cs : List ℕ) (i : ℕ) → EncodesAll h cs → IsCharBoundary h i ↔ (((c : ℕ) × BeginsAt h i c) ⊎ (i ≡ length h)) }
{}
