//! Indices that fit in four bytes, whatever they number.
ghost use Rattle.std.specs.Prelude.{◌≡◌, ◌+◌, ◌<◌, ◌≤◌, All, pos, codes, ◌++◌, Some, Ok};
ghost use Rattle.std.specs.Int.{w32, from_le_bytes, to_le_bytes};
ghost use Rattle.std.specs.List.{range_with_len};
ghost use Rattle.std.specs.Iterator.{YieldsFirst, item_count};
ghost use Rattle.rsc_primitives.specs.Indices.{IsIndex, checked_index, max_index};

use std::error::Error;
use std::fmt;
use std::marker::Model;

/// An index from 0 to 2147483646, in four bytes.
///
/// A contract sees it as the number. The number plus 1 and a count of all such numbers fit in an `i32`.
///
/// # Examples
///
/// ```
/// let index = SmallIndex::must(258);
/// assert!(rt; index.to_le_bytes() == [2, 1, 0, 0]);
/// assert!(rt; SmallIndex::from_le_bytes([255, 255, 255, 127]).is_err());
/// ```
#[derive(Clone, Copy, Debug, PartialEq, Eq, PartialOrd, Ord, Hash)]
pub struct SmallIndex(u32);

impl Model for SmallIndex {
    ghost use Rattle.std.specs.Prelude.{ℕ};
    ghost use Rattle.rsc_primitives.specs.Indices.{IsIndex};

    ghost Value = { ℕ };

    ghost view = { λ index. index.0 };

    ghost invariant = { λ index. IsIndex index.0 };

    ghost inverse = { λ n. record { 0 = n } };
}

impl SmallIndex {
    /// The greatest index.
    pub const MAX: SmallIndex = SmallIndex(2147483646);

    /// One more than the greatest index: how many indices there are.
    pub const LIMIT: usize = 2147483647;

    /// The index 0.
    pub const ZERO: SmallIndex = SmallIndex(0);

    /// How many bytes an index takes.
    pub const SIZE: usize = 4;

    /// The index of that number, or a refusal of it where it is above [`SmallIndex::MAX`].
    ///
    /// # Errors
    ///
    /// A number above the greatest index is refused, and the error holds it.
    #[inline(always)]
    pub fn new(index: usize) -> Result<SmallIndex, SmallIndexError>
        ensures { result ≡ checked_index index }
    {
        SmallIndex::try_from(index)
    }

    /// The index of a number that is known to be at most [`SmallIndex::MAX`].
    #[inline]
    pub fn must(index: usize) -> SmallIndex
        requires { IsIndex index }
        ensures { result ≡ index }
    {
        SmallIndex(index as u32)
    }

    /// The number as a `usize`.
    #[inline]
    pub fn as_usize(&self) -> usize
        ensures value { result ≡ self.now }
        ensures within { IsIndex result }
    {
        self.0 as usize
    }

    /// The number as a `u64`.
    #[inline(always)]
    pub fn as_u64(&self) -> u64
        ensures value { result ≡ self.now }
        ensures within { IsIndex result }
    {
        u64::from(self.0)
    }

    /// The number as a `u32`.
    #[inline]
    pub fn as_u32(&self) -> u32
        ensures value { result ≡ self.now }
        ensures within { IsIndex result }
    {
        self.0
    }

    /// The number as an `i32`.
    #[inline]
    pub fn as_i32(&self) -> i32
        ensures value { result ≡ pos self.now }
        ensures within { IsIndex self.now }
    {
        self.0 as i32
    }

    /// The number plus 1, which is no index where this is [`SmallIndex::MAX`].
    #[inline]
    pub fn one_more(&self) -> usize
        ensures value { result ≡ self.now + 1 }
        ensures within { IsIndex self.now }
    {
        self.as_usize() + 1
    }

    /// The index whose four bytes these are, the least significant first, or a refusal of their number where it is above
    /// [`SmallIndex::MAX`].
    ///
    /// # Errors
    ///
    /// A number above the greatest index is refused, and the error holds it.
    #[inline]
    pub fn from_le_bytes(bytes: [u8; 4]) -> Result<SmallIndex, SmallIndexError>
        ensures { result ≡ checked_index (from_le_bytes w32 bytes) }
    {
        SmallIndex::try_from(u32::from_le_bytes(bytes))
    }

    /// The four bytes of the number, the least significant first.
    #[inline]
    pub fn to_le_bytes(&self) -> [u8; 4]
        ensures { result ≡ to_le_bytes w32 self.now }
    {
        self.0.to_le_bytes()
    }

    /// The indices from 0 to `len - 1`, ascending, where `len` is at most [`SmallIndex::LIMIT`]. The original lacks it.
    #[inline]
    #[tactic(auto, using(crate::proofs::IndicesLemmas::indices_below))]
    pub fn iter(len: usize) -> SmallIndexIter
        requires { len ≤ SmallIndex.LIMIT }
        ensures value { result ≡ range_with_len 0 len }
        ensures within { All (λ index. index < len) result }
    {
        SmallIndexIter { next_index: 0, len }
    }
}

impl Default for SmallIndex {
    ghost is_default = { λ index. index ≡ 0 };

    #[inline]
    fn default() -> SmallIndex {
        SmallIndex::ZERO
    }
}

impl From<u8> for SmallIndex {
    ghost from_gives = { λ n index. index ≡ n };

    #[inline]
    fn from(index: u8) -> SmallIndex {
        SmallIndex(u32::from(index))
    }
}

impl TryFrom<u16> for SmallIndex {
    type Error = SmallIndexError;

    ghost try_from_gives = { λ n answer. answer ≡ Ok n };

    #[inline]
    fn try_from(index: u16) -> Result<SmallIndex, SmallIndexError> {
        Ok(SmallIndex(u32::from(index)))
    }
}

impl TryFrom<u32> for SmallIndex {
    type Error = SmallIndexError;

    ghost try_from_gives = { λ n answer. answer ≡ checked_index n };

    #[inline]
    fn try_from(index: u32) -> Result<SmallIndex, SmallIndexError> {
        SmallIndex::try_from(u64::from(index))
    }
}

impl TryFrom<u64> for SmallIndex {
    type Error = SmallIndexError;

    ghost try_from_gives = { λ n answer. answer ≡ checked_index n };

    #[inline(always)]
    fn try_from(index: u64) -> Result<SmallIndex, SmallIndexError> {
        if index > SmallIndex::MAX.as_u64() {
            return Err(SmallIndexError { attempted: index });
        }
        Ok(SmallIndex(index as u32))
    }
}

impl TryFrom<usize> for SmallIndex {
    type Error = SmallIndexError;

    ghost try_from_gives = { λ n answer. answer ≡ checked_index n };

    #[inline(always)]
    fn try_from(index: usize) -> Result<SmallIndex, SmallIndexError> {
        SmallIndex::try_from(index as u64)
    }
}

/// The refusal of a number that is above [`SmallIndex::MAX`]. A contract sees it as the number.
#[derive(Clone, Debug, Drop, PartialEq, Eq)]
pub struct SmallIndexError {
    attempted: u64,
}

impl Model for SmallIndexError {
    ghost use Rattle.std.specs.Prelude.{ℕ};

    ghost Value = { ℕ };

    ghost view = { λ error. error.attempted };

    ghost inverse = { λ n. record { attempted = n } };
}

impl SmallIndexError {
    /// The number that was refused.
    #[inline(always)]
    pub fn attempted(&self) -> u64
        ensures { result ≡ self.now }
    {
        self.attempted
    }
}

impl fmt::Display for SmallIndexError {
    ghost use Rattle.rsc_primitives.specs.IndexTexts.{small_index_error_text};

    ghost output = { λ attempted. Some (small_index_error_text attempted) };

    fn fmt<W: fmt::Write>(&self, f: &mut fmt::Formatter<W>) -> fmt::Result {
        let attempted = self.attempted;
        write!(
            f,
            "failed to create small index from {attempted}, which exceeds SmallIndex(2147483646)"
        )
    }
}

impl Error for SmallIndexError {}

/// The iterator over the first indices, made by [`SmallIndex::iter`]. A contract sees it as the list of what is left.
#[derive(Clone, Debug, Drop)]
pub struct SmallIndexIter {
    next_index: usize,
    len: usize,
}

impl Model for SmallIndexIter {
    ghost use Rattle.std.specs.Prelude.{ℕ, ◌+◌, ◌-◌, ◌≤◌, List};
    ghost use Rattle.std.specs.List.{range_with_len};
    ghost use Rattle.rsc_primitives.specs.Indices.{max_index};

    ghost Value = { List ℕ };

    ghost view = { λ it. range_with_len it.next_index (it.len - it.next_index) };

    ghost invariant = { λ it. it.len ≤ max_index + 1 };
}

impl Iterator for SmallIndexIter {
    type Item = SmallIndex;

    ghost next_gives = { YieldsFirst (λ rest. rest) };

    ghost remaining = { item_count (λ rest. rest) };

    #[inline]
    #[tactic(auto, using(crate::proofs::IndicesLemmas::range_left_first, crate::proofs::IndicesLemmas::range_left_none))]
    fn next(&mut self) -> Option<SmallIndex> {
        if self.next_index >= self.len {
            return None;
        }
        let index = SmallIndex(self.next_index as u32);
        self.next_index += 1;
        Some(index)
    }
}
