//! Indices of states.
ghost use Rattle.std.specs.Prelude.{◌≡◌, ◌+◌, ◌<◌, ◌≤◌, All, pos, codes, ◌++◌, Some, Ok};
ghost use Rattle.std.specs.Int.{w32, from_le_bytes, to_le_bytes};
ghost use Rattle.std.specs.List.{range_with_len};
ghost use Rattle.std.specs.Iterator.{YieldsFirst, item_count};
ghost use Rattle.rsc_primitives.specs.Indices.{IsIndex, checked_index, max_index};

use std::error::Error;
use std::fmt;
use std::marker::Model;

/// The number of an automaton's state, from 0 to 2147483646, in four bytes.
///
/// A contract sees it as the number. The number plus 1 and a count of all such numbers fit in an `i32`.
///
/// # Examples
///
/// ```
/// let state = StateID::must(5);
/// assert!(rt; state > StateID::ZERO && state.as_u32() == 5);
/// ```
#[derive(Clone, Copy, Debug, PartialEq, Eq, PartialOrd, Ord, Hash)]
pub struct StateID(u32);

impl Model for StateID {
    ghost use Rattle.std.specs.Prelude.{ℕ};
    ghost use Rattle.rsc_primitives.specs.Indices.{IsIndex};

    ghost Value = { ℕ };

    ghost view = { λ index. index.0 };

    ghost invariant = { λ index. IsIndex index.0 };

    ghost inverse = { λ n. record { 0 = n } };
}

impl StateID {
    /// The greatest index.
    pub const MAX: StateID = StateID(2147483646);

    /// One more than the greatest index: how many indices there are.
    pub const LIMIT: usize = 2147483647;

    /// The index 0.
    pub const ZERO: StateID = StateID(0);

    /// How many bytes an index takes.
    pub const SIZE: usize = 4;

    /// The index of that number, or a refusal of it where it is above [`StateID::MAX`].
    ///
    /// # Errors
    ///
    /// A number above the greatest index is refused, and the error holds it.
    #[inline(always)]
    pub fn new(index: usize) -> Result<StateID, StateIDError>
        ensures { result ≡ checked_index index }
    {
        StateID::try_from(index)
    }

    /// The index of a number that is known to be at most [`StateID::MAX`].
    #[inline]
    pub fn must(index: usize) -> StateID
        requires { IsIndex index }
        ensures { result ≡ index }
    {
        StateID(index as u32)
    }

    /// The number as a `usize`.
    #[inline]
    pub fn as_usize(&self) -> usize
        ensures value { result ≡ self.now }
        ensures within { IsIndex result }
    {
        self.0 as usize
    }

    /// The number as a `u64`.
    #[inline(always)]
    pub fn as_u64(&self) -> u64
        ensures value { result ≡ self.now }
        ensures within { IsIndex result }
    {
        u64::from(self.0)
    }

    /// The number as a `u32`.
    #[inline]
    pub fn as_u32(&self) -> u32
        ensures value { result ≡ self.now }
        ensures within { IsIndex result }
    {
        self.0
    }

    /// The number as an `i32`.
    #[inline]
    pub fn as_i32(&self) -> i32
        ensures value { result ≡ pos self.now }
        ensures within { IsIndex self.now }
    {
        self.0 as i32
    }

    /// The number plus 1, which is no index where this is [`StateID::MAX`].
    #[inline]
    pub fn one_more(&self) -> usize
        ensures value { result ≡ self.now + 1 }
        ensures within { IsIndex self.now }
    {
        self.as_usize() + 1
    }

    /// The index whose four bytes these are, the least significant first, or a refusal of their number where it is above
    /// [`StateID::MAX`].
    ///
    /// # Errors
    ///
    /// A number above the greatest index is refused, and the error holds it.
    #[inline]
    pub fn from_le_bytes(bytes: [u8; 4]) -> Result<StateID, StateIDError>
        ensures { result ≡ checked_index (from_le_bytes w32 bytes) }
    {
        StateID::try_from(u32::from_le_bytes(bytes))
    }

    /// The four bytes of the number, the least significant first.
    #[inline]
    pub fn to_le_bytes(&self) -> [u8; 4]
        ensures { result ≡ to_le_bytes w32 self.now }
    {
        self.0.to_le_bytes()
    }

    /// The indices from 0 to `len - 1`, ascending, where `len` is at most [`StateID::LIMIT`].
    #[inline]
    #[tactic(auto, using(crate::proofs::IndicesLemmas::indices_below))]
    pub fn iter(len: usize) -> StateIDIter
        requires { len ≤ StateID.LIMIT }
        ensures value { result ≡ range_with_len 0 len }
        ensures within { All (λ index. index < len) result }
    {
        StateIDIter { next_index: 0, len }
    }
}

impl Default for StateID {
    ghost is_default = { λ index. index ≡ 0 };

    #[inline]
    fn default() -> StateID {
        StateID::ZERO
    }
}

impl From<u8> for StateID {
    ghost from_gives = { λ n index. index ≡ n };

    #[inline]
    fn from(index: u8) -> StateID {
        StateID(u32::from(index))
    }
}

impl TryFrom<u16> for StateID {
    type Error = StateIDError;

    ghost try_from_gives = { λ n answer. answer ≡ Ok n };

    #[inline]
    fn try_from(index: u16) -> Result<StateID, StateIDError> {
        Ok(StateID(u32::from(index)))
    }
}

impl TryFrom<u32> for StateID {
    type Error = StateIDError;

    ghost try_from_gives = { λ n answer. answer ≡ checked_index n };

    #[inline]
    fn try_from(index: u32) -> Result<StateID, StateIDError> {
        StateID::try_from(u64::from(index))
    }
}

impl TryFrom<u64> for StateID {
    type Error = StateIDError;

    ghost try_from_gives = { λ n answer. answer ≡ checked_index n };

    #[inline(always)]
    fn try_from(index: u64) -> Result<StateID, StateIDError> {
        if index > StateID::MAX.as_u64() {
            return Err(StateIDError { attempted: index });
        }
        Ok(StateID(index as u32))
    }
}

impl TryFrom<usize> for StateID {
    type Error = StateIDError;

    ghost try_from_gives = { λ n answer. answer ≡ checked_index n };

    #[inline(always)]
    fn try_from(index: usize) -> Result<StateID, StateIDError> {
        StateID::try_from(index as u64)
    }
}

/// The refusal of a number that is above [`StateID::MAX`]. A contract sees it as the number.
#[derive(Clone, Debug, Drop, PartialEq, Eq)]
pub struct StateIDError {
    attempted: u64,
}

impl Model for StateIDError {
    ghost use Rattle.std.specs.Prelude.{ℕ};

    ghost Value = { ℕ };

    ghost view = { λ error. error.attempted };

    ghost inverse = { λ n. record { attempted = n } };
}

impl StateIDError {
    /// The number that was refused.
    #[inline(always)]
    pub fn attempted(&self) -> u64
        ensures { result ≡ self.now }
    {
        self.attempted
    }
}

impl fmt::Display for StateIDError {
    ghost use Rattle.rsc_primitives.specs.IndexTexts.{state_id_error_text};

    ghost output = { λ attempted. Some (state_id_error_text attempted) };

    fn fmt<W: fmt::Write>(&self, f: &mut fmt::Formatter<W>) -> fmt::Result {
        let attempted = self.attempted;
        write!(
            f,
            "failed to create StateID from {attempted}, which exceeds StateID(2147483646)"
        )
    }
}

impl Error for StateIDError {}

/// The iterator over the first indices, made by [`StateID::iter`]. A contract sees it as the list of what is left.
#[derive(Clone, Debug, Drop)]
pub struct StateIDIter {
    next_index: usize,
    len: usize,
}

impl Model for StateIDIter {
    ghost use Rattle.std.specs.Prelude.{ℕ, ◌+◌, ◌-◌, ◌≤◌, List};
    ghost use Rattle.std.specs.List.{range_with_len};
    ghost use Rattle.rsc_primitives.specs.Indices.{max_index};

    ghost Value = { List ℕ };

    ghost view = { λ it. range_with_len it.next_index (it.len - it.next_index) };

    ghost invariant = { λ it. it.len ≤ max_index + 1 };
}

impl Iterator for StateIDIter {
    type Item = StateID;

    ghost next_gives = { YieldsFirst (λ rest. rest) };

    ghost remaining = { item_count (λ rest. rest) };

    #[inline]
    #[tactic(auto, using(crate::proofs::IndicesLemmas::range_left_first, crate::proofs::IndicesLemmas::range_left_none))]
    fn next(&mut self) -> Option<StateID> {
        if self.next_index >= self.len {
            return None;
        }
        let index = StateID(self.next_index as u32);
        self.next_index += 1;
        Some(index)
    }
}
