//! Sets of bytes, and the iterators over their members and their maximal runs.
ghost use Rattle.std.specs.Prelude.{◌≡◌, ℕ, ◌+◌, ◌-◌, ◌*◌, ◌%◌, ◌≤◌, ◌↔◌, ◌==◌, ◌&&◌, ◌||◌, not, nat_le, IsTrue, ◌<◌, true, false, length, All};
ghost use Rattle.std.specs.FinSet as sets;
ghost use Rattle.std.specs.Iterator.{YieldsFirst, item_count};
ghost use Rattle.rsc_alphabet.specs.ByteSets.{members, runs, begins_run, ends_run};
ghost use Rattle.rsc_primitives.specs.Bits.{has_bit};
ghost use Rattle.rsc_alphabet.specs.Partitions.{class_of};

use crate::ascending::Ascending;
use crate::masks::{
    difference, either, has_bit, has_bits, joined, lower_block, ones, ones_below, shifted_left,
    shifted_right, upper_block, with_bit, within, without_bit,
};
use std::marker::{Model, PhantomData};

/// A set of bytes.
///
/// A contract sees it as the finite set of its members.
///
/// # Examples
///
/// ```
/// let mut set = ByteSet::empty();
/// set.add(b'a');
/// set.add(b'b');
/// set.add(b'x');
/// assert!(rt; set.contains(b'b') && set.contains_range(b'a', b'b') && !set.contains(b'c'));
/// ```
#[derive(Clone, Copy, Debug)]
pub struct ByteSet {
    // Bit b stands for the byte b.
    low: u128,
    // Bit b stands for the byte b + 128.
    high: u128,
}

impl Model for ByteSet {
    ghost use Rattle.std.specs.Prelude.{ℕ, ◌+◌, ◌^◌, ◌<◌};
    ghost use Rattle.std.specs.FinSet as sets;
    ghost use Rattle.std.specs.Coded.{coded_ℕ};
    ghost use Rattle.rsc_alphabet.specs.ByteSets.{Numbers};
    ghost use Rattle.rsc_primitives.specs.Bits.{mask_of};
    ghost use Rattle.rsc_alphabet.specs.ByteSetLayout.{masked};

    ghost Value = { Numbers };

    ghost coded = { sets.code coded_ℕ };

    ghost view = { λ s. masked s.low s.high };

    ghost invariant = { λ s. (s.low < 2 ^ 128) × (s.high < 2 ^ 128) };

    ghost inverse = { λ s. record {
      low = mask_of (sets.contains s) 128;
      high = mask_of (λ b. sets.contains s (b + 128)) 128;
    } };

    ghost use Rattle.rsc_alphabet.specs.ByteSetsLaws.{low_again, high_again};

    ghost inverse_ok = { λ s h i. record { low = low_again s.low s.high h.0 h.1 i; high = high_again s.low s.high h.1 i } };
}

impl PartialEq for ByteSet {
    ghost use Rattle.std.specs.Cmp.{nat_cmp_total};
    ghost use Rattle.std.specs.FinSet.{nat_cmp-IsAntisymmetric};
    ghost use Rattle.rsc_alphabet.specs.SameMembers.{same_members, same_members_partial};

    ghost eq = { same_members };

    ghost laws = { same_members_partial nat_cmp_total nat_cmp-IsAntisymmetric };

    #[tactic(auto, using(crate::proofs::ByteSetLayoutLemmas::same_masks, std::proofs::lemmas::Bool::Decides::nat_tests))]
    fn eq(&self, other: &Self) -> bool {
        self.low == other.low && self.high == other.high
    }
}

impl Eq for ByteSet {
    ghost use Rattle.std.specs.Cmp.{nat_cmp_total};
    ghost use Rattle.std.specs.FinSet.{nat_cmp-IsAntisymmetric};
    ghost use Rattle.rsc_alphabet.specs.SameMembers.{same_members_equiv};

    ghost laws = { same_members_equiv nat_cmp_total nat_cmp-IsAntisymmetric };
}

impl Default for ByteSet {
    ghost use Rattle.std.specs.Prelude.{◌≡◌};
    ghost use Rattle.std.specs.FinSet as sets;

    ghost is_default = { λ s. s ≡ sets.empty };

    fn default() -> Self {
        Self::empty()
    }
}

#[tactic(auto, using(crate::proofs::ByteSetLayoutLemmas::contains_masked, crate::proofs::ByteSetLayoutLemmas::bit_at_zero, std::proofs::lemmas::Bool::Decides::nat_tests))]
impl ByteSet {
    /// The set with no member.
    #[tactic(auto, using(crate::proofs::ByteSetLayoutLemmas::masked_none, crate::proofs::ByteSetLayoutLemmas::contains_masked, crate::proofs::ByteSetLayoutLemmas::bit_at_zero, std::proofs::lemmas::Bool::Decides::nat_tests))]
    #[inline]
    pub fn empty() -> Self
        ensures value { result ≡ sets.empty }
        ensures members { (b : ℕ) → sets.contains result b ≡ false }
    {
        ByteSet { low: 0, high: 0 }
    }

    /// Adds a byte.
    #[inline]
    pub fn add(&mut self, byte: u8)
        ensures value { self.new ≡ sets.insert self.old byte }
        ensures members { (b : ℕ) → sets.contains self.new b ≡ (b == byte || sets.contains self.old b) }
    {
        if byte < 128 {
            self.low = with_bit(self.low, byte);
        } else {
            self.high = with_bit(self.high, byte - 128);
        }
    }

    /// Removes a byte from the set.
    #[inline]
    pub fn remove(&mut self, byte: u8)
        ensures value { self.new ≡ sets.remove self.old byte }
        ensures members { (b : ℕ) → sets.contains self.new b ≡ (not (b == byte) && sets.contains self.old b) }
    {
        if byte < 128 {
            self.low = without_bit(self.low, byte);
        } else {
            self.high = without_bit(self.high, byte - 128);
        }
    }

    /// Whether a byte is a member.
    #[inline]
    pub fn contains(&self, byte: u8) -> bool
        ensures value { result ≡ sets.contains self.now byte }
        ensures most { (b : ℕ) → sets.contains self.now b ≡ true → b < 256 }
    {
        has_bit(self.mask_with(byte), byte % 128)
    }

    /// Whether all bytes from `start` to `end` are members, both included. True if `start` is above `end`.
    pub fn contains_range(&self, start: u8, end: u8) -> bool
        ensures { IsTrue result ↔ ((b : ℕ) → start ≤ b → b ≤ end → sets.contains self.now b ≡ true) }
    {
        if start > end {
            true
        } else if end < 128 {
            has_bits(self.low, start, end)
        } else if start >= 128 {
            has_bits(self.high, start - 128, end - 128)
        } else {
            has_bits(self.low, start, 127) && has_bits(self.high, 0, end - 128)
        }
    }

    /// Whether no byte is a member.
    #[tactic(auto, using(crate::proofs::ByteSetLayoutLemmas::no_masks, std::proofs::lemmas::Bool::Decides::nat_tests))]
    pub fn is_empty(&self) -> bool
        ensures { IsTrue result ↔ (self.now ≡ sets.empty) }
    {
        self.low == 0 && self.high == 0
    }

    /// The members, ascending.
    #[tactic(auto, using(crate::proofs::ByteSetsLemmas::members_contained, crate::proofs::IteratorsLemmas::length_filter_range))]
    #[inline]
    pub fn iter(&self) -> ByteSetIter<'_>
        ensures value { result ≡ members self.now }
        ensures contained { All (λ b. sets.contains self.now b ≡ true) result }
        ensures most { length result ≤ 256 }
    {
        ByteSetIter {
            left: Ascending::new(*self),
            set: PhantomData,
        }
    }

    /// The maximal runs of consecutive members, ascending, each by its first and its last byte.
    ///
    /// # Examples
    ///
    /// ```
    /// let mut set = ByteSet::empty();
    /// set.add(b'a');
    /// set.add(b'b');
    /// set.add(b'x');
    /// let mut runs = set.iter_ranges();
    /// assert!(rt; runs.next() == Some((b'a', b'b')));
    /// assert!(rt; runs.next() == Some((b'x', b'x')));
    /// assert!(rt; runs.next() == None);
    /// ```
    #[inline]
    pub fn iter_ranges(&self) -> ByteSetRangeIter<'_>
        ensures value { result ≡ runs self.now }
        ensures order { All (λ r. r.0 ≤ r.1) result }
    {
        ByteSetRangeIter {
            starts: Ascending::new(self.run_starts()),
            ends: Ascending::new(self.run_ends()),
            set: PhantomData,
        }
    }

    // How many members are below a byte.
    #[inline]
    pub(crate) fn count_below(&self, byte: u8) -> u8
        ensures value { result ≡ class_of (sets.contains self.now) byte }
        ensures most { (b : ℕ) → sets.contains self.now b ≡ true → b < 256 }
    {
        if byte < 128 {
            ones_below(self.low, byte)
        } else {
            ones(self.low) + ones_below(self.high, byte - 128)
        }
    }

    // The set whose blocks, as `ByteSet::block` gives them, are these.
    #[inline(always)]
    pub(crate) fn from_blocks(first: u64, second: u64, third: u64, fourth: u64) -> ByteSet
        ensures first { (i : ℕ) → i < 64 → sets.contains result i ≡ has_bit first i }
        ensures second { (i : ℕ) → i < 64 → sets.contains result (64 + i) ≡ has_bit second i }
        ensures third { (i : ℕ) → i < 64 → sets.contains result (128 + i) ≡ has_bit third i }
        ensures fourth { (i : ℕ) → i < 64 → sets.contains result (192 + i) ≡ has_bit fourth i }
    {
        ByteSet {
            low: joined(first, second),
            high: joined(third, fourth),
        }
    }

    // The members from `start` to `end`, both included.
    #[inline]
    pub(crate) fn between(&self, start: u8, end: u8) -> ByteSet
        requires { start ≤ end }
        ensures { (b : ℕ) → sets.contains result b ≡ (nat_le start b && nat_le b end && sets.contains self.now b) }
    {
        if end < 128 {
            return ByteSet {
                low: within(self.low, start, end),
                high: 0,
            };
        }
        if start >= 128 {
            return ByteSet {
                low: 0,
                high: within(self.high, start - 128, end - 128),
            };
        }
        ByteSet {
            low: within(self.low, start, 127),
            high: within(self.high, 0, end - 128),
        }
    }

    // The members of either set.
    #[inline]
    pub(crate) fn union(&self, other: &ByteSet) -> ByteSet
        ensures members { (b : ℕ) → sets.contains result b ≡ (sets.contains self.now b || sets.contains other.now b) }
        ensures most { (b : ℕ) → sets.contains result b ≡ true → b < 256 }
    {
        ByteSet {
            low: either(self.low, other.low),
            high: either(self.high, other.high),
        }
    }

    // The bytes whose successor is a member.
    #[inline]
    pub(crate) fn predecessors(&self) -> ByteSet
        ensures { (b : ℕ) → sets.contains result b ≡ sets.contains self.now (b + 1) }
    {
        ByteSet {
            low: shifted_right(self.low, self.high),
            high: shifted_right(self.high, 0),
        }
    }

    // The bytes whose predecessor is a member.
    #[inline(always)]
    fn successors(&self) -> ByteSet
        ensures { (b : ℕ) → b < 256 → sets.contains result b ≡ (not (b == 0) && sets.contains self.now (b - 1)) }
    {
        ByteSet {
            low: shifted_left(self.low, 0),
            high: shifted_left(self.high, self.low),
        }
    }

    // The members that aren't members of the other set.
    #[inline(always)]
    fn subtract(&self, other: &ByteSet) -> ByteSet
        ensures members { (b : ℕ) → sets.contains result b ≡ (sets.contains self.now b && not (sets.contains other.now b)) }
        ensures most { (b : ℕ) → sets.contains self.now b ≡ true → b < 256 }
    {
        ByteSet {
            low: difference(self.low, other.low),
            high: difference(self.high, other.high),
        }
    }

    // The members that have no predecessor among the members.
    #[inline]
    pub(crate) fn run_starts(&self) -> ByteSet
        ensures { (b : ℕ) → sets.contains result b ≡ begins_run self.now b }
    {
        self.subtract(&self.successors())
    }

    // The members that have no successor among the members.
    #[inline]
    pub(crate) fn run_ends(&self) -> ByteSet
        ensures { (b : ℕ) → sets.contains result b ≡ ends_run self.now b }
    {
        self.subtract(&self.predecessors())
    }

    // The number that has a byte's bit.
    #[inline(always)]
    fn mask_with(&self, byte: u8) -> u128
        ensures value { has_bit result (byte % 128) ≡ sets.contains self.now byte }
        ensures most { (b : ℕ) → sets.contains self.now b ≡ true → b < 256 }
    {
        if byte < 128 { self.low } else { self.high }
    }

    // The bits of the 64 bytes from 64 * `number` on.
    #[inline]
    pub(crate) fn block(&self, number: u8) -> u64
        requires { number < 4 }
        ensures bits { (i : ℕ) → i < 64 → has_bit result i ≡ sets.contains self.now (64 * number + i) }
        ensures most { (b : ℕ) → sets.contains self.now b ≡ true → b < 256 }
    {
        match number {
            0 => lower_block(self.low),
            1 => upper_block(self.low),
            2 => lower_block(self.high),
            _ => upper_block(self.high),
        }
    }
}

/// The iterator over a set's members, made by [`ByteSet::iter`]. A contract sees it as the list of what is left.
#[derive(Debug, Drop)]
pub struct ByteSetIter<'a> {
    left: Ascending,
    set: PhantomData<&'a ByteSet>,
}

impl<'a> Model for ByteSetIter<'a> {
    ghost use Rattle.std.specs.Prelude.{ℕ, List};

    ghost Value = { List ℕ };

    ghost view = { λ it. it.left };
}

impl<'a> Iterator for ByteSetIter<'a> {
    type Item = u8;

    ghost next_gives = { YieldsFirst (λ rest. rest) };

    ghost remaining = { item_count (λ rest. rest) };

    #[inline]
    fn next(&mut self) -> Option<u8> {
        self.left.next()
    }
}

/// The iterator over a set's maximal runs, made by [`ByteSet::iter_ranges`]. A contract sees it as the list of what is left.
#[derive(Debug, Drop)]
pub struct ByteSetRangeIter<'a> {
    starts: Ascending,
    ends: Ascending,
    set: PhantomData<&'a ByteSet>,
}

impl<'a> Model for ByteSetRangeIter<'a> {
    ghost use Rattle.std.specs.Prelude.{ℕ, List};
    ghost use Rattle.std.specs.List.{zip};

    ghost Value = { List (ℕ × ℕ) };

    ghost view = { λ it. zip it.starts it.ends };
}

impl<'a> Iterator for ByteSetRangeIter<'a> {
    type Item = (u8, u8);

    ghost next_gives = { YieldsFirst (λ rest. rest) };

    ghost remaining = { item_count (λ rest. rest) };

    #[tactic(auto, using(crate::proofs::ByteSetsLemmas::zip_none))]
    #[inline]
    fn next(&mut self) -> Option<(u8, u8)> {
        let start = self.starts.next()?;
        let end = self.ends.next()?;
        Some((start, end))
    }
}
