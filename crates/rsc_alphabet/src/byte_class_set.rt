//! Partitions of the bytes into intervals, and the class maps that they make.
ghost use Rattle.std.specs.Prelude.{◌≡◌, ℕ, ◌+◌, ◌<◌, ◌≤◌, ◌↔◌, ◌==◌, ◌&&◌, ◌||◌, nat_lt, true, false, IsTrue, All, slice_index};
ghost use Rattle.std.specs.FinSet as sets;
ghost use Rattle.rsc_alphabet.specs.ByteSets.{runs};
ghost use Rattle.rsc_alphabet.specs.Partitions.{LastClassIsGreatest, is_boundary_of_set, class_map, boundaries_of_range, boundaries_of_ranges};
ghost use Rattle.rsc_alphabet.specs.Ranges.{are_alike, has_boundary};

use crate::{ByteClasses, ByteSet};
use std::marker::Model;

/// A partition of the bytes into intervals: the bytes that an automaton tells apart, gathered range by range.
///
/// A contract sees it as the finite set of its boundaries, numbers from 0 to 254.
/// The boundary `b` separates the byte `b` from the byte `b + 1`.
///
/// # Examples
///
/// ```
/// let mut partition = ByteClassSet::empty();
/// partition.set_range(b'a', b'z');
/// let classes = partition.byte_classes();
/// assert!(rt; classes.get(b'A') == 0 && classes.get(b'a') == 1 && classes.get(b'z') == 1);
/// assert!(rt; classes.get(b'{') == 2);
/// ```
#[derive(Clone, Debug, Drop)]
pub struct ByteClassSet {
    // The last bytes of the intervals; the byte 255, which ends the last one, may be among them.
    ends: ByteSet,
}

impl Model for ByteClassSet {
    ghost use Rattle.std.specs.FinSet as sets;
    ghost use Rattle.std.specs.Coded.{coded_ℕ};
    ghost use Rattle.rsc_alphabet.specs.ByteSets.{Numbers};

    ghost Value = { Numbers };

    ghost coded = { sets.code coded_ℕ };

    ghost view = { λ s. sets.remove s.ends 255 };
}

impl Default for ByteClassSet {
    ghost use Rattle.std.specs.Prelude.{◌≡◌};
    ghost use Rattle.std.specs.FinSet as sets;

    ghost is_default = { λ s. s ≡ sets.empty };

    fn default() -> Self {
        Self::empty()
    }
}

impl ByteClassSet {
    /// The partition with no boundary: all bytes are together.
    #[tactic(auto, using(crate::proofs::PartitionsLemmas::no_boundaries))]
    #[inline]
    pub fn empty() -> Self
        ensures value { result ≡ sets.empty }
        ensures members { (k : ℕ) → sets.contains result k ≡ false }
    {
        ByteClassSet {
            ends: ByteSet::empty(),
        }
    }

    /// Separates the bytes from `start` to `end`, both included, from all others: adds the boundaries `start - 1` and
    /// `end`, where there is a byte on the other side. Needs `start` to be at most `end`.
    #[inline]
    pub fn set_range(&mut self, start: u8, end: u8)
        requires { start ≤ end }
        ensures value { self.new ≡ sets.union self.old (boundaries_of_range (start, end)) }
        ensures members { (k : ℕ) →
            sets.contains self.new k ≡ (sets.contains self.old k || (k + 1 == start || (k == end && nat_lt end 255))) }
    {
        if start > 0 {
            self.ends.add(start - 1);
        }
        self.ends.add(end);
    }

    /// Separates each maximal run of a set's members from all other bytes, as by [`ByteClassSet::set_range`] of each.
    ///
    /// # Examples
    ///
    /// ```
    /// let mut letters = ByteSet::empty();
    /// letters.add(b'a');
    /// letters.add(b'b');
    /// let mut partition = ByteClassSet::empty();
    /// partition.add_set(&letters);
    /// let classes = partition.byte_classes();
    /// assert!(rt; classes.get(b'a') == classes.get(b'b') && classes.get(b'b') != classes.get(b'c'));
    /// ```
    pub fn add_set(&mut self, set: &ByteSet)
        ensures value { self.new ≡ sets.union self.old (boundaries_of_ranges (runs set.now)) }
        ensures members { (k : ℕ) → sets.contains self.new k ≡ (sets.contains self.old k || is_boundary_of_set set.now k) }
    {
        self.add_boundaries(&set.run_starts(), &set.run_ends());
    }

    /// Adds the boundaries of another partition: two bytes are together after it if they were, and are in the other one too. The original lacks it.
    ///
    /// # Examples
    ///
    /// ```
    /// let mut lower = ByteClassSet::empty();
    /// lower.set_range(b'a', b'z');
    /// let mut digits = ByteClassSet::empty();
    /// digits.set_range(b'0', b'9');
    /// lower.union(&digits);
    /// let classes = lower.byte_classes();
    /// assert!(rt; classes.get(b'0') != classes.get(b'A') && classes.get(b'A') != classes.get(b'a'));
    /// ```
    #[inline]
    pub fn union(&mut self, other: &ByteClassSet)
        ensures value { self.new ≡ sets.union self.old other.now }
        ensures members { (k : ℕ) → sets.contains self.new k ≡ (sets.contains self.old k || sets.contains other.now k) }
    {
        self.ends = self.ends.union(&other.ends);
    }

    // Adds the boundary before each of `starts`, and the one after each of `ends`, where there is a byte on the other side.
    #[inline]
    fn add_boundaries(&mut self, starts: &ByteSet, ends: &ByteSet)
        ensures { (k : ℕ) → sets.contains self.new k
            ≡ (sets.contains self.old k || (nat_lt k 255 && (sets.contains starts.now (k + 1) || sets.contains ends.now k))) }
    {
        self.ends = self.ends.union(&starts.predecessors()).union(ends);
    }

    /// The class map of the partition: the class of a byte is the number of boundaries below it.
    ///
    /// Classes are intervals: two bytes that are in the same ranges have different classes if a byte between them isn't.
    pub fn byte_classes(&self) -> ByteClasses
        ensures value { result ≡ class_map (sets.contains self.now) }
        ensures most { (k : ℕ) → sets.contains self.now k ≡ true → k < 255 }
        ensures bounded { LastClassIsGreatest result }
    {
        // Each class is counted by itself: there is no running number.
        let mut classes = ByteClasses::empty();
        for byte in 0..=255u8 {
            classes.set(byte, self.ends.count_below(byte));
        }
        classes
    }
}

/// The classes after each range was separated from all other bytes, as by [`ByteClassSet::set_range`] of each. The original lacks it.
///
/// Two bytes have one class exactly if each range holds all bytes from the one to the other, or none of them.
/// Needs the first byte of each pair to be at most the second.
///
/// # Examples
///
/// ```
/// let classes = classes_of_ranges(&[(b'a', b'z'), (b'q', b'q')]);
/// assert!(rt; classes.get(b'a') == classes.get(b'p') && classes.get(b'p') != classes.get(b'q'));
/// // Both are in the first range alone, but `q` is between them.
/// assert!(rt; classes.get(b'p') != classes.get(b'r'));
/// ```
pub fn classes_of_ranges(ranges: &[(u8, u8)]) -> ByteClasses
    requires { All (λ r. r.0 ≤ r.1) ranges.now }
    ensures value { result ≡ class_map (has_boundary ranges.now) }
    ensures alike { (b c : ℕ) → b < 256 → c < 256 →
        (slice_index result b ≡ slice_index result c) ↔ IsTrue (are_alike ranges.now b c) }
    ensures bounded { LastClassIsGreatest result }
{
    let mut partition = ByteClassSet::empty();
    for &(start, end) in ranges {
        partition.set_range(start, end);
    }
    partition.byte_classes()
}
