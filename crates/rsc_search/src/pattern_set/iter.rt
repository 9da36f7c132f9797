//! The iterator over the members of a set, from both ends.
ghost use Rattle.std.specs.Prelude.{◌≡◌, length, IfSome, Some};
ghost use Rattle.std.specs.Iterator.{YieldsFirst, YieldsLast, item_count, UpTo, at_most};
ghost use Rattle.std.specs.Iterator.SizeHint.{IsWithinCount};

use crate::blocks::{BITS, first_from, highest, last_until, without_highest, without_lowest};
use rsc_primitives::PatternID;
use std::marker::Model;

/// The iterator over a set's members, made by [`crate::PatternSet::iter`]. A contract sees it as the list of what is left:
/// `next` takes the first and `next_back` the last, so each comes once however they are mixed.
///
/// # Examples
///
/// ```
/// let mut set = PatternSet::new(rt.alloc(), 8)?;
/// set.insert(PatternID::must(5));
/// set.insert(PatternID::must(2));
/// let mut patterns = set.iter();
/// assert!(rt; patterns.next_back() == Some(PatternID::must(5)));
/// assert!(rt; patterns.next() == Some(PatternID::must(2)));
/// assert!(rt; patterns.len() == 0);
/// ```
#[derive(Clone, Debug, Drop)]
pub struct PatternSetIter<'a> {
    pub(super) blocks: &'a [u64],
    // Each end has the number of its block, and the bits of it that this end hasn't given yet. Where both have one block, what the
    // other end has given is still in them: the count of the members that are left says when to stop.
    pub(super) front_index: usize,
    pub(super) front: u64,
    pub(super) back_index: usize,
    pub(super) back: u64,
    pub(super) left: usize,
}

impl<'a> Model for PatternSetIter<'a> {
    ghost use Rattle.std.specs.Prelude.{ℕ, List};
    ghost use Rattle.rsc_search.specs.PatternSetLayout.{left_between, IsBetween};

    ghost Value = { List ℕ };

    ghost view = { λ it. left_between it.blocks.now it.front_index it.front it.back_index it.back };

    ghost invariant = { λ it. IsBetween it.blocks.now it.front_index it.front it.back_index it.back it.left };
}

impl<'a> PatternSetIter<'a> {
    /// How many members are left.
    #[inline]
    pub fn len(&self) -> usize
        ensures { result ≡ length self.now }
    {
        self.left
    }
}

impl<'a> Iterator for PatternSetIter<'a> {
    type Item = PatternID;

    ghost next_gives = { YieldsFirst (λ rest. rest) };

    ghost remaining = { item_count (λ rest. rest) };

    #[inline]
    fn next(&mut self) -> Option<PatternID> {
        if self.left == 0 {
            return None;
        }
        let (index, block) = first_from(self.blocks, self.front_index, self.front);
        let p = BITS * index + block.trailing_zeros() as usize;
        self.front_index = index;
        self.front = without_lowest(block);
        self.left -= 1;
        Some(PatternID::must(p))
    }

    #[inline]
    fn size_hint(&self) -> (usize, Option<usize>)
        ensures lower { IsWithinCount result.0 (at_most (length self.now)) }
        ensures upper { IfSome result.1 (UpTo (at_most (length self.now))) }
        ensures value { result ≡ (length self.now, Some (length self.now)) }
    {
        let left = self.len();
        (left, Some(left))
    }
}

impl<'a> DoubleEndedIterator for PatternSetIter<'a> {
    ghost next_back_gives = { YieldsLast (λ rest. rest) };

    #[inline]
    fn next_back(&mut self) -> Option<PatternID> {
        if self.left == 0 {
            return None;
        }
        let (index, block) = last_until(self.blocks, self.back_index, self.back);
        let p = BITS * index + highest(block);
        self.back_index = index;
        self.back = without_highest(block);
        self.left -= 1;
        Some(PatternID::must(p))
    }
}
