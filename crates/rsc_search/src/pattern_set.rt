//! Sets of patterns.
//!
//! A set is held as one bit for each number below its capacity. The original has a list of `bool`s: a block answers for 64 of
//! them at once, where a set is cleared, compared, or gone through.
ghost use Rattle.std.specs.Prelude.{◌≡◌, ℕ, ◌-◌, ◌<◌, ◌≤◌, ◌↔◌, ◌+◌, if◌then◌else◌, true, false, not, All, length, IsTrue, IsOk, IfOk, IfErr, IfSome, OnOk, OnErr, Some};
ghost use Rattle.std.specs.List.Sorted.{IsStrictlyIncreasing};
ghost use Rattle.rsc_search.specs.PatternSets.{PatternSetParts, IsPatternSet, no_patterns, has_member, with_member};

mod error;
mod iter;

use crate::blocks::{BITS, block_at, clear_all, have_same_bits, is_bit_set, with_bit};
pub use error::PatternSetInsertError;
pub use iter::PatternSetIter;
use rsc_primitives::PatternID;
use std::alloc::{AllocError, Allocator, Global};
use std::marker::Model;

/// A set of patterns, each below a capacity that is chosen once.
///
/// A contract sees it as its capacity and its members, ascending.
///
/// # Examples
///
/// ```
/// let mut set = PatternSet::new(rt.alloc(), 3)?;
/// assert!(rt; set.insert(PatternID::must(2)));
/// assert!(rt; !set.insert(PatternID::must(2)));
/// assert!(rt; set.try_insert(PatternID::must(3)).is_err());
/// assert!(rt; set.contains(PatternID::must(2)) && set.len() == 1);
/// ```
#[derive(Debug, Drop)]
pub struct PatternSet<A: Allocator = Global> {
    // Pattern `p` is a member where bit `p % 64` of block `p / 64` is set.
    blocks: Vec<u64, A>,
    capacity: usize,
    count: usize,
}

impl<A: Allocator> Model for PatternSet<A> {
    ghost use Rattle.rsc_search.specs.PatternSets.{PatternSetParts};
    ghost use Rattle.rsc_search.specs.PatternSetLayout.{patterns_held, IsPacked};

    ghost Value = { PatternSetParts };

    ghost view = { λ s. patterns_held s.capacity s.blocks.items };

    ghost invariant = { λ s. IsPacked s.capacity s.blocks.items s.count };
}

impl<A: Allocator> PatternSet<A> {
    /// The set with no member and that capacity, which is at most [`PatternID::LIMIT`]. All the room that it will ever need is taken here.
    ///
    /// # Errors
    ///
    /// `AllocError` only if memory runs out.
    pub fn new(alloc: A, capacity: usize) -> Result<PatternSet<A>, AllocError>
        requires { capacity ≤ PatternID.LIMIT }
        ensures { IfOk result (λ set. set ≡ no_patterns capacity) }
    {
        Ok(PatternSet {
            blocks: vec![in alloc; 0; capacity.div_ceil(BITS)]?,
            capacity,
            count: 0,
        })
    }

    /// Removes all members. The capacity stays.
    pub fn clear(&mut self)
        ensures { self.new ≡ no_patterns self.old.capacity }
    {
        clear_all(self.blocks.as_mut_slice());
        self.count = 0;
    }

    /// Whether a pattern is a member. One at or above the capacity never is.
    #[inline]
    pub fn contains(&self, pid: PatternID) -> bool
        ensures value { result ≡ has_member self.now.members pid }
        ensures within { IsTrue result → pid < self.now.capacity }
        ensures lawful { IsPatternSet self.now }
    {
        let p = pid.as_usize();
        is_bit_set(block_at(self.blocks.as_slice(), p / BITS), p % BITS)
    }

    /// Makes a pattern below the capacity a member, and says whether it is new.
    #[inline]
    pub fn insert(&mut self, pid: PatternID) -> bool
        requires { pid < self.old.capacity }
        ensures value { self.new ≡ with_member self.old pid }
        ensures added { result ≡ not (has_member self.old.members pid) }
        ensures count { length self.new.members ≡ (if result then length self.old.members + 1 else length self.old.members) }
        ensures within { length self.new.members ≤ self.new.capacity }
    {
        let p = pid.as_usize();
        let block = self.blocks[p / BITS];
        let more = with_bit(block, p % BITS);
        if more == block {
            return false;
        }
        self.blocks[p / BITS] = more;
        self.count += 1;
        true
    }

    /// Makes a pattern a member if it is below the capacity, and says whether it is new.
    ///
    /// # Errors
    ///
    /// A pattern at or above the capacity is refused, and the set is as before.
    #[inline]
    pub fn try_insert(&mut self, pid: PatternID) -> Result<bool, PatternSetInsertError>
        ensures accepted { IsOk result ↔ (pid < self.old.capacity) }
        ensures value { OnOk result (self.new ≡ with_member self.old pid) }
        ensures added { IfOk result (λ new. new ≡ not (has_member self.old.members pid)) }
        ensures count { IfOk result (λ new. length self.new.members ≡ (if new then length self.old.members + 1 else length self.old.members)) }
        ensures within { length self.new.members ≤ self.new.capacity }
        ensures kept { OnErr result (self.new ≡ self.old) }
        ensures refused { IfErr result (λ e. e ≡ record { attempted = pid; capacity = self.old.capacity }) }
    {
        let capacity = self.capacity();
        if pid.as_usize() < capacity {
            Ok(self.insert(pid))
        } else {
            Err(PatternSetInsertError {
                attempted: pid,
                capacity,
            })
        }
    }

    /// Whether there is no member.
    #[inline]
    #[tactic(auto, using(crate::proofs::PatternSetLayoutLemmas::is_set_below))]
    pub fn is_empty(&self) -> bool
        ensures value { IsTrue result ↔ (length self.now.members ≡ 0) }
        ensures lawful { IsPatternSet self.now }
    {
        self.count == 0
    }

    /// Whether each pattern below the capacity is a member: there are as many members as the capacity says.
    #[inline]
    #[tactic(auto, using(crate::proofs::PatternSetLayoutLemmas::is_set_below))]
    pub fn is_full(&self) -> bool
        ensures value { IsTrue result ↔ (length self.now.members ≡ self.now.capacity) }
        ensures lawful { IsPatternSet self.now }
    {
        self.count == self.capacity
    }

    /// How many members there are.
    #[inline]
    pub fn len(&self) -> usize
        ensures value { result ≡ length self.now.members }
        ensures within { result ≤ self.now.capacity }
        ensures lawful { IsPatternSet self.now }
    {
        self.count
    }

    /// The capacity: a member is below it.
    #[inline]
    #[tactic(auto, using(crate::proofs::PatternSetLayoutLemmas::is_set_below))]
    pub fn capacity(&self) -> usize
        ensures value { result ≡ self.now.capacity }
        ensures most { result ≤ PatternID.LIMIT }
        ensures lawful { IsPatternSet self.now }
    {
        self.capacity
    }

    /// The members, ascending; from the back, descending.
    #[inline]
    pub fn iter(&self) -> PatternSetIter<'_>
        ensures value { result ≡ self.now.members }
        ensures ascending { IsStrictlyIncreasing result }
        ensures within { All (λ p. p < self.now.capacity) result }
        ensures contained { All (λ p. has_member self.now.members p ≡ true) result }
        ensures lawful { IsPatternSet self.now }
    {
        let blocks = self.blocks.as_slice();
        let last = blocks.len().saturating_sub(1);
        PatternSetIter {
            blocks,
            front_index: 0,
            front: block_at(blocks, 0),
            back_index: last,
            back: block_at(blocks, last),
            left: self.count,
        }
    }
}

impl<A: Allocator + Clone + Drop> PatternSet<A> {
    /// A set of its own with this capacity and these members.
    ///
    /// # Errors
    ///
    /// `AllocError` only if memory runs out; this set is as before then.
    pub fn clone(&self) -> Result<PatternSet<A>, AllocError>
        ensures { IfOk result (λ set. set ≡ self.now) }
    {
        Ok(PatternSet {
            blocks: self.blocks.clone()?,
            capacity: self.capacity,
            count: self.count,
        })
    }
}

impl<A: Allocator> PartialEq for PatternSet<A> {
    ghost use Rattle.rsc_search.specs.PatternSets.{same_patterns};
    ghost use Rattle.rsc_search.specs.PatternSetsLaws.{same_patterns_partial};

    ghost eq = { same_patterns };

    ghost laws = { same_patterns_partial };

    fn eq(&self, other: &Self) -> bool {
        self.capacity == other.capacity
            && have_same_bits(self.blocks.as_slice(), other.blocks.as_slice())
    }
}

impl<A: Allocator> Eq for PatternSet<A> {
    ghost use Rattle.rsc_search.specs.PatternSetsLaws.{same_patterns_equiv};

    ghost laws = { same_patterns_equiv };
}
