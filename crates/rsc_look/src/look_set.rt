//! Sets of assertions.
ghost use Rattle.std.specs.Prelude.{◌≡◌, ◌↔◌, ◌^◌, ◌<◌, ◌≤◌, ◌&&◌, ◌||◌, true, false, not, [], ◌∷◌, Some, IsTrue, IsOk, IsNone, MatchOption, length};
ghost use Rattle.std.specs.List.{All};
ghost use Rattle.std.specs.FinSet as sets;
ghost use Rattle.rsc_look.specs.declared.assertion.Look.{Look};
ghost use Rattle.rsc_look.specs.Looks.{every_look};
ghost use Rattle.rsc_look.specs.LookSets.{Looks, members, bits_of};
ghost use Rattle.rsc_look.specs.LookSetLayout.{has_look};

mod iter;
mod kinds;

use crate::{Look, UnicodeWordBoundaryError};
pub use iter::LookSetIter;
use std::fmt;
use std::marker::Model;

// The bits of all eighteen assertions.
const ALL_BITS: u32 = (1 << 18) - 1;

/// A set of assertions, held as eighteen bits.
///
/// A contract sees it as the finite set of its members.
///
/// # Examples
///
/// ```
/// let set = LookSet::singleton(Look::Start).insert(Look::WordUnicode);
/// assert!(rt; set.len() == 2 && set.contains(Look::Start));
/// assert!(rt; set.contains_word_unicode() && !set.contains_anchor_line());
/// assert!(rt; LookSet::from_bits(set.bits()) == Some(set));
/// ```
#[derive(Clone, Copy)]
pub struct LookSet {
    bits: u32,
}

impl Model for LookSet {
    ghost use Rattle.std.specs.Prelude.{◌^◌, ◌<◌};
    ghost use Rattle.std.specs.FinSet as sets;
    ghost use Rattle.rsc_look.specs.LookSets.{Looks, bits_of};
    ghost use Rattle.rsc_look.specs.LookSetLayout.{looks_of, look_code};
    ghost use Rattle.rsc_look.specs.LookSetLaws.{bits_of-looks_of};

    ghost Value = { Looks };

    ghost coded = { sets.code look_code };

    ghost view = { λ s. looks_of s.bits };

    ghost invariant = { λ s. s.bits < 2 ^ 18 };

    ghost inverse = { λ s. record { bits = bits_of s } };

    ghost inverse_ok = { λ s h i. record { bits = bits_of-looks_of s.bits h i } };
}

impl PartialEq for LookSet {
    ghost use Rattle.rsc_alphabet.specs.SameMembers.{same_members, same_members_partial};
    ghost use Rattle.rsc_look.specs.LookSetLaws.{look_cmp_total, look_cmp-IsAntisymmetric};

    ghost eq = { same_members };

    ghost laws = { same_members_partial look_cmp_total look_cmp-IsAntisymmetric };

    #[tactic(auto, using(crate::proofs::LookSetLayoutLemmas::same_by_bits))]
    fn eq(&self, other: &Self) -> bool {
        self.bits == other.bits
    }
}

impl Eq for LookSet {
    ghost use Rattle.rsc_alphabet.specs.SameMembers.{same_members_equiv};
    ghost use Rattle.rsc_look.specs.LookSetLaws.{look_cmp_total, look_cmp-IsAntisymmetric};

    ghost laws = { same_members_equiv look_cmp_total look_cmp-IsAntisymmetric };
}

impl Default for LookSet {
    ghost use Rattle.std.specs.Prelude.{◌≡◌};
    ghost use Rattle.std.specs.FinSet as sets;

    ghost is_default = { λ s. s ≡ sets.empty };

    fn default() -> Self {
        Self::empty()
    }
}

impl fmt::Debug for LookSet {
    ghost use Rattle.std.specs.Prelude.{Some};
    ghost use Rattle.rsc_look.specs.LookSets.{members, looks_text};

    ghost debug_output = { λ s. Some (looks_text (members s)) };

    fn fmt<W: fmt::Write>(&self, f: &mut fmt::Formatter<W>) -> fmt::Result {
        if self.is_empty() {
            return f.write_char('∅');
        }
        let mut looks = self.iter();
        while let Some(look) = looks.next() {
            f.write_char(look.as_char())?;
        }
        Ok(())
    }
}

impl LookSet {
    /// The set with no member.
    #[tactic(auto, using(crate::proofs::LookSetLayoutLemmas::looks_of_none, crate::proofs::LookSetLayoutLemmas::contains_looks_of))]
    #[inline]
    pub fn empty() -> LookSet
        ensures value { result ≡ sets.empty }
        ensures members { (look : Look) → sets.contains result look ≡ false }
    {
        LookSet { bits: 0 }
    }

    /// The set of all eighteen assertions.
    #[inline]
    pub fn full() -> LookSet
        ensures value { result ≡ sets.from_list every_look }
        ensures members { (look : Look) → sets.contains result look ≡ true }
    {
        LookSet { bits: ALL_BITS }
    }

    /// The set with one member.
    #[inline]
    pub fn singleton(look: Look) -> LookSet
        ensures value { result ≡ sets.insert sets.empty look }
        ensures member { sets.contains result look ≡ true }
        ensures others { (other : Look) → ¬ (other ≡ look) → sets.contains result other ≡ false }
    {
        LookSet::empty().insert(look)
    }

    /// The set of the assertions that a number's bits stand for, by [`Look::as_repr`], or `None` if a bit above the
    /// eighteenth is set.
    #[tactic(auto, using(crate::proofs::LookSetLayoutLemmas::some_exact))]
    #[inline]
    pub fn from_bits(bits: u32) -> Option<LookSet>
        ensures value { (set : Looks) → (result ≡ Some set) ↔ (bits_of set ≡ bits) }
        ensures none { IsNone result ↔ (2 ^ 18 ≤ bits) }
    {
        if bits <= ALL_BITS {
            Some(LookSet { bits })
        } else {
            None
        }
    }

    // The set of a number's bits, of which none is above the eighteenth.
    #[tactic(auto, using(crate::proofs::LookSetLayoutLemmas::contains_looks_of))]
    #[inline(always)]
    pub(crate) fn of_bits(bits: u32) -> LookSet
        requires { bits < 2 ^ 18 }
        ensures { (look : Look) → sets.contains result look ≡ has_look bits look }
    {
        LookSet { bits }
    }

    /// The sum of the numbers of the members, by [`Look::as_repr`].
    #[inline]
    pub fn bits(self) -> u32
        ensures value { result ≡ bits_of self }
        ensures most { result < 2 ^ 18 }
    {
        self.bits
    }

    /// How many members there are.
    #[tactic(auto, using(crate::proofs::LookSetLayoutLemmas::count_by_bits, crate::proofs::LookSetLayoutLemmas::ones_le))]
    #[inline]
    pub fn len(self) -> usize
        ensures value { result ≡ length (members self) }
        ensures most { result ≤ 18 }
    {
        self.bits.count_ones() as usize
    }

    /// Whether there is no member.
    #[tactic(auto, using(crate::proofs::LookSetLayoutLemmas::none_by_bits))]
    #[inline]
    pub fn is_empty(self) -> bool
        ensures { IsTrue result ↔ (self ≡ sets.empty) }
    {
        self.bits == 0
    }

    /// Whether an assertion is a member.
    #[tactic(auto, using(crate::proofs::LookSetLayoutLemmas::contains_by_and))]
    #[inline]
    pub fn contains(self, look: Look) -> bool
        ensures { result ≡ sets.contains self look }
    {
        self.bits & look.as_repr() != 0
    }

    /// Whether each member is a member of another set too. The original lacks it.
    ///
    /// With [`LookMatcher::holding`](crate::LookMatcher::holding) it tells whether all of them hold at a position.
    ///
    /// # Examples
    ///
    /// ```
    /// let matcher = LookMatcher::new(UnicodeWord);
    /// let line = LookSet::singleton(Look::StartLF).insert(Look::EndLF);
    /// assert!(rt; line.is_subset_of(matcher.holding(b"a\n\nb", 2)));
    /// assert!(rt; !line.is_subset_of(matcher.holding(b"a\n\nb", 1)));
    /// ```
    #[inline]
    pub fn is_subset_of(self, other: LookSet) -> bool
        ensures { IsTrue result ↔ ((look : Look) → sets.contains self look ≡ true → sets.contains other look ≡ true) }
    {
        self.subtract(other).is_empty()
    }

    /// The members, by ascending number.
    #[inline]
    pub fn iter(self) -> LookSetIter
        ensures value { result ≡ members self }
        ensures contained { All (λ look. sets.contains self look ≡ true) result }
        ensures most { length result ≤ 18 }
    {
        LookSetIter { set: self }
    }

    /// The set with an assertion added.
    #[tactic(auto, using(crate::proofs::LookSetLayoutLemmas::looks_of_insert, crate::proofs::LookSetLayoutLemmas::union_fits, crate::proofs::LookSetLayoutLemmas::repr_of_lt, crate::proofs::LookSetsLemmas::grown_by, crate::proofs::LookSetsLemmas::grown_apart))]
    #[inline]
    pub fn insert(self, look: Look) -> LookSet
        ensures value { result ≡ sets.insert self look }
        ensures member { sets.contains result look ≡ true }
        ensures others { (other : Look) → ¬ (other ≡ look) → sets.contains result other ≡ sets.contains self other }
    {
        LookSet {
            bits: self.bits | look.as_repr(),
        }
    }

    /// Adds an assertion.
    #[inline]
    pub fn set_insert(&mut self, look: Look)
        ensures value { self.new ≡ sets.insert self.old look }
        ensures member { sets.contains self.new look ≡ true }
        ensures others { (other : Look) → ¬ (other ≡ look) → sets.contains self.new other ≡ sets.contains self.old other }
    {
        *self = self.insert(look);
    }

    /// The set without an assertion.
    #[tactic(auto, using(crate::proofs::LookSetLayoutLemmas::looks_of_remove, crate::proofs::LookSetsLemmas::shrunk_by, crate::proofs::LookSetsLemmas::shrunk_apart))]
    #[inline]
    pub fn remove(self, look: Look) -> LookSet
        ensures value { result ≡ sets.remove self look }
        ensures member { sets.contains result look ≡ false }
        ensures others { (other : Look) → ¬ (other ≡ look) → sets.contains result other ≡ sets.contains self other }
    {
        LookSet {
            bits: self.bits & !look.as_repr(),
        }
    }

    /// Removes an assertion from the set.
    #[inline]
    pub fn set_remove(&mut self, look: Look)
        ensures value { self.new ≡ sets.remove self.old look }
        ensures member { sets.contains self.new look ≡ false }
        ensures others { (other : Look) → ¬ (other ≡ look) → sets.contains self.new other ≡ sets.contains self.old other }
    {
        *self = self.remove(look);
    }

    /// The members that aren't members of another set.
    #[tactic(auto, using(crate::proofs::LookSetLayoutLemmas::looks_of_difference, crate::proofs::LookSetLayoutLemmas::contains_looks_of, crate::proofs::LookSetLayoutLemmas::has_look_and, crate::proofs::LookSetLayoutLemmas::has_look_not))]
    #[inline]
    pub fn subtract(self, other: LookSet) -> LookSet
        ensures value { result ≡ sets.difference self other }
        ensures members { (look : Look) → sets.contains result look ≡ (sets.contains self look && not (sets.contains other look)) }
    {
        LookSet {
            bits: self.bits & !other.bits,
        }
    }

    /// Removes another set's members.
    #[inline]
    pub fn set_subtract(&mut self, other: LookSet)
        ensures value { self.new ≡ sets.difference self.old other }
        ensures members { (look : Look) → sets.contains self.new look ≡ (sets.contains self.old look && not (sets.contains other look)) }
    {
        *self = self.subtract(other);
    }

    /// The members of either set.
    #[tactic(auto, using(crate::proofs::LookSetLayoutLemmas::looks_of_union, crate::proofs::LookSetLayoutLemmas::contains_looks_of, crate::proofs::LookSetLayoutLemmas::has_look_or, crate::proofs::LookSetLayoutLemmas::union_fits))]
    #[inline]
    pub fn union(self, other: LookSet) -> LookSet
        ensures value { result ≡ sets.union self other }
        ensures members { (look : Look) → sets.contains result look ≡ (sets.contains self look || sets.contains other look) }
    {
        LookSet {
            bits: self.bits | other.bits,
        }
    }

    /// Adds the members of another set.
    #[inline]
    pub fn set_union(&mut self, other: LookSet)
        ensures value { self.new ≡ sets.union self.old other }
        ensures members { (look : Look) → sets.contains self.new look ≡ (sets.contains self.old look || sets.contains other look) }
    {
        *self = self.union(other);
    }

    /// The common members of both sets.
    #[tactic(auto, using(crate::proofs::LookSetLayoutLemmas::looks_of_intersection, crate::proofs::LookSetLayoutLemmas::contains_looks_of, crate::proofs::LookSetLayoutLemmas::has_look_and))]
    #[inline]
    pub fn intersect(self, other: LookSet) -> LookSet
        ensures value { result ≡ sets.intersection self other }
        ensures members { (look : Look) → sets.contains result look ≡ (sets.contains self look && sets.contains other look) }
    {
        LookSet {
            bits: self.bits & other.bits,
        }
    }

    /// Keeps the members that are members of another set too.
    #[inline]
    pub fn set_intersect(&mut self, other: LookSet)
        ensures value { self.new ≡ sets.intersection self.old other }
        ensures members { (look : Look) → sets.contains self.new look ≡ (sets.contains self.old look && sets.contains other look) }
    {
        *self = self.intersect(other);
    }

    /// Always `Ok`: the tables of word characters are there.
    ///
    /// # Errors
    ///
    /// None: the original returns one if it is built without the tables.
    pub fn available(self) -> Result<(), UnicodeWordBoundaryError>
        ensures { IsOk result }
    {
        if self.contains_word_unicode() {
            UnicodeWordBoundaryError::check()
        } else {
            Ok(())
        }
    }

    // The first member, of the lowest bit, and the set without it. The bit is taken out as it is, and not by the member's
    // number, which would be a jump for each member.
    #[inline]
    fn first_member_and_rest(self) -> Option<(Look, LookSet)>
        ensures { MatchOption result (members self ≡ []) (λ found. members self ≡ found.0 ∷ members found.1) }
    {
        if self.bits == 0 {
            return None;
        }
        let bit = 1 << self.bits.trailing_zeros();
        let look = Look::from_repr(bit)?;
        let rest = LookSet {
            bits: self.bits & !bit,
        };
        Some((look, rest))
    }
}
