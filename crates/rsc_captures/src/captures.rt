//! The offsets of a match's groups.
ghost use Rattle.std.specs.Prelude.{◌≡◌, ◌↔◌, ℕ, List, Option, ◌+◌, ◌*◌, ◌<◌, ◌≤◌, ◌∷◌, [], map, length, replicate, Some, None, IfOk, IfSome, IsTrue, is_some, option_and_then};
ghost use Rattle.std.specs.Option.{option_map, ForSome};
ghost use Rattle.std.specs.Borrow.{sem};
ghost use Rattle.rsc_search.specs.declared.span.Span.{Span};
ghost use Rattle.rsc_captures.specs.Groups.{all_group_count, slots_of};
ghost use Rattle.rsc_captures.specs.Captured.{Captured, unset_captures, span_at, group_span, slot_present, with_span, FitsSlots, matched_group_count, matched_spans, named_span, match_of};

use crate::group_info::GroupInfo;
use crate::pairs::Pairs;
use crate::span_iterator::CapturesPatternIter;
use rsc_primitives::{NonMaxUsize, PatternID};
use rsc_search::{Match, Span};
use std::alloc::{AllocError, Allocator, Global};
use std::fmt;
use std::marker::Model;

/// The offsets of the groups of a match, if there is a match.
///
/// A search fills the slots and sets the pattern. Only [`Captures::get_match`] requires something of what is in the slots.
/// A contract sees captures as the groups, the pattern and the offset of each slot, if it is set. How many slots there are
/// never changes.
///
/// # Examples
///
/// ```
/// let info = GroupInfo::new(rt.alloc(), &[&[None, Some("x"), None]])?;
/// let mut captures = Captures::all(rt.alloc(), info)?;
/// captures.set_pattern(Some(PatternID::ZERO));
/// for (slot, offset) in [(0, 0), (1, 3), (2, 1), (3, 2)] {
///     if slot < captures.slots().len() {
///         captures.slots_mut()[slot] = NonMaxUsize::new(offset);
///     }
/// }
/// assert!(rt; captures.get_group_by_name("x") == Some(Span { start: 1, end: 2 }));
/// // The slots of the last group aren't set.
/// assert!(rt; captures.get_group(2) == None);
/// ```
pub struct Captures<A: Allocator = Global> {
    group_info: GroupInfo<A>,
    pid: Option<PatternID>,
    slots: Vec<Option<NonMaxUsize>, A>,
    // Those of the pattern that matched.
    pairs: Pairs,
}

// Written out, so that a caller's proof has one step where captures are dropped.
impl<A: Allocator> Drop for Captures<A> {
    fn drop(self) {
        let Captures {
            group_info: _,
            pid: _,
            slots: _,
            pairs: _,
        } = self;
    }
}

impl<A: Allocator> Model for Captures<A> {
    ghost use Rattle.std.specs.Prelude.{◌*◌, ◌≤◌, length};
    ghost use Rattle.rsc_captures.specs.Groups.{all_group_count};
    ghost use Rattle.rsc_captures.specs.Captured.{Captured};
    ghost use Rattle.rsc_captures.specs.PairsLayout.{ArePairs};

    ghost Value = { Captured };

    ghost view = { λ c. record { groups = c.group_info; pattern = c.pid; offsets = c.slots.items } };

    ghost invariant = { λ c. (length c.slots.items ≤ 2 * all_group_count c.group_info)
        × ArePairs c.group_info c.pid (length c.slots.items) c.pairs.count c.pairs.first c.pairs.rest };
}

impl<A: Allocator + Clone + Drop> Captures<A> {
    ghost use Rattle.rsc_captures.specs.Lending.{LendsSlots};

    // Captures with that many slots, none of them set.
    fn with_slots(
        alloc: A,
        group_info: GroupInfo<A>,
        count: usize,
    ) -> Result<Captures<A>, AllocError>
        requires { count ≤ 2 * all_group_count group_info }
        ensures { IfOk result (λ c. c ≡ unset_captures group_info count) }
    {
        Ok(Captures {
            group_info,
            pid: None,
            slots: vec![in alloc; None; count]?,
            pairs: Pairs::none(),
        })
    }

    /// Captures with room for all groups, with no pattern and no offset.
    ///
    /// # Errors
    ///
    /// If memory runs out; the group info is dropped then.
    pub fn all(alloc: A, group_info: GroupInfo<A>) -> Result<Captures<A>, AllocError>
        ensures { IfOk result (λ c. c ≡ unset_captures group_info (2 * all_group_count group_info)) }
    {
        let count = group_info.slot_len();
        Captures::with_slots(alloc, group_info, count)
    }

    /// Captures with room for the first group of each pattern, which stands for the whole match, with no pattern and no
    /// offset.
    ///
    /// # Errors
    ///
    /// If memory runs out; the group info is dropped then.
    pub fn matches(alloc: A, group_info: GroupInfo<A>) -> Result<Captures<A>, AllocError>
        ensures { IfOk result (λ c. c ≡ unset_captures group_info (2 * length group_info)) }
    {
        let count = group_info.implicit_slot_len();
        Captures::with_slots(alloc, group_info, count)
    }

    /// Captures with no slots: they can say which pattern matched, and no more. Takes no memory, and is always `Ok`.
    pub fn empty(alloc: A, group_info: GroupInfo<A>) -> Result<Captures<A>, AllocError>
        ensures { result ≡ Ok (unset_captures group_info 0) }
    {
        Ok(Captures {
            group_info,
            pid: None,
            slots: Vec::new(alloc),
            pairs: Pairs::none(),
        })
    }

    /// A clone: the offsets in memory of their own, the group info shared.
    ///
    /// # Errors
    ///
    /// If memory runs out; the source stays as it is.
    pub fn clone(&self) -> Result<Captures<A>, AllocError>
        ensures { IfOk result (λ copy. copy ≡ self.now) }
    {
        let group_info = self.group_info.clone()?;
        let slots = Vec::from_slice(self.slots.allocator().clone()?, self.slots.as_slice())?;
        Ok(Captures {
            group_info,
            pid: self.pid,
            slots,
            pairs: self.pairs,
        })
    }

    /// Whether a pattern matched.
    #[inline]
    pub fn is_match(&self) -> bool
        ensures { result ≡ is_some self.now.pattern }
    {
        self.pid.is_some()
    }

    /// The pattern that matched, if there is one.
    #[inline]
    pub fn pattern(&self) -> Option<PatternID>
        ensures { result ≡ self.now.pattern }
    {
        self.pid
    }

    /// Its groups.
    #[inline]
    pub fn group_info(&self) -> &GroupInfo<A>
        ensures { result.now ≡ self.now.groups }
    {
        // No wrong body: nothing else of its type is at hand.
        &self.group_info
    }

    /// The offset in each slot, if it is set.
    #[inline]
    pub fn slots(&self) -> &[Option<NonMaxUsize>]
        ensures { result.now ≡ self.now.offsets }
    {
        self.slots.as_slice()
    }

    /// The slots, lent for writing. What is last written stays; the number of slots does too.
    #[inline]
    pub fn slots_mut(&mut self) -> &mut [Option<NonMaxUsize>]
        ensures* writes_back { sem 𝓛 (LendsSlots A.row A.Allocator self.entry result) }
        ensures value { result.now ≡ self.old.offsets }
    {
        self.slots.as_mut_slice()
    }

    /// Takes the pattern and all offsets away.
    pub fn clear(&mut self)
        ensures { self.new ≡ unset_captures self.old.groups (length self.old.offsets) }
    {
        self.pid = None;
        self.pairs.clear();
        unset_all(self.slots.as_mut_slice());
    }

    /// Sets the pattern that matched. Any pattern will do, also one that the groups don't have.
    #[inline]
    pub fn set_pattern(&mut self, pid: Option<PatternID>)
        ensures { self.new ≡ record self.old { pattern = pid } }
    {
        self.pid = pid;
        self.pairs = Pairs::of(&self.group_info, self.pid, self.slots.len());
    }

    /// Sets or clears the span of a group of the pattern that matched, and returns whether it did. The spans of all other groups stay.
    /// The original lacks it.
    ///
    /// It does nothing where no pattern is set, where not both slots of the group are here, or where an offset is `usize::MAX`,
    /// which no slot holds.
    ///
    /// # Examples
    ///
    /// ```
    /// assert!(rt; captures.set_group(2, Some(Span { start: 2, end: 3 })));
    /// assert!(rt; captures.get_group(2) == Some(Span { start: 2, end: 3 }));
    /// assert!(rt; captures.set_group(2, None) && captures.get_group(2) == None);
    /// // There is no group 3, and so no slot for its span.
    /// assert!(rt; !captures.set_group(3, Some(Span { start: 2, end: 3 })));
    /// ```
    #[inline]
    pub fn set_group(&mut self, index: usize, span: Option<Span>) -> bool
        ensures accepted { IsTrue result ↔ (IsTrue (is_some (slot_present self.old index)) × ForSome span FitsSlots) }
        ensures value { IsTrue result →
            ForSome (slot_present self.old index) (λ slot. self.new ≡ record self.old { offsets = with_span self.old.offsets slot span }) }
        ensures kept { ¬ (IsTrue result) → self.new ≡ self.old }
        ensures span { IsTrue result → group_span self.new index ≡ span }
        ensures others { (other : ℕ) → ¬ (other ≡ index) → group_span self.new other ≡ group_span self.old other }
    {
        self.write_group(index, span)
    }

    // `set_group`, with what it writes.
    #[tactic(auto, using(crate::proofs::PairsLayoutLemmas::here))]
    #[inline]
    fn write_group(&mut self, index: usize, span: Option<Span>) -> bool
        ensures accepted { IsTrue result ↔ (IsTrue (is_some (slot_present self.old index)) × ForSome span FitsSlots) }
        ensures value { IsTrue result →
            ForSome (slot_present self.old index) (λ slot. self.new ≡ record self.old { offsets = with_span self.old.offsets slot span }) }
        ensures kept { ¬ (IsTrue result) → self.new ≡ self.old }
    {
        match self.pairs.slot(index) {
            None => false,
            Some(slot) => match offsets_of(span) {
                None => false,
                Some((start, end)) => {
                    let slots = self.slots.as_mut_slice();
                    slots[slot] = start;
                    slots[slot + 1] = end;
                    true
                }
            },
        }
    }

    /// The pattern that matched with the span of the whole match, or `None` where either is missing. Needs the span, where
    /// there is one, to have its start at most its end.
    #[inline]
    pub fn get_match(&self) -> Option<Match>
        requires { ForSome (group_span self.now 0) (λ s. s.start ≤ s.end) }
        ensures { result ≡ match_of self.now }
    {
        let pid = self.pid?;
        let span = self.get_group(0)?;
        Some(Match::new(pid, span))
    }

    /// How many groups the pattern that matched has; 0 without one, or if it is unknown.
    #[inline]
    pub fn group_len(&self) -> usize
        ensures { result ≡ matched_group_count self.now }
    {
        match self.pid {
            Some(pid) => self.group_info.group_len(pid),
            None => 0,
        }
    }

    /// The span of a group, if a pattern matched and both slots of the group are there and set. Where there is one pattern,
    /// the slots of group i are 2i and 2i + 1, whichever pattern is set; else they are those of the pattern that matched.
    #[inline]
    pub fn get_group(&self, index: usize) -> Option<Span>
        ensures value { result ≡ group_span self.now index }
        ensures one_pattern { length self.now.groups ≡ 1 → self.now.pattern ≡ Some 0 →
            result ≡ option_and_then (λ slots. span_at self.now.offsets slots.0) (slots_of self.now.groups 0 index) }
    {
        self.group_span(index)
    }

    // `get_group`, with the one exact clause.
    #[tactic(auto, using(crate::proofs::PairsLayoutLemmas::span_here, crate::proofs::PairsLayoutLemmas::here))]
    #[inline]
    fn group_span(&self, index: usize) -> Option<Span>
        ensures value { result ≡ group_span self.now index }
        ensures room { length self.now.offsets ≤ 2 * all_group_count self.now.groups }
    {
        let slots = self.slots.as_slice();
        let slot = self.pairs.slot(index)?;
        span_at(slots, slot)
    }

    /// The span of the group that has the name in the pattern that matched.
    #[inline]
    pub fn get_group_by_name(&self, name: &str) -> Option<Span>
        ensures { result ≡ named_span self.now name.now }
    {
        let pid = self.pid?;
        let index = self.group_info.to_index(pid, name)?;
        self.get_group(index)
    }

    /// The span of each group of the pattern that matched, in order, or `None` for one that isn't set.
    #[tactic(auto, using(crate::proofs::CapturedLemmas::spans_counted))]
    #[inline]
    pub fn iter(&self) -> CapturesPatternIter<'_, A>
        ensures value { result ≡ matched_spans self.now }
        ensures count { length result ≡ matched_group_count self.now }
    {
        CapturesPatternIter {
            captures: self,
            next_group: 0,
        }
    }
}

impl<A: Allocator + Clone + Drop> fmt::Debug for Captures<A> {
    fn fmt<W: fmt::Write>(&self, f: &mut fmt::Formatter<W>) -> fmt::Result {
        let Some(pid) = self.pid else {
            return f.write_str("Captures { pid: None }");
        };
        write!(f, "Captures {{ pid: Some({pid:?}), spans: {{")?;
        for group in 0..self.group_len() {
            if group > 0 {
                f.write_str(", ")?;
            }
            write!(f, "{group}")?;
            if let Some(name) = self.group_info.to_name(pid, group) {
                write!(f, "/{name:?}")?;
            }
            match self.get_group(group) {
                Some(span) => write!(f, ": {span:?}")?,
                None => f.write_str(": None")?,
            }
        }
        f.write_str("} }")
    }
}

// The span whose offsets are in a slot and the next.
#[inline]
fn span_at(slots: &[Option<NonMaxUsize>], slot: usize) -> Option<Span>
    requires { slot + 1 < length slots.now }
    ensures { result ≡ span_at slots.now slot }
{
    let start = slots[slot]?.get();
    let end = slots[slot + 1]?.get();
    Some(Span { start, end })
}

// The offsets of a span as slots hold them, or `None` where one is `usize::MAX`.
#[inline]
fn offsets_of(span: Option<Span>) -> Option<(Option<NonMaxUsize>, Option<NonMaxUsize>)>
    ensures fits { IsTrue (is_some result) ↔ ForSome span FitsSlots }
    ensures offsets { IfSome result (λ o. (o.0 ≡ option_map (λ s. s.start) span) × (o.1 ≡ option_map (λ s. s.end) span)) }
{
    match span {
        None => Some((None, None)),
        Some(span) => {
            let start = NonMaxUsize::new(span.start)?;
            let end = NonMaxUsize::new(span.end)?;
            Some((Some(start), Some(end)))
        }
    }
}

// Makes each slot `None`. `fill` writes the last one apart, which takes longer where they are few.
#[inline]
fn unset_all(slots: &mut [Option<NonMaxUsize>])
    ensures { slots.new ≡ replicate (length slots.old) None }
{
    for slot in 0..slots.len() {
        slots[slot] = None;
    }
}
