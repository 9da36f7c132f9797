//! The groups of all patterns, and the slots of their offsets.
ghost use Rattle.std.specs.Prelude.{◌≡◌, ℕ, ◌+◌, ◌-◌, ◌*◌, ◌<◌, ◌≤◌, ◌↔◌, length, ⊤, [], Some, None, IfOk, IfErr, IfSome, OnOk, MatchOption, MatchResult};
ghost use Rattle.std.specs.Option.{option_copied};
ghost use Rattle.rsc_captures.specs.Groups.{lists_in, groups_of, group_count, name_of, index_of, slot_of, slots_of, all_group_count};
ghost use Rattle.rsc_primitives.specs.Indices.{max_index};
ghost use Rattle.rsc_captures.specs.Faults.{IsFaultless, IsRefusal};
ghost use Rattle.rsc_captures.specs.FaultsLayout.{HasNoOtherFault};
ghost use Rattle.rsc_captures.specs.NameIterators.{all_names_of};
ghost use Rattle.rsc_captures.specs.SlotOwners.{IsSlotOf, IsOwned};
ghost use Rattle.rsc_captures.specs.SharedListsLayout.{AreOrdered};
ghost use Rattle.rsc_captures.specs.RepeatsLayout.{HasNoRepeatBefore, IsFirstRepeatBefore};

use crate::error::{GroupInfoError, duplicate};
use crate::faults::first_other_fault;
use crate::name_iterators::{GroupInfoAllNames, GroupInfoPatternNames};
use crate::names::NameList;
use crate::order::add_order;
use crate::repeats::{first_repeat_before, repeat_in_order, repeated};
use crate::shared_lists::{SharedLists, firsts_of, hints_of};
use rsc_primitives::PatternID;
use std::alloc::{AllocError, Allocator, Global};
use std::marker::Model;
use std::sync::Arc;

// How many slots there may be at most: the greatest index is no number of a slot.
const SLOT_LIMIT: usize = PatternID::LIMIT - 1;

/// Which capturing groups the patterns of a search have, with their names, and which slots hold a group's offsets.
///
/// The first group of each pattern, group 0, stands for its whole match, and has no name; the slots of these groups come before
/// all others. A group's offsets are in a slot and the next. A contract sees a group info as the list of its patterns,
/// each the list of its groups' names. A clone shares its memory.
///
/// # Examples
///
/// ```
/// let info = GroupInfo::new(
///     rt.alloc(),
///     &[&[None, Some("y")], &[None, Some("d"), Some("m")]],
/// )?;
/// // The slots of both whole matches come first.
/// assert!(rt; info.slots(PatternID::must(0), 1) == Some((4, 5)));
/// assert!(rt; info.to_index(PatternID::must(1), "m") == Some(2));
/// assert!(rt; info.to_name(PatternID::must(1), 1) == Some("d"));
/// ```
#[derive_where(Debug)]
pub struct GroupInfo<A: Allocator = Global> {
    inner: Arc<SharedLists<A>, A>,
}

// Written out, so that a caller's proof has one step where a group info is dropped.
impl<A: Allocator> Drop for GroupInfo<A> {
    fn drop(self) {
        let GroupInfo { inner: _ } = self;
    }
}

impl<A: Allocator> Model for GroupInfo<A> {
    ghost use Rattle.rsc_captures.specs.Groups.{GroupLists};

    ghost Value = { GroupLists };

    ghost view = { λ a. a.inner.value };
}

impl<A: Allocator + Clone + Drop> GroupInfo<A> {
    /// The groups of these lists: one list for each pattern, with an optional name for each of its groups.
    ///
    /// # Errors
    ///
    /// The first fault of the lists, which are read by pattern and then by group: too many patterns, a pattern without
    /// groups, a first group with a name, too many groups, a name that a lesser group of its pattern has. Last comes a pattern
    /// whose groups, after the first groups of all patterns, have no slots left. If memory runs out the kind is
    /// [`OutOfMemory`](crate::GroupInfoErrorKind::OutOfMemory); a list whose first fault is no repeated name takes none.
    ///
    /// # Cost
    ///
    /// Names are sorted, pattern by pattern, and each is looked up in their order by binary search. The names of a list with any other
    /// fault are sorted in batches, each in a table on the stack, and a batch's names and those after it are looked up there.
    pub fn new(alloc: A, lists: &[&[Option<&str>]]) -> Result<GroupInfo<A>, GroupInfoError<A>>
        ensures made { IfOk result (λ info. info ≡ lists_in lists.now) }
        ensures faultless { OnOk result (IsFaultless max_index (lists_in lists.now)) }
        ensures refused { IfErr result (IsRefusal max_index (lists_in lists.now)) }
    {
        GroupInfo::new_limited(alloc, SLOT_LIMIT, lists)
    }

    /// The groups of these lists, as by [`GroupInfo::new`], where at most `limit` slots are allowed instead of 2147483646; the limit itself
    /// may be no greater than that. The original lacks it.
    ///
    /// A pattern has too many groups where twice the explicit groups read so far is above the limit, or where its slots
    /// are, once those of the first groups are counted too. The greatest number of a pattern stays as it is.
    ///
    /// # Errors
    ///
    /// As for [`GroupInfo::new`].
    ///
    /// # Examples
    ///
    /// ```
    /// // Three groups, so six slots.
    /// assert!(rt; GroupInfo::new_limited(rt.alloc(), 6, &[&[None], &[None, None]]).is_ok());
    /// assert!(rt; GroupInfo::new_limited(rt.alloc(), 5, &[&[None], &[None, None]]).is_err());
    /// ```
    pub fn new_limited(
        alloc: A,
        limit: usize,
        lists: &[&[Option<&str>]],
    ) -> Result<GroupInfo<A>, GroupInfoError<A>>
        requires { limit ≤ max_index }
        ensures made { IfOk result (λ info. info ≡ lists_in lists.now) }
        ensures faultless { OnOk result (IsFaultless limit (lists_in lists.now)) }
        ensures refused { IfErr result (IsRefusal limit (lists_in lists.now)) }
    {
        let Some((group, other)) = first_other_fault(limit, lists) else {
            return build(alloc, lists);
        };
        match first_repeat_before(lists, group) {
            Some(repeat) => Err(duplicate(alloc, repeat)),
            None => Err(other),
        }
    }

    /// The group info of no patterns.
    ///
    /// # Errors
    ///
    /// If memory runs out.
    pub fn empty(alloc: A) -> Result<GroupInfo<A>, GroupInfoError<A>>
        ensures made { IfOk result (λ info. info ≡ []) }
        ensures refused { IfErr result (λ e. e ≡ None) }
    {
        GroupInfo::new(alloc, &[])
    }

    /// The names of a pattern's groups in order, `None` for a group without one; nothing where there is no such pattern.
    ///
    /// # Examples
    ///
    /// ```
    /// let info = GroupInfo::new(rt.alloc(), &[&[None, Some("x")]])?;
    /// let mut names = info.pattern_names(PatternID::ZERO);
    /// assert!(rt; names.next() == Some(None));
    /// assert!(rt; names.next() == Some(Some("x")));
    /// assert!(rt; names.next() == None);
    /// ```
    #[inline]
    pub fn pattern_names(&self, pid: PatternID) -> GroupInfoPatternNames<'_, A>
        ensures { result ≡ groups_of self.now pid }
    {
        GroupInfoPatternNames::new(self.lists(), pid.as_usize())
    }

    /// All groups by pattern and then by group, each with its pattern, its number and its name, if it has one.
    #[tactic(auto, using(crate::proofs::NameIteratorsLemmas::names_counted))]
    #[inline]
    pub fn all_names(&self) -> GroupInfoAllNames<'_, A>
        ensures value { result ≡ all_names_of self.now }
        ensures count { length result ≡ all_group_count self.now }
        ensures most { 2 * length result ≤ max_index }
    {
        GroupInfoAllNames::new(self.lists())
    }

    /// A clone, which shares the memory with its source.
    ///
    /// # Errors
    ///
    /// Where one more owner is refused; the source stays as it is.
    pub fn clone(&self) -> Result<GroupInfo<A>, AllocError>
        ensures { IfOk result (λ copy. copy ≡ self.now) }
    {
        Ok(GroupInfo {
            inner: self.inner.clone()?,
        })
    }

    /// How many patterns there are.
    #[inline]
    pub fn pattern_len(&self) -> usize
        ensures value { result ≡ length self.now }
        ensures most { result ≤ max_index + 1 }
    {
        self.lists().len()
    }

    /// How many groups a pattern has: none where there is no such pattern.
    #[tactic(auto, using(crate::proofs::FaultsLemmas::some_group))]
    #[inline]
    pub fn group_len(&self, pid: PatternID) -> usize
        ensures value { result ≡ group_count self.now pid }
        ensures some_group { pid < length self.now → 0 < result }
    {
        self.lists().group_len(pid.as_usize())
    }

    /// The name of a group, or `None` where it has none, or where there is no such group.
    #[inline]
    pub fn to_name(&self, pid: PatternID, group_index: usize) -> Option<&str>
        ensures { option_copied result ≡ name_of self.now pid group_index }
    {
        self.lists().name(pid.as_usize(), group_index)
    }

    /// The group of a pattern that has the name, or `None` where no group has it. Names are local to each pattern.
    #[inline]
    pub fn to_index(&self, pid: PatternID, name: &str) -> Option<usize>
        ensures value { result ≡ index_of (groups_of self.now pid) name.now }
        ensures named { (g : ℕ) → (result ≡ Some g) ↔ (name_of self.now pid g ≡ Some name.now) }
        ensures within { IfSome result (λ g. g < group_count self.now pid) }
    {
        self.lists().index(pid.as_usize(), name)
    }

    /// The slot of a group's start, or `None` where there is no such group.
    #[inline]
    pub fn slot(&self, pid: PatternID, group_index: usize) -> Option<usize>
        ensures value { result ≡ slot_of self.now pid group_index }
        ensures within { IfSome result (λ slot. slot + 1 < 2 * all_group_count self.now) }
    {
        self.lists().slot(pid.as_usize(), group_index)
    }

    /// The slots of a group's start and of its end, or `None` where there is no such group.
    #[inline]
    pub fn slots(&self, pid: PatternID, group_index: usize) -> Option<(usize, usize)>
        ensures value { result ≡ slots_of self.now pid group_index }
        ensures within { IfSome result (λ slots. slots.1 < 2 * all_group_count self.now) }
    {
        let slot = self.slot(pid, group_index)?;
        Some((slot, slot + 1))
    }

    /// How many slots there are: two for each group. Each of them is a slot of exactly one group.
    #[tactic(auto, using(crate::proofs::SlotOwnersLemmas::each_owned))]
    #[inline]
    pub fn slot_len(&self) -> usize
        ensures value { result ≡ 2 * all_group_count self.now }
        ensures most { result ≤ max_index }
        ensures owned { (s : ℕ) → s < result → IsOwned self.now s }
        ensures one_owner { (s p g q h : ℕ) → IsSlotOf self.now p g s → IsSlotOf self.now q h s → (p ≡ q) × (g ≡ h) }
    {
        2 * self.lists().all_group_len()
    }

    /// How many groups all patterns have.
    #[inline]
    pub fn all_group_len(&self) -> usize
        ensures { result ≡ all_group_count self.now }
    {
        self.lists().all_group_len()
    }

    /// How many slots the first groups have: two for each pattern. They come before all others.
    #[tactic(auto, using(crate::proofs::NamesLayoutLemmas::all_groups_are))]
    #[inline]
    pub fn implicit_slot_len(&self) -> usize
        ensures value { result ≡ 2 * length self.now }
        ensures within { result ≤ 2 * all_group_count self.now }
    {
        2 * self.lists().len()
    }

    /// How many slots all other groups have.
    #[tactic(auto, using(crate::proofs::NamesLayoutLemmas::all_groups_are))]
    #[inline]
    pub fn explicit_slot_len(&self) -> usize
        ensures { result ≡ 2 * all_group_count self.now - 2 * length self.now }
    {
        let lists = self.lists();
        2 * (lists.all_group_len() - lists.len())
    }

    // The lists that all clones share.
    #[inline]
    fn lists(&self) -> &SharedLists<A>
        ensures { result.now ≡ self.now }
    {
        &self.inner
    }
}

// Holds the groups of a list that has no fault but repeated names.
fn build<A: Allocator + Clone + Drop>(
    alloc: A,
    lists: &[&[Option<&str>]],
) -> Result<GroupInfo<A>, GroupInfoError<A>>
    requires { HasNoOtherFault max_index (lists_in lists.now) }
    ensures ok { IfOk result (λ info. info ≡ lists_in lists.now) }
    ensures distinct { OnOk result (HasNoRepeatBefore (lists_in lists.now) (length lists.now) 0) }
    ensures refused { IfErr result (λ e. MatchOption e ⊤ (IsFirstRepeatBefore (lists_in lists.now) (length lists.now) 0)) }
{
    let names = NameList::new(alloc.clone()?, lists)?;
    let order = order_of(alloc.clone()?, lists, names.len())?;
    let firsts = firsts_of(alloc.clone()?, lists)?;
    let hints = hints_of(alloc.clone()?, lists)?;
    let inner = SharedLists {
        names,
        order,
        firsts,
        hints,
    };
    Ok(GroupInfo {
        inner: Arc::new(alloc, inner)?,
    })
}

// The groups of each pattern in the order of their names, where no name is repeated.
fn order_of<A: Allocator + Clone + Drop>(
    alloc: A,
    lists: &[&[Option<&str>]],
    len: usize,
) -> Result<Vec<u32, A>, GroupInfoError<A>>
    requires { HasNoOtherFault max_index (lists_in lists.now) }
    ensures ok { IfOk result (λ order. AreOrdered order.items (lists_in lists.now) (length lists.now)) }
    ensures distinct { OnOk result (HasNoRepeatBefore (lists_in lists.now) (length lists.now) 0) }
    ensures refused { IfErr result (λ e. MatchOption e ⊤ (IsFirstRepeatBefore (lists_in lists.now) (length lists.now) 0)) }
{
    let mut order: Vec<u32, A> = Vec::with_capacity(alloc.clone()?, len)?;
    for p in 0..lists.len() {
        let groups = lists[p];
        let first = order.len();
        add_order(&mut order, groups)?;
        let g = repeat_in_order(groups, &order.as_slice()[first..]);
        if g < groups.len() {
            return Err(duplicate(alloc, repeated(lists, p, g)));
        }
    }
    Ok(order)
}
