//! The groups of all patterns, as they are held: their names in one list, and where each pattern's begin there.
//!
//! A name is looked for among few groups one by one. Otherwise its hash leads to a few entries of a table, and each of these hints at a
//! group: where that group has the name, it is the one. Nothing depends on the hints, so no contract speaks of them.
//! Where none has the name, a binary search in the order of the pattern's names decides.
ghost use Rattle.std.specs.Prelude.{◌≡◌, ◌*◌, ◌<◌, ◌≤◌, length, IfOk, IfSome, Some};
ghost use Rattle.std.specs.Option.{option_copied};
ghost use Rattle.rsc_captures.specs.Groups.{lists_in, groups_of, group_count, name_of, index_of, slot_of, all_group_count};
ghost use Rattle.rsc_primitives.specs.Indices.{max_index};
ghost use Rattle.rsc_captures.specs.Faults.{IsFaultless};
ghost use Rattle.rsc_captures.specs.FaultsLayout.{HasNoOtherFault};
ghost use Rattle.rsc_captures.specs.SharedListsLayout.{groups_before, AreFirsts};
ghost use Rattle.rsc_captures.specs.OrderLayout.{name_cmp};

use crate::names::{NameList, has_name};
use std::alloc::{AllocError, Allocator};
use std::cmp::Ordering;
use std::hash::{FoldHasher, Hasher};
use std::marker::Model;

// With fewer groups than these a name is compared with each.
const SCANNED_GROUPS: usize = 10;

// How many entries of the table a name has: a power of two, and its exponent.
const HINTS_OF_A_NAME: usize = 4;

const HINT_BITS: u32 = 2;

/// The names of all groups by pattern and then by group; for each pattern its groups in the order of their names; where each
/// pattern's names begin, and last how many there are; and a table of hints at groups by name.
#[derive(Drop)]
#[derive_where(Debug)]
pub(crate) struct SharedLists<A: Allocator> {
    pub(crate) names: NameList<A>,
    pub(crate) order: Vec<u32, A>,
    pub(crate) firsts: Vec<usize, A>,
    pub(crate) hints: Vec<u32, A>,
}

impl<A: Allocator> Model for SharedLists<A> {
    ghost use Rattle.rsc_captures.specs.Groups.{GroupLists};
    ghost use Rattle.rsc_captures.specs.SharedListsLayout.{lists_held, IsLayout};

    ghost Value = { GroupLists };

    ghost view = { λ a. lists_held a.firsts.items a.names };

    ghost invariant = { λ a. IsLayout a.firsts.items a.order.items (lists_held a.firsts.items a.names) };
}

impl<A: Allocator + Clone + Drop> SharedLists<A> {
    /// How many patterns there are.
    #[inline]
    pub(crate) fn len(&self) -> usize
        ensures value { result ≡ length self.now }
        ensures faultless { IsFaultless max_index self.now }
    {
        self.firsts.len() - 1
    }

    /// Where the names of a pattern's groups begin, and after the last pattern how many names there are.
    #[inline]
    pub(crate) fn first(&self, p: usize) -> usize
        requires { p ≤ length self.now }
        ensures value { result ≡ groups_before self.now p }
        ensures faultless { IsFaultless max_index self.now }
    {
        self.firsts[p]
    }

    /// How many groups all patterns have.
    #[inline]
    pub(crate) fn all_group_len(&self) -> usize
        ensures value { result ≡ all_group_count self.now }
        ensures limit { 2 * result ≤ max_index }
        ensures faultless { IsFaultless max_index self.now }
    {
        self.first(self.len())
    }

    /// How many groups a pattern has: none where there is no such pattern.
    #[tactic(auto, using(crate::proofs::NamesLayoutLemmas::groups_more))]
    #[inline]
    pub(crate) fn group_len(&self, p: usize) -> usize
        ensures value { result ≡ group_count self.now p }
        ensures faultless { IsFaultless max_index self.now }
    {
        if p >= self.len() {
            return 0;
        }
        self.first(p + 1) - self.first(p)
    }

    /// The slot of a group's start, or `None` where there is no such group.
    #[inline]
    pub(crate) fn slot(&self, p: usize, group: usize) -> Option<usize>
        ensures value { result ≡ slot_of self.now p group }
        ensures faultless { IsFaultless max_index self.now }
    {
        if group >= self.group_len(p) {
            None
        } else if group == 0 {
            Some(2 * p)
        } else {
            Some(2 * (self.len() - p + self.first(p) + group - 1))
        }
    }

    /// The name of a group of a pattern, if there is such a group and it has one.
    #[inline]
    pub(crate) fn name(&self, p: usize, group: usize) -> Option<&str>
        ensures { option_copied result ≡ name_of self.now p group }
    {
        if group >= self.group_len(p) {
            return None;
        }
        self.name_within(p, group)
    }

    /// The first group of the pattern with the name.
    #[inline]
    pub(crate) fn index(&self, p: usize, name: &str) -> Option<usize>
        ensures value { result ≡ index_of (groups_of self.now p) name.now }
        ensures faultless { IsFaultless max_index self.now }
    {
        let count = self.group_len(p);
        if count == 0 {
            return None;
        }
        if count < SCANNED_GROUPS {
            return self.find_by_scan(p, name);
        }
        if let Some(group) = self.find_by_hash(p, name) {
            return Some(group);
        }
        self.find_by_order(p, name)
    }

    // The group that the table hints at, if it has the name.
    #[inline]
    fn find_by_hash(&self, p: usize, name: &str) -> Option<usize>
        requires { p < length self.now }
        ensures { IfSome result (λ g. index_of (groups_of self.now p) name.now ≡ Some g) }
    {
        let mask = self.hints.len().checked_sub(1)?;
        let first = first_hint(p, name) & mask;
        let count = self.group_len(p);
        for i in 0..HINTS_OF_A_NAME {
            let group = *self.hints.get((first + i) & mask)? as usize;
            if group < count && has_name(self.name_within(p, group), name) {
                return Some(group);
            }
        }
        None
    }

    // How the group's name compares with a name. A group without one comes before all names.
    #[inline]
    fn name_cmp(&self, p: usize, group: usize, name: &str) -> Ordering
        ensures { result ≡ name_cmp (name_of self.now p group) (Some name.now) }
    {
        match self.name(p, group) {
            Some(held) => held.cmp(name),
            None => Ordering::Less,
        }
    }

    // The group that has the name, by looking at one after another.
    #[tactic(auto, using(crate::proofs::GroupsLemmas::index_of_first, std::proofs::lemmas::List::Folds::list_any_more))]
    #[inline]
    fn find_by_scan(&self, p: usize, name: &str) -> Option<usize>
        requires { p < length self.now }
        ensures { result ≡ index_of (groups_of self.now p) name.now }
    {
        for group in 0..self.group_len(p) {
            if has_name(self.name_within(p, group), name) {
                return Some(group);
            }
        }
        None
    }

    // The group that has the name, by a binary search in the pattern's part of the order.
    fn find_by_order(&self, p: usize, name: &str) -> Option<usize>
        requires { p < length self.now }
        ensures { result ≡ index_of (groups_of self.now p) name.now }
    {
        let first = self.first(p);
        let order = &self.order[first..first + self.group_len(p)];
        match order.binary_search_by(|g| self.name_cmp(p, *g as usize, name)) {
            Ok(group) => Some(order[group] as usize),
            Err(_) => None,
        }
    }

    // The name of a group that the pattern has, if the group has one.
    #[tactic(auto, using(crate::proofs::SlotOwnersLemmas::pattern_in, crate::proofs::SharedListsLayoutLemmas::name_in))]
    #[inline]
    fn name_within(&self, p: usize, group: usize) -> Option<&str>
        requires { group < group_count self.now p }
        ensures { option_copied result ≡ name_of self.now p group }
    {
        self.names.get(self.first(p) + group)
    }
}

/// A table in which most names find their group: its length is a power of two, 0 is no hint. It is empty where all
/// patterns have few groups.
pub(crate) fn hints_of<A: Allocator>(
    alloc: A,
    lists: &[&[Option<&str>]],
) -> Result<Vec<u32, A>, AllocError> {
    let hinted = hinted_len(lists);
    if hinted == 0 {
        return Ok(Vec::new(alloc));
    }
    let length = hinted
        .checked_next_power_of_two()
        .unwrap_or(1)
        .saturating_mul(2);
    let mut hints: Vec<u32, A> = vec![in alloc; 0u32; length]?;
    for (p, groups) in lists.iter().enumerate() {
        if groups.len() >= SCANNED_GROUPS {
            add_hints(&mut hints, p, groups);
        }
    }
    Ok(hints)
}

/// Where each pattern's names begin in the list of all names; last comes how many there are.
pub(crate) fn firsts_of<A: Allocator>(
    alloc: A,
    lists: &[&[Option<&str>]],
) -> Result<Vec<usize, A>, AllocError>
    requires { HasNoOtherFault max_index (lists_in lists.now) }
    ensures { IfOk result (λ firsts. AreFirsts firsts.items (lists_in lists.now) (length lists.now)) }
{
    let mut firsts: Vec<usize, A> = Vec::with_capacity(alloc, lists.len() + 1)?;
    let mut first = 0;
    firsts.push(first)?;
    for groups in lists {
        first += groups.len();
        firsts.push(first)?;
    }
    Ok(firsts)
}

// The first of the entries of a name, before it is cut to the table's length. Those of one name in neighbouring patterns are apart.
#[inline]
fn first_hint(p: usize, name: &str) -> usize {
    let mut hasher = FoldHasher::default();
    hasher.write(name.as_bytes());
    hasher.finish() as usize ^ p.rotate_left(HINT_BITS)
}

// Puts the group into the first free entry of the name. There is none if there is no table.
fn add_hint(hints: &mut [u32], first: usize, group: u32) {
    let Some(mask) = hints.len().checked_sub(1) else {
        return;
    };
    let first = first & mask;
    for i in 0..HINTS_OF_A_NAME {
        if let Some(held) = hints.get_mut((first + i) & mask) {
            if *held == 0 {
                *held = group;
                return;
            }
        }
    }
}

// Hints at each group of a pattern that has a name.
fn add_hints(hints: &mut [u32], p: usize, groups: &[Option<&str>]) {
    for (g, group) in groups.iter().enumerate() {
        if let Some(name) = group {
            add_hint(hints, first_hint(p, name), u32::try_from(g).unwrap_or(0));
        }
    }
}

// How many groups the table is for: those of the patterns whose groups are not few.
fn hinted_len(lists: &[&[Option<&str>]]) -> usize {
    let mut len: usize = 0;
    for groups in lists {
        if groups.len() >= SCANNED_GROUPS {
            len = len.saturating_add(groups.len());
        }
    }
    len
}
