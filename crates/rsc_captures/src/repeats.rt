//! Repeated names: the least group of a pattern whose name a lesser group has.
//!
//! A group's name is looked up by binary search among groups that are sorted by name and then by number. A list with another fault
//! takes no memory: its groups are sorted in batches, each in a table on the stack.
ghost use Rattle.std.specs.Prelude.{◌≡◌, ℕ, List, ◌+◌, ◌<◌, ◌≤◌, length, true, slice_index_or, Some, None, MatchBool, MatchOption};
ghost use Rattle.std.specs.Ordering.{is_lt};
ghost use Rattle.std.specs.List.{Contains};
ghost use Rattle.rsc_captures.specs.Groups.{groups_in, lists_in, groups_of, group_count, name_of};
ghost use Rattle.rsc_primitives.specs.Indices.{max_index};
ghost use Rattle.rsc_captures.specs.Faults.{Duplicate, ComesBefore};
ghost use Rattle.rsc_captures.specs.OrderLayout.{name_cmp, IsOrder, IsSortedByName};
ghost use Rattle.rsc_captures.specs.RepeatsLayout.{is_repeat, AreDistinctBelow, HaveDifferentNames, IsFirstNotLess, HasNoRepeatBefore, IsFirstRepeatBefore};

use crate::names::has_name;
use crate::order::{name_at, put_in_order};
use rsc_primitives::PatternID;

// How many groups a batch has at most: its table has room for them.
const TABLE: usize = 4096;

/// The first repeated name before a group, which is given as its pattern and its index, and the pattern that has it. Takes no memory.
pub(crate) fn first_repeat_before<'a>(
    lists: &[&[Option<&'a str>]],
    group: (usize, usize),
) -> Option<(PatternID, &'a str)>
    requires patterns { (p : ℕ) → ComesBefore p 0 group.0 group.1 → p ≤ max_index }
    requires groups { (p g : ℕ) → g < group_count (lists_in lists.now) p → ComesBefore p g group.0 group.1 → g ≤ max_index }
    ensures { MatchOption result (HasNoRepeatBefore (lists_in lists.now) group.0 group.1)
        (λ found. IsFirstRepeatBefore (lists_in lists.now) group.0 group.1 (Duplicate found.0 found.1.now)) }
{
    for p in 0..lists.len().min(group.0.saturating_add(1)) {
        let end = count_before(lists[p].len(), p, group);
        let g = first_repeat(lists[p], end);
        if g < end {
            return Some(repeated(lists, p, g));
        }
    }
    None
}

/// The pattern and the name of a group that repeats a name.
pub(crate) fn repeated<'a>(lists: &[&[Option<&'a str>]], p: usize, g: usize) -> (PatternID, &'a str)
    requires pattern { p < length lists.now }
    requires number { p ≤ max_index }
    requires repeats { is_repeat (groups_of (lists_in lists.now) p) g ≡ true }
    ensures pattern { result.0 ≡ p }
    ensures name { name_of (lists_in lists.now) p g ≡ Some result.1.now }
{
    (PatternID::must(p), name_at(lists[p], g).unwrap_or(""))
}

/// The least group whose name a lesser one has, or the number of groups.
pub(crate) fn repeat_in_order(groups: &[Option<&str>], order: &[u32]) -> usize
    requires { IsOrder order.now (groups_in groups.now) }
    ensures within { result ≤ length groups.now }
    ensures distinct { AreDistinctBelow (groups_in groups.now) result }
    ensures repeat { result < length groups.now → is_repeat (groups_in groups.now) result ≡ true }
{
    repeat_of_batch(groups, order, 0, groups.len())
}

// How many of the groups of a pattern are before the group.
fn count_before(count: usize, p: usize, group: (usize, usize)) -> usize
    requires { p ≤ group.0 }
    ensures within { result ≤ count }
    ensures before { (g : ℕ) → g < result → ComesBefore p g group.0 group.1 }
    ensures all { (g : ℕ) → g < count → ComesBefore p g group.0 group.1 → g < result }
{
    if p < group.0 {
        count
    } else {
        count.min(group.1)
    }
}

// The least of the groups before `end` whose name a lesser group has, or `end`.
#[tactic(auto, using(crate::proofs::RepeatsLayoutLemmas::distinct_from_differ))]
fn first_repeat(groups: &[Option<&str>], end: usize) -> usize
    requires within { end ≤ length groups.now }
    requires limit { end ≤ max_index + 1 }
    ensures within { result ≤ end }
    ensures distinct { AreDistinctBelow (groups_in groups.now) result }
    ensures repeat { result < end → is_repeat (groups_in groups.now) result ≡ true }
{
    let mut least = end;
    let mut from = 0;
    while from < least {
        let mut table = [0u32; TABLE];
        let len = TABLE.min(least - from);
        let order = &mut table[..len];
        put_in_order(groups, from, order);
        least = repeat_of_batch(groups, order, from, least);
        from += len;
    }
    least
}

// The least of the groups from `from` to `end` whose name a lesser group of the batch has, or `end`.
fn repeat_of_batch(groups: &[Option<&str>], order: &[u32], from: usize, end: usize) -> usize
    requires { IsSortedByName order.now (groups_in groups.now) }
    ensures within { result ≤ end }
    ensures differ { (g h : ℕ) → Contains order.now g → g < h → from ≤ h → h < result → HaveDifferentNames (groups_in groups.now) g h }
    ensures repeat { result < end → is_repeat (groups_in groups.now) result ≡ true }
{
    for g in from..end {
        if is_repeat_of(groups, order, g) {
            return g;
        }
    }
    end
}

// Whether a lesser group of the order has the name of the group.
#[tactic(auto, using(crate::proofs::RepeatsLayoutLemmas::repeat_at_first, crate::proofs::RepeatsLayoutLemmas::differ_unnamed))]
fn is_repeat_of(groups: &[Option<&str>], order: &[u32], g: usize) -> bool
    requires { IsSortedByName order.now (groups_in groups.now) }
    ensures { MatchBool result (is_repeat (groups_in groups.now) g ≡ true)
        ((h : ℕ) → Contains order.now h → h < g → HaveDifferentNames (groups_in groups.now) h g) }
{
    let Some(name) = name_at(groups, g) else {
        return false;
    };
    let first = first_not_less(groups, order, name);
    if first >= order.len() {
        return false;
    }
    (order[first] as usize) < g && has_name(name_at(groups, order[first] as usize), name)
}

// Where the first group of the order is whose name isn't less than a name: if a group has the name, the least one that has it.
fn first_not_less(groups: &[Option<&str>], order: &[u32], name: &str) -> usize
    requires { IsSortedByName order.now (groups_in groups.now) }
    ensures { IsFirstNotLess (groups_in groups.now) order.now name.now result }
{
    order.partition_point(|g| is_less(groups, *g as usize, name))
}

// Whether the name of a group comes before a name. No name comes before all names.
#[inline]
fn is_less(groups: &[Option<&str>], g: usize, name: &str) -> bool
    ensures { result ≡ is_lt (name_cmp (slice_index_or (groups_in groups.now) g None) (Some name.now)) }
{
    name_at(groups, g) < Some(name)
}
