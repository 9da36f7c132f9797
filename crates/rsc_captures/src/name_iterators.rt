//! The iterators over the names of a group info.
ghost use Rattle.std.specs.Prelude.{◌≡◌, length, Some, IfSome};
ghost use Rattle.std.specs.Option.{option_copied};
ghost use Rattle.std.specs.Iterator.{YieldsFirstBy, UpTo, item_count};
ghost use Rattle.std.specs.Iterator.SizeHint.{IsWithinCount};
ghost use Rattle.rsc_primitives.specs.Indices.{max_index};
ghost use Rattle.rsc_captures.specs.Faults.{IsFaultless};
ghost use Rattle.rsc_captures.specs.Groups.{groups_of};
ghost use Rattle.rsc_captures.specs.NameIterators.{named_group, all_names_of};

use crate::names::NameList;
use crate::shared_lists::SharedLists;
use rsc_primitives::PatternID;
use std::alloc::{Allocator, Global};
use std::marker::Model;

/// The iterator over the names of a pattern's groups, made by [`GroupInfo::pattern_names`](crate::GroupInfo::pattern_names).
/// A contract sees it as the list of what is left.
#[derive(Drop)]
#[derive_where(Clone, Debug)]
pub struct GroupInfoPatternNames<'a, A: Allocator = Global> {
    names: &'a NameList<A>,
    next: usize,
    end: usize,
}

impl<'a, A: Allocator> Model for GroupInfoPatternNames<'a, A> {
    ghost use Rattle.std.specs.Prelude.{◌≤◌, length, slice_range};
    ghost use Rattle.rsc_captures.specs.Groups.{Groups};

    ghost Value = { Groups };

    ghost view = { λ it. slice_range it.names.now it.next it.end };

    ghost invariant = { λ it. it.end ≤ length it.names.now };
}

impl<'a, A: Allocator + Clone + Drop> GroupInfoPatternNames<'a, A> {
    #[inline]
    pub(crate) fn new(lists: &'a SharedLists<A>, p: usize) -> GroupInfoPatternNames<'a, A>
        ensures { result ≡ groups_of lists.now p }
    {
        if p >= lists.len() {
            return GroupInfoPatternNames {
                names: &lists.names,
                next: 0,
                end: 0,
            };
        }
        GroupInfoPatternNames {
            names: &lists.names,
            next: lists.first(p),
            end: lists.first(p + 1),
        }
    }

    /// How many groups are left.
    #[inline]
    pub fn len(&self) -> usize
        ensures { result ≡ length self.now }
    {
        self.end.saturating_sub(self.next)
    }
}

impl<'a, A: Allocator + Clone + Drop> Iterator for GroupInfoPatternNames<'a, A> {
    type Item = Option<&'a str>;

    ghost next_gives = { YieldsFirstBy option_copied (λ rest. rest) };

    ghost remaining = { item_count (λ rest. rest) };

    #[inline]
    fn next(&mut self) -> Option<Option<&'a str>> {
        if self.next >= self.end {
            return None;
        }
        let name = self.names.get(self.next);
        self.next += 1;
        Some(name)
    }

    fn size_hint(&self) -> (usize, Option<usize>)
        ensures lower { IsWithinCount result.0 (item_count (λ rest. rest) self.now) }
        ensures upper { IfSome result.1 (UpTo (item_count (λ rest. rest) self.now)) }
        ensures value { result ≡ (length self.now, Some (length self.now)) }
    {
        let left = self.len();
        (left, Some(left))
    }
}

/// The iterator over all groups of all patterns, made by
/// [`GroupInfo::all_names`](crate::GroupInfo::all_names). A contract sees it as the list of what is left.
#[derive(Drop)]
#[derive_where(Debug)]
pub struct GroupInfoAllNames<'a, A: Allocator = Global> {
    lists: &'a SharedLists<A>,
    pattern: usize,
    group: usize,
    // The group's index in the list of all names, and where the pattern's names end there.
    next: usize,
    end: usize,
}

impl<'a, A: Allocator> Model for GroupInfoAllNames<'a, A> {
    ghost use Rattle.std.specs.Prelude.{List};
    ghost use Rattle.rsc_captures.specs.NameIterators.{NamedGroup, names_left};
    ghost use Rattle.rsc_captures.specs.SharedListsLayout.{IsAt};

    ghost Value = { List NamedGroup };

    ghost view = { λ it. names_left it.lists.now it.pattern it.group };

    ghost invariant = { λ it. IsAt it.lists.now it.pattern it.group it.next it.end };
}

impl<'a, A: Allocator + Clone + Drop> GroupInfoAllNames<'a, A> {
    #[inline]
    pub(crate) fn new(lists: &'a SharedLists<A>) -> GroupInfoAllNames<'a, A>
        ensures value { result ≡ all_names_of lists.now }
        ensures faultless { IsFaultless max_index lists.now }
    {
        GroupInfoAllNames {
            lists,
            pattern: 0,
            group: 0,
            next: 0,
            end: lists.group_len(0),
        }
    }
}

impl<'a, A: Allocator + Clone + Drop> Iterator for GroupInfoAllNames<'a, A> {
    type Item = (PatternID, usize, Option<&'a str>);

    ghost next_gives = { YieldsFirstBy named_group (λ rest. rest) };

    ghost remaining = { item_count (λ rest. rest) };

    #[inline]
    fn next(&mut self) -> Option<(PatternID, usize, Option<&'a str>)> {
        let lists = self.lists;
        let count = lists.len();
        if self.next == self.end {
            if self.pattern + 1 >= count {
                return None;
            }
            // Each pattern has a group.
            self.pattern += 1;
            self.group = 0;
            self.end = lists.first(self.pattern + 1);
        }
        let name = lists.names.get(self.next);
        let item = (PatternID::must(self.pattern), self.group, name);
        self.group += 1;
        self.next += 1;
        Some(item)
    }
}
