//! A list of optional names: one text, in which they stand one after another, and a table that says where.
ghost use Rattle.std.specs.Prelude.{◌≡◌, ◌<◌, [], ◌++◌, length, IfOk, OnOk, slice_index_or, None};
ghost use Rattle.std.specs.List.{flat_map};
ghost use Rattle.std.specs.Option.{option_copied, unwrap_or};
ghost use Rattle.std.specs.Str.{IsUtf8};
ghost use Rattle.std.specs.String.{string_bytes};
ghost use Rattle.rsc_captures.specs.Groups.{groups_in, lists_in, has_name};
ghost use Rattle.rsc_captures.specs.NamesLayout.{names_held, entry_held, AreCut, AreHeld};

use std::alloc::{AllocError, Allocator};
use std::marker::Model;

// The length of a group's entry of the table where the group has no name. No name has this length.
const NO_NAME: usize = usize::MAX;

// Where a name begins in the text, and how many bytes it has: a caller who wants no more than its length needs no sum.
#[derive(Clone, Copy, Debug)]
struct Entry {
    start: usize,
    length: usize,
}

/// Optional names in order. A contract sees them as their list.
#[derive(Drop)]
#[derive_where(Debug)]
pub(crate) struct NameList<A: Allocator> {
    text: String<A>,
    entries: Vec<Entry, A>,
}

impl<A: Allocator> Model for NameList<A> {
    ghost use Rattle.rsc_captures.specs.Groups.{Groups};
    ghost use Rattle.std.specs.String.{string_bytes};
    ghost use Rattle.rsc_captures.specs.NamesLayout.{names_held, AreCut};

    ghost Value = { Groups };

    ghost view = { λ n. names_held (string_bytes n.text) n.entries.items };

    ghost invariant = { λ n. AreCut (string_bytes n.text) n.entries.items };
}

impl<A: Allocator + Clone + Drop> NameList<A> {
    /// The names of all groups of these lists, by pattern and then by group.
    #[tactic(auto, using(crate::proofs::GroupsLemmas::flat_more))]
    pub(crate) fn new(alloc: A, lists: &[&[Option<&str>]]) -> Result<NameList<A>, AllocError>
        ensures { IfOk result (λ names. names ≡ flat_map (λ groups. groups) (lists_in lists.now)) }
    {
        let (len, bytes) = room_for(lists);
        let mut text = String::with_capacity(alloc.clone()?, bytes)?;
        let mut entries: Vec<Entry, A> = Vec::with_capacity(alloc, len)?;
        for groups in lists {
            hold_names(&mut text, &mut entries, groups)?;
        }
        Ok(NameList { text, entries })
    }

    /// How many groups there are.
    pub(crate) fn len(&self) -> usize {
        self.entries.len()
    }

    /// The group's name in the list, if it has one.
    #[inline]
    pub(crate) fn get(&self, i: usize) -> Option<&str>
        requires { i < length self.now }
        ensures { option_copied result ≡ slice_index_or self.now i None }
    {
        let entry = self.entries[i];
        if entry.length == NO_NAME {
            return None;
        }
        Some(&self.text.as_str()[entry.start..entry.start + entry.length])
    }
}

/// Whether the group has the name.
#[inline]
pub(crate) fn has_name(group: Option<&str>, name: &str) -> bool
    ensures { result ≡ has_name name.now (option_copied group.entry) }
{
    match group {
        Some(other) => name == other,
        None => false,
    }
}

// How many groups the lists have, and how many bytes their names have together; less only where that is past the greatest number.
fn room_for(lists: &[&[Option<&str>]]) -> (usize, usize) {
    let mut len: usize = 0;
    let mut bytes: usize = 0;
    for groups in lists {
        len = len.saturating_add(groups.len());
        for group in *groups {
            bytes = bytes.saturating_add(group.map_or(0, |name| name.len()));
        }
    }
    (len, bytes)
}

// Adds the name of a group to the text, and says where it is there.
fn hold_name<A: Allocator>(text: &mut String<A>, group: Option<&str>) -> Result<Entry, AllocError>
    ensures text { OnOk result (string_bytes text.new ≡ string_bytes text.old ++ unwrap_or (option_copied group.entry) []) }
    ensures entry { IfOk result (λ entry. entry ≡ entry_held (string_bytes text.old) (option_copied group.entry)) }
    ensures utf8 { IsUtf8 (unwrap_or (option_copied group.entry) []) }
    ensures length { length (unwrap_or (option_copied group.entry) []) < NO_NAME }
{
    let Some(name) = group else {
        return Ok(Entry {
            start: 0,
            length: NO_NAME,
        });
    };
    let start = text.len();
    text.push_str(name)?;
    Ok(Entry {
        start,
        length: name.len(),
    })
}

// Adds the names of these groups, and where each of them is.
fn hold_names<A: Allocator>(
    text: &mut String<A>,
    entries: &mut Vec<Entry, A>,
    groups: &[Option<&str>],
) -> Result<(), AllocError>
    requires { AreCut (string_bytes text.old) entries.old.items }
    ensures { OnOk result (AreHeld (string_bytes text.new) entries.new.items (names_held (string_bytes text.old) entries.old.items ++ groups_in groups.now)) }
{
    for group in groups {
        let entry = hold_name(text, *group)?;
        entries.push(entry)?;
    }
    Ok(())
}
