//! The command `groups`: the slots of each group, or why the list is refused, and where the group at fault is written.

use crate::error::{ShowError, refused};
use crate::text::Page;
use rsc_captures::{GroupInfo, GroupInfoError, GroupInfoErrorKind};
use rsc_notation::groups::{parse_patterns, slices_of};
use rsc_primitives::PatternID;
use std::alloc::Global;
use std::fmt::Write;

const EXPECTED_LISTS: &str = "one list of groups, as -,x;-,-,x";

const EXPECTED_GROUP: &str = "groups between `,` and `;`, each - or a name of word bytes";

/// The answer to the arguments of `groups`, and whether it says that the list is refused.
pub fn answer(alloc: Global, arguments: &[String]) -> Result<(String, bool), ShowError> {
    let [lists] = arguments else {
        return Err(refused(alloc, "groups", EXPECTED_LISTS));
    };
    let Some(patterns) = parse_patterns(alloc, lists.as_bytes())? else {
        return Err(refused(alloc, lists.as_str(), EXPECTED_GROUP));
    };
    let slices = slices_of(alloc, patterns.as_slice())?;
    match GroupInfo::new(alloc, slices.as_slice()) {
        Ok(info) => Ok((table(alloc, &info)?, false)),
        Err(error) => {
            let text = refusal(alloc, lists.as_str(), slices.as_slice(), &error)?;
            Ok((text, true))
        }
    }
}

// A line for each group: its pattern, its number, its name and its slots.
fn table(alloc: Global, info: &GroupInfo) -> Result<String, ShowError> {
    let mut page = Page::new(alloc);
    page.push_str("pattern group slots name\n");
    for (pattern, group, name) in info.all_names() {
        push_group(&mut page, info, pattern, group, name);
    }
    let slots = info.slot_len();
    let patterns = info.pattern_len();
    let _ = write!(page, "\n{slots} slots, {patterns} patterns\n");
    Ok(page.finish()?)
}

fn push_group(
    page: &mut Page,
    info: &GroupInfo,
    pattern: PatternID,
    group: usize,
    name: Option<&str>,
) {
    let number = pattern.as_usize();
    let _ = write!(page, "{number:>7} {group:>5} ");
    if let Some((start, end)) = info.slots(pattern, group) {
        let mut slots = page.cell();
        let _ = write!(slots, "{start} {end}");
        page.push_right(&slots, 5);
    }
    page.push_str(name.unwrap_or("-"));
    page.push('\n');
}

// The lists, a pointer at the group at fault, and the displayed refusal; out of memory stops the program.
fn refusal(
    alloc: Global,
    lists: &str,
    patterns: &[&[Option<&str>]],
    error: &GroupInfoError,
) -> Result<String, ShowError> {
    let (pattern, group) = match error.kind() {
        GroupInfoErrorKind::OutOfMemory => return Err(ShowError::OutOfMemory),
        GroupInfoErrorKind::TooManyPatterns { .. } => (0, 0),
        GroupInfoErrorKind::TooManyGroups { pattern, .. } => (pattern.as_usize(), 0),
        GroupInfoErrorKind::MissingGroups { pattern } => (pattern.as_usize(), 0),
        GroupInfoErrorKind::FirstMustBeUnnamed { pattern } => (pattern.as_usize(), 0),
        GroupInfoErrorKind::Duplicate { pattern, name } => {
            (
                pattern.as_usize(),
                repeat_of(patterns, pattern.as_usize(), name.as_str()),
            )
        }
    };
    let mut page = Page::new(alloc);
    page.push_str(lists);
    page.push('\n');
    page.push_spaces(index_in_text(lists.as_bytes(), pattern, group));
    let _ = write!(page, "^\nrefused: {error}\n");
    Ok(page.finish()?)
}

// The group of a pattern that has the name a second time.
fn repeat_of(patterns: &[&[Option<&str>]], pattern: usize, name: &str) -> usize {
    match patterns.get(pattern) {
        Some(groups) => second_of(*groups, name).unwrap_or(0),
        None => 0,
    }
}

// The second group that has a name, where one has.
fn second_of(groups: &[Option<&str>], name: &str) -> Option<usize> {
    let mut is_repeated = false;
    for index in 0..groups.len() {
        if has_name(groups[index], name) {
            if is_repeated {
                return Some(index);
            }
            is_repeated = true;
        }
    }
    None
}

// Whether a group has a name.
fn has_name(group: Option<&str>, name: &str) -> bool {
    match group {
        Some(own) => name == own,
        None => false,
    }
}

// Where a group of a pattern begins in the text of the lists, or the text's length where it has no such group.
fn index_in_text(lists: &[u8], pattern: usize, group: usize) -> usize {
    let mut at = (0, 0);
    for index in 0..lists.len() {
        if at.0 == pattern && at.1 == group {
            return index;
        }
        at = group_after(at, lists[index]);
    }
    lists.len()
}

// The pattern and the group that a text reaches with one more byte.
fn group_after(at: (usize, usize), byte: u8) -> (usize, usize) {
    match byte {
        b';' => (at.0.saturating_add(1), 0),
        b',' => (at.0, at.1.saturating_add(1)),
        _ => at,
    }
}
