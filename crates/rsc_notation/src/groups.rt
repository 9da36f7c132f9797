//! Lists of patterns with the names of their groups.
ghost use Rattle.std.specs.Prelude.{◌≡◌, ◌==◌, map, IfOk};
ghost use Rattle.std.specs.List.{list_all, slice_split};
ghost use Rattle.std.specs.Option.{option_map};
ghost use Rattle.rsc_primitives.specs.Utf8.{is_word_byte};
ghost use Rattle.rsc_notation.specs.GroupTexts.{group_of, groups_in_text, patterns_in_text};

use rsc_primitives::utf8::is_word_byte;
use std::alloc::{AllocError, Allocator};

/// The groups of each pattern, lent as slices, as [`rsc_captures::GroupInfo::new`] takes them.
///
/// # Errors
///
/// `AllocError` only if memory runs out.
pub fn slices_of<'a, 'b, A: Allocator + Copy + Drop>(
    alloc: A,
    patterns: &'a [Vec<Option<&'b str>, A>],
) -> Result<Vec<&'a [Option<&'b str>], A>, AllocError>
    ensures { IfOk result (λ slices. map (λ groups. groups.now) slices.items ≡ map (λ groups. groups.items) patterns.now) }
{
    let mut slices = Vec::new(alloc);
    for groups in patterns {
        slices.push(groups.as_slice())?;
    }
    Ok(slices)
}

/// The patterns that a text writes, or `None` where one of its groups isn't written rightly.
///
/// Patterns are split at `;`, and groups at `,`; `-` is a group without a name, and a name is one or more word bytes.
///
/// # Errors
///
/// `AllocError` only if memory runs out.
pub fn parse_patterns<'a, A: Allocator + Copy + Drop>(
    alloc: A,
    text: &'a [u8],
) -> Result<Option<Vec<Vec<Option<&'a str>, A>, A>>, AllocError>
    ensures { IfOk result (λ patterns. option_map (λ ps. map (λ groups. map (option_map (λ name. name.now)) groups.items) ps.items) patterns
        ≡ patterns_in_text text.now) }
{
    let parts = parts_between(alloc, text, b';')?;
    let mut patterns = Vec::new(alloc);
    for part in parts.as_slice() {
        match parse_groups(alloc, part)? {
            Some(groups) => patterns.push(groups)?,
            None => return Ok(None),
        }
    }
    Ok(Some(patterns))
}

// The groups of a pattern; an empty one has none.
fn parse_groups<'a, A: Allocator + Copy + Drop>(
    alloc: A,
    pattern: &'a [u8],
) -> Result<Option<Vec<Option<&'a str>, A>>, AllocError>
    ensures { IfOk result (λ groups. option_map (λ gs. map (option_map (λ name. name.now)) gs.items) groups ≡ groups_in_text pattern.now) }
{
    let mut groups = Vec::new(alloc);
    if pattern.is_empty() {
        return Ok(Some(groups));
    }
    let parts = parts_between(alloc, pattern, b',')?;
    for part in parts.as_slice() {
        match parse_group(part) {
            Some(name) => groups.push(name)?,
            None => return Ok(None),
        }
    }
    Ok(Some(groups))
}

// The parts of a text between bytes.
fn parts_between<'a, A: Allocator + Copy + Drop>(
    alloc: A,
    text: &'a [u8],
    separator: u8,
) -> Result<Vec<&'a [u8], A>, AllocError>
    ensures { IfOk result (λ parts. map (λ part. part.now) parts.items ≡ slice_split (λ b. b == separator) text.now) }
{
    text.split(|byte| *byte == separator).collect(alloc)
}

// The optional name of a group, or `None` where it isn't written rightly.
fn parse_group(group: &[u8]) -> Option<Option<&str>>
    ensures { option_map (option_map (λ name. name.now)) result ≡ group_of group.now }
{
    if group == b"-".as_slice() {
        return Some(None);
    }
    if group.is_empty() || !all_word_bytes(group) {
        return None;
    }
    match std::str::from_utf8(group) {
        Ok(name) => Some(Some(name)),
        Err(_) => None,
    }
}

fn all_word_bytes(name: &[u8]) -> bool
    ensures { result ≡ list_all is_word_byte name.now }
{
    for byte in name {
        if !is_word_byte(*byte) {
            return false;
        }
    }
    true
}
