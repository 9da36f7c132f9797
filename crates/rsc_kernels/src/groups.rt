//! Kernels over the groups of patterns.

use crate::numbers::{GI_ALL_NAMES, GI_CLONE, GI_PATTERN_NAMES, GI_SLOT, GI_TO_INDEX, GI_TO_NAME};
use crate::repeat::repeat;
use rsc_captures::GroupInfo;
use rsc_primitives::PatternID;
use std::alloc::{AllocError, Global};

/// The groups of each pattern that a text writes, by their optional names.
///
/// Patterns are split at `;`, and groups at `,`; `-` is a group without a name. What is no text has no groups.
pub fn lists_of<'a>(
    alloc: Global,
    data: &'a [u8],
) -> Result<Vec<Vec<Option<&'a str>>>, AllocError> {
    let mut lists = Vec::new(alloc);
    for pattern in data.split(|byte| *byte == b';') {
        lists.push(groups_of(alloc, pattern)?)?;
    }
    Ok(lists)
}

fn groups_of<'a>(alloc: Global, pattern: &'a [u8]) -> Result<Vec<Option<&'a str>>, AllocError> {
    let mut groups = Vec::new(alloc);
    for group in pattern.split(|byte| *byte == b',') {
        match group {
            b"-" => groups.push(None)?,
            _ => {
                if let Ok(name) = std::str::from_utf8(group) {
                    groups.push(Some(name))?;
                }
            }
        }
    }
    Ok(groups)
}

/// The same lists, lent as slices.
pub fn slices_of<'a, 'b>(
    alloc: Global,
    lists: &'a [Vec<Option<&'b str>>],
) -> Result<Vec<&'a [Option<&'b str>]>, AllocError> {
    let mut slices = Vec::new(alloc);
    for groups in lists {
        slices.push(groups.as_slice())?;
    }
    Ok(slices)
}

/// The sum of a kernel over a group info that is made.
pub fn run(
    alloc: Global,
    kernel: u32,
    lists: &[&[Option<&str>]],
    info: &GroupInfo,
    reps: u64,
) -> Result<u64, AllocError> {
    Ok(match kernel {
        GI_TO_INDEX => {
            let names = names_of(alloc, lists)?;
            repeat(reps, |sum| indices(info, &names, sum))
        }
        GI_TO_NAME => {
            let groups = all_groups(alloc, lists)?;
            repeat(reps, |sum| names_at(info, &groups, sum))
        }
        GI_SLOT => {
            let groups = all_groups(alloc, lists)?;
            repeat(reps, |sum| slots(info, &groups, sum))
        }
        GI_CLONE => repeat(reps, |sum| patterns_of_clone(info, sum)),
        GI_ALL_NAMES => repeat(reps, |sum| all_names(info, sum)),
        GI_PATTERN_NAMES => repeat(reps, |sum| names_by_pattern(info, sum)),
        _ => 0,
    })
}

// Each group by its pattern and its index.
fn all_groups(
    alloc: Global,
    lists: &[&[Option<&str>]],
) -> Result<Vec<(PatternID, usize)>, AllocError> {
    let mut all = Vec::new(alloc);
    for (p, groups) in lists.iter().enumerate() {
        if let Ok(pattern) = PatternID::new(p) {
            for g in 0..groups.len() {
                all.push((pattern, g))?;
            }
        }
    }
    Ok(all)
}

// The name of each group that has one, with its pattern.
pub fn names_of<'b>(
    alloc: Global,
    lists: &[&[Option<&'b str>]],
) -> Result<Vec<(PatternID, &'b str)>, AllocError> {
    let mut names = Vec::new(alloc);
    for (p, groups) in lists.iter().enumerate() {
        if let Ok(pattern) = PatternID::new(p) {
            push_names(&mut names, pattern, groups)?;
        }
    }
    Ok(names)
}

fn push_names<'b>(
    names: &mut Vec<(PatternID, &'b str)>,
    pattern: PatternID,
    groups: &[Option<&'b str>],
) -> Result<(), AllocError> {
    for group in groups {
        let group = *group;
        if let Some(name) = group {
            let named = (pattern, name);
            match names.push(named) {
                Ok(()) => {}
                Err(_) => return Err(AllocError),
            }
        }
    }
    Ok(())
}

#[inline(always)]
fn length_of(name: Option<&str>) -> u64 {
    match name {
        Some(name) => name.len() as u64,
        None => 0,
    }
}

// The groups that have the names.
#[inline(never)]
fn indices(info: &GroupInfo, names: &[(PatternID, &str)], sum: u64) -> u64 {
    let mut sum = sum;
    for &(pattern, name) in names {
        if let Some(g) = info.to_index(pattern, name) {
            sum = sum.wrapping_add(g as u64);
        }
    }
    sum
}

// The lengths of the groups' names.
#[inline(never)]
fn names_at(info: &GroupInfo, groups: &[(PatternID, usize)], sum: u64) -> u64 {
    let mut sum = sum;
    for &(pattern, g) in groups {
        sum = sum.wrapping_add(length_of(info.to_name(pattern, g)));
    }
    sum
}

// The groups' first slots.
#[inline(never)]
fn slots(info: &GroupInfo, groups: &[(PatternID, usize)], sum: u64) -> u64 {
    let mut sum = sum;
    for &(pattern, g) in groups {
        if let Some(slot) = info.slot(pattern, g) {
            sum = sum.wrapping_add(slot as u64);
        }
    }
    sum
}

#[inline(never)]
fn patterns_of_clone(info: &GroupInfo, sum: u64) -> u64 {
    match info.clone() {
        Ok(clone) => sum.wrapping_add(clone.pattern_len() as u64),
        Err(_) => sum,
    }
}

#[inline(never)]
fn all_names(info: &GroupInfo, sum: u64) -> u64 {
    let mut sum = sum;
    for (_, g, name) in info.all_names() {
        sum = sum.wrapping_add(g as u64).wrapping_add(length_of(name));
    }
    sum
}

#[inline(never)]
fn names_by_pattern(info: &GroupInfo, sum: u64) -> u64 {
    let mut sum = sum;
    for pattern in PatternID::iter(info.pattern_len()) {
        sum = names_of_pattern(info, pattern, sum);
    }
    sum
}

#[inline(always)]
fn names_of_pattern(info: &GroupInfo, pattern: PatternID, sum: u64) -> u64 {
    let mut sum = sum;
    for name in info.pattern_names(pattern) {
        sum = sum.wrapping_add(length_of(name));
    }
    sum
}
