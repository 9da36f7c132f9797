//! Kernels over captures.

use crate::groups;
use crate::numbers::{
    CAPS_ALL, CAPS_BY_NAME, CAPS_CLEAR, CAPS_CLONE, CAPS_EXTRACT, CAPS_EXTRACT_BYTES, CAPS_GET,
    CAPS_ITER, CAPS_SET_GROUP, CAPS_SET_SLOTS, GI_NEW, GI_REFUSED,
};
use crate::repeat::repeat;
use crate::request::Request;
use rsc_captures::{Captures, GroupInfo};
use rsc_primitives::{NonMaxUsize, PatternID};
use rsc_search::Span;
use std::alloc::{AllocError, Global};

// What the two kernels of extraction cut.
const EXTRACT_HAYSTACK: &str = "0123456789abcdef";

/// The sum of a kernel over group infos and captures. `data` is lists of groups, as [`groups::lists_of`]
/// reads them.
pub fn run(alloc: Global, request: Request<'_>) -> Result<u64, AllocError> {
    let (kernel, data, reps) = (request.kernel, request.data, request.reps);
    let held = groups::lists_of(alloc, data)?;
    let lists = groups::slices_of(alloc, held.as_slice())?;
    if kernel == GI_NEW {
        return Ok(repeat(reps, |sum| slots_of_new(alloc, &lists, sum)));
    }
    if kernel == GI_REFUSED {
        return Ok(repeat(reps, |sum| text_of_refusal(alloc, &lists, sum)));
    }
    let Ok(info) = GroupInfo::new(alloc, &lists) else {
        return Ok(0);
    };
    if kernel < CAPS_ALL {
        return groups::run(alloc, kernel, &lists, &info, reps);
    }
    match lists.first() {
        Some(first) => over_captures(alloc, kernel, first, info, reps),
        None => Ok(0),
    }
}

fn over_captures(
    alloc: Global,
    kernel: u32,
    first: &[Option<&str>],
    info: GroupInfo,
    reps: u64,
) -> Result<u64, AllocError> {
    let mut captures = filled(alloc, info.clone()?, first.len())?;
    Ok(match kernel {
        CAPS_ALL => repeat(reps, |sum| slots_of_all(alloc, &info, sum)),
        CAPS_GET => repeat(reps, |sum| spans_by_index(&captures, first.len(), sum)),
        CAPS_BY_NAME => repeat(reps, |sum| spans_by_name(&captures, first, sum)),
        CAPS_ITER => repeat(reps, |sum| all_spans(&captures, sum)),
        CAPS_EXTRACT => repeat(reps, |sum| parts_of_text(&captures, EXTRACT_HAYSTACK, sum)),
        CAPS_EXTRACT_BYTES => repeat(reps, |sum| {
            parts_of_bytes(&captures, EXTRACT_HAYSTACK.as_bytes(), sum)
        }),
        CAPS_CLEAR => {
            let mut sum = 0u64;
            for _ in 0..reps {
                sum = cleared(&mut captures, sum);
            }
            sum
        }
        CAPS_SET_GROUP => {
            let mut sum = 0u64;
            for _ in 0..reps {
                sum = groups_set(&mut captures, first.len(), sum);
            }
            sum
        }
        CAPS_SET_SLOTS => {
            let mut sum = 0u64;
            for _ in 0..reps {
                sum = slots_set(&mut captures, first.len(), sum);
            }
            sum
        }
        CAPS_CLONE => repeat(reps, |sum| slots_of_clone(&captures, sum)),
        _ => 0,
    })
}

// Captures of the first pattern, in which the group `g` spans one byte from `g` modulo 8 on.
fn filled(alloc: Global, info: GroupInfo, groups: usize) -> Result<Captures, AllocError> {
    let slots = slots_of(alloc, &info, groups)?;
    let mut captures = Captures::all(alloc, info)?;
    captures.set_pattern(Some(PatternID::ZERO));
    for (g, slot) in slots.iter().enumerate() {
        write_slot(&mut captures, *slot, g % 8);
        write_slot(&mut captures, slot.saturating_add(1), g % 8 + 1);
    }
    Ok(captures)
}

// The first slot of each group of the first pattern.
fn slots_of(alloc: Global, info: &GroupInfo, groups: usize) -> Result<Vec<usize>, AllocError> {
    let mut slots = Vec::new(alloc);
    for g in 0..groups {
        if let Some(slot) = info.slot(PatternID::ZERO, g) {
            slots.push(slot)?;
        }
    }
    Ok(slots)
}

fn write_slot(captures: &mut Captures, slot: usize, offset: usize) {
    if let Some(content) = captures.slots_mut().get_mut(slot) {
        *content = NonMaxUsize::new(offset);
    }
}

#[inline(never)]
fn slots_of_new(alloc: Global, lists: &[&[Option<&str>]], sum: u64) -> u64 {
    match GroupInfo::new(alloc, lists) {
        Ok(info) => sum.wrapping_add(info.slot_len() as u64),
        Err(_) => sum,
    }
}

// The length of the text that says why there is no group info.
#[inline(never)]
fn text_of_refusal(alloc: Global, lists: &[&[Option<&str>]], sum: u64) -> u64 {
    match GroupInfo::new(alloc, lists) {
        Ok(info) => sum.wrapping_add(info.slot_len() as u64),
        Err(err) => match format!(in alloc; "{err}") {
            Ok(text) => sum.wrapping_add(text.len() as u64),
            Err(_) => sum,
        },
    }
}

#[inline(never)]
fn slots_of_all(alloc: Global, info: &GroupInfo, sum: u64) -> u64 {
    match all_of(alloc, info) {
        Ok(captures) => sum.wrapping_add(captures.slots().len() as u64),
        Err(_) => sum,
    }
}

#[inline(always)]
fn all_of(alloc: Global, info: &GroupInfo) -> Result<Captures, AllocError> {
    Captures::all(alloc, info.clone()?)
}

#[inline(never)]
fn slots_of_clone(captures: &Captures, sum: u64) -> u64 {
    match captures.clone() {
        Ok(clone) => sum.wrapping_add(clone.slots().len() as u64),
        Err(_) => sum,
    }
}

#[inline(never)]
fn spans_by_index(captures: &Captures, groups: usize, sum: u64) -> u64 {
    let mut sum = sum;
    for g in 0..groups {
        if let Some(span) = captures.get_group(g) {
            sum = sum
                .wrapping_add(span.start as u64)
                .wrapping_add(span.end as u64);
        }
    }
    sum
}

#[inline(never)]
fn spans_by_name(captures: &Captures, names: &[Option<&str>], sum: u64) -> u64 {
    let mut sum = sum;
    for name in names {
        if let Some(name) = *name {
            if let Some(span) = captures.get_group_by_name(name) {
                sum = sum
                    .wrapping_add(span.start as u64)
                    .wrapping_add(span.end as u64);
            }
        }
    }
    sum
}

#[inline(never)]
fn all_spans(captures: &Captures, sum: u64) -> u64 {
    let mut sum = sum;
    for found in captures.iter() {
        if let Some(span) = found {
            sum = sum
                .wrapping_add(span.start as u64)
                .wrapping_add(span.end as u64);
        }
    }
    sum
}

#[inline(never)]
fn parts_of_text(captures: &Captures, haystack: &str, sum: u64) -> u64 {
    let Some(parts) = captures.extract_from::<&str, 3>(haystack) else {
        return sum;
    };
    let mut sum = sum.wrapping_add(first_byte(parts.0.as_bytes()));
    let groups = parts.1;
    for group in groups {
        sum = sum.wrapping_add(first_byte(group.as_bytes()));
    }
    sum
}

#[inline(never)]
fn parts_of_bytes(captures: &Captures, haystack: &[u8], sum: u64) -> u64 {
    let Some(parts) = captures.extract_from::<&[u8], 3>(haystack) else {
        return sum;
    };
    let mut sum = sum.wrapping_add(first_byte(parts.0));
    let groups = parts.1;
    for group in groups {
        sum = sum.wrapping_add(first_byte(group));
    }
    sum
}

#[inline(always)]
fn first_byte(bytes: &[u8]) -> u64 {
    match bytes.first() {
        Some(byte) => u64::from(*byte),
        None => 0,
    }
}

// Whether there is still a match after one was set and the captures were cleared.
#[inline(never)]
fn cleared(captures: &mut Captures, sum: u64) -> u64 {
    captures.set_pattern(Some(PatternID::ZERO));
    write_slot(captures, 0, 1);
    captures.clear();
    sum.wrapping_add(u64::from(captures.is_match()))
}

// How many spans are written by the numbers of their groups.
#[inline(never)]
fn groups_set(captures: &mut Captures, groups: usize, sum: u64) -> u64 {
    let mut sum = sum;
    for g in 0..groups {
        let (start, end) = (g % 8, g % 8 + 1);
        sum = sum.wrapping_add(u64::from(captures.set_group(g, Some(Span { start, end }))));
    }
    sum
}

// The same by the two slots of each group.
#[inline(never)]
fn slots_set(captures: &mut Captures, groups: usize, sum: u64) -> u64 {
    let mut sum = sum;
    for g in 0..groups {
        if let Some((start, end)) = captures.group_info().slots(PatternID::ZERO, g) {
            write_slot(captures, start, g % 8);
            write_slot(captures, end, g % 8 + 1);
            sum = sum.wrapping_add(1);
        }
    }
    sum
}
