//! Kernels over class sets, class maps and byte sets.
ghost use Rattle.std.specs.Prelude.{◌≤◌, All, IfOk, IfSome};

use crate::look;
use crate::numbers::{
    BYTE_CLASSES, BYTESET_CONTAINS, BYTESET_ITER, BYTESET_RANGES, CLASSES_OF, CLASSES_OF_RANGES,
    MAP_ELEMS, MAP_ELEMS_ALL, MAP_GET, MAP_ITER, MAP_REPS,
};
use crate::repeat::repeat;
use crate::request::Request;
use rsc_alphabet::{ByteClassSet, ByteClasses, ByteSet, Unit, classes_of_ranges};
use std::alloc::{AllocError, Global};
use std::ops::Bound;

/// The sum of a kernel of this layer.
pub fn run(alloc: Global, request: Request<'_>) -> Result<u64, AllocError> {
    let (kernel, data, param, reps) = (request.kernel, request.data, request.param, request.reps);
    if kernel == CLASSES_OF {
        return look::classes_of(alloc, data, param, reps);
    }
    let [count, pairs @ ..] = data else {
        return Ok(0);
    };
    let size = 2 * usize::from(*count);
    if size > pairs.len() {
        return Ok(0);
    }
    let (pairs, haystack) = pairs.split_at(size);
    match ranges_of(alloc, pairs)? {
        Some(ranges) => Ok(over_ranges(kernel, &ranges, haystack, param, reps)),
        None => Ok(0),
    }
}

// The ranges whose first and last bytes are next to each other, or `None` where a last byte is below its first.
pub fn ranges_of(alloc: Global, pairs: &[u8]) -> Result<Option<Vec<(u8, u8)>>, AllocError>
    ensures { IfOk result (λ found. IfSome found (λ ranges. All (λ r. r.0 ≤ r.1) ranges.items)) }
{
    let mut ranges = Vec::new(alloc);
    for pair in pairs.chunks_exact(2) {
        match pair {
            [start, end] if *start <= *end => ranges.push((*start, *end))?,
            _ => return Ok(None),
        }
    }
    Ok(Some(ranges))
}

fn over_ranges(kernel: u32, ranges: &[(u8, u8)], haystack: &[u8], param: u64, reps: u64) -> u64
    requires { All (λ r. r.0 ≤ r.1) ranges.now }
{
    let mut boundaries = ByteClassSet::empty();
    for &(start, end) in ranges {
        boundaries.set_range(start, end);
    }
    match kernel {
        BYTE_CLASSES => repeat(reps, |sum| classes_of_set(&boundaries, sum)),
        CLASSES_OF_RANGES => {
            let mut sum = 0u64;
            for _ in 0..reps {
                sum = classes_of_list(ranges, sum);
            }
            sum
        }
        BYTESET_CONTAINS..=BYTESET_RANGES => over_members(
            kernel,
            &members_of(ranges),
            haystack,
            reps,
        ),
        _ => over_map(kernel, &boundaries.byte_classes(), haystack, param, reps),
    }
}

fn over_map(kernel: u32, classes: &ByteClasses, haystack: &[u8], param: u64, reps: u64) -> u64 {
    match kernel {
        MAP_GET => repeat(reps, |sum| classes_in(classes, haystack, sum)),
        MAP_ITER => repeat(reps, |sum| symbols(classes, sum)),
        MAP_REPS => repeat(reps, |sum| representatives(classes, sum)),
        MAP_ELEMS => {
            let class = (param % 256) as u8;
            repeat(reps, |sum| elements(classes, class, sum))
        }
        MAP_ELEMS_ALL => repeat(reps, |sum| elements_of_all(classes, sum)),
        _ => 0,
    }
}

fn over_members(kernel: u32, members: &ByteSet, haystack: &[u8], reps: u64) -> u64 {
    match kernel {
        BYTESET_CONTAINS => repeat(reps, |sum| members_in(members, haystack, sum)),
        BYTESET_ITER => repeat(reps, |sum| all_members(members, sum)),
        _ => repeat(reps, |sum| all_runs(members, sum)),
    }
}

// The bytes that are in a range.
fn members_of(ranges: &[(u8, u8)]) -> ByteSet {
    let mut members = ByteSet::empty();
    for &(start, end) in ranges {
        add_range(&mut members, start, end);
    }
    members
}

fn add_range(members: &mut ByteSet, start: u8, end: u8) {
    for byte in start..=end {
        members.add(byte);
    }
}

/// The classes of `a` and of the last byte, which hang on all boundaries below them.
#[inline(never)]
pub fn last(classes: &ByteClasses, sum: u64) -> u64 {
    sum.wrapping_add(u64::from(classes.get(b'a')))
        .wrapping_add(u64::from(classes.get(255)))
}

#[inline(never)]
fn classes_of_set(boundaries: &ByteClassSet, sum: u64) -> u64 {
    last(&boundaries.byte_classes(), sum)
}

#[inline(never)]
fn classes_of_list(ranges: &[(u8, u8)], sum: u64) -> u64
    requires { All (λ r. r.0 ≤ r.1) ranges.now }
{
    last(&classes_of_ranges(ranges), sum)
}

// The classes of a haystack's bytes.
#[inline(never)]
fn classes_in(classes: &ByteClasses, haystack: &[u8], sum: u64) -> u64 {
    let mut sum = sum;
    for byte in haystack {
        sum = sum.wrapping_add(u64::from(classes.get(*byte)));
    }
    sum
}

#[inline(never)]
fn symbols(classes: &ByteClasses, sum: u64) -> u64 {
    let mut sum = sum;
    for unit in classes.iter() {
        sum = sum.wrapping_add(unit.as_usize() as u64);
    }
    sum
}

#[inline(never)]
fn representatives(classes: &ByteClasses, sum: u64) -> u64 {
    let mut sum = sum;
    for unit in classes.representatives(Bound::Unbounded, Bound::Unbounded) {
        sum = sum.wrapping_add(unit.as_usize() as u64);
    }
    sum
}

#[inline(never)]
fn elements(classes: &ByteClasses, class: u8, sum: u64) -> u64 {
    elements_of(classes, Unit::u8(class), sum)
}

#[inline(never)]
fn elements_of_all(classes: &ByteClasses, sum: u64) -> u64 {
    let mut sum = sum;
    for class in classes.iter() {
        sum = elements_of(classes, class, sum);
    }
    sum
}

#[inline(always)]
fn elements_of(classes: &ByteClasses, class: Unit, sum: u64) -> u64 {
    let mut sum = sum;
    for unit in classes.elements(class) {
        sum = sum.wrapping_add(unit.as_usize() as u64);
    }
    sum
}

// How many of a haystack's bytes are members.
#[inline(never)]
fn members_in(members: &ByteSet, haystack: &[u8], sum: u64) -> u64 {
    let mut sum = sum;
    for byte in haystack {
        sum = sum.wrapping_add(u64::from(members.contains(*byte)));
    }
    sum
}

#[inline(never)]
fn all_members(members: &ByteSet, sum: u64) -> u64 {
    let mut sum = sum;
    for byte in members.iter() {
        sum = sum.wrapping_add(u64::from(byte));
    }
    sum
}

#[inline(never)]
fn all_runs(members: &ByteSet, sum: u64) -> u64 {
    let mut sum = sum;
    for (start, end) in members.iter_ranges() {
        sum = sum
            .wrapping_add(u64::from(start))
            .wrapping_add(u64::from(end));
    }
    sum
}
