//! Kernels over assertions, and sets of them.

use crate::alphabet::last;
use crate::numbers::{HOLDING, LOOK_AT, LOOKSET_UNION, SET_AT};
use crate::repeat::repeat;
use crate::request::Request;
use rsc_look::{Look, LookMatcher, LookSet, UnicodeWord};
use std::alloc::{AllocError, Global};

/// The sum of a kernel of this layer.
///
/// The lowest 32 bits of `param` are an assertion's number or the bits of a set; the byte above them is the line terminator.
pub fn run(alloc: Global, request: Request<'_>) -> Result<u64, AllocError> {
    let (kernel, data, param, reps) = (request.kernel, request.data, request.param, request.reps);
    let bits = (param % (1 << 32)) as u32;
    let matcher = matcher(((param >> 32) % 256) as u8);
    Ok(match kernel {
        LOOK_AT => match Look::from_repr(bits) {
            Some(look) => repeat(reps, |sum| positions(&matcher, look, data, sum)),
            None => 0,
        },
        SET_AT => match LookSet::from_bits(bits) {
            Some(set) => repeat(reps, |sum| positions_of_set(&matcher, set, data, sum)),
            None => 0,
        },
        HOLDING => repeat(reps, |sum| holding_at_positions(&matcher, data, sum)),
        LOOKSET_UNION => {
            let sets = sets_of(alloc, data)?;
            repeat(reps, |sum| unions(&sets, sum))
        }
        _ => {
            let sets = sets_of(alloc, data)?;
            repeat(reps, |sum| members(&sets, sum))
        }
    })
}

/// The sum of the kernel 12, the classes of a list of assertions; each byte of `data` is the number of one, from 0 to 17.
pub fn classes_of(alloc: Global, data: &[u8], param: u64, reps: u64) -> Result<u64, AllocError> {
    let looks = looks_of(alloc, data)?;
    let line_terminator = (param % 256) as u8;
    Ok(repeat(reps, |sum| classes_of_list(&looks, line_terminator, sum)))
}

pub fn matcher(line_terminator: u8) -> LookMatcher<UnicodeWord> {
    let mut matcher = LookMatcher::new(UnicodeWord);
    matcher.set_line_terminator(line_terminator);
    matcher
}

pub fn looks_of(alloc: Global, data: &[u8]) -> Result<Vec<Look>, AllocError> {
    let mut looks = Vec::new(alloc);
    for number in data {
        let repr = 1u32.checked_shl(u32::from(*number)).unwrap_or(0);
        if let Some(look) = Look::from_repr(repr) {
            looks.push(look)?;
        }
    }
    Ok(looks)
}

// Sets of four bytes, the least significant first.
fn sets_of(alloc: Global, data: &[u8]) -> Result<Vec<LookSet>, AllocError> {
    let mut sets = Vec::new(alloc);
    for bytes in data.chunks_exact(4) {
        if let [a, b, c, d] = bytes {
            if let Some(set) = LookSet::from_bits(u32::from_le_bytes([*a, *b, *c, *d])) {
                sets.push(set)?;
            }
        }
    }
    Ok(sets)
}

#[inline(never)]
fn classes_of_list(looks: &[Look], line_terminator: u8, sum: u64) -> u64 {
    last(&matcher(line_terminator).classes_of(looks), sum)
}

// At how many positions the assertion holds.
#[inline(never)]
fn positions(matcher: &LookMatcher<UnicodeWord>, look: Look, haystack: &[u8], sum: u64) -> u64 {
    let mut sum = sum;
    for at in 0..haystack.len() {
        sum = sum.wrapping_add(u64::from(matcher.matches(look, haystack, at)));
    }
    sum.wrapping_add(u64::from(matcher.matches(look, haystack, haystack.len())))
}

// At how many positions every assertion of the set holds.
#[inline(never)]
fn positions_of_set(
    matcher: &LookMatcher<UnicodeWord>,
    set: LookSet,
    haystack: &[u8],
    sum: u64,
) -> u64 {
    let mut sum = sum;
    for at in 0..haystack.len() {
        sum = sum.wrapping_add(u64::from(matcher.matches_set(set, haystack, at)));
    }
    sum.wrapping_add(u64::from(matcher.matches_set(set, haystack, haystack.len())))
}

// The bits of the sets of assertions that hold at each position.
#[inline(never)]
fn holding_at_positions(matcher: &LookMatcher<UnicodeWord>, haystack: &[u8], sum: u64) -> u64 {
    let mut sum = sum;
    for at in 0..haystack.len() {
        sum = sum.wrapping_add(u64::from(matcher.holding(haystack, at).bits()));
    }
    sum.wrapping_add(u64::from(matcher.holding(haystack, haystack.len()).bits()))
}

// The bits of the union of each two neighbouring sets.
#[inline(never)]
fn unions(sets: &[LookSet], sum: u64) -> u64 {
    let mut sum = sum;
    for pair in sets.windows(2) {
        if let [first, second] = pair {
            sum = sum.wrapping_add(u64::from(first.union(*second).bits()));
        }
    }
    sum
}

#[inline(never)]
fn members(sets: &[LookSet], sum: u64) -> u64 {
    let mut sum = sum;
    for set in sets {
        sum = members_of(*set, sum);
    }
    sum
}

#[inline(always)]
fn members_of(set: LookSet, sum: u64) -> u64 {
    let mut sum = sum;
    for look in set.iter() {
        sum = sum.wrapping_add(u64::from(look.as_repr()));
    }
    sum
}
