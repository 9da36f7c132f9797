//! Kernels of what engines do with the calls: scans, steps of an automaton, and the classes, captures and pattern sets of matches.
ghost use Rattle.std.specs.Prelude.{◌≤◌, All};

use crate::alphabet::{last, ranges_of};
use crate::groups;
use crate::look::{looks_of, matcher};
use crate::numbers::{MATCH_CAPTURES, MATCH_SETS, PATTERN_CLASSES, SCAN, STEPS};
use crate::repeat::repeat;
use crate::request::Request;
use crate::search::{count_of, ids_of};
use rsc_alphabet::{ByteClassSet, ByteClasses, classes_of_ranges};
use rsc_captures::{Captures, GroupInfo};
use rsc_look::{Look, LookMatcher, UnicodeWord};
use rsc_primitives::{NonMaxUsize, PatternID};
use rsc_search::PatternSet;
use std::alloc::{AllocError, Global};

// What the index of a transition is multiplied by to choose a state.
const SPREAD: u64 = 0x9E37_79B9_7F4A_7C15;

// How many states an automaton may have at most.
const STATES: u64 = 65_536;

/// The sum of a kernel of what engines do.
pub fn run(alloc: Global, request: Request<'_>) -> Result<u64, AllocError> {
    let (kernel, data, param, reps) = (request.kernel, request.data, request.param, request.reps);
    match kernel {
        SCAN => Ok(scan(data, param, reps)),
        STEPS => steps(alloc, data, param, reps),
        PATTERN_CLASSES => classes_of_patterns(alloc, data, param, reps),
        MATCH_CAPTURES => captures_of_matches(alloc, data, param as usize, reps),
        MATCH_SETS => sets_of_matches(alloc, data, param as usize, reps),
        _ => Ok(0),
    }
}

fn scan(data: &[u8], param: u64, reps: u64) -> u64 {
    let matcher = matcher(((param >> 32) % 256) as u8);
    match Look::from_repr((param % (1 << 32)) as u32) {
        Some(look) => repeat(reps, |sum| positions(&matcher, look, data, sum)),
        None => 0,
    }
}

// The positions at which the assertion holds.
#[inline(never)]
fn positions(matcher: &LookMatcher<UnicodeWord>, look: Look, haystack: &[u8], sum: u64) -> u64 {
    let mut sum = sum;
    for at in 0..haystack.len() {
        if matcher.matches(look, haystack, at) {
            sum = sum.wrapping_add(at as u64);
        }
    }
    if matcher.matches(look, haystack, haystack.len()) {
        sum = sum.wrapping_add(haystack.len() as u64);
    }
    sum
}

fn steps(alloc: Global, data: &[u8], param: u64, reps: u64) -> Result<u64, AllocError> {
    let [count, pairs @ ..] = data else {
        return Ok(0);
    };
    let size = 2 * usize::from(*count);
    if size > pairs.len() || param == 0 || param > STATES {
        return Ok(0);
    }
    let (pairs, haystack) = pairs.split_at(size);
    let Some(ranges) = ranges_of(alloc, pairs)? else {
        return Ok(0);
    };
    let classes = classes_of_ranges(&ranges);
    let table = transitions(alloc, param, &classes)?;
    Ok(repeat(reps, |sum| last_state(&classes, &table, haystack, sum)))
}

// A row for each state, whose entries say where the next row begins.
fn transitions(alloc: Global, states: u64, classes: &ByteClasses) -> Result<Vec<u32>, AllocError>
    requires { 1 ≤ states }
{
    let stride2 = classes.stride2();
    let mut table = Vec::new(alloc);
    for index in 0..states << stride2 {
        let state = (index.wrapping_mul(SPREAD) >> 32) % states;
        table.push(((state << stride2) % (1 << 32)) as u32)?;
    }
    Ok(table)
}

// Where the row of the state begins in which a haystack ends, by one look at the table for each byte.
#[inline(never)]
fn last_state(classes: &ByteClasses, table: &[u32], haystack: &[u8], sum: u64) -> u64 {
    let mut state = 0u32;
    for byte in haystack {
        match table.get(state as usize + usize::from(classes.get(*byte))) {
            Some(next) => state = *next,
            None => return sum,
        }
    }
    sum.wrapping_add(u64::from(state))
}

fn classes_of_patterns(
    alloc: Global,
    data: &[u8],
    param: u64,
    reps: u64,
) -> Result<u64, AllocError> {
    let [count, numbers @ ..] = data else {
        return Ok(0);
    };
    let size = usize::from(*count);
    if size > numbers.len() {
        return Ok(0);
    }
    let (numbers, pairs) = numbers.split_at(size);
    let looks = looks_of(alloc, numbers)?;
    let Some(ranges) = ranges_of(alloc, pairs)? else {
        return Ok(0);
    };
    let matcher = matcher((param % 256) as u8);
    let mut sum = 0u64;
    for _ in 0..reps {
        sum = classes_of(&matcher, &ranges, &looks, sum);
    }
    Ok(sum)
}

// The classes that both the ranges and the assertions need.
#[inline(never)]
fn classes_of(
    matcher: &LookMatcher<UnicodeWord>,
    ranges: &[(u8, u8)],
    looks: &[Look],
    sum: u64,
) -> u64
    requires { All (λ r. r.0 ≤ r.1) ranges.now }
{
    let mut set = ByteClassSet::empty();
    for &(start, end) in ranges {
        set.set_range(start, end);
    }
    for look in looks {
        matcher.add_to_byteset(*look, &mut set);
    }
    last(&set.byte_classes(), sum)
}

fn captures_of_matches(
    alloc: Global,
    data: &[u8],
    matches: usize,
    reps: u64,
) -> Result<u64, AllocError> {
    let held = groups::lists_of(alloc, data)?;
    let lists = groups::slices_of(alloc, held.as_slice())?;
    let Ok(info) = GroupInfo::new(alloc, &lists) else {
        return Ok(0);
    };
    let names = groups::names_of(alloc, &lists)?;
    let mut captures = Captures::all(alloc, info)?;
    let mut sum = 0u64;
    for _ in 0..reps {
        sum = spans_of_matches(&mut captures, &names, matches, sum);
    }
    Ok(sum)
}

// The spans of the named groups of each match.
#[inline(never)]
fn spans_of_matches(
    captures: &mut Captures,
    names: &[(PatternID, &str)],
    matches: usize,
    sum: u64,
) -> u64 {
    let mut sum = sum;
    for at in 0..matches {
        captures.clear();
        captures.set_pattern(Some(PatternID::ZERO));
        fill(captures, at);
        sum = spans_by_name(captures, names, sum);
    }
    sum
}

// Writes the numbers from `at` on into the slots.
#[inline(always)]
fn fill(captures: &mut Captures, at: usize) {
    for (i, slot) in captures.slots_mut().iter_mut().enumerate() {
        *slot = NonMaxUsize::new(at.wrapping_add(i));
    }
}

#[inline(always)]
fn spans_by_name(captures: &Captures, names: &[(PatternID, &str)], sum: u64) -> u64 {
    let mut sum = sum;
    for &(_, name) in names {
        if let Some(span) = captures.get_group_by_name(name) {
            sum = sum
                .wrapping_add(span.start as u64)
                .wrapping_add(span.end as u64);
        }
    }
    sum
}

fn sets_of_matches(
    alloc: Global,
    data: &[u8],
    capacity: usize,
    reps: u64,
) -> Result<u64, AllocError> {
    let ids = ids_of(alloc, data)?;
    let Some(count) = count_of(data) else {
        return Ok(0);
    };
    if count == 0 || capacity > PatternID::LIMIT {
        return Ok(0);
    }
    let mut set = PatternSet::new(alloc, capacity)?;
    let mut sum = 0u64;
    for _ in 0..reps {
        sum = members_of_matches(&mut set, &ids, count, sum);
    }
    Ok(sum)
}

// The members of the set of each match.
#[inline(never)]
fn members_of_matches(set: &mut PatternSet, ids: &[PatternID], count: usize, sum: u64) -> u64
    requires { 1 ≤ count }
{
    let mut sum = sum;
    for matched in ids.chunks(count) {
        set.clear();
        insert_all(set, matched);
        sum = members(set, sum);
    }
    sum
}

#[inline(always)]
fn insert_all(set: &mut PatternSet, ids: &[PatternID]) {
    for id in ids {
        let _ = set.try_insert(*id);
    }
}

#[inline(always)]
fn members(set: &PatternSet, sum: u64) -> u64 {
    let mut sum = sum;
    for id in set.iter() {
        sum = sum.wrapping_add(id.as_u64());
    }
    sum
}
