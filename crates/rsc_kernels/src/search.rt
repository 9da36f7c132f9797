//! Kernels over pattern sets.
ghost use Rattle.std.specs.Prelude.{◌≡◌, ◌<◌, ◌≤◌, All, IfOk, IfSome};

use crate::numbers::{
    PSET_AGAIN, PSET_CLEAR, PSET_CONTAINS, PSET_FILL, PSET_FILL_FIRST, PSET_ITER, PSET_TRY,
};
use crate::request::Request;
use rsc_primitives::PatternID;
use rsc_search::PatternSet;
use std::alloc::{AllocError, Global};

// How many sets are filled in turn.
const SETS: usize = 8;

/// The sum of a kernel of this layer. `param` is the set's capacity.
pub fn run(alloc: Global, request: Request<'_>) -> Result<u64, AllocError> {
    let (kernel, data, param, reps) = (request.kernel, request.data, request.param, request.reps);
    let ids = ids_of(alloc, data)?;
    let (Some(count), capacity) = (count_of(data), param as usize) else {
        return Ok(0);
    };
    if count > ids.len() || capacity > PatternID::LIMIT {
        return Ok(0);
    }
    let (members, queries) = ids.as_slice().split_at(count);
    if kernel == PSET_TRY {
        let mut sets = empty_sets(alloc, capacity)?;
        let mut sum = 0u64;
        for _ in 0..reps {
            sum = fill_in_turn(&mut sets, members, sum);
        }
        return Ok(sum);
    }
    match members_below(alloc, members, capacity)? {
        Some(members) => over_set(alloc, kernel, &members, queries, capacity, reps),
        None => Ok(0),
    }
}

// The members, or `None` where one isn't below the capacity.
fn members_below(
    alloc: Global,
    ids: &[PatternID],
    capacity: usize,
) -> Result<Option<Vec<PatternID>>, AllocError>
    ensures { IfOk result (λ found. IfSome found (λ members. All (λ p. p < capacity) members.items)) }
{
    let mut members = Vec::new(alloc);
    for id in ids {
        if id.as_usize() >= capacity {
            return Ok(None);
        }
        members.push(*id)?;
    }
    Ok(Some(members))
}

fn over_set(
    alloc: Global,
    kernel: u32,
    members: &[PatternID],
    queries: &[PatternID],
    capacity: usize,
    reps: u64,
) -> Result<u64, AllocError>
    requires limit { capacity ≤ PatternID.LIMIT }
    requires below { All (λ p. p < capacity) members.now }
{
    let mut set = PatternSet::new(alloc, capacity)?;
    if kernel == PSET_FILL || kernel == PSET_FILL_FIRST {
        let (first, _) = members.split_at(members.len().min(1));
        let put_in = if kernel == PSET_FILL { members } else { first };
        return Ok(fillings(set, put_in, reps));
    }
    if kernel != PSET_CLEAR {
        refused(&mut set, members, 0);
    }
    let mut sum = 0u64;
    for _ in 0..reps {
        sum = pass(kernel, &mut set, members, queries, sum);
    }
    Ok(sum)
}

// The first number of the input, which says how many of the others are members.
pub fn count_of(data: &[u8]) -> Option<usize> {
    match data {
        [a, b, c, d, ..] => Some(u32::from_le_bytes([*a, *b, *c, *d]) as usize),
        _ => None,
    }
}

// All other numbers of the input.
pub fn ids_of(alloc: Global, data: &[u8]) -> Result<Vec<PatternID>, AllocError> {
    let mut ids = Vec::new(alloc);
    for bytes in data.chunks_exact(4).skip(1) {
        if let [a, b, c, d] = bytes {
            if let Ok(id) = PatternID::from_le_bytes([*a, *b, *c, *d]) {
                ids.push(id)?;
            }
        }
    }
    Ok(ids)
}

#[inline(always)]
fn pass(
    kernel: u32,
    set: &mut PatternSet,
    members: &[PatternID],
    queries: &[PatternID],
    sum: u64,
) -> u64
    requires { All (λ p. p < set.old.capacity) members.now }
    ensures { set.new.capacity ≡ set.old.capacity }
{
    match kernel {
        PSET_CLEAR => clear(set, members, sum),
        PSET_AGAIN => refused(set, members, sum),
        PSET_CONTAINS => found(set, queries, sum),
        PSET_ITER => sum_of_members(set, sum),
        _ => sum_from_back(set, sum),
    }
}

fn fillings(set: PatternSet, members: &[PatternID], reps: u64) -> u64
    requires { All (λ p. p < set.capacity) members.now }
{
    let (mut set, mut sum) = (set, 0u64);
    for _ in 0..reps {
        let (emptied, more) = fill(set, members, sum);
        set = emptied;
        sum = more;
    }
    sum
}

// How many are new when all are put in, and how many members there are then; the set is empty before and after. It is handed over
// and back, so that the loop has it in variables of its own, as the original's has.
#[inline(never)]
fn fill(set: PatternSet, members: &[PatternID], sum: u64) -> (PatternSet, u64)
    requires { All (λ p. p < set.capacity) members.now }
    ensures { result.0.capacity ≡ set.capacity }
{
    let (mut set, mut sum) = (set, sum);
    for id in members {
        sum = sum.wrapping_add(u64::from(set.insert(*id)));
    }
    sum = sum.wrapping_add(set.len() as u64);
    set.clear();
    (set, sum)
}

fn empty_sets(alloc: Global, capacity: usize) -> Result<Vec<PatternSet>, AllocError>
    requires { capacity ≤ PatternID.LIMIT }
{
    let mut sets = Vec::new(alloc);
    for _ in 0..SETS {
        sets.push(PatternSet::new(alloc, capacity)?)?;
    }
    Ok(sets)
}

// How many are new when each is put into all sets, one set after the other; the sets are empty before and after.
#[inline(never)]
fn fill_in_turn(sets: &mut [PatternSet], members: &[PatternID], sum: u64) -> u64 {
    let mut sum = sum;
    for id in members {
        sum = put_into_all(sets, *id, sum);
    }
    for set in sets {
        set.clear();
    }
    sum
}

#[inline(always)]
fn put_into_all(sets: &mut [PatternSet], id: PatternID, sum: u64) -> u64 {
    let mut sum = sum;
    for set in sets {
        if let Ok(is_new) = set.try_insert(id) {
            sum = sum.wrapping_add(u64::from(is_new));
        }
    }
    sum
}

// How many are new when the first alone is put in; the set is empty before and after.
#[inline(never)]
fn clear(set: &mut PatternSet, members: &[PatternID], sum: u64) -> u64
    requires { All (λ p. p < set.old.capacity) members.now }
    ensures { set.new.capacity ≡ set.old.capacity }
{
    let mut sum = sum;
    if let Some(id) = members.first() {
        sum = sum.wrapping_add(u64::from(set.insert(*id)));
    }
    set.clear();
    sum
}

// How many aren't new when all are put in.
#[inline(never)]
fn refused(set: &mut PatternSet, members: &[PatternID], sum: u64) -> u64
    requires { All (λ p. p < set.old.capacity) members.now }
    ensures { set.new.capacity ≡ set.old.capacity }
{
    let mut sum = sum;
    for id in members {
        sum = sum.wrapping_add(u64::from(!set.insert(*id)));
    }
    sum
}

// How many are members.
#[inline(never)]
fn found(set: &PatternSet, queries: &[PatternID], sum: u64) -> u64 {
    let mut sum = sum;
    for id in queries {
        sum = sum.wrapping_add(u64::from(set.contains(*id)));
    }
    sum
}

#[inline(never)]
fn sum_of_members(set: &PatternSet, sum: u64) -> u64 {
    let mut sum = sum;
    for id in set.iter() {
        sum = sum.wrapping_add(id.as_u64());
    }
    sum
}

#[inline(never)]
fn sum_from_back(set: &PatternSet, sum: u64) -> u64 {
    let mut sum = sum;
    for id in set.iter().rev() {
        sum = sum.wrapping_add(id.as_u64());
    }
    sum
}
