//! The command `ranges`: the classes of a list of byte ranges.
ghost use Rattle.std.specs.Prelude.{◌≤◌, All, IfSome, IfOk};

use crate::classes::describe;
use rsc_alphabet::classes_of_ranges;
use rsc_notation::bytes::parse_range;
use std::alloc::{AllocError, Allocator};

/// The answer to the arguments of `ranges`, or `None` where one of them is no range.
pub fn answer<A: Allocator + Copy + Drop>(
    alloc: A,
    arguments: &[&[u8]],
) -> Result<Option<String<A>>, AllocError> {
    match ranges_of(alloc, arguments)? {
        None => Ok(None),
        Some(ranges) => Ok(Some(describe(alloc, &classes_of_ranges(&ranges))?)),
    }
}

// The ranges, or `None` where a token is no range.
fn ranges_of<A: Allocator + Copy + Drop>(
    alloc: A,
    tokens: &[&[u8]],
) -> Result<Option<Vec<(u8, u8), A>>, AllocError>
    ensures { IfOk result (λ o. IfSome o (λ v. All (λ r. r.0 ≤ r.1) v.items)) }
{
    let mut ranges = Vec::new(alloc);
    for token in tokens {
        match parse_range(token) {
            Some(range) => ranges.push(range)?,
            None => return Ok(None),
        }
    }
    Ok(Some(ranges))
}
