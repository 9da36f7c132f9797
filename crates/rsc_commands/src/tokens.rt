//! The parts of a line: its tokens, and the haystack that one writes.

use rsc_notation::bytes::{parse_bytes, parse_number};
use std::alloc::{AllocError, Allocator};

/// The tokens of a line, which is split at each single space.
pub fn tokens_of<'a, A: Allocator + Copy + Drop>(
    alloc: A,
    line: &'a [u8],
) -> Result<Vec<&'a [u8], A>, AllocError> {
    let mut tokens = Vec::new(alloc);
    for token in line.split(|byte| *byte == b' ') {
        tokens.push(token)?;
    }
    Ok(tokens)
}

/// The bytes that `-` writes, which are none, or that a positive even number of hexadecimal digits write; `None` where
/// nothing is written so.
pub fn parse_hay<A: Allocator + Copy + Drop>(
    alloc: A,
    token: &[u8],
) -> Result<Option<Vec<u8, A>>, AllocError> {
    match token {
        [] => Ok(None),
        b"-" => Ok(Some(Vec::new(alloc))),
        _ => parse_bytes(alloc, token),
    }
}

/// The number that one to ten decimal digits write.
pub fn parse_short_number(token: &[u8]) -> Option<usize> {
    if token.len() > 10 {
        return None;
    }
    parse_number(token)
}
