//! Kernels over small indices, UTF-8 and bytes shown as text.
ghost use Rattle.std.specs.Prelude.{◌≤◌};

use crate::numbers::{
    BYTE_TEXT, CHAR_BOUNDARIES, DECODE, DECODE_LAST, HAYSTACK_TEXT, PATTERN_ITER, SMALL_NEW,
    WORD_BYTES,
};
use crate::repeat::repeat;
use crate::request::Request;
use rsc_primitives::escape::{byte_text, haystack_text};
use rsc_primitives::utf8::{decode, decode_last, is_boundary, is_word_byte};
use rsc_primitives::{PatternID, SmallIndex};
use std::alloc::{AllocError, Global};

/// The sum of a kernel of this layer.
pub fn run(alloc: Global, request: Request<'_>) -> Result<u64, AllocError> {
    let (kernel, data, param, reps) = (request.kernel, request.data, request.param, request.reps);
    Ok(match kernel {
        WORD_BYTES => repeat(reps, |sum| word_bytes(data, sum)),
        DECODE => repeat(reps, |sum| decoded(data, sum)),
        DECODE_LAST => repeat(reps, |sum| decoded_last(data, sum)),
        CHAR_BOUNDARIES => repeat(reps, |sum| char_boundaries(data, sum)),
        HAYSTACK_TEXT => repeat(reps, |sum| text_of_haystack(alloc, data, sum)),
        BYTE_TEXT => repeat(reps, |sum| texts_of_bytes(alloc, data, sum)),
        SMALL_NEW => {
            let numbers = numbers_of(alloc, data)?;
            repeat(reps, |sum| small_indices(&numbers, sum))
        }
        PATTERN_ITER => repeat(reps, |sum| pattern_ids(param as usize, sum)),
        _ => 0,
    })
}

// Numbers of eight bytes, the least significant first.
fn numbers_of(alloc: Global, data: &[u8]) -> Result<Vec<usize>, AllocError> {
    let mut numbers = Vec::new(alloc);
    for bytes in data.chunks_exact(8) {
        if let [a, b, c, d, e, f, g, h] = bytes {
            numbers.push(u64::from_le_bytes([*a, *b, *c, *d, *e, *f, *g, *h]) as usize)?;
        }
    }
    Ok(numbers)
}

// How many bytes are word bytes.
#[inline(never)]
fn word_bytes(data: &[u8], sum: u64) -> u64 {
    let mut sum = sum;
    for byte in data {
        sum = sum.wrapping_add(u64::from(is_word_byte(*byte)));
    }
    sum
}

// The characters' numbers, and the bytes that are in no character, from the front.
#[inline(never)]
fn decoded(data: &[u8], sum: u64) -> u64 {
    let mut sum = sum;
    let mut rest = data;
    'steps: while let Some(found) = decode(rest) {
        let (number, size) = seen(found);
        sum = sum.wrapping_add(number);
        match rest.get(size..) {
            Some(after) => rest = after,
            None => return sum,
        }
    }
    sum
}

// The same from the back.
#[inline(never)]
fn decoded_last(data: &[u8], sum: u64) -> u64 {
    let mut sum = sum;
    let mut rest = data;
    'steps: while let Some(found) = decode_last(rest) {
        let (number, size) = seen(found);
        sum = sum.wrapping_add(number);
        if size > rest.len() {
            return sum;
        }
        rest = &rest[..rest.len() - size];
    }
    sum
}

// The number of what was read, and how many bytes it takes.
#[inline(always)]
fn seen(found: Result<char, u8>) -> (u64, usize)
    ensures { 1 ≤ result.1 }
{
    match found {
        Ok(c) => (u64::from(c as u32), encoded_length(c)),
        Err(byte) => (u64::from(byte), 1),
    }
}

// As many bytes as std's `len_utf8` says. That one is compiled alone first, to conditional moves, on which the position of the next
// character then waits; the original's is compiled with its caller, and so is this one.
#[inline(always)]
fn encoded_length(c: char) -> usize
    ensures { 1 ≤ result }
{
    match c as u32 {
        0..=0x7F => 1,
        0x80..=0x7FF => 2,
        0x800..=0xFFFF => 3,
        _ => 4,
    }
}

// How many positions are character boundaries.
#[inline(never)]
fn char_boundaries(data: &[u8], sum: u64) -> u64 {
    let mut sum = sum;
    for at in 0..data.len() {
        sum = sum.wrapping_add(u64::from(is_boundary(data, at)));
    }
    sum.wrapping_add(u64::from(is_boundary(data, data.len())))
}

// The length of the haystack's text.
#[inline(never)]
fn text_of_haystack(alloc: Global, data: &[u8], sum: u64) -> u64 {
    match haystack_text(alloc, data) {
        Ok(text) => sum.wrapping_add(text.len() as u64),
        Err(_) => sum,
    }
}

// The lengths of the texts of the bytes.
#[inline(never)]
fn texts_of_bytes(alloc: Global, data: &[u8], sum: u64) -> u64 {
    let mut sum = sum;
    for byte in data {
        if let Ok(text) = byte_text(alloc, *byte) {
            sum = sum.wrapping_add(text.len() as u64);
        }
    }
    sum
}

// The indices of the numbers, and the lowest byte of each that is refused.
#[inline(never)]
fn small_indices(numbers: &[usize], sum: u64) -> u64 {
    let mut sum = sum;
    for number in numbers {
        let added = match SmallIndex::new(*number) {
            Ok(index) => index.as_u64(),
            Err(error) => error.attempted() & 0xFF,
        };
        sum = sum.wrapping_add(added);
    }
    sum
}

// A mix of the first pattern numbers, in their order.
#[inline(never)]
fn pattern_ids(len: usize, sum: u64) -> u64 {
    if len > PatternID::LIMIT {
        return sum;
    }
    let mut mix = 0u64;
    for id in PatternID::iter(len) {
        mix = mix.rotate_left(1) ^ id.as_u64();
    }
    sum.wrapping_add(mix)
}
