//! Patterns as lists of the builder's calls.
//!
//! A call is a token, and takes its parts from those before it:
//!
//! ```text
//! l6162          the literal `ab`, by the digits of its bytes
//! c61-7a,5f-5f   a class of bytes
//! aStartLF       an assertion
//! e n            no byte; what never matches
//! , |            the last two parts one after the other; either of them
//! * + ? {2,3}    the last part repeated; with one more `?` lazily; `{2,}` has no limit
//! ( ) )year      nothing; the last part as a group, which begins at the `(`; with a name
//! ```
#![tactic(auto)]

use rsc_engine::{Builder, Error, Part};
use rsc_notation::bytes::{parse_bytes, parse_number, parse_range};
use rsc_notation::looks::look_of;
use std::alloc::Global;

/// The part that calls make, with a space between two of them, or `None` if they can't be read or leave more than one part.
///
/// # Errors
///
/// Out of memory.
pub fn parse_part<'n>(
    alloc: Global,
    builder: &Builder<'n>,
    calls: &'n [u8],
) -> Result<Option<Part<'n>>, Error> {
    let mut made = Calls {
        alloc,
        builder,
        parts: Vec::new(alloc),
    };
    for token in calls.split(|byte| *byte == b' ') {
        if token == b"(".as_slice() {
            continue;
        }
        match made.call(token)? {
            None => return Ok(None),
            Some(part) => made.parts.push(part)?,
        }
    }
    match (made.parts.pop(), made.parts.is_empty()) {
        (Some(whole), true) => Ok(Some(whole)),
        _ => Ok(None),
    }
}

// The parts that the calls so far have made.
#[derive(Drop)]
struct Calls<'b, 'n> {
    alloc: Global,
    builder: &'b Builder<'n>,
    parts: Vec<Part<'n>>,
}

impl<'n> Calls<'_, 'n> {
    // The part that a call makes, or `None` if it can't be read.
    fn call(&mut self, token: &'n [u8]) -> Result<Option<Part<'n>>, Error> {
        let Some((kind, rest)) = token.split_first() else {
            return Ok(None);
        };
        match *kind {
            b'l' => self.literal(rest),
            b'c' => self.class(rest),
            b'a' => match look_of(rest) {
                None => Ok(None),
                Some(look) => Ok(Some(self.builder.assertion(look))),
            },
            b'e' => Ok(Some(self.builder.empty())),
            b'n' => Ok(Some(self.builder.never())),
            b',' | b'|' => self.joined(*kind == b','),
            b')' => self.closed(rest),
            _ => match self.parts.pop() {
                None => Ok(None),
                Some(part) => self.repeated(*kind, rest, part),
            },
        }
    }

    fn literal(&self, digits: &[u8]) -> Result<Option<Part<'n>>, Error> {
        match parse_bytes(self.alloc, digits)? {
            None => Ok(None),
            Some(bytes) => Ok(Some(self.builder.literal(&bytes)?)),
        }
    }

    fn class(&self, text: &[u8]) -> Result<Option<Part<'n>>, Error> {
        let mut ranges = Vec::new(self.alloc);
        for range in text.split(|byte| *byte == b',') {
            match parse_range(range) {
                None => return Ok(None),
                Some(range) => ranges.push(range)?,
            }
        }
        Ok(Some(self.builder.class(&ranges)?))
    }

    fn joined(&mut self, is_then: bool) -> Result<Option<Part<'n>>, Error> {
        let (Some(other), Some(one)) = (self.parts.pop(), self.parts.pop()) else {
            return Ok(None);
        };
        if is_then {
            Ok(Some(self.builder.then(one, other)?))
        } else {
            Ok(Some(self.builder.either(one, other)?))
        }
    }

    fn closed(&mut self, name: &'n [u8]) -> Result<Option<Part<'n>>, Error> {
        let Some(part) = self.parts.pop() else {
            return Ok(None);
        };
        if name.is_empty() {
            return Ok(Some(self.builder.group(None, part)?));
        }
        match str::from_utf8(name) {
            Ok(name) => Ok(Some(self.builder.group(Some(name), part)?)),
            Err(_) => Ok(None),
        }
    }

    fn repeated(&self, kind: u8, rest: &[u8], part: Part<'n>) -> Result<Option<Part<'n>>, Error> {
        let is_lazy = rest.last() == Some(&b'?');
        Ok(match (kind, is_lazy) {
            (b'*', false) => Some(self.builder.star(part)?),
            (b'*', true) => Some(self.builder.star_lazy(part)?),
            (b'+', false) => Some(self.builder.plus(part)?),
            (b'+', true) => Some(self.builder.plus_lazy(part)?),
            (b'?', false) => Some(self.builder.optional(part)?),
            (b'?', true) => Some(self.builder.optional_lazy(part)?),
            (b'{', _) => self.counted(rest, is_lazy, part)?,
            _ => None,
        })
    }

    // The part repeated as often as `2,3}` or `2,}` says.
    fn counted(
        &self,
        text: &[u8],
        is_lazy: bool,
        part: Part<'n>,
    ) -> Result<Option<Part<'n>>, Error> {
        let mut halves = text.split(|byte| *byte == b',' || *byte == b'}');
        let (Some(min), Some(max)) = (halves.next(), halves.next()) else {
            return Ok(None);
        };
        let Some(min) = parse_number(min) else {
            return Ok(None);
        };
        let max = parse_number(max);
        Ok(Some(if is_lazy {
            self.builder.repeat_lazy(part, min, max)?
        } else {
            self.builder.repeat(part, min, max)?
        }))
    }
}
