//! The commands `looks` and `look`: the classes of a list of assertions, and whether one holds at a position.

use crate::classes::describe;
use crate::tokens::{parse_hay, parse_short_number};
use rsc_look::{Look, LookMatcher, UnicodeWord};
use rsc_notation::bytes::parse_byte;
use rsc_notation::looks::look_of;
use std::alloc::{AllocError, Allocator};

/// The answer to the arguments of `looks`, or `None` where they aren't a terminator and names of assertions.
pub fn answer_classes<A: Allocator + Copy + Drop>(
    alloc: A,
    arguments: &[&[u8]],
) -> Result<Option<String<A>>, AllocError> {
    let [terminator, names @ ..] = arguments else {
        return Ok(None);
    };
    let Some(terminator) = parse_byte(terminator) else {
        return Ok(None);
    };
    match looks_of(alloc, names)? {
        None => Ok(None),
        Some(looks) => {
            let classes = matcher(terminator).classes_of(&looks);
            Ok(Some(describe(alloc, &classes)?))
        }
    }
}

/// The answer to the arguments of `look`, or `None` where they aren't an assertion, a terminator, a haystack and a position
/// of it.
pub fn answer_at<A: Allocator + Copy + Drop>(
    alloc: A,
    arguments: &[&[u8]],
) -> Result<Option<String<A>>, AllocError> {
    let [name, terminator, hay, at] = arguments else {
        return Ok(None);
    };
    let Some(look) = look_of(name) else {
        return Ok(None);
    };
    let Some(terminator) = parse_byte(terminator) else {
        return Ok(None);
    };
    let Some(at) = parse_short_number(at) else {
        return Ok(None);
    };
    let Some(haystack) = parse_hay(alloc, hay)? else {
        return Ok(None);
    };
    if at > haystack.len() {
        return Ok(None);
    }
    let holds = matcher(terminator).matches(look, haystack.as_slice(), at);
    Ok(Some(String::from_str(alloc, if holds { "true" } else { "false" })?))
}

// The matcher over Unicode's word characters with that line terminator.
fn matcher(terminator: u8) -> LookMatcher<UnicodeWord> {
    let mut matcher = LookMatcher::new(UnicodeWord);
    let _ = matcher.set_line_terminator(terminator);
    matcher
}

// The assertions of these names, or `None` where one of them is no name of an assertion.
fn looks_of<A: Allocator + Copy + Drop>(
    alloc: A,
    names: &[&[u8]],
) -> Result<Option<Vec<Look, A>>, AllocError> {
    let mut looks = Vec::new(alloc);
    for name in names {
        match look_of(name) {
            Some(look) => looks.push(look)?,
            None => return Ok(None),
        }
    }
    Ok(Some(looks))
}
