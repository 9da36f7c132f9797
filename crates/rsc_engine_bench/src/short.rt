//! All short texts by `find`, a DFA and a slow reader of the definition.

use crate::timed::Fail;
use rsc_captures::Captures;
use rsc_engine::{Builder, Dfa, Error, Part, Program, find};
use rsc_look::{Look, LookSet, UnicodeWord};
use rsc_nfa::State;
use rsc_primitives::StateID;
use rsc_search::{Input, Span};
use std::alloc::Global;

// The bytes of the texts, the last two of which are é.
const BYTES: [u8; 6] = [b'a', b'b', b'\n', b' ', 0xC3, 0xA9];

/// The number of texts of at most that many bytes, at most six, and of programs and texts on which two of the three differ.
pub fn compare_all(alloc: Global, most: usize) -> Result<(usize, usize), Fail> {
    let mut texts = 0;
    let mut differences = 0_usize;
    for look in LookSet::full().iter() {
        let program = made(alloc, look)?;
        let mut captures = program.captures(alloc)?;
        let mut dfa = Dfa::new(alloc, &program, 1000);
        texts = 0_usize;
        for len in 0..=most.min(6) {
            for number in 0..6_usize.saturating_pow(len as u32) {
                let bytes = text_of(number);
                if let Some(text) = bytes.get(..len) {
                    texts = texts.saturating_add(1);
                    if !agree(alloc, &program, &mut dfa, text, &mut captures)? {
                        differences = differences.saturating_add(1);
                    }
                }
            }
        }
    }
    Ok((texts, differences))
}

// The text of a number: its digits in base six.
fn text_of(number: usize) -> [u8; 6] {
    let mut rest = number;
    let mut bytes = [0; 6];
    for byte in &mut bytes {
        *byte = BYTES[rest % 6];
        rest /= 6;
    }
    bytes
}

// `Lb|aL(?:a|é)+|(?:b|\n)*?L ` for an assertion L.
fn made(alloc: Global, look: Look) -> Result<Program<UnicodeWord>, Error> {
    let builder = Builder::new(alloc);
    let whole = whole(&builder, look)?;
    builder.build(UnicodeWord, false, whole)
}

// The pattern.
fn whole(builder: &Builder<'static>, look: Look) -> Result<Part<'static>, Error> {
    let one = builder.then(builder.assertion(look), builder.range(b'b', b'b'))?;
    let two = builder.either(two(builder, look)?, three(builder, look)?)?;
    builder.either(one, two)
}

// Its second alternative.
fn two(builder: &Builder<'static>, look: Look) -> Result<Part<'static>, Error> {
    let letter = builder.either(builder.range(b'a', b'a'), builder.literal(b"\xC3\xA9")?)?;
    let a = builder.then(builder.range(b'a', b'a'), builder.assertion(look))?;
    builder.then(a, builder.plus(letter)?)
}

// Its third one.
fn three(builder: &Builder<'static>, look: Look) -> Result<Part<'static>, Error> {
    let byte = builder.either(builder.range(b'b', b'b'), builder.range(b'\n', b'\n'))?;
    let last = builder.then(builder.assertion(look), builder.range(b' ', b' '))?;
    builder.then(builder.star_lazy(byte)?, last)
}

// Whether the three agree on a text.
fn agree(
    alloc: Global,
    program: &Program<UnicodeWord>,
    dfa: &mut Dfa<'_, UnicodeWord>,
    text: &[u8],
    captures: &mut Captures,
) -> Result<bool, Fail> {
    let input = Input::new(text);
    let found = find(alloc, program, &input, captures)?.map(|m| (m.start(), m.end()));
    if found != expected(alloc, program, text)? || !answers(dfa, &input, found, captures)? {
        return Ok(false);
    }
    match dfa.earliest_end(&input)? {
        None => Ok(found.is_none()),
        Some(end) => Ok(
            ends_by(alloc, program, text, end, captures)?
                && !ends_before(alloc, program, text, end, captures)?,
        ),
    }
}

// Whether the DFA answers what was found.
fn answers(
    dfa: &mut Dfa<'_, UnicodeWord>,
    input: &Input<'_>,
    found: Option<(usize, usize)>,
    captures: &mut Captures,
) -> Result<bool, Fail> {
    let is_match = dfa.is_match(input)?;
    let end = dfa.leftmost_end(input)?;
    let by_dfa = dfa.find(input, captures)?.map(|m| (m.start(), m.end()));
    Ok(is_match == found.is_some() && end == found.map(|ends| ends.1) && by_dfa == found)
}

// Whether a match ends at the position or before.
fn ends_by(
    alloc: Global,
    program: &Program<UnicodeWord>,
    text: &[u8],
    end: usize,
    captures: &mut Captures,
) -> Result<bool, Fail> {
    if end > text.len() {
        return Ok(false);
    }
    let input = Input::new(text).span(Span { start: 0, end });
    Ok(find(alloc, program, &input, captures)?.is_some())
}

// Whether a match ends before the position.
fn ends_before(
    alloc: Global,
    program: &Program<UnicodeWord>,
    text: &[u8],
    end: usize,
    captures: &mut Captures,
) -> Result<bool, Fail> {
    match end.checked_sub(1) {
        None => Ok(false),
        Some(last) => ends_by(alloc, program, text, last, captures),
    }
}

// The ends of the first match by the definition.
fn expected(
    alloc: Global,
    program: &Program<UnicodeWord>,
    text: &[u8],
) -> Result<Option<(usize, usize)>, Fail> {
    for start in 0..=text.len() {
        if let Some(end) = preferred(alloc, program, text, start)? {
            return Ok(Some((start, end)));
        }
    }
    Ok(None)
}

// The end of the first of the runs from a position that come to no place twice, in the order of their forks. No place is remembered.
fn preferred(
    alloc: Global,
    program: &Program<UnicodeWord>,
    text: &[u8],
    at: usize,
) -> Result<Option<usize>, Fail> {
    let mut path = Vec::new(alloc);
    let mut tried: Vec<u8> = Vec::new(alloc);
    path.push((program.start(), at))?;
    tried.push(0)?;
    for _ in 0..100_000 {
        let Some((sid, position)) = path.last().copied() else {
            return Ok(None);
        };
        if accepts(program, sid) {
            return Ok(Some(position));
        }
        let way = tried.pop().unwrap_or(2);
        if way >= 2 {
            path.pop();
            continue;
        }
        tried.push(way + 1)?;
        if let Some(next) = step(program, text, sid, position, way == 1) {
            if !path.as_slice().contains(&next) {
                path.push(next)?;
                tried.push(0)?;
            }
        }
    }
    Ok(None)
}

fn accepts(program: &Program<UnicodeWord>, sid: StateID) -> bool {
    matches!(
        program.nfa().states().get(sid.as_usize()),
        Some(State::Accept { .. })
    )
}

// Where a step leads from a place, by its first or its other way.
fn step(
    program: &Program<UnicodeWord>,
    text: &[u8],
    sid: StateID,
    at: usize,
    other: bool,
) -> Option<(StateID, usize)> {
    match program.nfa().states().get(sid.as_usize())? {
        State::ByteRange { start, end, next } => match text.get(at) {
            Some(byte) if !other && start <= byte && byte <= end => Some((
                *next,
                at.saturating_add(1),
            )),
            _ => None,
        },
        State::Assert { look, next } => {
            let holds = at <= text.len() && program.nfa().matcher().matches(*look, text, at);
            if !other && holds {
                Some((*next, at))
            } else {
                None
            }
        }
        State::Fork { a, b } => Some((if other { *b } else { *a }, at)),
        State::Capture { next, .. } => { if other { None } else { Some((*next, at)) } }
        State::Accept { .. } => None,
    }
}
