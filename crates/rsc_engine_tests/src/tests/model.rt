//! A slow reader of the definition beside `find`, over all texts of up to four bytes of five.
use crate::made::{accept, assertion, byte, first, fork, program, range};
use rsc_engine::{Error, Program};
use rsc_look::{AsciiWord, Look};
use rsc_nfa::State;
use rsc_primitives::StateID;
use rsc_search::Input;
use std::alloc::Global;
use std::test::Fail;

const BYTES: [u8; 5] = [b'a', b'b', b'\n', 0xC3, 0xA9];

// Texts of up to four bytes.
const TEXTS: usize = 1 + 5 + 25 + 125 + 625;

// The bytes of a text, and how many of them it has.
fn text_of(number: usize) -> ([u8; 4], usize) {
    let (first, len) = match number {
        0 => (0, 0),
        1..=5 => (1, 1),
        6..=30 => (6, 2),
        31..=155 => (31, 3),
        _ => (156, 4),
    };
    let mut rest = number - first;
    let mut bytes = [0; 4];
    for byte in &mut bytes {
        *byte = BYTES[rest % 5];
        rest /= 5;
    }
    (bytes, len)
}

// The states of the pattern of that number.
fn states_of(number: usize) -> [State; 6] {
    match number {
        // (?:a*)*
        0 => [
            fork(1, 3),
            fork(2, 0),
            byte(b'a', 1),
            accept(0),
            accept(0),
            accept(0),
        ],
        // (?:a|b)*b
        1 => [
            fork(1, 4),
            fork(2, 3),
            byte(b'a', 0),
            byte(b'b', 0),
            byte(b'b', 5),
            accept(0),
        ],
        // (?:a*|b)*
        2 => [
            fork(1, 5),
            fork(2, 4),
            fork(3, 0),
            byte(b'a', 2),
            byte(b'b', 0),
            accept(0),
        ],
        // (?m)^a?$
        3 => [
            assertion(Look::StartLF, 1),
            fork(2, 3),
            byte(b'a', 3),
            assertion(Look::EndLF, 4),
            accept(0),
            accept(0),
        ],
        // \b(?:ab|a)
        4 => [
            assertion(Look::WordAscii, 1),
            fork(2, 4),
            byte(b'a', 3),
            byte(b'b', 5),
            byte(b'a', 5),
            accept(0),
        ],
        // (?:[ab]|\xC3)*b, a loop over ranges that are apart
        5 => [
            fork(1, 4),
            fork(2, 3),
            range(b'a', b'b', 0),
            byte(0xC3, 0),
            byte(b'b', 5),
            accept(0),
        ],
        // (?:[ab]|[b\xC3])*b, one over ranges that aren't
        6 => [
            fork(1, 4),
            fork(2, 3),
            range(b'a', b'b', 0),
            range(b'b', 0xC3, 0),
            byte(b'b', 5),
            accept(0),
        ],
        // (?:[ab]*\n)*b, where a byte leads from the inner loop back to the outer one
        7 => [
            fork(1, 4),
            fork(2, 3),
            range(b'a', b'b', 1),
            byte(b'\n', 0),
            byte(b'b', 5),
            accept(0),
        ],
        // (?:[ab]*)*b, where the inner loop's exit is the outer loop's fork
        8 => [
            fork(1, 3),
            fork(2, 0),
            range(b'a', b'b', 1),
            byte(b'b', 4),
            accept(0),
            accept(0),
        ],
        // \B(?:a|)
        _ => [
            assertion(Look::WordAsciiNegate, 1),
            fork(2, 3),
            byte(b'a', 3),
            accept(0),
            accept(0),
            accept(0),
        ],
    }
}

// Where a step leads from a place, by its first or its other way.
fn step(
    program: &Program<AsciiWord>,
    text: &[u8],
    sid: StateID,
    at: usize,
    other: bool,
) -> Option<(StateID, usize)> {
    if sid.as_usize() >= program.state_len() || at > text.len() {
        return None;
    }
    match program.state(sid) {
        State::ByteRange { start, end, next } => match text.get(at) {
            Some(byte) if !other && start <= *byte && *byte <= end => Some((next, at + 1)),
            _ => None,
        },
        State::Assert { look, next } => {
            if !other && program.nfa().matcher().matches(look, text, at) {
                Some((next, at))
            } else {
                None
            }
        }
        State::Fork { a, b } => Some((if other { b } else { a }, at)),
        State::Capture { next, .. } => { if other { None } else { Some((next, at)) } }
        State::Accept { .. } => None,
    }
}

fn accepts(program: &Program<AsciiWord>, sid: StateID) -> bool {
    if sid.as_usize() < program.state_len() {
        matches!(program.state(sid), State::Accept { .. })
    } else {
        false
    }
}

// The end of the first of the runs from a position that come to no place twice, in the order of their forks. No place is remembered.
fn preferred(
    alloc: Global,
    program: &Program<AsciiWord>,
    text: &[u8],
    at: usize,
) -> Result<Option<usize>, Error> {
    let mut path = Vec::new(alloc);
    let mut tried: Vec<u8> = Vec::new(alloc);
    path.push((program.start(), at))?;
    tried.push(0)?;
    for _ in 0..100_000 {
        let Some((sid, position)) = path.last().copied() else {
            return Ok(None);
        };
        if accepts(program, sid) {
            return Ok(Some(position));
        }
        let way = tried.pop().unwrap_or(2);
        if way >= 2 {
            path.pop();
            continue;
        }
        tried.push(way + 1)?;
        if let Some(next) = step(program, text, sid, position, way == 1) {
            if !path.as_slice().contains(&next) {
                path.push(next)?;
                tried.push(0)?;
            }
        }
    }
    Ok(None)
}

// The ends of the first match by the definition.
fn expected(
    alloc: Global,
    program: &Program<AsciiWord>,
    text: &[u8],
) -> Result<Option<(usize, usize)>, Fail> {
    for start in 0..=text.len() {
        if let Some(end) = preferred(alloc, program, text, start)? {
            return Ok(Some((start, end)));
        }
    }
    Ok(None)
}

// The first text in which `find` doesn't find what the definition says, for the pattern of that number.
fn differing_text(alloc: Global, number: usize) -> Result<Option<usize>, Fail> {
    let program = program(alloc, &states_of(number), true)?;
    for t in 0..TEXTS {
        let (bytes, len) = text_of(t);
        let text = &bytes[..len.min(4)];
        let found = first(alloc, &program, &Input::new(text))?;
        if found != expected(alloc, &program, text)? {
            return Ok(Some(t));
        }
    }
    Ok(None)
}

#[test]
fn finds_what_the_definition_says(rt: HostRuntime) -> Result<(), Fail> {
    for number in 0..10 {
        let text = differing_text(rt.alloc(), number)?;
        assert!(rt; text == None, "pattern {number}, text {text:?}");
    }
    Ok(())
}
