//! Programs of given states, and what a search finds with them.
use rsc_captures::{Captures, GroupInfo};
use rsc_engine::{Matches, Program, find};
use rsc_look::{AsciiWord, Look, LookMatcher, WordClass};
use rsc_nfa::{Nfa, State};
use rsc_primitives::{PatternID, SmallIndex, StateID};
use rsc_search::{Anchored, Input, Span};
use std::alloc::Global;
use std::test::Fail;

pub fn byte(byte: u8, next: u8) -> State {
    State::ByteRange {
        start: byte,
        end: byte,
        next: StateID::from(next),
    }
}

pub fn range(start: u8, end: u8, next: u8) -> State {
    State::ByteRange {
        start,
        end,
        next: StateID::from(next),
    }
}

pub fn fork(a: u8, b: u8) -> State {
    State::Fork {
        a: StateID::from(a),
        b: StateID::from(b),
    }
}

pub fn assertion(look: Look, next: u8) -> State {
    State::Assert {
        look,
        next: StateID::from(next),
    }
}

pub fn capture(slot: u8, next: u8) -> State {
    State::Capture {
        slot: SmallIndex::from(slot),
        next: StateID::from(next),
    }
}

pub fn accept(pattern: u8) -> State {
    State::Accept {
        pattern: PatternID::from(pattern),
    }
}

/// The program of these states, of two patterns with a group each, whose matches begin at the first state.
pub fn program(alloc: Global, states: &[State], utf8: bool) -> Result<Program<AsciiWord>, Fail> {
    let info = GroupInfo::new(alloc, &[&[None], &[None]])?;
    let nfa = Nfa::new(alloc, info, LookMatcher::new(AsciiWord), states)?;
    match Program::new(nfa, StateID::ZERO, utf8) {
        None => Err(Fail::from("no program")),
        Some(program) => Ok(program),
    }
}

/// Captures for all groups of a program.
pub fn captures_of<W: WordClass>(alloc: Global, program: &Program<W>) -> Result<Captures, Fail> {
    Ok(program.captures(alloc)?)
}

/// Captures that tell of no group, but whether there is a match.
pub fn no_captures(alloc: Global, program: &Program<AsciiWord>) -> Result<Captures, Fail> {
    let groups = program.nfa().group_info().clone()?;
    Ok(Captures::empty(alloc, groups)?)
}

/// Captures with slots for the ends of matches alone.
pub fn captures_of_ends<W: WordClass>(
    alloc: Global,
    program: &Program<W>,
) -> Result<Captures, Fail> {
    let groups = program.nfa().group_info().clone()?;
    Ok(Captures::matches(alloc, groups)?)
}

/// The span between two positions, as captures give it.
pub fn span(start: usize, end: usize) -> Option<Span> {
    Some(Span { start, end })
}

/// The pattern and the ends of the first match in `ab`, whose groups are in the captures afterwards.
pub fn first_of_patterns(
    alloc: Global,
    program: &Program<AsciiWord>,
    mode: Anchored,
    captures: &mut Captures,
) -> Result<Option<(usize, usize, usize)>, Fail> {
    let input = Input::new(b"ab").anchored(mode);
    let found = find(alloc, program, &input, captures)?;
    Ok(found.map(|m| (m.pattern().as_usize(), m.start(), m.end())))
}

/// The ends of the first match.
pub fn first(
    alloc: Global,
    program: &Program<AsciiWord>,
    input: &Input<'_>,
) -> Result<Option<(usize, usize)>, Fail> {
    let mut captures = no_captures(alloc, program)?;
    let found = find(alloc, program, input, &mut captures)?;
    Ok(found.map(|m| (m.start(), m.end())))
}

/// The ends of all matches.
pub fn all(
    alloc: Global,
    program: &Program<AsciiWord>,
    input: Input<'_>,
) -> Result<Vec<(usize, usize)>, Fail> {
    let mut captures = no_captures(alloc, program)?;
    let most = input.end() + 1;
    let mut matches = Matches::new(alloc, program, input)?;
    next_ends(alloc, &mut matches, &mut captures, most)
}

// The ends of that many matches and one more, or of all that there are.
fn next_ends(
    alloc: Global,
    matches: &mut Matches<'_, '_, AsciiWord>,
    captures: &mut Captures,
    most: usize,
) -> Result<Vec<(usize, usize)>, Fail> {
    let mut found = Vec::new(alloc);
    for _ in 0..=most {
        if let Some(m) = matches.next(captures)? {
            found.push((m.start(), m.end()))?;
        }
    }
    Ok(found)
}

/// Whether the ends of all matches are these.
pub fn finds(
    alloc: Global,
    program: &Program<AsciiWord>,
    input: Input<'_>,
    expected: &[(usize, usize)],
) -> Result<bool, Fail> {
    let found = all(alloc, program, input)?;
    Ok(found.as_slice() == expected)
}
