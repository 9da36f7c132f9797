//! What a search finds with a program: over the builder's own crate, so that a changed one is searched too.
use rsc_captures::Captures;
use rsc_engine::{Matches, Program, find};
use rsc_look::{AsciiWord, WordClass};
use rsc_search::{Anchored, Input, Span};
use std::alloc::Global;
use std::test::Fail;

/// Captures for all groups of a program.
pub fn captures_of<W: WordClass>(alloc: Global, program: &Program<W>) -> Result<Captures, Fail> {
    Ok(program.captures(alloc)?)
}

/// Captures that tell of no group, but whether there is a match.
pub fn no_captures(alloc: Global, program: &Program<AsciiWord>) -> Result<Captures, Fail> {
    let groups = program.nfa().group_info().clone()?;
    Ok(Captures::empty(alloc, groups)?)
}

/// The span between two positions, as captures give it.
pub fn span(start: usize, end: usize) -> Option<Span> {
    Some(Span { start, end })
}

/// The span of the first match in a text, whose groups are in the captures afterwards.
pub fn first_span(
    alloc: Global,
    program: &Program<AsciiWord>,
    text: &[u8],
    captures: &mut Captures,
) -> Result<Option<Span>, Fail> {
    let found = find(alloc, program, &Input::new(text), captures)?;
    Ok(found.map(|m| m.span()))
}

/// The pattern and the ends of the first match in `ab`, whose groups are in the captures afterwards.
pub fn first_of_patterns(
    alloc: Global,
    program: &Program<AsciiWord>,
    mode: Anchored,
    captures: &mut Captures,
) -> Result<Option<(usize, usize, usize)>, Fail> {
    let input = Input::new(b"ab").anchored(mode);
    let found = find(alloc, program, &input, captures)?;
    Ok(found.map(|m| (m.pattern().as_usize(), m.start(), m.end())))
}

/// The ends of the first match.
pub fn first(
    alloc: Global,
    program: &Program<AsciiWord>,
    input: &Input<'_>,
) -> Result<Option<(usize, usize)>, Fail> {
    let mut captures = no_captures(alloc, program)?;
    let found = find(alloc, program, input, &mut captures)?;
    Ok(found.map(|m| (m.start(), m.end())))
}

/// The ends of all matches.
pub fn all(
    alloc: Global,
    program: &Program<AsciiWord>,
    input: Input<'_>,
) -> Result<Vec<(usize, usize)>, Fail> {
    let mut captures = no_captures(alloc, program)?;
    let most = input.end() + 1;
    let mut matches = Matches::new(alloc, program, input)?;
    next_ends(alloc, &mut matches, &mut captures, most)
}

// The ends of that many matches and one more, or of all that there are.
fn next_ends(
    alloc: Global,
    matches: &mut Matches<'_, '_, AsciiWord>,
    captures: &mut Captures,
    most: usize,
) -> Result<Vec<(usize, usize)>, Fail> {
    let mut found = Vec::new(alloc);
    for _ in 0..=most {
        if let Some(m) = matches.next(captures)? {
            found.push((m.start(), m.end()))?;
        }
    }
    Ok(found)
}

/// Whether the ends of all matches are these.
pub fn finds(
    alloc: Global,
    program: &Program<AsciiWord>,
    input: Input<'_>,
    expected: &[(usize, usize)],
) -> Result<bool, Fail> {
    let found = all(alloc, program, input)?;
    Ok(found.as_slice() == expected)
}
