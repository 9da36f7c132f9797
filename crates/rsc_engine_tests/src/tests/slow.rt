//! What a search finds, by a walk that tries each way in turn, as the definition says.
use rsc_captures::Captures;
use rsc_engine::{Error, Program};
use rsc_look::WordClass;
use rsc_nfa::State;
use rsc_primitives::{NonMaxUsize, PatternID, StateID};
use rsc_search::{Input, Match, Span};
use std::alloc::Global;

// A state at a position.
type Place = (StateID, usize);

// Whether the byte at a position is in a range.
fn has_byte(input: &Input<'_>, at: usize, first: u8, last: u8) -> bool {
    at < input.end()
        && match input.haystack().get(at) {
            Some(byte) => first <= *byte && *byte <= last,
            None => false,
        }
}

// Where the steps from a place lead, the preferred one first.
fn steps<W: WordClass>(
    program: &Program<W>,
    input: &Input<'_>,
    sid: StateID,
    at: usize,
) -> (Option<Place>, Option<Place>) {
    if sid.as_usize() >= program.state_len() || at > input.haystack().len() {
        return (None, None);
    }
    match program.state(sid) {
        State::ByteRange { start, end, next } => if has_byte(input, at, start, end) {
            (Some((next, at.saturating_add(1))), None)
        } else {
            (None, None)
        },
        State::Assert { look, next } => if program
            .nfa()
            .matcher()
            .matches(look, input.haystack(), at)
        {
            (Some((next, at)), None)
        } else {
            (None, None)
        },
        State::Fork { a, b } => (Some((a, at)), Some((b, at))),
        State::Capture { next, .. } => (Some((next, at)), None),
        State::Accept { .. } => (None, None),
    }
}

// The pattern of a match that ends in a state.
fn accepted<W: WordClass>(
    program: &Program<W>,
    input: &Input<'_>,
    sid: StateID,
) -> Option<PatternID> {
    if sid.as_usize() >= program.state_len() {
        return None;
    }
    let State::Accept { pattern } = program.state(sid) else {
        return None;
    };
    match input.get_anchored().pattern() {
        None => Some(pattern),
        Some(wanted) => if wanted == pattern {
            Some(pattern)
        } else {
            None
        },
    }
}

// A run to a match from a position on: the first one that is found, and its pattern.
fn run_from<W: WordClass>(
    alloc: Global,
    program: &Program<W>,
    input: &Input<'_>,
    start: usize,
) -> Result<Option<(Vec<Place>, PatternID)>, Error> {
    let mut seen: Vec<Place> = Vec::new(alloc);
    let mut run: Vec<Place> = Vec::new(alloc);
    let mut stack = vec![in alloc; ((program.start(), start), 0usize)]?;
    for _ in 0..1_000_000 {
        let Some((place, depth)) = stack.pop() else {
            return Ok(None);
        };
        if seen.contains(&place) {
            continue;
        }
        seen.push(place)?;
        run.truncate(depth);
        run.push(place)?;
        if let Some(pattern) = accepted(program, input, place.0) {
            return Ok(Some((run, pattern)));
        }
        let (first, other) = steps(program, input, place.0, place.1);
        if let Some(other) = other {
            stack.push((other, run.len()))?;
        }
        if let Some(first) = first {
            stack.push((first, run.len()))?;
        }
    }
    Ok(None)
}

// Writes what a run records.
fn record<W: WordClass>(program: &Program<W>, run: &[Place], captures: &mut Captures) {
    for (sid, at) in run {
        if sid.as_usize() < program.state_len() {
            record_one(program.state(*sid), *at, captures.slots_mut());
        }
    }
}

// Writes what a state records at a position.
fn record_one(state: State, at: usize, slots: &mut [Option<NonMaxUsize>]) {
    if let State::Capture { slot, .. } = state {
        let slot = slot.as_usize();
        if slot < slots.len() {
            slots[slot] = NonMaxUsize::new(at);
        }
    }
}

/// The leftmost-first match, whose groups are in the captures afterwards.
pub(super) fn first_match<W: WordClass>(
    alloc: Global,
    program: &Program<W>,
    input: &Input<'_>,
    captures: &mut Captures,
) -> Result<Option<Match>, Error> {
    captures.clear();
    for start in input.start()..input.end().saturating_add(1) {
        if input.get_anchored().is_anchored() && start != input.start() {
            return Ok(None);
        }
        if let Some((run, pattern)) = run_from(alloc, program, input, start)? {
            record(program, &run, captures);
            captures.set_pattern(Some(pattern));
            let end = run.last().map_or(start, |place| place.1).max(start);
            return Ok(Some(Match::new(pattern, Span { start, end })));
        }
    }
    Ok(None)
}

/// The least position at which a match ends.
pub(super) fn first_end<W: WordClass>(
    alloc: Global,
    program: &Program<W>,
    input: &Input<'_>,
    captures: &mut Captures,
) -> Result<Option<usize>, Error> {
    let mut part = Input::new(input.haystack()).anchored(input.get_anchored());
    for end in input.start()..input.end().saturating_add(1) {
        if end <= part.haystack().len() {
            part.set_span(Span {
                start: input.start(),
                end,
            });
            if first_match(alloc, program, &part, captures)?.is_some() {
                return Ok(Some(end));
            }
        }
    }
    Ok(None)
}
