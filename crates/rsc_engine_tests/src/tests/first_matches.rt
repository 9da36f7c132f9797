//! Examples of `find`.
use crate::made::{
    accept, assertion, byte, capture, captures_of, captures_of_ends, first, first_of_patterns,
    fork, program, span,
};
use rsc_engine::{Program, find};
use rsc_look::{AsciiWord, Look};
use rsc_nfa::State;
use rsc_primitives::{PatternID, StateID};
use rsc_search::{Anchored, Input, Span};
use std::alloc::Global;
use std::test::Fail;

// `a|ab`, `ab|a` and `b|ab`
fn alternatives(number: usize) -> [State; 6] {
    match number {
        0 => [
            fork(1, 3),
            byte(b'a', 2),
            accept(0),
            byte(b'a', 4),
            byte(b'b', 2),
            accept(0),
        ],
        1 => [
            fork(1, 4),
            byte(b'a', 2),
            byte(b'b', 3),
            accept(0),
            byte(b'a', 5),
            accept(0),
        ],
        _ => [
            fork(1, 3),
            byte(b'b', 2),
            accept(0),
            byte(b'a', 4),
            byte(b'b', 5),
            accept(0),
        ],
    }
}

// The ends of the first match of that pattern.
fn first_alternative(
    alloc: Global,
    number: usize,
    text: &str,
) -> Result<Option<(usize, usize)>, Fail> {
    let program = program(alloc, &alternatives(number), true)?;
    first(alloc, &program, &Input::new(text.as_bytes()))
}

#[test]
fn prefers_the_first_way_of_the_leftmost(rt: HostRuntime) -> Result<(), Fail> {
    for (number, text, expected) in [
        (0, "xab", Some((1, 2))),
        (1, "xab", Some((1, 3))),
        (2, "xab", Some((1, 3))),
        (2, "xa", None),
    ] {
        let found = first_alternative(rt.alloc(), number, text)?;
        assert!(rt; found == expected, "{number}");
    }
    Ok(())
}

// A text of 5,000 bytes, with `ab` at a position.
fn long_text(alloc: Global, at: usize) -> Result<Vec<u8>, Fail> {
    let mut text = vec![in alloc; b'x'; 5000]?;
    for (byte, other) in text.iter_mut().skip(at).zip(b"ab") {
        *byte = *other;
    }
    Ok(text)
}

#[test]
fn searches_long_spans(rt: HostRuntime) -> Result<(), Fail> {
    let program = program(rt.alloc(), &alternatives(1), true)?;
    for at in [0usize, 1, 253, 254, 255, 256, 4096, 4998, 5000] {
        let text = long_text(rt.alloc(), at)?;
        let expected = if at < 5000 {
            Some((at, at.saturating_add(2)))
        } else {
            None
        };
        let found = first(rt.alloc(), &program, &Input::new(&text))?;
        assert!(rt; found == expected, "{at}");
        let input = Input::new(&text).anchored(Anchored::Yes);
        let anchored = first(rt.alloc(), &program, &input)?;
        assert!(rt; anchored == expected.filter(|ends| ends.0 == 0), "{at}");
    }
    Ok(())
}

#[test]
fn searches_the_span_and_looks_beyond_it(rt: HostRuntime) -> Result<(), Fail> {
    // \bb
    let states = [assertion(Look::WordAscii, 1), byte(b'b', 2), accept(0)];
    let program = program(rt.alloc(), &states, true)?;
    for (start, end, mode, expected) in [
        (0, 4, Anchored::No, Some((3, 4))),
        (1, 3, Anchored::No, None),
        (2, 4, Anchored::Yes, None),
        (3, 4, Anchored::Yes, Some((3, 4))),
        (4, 3, Anchored::No, None),
    ] {
        let input = Input::new(b"ab b").span(Span { start, end }).anchored(mode);
        let found = first(rt.alloc(), &program, &input)?;
        assert!(rt; found == expected, "{start}..{end}");
    }
    Ok(())
}

// Two patterns, `ab` and `a`: the first is preferred.
fn two_patterns(alloc: Global) -> Result<Program<AsciiWord>, Fail> {
    let states = [
        fork(1, 6),
        capture(0, 2),
        byte(b'a', 3),
        byte(b'b', 4),
        capture(1, 5),
        accept(0),
        capture(2, 7),
        byte(b'a', 8),
        capture(3, 9),
        accept(1),
    ];
    program(alloc, &states, true)
}

#[test]
fn finds_one_pattern_of_several(rt: HostRuntime) -> Result<(), Fail> {
    let program = two_patterns(rt.alloc())?;
    let mut captures = captures_of(rt.alloc(), &program)?;
    for (mode, pattern, end) in [
        (Anchored::No, 0, 2),
        (Anchored::Yes, 0, 2),
        (Anchored::Pattern(PatternID::ZERO), 0, 2),
        (Anchored::Pattern(PatternID::must(1)), 1, 1),
    ] {
        let found = first_of_patterns(rt.alloc(), &program, mode, &mut captures)?;
        let whole = captures.get_group(0);
        assert!(rt;
            found == Some((pattern, 0, end)) && whole == span(0, end),
            "{mode:?}"
        );
    }
    Ok(())
}

#[test]
fn clears_the_captures_without_a_match(rt: HostRuntime) -> Result<(), Fail> {
    let program = two_patterns(rt.alloc())?;
    let mut captures = captures_of(rt.alloc(), &program)?;
    captures.set_pattern(Some(PatternID::ZERO));
    let mode = Anchored::Pattern(PatternID::must(2));
    let found = first_of_patterns(rt.alloc(), &program, mode, &mut captures)?;
    assert!(rt; found == None && !captures.is_match());
    Ok(())
}

#[test]
fn a_program_knows_where_it_begins(rt: HostRuntime) -> Result<(), Fail> {
    let program = two_patterns(rt.alloc())?;
    assert!(rt; program.start() == StateID::ZERO && program.state_len() == 10 && program.is_utf8());
    assert!(rt; program.state(StateID::must(9)) == accept(1));
    Ok(())
}

// Slots for the ends of matches alone say what the automaton records, not where the match is.
#[test]
fn a_match_that_records_nothing_sets_no_slot(rt: HostRuntime) -> Result<(), Fail> {
    let states = [byte(b'a', 1), accept(0)];
    let program = program(rt.alloc(), &states, false)?;
    let mut captures = captures_of_ends(rt.alloc(), &program)?;
    let found = find(rt.alloc(), &program, &Input::new(b"ba"), &mut captures)?;
    assert!(rt; found.map(|it| (it.start(), it.end())) == Some((1, 2)));
    assert!(rt; captures.pattern() == Some(PatternID::ZERO));
    for slot in captures.slots() {
        assert!(rt; slot.is_none());
    }
    Ok(())
}
