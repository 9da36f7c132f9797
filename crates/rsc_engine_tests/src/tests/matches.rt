//! The rule on empty matches, and the end of an iteration.
use crate::made::{accept, byte, finds, fork, no_captures, program};
use rsc_engine::Matches;
use rsc_nfa::State;
use rsc_search::{Anchored, Input, Span};
use std::alloc::Global;
use std::test::Fail;

// `a*`
fn stars() -> [State; 3] {
    [fork(1, 2), byte(b'a', 0), accept(0)]
}

// Whether the ends of all matches of `a*` in an input, of text or of bytes, are these.
fn stars_find(
    alloc: Global,
    is_text: bool,
    input: Input<'_>,
    ends: &[(usize, usize)],
) -> Result<bool, Fail> {
    let program = program(alloc, &stars(), is_text)?;
    finds(alloc, &program, input, ends)
}

#[test]
fn leaves_out_empty_matches_where_the_last_one_ended(rt: HostRuntime) -> Result<(), Fail> {
    let input = Input::new(b"baaac");
    assert!(rt; stars_find(rt.alloc(), true, input, &[(0, 0), (1, 4), (5, 5)])?);
    let input = Input::new(b"bb").span(Span { start: 1, end: 2 });
    assert!(rt; stars_find(rt.alloc(), true, input, &[(1, 1), (2, 2)])?);
    Ok(())
}

#[test]
fn leaves_out_empty_matches_within_characters_of_text(rt: HostRuntime) -> Result<(), Fail> {
    let text = "aé漢".as_bytes();
    assert!(rt;
        stars_find(
            rt.alloc(),
            true,
            Input::new(text),
            &[(0, 1), (3, 3), (6, 6)]
        )?
    );
    let ends = [(0, 1), (2, 2), (3, 3), (4, 4), (5, 5), (6, 6)];
    assert!(rt; stars_find(rt.alloc(), false, Input::new(text), &ends)?);
    Ok(())
}

#[test]
fn goes_on_where_an_anchored_match_ended(rt: HostRuntime) -> Result<(), Fail> {
    // After 0..2 the empty match at 2 is a repeat, and the search goes on one later, as in the original.
    let input = Input::new(b"aab").anchored(Anchored::Yes);
    assert!(rt; stars_find(rt.alloc(), true, input, &[(0, 2), (3, 3)])?);
    // Where an empty match splits a character, an anchored search ends.
    let input = Input::new("aé".as_bytes()).anchored(Anchored::Yes);
    assert!(rt; stars_find(rt.alloc(), true, input, &[(0, 1)])?);
    Ok(())
}

#[test]
fn finds_a_match_where_a_cycle_was_closed(rt: HostRuntime) -> Result<(), Fail> {
    // (?:a*|b)*: an empty cycle closes a place from which the next match is reached.
    let states = [
        fork(1, 5),
        fork(2, 4),
        fork(3, 0),
        byte(b'a', 2),
        byte(b'b', 0),
        accept(0),
    ];
    let program = program(rt.alloc(), &states, true)?;
    assert!(rt; finds(rt.alloc(), &program, Input::new(b"abc"), &[(0, 2), (3, 3)])?);
    Ok(())
}

#[test]
fn ends_for_good(rt: HostRuntime) -> Result<(), Fail> {
    let program = program(rt.alloc(), &stars(), true)?;
    let mut captures = no_captures(rt.alloc(), &program)?;
    let mut matches = Matches::new(rt.alloc(), &program, Input::new(b""))?;
    for expected in [true, false, false] {
        let found = matches.next(&mut captures)?;
        assert!(rt; found.is_some() == expected && captures.is_match() == expected);
    }
    Ok(())
}

// 2,000 bytes, of which all are `-` but four `aab`.
fn far_apart(alloc: Global) -> Result<Vec<u8>, Fail> {
    let mut text = Vec::new(alloc);
    for position in 0..2000 {
        text.push(match position {
            100 | 101 | 103 | 104 | 900 | 901 | 1997 | 1998 => b'a',
            102 | 105 | 902 | 1999 => b'b',
            _ => b'-',
        })?;
    }
    Ok(text)
}

// Whether these states find each `aab`.
fn finds_each(alloc: Global, states: &[State]) -> Result<bool, Fail> {
    let text = far_apart(alloc)?;
    let program = program(alloc, states, true)?;
    let ends = [(100, 103), (103, 106), (900, 903), (1997, 2000)];
    finds(alloc, &program, Input::new(text.as_slice()), &ends)
}

#[test]
fn finds_matches_far_apart(rt: HostRuntime) -> Result<(), Fail> {
    // a+b, to whose first state no byte leads
    let states = [byte(b'a', 1), fork(0, 2), byte(b'b', 3), accept(0)];
    assert!(rt; finds_each(rt.alloc(), &states)?);
    // a*b, to whose first state one does
    let states = [fork(1, 2), byte(b'a', 0), byte(b'b', 3), accept(0)];
    assert!(rt; finds_each(rt.alloc(), &states)?);
    Ok(())
}
