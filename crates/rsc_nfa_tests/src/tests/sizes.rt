//! Automata of sizes on both sides of any limit, what a refused one gives back, and shown texts.
use linked_list_allocator::LocalHeap;
use rsc_captures::GroupInfo;
use rsc_look::{AsciiWord, Look, LookMatcher, LookSet};
use rsc_nfa::{BuildError, Nfa, State};
use rsc_primitives::{PatternID, SmallIndex, StateID};
use std::alloc::Global;
use std::fmt;
use std::test::Fail;

// That many states: the last accepts, and each other takes a byte.
fn chain(alloc: Global, count: usize) -> Result<Vec<State>, Fail> {
    let mut states: Vec<State> = Vec::new(alloc);
    for s in 1..count {
        let next = StateID::new(s)?;
        states.push(State::ByteRange {
            start: 0x61,
            end: 0x7A,
            next,
        })?;
    }
    if count > 0 {
        states.push(State::Accept {
            pattern: PatternID::ZERO,
        })?;
    }
    Ok(states)
}

#[test]
fn so_many_states_are_answered(rt: HostRuntime) -> Result<(), Fail> {
    let alloc = rt.alloc();
    for count in [0, 1, 2, 63, 64, 65, 1_000, 2_000, 100_000] {
        let states = chain(alloc, count)?;
        let info = GroupInfo::new(alloc, &[&[None]])?;
        match Nfa::new(alloc, info, LookMatcher::new(AsciiWord), &states) {
            Ok(nfa) => assert!(rt; nfa.states() == states.as_slice(), "{count}"),
            Err(error) => assert!(rt; false, "{count}: {error:?}"),
        }
    }
    Ok(())
}

// The same after a fork to the first of them and to the last.
fn after_a_fork(alloc: Global, count: usize) -> Result<Vec<State>, Fail> {
    let mut states: Vec<State> = Vec::new(alloc);
    states.push(State::Fork {
        a: StateID::must(1),
        b: StateID::new(count)?,
    })?;
    for s in 1..count {
        let next = StateID::new(s + 1)?;
        states.push(State::ByteRange {
            start: 0x61,
            end: 0x7A,
            next,
        })?;
    }
    states.push(State::Accept {
        pattern: PatternID::ZERO,
    })?;
    Ok(states)
}

#[test]
fn so_many_states_after_a_fork_are_answered(rt: HostRuntime) -> Result<(), Fail> {
    let alloc = rt.alloc();
    for count in [1, 2, 62, 63, 64, 65, 1_000, 100_000] {
        let states = after_a_fork(alloc, count)?;
        let info = GroupInfo::new(alloc, &[&[None]])?;
        let made = Nfa::new(alloc, info, LookMatcher::new(AsciiWord), &states);
        assert!(rt;
            made.is_ok_and(|nfa| nfa.states() == states.as_slice()),
            "{count}"
        );
    }
    Ok(())
}

// What is used of the heap of a group info and of that of the states once an automaton of that last state was asked for, and
// dropped.
fn used_after(alloc: Global, size: usize, pattern: PatternID) -> Result<(usize, usize), Fail> {
    let (of_info, of_states) = (LocalHeap::new(alloc, 4096)?, LocalHeap::new(alloc, size)?);
    if let Ok(info) = GroupInfo::new(&of_info, &[&[None]]) {
        let states = [State::Accept { pattern }; 64];
        let _made = Nfa::new(&of_states, info, LookMatcher::new(AsciiWord), &states);
    }
    Ok((of_info.used(), of_states.used()))
}

#[test]
fn nothing_is_kept(rt: HostRuntime) -> Result<(), Fail> {
    let mut sizes = [0usize; 3];
    sizes[1] = 512;
    sizes[2] = 65_536;
    for size in sizes {
        for pattern in [PatternID::ZERO, PatternID::must(1)] {
            assert!(rt;
                used_after(rt.alloc(), size, pattern)? == (0, 0),
                "{size}, {pattern:?}"
            );
        }
    }
    Ok(())
}

// What is used of the heap of a group info while an automaton over it is there.
fn used_of_info(alloc: Global) -> Result<(usize, usize, usize), Fail> {
    let (of_info, of_states) = (LocalHeap::new(alloc, 4096)?, LocalHeap::new(alloc, 65_536)?);
    let info = GroupInfo::new(&of_info, &[&[None]])?;
    let before = of_info.used();
    let states = [State::Accept {
        pattern: PatternID::ZERO,
    }; 64];
    match Nfa::new(&of_states, info, LookMatcher::new(AsciiWord), &states) {
        Ok(_nfa) => Ok((before, of_info.used(), of_states.used())),
        Err(_) => Ok((before, 0, 0)),
    }
}

#[test]
fn states_are_in_the_memory_that_is_handed_in(rt: HostRuntime) -> Result<(), Fail> {
    let (before, after, of_states) = used_of_info(rt.alloc())?;
    // A state takes 12 bytes.
    assert!(rt; before == after && 64 * 12 <= of_states && of_states <= 64 * 12 + 64);
    Ok(())
}

// A terminator may be a word byte, or above 7F.
#[test]
fn any_terminator_is_answered(rt: HostRuntime) -> Result<(), Fail> {
    for terminator in 0..=255u8 {
        let mut matcher = LookMatcher::new(AsciiWord);
        let _ = matcher.set_line_terminator(terminator);
        let info = GroupInfo::new(rt.alloc(), &[&[None]])?;
        let states = [State::Accept {
            pattern: PatternID::ZERO,
        }];
        let made = Nfa::new(rt.alloc(), info, matcher, &states);
        assert!(rt;
            made.is_ok_and(|nfa| nfa.matcher().get_line_terminator() == terminator),
            "{terminator}"
        );
    }
    Ok(())
}

#[test]
fn any_assertion_is_answered(rt: HostRuntime) -> Result<(), Fail> {
    for look in LookSet::full().iter() {
        let info = GroupInfo::new(rt.alloc(), &[&[None]])?;
        let states = [
            State::Assert {
                look,
                next: StateID::must(1),
            },
            State::Accept {
                pattern: PatternID::ZERO,
            },
        ];
        let made = Nfa::new(rt.alloc(), info, LookMatcher::new(AsciiWord), &states);
        assert!(rt;
            made.is_ok_and(|nfa| nfa.looks().contains(look)),
            "{look:?}"
        );
    }
    Ok(())
}

// A state that records in a slot, and one that accepts a pattern, of a group info that has both.
fn state_of_each(slot: usize, pattern: usize) -> Result<[State; 2], Fail> {
    Ok([
        State::Capture {
            slot: SmallIndex::new(slot)?,
            next: StateID::must(1),
        },
        State::Accept {
            pattern: PatternID::new(pattern)?,
        },
    ])
}

#[test]
fn slots_and_patterns_of_any_number_are_answered(rt: HostRuntime) -> Result<(), Fail> {
    let pattern: &[Option<&str>] = &[None];
    let patterns: Vec<&[Option<&str>]> = vec![in rt.alloc(); pattern; 100_000]?;
    let info = GroupInfo::new(rt.alloc(), &patterns)?;
    for slot in [0, 1, 255, 256, 65_535, 65_536, 199_999] {
        let states = state_of_each(slot, slot / 2)?;
        let matcher = LookMatcher::new(AsciiWord);
        let made = Nfa::new(rt.alloc(), info.clone()?, matcher, &states);
        assert!(rt;
            made.is_ok_and(|nfa| nfa.states() == states.as_slice()),
            "{slot}"
        );
    }
    Ok(())
}

#[test]
fn states_and_errors_are_shown(rt: HostRuntime) -> Result<(), Fail> {
    let alloc = rt.alloc();
    let next = StateID::must(1234567);
    let (slot, pattern) = (SmallIndex::must(7), PatternID::must(9));
    for (state, want) in [
        (
            State::ByteRange {
                start: 0,
                end: 255,
                next,
            },
            "ByteRange { start: 0, end: 255, next: StateID(1234567) }",
        ),
        (
            State::Assert {
                look: Look::WordAscii,
                next,
            },
            "Assert { look: WordAscii, next: StateID(1234567) }",
        ),
        (
            State::Fork {
                a: next,
                b: StateID::ZERO,
            },
            "Fork { a: StateID(1234567), b: StateID(0) }",
        ),
        (
            State::Capture { slot, next },
            "Capture { slot: SmallIndex(7), next: StateID(1234567) }",
        ),
        (
            State::Accept { pattern },
            "Accept { pattern: PatternID(9) }",
        ),
    ] {
        assert_eq!(rt; format!(in alloc; "{state:?}")?.as_str(), want);
    }
    for (error, want) in [
        (
            BuildError::EmptyRange { state: usize::MAX },
            "EmptyRange { state: 18446744073709551615 }",
        ),
        (
            BuildError::UnknownState {
                state: 1,
                target: next,
            },
            "UnknownState { state: 1, target: StateID(1234567) }",
        ),
        (
            BuildError::UnknownSlot { state: 1, slot },
            "UnknownSlot { state: 1, slot: SmallIndex(7) }",
        ),
        (
            BuildError::UnknownPattern { state: 1, pattern },
            "UnknownPattern { state: 1, pattern: PatternID(9) }",
        ),
        (BuildError::OutOfMemory, "OutOfMemory"),
    ] {
        assert_eq!(rt; format!(in alloc; "{error:?}")?.as_str(), want);
    }
    Ok(())
}

// As the derived texts of the original are: each field in a line of its own.
#[test]
fn states_are_shown_in_lines(rt: HostRuntime) -> Result<(), Fail> {
    let state = State::Accept {
        pattern: PatternID::must(9),
    };
    assert_eq!(rt;
        format!(in rt.alloc(); "{state:#?}")?.as_str(),
        "Accept {\n    pattern: PatternID(\n        9,\n    ),\n}"
    );
    Ok(())
}

#[test]
fn clones_of_errors_are_their_sources(rt: HostRuntime) {
    let (target, slot, pattern) = (StateID::MAX, SmallIndex::MAX, PatternID::MAX);
    for state in [0, 1, usize::MAX] {
        for error in [
            BuildError::EmptyRange { state },
            BuildError::UnknownState { state, target },
            BuildError::UnknownSlot { state, slot },
            BuildError::UnknownPattern { state, pattern },
            BuildError::OutOfMemory,
        ] {
            assert!(rt; error.clone().is_ok_and(|copy| copy == error), "{error:?}");
        }
    }
}

fn is_copied<T: Clone + Copy + Eq + fmt::Debug>() {}

#[test]
fn traits_of_each_type(_rt: HostRuntime) {
    is_copied::<State>();
    is_copied::<BuildError>();
}
