//! Runs so long that work for each state that grows with the states doesn't end within the time that a test has.
use rsc_captures::GroupInfo;
use rsc_look::{AsciiWord, Look, LookMatcher};
use rsc_nfa::{Nfa, State};
use rsc_primitives::{PatternID, SmallIndex, StateID};
use rsc_search::Input;
use std::alloc::Global;
use std::test::Fail;

// As many of them as bytes. Each byte has four states.
const COUNT: usize = 50_000;

// States that record the start of each byte in turn, assert that a line ends there or not, fork, and take the byte.
fn chain(alloc: Global) -> Result<Vec<State>, Fail> {
    let mut states: Vec<State> = Vec::new(alloc);
    for i in 0..COUNT {
        let s = 4 * i;
        states.push(State::Capture {
            slot: SmallIndex::ZERO,
            next: StateID::must(s + 1),
        })?;
        states.push(State::Assert {
            look: Look::WordAsciiNegate,
            next: StateID::must(s + 2),
        })?;
        states.push(State::Fork {
            a: StateID::must(s + 3),
            b: StateID::must(s + 3),
        })?;
        states.push(State::ByteRange {
            start: b'-',
            end: b'-',
            next: StateID::must(s + 4),
        })?;
    }
    states.push(State::Accept {
        pattern: PatternID::ZERO,
    })?;
    Ok(states)
}

// The run through all states.
fn run(alloc: Global) -> Result<Vec<(StateID, usize)>, Fail> {
    let mut run: Vec<(StateID, usize)> = Vec::new(alloc);
    for s in 0..=4 * COUNT {
        run.push((StateID::must(s), s / 4))?;
    }
    Ok(run)
}

#[test]
fn each_state_takes_the_same_time_among_any(rt: HostRuntime) -> Result<(), Fail> {
    let alloc = rt.alloc();
    let info = GroupInfo::new(alloc, &[&[None]])?;
    let states = chain(alloc)?;
    let nfa = Nfa::new(alloc, info, LookMatcher::new(AsciiWord), &states)?;
    assert!(rt; nfa.classes().get(b'-') != nfa.classes().get(b'.') && nfa.looks().len() == 1);
    let (run, haystack) = (run(alloc)?, "-".repeat(alloc, COUNT)?);
    assert!(rt; nfa.check_run(&Input::new(haystack.as_bytes()), &run));
    assert!(rt; nfa.states().len() == 4 * COUNT + 1);
    Ok(())
}
