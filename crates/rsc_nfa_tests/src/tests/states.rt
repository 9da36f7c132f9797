//! The states that an automaton refuses, running out of memory, and what is lent or dropped.
ghost use Rattle.std.specs.Prelude.{true};

use linked_list_allocator::LocalHeap;
use rsc_captures::GroupInfo;
use rsc_look::{AsciiWord, LookMatcher, WordClass};
use rsc_nfa::{BuildError, Nfa, State};
use rsc_primitives::{PatternID, SmallIndex, StateID};
use std::alloc::Global;
use std::test::Fail;

// The fault of a state alone, over one pattern with one group; none if it is accepted.
fn fault_of(alloc: Global, state: State) -> Result<Option<BuildError>, Fail> {
    let info = GroupInfo::new(alloc, &[&[None]])?;
    Ok(Nfa::new(alloc, info, LookMatcher::new(AsciiWord), &[state]).err())
}

#[test]
fn the_first_fault_is_the_answer(rt: HostRuntime) -> Result<(), Fail> {
    let alloc = rt.alloc();
    let range = State::ByteRange {
        start: 0x62,
        end: 0x61,
        next: StateID::must(9),
    };
    assert!(rt; fault_of(alloc, range)? == Some(BuildError::EmptyRange { state: 0 }));
    let unknown = Some(BuildError::UnknownState {
        state: 0,
        target: StateID::must(1),
    });
    let fork = State::Fork {
        a: StateID::must(1),
        b: StateID::must(2),
    };
    assert!(rt; fault_of(alloc, fork)? == unknown);
    let slot = SmallIndex::must(2);
    let capture = State::Capture {
        slot,
        next: StateID::must(1),
    };
    assert!(rt; fault_of(alloc, capture)? == unknown);
    let capture = State::Capture {
        slot,
        next: StateID::ZERO,
    };
    assert!(rt; fault_of(alloc, capture)? == Some(BuildError::UnknownSlot { state: 0, slot }));
    let pattern = PatternID::must(1);
    let accept = State::Accept { pattern };
    assert!(rt; fault_of(alloc, accept)? == Some(BuildError::UnknownPattern { state: 0, pattern }));
    let accept = State::Accept {
        pattern: PatternID::ZERO,
    };
    assert!(rt; fault_of(alloc, accept)? == None);
    Ok(())
}

// What a budget of memory answers for accepting states and the pattern that they name.
fn within(alloc: Global, size: usize, pattern: PatternID) -> Result<Option<BuildError>, Fail> {
    let ample = LocalHeap::new(alloc, 4096)?;
    let heap = LocalHeap::new(alloc, size)?;
    let info = GroupInfo::new(&ample, &[&[None]])?;
    let states = [State::Accept { pattern }; 64];
    Ok(Nfa::new(&heap, info, LookMatcher::new(AsciiWord), &states).err())
}

#[test]
fn each_request_may_be_refused(rt: HostRuntime) -> Result<(), Fail> {
    let alloc = rt.alloc();
    let pattern = PatternID::must(1);
    let fault = BuildError::UnknownPattern { state: 0, pattern };
    assert!(rt; within(alloc, 0, pattern)? == Some(fault));
    let mut was_refused = false;
    for eighths in 0..1024usize {
        match within(alloc, eighths * 8, PatternID::ZERO)? {
            Some(error) => {
                assert!(rt; error == BuildError::OutOfMemory);
                was_refused = true;
            }
            None => assert!(rt; was_refused),
        }
    }
    assert!(rt; within(alloc, 8192, PatternID::ZERO)? == None);
    Ok(())
}

#[test]
fn what_was_handed_in_is_lent(rt: HostRuntime) -> Result<(), Fail> {
    let alloc = rt.alloc();
    let info = GroupInfo::new(alloc, &[&[None, Some("x")]])?;
    let state = State::Accept {
        pattern: PatternID::ZERO,
    };
    let nfa = Nfa::new(alloc, info, LookMatcher::new(AsciiWord), &[state])?;
    assert_eq!(rt; nfa.states().len(), 1);
    assert!(rt; nfa.states()[0] == state);
    assert_eq!(rt; nfa.group_info().slot_len(), 4);
    assert_eq!(rt; nfa.matcher().get_line_terminator(), b'\n');
    Ok(())
}

// A word predicate that holds memory.
#[derive(Drop)]
struct HeldWordPredicate<'a> {
    characters: Vec<char, &'a LocalHeap>,
}

impl WordClass for HeldWordPredicate<'_> {
    ghost word_chars = { λ _ _. true };

    fn is_word(&self, _c: char) -> bool {
        true
    }
}

// What a list of accepting states is refused for, with the states in one heap and all that is handed in in another.
fn refusal_over(
    states: &LocalHeap,
    handed_in: &LocalHeap,
    pattern: PatternID,
) -> Result<Option<BuildError>, Fail> {
    let info = GroupInfo::new(handed_in, &[&[None]])?;
    let mut characters = Vec::new(handed_in);
    characters.push('x')?;
    let matcher = LookMatcher::new(HeldWordPredicate { characters });
    let accepting = [State::Accept { pattern }; 64];
    Ok(Nfa::new(states, info, matcher, &accepting).err())
}

#[test]
fn what_was_handed_in_is_dropped_after_a_refusal(rt: HostRuntime) -> Result<(), Fail> {
    let none = LocalHeap::new(rt.alloc(), 0)?;
    let handed_in = LocalHeap::new(rt.alloc(), 4096)?;
    let pattern = PatternID::must(1);
    let fault = BuildError::UnknownPattern { state: 0, pattern };
    assert!(rt; refusal_over(&handed_in, &handed_in, pattern)? == Some(fault));
    assert_eq!(rt; handed_in.used(), 0);
    let refused = refusal_over(&none, &handed_in, PatternID::ZERO)?;
    assert!(rt; refused == Some(BuildError::OutOfMemory));
    assert_eq!(rt; handed_in.used(), 0);
    Ok(())
}
