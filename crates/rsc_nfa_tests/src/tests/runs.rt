//! The example of the README, and others.
use rsc_alphabet::ByteClassSet;
use rsc_captures::GroupInfo;
use rsc_look::{AsciiWord, Look, LookMatcher, LookSet, UnicodeWord};
use rsc_nfa::{BuildError, Nfa, State};
use rsc_primitives::{PatternID, SmallIndex, StateID};
use rsc_search::{Input, Span};
use std::alloc::Global;
use std::test::Fail;

fn accept() -> State {
    State::Accept {
        pattern: PatternID::ZERO,
    }
}

fn range(start: u8, end: u8, next: u8) -> State {
    State::ByteRange {
        start,
        end,
        next: StateID::from(next),
    }
}

fn assertion(look: Look) -> State {
    State::Assert {
        look,
        next: StateID::must(1),
    }
}

// An automaton over one pattern with one group.
fn built(alloc: Global, states: &[State]) -> Result<Nfa<UnicodeWord>, Fail> {
    let info = GroupInfo::new(alloc, &[&[None]])?;
    Ok(Nfa::new(alloc, info, LookMatcher::new(UnicodeWord), states)?)
}

fn at(s: u8, i: usize) -> (StateID, usize) {
    (StateID::from(s), i)
}

#[test]
fn a_letter(rt: HostRuntime) -> Result<(), Fail> {
    let capture = State::Capture {
        slot: SmallIndex::ZERO,
        next: StateID::must(1),
    };
    let last = State::Capture {
        slot: SmallIndex::must(1),
        next: StateID::must(3),
    };
    let nfa = built(rt.alloc(), &[capture, range(b'a', b'z', 2), last, accept()])?;
    let classes = nfa.classes();
    for (byte, class) in [
        (0, 0),
        (0x60, 0),
        (0x61, 1),
        (0x7a, 1),
        (0x7b, 2),
        (0xff, 2),
    ] {
        assert_eq!(rt; classes.get(byte), class);
    }
    let run = [at(0, 0), at(1, 0), at(2, 1), at(3, 1)];
    assert!(rt; nfa.check_run(&Input::new(b"m"), &run));
    assert!(rt; nfa.check_run(&Input::new(b"q"), &run));
    assert!(rt; !nfa.check_run(&Input::new(b"M"), &run));
    Ok(())
}

#[test]
fn a_letter_with_a_slot_too_many(rt: HostRuntime) -> Result<(), Fail> {
    let slot = SmallIndex::must(2);
    let capture = State::Capture {
        slot: SmallIndex::ZERO,
        next: StateID::must(1),
    };
    let last = State::Capture {
        slot,
        next: StateID::must(3),
    };
    let info = GroupInfo::new(rt.alloc(), &[&[None]])?;
    let states = [capture, range(b'a', b'z', 2), last, accept()];
    let refused = Nfa::new(rt.alloc(), info, LookMatcher::new(UnicodeWord), &states).err();
    assert!(rt; refused == Some(BuildError::UnknownSlot { state: 2, slot }));
    Ok(())
}

#[test]
fn no_states(rt: HostRuntime) -> Result<(), Fail> {
    let info = GroupInfo::empty(rt.alloc())?;
    let nfa = Nfa::new(rt.alloc(), info, LookMatcher::new(AsciiWord), &[])?;
    assert_eq!(rt; nfa.classes().alphabet_len(), 2);
    assert!(rt; nfa.check_run(&Input::new(b""), &[]));
    assert!(rt; !nfa.check_run(&Input::new(b""), &[at(0, 0)]));
    Ok(())
}

// `(?m)^a`
fn line(alloc: Global) -> Result<Nfa<UnicodeWord>, Fail> {
    built(
        alloc,
        &[assertion(Look::StartLF), range(0x61, 0x61, 2), accept()],
    )
}

#[test]
fn a_line_has_six_classes(rt: HostRuntime) -> Result<(), Fail> {
    let nfa = line(rt.alloc())?;
    let classes = nfa.classes();
    assert_eq!(rt; classes.alphabet_len(), 6);
    for (byte, class) in [
        (0x09, 0),
        (0x0a, 1),
        (0x0b, 2),
        (0x60, 2),
        (0x61, 3),
        (0x62, 4),
    ] {
        assert_eq!(rt; classes.get(byte), class);
    }
    Ok(())
}

#[test]
fn a_line(rt: HostRuntime) -> Result<(), Fail> {
    let nfa = line(rt.alloc())?;
    let run = [at(0, 1), at(1, 1), at(2, 2)];
    assert!(rt; nfa.check_run(&Input::new(b"\na"), &run));
    assert!(rt; !nfa.check_run(&Input::new(b"ba"), &run));
    assert!(rt; !nfa.check_run(&Input::new(b"\na"), &[at(2, 2), at(2, 2)]));
    Ok(())
}

#[test]
fn a_line_in_a_span(rt: HostRuntime) -> Result<(), Fail> {
    let nfa = line(rt.alloc())?;
    let run = [at(0, 1), at(1, 1), at(2, 2)];
    let part = Input::new(b"\na").span(Span { start: 1, end: 2 });
    assert!(rt; nfa.check_run(&part, &run));
    assert!(rt; !nfa.check_run(&part, &[at(0, 0)]));
    let done = Input::new(b"\na").span(Span { start: 2, end: 1 });
    assert!(rt; nfa.check_run(&done, &[]));
    assert!(rt; !nfa.check_run(&done, &[at(0, 1)]));
    Ok(())
}

#[test]
fn a_fork(rt: HostRuntime) -> Result<(), Fail> {
    let fork = State::Fork {
        a: StateID::ZERO,
        b: StateID::must(1),
    };
    let nfa = built(rt.alloc(), &[fork, accept()])?;
    assert!(rt; nfa.check_run(&Input::new(b""), &[at(0, 0), at(0, 0), at(1, 0)]));
    Ok(())
}

#[test]
fn a_unicode_assertion(rt: HostRuntime) -> Result<(), Fail> {
    let nfa = built(rt.alloc(), &[assertion(Look::WordUnicodeNegate), accept()])?;
    for (haystack, want) in [([0x7b], true), ([0x7c], true), ([0x80], false)] {
        let answer = nfa.check_run(&Input::new(&haystack), &[at(0, 1), at(1, 1)]);
        assert_eq!(rt; answer, want);
    }
    Ok(())
}

#[test]
fn letters_at_the_start_of_a_line(rt: HostRuntime) -> Result<(), Fail> {
    let states = [
        State::Assert {
            look: Look::StartLF,
            next: StateID::must(1),
        },
        State::Capture {
            slot: SmallIndex::ZERO,
            next: StateID::must(2),
        },
        range(b'a', b'z', 3),
        State::Fork {
            a: StateID::must(2),
            b: StateID::must(4),
        },
        State::Capture {
            slot: SmallIndex::must(1),
            next: StateID::must(5),
        },
        accept(),
    ];
    let nfa = built(rt.alloc(), &states)?;
    let classes = nfa.classes();
    assert_eq!(rt; classes.alphabet_len(), 6);
    assert_eq!(rt; classes.get(b'a'), classes.get(b'q'));
    let run = [at(0, 1), at(1, 1), at(2, 1), at(3, 2), at(4, 2), at(5, 2)];
    assert!(rt; nfa.check_run(&Input::new(b"\na"), &run));
    assert!(rt; nfa.check_run(&Input::new(b"\nq"), &run));
    assert!(rt; !nfa.check_run(&Input::new(b"-a"), &run));
    Ok(())
}

#[test]
fn asserts_what_its_states_assert(rt: HostRuntime) -> Result<(), Fail> {
    let states = [
        assertion(Look::WordUnicode),
        assertion(Look::Start),
        accept(),
    ];
    let looks = built(rt.alloc(), &states)?.looks();
    assert!(rt; looks == LookSet::singleton(Look::Start).insert(Look::WordUnicode));
    assert!(rt; built(rt.alloc(), &[accept()])?.looks().is_empty());
    Ok(())
}

#[test]
fn parts_classes_further(rt: HostRuntime) -> Result<(), Fail> {
    let states = [range(b'a', b'z', 1), accept()];
    let nfa = built(rt.alloc(), &states)?;
    let mut more = ByteClassSet::empty();
    more.set_range(128, 255);
    let (coarse, fine) = (nfa.classes(), nfa.classes_with(&more));
    assert!(rt; coarse.get(127) == coarse.get(128) && fine.get(127) != fine.get(128));
    assert!(rt; fine.get(b'a') == fine.get(b'z') && fine.get(b'z') != fine.get(127));
    Ok(())
}
