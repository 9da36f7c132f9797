use rsc_alphabet::ByteClassSet;
use rsc_captures::{Captures, GroupInfo};
use rsc_look::{AsciiWord, Look, LookMatcher};
use rsc_nfa::{Nfa, State};
use rsc_primitives::{PatternID, SmallIndex, StateID};
use rsc_search::{Input, Span};
use std::test::Fail;

#[test]
fn head(rt: HostRuntime) -> Result<(), Fail> {
    // `rsc_nfa`
    // At the start of a line; then an accepting state.
    let info = GroupInfo::new(rt.alloc(), &[&[None]])?;
    let accept = StateID::must(1);
    let states = [
        State::Assert {
            look: Look::StartLF,
            next: accept,
        },
        State::Accept {
            pattern: PatternID::ZERO,
        },
    ];
    let nfa = Nfa::new(rt.alloc(), info, LookMatcher::new(AsciiWord), &states)?;
    assert!(rt; nfa.check_run(&Input::new(b"\na"), &[(StateID::ZERO, 1), (accept, 1)]));
    assert!(rt; !nfa.check_run(&Input::new(b"\na"), &[(StateID::ZERO, 2), (accept, 2)]));
    Ok(())
}

#[test]
fn nfa(rt: HostRuntime) -> Result<(), Fail> {
    // `Nfa`
    // [a-z]
    let info = GroupInfo::new(rt.alloc(), &[&[None]])?;
    let accept = StateID::must(1);
    let states = [
        State::ByteRange {
            start: b'a',
            end: b'z',
            next: accept,
        },
        State::Accept {
            pattern: PatternID::ZERO,
        },
    ];
    let nfa = Nfa::new(rt.alloc(), info, LookMatcher::new(AsciiWord), &states)?;
    assert!(rt; nfa.check_run(&Input::new(b"q"), &[(StateID::ZERO, 0), (accept, 1)]));
    assert!(rt; nfa.classes().get(b'a') == nfa.classes().get(b'z'));

    // `Nfa::classes_with`
    let mut stop = ByteClassSet::empty();
    stop.set_range(128, 255);
    let classes = nfa.classes_with(&stop);
    assert!(rt; classes.get(b'a') == classes.get(b'z') && classes.get(127) != classes.get(128));
    assert!(rt; nfa.classes().get(127) == nfa.classes().get(128));

    // `Nfa::looks`
    assert!(rt; nfa.looks().is_empty());
    Ok(())
}

#[test]
fn record(rt: HostRuntime) -> Result<(), Fail> {
    // `Nfa::record`
    let info = GroupInfo::new(rt.alloc(), &[&[None]])?;
    let mut captures = Captures::all(rt.alloc(), info.clone()?)?;
    let states = [
        State::Capture {
            slot: SmallIndex::ZERO,
            next: StateID::must(1),
        },
        State::Capture {
            slot: SmallIndex::must(1),
            next: StateID::must(2),
        },
        State::Accept {
            pattern: PatternID::ZERO,
        },
    ];
    let nfa = Nfa::new(rt.alloc(), info, LookMatcher::new(AsciiWord), &states)?;
    let run = [
        (StateID::ZERO, 3),
        (StateID::must(1), 3),
        (StateID::must(2), 3),
    ];
    nfa.record(&run, &mut captures);
    captures.set_pattern(Some(PatternID::ZERO));
    assert!(rt; captures.get_group(0) == Some(Span { start: 3, end: 3 }));
    // The empty run records nothing.
    nfa.record(&[], &mut captures);
    assert!(rt; captures.get_group(0) == None && captures.is_match());
    Ok(())
}

#[test]
fn error(rt: HostRuntime) -> Result<(), Fail> {
    // `BuildError`
    let info = GroupInfo::new(rt.alloc(), &[&[None]])?;
    let states = [State::Fork {
        a: StateID::ZERO,
        b: StateID::must(9),
    }];
    // There is no state 9.
    assert!(rt; Nfa::new(rt.alloc(), info, LookMatcher::new(AsciiWord), &states).is_err());
    Ok(())
}
