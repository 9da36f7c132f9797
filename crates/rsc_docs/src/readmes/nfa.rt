use rsc_captures::GroupInfo;
use rsc_look::{AsciiWord, Look, LookMatcher};
use rsc_nfa::{Nfa, State};
use rsc_primitives::{PatternID, SmallIndex, StateID};
use rsc_search::Input;
use std::test::Fail;

#[test]
fn example(rt: HostRuntime) -> Result<(), Fail> {
    // (?m)^[a-z]+, with the slots 0 and 1 of its whole match.
    let info = GroupInfo::new(rt.alloc(), &[&[None]])?;
    let states = [
        State::Assert {
            look: Look::StartLF,
            next: StateID::must(1),
        },
        State::Capture {
            slot: SmallIndex::ZERO,
            next: StateID::must(2),
        },
        State::ByteRange {
            start: b'a',
            end: b'z',
            next: StateID::must(3),
        },
        State::Fork {
            a: StateID::must(2),
            b: StateID::must(4),
        },
        State::Capture {
            slot: SmallIndex::must(1),
            next: StateID::must(5),
        },
        State::Accept {
            pattern: PatternID::ZERO,
        },
    ];
    let nfa = Nfa::new(rt.alloc(), info, LookMatcher::new(AsciiWord), &states)?;

    // 00 to 09, 0A, 0B to 60, a to z, 7B to FF, and the end of the input: no run tells the bytes of one class apart.
    let classes = nfa.classes();
    assert!(rt; classes.alphabet_len() == 6 && classes.get(b'a') == classes.get(b'q'));

    let mut run = [(StateID::ZERO, 1); 6];
    for k in 0..6 {
        run[k] = (StateID::must(k), if k < 3 { 1 } else { 2 });
    }
    assert!(rt; nfa.check_run(&Input::new(b"\na"), &run));
    assert!(rt; nfa.check_run(&Input::new(b"\nq"), &run));
    assert!(rt; !nfa.check_run(&Input::new(b"-a"), &run));
    Ok(())
}
