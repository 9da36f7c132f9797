//! Calls on automata that take no memory, over an arena that shows each request.
use bumpalo::Bump;
use rsc_alphabet::ByteClassSet;
use rsc_captures::{Captures, GroupInfo};
use rsc_look::{Look, LookMatcher, UnicodeWord};
use rsc_nfa::{BuildError, Nfa, State};
use rsc_primitives::{PatternID, SmallIndex, StateID};
use rsc_primitives_tests::requests::Watch;
use rsc_search::{Input, Span};
use std::test::Fail;

// `(a)\b|b`, with a slot recorded before and after each branch.
fn states() -> [State; 7] {
    [
        State::Capture {
            slot: SmallIndex::ZERO,
            next: StateID::must(1),
        },
        State::Fork {
            a: StateID::must(2),
            b: StateID::must(4),
        },
        State::ByteRange {
            start: b'a',
            end: b'a',
            next: StateID::must(3),
        },
        State::Assert {
            look: Look::WordUnicode,
            next: StateID::must(5),
        },
        State::ByteRange {
            start: b'b',
            end: b'b',
            next: StateID::must(5),
        },
        State::Capture {
            slot: SmallIndex::must(1),
            next: StateID::must(6),
        },
        State::Accept {
            pattern: PatternID::ZERO,
        },
    ]
}

// The run of `a` in a haystack that begins with it.
fn run() -> [(StateID, usize); 6] {
    [
        (StateID::ZERO, 0),
        (StateID::must(1), 0),
        (StateID::must(2), 0),
        (StateID::must(3), 1),
        (StateID::must(5), 1),
        (StateID::must(6), 1),
    ]
}

// Notes each call that reads an automaton. Whether each answered as it should.
fn read(watch: &mut Watch<'_>, nfa: &Nfa<UnicodeWord, &Bump>, run: &[(StateID, usize)]) -> bool {
    let counts = (nfa.states().len(), nfa.group_info().slot_len());
    watch.note("states, group_info");
    let terminator = nfa.matcher().get_line_terminator();
    watch.note("matcher");
    let classes = nfa.classes();
    watch.note("classes");
    let mut more = ByteClassSet::empty();
    more.set_range(b'x', b'y');
    let finer = nfa.classes_with(&more);
    watch.note("classes_with");
    let looks = nfa.looks();
    watch.note("looks");
    let are_runs = nfa.check_run(&Input::new(b"a"), run) && nfa.check_run(&Input::new(b"a"), &[]);
    watch.note("check_run");
    let is_none = nfa.check_run(&Input::new(b"ab"), run) || nfa.check_run(&Input::new(b"b"), run);
    watch.note("check_run of no run");
    counts == (7, 2)
        && terminator == b'\n'
        && classes.get(b'x') == classes.get(b'y')
        && finer.get(b'w') != finer.get(b'x')
        && looks.len() == 1
        && are_runs
        && !is_none
}

// `(a)\b|b` over an arena.
fn built(arena: &Bump) -> Result<Nfa<UnicodeWord, &Bump>, Fail> {
    let info = GroupInfo::new(arena, &[&[None]])?;
    Ok(Nfa::new(arena, info, LookMatcher::new(UnicodeWord), &states())?)
}

#[test]
fn calls_on_an_automaton_ask_for_no_memory(rt: HostRuntime) -> Result<(), Fail> {
    let arena = Bump::new(rt.alloc());
    let nfa = built(&arena)?;
    let mut watch = Watch::new(rt.alloc(), &arena);
    assert!(rt; read(&mut watch, &nfa, &run()));
    assert_eq!(rt; watch.asking(), "");
    Ok(())
}

// Notes two records of runs, and returns the span of the match after each.
fn record<'a>(
    watch: &mut Watch<'_>,
    nfa: &Nfa<UnicodeWord, &'a Bump>,
    captures: &mut Captures<&'a Bump>,
) -> [Option<Span>; 2] {
    captures.set_pattern(Some(PatternID::ZERO));
    watch.restart();
    let end = StateID::must(5);
    nfa.record(
        &[(StateID::ZERO, 0), (end, 1), (StateID::must(6), 1)],
        captures,
    );
    watch.note("record");
    let first = captures.get_group(0);
    nfa.record(&[], captures);
    watch.note("record of the empty run");
    [first, captures.get_group(0)]
}

#[test]
fn records_ask_for_no_memory(rt: HostRuntime) -> Result<(), Fail> {
    let arena = Bump::new(rt.alloc());
    let nfa = built(&arena)?;
    let mut captures = Captures::all(&arena, nfa.group_info().clone()?)?;
    let mut watch = Watch::new(rt.alloc(), &arena);
    let spans = record(&mut watch, &nfa, &mut captures);
    assert!(rt; spans == [Some(Span { start: 0, end: 1 }), None] && captures.is_match());
    assert_eq!(rt; watch.asking(), "");
    Ok(())
}

#[test]
fn records_into_no_slots_ask_for_no_memory(rt: HostRuntime) -> Result<(), Fail> {
    let arena = Bump::new(rt.alloc());
    let nfa = built(&arena)?;
    let mut captures = Captures::empty(&arena, nfa.group_info().clone()?)?;
    let mut watch = Watch::new(rt.alloc(), &arena);
    let spans = record(&mut watch, &nfa, &mut captures);
    assert!(rt; spans == [None, None] && captures.is_match());
    assert_eq!(rt; watch.asking(), "");
    Ok(())
}

// Notes each call that reads an automaton of no states. Whether each answered as it should.
fn read_none(watch: &mut Watch<'_>, nfa: &Nfa<UnicodeWord, &Bump>) -> bool {
    let is_none = nfa.states().is_empty() && nfa.looks().is_empty();
    watch.note("states, looks of no states");
    let is_run = nfa.check_run(&Input::new(b"a"), &run());
    watch.note("check_run past the states");
    let is_empty_run = nfa.check_run(&Input::new(b"a"), &[]);
    watch.note("check_run of the empty run");
    is_none && !is_run && is_empty_run
}

#[test]
fn calls_on_an_automaton_of_no_states_ask_for_no_memory(rt: HostRuntime) -> Result<(), Fail> {
    let arena = Bump::new(rt.alloc());
    let info = GroupInfo::new(&arena, &[&[None]])?;
    let mut watch = Watch::new(rt.alloc(), &arena);
    let nfa = Nfa::new(&arena, info, LookMatcher::new(UnicodeWord), &[])?;
    watch.note("new of no states");
    assert!(rt; read_none(&mut watch, &nfa));
    assert_eq!(rt; watch.asking(), "");
    Ok(())
}

// Notes what states ask for that are refused.
fn refusal(watch: &mut Watch<'_>, arena: &Bump, state: State) -> Result<Option<BuildError>, Fail> {
    let info = GroupInfo::new(arena, &[&[None]])?;
    watch.restart();
    let refused = Nfa::new(
        arena,
        info,
        LookMatcher::new(UnicodeWord),
        &[
            State::Accept {
                pattern: PatternID::ZERO,
            },
            state,
        ],
    )
    .err();
    watch.note("new");
    Ok(refused)
}

#[test]
fn checks_of_states_ask_for_no_memory(rt: HostRuntime) -> Result<(), Fail> {
    let arena = Bump::new(rt.alloc());
    let mut watch = Watch::new(rt.alloc(), &arena);
    let range = State::ByteRange {
        start: b'b',
        end: b'a',
        next: StateID::ZERO,
    };
    let (target, slot, pattern) = (StateID::must(2), SmallIndex::must(2), PatternID::must(1));
    let fork = State::Fork {
        a: StateID::ZERO,
        b: target,
    };
    let capture = State::Capture {
        slot,
        next: StateID::ZERO,
    };
    for (state, want) in [
        (range, BuildError::EmptyRange { state: 1 }),
        (fork, BuildError::UnknownState { state: 1, target }),
        (capture, BuildError::UnknownSlot { state: 1, slot }),
        (
            State::Accept { pattern },
            BuildError::UnknownPattern { state: 1, pattern },
        ),
    ] {
        assert!(rt;
            refusal(&mut watch, &arena, state)? == Some(want),
            "{want:?}"
        );
    }
    assert_eq!(rt; watch.asking(), "");
    Ok(())
}
