//! A slow model of runs, read off the table of steps, beside `check_run` and `classes`, for twelve automata.
use rsc_captures::GroupInfo;
use rsc_look::{AsciiWord, Look, LookMatcher};
use rsc_nfa::{Nfa, State};
use rsc_primitives::{PatternID, SmallIndex, StateID};
use rsc_search::Input;
use std::process::Abort;
use std::test::Fail;

// Ten bytes, on both sides of the boundaries of the automata below.
const BYTES: [u8; 10] = [0, b'\n', 0x0b, b'0', b'`', b'a', b'z', b'{', 0x80, 0xff];

// Haystacks of none, one and two of these bytes.
const HAYSTACKS: usize = 1 + 10 + 100;

// The bytes of a haystack, and how many of them it has.
fn haystack_of(number: usize) -> ([u8; 2], usize) {
    match number {
        0 => ([0, 0], 0),
        1..=10 => ([BYTES[(number - 1) % 10], 0], 1),
        _ => (
            [BYTES[(number - 11) / 10 % 10], BYTES[(number - 11) % 10]],
            2,
        ),
    }
}

fn range(start: u8, end: u8, next: u8) -> State {
    State::ByteRange {
        start,
        end,
        next: StateID::from(next),
    }
}

fn assertion(look: Look, next: u8) -> State {
    State::Assert {
        look,
        next: StateID::from(next),
    }
}

fn fork(a: u8, b: u8) -> State {
    State::Fork {
        a: StateID::from(a),
        b: StateID::from(b),
    }
}

fn capture(slot: u8, next: u8) -> State {
    State::Capture {
        slot: SmallIndex::from(slot),
        next: StateID::from(next),
    }
}

const ACCEPT: State = State::Accept {
    pattern: PatternID::ZERO,
};

// The automata, of three states each.
fn automaton(number: usize) -> [State; 3] {
    match number {
        0 => [range(b'a', b'z', 1), range(b'a', b'a', 2), ACCEPT],
        1 => [range(0, 0xff, 0), ACCEPT, ACCEPT],
        2 => [range(0x80, 0xff, 1), range(0, 0x0b, 0), ACCEPT],
        3 => [fork(1, 2), range(b'`', b'a', 0), ACCEPT],
        4 => [assertion(Look::StartLF, 1), range(b'a', b'a', 2), ACCEPT],
        5 => [assertion(Look::EndCRLF, 1), fork(0, 2), ACCEPT],
        6 => [assertion(Look::WordAscii, 1), range(b'0', b'z', 0), ACCEPT],
        7 => [capture(0, 1), range(b'{', b'{', 2), capture(1, 0)],
        8 => [fork(0, 0), fork(1, 2), fork(2, 1)],
        9 => [assertion(Look::Start, 1), assertion(Look::End, 2), ACCEPT],
        10 => [
            assertion(Look::WordStartHalfAscii, 1),
            range(0, 9, 0),
            assertion(Look::EndLF, 2),
        ],
        _ => [ACCEPT, ACCEPT, ACCEPT],
    }
}

const AUTOMATA: usize = 12;

type Place = (usize, usize);

// The table of steps.
fn leads(
    states: &[State; 3],
    matcher: &LookMatcher<AsciiWord>,
    haystack: &[u8],
    from: Place,
    to: Place,
) -> bool {
    if from.0 >= 3 || from.1 > haystack.len() {
        return false;
    }
    let stays = to.1 == from.1;
    match states[from.0] {
        State::ByteRange { start, end, next } => match haystack.get(from.1) {
            Some(byte) => start <= *byte && *byte <= end && to == (next.as_usize(), from.1 + 1),
            None => false,
        },
        State::Assert { look, next } => matcher.matches(look, haystack, from.1)
            && to.0 == next.as_usize()
            && stays,
        State::Fork { a, b } => (to.0 == a.as_usize() || to.0 == b.as_usize()) && stays,
        State::Capture { next, .. } => to.0 == next.as_usize() && stays,
        State::Accept { .. } => false,
    }
}

// A place by its number: a state, one of which the automaton hasn't, and a position, one of which the haystack hasn't.
fn place_of(number: usize) -> Place {
    (number % 4, number / 4)
}

fn pair_of(place: Place) -> (StateID, usize) {
    (StateID::try_from(place.0).unwrap_or(StateID::ZERO), place.1)
}

// Asserts that `check_run` and the table agree on all lists of up to three places, and returns a number that tells which of them
// are runs.
fn runs_of(rt: &impl Abort, nfa: &Nfa<AsciiWord>, states: &[State; 3], haystack: &[u8]) -> u64 {
    let matcher = LookMatcher::new(AsciiWord);
    let input = Input::new(haystack);
    let mut print = 0u64;
    for number in 0..4096usize {
        let places = [
            place_of(number % 16),
            place_of(number / 16 % 16),
            place_of(number / 256),
        ];
        let run = [pair_of(places[0]), pair_of(places[1]), pair_of(places[2])];
        let is_there = |place: Place| place.0 < 3 && place.1 <= haystack.len();
        let one = is_there(places[0]);
        let two = one
            && is_there(places[1])
            && leads(states, &matcher, haystack, places[0], places[1]);
        let three = two
            && is_there(places[2])
            && leads(states, &matcher, haystack, places[1], places[2]);
        assert_eq!(rt; nfa.check_run(&input, &run[..1]), one);
        assert_eq!(rt; nfa.check_run(&input, &run[..2]), two);
        assert_eq!(rt; nfa.check_run(&input, &run), three);
        if three {
            print = print.wrapping_mul(31).wrapping_add(number as u64);
        }
    }
    print
}

// Asserts that a step from some state, at 0 or at 1, exists on exactly one of the haystacks of a byte and of the next byte alone.
fn asserts_needed(rt: &impl Abort, states: &[State; 3], byte: u8) {
    let matcher = LookMatcher::new(AsciiWord);
    let mut is_needed = false;
    for number in 0..64usize {
        let from = (number % 4, number / 4 % 2);
        let to = (number / 8 % 4, number / 32);
        is_needed |= leads(states, &matcher, &[byte], from, to)
            != leads(states, &matcher, &[byte.saturating_add(1)], from, to);
    }
    assert!(rt; is_needed);
}

#[test]
fn runs_are_those_of_the_table(rt: HostRuntime) -> Result<(), Fail> {
    for number in 0..AUTOMATA {
        let states = automaton(number);
        let info = GroupInfo::new(rt.alloc(), &[&[None]])?;
        let nfa = Nfa::new(rt.alloc(), info, LookMatcher::new(AsciiWord), &states)?;
        let classes = nfa.classes();
        for byte in 0..255u8 {
            if classes.get(byte) != classes.get(byte + 1) {
                asserts_needed(&rt, &states, byte);
            }
        }
        let mut prints = [0u64; HAYSTACKS];
        for h in 0..HAYSTACKS {
            let (bytes, len) = haystack_of(h);
            prints[h] = runs_of(&rt, &nfa, &states, &bytes[..len.min(2)]);
        }
        for h in 0..HAYSTACKS {
            for k in 0..HAYSTACKS {
                let (first, len) = haystack_of(h);
                let (second, other) = haystack_of(k);
                let same = classes.get(first[0]) == classes.get(second[0])
                    && classes.get(first[1]) == classes.get(second[1]);
                if len == other && same {
                    assert_eq!(rt; prints[h], prints[k]);
                }
            }
        }
    }
    Ok(())
}
