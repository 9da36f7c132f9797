//! The bytes with which matches begin, where they are of one small range: before the first of them none begins.
//!
//! Marks show it. The start state has one, and so have the states to which a marked one leads with no byte. If no marked state accepts, each match goes on from
//! a marked state over its first byte.
ghost use Rattle.std.specs.Prelude.{◌≡◌, ◌<◌, ◌≤◌, IfSome, true, false, length, slice_index_or};
ghost use Rattle.rsc_engine.specs.RowsLayout.{machine};
ghost use Rattle.rsc_engine.specs.FirstBytesLayout.{BeginsIn, HasFirst, LacksFirst};

use super::needed::is_in;
use crate::Program;
use rsc_look::WordClass;
use rsc_nfa::State;

// Nothing is looked for in a program of more states.
const MOST_STATES: usize = 64;

// Bytes of a larger range are met too often.
const MOST_BYTES: u8 = 32;

// That many bytes are looked at without a jump, and then each by itself: no more, since matches may be near each other.
const AT_ONCE: usize = 16;

/// A range of bytes with one of which each match begins.
#[derive(Clone, Copy)]
pub(crate) struct FirstBytes {
    /// The first and the last byte of the range.
    pub(crate) range: (u8, u8),
}

impl FirstBytes {
    /// A range of which each match of the program begins with a byte, if a small one is found.
    pub(crate) fn of<W: WordClass>(program: &Program<W>) -> Option<FirstBytes>
        ensures { IfSome result (λ f. HasFirst (machine W.word_chars program.now) f.range) }
    {
        if program.state_len() > MOST_STATES {
            return None;
        }
        let mut marks = [false; MOST_STATES];
        mark(&mut marks, program.start().as_usize());
        let range = spread(program, &mut marks);
        let first = FirstBytes { range };
        if range.1.saturating_sub(range.0) < MOST_BYTES && first.is_in_each(program, &marks) {
            Some(first)
        } else {
            None
        }
    }

    // Whether the marks show that each match begins with a byte of the range.
    fn is_in_each<W: WordClass>(&self, program: &Program<W>, marks: &[bool]) -> bool
        ensures { result ≡ true → HasFirst (machine W.word_chars program.now) self.now.range }
    {
        let mut all = is_marked(marks, program.start().as_usize());
        'states: for index in 0..program.state_len() {
            all = all
                & (!is_marked(marks, index) || self.begins(program.nfa().states()[index], marks));
        }
        all
    }

    // Whether a state leads to marked ones with no byte, over bytes of the range alone, and accepts nothing.
    fn begins(&self, state: State, marks: &[bool]) -> bool
        ensures { result ≡ true → BeginsIn self.now.range marks.now state }
    {
        match state {
            State::ByteRange { start, end, .. } => self.range.0 <= start && end <= self.range.1,
            State::Assert { next, .. } | State::Capture { next, .. } => is_marked(
                marks,
                next.as_usize(),
            ),
            State::Fork { a, b } => is_marked(marks, a.as_usize())
                && is_marked(marks, b.as_usize()),
            State::Accept { .. } => false,
        }
    }

    /// The first position from one up to another with a byte of the range, or else the other.
    pub(crate) fn next_in(&self, haystack: &[u8], start: usize, end: usize) -> usize
        requires order { start ≤ end }
        requires within { end ≤ length haystack.now }
        ensures low { start ≤ result }
        ensures high { result ≤ end }
        ensures none { LacksFirst self.now.range haystack.now start result }
    {
        let mut at = start;
        'parts: while end - at >= AT_ONCE {
            if self.stand_in(haystack, at, at + AT_ONCE) {
                return self.first_in(haystack, at, end);
            }
            at += AT_ONCE;
        }
        self.first_in(haystack, at, end)
    }

    // The same, byte by byte.
    fn first_in(&self, haystack: &[u8], start: usize, end: usize) -> usize
        requires order { start ≤ end }
        requires within { end ≤ length haystack.now }
        ensures low { start ≤ result }
        ensures high { result ≤ end }
        ensures none { LacksFirst self.now.range haystack.now start result }
    {
        'bytes: for at in start..end {
            if is_in(self.range, haystack[at]) {
                return at;
            }
        }
        end
    }

    // Whether a byte from one position up to another is of the range.
    #[inline(always)]
    fn stand_in(&self, haystack: &[u8], start: usize, end: usize) -> bool
        requires { end ≤ length haystack.now }
        ensures { result ≡ false → LacksFirst self.now.range haystack.now start end }
    {
        let mut found = false;
        'bytes: for i in start..end {
            found = found | is_in(self.range, haystack[i]);
        }
        found
    }
}

// Marks what marked states lead to with no byte, in one pass: the least range with the bytes over which they lead on.
fn spread<W: WordClass>(program: &Program<W>, marks: &mut [bool]) -> (u8, u8) {
    let mut range = (u8::MAX, 0);
    let count = program.state_len();
    for k in 0..count {
        // The builder's states lead to ones before them. Of another program nothing is found.
        let index = count - 1 - k;
        if is_marked(marks, index) {
            match program.nfa().states()[index] {
                State::ByteRange { start, end, .. } => {
                    range = (range.0.min(start), range.1.max(end));
                }
                State::Assert { next, .. } | State::Capture { next, .. } => mark(
                    marks,
                    next.as_usize(),
                ),
                State::Fork { a, b } => {
                    mark(marks, a.as_usize());
                    mark(marks, b.as_usize());
                }
                State::Accept { .. } => {}
            }
        }
    }
    range
}

// Whether a state is marked.
fn is_marked(marks: &[bool], state: usize) -> bool
    ensures { result ≡ slice_index_or marks.now state false }
{
    state < marks.len() && marks[state]
}

// Marks a state.
fn mark(marks: &mut [bool], state: usize) {
    if state < marks.len() {
        marks[state] = true;
    }
}
