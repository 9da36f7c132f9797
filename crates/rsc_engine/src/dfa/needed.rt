//! Two neighbouring bytes that each match has: one of a first range, and directly after it one of a second. A haystack without them has no match,
//! and to look for them takes less time than a table's steps, since 64 bytes are read at once.
//!
//! Marks show that each match has them. A state may have two: one for runs whose last byte is of the first range, one for all other runs. The start
//! state has both, and the steps of a marked state mark the states that they lead to. A step over a byte of the second range directly after one of the
//! first marks nothing, since such a run has the two bytes. If no marked state accepts, each match has them.
ghost use Rattle.std.specs.Prelude.{◌≡◌, ◌+◌, ◌-◌, ◌<◌, ◌≤◌, ℕ, IfSome, true, false, length, slice_get, slice_index, slice_index_or, Some};
ghost use Rattle.rsc_engine.specs.Searches.{search_in};
ghost use Rattle.rsc_engine.specs.Preferred.{HasNoFirstMatch};
ghost use Rattle.rsc_engine.specs.NeededLayout.{HasNoPair, NeedsPair, PassesMarksOn, is_in, mark_of};
ghost use Rattle.rsc_engine.specs.RowsLayout.{machine, IsMarked};
ghost use Rattle.rsc_nfa.specs.declared.state.State.{State};

use crate::Program;
use rsc_look::WordClass;
use rsc_nfa::State;
use rsc_search::Input;

// Nothing is looked for in a program of more states.
const MOST_STATES: usize = 64;

// Two for each state.
const MARKS: usize = 128;

// How many pairs of ranges are tried.
const MOST_TRIES: usize = 64;

// That many bytes are looked at without a jump.
const AT_ONCE: usize = 64;

/// Two ranges of bytes: in each match a byte of the second is directly after one of the first.
#[derive(Clone, Copy)]
pub(crate) struct Needed {
    /// The first and the last byte of the one range.
    pub(crate) first: (u8, u8),
    /// Those of the other.
    pub(crate) second: (u8, u8),
}

impl Needed {
    /// Two ranges that each match of the program has, if some are found.
    pub(crate) fn of<W: WordClass>(program: &Program<W>) -> Option<Needed>
        ensures { IfSome result (λ n. NeedsPair (machine W.word_chars program.now) n.first n.second) }
    {
        if program.state_len() > MOST_STATES {
            return None;
        }
        let mut tries = 0;
        for one in 0..program.state_len() {
            for other in 0..program.state_len() {
                let ranges = (range_of(program, one), range_of(program, other));
                if let (Some(first), Some(second)) = ranges {
                    if tries >= MOST_TRIES {
                        return None;
                    }
                    tries += 1;
                    let needed = Needed { first, second };
                    if needed.is_in_each(program) {
                        return Some(needed);
                    }
                }
            }
        }
        None
    }

    // Whether each match of the program has such bytes, as far as the marks tell. Passes over the states go on until none marks anything.
    fn is_in_each<W: WordClass>(&self, program: &Program<W>) -> bool
        ensures { result ≡ true → NeedsPair (machine W.word_chars program.now) self.now.first self.now.second }
    {
        let mut marks = [false; MARKS];
        let start = program.start().as_usize();
        mark(&mut marks, start, true);
        mark(&mut marks, start, false);
        for _ in 0..MOST_STATES {
            let marked = marks;
            if self.are_passed(program, &mut marks) {
                return true;
            }
            if marks == marked {
                return false;
            }
        }
        false
    }

    // One round: marks what each marked state leads to. True if nothing was left to mark, and no marked state accepts.
    fn are_passed<W: WordClass>(&self, program: &Program<W>, marks: &mut [bool]) -> bool
        requires { length marks.old ≡ MARKS }
        ensures len { length marks.new ≡ MARKS }
        ensures needed { result ≡ true → NeedsPair (machine W.word_chars program.now) self.now.first self.now.second }
    {
        let start = program.start().as_usize();
        let mut all = true;
        let count = program.state_len();
        'states: for k in 0..count {
            // The builder's states lead to ones before them.
            let index = count - 1 - k;
            let one = self.is_passed(program, index, true, marks);
            let other = self.is_passed(program, index, false, marks);
            all = all & one & other;
        }
        all && is_marked(marks, start, true) && is_marked(marks, start, false)
    }

    // The same for one state, and one of its marks.
    fn is_passed<W: WordClass>(
        &self,
        program: &Program<W>,
        index: usize,
        after: bool,
        marks: &mut [bool],
    ) -> bool
        requires len { length marks.old ≡ MARKS }
        requires index { index < length program.now.automaton.states }
        ensures len { length marks.new ≡ MARKS }
        ensures same { result ≡ true → marks.new ≡ marks.old }
        ensures passed { result ≡ true → (state : State) → slice_get program.now.automaton.states index ≡ Some state
            → IsMarked marks.new (mark_of index after) → PassesMarksOn self.now.first self.now.second marks.new after state }
    {
        !is_marked(marks, index, after) || self.passes(program.nfa().states()[index], after, marks)
    }

    // Marks what a state leads to, for runs that come to it with a byte of the first range (`after`) or without one. True if all of that was
    // marked before, and the state accepts nothing.
    fn passes(&self, state: State, after: bool, marks: &mut [bool]) -> bool
        requires { length marks.old ≡ MARKS }
        ensures len { length marks.new ≡ MARKS }
        ensures same { result ≡ true → marks.new ≡ marks.old }
        ensures passed { result ≡ true → PassesMarksOn self.now.first self.now.second marks.new after state }
    {
        match state {
            State::ByteRange { start, end, next } => {
                if after && self.second.0 <= start && end <= self.second.1 {
                    return true;
                }
                let meets = start <= self.first.1 && self.first.0 <= end;
                let within = self.first.0 <= start && end <= self.first.1;
                let one = !meets || mark(marks, next.as_usize(), true);
                let other = within || mark(marks, next.as_usize(), false);
                one && other
            }
            State::Assert { next, .. } | State::Capture { next, .. } => mark(
                marks,
                next.as_usize(),
                after,
            ),
            State::Fork { a, b } => {
                let one = mark(marks, a.as_usize(), after);
                let other = mark(marks, b.as_usize(), after);
                one && other
            }
            State::Accept { .. } => false,
        }
    }

    /// Whether an input's span lacks such bytes, and so has no match of the program.
    pub(crate) fn are_missing<W: WordClass>(&self, program: &Program<W>, input: &Input<'_>) -> bool
        requires { NeedsPair (machine W.word_chars program.now) self.now.first self.now.second }
        ensures { result ≡ true → HasNoFirstMatch (search_in W.word_chars program.now input.now) }
    {
        if self.stand_in(input.haystack(), input.start(), input.end()) {
            return false;
        }
        true
    }

    // Whether a byte of the second range is directly after one of the first, both of them from one position up to another.
    fn stand_in(&self, haystack: &[u8], start: usize, end: usize) -> bool
        requires { end ≤ length haystack.now }
        ensures { result ≡ false → HasNoPair self.now.first self.now.second haystack.now start end }
    {
        if start >= end {
            return false;
        }
        let mut at = start + 1;
        'parts: while end - at >= AT_ONCE {
            if self.stand_before(haystack, at, at + AT_ONCE) {
                return true;
            }
            at += AT_ONCE;
        }
        self.stand_before(haystack, at, end)
    }

    // The same, where the second byte is from one position up to another.
    #[inline(always)]
    fn stand_before(&self, haystack: &[u8], from: usize, end: usize) -> bool
        requires { (0 < from) × (end ≤ length haystack.now) }
        ensures { result ≡ false → (i : ℕ) → from ≤ i → i < end →
            ¬ ((is_in self.now.first (slice_index haystack.now (i - 1)) ≡ true) × (is_in self.now.second (slice_index haystack.now i) ≡ true)) }
    {
        let mut found = false;
        'bytes: for i in from..end {
            found = found | (is_in(self.first, haystack[i - 1]) & is_in(self.second, haystack[i]));
        }
        found
    }
}

/// Whether a byte is of a range.
#[inline(always)]
pub(crate) fn is_in(range: (u8, u8), byte: u8) -> bool
    ensures { result ≡ is_in range byte }
{
    (range.0 <= byte) & (byte <= range.1)
}

// The bytes over which a state goes on, if it is such a state.
fn range_of<W: WordClass>(program: &Program<W>, index: usize) -> Option<(u8, u8)>
    requires { index < length program.now.automaton.states }
{
    match program.nfa().states()[index] {
        State::ByteRange { start, end, .. } => Some((start, end)),
        _ => None,
    }
}

// Whether a state has the mark for a byte of the first range (`after`), or the other.
fn is_marked(marks: &[bool], state: usize, after: bool) -> bool
    requires { length marks.now ≡ MARKS }
    ensures { result ≡ slice_index_or marks.now (mark_of state after) false }
{
    if state >= MOST_STATES {
        return false;
    }
    if after {
        marks[2 * state + 1]
    } else {
        marks[2 * state]
    }
}

// Gives a state such a mark. True if it had it before.
fn mark(marks: &mut [bool], state: usize, after: bool) -> bool
    requires { length marks.old ≡ MARKS }
    ensures len { length marks.new ≡ MARKS }
    ensures same { result ≡ true → marks.new ≡ marks.old }
    ensures marked { result ≡ true → IsMarked marks.new (mark_of state after) }
{
    if is_marked(marks, state, after) {
        return true;
    }
    if state < MOST_STATES {
        if after {
            marks[2 * state + 1] = true;
        } else {
            marks[2 * state] = true;
        }
    }
    false
}
