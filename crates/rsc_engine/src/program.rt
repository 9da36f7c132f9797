//! A program: an automaton, and where a match begins in it.
ghost use Rattle.std.specs.Prelude.{◌≡◌, ◌*◌, ◌<◌, ◌≤◌, IfOk, IfErr, IfSome, IfNone, Some, true, length, slice_get};
ghost use Rattle.rsc_captures.specs.Captured.{unset_captures};
ghost use Rattle.rsc_captures.specs.Groups.{all_group_count};
ghost use Rattle.rsc_nfa.specs.Automata.{Automaton};
ghost use Rattle.rsc_engine.specs.declared.error.Error.TheVariants.{OutOfMemory};
ghost use Rattle.rsc_engine.specs.GroupEnds.{RecordsEnds};
ghost use Rattle.rsc_engine.specs.PatternMatches.{HasSlotsOf};
ghost use Rattle.rsc_nfa.specs.StateFaults.{IsStateWithin};
ghost use Rattle.rsc_engine.specs.Searches.{Compiled};

use crate::Error;
use rsc_captures::Captures;
use rsc_look::WordClass;
use rsc_nfa::{Nfa, State};
use rsc_primitives::StateID;
use std::alloc::Global;
use std::marker::Model;

/// An automaton, the state at which each match begins, and whether haystacks are text.
///
/// # Examples
///
/// ```
/// // ([a-z])
/// let builder = Builder::new(rt.alloc());
/// let letter = builder.group(None, builder.range(b'a', b'z'))?;
/// let program = builder.build(AsciiWord, true, letter)?;
/// let captures = program.captures(rt.alloc())?;
/// assert!(rt; captures.group_info().group_len(PatternID::ZERO) == 2);
/// // 00 to `, a to z, { to FF, and the end of the input.
/// assert!(rt; program.nfa().classes().alphabet_len() == 4);
/// ```
pub struct Program<W: WordClass> {
    nfa: Nfa<W>,
    start: StateID,
    utf8: bool,
    // Whether it was made from patterns, so that each run of a match records the match's ends.
    records_ends: bool,
}

impl<W: WordClass> Model for Program<W> {
    ghost Value = { Compiled W };

    ghost view = { λ p. record { automaton = p.nfa; start = p.start; utf8 = p.utf8 } };

    ghost invariant = { λ p. (p.start < length p.nfa.states)
        × (p.records_ends ≡ true → RecordsEnds W.word_chars (record { automaton = p.nfa; start = p.start; utf8 = p.utf8 })) };
}

// Written out, so that a caller's proof has one step where a program is dropped.
impl<W: WordClass> Drop for Program<W> {
    fn drop(self) {
        let Program {
            nfa: _,
            start: _,
            utf8: _,
            records_ends: _,
        } = self;
    }
}

impl<W: WordClass> Program<W> {
    /// The program of an automaton whose matches begin at the state, or `None` if it has no such state. If haystacks are text, an
    /// iteration leaves out empty matches within characters.
    ///
    /// # Examples
    ///
    /// ```
    /// // [a-z]
    /// let info = GroupInfo::new(rt.alloc(), &[&[None]])?;
    /// let states = [
    ///     State::ByteRange {
    ///         start: b'a',
    ///         end: b'z',
    ///         next: StateID::must(1),
    ///     },
    ///     State::Accept {
    ///         pattern: PatternID::ZERO,
    ///     },
    /// ];
    /// let nfa = Nfa::new(rt.alloc(), info, LookMatcher::new(AsciiWord), &states)?;
    /// let made = Program::new(nfa, StateID::ZERO, true);
    /// assert!(rt; made.is_some());
    /// if let Some(program) = &made {
    ///     let mut captures = program.captures(rt.alloc())?;
    ///     let found = find(rt.alloc(), program, &Input::new(b"-q"), &mut captures)?;
    ///     assert!(rt; found.is_some_and(|it| it.start() == 1 && it.end() == 2));
    /// }
    /// ```
    pub fn new(nfa: Nfa<W>, start: StateID, utf8: bool) -> Option<Program<W>>
        ensures made { IfSome result (λ p. p ≡ record { automaton = nfa; start = start; utf8 = utf8 }) }
        ensures none { IfNone result (length nfa.states ≤ start) }
    {
        if start.as_usize() < nfa.states().len() {
            Some(Program {
                nfa,
                start,
                utf8,
                records_ends: false,
            })
        } else {
            None
        }
    }

    // The program of patterns: each run of a match records the match's ends.
    pub(crate) fn of_patterns(nfa: Nfa<W>, start: StateID, utf8: bool) -> Program<W>
        requires there { start < length nfa.states }
        requires records_ends { RecordsEnds W.word_chars (record { automaton = nfa; start = start; utf8 = utf8 }) }
        ensures { result ≡ record { automaton = nfa; start = start; utf8 = utf8 } }
    {
        Program {
            nfa,
            start,
            utf8,
            records_ends: true,
        }
    }

    // Whether each run of a match is known to record the match's ends.
    pub(crate) fn records_ends(&self) -> bool
        ensures { result ≡ true → RecordsEnds W.word_chars self.now }
    {
        self.records_ends
    }

    /// The automaton.
    #[inline]
    pub fn nfa(&self) -> &Nfa<W>
        ensures { result.now ≡ self.now.automaton }
    {
        // No wrong body: nothing else of its type is at hand.
        &self.nfa
    }

    /// Captures for searches by this program, with room for all groups, and with no match yet.
    ///
    /// # Errors
    ///
    /// Out of memory.
    pub fn captures(&self, alloc: Global) -> Result<Captures, Error>
        ensures made { IfOk result (λ c. c ≡ unset_captures self.now.automaton.groups (2 * all_group_count self.now.automaton.groups)) }
        ensures slots { IfOk result (HasSlotsOf self.now) }
        ensures refused { IfErr result (λ e. e ≡ OutOfMemory) }
    {
        Ok(Captures::all(alloc, self.nfa.group_info().clone()?)?)
    }

    /// The state at which each match begins.
    #[inline]
    pub fn start(&self) -> StateID
        ensures value { result ≡ self.now.start }
        ensures within { result < length self.now.automaton.states }
    {
        self.start
    }

    /// Whether haystacks are text, so that an iteration leaves out empty matches within characters.
    #[inline]
    pub fn is_utf8(&self) -> bool
        ensures { result ≡ self.now.utf8 }
    {
        self.utf8
    }

    /// The number of states.
    #[inline]
    pub fn state_len(&self) -> usize
        ensures { result ≡ length self.now.automaton.states }
    {
        self.nfa.states().len()
    }

    /// A state by its number, which is below [`Program::state_len`].
    #[inline]
    pub fn state(&self, sid: StateID) -> State
        requires { sid < length self.now.automaton.states }
        ensures value { slice_get self.now.automaton.states sid ≡ Some result }
        ensures within { IsStateWithin self.now.automaton.groups (length self.now.automaton.states) result }
    {
        self.nfa.states()[sid.as_usize()]
    }
}
