//! Automata over bytes.
ghost use Rattle.std.specs.Prelude.{◌≡◌, ◌≤◌, ◌<◌, ◌+◌, ◌⊎◌, ◌↔◌, ◌||◌, ℕ, true, false, IsTrue, All, None, length, slice_get, slice_index, slice_index_or, IfOk, IfErr, OnOk};
ghost use Rattle.std.specs.List.{list_any};
ghost use Rattle.std.specs.FinSet as sets;
ghost use Rattle.rsc_alphabet.specs.Partitions.{LastClassIsGreatest, class_map};
ghost use Rattle.rsc_look.specs.Keeping.{AgreesWithAscii};
ghost use Rattle.rsc_nfa.specs.Automata.{Automaton};
ghost use Rattle.rsc_nfa.specs.Classes.{IsOrdered, IsFiner, asserts, boundaries_of_state, boundaries_of_states, has_unicode_assertion, KeepsRuns, IsEachBoundaryNeeded, HasNoSpareBoundary};
ghost use Rattle.rsc_nfa.specs.StateFaults.{target_fault, fault_of_state, AreFaultless, IsFirstFaultOfStates};
ghost use Rattle.rsc_look.specs.declared.assertion.Look.{Look};
ghost use Rattle.rsc_look.specs.LookSets.{has_one_of, unicode_word_assertions};
ghost use Rattle.rsc_nfa.specs.Steps.{IsStep, IsRun, IsPlaceWithin, recorded};
ghost use Rattle.rsc_nfa.specs.RecordsLayout.{put_offset, slot_recorded};
ghost use Rattle.rsc_nfa.specs.declared.error.BuildError.TheVariants.{OutOfMemory};

use crate::{BuildError, State};
use rsc_alphabet::{ByteClassSet, ByteClasses};
use rsc_captures::{Captures, GroupInfo};
use rsc_look::{LookMatcher, LookSet, WordClass};
use rsc_primitives::{NonMaxUsize, StateID};
use rsc_search::Input;
use std::alloc::{Allocator, Global};
use std::marker::Model;

/// An automaton over bytes, whose states are numbered by their indices in a list.
///
/// # Examples
///
/// ```
/// // [a-z]
/// let info = GroupInfo::new(rt.alloc(), &[&[None]])?;
/// let accept = StateID::must(1);
/// let states = [
///     State::ByteRange {
///         start: b'a',
///         end: b'z',
///         next: accept,
///     },
///     State::Accept {
///         pattern: PatternID::ZERO,
///     },
/// ];
/// let nfa = Nfa::new(rt.alloc(), info, LookMatcher::new(AsciiWord), &states)?;
/// assert!(rt; nfa.check_run(&Input::new(b"q"), &[(StateID::ZERO, 0), (accept, 1)]));
/// assert!(rt; nfa.classes().get(b'a') == nfa.classes().get(b'z'));
/// ```
pub struct Nfa<W: WordClass, A: Allocator = Global> {
    states: Vec<State, A>,
    group_info: GroupInfo<A>,
    matcher: LookMatcher<W>,
}

// Written out, so that a caller's proof has one step where an automaton is dropped.
impl<W: WordClass, A: Allocator> Drop for Nfa<W, A> {
    fn drop(self) {
        let Nfa {
            states: _,
            group_info: _,
            matcher: _,
        } = self;
    }
}

impl<W: WordClass, A: Allocator> Model for Nfa<W, A> {
    ghost use Rattle.rsc_nfa.specs.Automata.{Automaton};
    ghost use Rattle.rsc_nfa.specs.StateFaults.{AreFaultless};

    ghost Value = { Automaton W };

    ghost view = { λ n. record { states = n.states.items; groups = n.group_info; matcher = n.matcher } };

    ghost invariant = { λ n. AreFaultless n.group_info n.states.items };
}

// The fault of a state that names another, if that isn't below `count`.
fn check_target(count: usize, s: usize, target: StateID) -> Option<BuildError>
    ensures { result ≡ target_fault count s target }
{
    if target.as_usize() < count {
        None
    } else {
        Some(BuildError::UnknownState { state: s, target })
    }
}

// The fault of the state numbered `s` among `count` states.
fn check_state<A: Allocator + Clone + Drop>(
    group_info: &GroupInfo<A>,
    count: usize,
    s: usize,
    state: State,
) -> Option<BuildError>
    ensures { result ≡ fault_of_state group_info.now count s state }
{
    match state {
        State::ByteRange { start, end, next } => {
            if start > end {
                Some(BuildError::EmptyRange { state: s })
            } else {
                check_target(count, s, next)
            }
        }
        State::Assert { next, .. } => check_target(count, s, next),
        State::Fork { a, b } => match check_target(count, s, a) {
            Some(fault) => Some(fault),
            None => check_target(count, s, b),
        },
        State::Capture { slot, next } => match check_target(count, s, next) {
            Some(fault) => Some(fault),
            None => {
                if slot.as_usize() < group_info.slot_len() {
                    None
                } else {
                    Some(BuildError::UnknownSlot { state: s, slot })
                }
            }
        },
        State::Accept { pattern } => {
            if pattern.as_usize() < group_info.pattern_len() {
                None
            } else {
                Some(BuildError::UnknownPattern { state: s, pattern })
            }
        }
    }
}

// The first fault of a list of states.
fn check<A: Allocator + Clone + Drop>(
    group_info: &GroupInfo<A>,
    states: &[State],
) -> Result<(), BuildError>
    ensures faultless { OnOk result (AreFaultless group_info.now states.now) }
    ensures refused { IfErr result (IsFirstFaultOfStates group_info.now states.now) }
{
    for (s, state) in states.iter().enumerate() {
        if let Some(fault) = check_state(group_info, states.len(), s, *state) {
            return Err(fault);
        }
    }
    Ok(())
}

// Adds the boundaries of a state to a set.
fn add_state<W: WordClass>(matcher: &LookMatcher<W>, state: State, set: &mut ByteClassSet)
    requires { IsOrdered state }
    ensures { set.new ≡ sets.union set.old (boundaries_of_state state matcher.now.0) }
{
    match state {
        State::ByteRange { start, end, .. } => set.set_range(start, end),
        State::Assert { look, .. } => matcher.add_to_byteset(look, set),
        State::Fork { .. } | State::Capture { .. } | State::Accept { .. } => {}
    }
}

// Adds the assertion of a state to a set, if it has one.
fn add_look(state: State, set: &mut LookSet)
    ensures { (look : Look) → sets.contains set.new look ≡ (sets.contains set.old look || asserts look state) }
{
    match state {
        State::Assert { look, .. } => set.set_insert(look),
        State::ByteRange { .. }
        | State::Fork { .. }
        | State::Capture { .. }
        | State::Accept { .. } => {}
    }
}

// Writes a position into a slot, if there is one to write and captures have it.
#[inline]
fn put<A: Allocator + Clone + Drop>(captures: &mut Captures<A>, slot: Option<usize>, at: usize)
    requires { at < usize.MAX }
    ensures { captures.new ≡ record captures.old { offsets = put_offset captures.old.offsets slot at } }
{
    if let Some(slot) = slot {
        if slot < captures.slots().len() {
            captures.slots_mut()[slot] = NonMaxUsize::new(at);
        }
    }
}

impl<W: WordClass, A: Allocator + Clone + Drop> Nfa<W, A> {
    /// An automaton of these states: the state at index i is the one numbered i.
    ///
    /// # Errors
    ///
    /// The first fault of the states in their order, or out of memory.
    pub fn new(
        alloc: A,
        group_info: GroupInfo<A>,
        matcher: LookMatcher<W>,
        states: &[State],
    ) -> Result<Nfa<W, A>, BuildError>
        ensures made { IfOk result (λ n. n ≡ record { states = states.now; groups = group_info; matcher = matcher }) }
        ensures faultless { OnOk result (AreFaultless group_info states.now) }
        ensures refused { IfErr result (λ e. ((e ≡ OutOfMemory) × AreFaultless group_info states.now) ⊎ IsFirstFaultOfStates group_info states.now e) }
    {
        check(&group_info, states)?;
        let states = Vec::from_slice(alloc, states)?;
        Ok(Nfa {
            states,
            group_info,
            matcher,
        })
    }

    /// The states, each numbered by its index.
    #[inline]
    pub fn states(&self) -> &[State]
        ensures value { result.now ≡ self.now.states }
        ensures faultless { AreFaultless self.now.groups self.now.states }
    {
        &self.states
    }

    /// The groups to which the states' slots and patterns belong.
    #[inline]
    pub fn group_info(&self) -> &GroupInfo<A>
        ensures value { result.now ≡ self.now.groups }
        ensures faultless { AreFaultless self.now.groups self.now.states }
    {
        // No wrong body: nothing else of its type is at hand.
        &self.group_info
    }

    /// The matcher that tests the states' assertions.
    #[inline]
    pub fn matcher(&self) -> &LookMatcher<W>
        ensures { result.now ≡ self.now.matcher }
    {
        // No wrong body: nothing else of its type is at hand.
        &self.matcher
    }

    /// The classes of the bytes that no run of the automaton tells apart, gathered from the ranges and the assertions of its
    /// states. Takes no memory.
    ///
    /// Replacing bytes within their classes makes or unmakes no run. Each boundary between two classes is needed: from some state a
    /// step exists on exactly one of the haystacks of one byte on both sides of it. With a Unicode assertion both need word characters
    /// that below 128 are the word bytes, and the first covers replacements within ASCII. Without one the classes are the coarsest.
    pub fn classes(&self) -> ByteClasses
        ensures value { result ≡ class_map (sets.contains (boundaries_of_states self.now.states self.now.matcher.0)) }
        ensures bounded { LastClassIsGreatest result }
        ensures faultless { AreFaultless self.now.groups self.now.states }
        ensures keeps_runs { (has_unicode_assertion self.now.states ≡ true → AgreesWithAscii (W.word_chars self.now.matcher.1)) →
            KeepsRuns result self.now.states self.now.matcher.0 (W.word_chars self.now.matcher.1) }
        ensures needed { (has_unicode_assertion self.now.states ≡ true → AgreesWithAscii (W.word_chars self.now.matcher.1)) →
            IsEachBoundaryNeeded result self.now.states self.now.matcher.0 (W.word_chars self.now.matcher.1) }
        ensures no_spare_boundary { has_unicode_assertion self.now.states ≡ false →
            HasNoSpareBoundary result self.now.states self.now.matcher.0 (W.word_chars self.now.matcher.1) }
    {
        rsc_alphabet::laws::one_class_is_together();
        rsc_alphabet::laws::each_class_comes_once();
        rsc_alphabet::laws::boundaries_part_a_range();
        rsc_look::laws::boundaries_are_exact();
        let set = self.boundaries();
        set.byte_classes()
    }

    // The boundaries of the ranges and the assertions of the states.
    fn boundaries(&self) -> ByteClassSet
        ensures value { result ≡ boundaries_of_states self.now.states self.now.matcher.0 }
        ensures faultless { AreFaultless self.now.groups self.now.states }
    {
        let mut set = ByteClassSet::empty();
        for state in &self.states {
            add_state(&self.matcher, *state, &mut set);
        }
        set
    }

    /// The classes of [`Nfa::classes`] with more boundaries than the states need: those of a set of the caller's own, which for instance
    /// separate the bytes at which a table stops. Takes no memory.
    ///
    /// # Examples
    ///
    /// ```
    /// let mut stop = ByteClassSet::empty();
    /// stop.set_range(128, 255);
    /// let classes = nfa.classes_with(&stop);
    /// assert!(rt; classes.get(b'a') == classes.get(b'z') && classes.get(127) != classes.get(128));
    /// assert!(rt; nfa.classes().get(127) == nfa.classes().get(128));
    /// ```
    pub fn classes_with(&self, more: &ByteClassSet) -> ByteClasses
        ensures value { result ≡ class_map (sets.contains (sets.union (boundaries_of_states self.now.states self.now.matcher.0) more.now)) }
        ensures bounded { LastClassIsGreatest result }
        ensures parted { (b : ℕ) → b < 255 → sets.contains more.now b ≡ true → ¬ (slice_index result b ≡ slice_index result (b + 1)) }
        ensures finer { IsFiner result (class_map (sets.contains (boundaries_of_states self.now.states self.now.matcher.0))) }
        ensures keeps_runs { (has_unicode_assertion self.now.states ≡ true → AgreesWithAscii (W.word_chars self.now.matcher.1)) →
            KeepsRuns result self.now.states self.now.matcher.0 (W.word_chars self.now.matcher.1) }
    {
        rsc_alphabet::laws::one_class_is_together();
        rsc_alphabet::laws::boundaries_part_a_range();
        rsc_look::laws::boundaries_are_exact();
        let mut joined = self.boundaries();
        joined.union(more);
        joined.byte_classes()
    }

    /// The assertions of the states.
    ///
    /// # Examples
    ///
    /// ```
    /// assert!(rt; nfa.looks().is_empty());
    /// ```
    pub fn looks(&self) -> LookSet
        ensures members { (look : Look) → sets.contains result look ≡ list_any (asserts look) self.now.states }
        ensures unicode { has_one_of result unicode_word_assertions ≡ has_unicode_assertion self.now.states }
    {
        let mut looks = LookSet::empty();
        for state in self.states.iter() {
            add_look(*state, &mut looks);
        }
        looks
    }

    // Whether a state is the automaton's, and a position within the span.
    fn is_within(&self, input: &Input<'_>, place: (StateID, usize)) -> bool
        ensures { IsTrue result ↔ IsPlaceWithin self.now.states input.now.span.start input.now.span.end place }
    {
        place.0.as_usize() < self.states.len() && input.start() <= place.1 && place.1 <= input.end()
    }

    // Whether a step leads from one to the other.
    fn is_step(&self, input: &Input<'_>, from: (StateID, usize), to: (StateID, usize)) -> bool
        requires { from.1 ≤ length input.now.haystack }
        ensures { IsTrue result ↔ IsStep self.now.states self.now.matcher.0 (W.word_chars self.now.matcher.1) input.now.haystack input.now.span.end from to }
    {
        let s = from.0.as_usize();
        if s >= self.states.len() {
            return false;
        }
        let i = from.1;
        match self.states[s] {
            State::ByteRange { start, end, next } => {
                i < input.end()
                    && to.0 == next
                    && to.1 == i + 1
                    && start <= input.haystack()[i]
                    && input.haystack()[i] <= end
            }
            State::Assert { look, next } => {
                to.0 == next && to.1 == i && self.matcher.matches(look, input.haystack(), i)
            }
            State::Fork { a, b } => (to.0 == a || to.0 == b) && to.1 == i,
            State::Capture { next, .. } => to.0 == next && to.1 == i,
            State::Accept { .. } => false,
        }
    }

    /// Whether a list of states and positions is a run of the automaton on an input. The empty list is one.
    pub fn check_run(&self, input: &Input<'_>, run: &[(StateID, usize)]) -> bool
        ensures { IsTrue result ↔ IsRun self.now.states self.now.matcher.0 (W.word_chars self.now.matcher.1)
            input.now.haystack input.now.span.start input.now.span.end run.now }
    {
        // For the prover: the input's span ends within its haystack.
        let _end = input.end();
        for (k, place) in run.iter().enumerate() {
            if !self.is_within(input, *place) {
                return false;
            }
            if k > 0 && !self.is_step(input, run[k - 1], *place) {
                return false;
            }
        }
        true
    }

    // The slot in which a state records, if it is there and records.
    fn slot_recorded(&self, state: StateID) -> Option<usize>
        ensures { result ≡ slot_recorded (slice_get self.now.states state) }
    {
        match self.states.get(state.as_usize()) {
            Some(State::Capture { slot, .. }) => Some(slot.as_usize()),
            Some(_) => None,
            None => None,
        }
    }

    /// Writes into each slot of captures what a run records there, and sets no other slot. The pattern stays.
    ///
    /// Needs positions below `usize::MAX`, which no slot holds; those of a run on an input are.
    ///
    /// # Examples
    ///
    /// ```
    /// let info = GroupInfo::new(rt.alloc(), &[&[None]])?;
    /// let mut captures = Captures::all(rt.alloc(), info.clone()?)?;
    /// let states = [
    ///     State::Capture {
    ///         slot: SmallIndex::ZERO,
    ///         next: StateID::must(1),
    ///     },
    ///     State::Capture {
    ///         slot: SmallIndex::must(1),
    ///         next: StateID::must(2),
    ///     },
    ///     State::Accept {
    ///         pattern: PatternID::ZERO,
    ///     },
    /// ];
    /// let nfa = Nfa::new(rt.alloc(), info, LookMatcher::new(AsciiWord), &states)?;
    /// let run = [
    ///     (StateID::ZERO, 3),
    ///     (StateID::must(1), 3),
    ///     (StateID::must(2), 3),
    /// ];
    /// nfa.record(&run, &mut captures);
    /// captures.set_pattern(Some(PatternID::ZERO));
    /// assert!(rt; captures.get_group(0) == Some(Span { start: 3, end: 3 }));
    /// // The empty run records nothing.
    /// nfa.record(&[], &mut captures);
    /// assert!(rt; captures.get_group(0) == None && captures.is_match());
    /// ```
    pub fn record(&self, run: &[(StateID, usize)], captures: &mut Captures<A>)
        requires { All (λ place. place.1 < usize.MAX) run.now }
        ensures kept_groups { captures.new.groups ≡ captures.old.groups }
        ensures kept_pattern { captures.new.pattern ≡ captures.old.pattern }
        ensures kept_slots { length captures.new.offsets ≡ length captures.old.offsets }
        ensures value { (slot : ℕ) → slot < length captures.old.offsets →
            slice_index_or captures.new.offsets slot None ≡ recorded self.now.states run.now slot }
    {
        let pattern = captures.pattern();
        captures.clear();
        captures.set_pattern(pattern);
        for k in 1..run.len() {
            let left = run[k - 1];
            put(captures, self.slot_recorded(left.0), left.1);
        }
    }
}
