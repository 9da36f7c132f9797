//! What the bytes on both sides of a position make of an ordered list of states.
ghost use Rattle.std.specs.Prelude.{◌≡◌, ◌+◌, ◌*◌, ◌<◌, ◌≤◌, ◌⊎◌, ℕ, true, false, not, IfOk, IfErr, IfSome, OnOk, length, count_by, reverse, Some, None};
ghost use Rattle.rsc_search.specs.Modes.{only_pattern};
ghost use Rattle.rsc_engine.specs.Runs.{is_allowed};
ghost use Rattle.rsc_engine.specs.Searches.{search_in};
ghost use Rattle.std.specs.List.{Contains};
ghost use Rattle.rsc_engine.specs.RowsLayout.{Gathers, AddsOne, AreStates};
ghost use Rattle.rsc_engine.specs.ForwardLayout.{IsAdvanced};
ghost use Rattle.rsc_engine.specs.declared.error.Error.TheVariants.{OutOfMemory};
ghost use Rattle.rsc_engine.specs.OrderedLayout.{IsActionOf, IsThere, IsScanned};

use crate::{Error, Program};
use rsc_look::WordClass;
use rsc_nfa::State;
use rsc_primitives::{PatternID, StateID};
use rsc_search::Input;
use std::alloc::Global;

/// What a state does at a position.
#[derive(Clone, Copy)]
pub(crate) enum Action {
    /// No step leads on, and it's no match.
    Stuck,
    /// One step leads on, with no byte.
    One(StateID),
    /// One step leads on, over the byte.
    OverByte(StateID),
    /// Two steps lead on, with no byte; the first is preferred.
    Two(StateID, StateID),
    /// A match.
    Match(PatternID),
}

/// What the program's state does at a position of the input.
#[inline(always)]
pub(crate) fn action_of<W: WordClass>(
    program: &Program<W>,
    input: &Input<'_>,
    at: usize,
    sid: StateID,
) -> Action
    requires at { at ≤ input.now.span.end }
    requires sid { sid < length program.now.automaton.states }
    ensures action { IsActionOf (search_in W.word_chars program.now input.now) at sid result }
    ensures there { IsThere (length program.now.automaton.states) result }
{
    // For the prover: positions up to the input's end are in the haystack.
    let end = input.end();
    let haystack = input.haystack();
    match program.state(sid) {
        State::ByteRange {
            start,
            end: last,
            next,
        } => {
            if at < end && start <= haystack[at] && haystack[at] <= last {
                Action::OverByte(next)
            } else {
                Action::Stuck
            }
        }
        State::Assert { look, next } => {
            if program.nfa().matcher().matches(look, haystack, at) {
                Action::One(next)
            } else {
                Action::Stuck
            }
        }
        State::Fork { a, b } => Action::Two(a, b),
        State::Capture { next, .. } => Action::One(next),
        State::Accept { pattern } => {
            if is_allowed(input, pattern) {
                Action::Match(pattern)
            } else {
                Action::Stuck
            }
        }
    }
}

// Whether the pattern may match.
fn is_allowed(input: &Input<'_>, pattern: PatternID) -> bool
    ensures { result ≡ is_allowed (only_pattern input.now.anchored) pattern }
{
    match input.get_anchored().pattern() {
        None => true,
        Some(wanted) => wanted == pattern,
    }
}

/// The pattern of a match that ends at the position, if one does, and the ordered list of the states after the byte there.
pub(crate) fn scan<W: WordClass>(
    alloc: Global,
    program: &Program<W>,
    input: &Input<'_>,
    at: usize,
    list: &[StateID],
) -> Result<(Option<PatternID>, Vec<StateID>), Error>
    requires start { input.now.span.start ≤ at }
    requires at { at ≤ input.now.span.end }
    requires list { AreStates (length program.now.automaton.states) list.now }
    ensures scanned { IfOk result (λ r. IsScanned (search_in W.word_chars program.now input.now) at list.now r.0 r.1.items) }
    ensures states { IfOk result (λ r. AreStates (length program.now.automaton.states) r.1.items) }
    ensures refused { IfErr result (λ e. e ≡ OutOfMemory) }
{
    let count = program.state_len();
    let mut seen = vec![in alloc; false; count]?;
    let mut taken = vec![in alloc; false; count]?;
    let mut stack = reversed(alloc, list)?;
    let mut next = Vec::new(alloc);
    'stack: while let Some(sid) = stack.pop() {
        if seen[sid.as_usize()] {
            continue 'stack;
        }
        seen[sid.as_usize()] = true;
        match action_of(program, input, at, sid) {
            Action::Stuck => {}
            Action::One(to) => stack.push(to)?,
            Action::OverByte(to) => add(to, &mut taken, &mut next)?,
            Action::Two(a, b) => {
                stack.push(b)?;
                stack.push(a)?;
            }
            Action::Match(pattern) => return Ok((Some(pattern), next)),
        }
    }
    Ok((None, next))
}

// The list from its end on.
fn reversed(alloc: Global, list: &[StateID]) -> Result<Vec<StateID>, Error>
    ensures reversed { IfOk result (λ stack. stack.items ≡ reverse list.now) }
    ensures refused { IfErr result (λ e. e ≡ OutOfMemory) }
{
    Ok(list.iter().rev().copied().collect(alloc)?)
}

// Adds a state to a list, unless it is there.
fn add(sid: StateID, seen: &mut Vec<bool>, list: &mut Vec<StateID>) -> Result<(), Error>
    requires sid { sid < length seen.old.items }
    requires gathers { Gathers seen.old.items list.old.items }
    ensures gathers { OnOk result (Gathers seen.new.items list.new.items) }
    ensures len { length seen.new.items ≡ length seen.old.items }
    ensures adds { OnOk result (AddsOne list.old.items sid list.new.items) }
    ensures refused { IfErr result (λ e. e ≡ OutOfMemory) }
{
    if !seen[sid.as_usize()] {
        list.push(sid)?;
        seen[sid.as_usize()] = true;
    }
    Ok(())
}

/// The pattern of a match that ends at the position, whether matches may begin later, and the ordered list of the states after the byte there: with the
/// start state last, as long as they may.
pub(crate) fn advance<W: WordClass>(
    alloc: Global,
    program: &Program<W>,
    input: &Input<'_>,
    at: usize,
    begins: bool,
    list: &[StateID],
) -> Result<(Option<PatternID>, bool, Vec<StateID>), Error>
    requires start { input.now.span.start ≤ at }
    requires at { at ≤ input.now.span.end }
    requires list { AreStates (length program.now.automaton.states) list.now }
    ensures advanced { IfOk result (λ r. IsAdvanced (search_in W.word_chars program.now input.now) at begins list.now r.0 r.1 r.2.items) }
    ensures states { IfOk result (λ r. AreStates (length program.now.automaton.states) r.2.items) }
    ensures refused { IfErr result (λ e. e ≡ OutOfMemory) }
{
    let (found, next) = scan(alloc, program, input, at, list)?;
    if found.is_some() || !begins {
        return Ok((found, false, next));
    }
    Ok((None, true, with_start_state(program, next)?))
}

// The list with the start state last, unless it is there.
fn with_start_state<W: WordClass>(
    program: &Program<W>,
    list: Vec<StateID>,
) -> Result<Vec<StateID>, Error>
    requires { AreStates (length program.now.automaton.states) list.items }
    ensures adds { IfOk result (λ next. AddsOne list.items program.now.start next.items) }
    ensures states { IfOk result (λ next. AreStates (length program.now.automaton.states) next.items) }
    ensures refused { IfErr result (λ e. e ≡ OutOfMemory) }
{
    let mut next = list;
    let start = program.start();
    if has(next.as_slice(), start) {
        return Ok(next);
    }
    next.push(start)?;
    Ok(next)
}

// Whether the list has the state.
fn has(list: &[StateID], sid: StateID) -> bool
    ensures { result ≡ true → Contains list.now sid }
{
    for one in list {
        if *one == sid {
            return true;
        }
    }
    false
}
