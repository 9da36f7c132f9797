//! What the backward pass makes of a position's states: from which states they, or a match, are led to with no byte, and over the byte before.
ghost use Rattle.std.specs.Prelude.{◌≡◌, ◌⊎◌, ◌+◌, ◌-◌, ◌<◌, ◌≤◌, ℕ, List, true, false, not, IfOk, IfErr, length, slice_index_or, count_by};
ghost use Rattle.rsc_primitives.specs.Indices.{max_index};
ghost use Rattle.rsc_engine.specs.declared.error.Error.TheVariants.{OutOfMemory};
ghost use Rattle.rsc_engine.specs.Searches.{search_in};
ghost use Rattle.rsc_engine.specs.Runs.{accepts};
ghost use Rattle.rsc_engine.specs.RowsLayout.{IsMarked, machine, Gathers, AreStates};
ghost use Rattle.rsc_engine.specs.BackwardLayout.{Lists, AreLedBack, IsShutAt, IsShut, IsClosedBack, LeadsToMarked, IsSource, IsRetreated};

use super::near::moved;
use super::ordered::{Action, action_of};
use crate::{Error, Program};
use rsc_look::WordClass;
use rsc_primitives::StateID;
use rsc_search::Input;
use std::alloc::Global;

/// Of the states from which steps with no byte lead to those of a list, or to a match: whether the start state is one, and from which states the byte before
/// leads to one.
pub(crate) fn retreat<W: WordClass>(
    alloc: Global,
    program: &Program<W>,
    input: &Input<'_>,
    at: usize,
    list: &[StateID],
) -> Result<(bool, Vec<StateID>), Error>
    requires numbered { length program.now.automaton.states ≤ max_index }
    requires start { input.now.span.start ≤ at }
    requires at { at ≤ input.now.span.end }
    requires list { AreStates (length program.now.automaton.states) list.now }
    ensures retreated { IfOk result (λ r. IsRetreated (search_in W.word_chars program.now input.now) at list.now r.0 r.1.items) }
    ensures states { IfOk result (λ r. AreStates (length program.now.automaton.states) r.1.items) }
    ensures refused { IfErr result (λ e. e ≡ OutOfMemory) }
{
    let mut marks = marked(alloc, program.state_len(), list)?;
    close(program, input, at, &mut marks);
    let begins = is_marked(&marks, program.start());
    let next = sources(alloc, program, input, at, &marks)?;
    Ok((begins, next))
}

// Marks for the states of a list.
fn marked(alloc: Global, count: usize, list: &[StateID]) -> Result<Vec<bool>, Error>
    requires { AreStates count list.now }
    ensures len { IfOk result (λ marks. length marks.items ≡ count) }
    ensures gathers { IfOk result (λ marks. Gathers marks.items list.now) }
    ensures refused { IfErr result (λ e. e ≡ OutOfMemory) }
{
    let mut marks = vec![in alloc; false; count]?;
    'list: for sid in list {
        marks[sid.as_usize()] = true;
    }
    Ok(marks)
}

/// Whether the state is marked.
pub(crate) fn is_marked(marks: &Vec<bool>, sid: StateID) -> bool
    ensures { result ≡ slice_index_or marks.now.items sid false }
{
    let index = sid.as_usize();
    index < marks.len() && marks[index]
}

// Marks the accepting states, and those from which steps with no byte lead to marked ones.
fn close<W: WordClass>(program: &Program<W>, input: &Input<'_>, at: usize, marks: &mut Vec<bool>)
    requires numbered { length program.now.automaton.states ≤ max_index }
    requires start { input.now.span.start ≤ at }
    requires end { at ≤ input.now.span.end }
    requires len { length marks.old.items ≡ length program.now.automaton.states }
    ensures len { length marks.new.items ≡ length program.now.automaton.states }
    ensures closed { (list : List ℕ) → Gathers marks.old.items list
        → IsClosedBack (search_in W.word_chars program.now input.now) at list marks.new.items }
{
    'passes: loop {
        if !grow(program, input, at, marks) {
            return;
        }
    }
}

// Marks the accepting states, and those from which one step with no byte leads to a marked one, in one pass over all of them. Whether it marked any.
fn grow<W: WordClass>(
    program: &Program<W>,
    input: &Input<'_>,
    at: usize,
    marks: &mut Vec<bool>,
) -> bool
    requires numbered { length program.now.automaton.states ≤ max_index }
    requires start { input.now.span.start ≤ at }
    requires end { at ≤ input.now.span.end }
    requires len { length marks.old.items ≡ length program.now.automaton.states }
    ensures len { length marks.new.items ≡ length program.now.automaton.states }
    ensures led { (list : List ℕ) → AreLedBack (search_in W.word_chars program.now input.now) at list marks.old.items
        → AreLedBack (search_in W.word_chars program.now input.now) at list marks.new.items }
    ensures kept { (s : ℕ) → IsMarked marks.old.items s → IsMarked marks.new.items s }
    ensures shut { result ≡ false → IsShut (search_in W.word_chars program.now input.now) at marks.new.items }
    ensures less { result ≡ true → count_by not marks.new.items + 1 ≤ count_by not marks.old.items }
{
    let mut grew = false;
    // The builder's states lead to ones before them.
    'states: for index in 0..program.state_len() {
        if is_due(program, input, at, marks, StateID::must(index)) {
            marks[index] = true;
            grew = true;
        }
    }
    grew
}

// Whether the state isn't marked, and accepts, or a step with no byte leads from it to a marked one.
fn is_due<W: WordClass>(
    program: &Program<W>,
    input: &Input<'_>,
    at: usize,
    marks: &Vec<bool>,
    sid: StateID,
) -> bool
    requires at { at ≤ input.now.span.end }
    requires sid { sid < length program.now.automaton.states }
    ensures fresh { result ≡ true → slice_index_or marks.now.items sid false ≡ false }
    ensures yes { result ≡ true → (accepts (search_in W.word_chars program.now input.now) (sid, at) ≡ true)
        ⊎ LeadsToMarked (search_in W.word_chars program.now input.now) at marks.now.items sid }
    ensures no { result ≡ false → IsShutAt (search_in W.word_chars program.now input.now) at marks.now.items sid }
{
    if is_marked(marks, sid) {
        return false;
    }
    match action_of(program, input, at, sid) {
        Action::One(to) => is_marked(marks, to),
        Action::Two(a, b) => is_marked(marks, a) || is_marked(marks, b),
        Action::Match(_) => true,
        Action::Stuck | Action::OverByte(_) => false,
    }
}

// The states from which the byte before a position leads to marked ones.
fn sources<W: WordClass>(
    alloc: Global,
    program: &Program<W>,
    input: &Input<'_>,
    at: usize,
    marks: &Vec<bool>,
) -> Result<Vec<StateID>, Error>
    requires numbered { length program.now.automaton.states ≤ max_index }
    ensures sources { IfOk result (λ list. Lists
        (λ s. (0 < at) × IsSource (machine W.word_chars program.now) input.now.haystack (at - 1) marks.now.items s) list.items) }
    ensures states { IfOk result (λ list. AreStates (length program.now.automaton.states) list.items) }
    ensures refused { IfErr result (λ e. e ≡ OutOfMemory) }
{
    let mut list = Vec::new(alloc);
    if at == 0 {
        return Ok(list);
    }
    'states: for index in 0..program.state_len() {
        let sid = StateID::must(index);
        if is_source(program, input.haystack(), at - 1, marks, sid) {
            list.push(sid)?;
        }
    }
    Ok(list)
}

// Whether the byte at the position leads from the state to a marked one.
fn is_source<W: WordClass>(
    program: &Program<W>,
    haystack: &[u8],
    at: usize,
    marks: &Vec<bool>,
    sid: StateID,
) -> bool
    requires sid { sid < length program.now.automaton.states }
    ensures yes { result ≡ true → IsSource (machine W.word_chars program.now) haystack.now at marks.now.items sid }
    ensures no { result ≡ false → ¬ (IsSource (machine W.word_chars program.now) haystack.now at marks.now.items sid) }
{
    match moved(program, haystack, at, sid) {
        Some(to) => is_marked(marks, to),
        None => false,
    }
}
