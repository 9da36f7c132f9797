//! Quiet states: from one of them a match records nothing but its end, so the pass along the log needn't go on.
//!
//! A state is loud if it accepts, if it records anything but the end of a match to which it leads at once, or if it leads to a loud state.
ghost use Rattle.std.specs.Prelude.{◌≡◌, ◌+◌, ◌*◌, ◌≤◌, ◌<◌, ℕ, Some, true, false, not, IfOk, IfErr, MatchOption, length, slice_get, slice_index_or, count_by};
ghost use Rattle.rsc_primitives.specs.Indices.{max_index};
ghost use Rattle.rsc_nfa.specs.declared.state.State.TheVariants.{Accept};
ghost use Rattle.rsc_engine.specs.declared.error.Error.TheVariants.{OutOfMemory};
ghost use Rattle.rsc_engine.specs.QuietLayout.{IsQuiet, LeadsQuietly, AreQuiet};

use super::retreat::is_marked;
use crate::{Error, Program};
use rsc_look::WordClass;
use rsc_nfa::State;
use rsc_primitives::{SmallIndex, StateID};
use std::alloc::Global;

/// For each state, whether it is loud.
pub(crate) fn loud_states<W: WordClass>(
    alloc: Global,
    program: &Program<W>,
) -> Result<Vec<bool>, Error>
    requires numbered { length program.now.automaton.states ≤ max_index }
    ensures quiet { IfOk result (λ loud. AreQuiet program.now.automaton.states loud.items) }
    ensures refused { IfErr result (λ e. e ≡ OutOfMemory) }
{
    let mut loud = vec![in alloc; false; program.state_len()]?;
    'passes: loop {
        if !spread(program, &mut loud) {
            return Ok(loud);
        }
    }
}

// Marks the states that are loud by what is marked so far, in one pass over all of them. Whether it marked any.
fn spread<W: WordClass>(program: &Program<W>, loud: &mut Vec<bool>) -> bool
    requires numbered { length program.now.automaton.states ≤ max_index }
    requires len { length loud.old.items ≡ length program.now.automaton.states }
    ensures len { length loud.new.items ≡ length program.now.automaton.states }
    ensures quiet { result ≡ false → AreQuiet program.now.automaton.states loud.new.items }
    ensures less { result ≡ true → count_by not loud.new.items + 1 ≤ count_by not loud.old.items }
{
    let mut spread = false;
    // The builder's states lead to ones before them.
    'states: for index in 0..program.state_len() {
        if becomes_loud(program, loud, StateID::must(index)) {
            loud[index] = true;
            spread = true;
        }
    }
    spread
}

// Whether the state isn't marked, and is loud by what is.
fn becomes_loud<W: WordClass>(program: &Program<W>, loud: &Vec<bool>, sid: StateID) -> bool
    requires sid { sid < length program.now.automaton.states }
    requires len { length loud.now.items ≡ length program.now.automaton.states }
    ensures fresh { result ≡ true → slice_index_or loud.now.items sid false ≡ false }
    ensures no { result ≡ false → IsQuiet loud.now.items sid
        → MatchOption (slice_get program.now.automaton.states sid) ⊥ (LeadsQuietly program.now.automaton.states loud.now.items) }
{
    if is_marked(loud, sid) {
        return false;
    }
    match program.state(sid) {
        State::ByteRange { next, .. } => is_marked(loud, next),
        State::Assert { next, .. } => is_marked(loud, next),
        State::Fork { a, b } => is_marked(loud, a) || is_marked(loud, b),
        State::Capture { slot, next } => !closes(program, slot, next),
        State::Accept { .. } => true,
    }
}

// Whether the slot is that of a match's end, and the state accepts the match.
fn closes<W: WordClass>(program: &Program<W>, slot: SmallIndex, next: StateID) -> bool
    requires { next < length program.now.automaton.states }
    ensures { result ≡ true → (p : ℕ) × (slot ≡ 2 * p + 1) × (slice_get program.now.automaton.states next ≡ Some (Accept p)) }
{
    match program.state(next) {
        State::Accept { pattern } => slot.as_usize() == 2 * pattern.as_usize() + 1,
        State::ByteRange { .. }
        | State::Assert { .. }
        | State::Fork { .. }
        | State::Capture { .. } => false,
    }
}

/// Whether the state is quiet.
pub(crate) fn is_quiet(loud: &[bool], sid: StateID) -> bool
    ensures { result ≡ true → IsQuiet loud.now sid }
{
    let index = sid.as_usize();
    if index < loud.len() {
        !loud[index]
    } else {
        false
    }
}
