//! The pass along the log of the backward pass: it writes what the preferred run from where a match begins records.
//!
//! At each position it goes by steps with no byte, at a fork first the preferred way, until it comes to a match, or to a state of the position's row: from
//! there a match is reached over the byte. So it takes back no step over a byte. It goes on as far as anything is recorded but the match's end, if that is
//! known.
ghost use Rattle.std.specs.Prelude.{◌≡◌, ◌+◌, ◌-◌, ◌<◌, ◌≤◌, ◌^◌, ◌++◌, ◌∷◌, [], ℕ, List, Some, None, IfOk, IfErr, IfSome, IfNone, OnOk, OnErr, true, false, length, take, slice_get, slice_index_or, if◌then◌else◌};
ghost use Rattle.std.specs.List.{Contains};
ghost use Rattle.rsc_primitives.specs.Indices.{max_index};
ghost use Rattle.rsc_nfa.specs.declared.state.State.TheVariants.{ByteRange};
ghost use Rattle.rsc_nfa.specs.Steps.{is_capture_of, or_earlier};
ghost use Rattle.rsc_engine.specs.declared.error.Error.TheVariants.{OutOfMemory};
ghost use Rattle.rsc_engine.specs.declared.dfa.pass_table.PassRow.{PassRow};
ghost use Rattle.rsc_engine.specs.Searches.{search_in};
ghost use Rattle.rsc_engine.specs.RowsLayout.{machine, IsPlan, AreStates};
ghost use Rattle.rsc_engine.specs.GroupsLayout.{AreEmpty};
ghost use Rattle.rsc_engine.specs.Preferred.{IsFirstMatch, IsCleared, IsInSpan};
ghost use Rattle.rsc_engine.specs.ArrivalsLayout.{Arrives, ArrivesOver};
ghost use Rattle.rsc_engine.specs.OrderedLayout.{IsThere, IsEndOf};
ghost use Rattle.rsc_engine.specs.PassTableLayout.{IsPassTable};
ghost use Rattle.rsc_engine.specs.BackwardLayout.{Lists};
ghost use Rattle.rsc_engine.specs.LogLayout.{IsLogged};
ghost use Rattle.rsc_engine.specs.QuietLayout.{AreQuiet};
ghost use Rattle.rsc_engine.specs.AlongLayout.{GoesTo, IsRecorded, AreRecordsTo, IsLed, IsActionAlong, LeadsAlong, AreBelow, all_at};

use super::backward::{first_start, part_of};
use super::ordered::{Action, action_of};
use super::pass_table::PassTable;
use super::plan::Plan;
use super::quiet::is_quiet;
use super::whole::{match_whole, records_only_ends, set_slot};
use crate::{Error, Program};
use rsc_captures::Captures;
use rsc_look::WordClass;
use rsc_nfa::State;
use rsc_primitives::{NonMaxUsize, PatternID, StateID};
use rsc_search::{Input, Match, Span};
use std::alloc::Global;

/// The leftmost-first match, which is of a pattern and ends at a position. Its groups are in the captures afterwards, in which no slot is set before.
pub(crate) fn match_along<W: WordClass>(
    plan: &Plan<'_, W>,
    table: &mut PassTable,
    walk: &mut Walk,
    log: &mut Vec<u32>,
    input: &Input<'_>,
    pattern: PatternID,
    end: usize,
    loud: &[bool],
    captures: &mut Captures,
) -> Result<Match, Error>
    requires plan { IsPlan (machine W.word_chars plan.now.program.now) plan.now.classes plan.now.width plan.now.unicode }
    requires numbered { length plan.now.program.now.automaton.states ≤ max_index }
    requires exact { IsPassTable (machine W.word_chars plan.now.program.now) plan.now.classes plan.now.width plan.now.most_rows
        table.old.rows.items table.old.leads.items table.old.beyond.items }
    requires room { plan.now.most_rows ≡ usize.MAX }
    requires end { IsEndOf (search_in W.word_chars plan.now.program.now input.now) pattern end }
    requires quiet { AreQuiet plan.now.program.now.automaton.states loud.now }
    requires cleared { IsCleared captures.old captures.old }
    ensures exact { IsPassTable (machine W.word_chars plan.now.program.now) plan.now.classes plan.now.width plan.now.most_rows
        table.new.rows.items table.new.leads.items table.new.beyond.items }
    ensures found { IfOk result (IsFirstMatch (search_in W.word_chars plan.now.program.now input.now) captures.new) }
    ensures within { IfOk result (IsInSpan input.now) }
    ensures kept_groups { captures.new.groups ≡ captures.old.groups }
    ensures kept_slots { length captures.new.offsets ≡ length captures.old.offsets }
    ensures cleared_by_error { OnErr result (IsCleared captures.old captures.new) }
    ensures refused { IfErr result (λ e. e ≡ OutOfMemory) }
{
    if records_only_ends(plan.program, captures) {
        return match_whole(plan, table, log, input, pattern, end, captures);
    }
    let start = first_start(plan, table, input, pattern, end, log)?;
    let part = part_of(input, end);
    let recorded = record_along(
        walk,
        plan.program,
        &part,
        table,
        log.as_slice(),
        start,
        Some((pattern, end)),
        loud,
        captures.slots_mut(),
    );
    match recorded {
        Ok(_) => {
            captures.set_pattern(Some(pattern));
            Ok(Match::new(pattern, Span { start, end }))
        }
        Err(error) => {
            captures.clear();
            Err(error)
        }
    }
}

/// Goes along from where a match begins, and writes what the preferred run from there records into slots of which none is set: its pattern, and where it
/// ends. These may be known before.
pub(crate) fn record_along<W: WordClass>(
    walk: &mut Walk,
    program: &Program<W>,
    input: &Input<'_>,
    table: &PassTable,
    log: &[u32],
    start: usize,
    known: Option<(PatternID, usize)>,
    loud: &[bool],
    slots: &mut [Option<NonMaxUsize>],
) -> Result<(PatternID, usize), Error>
    requires begins { Arrives (search_in W.word_chars program.now input.now) program.now.start start }
    requires log { IsLogged (search_in W.word_chars program.now input.now) start table.now.rows.items log.now }
    requires known { IfSome known (λ k. GoesTo (search_in W.word_chars program.now input.now) start k.0 k.1) }
    requires quiet { AreQuiet program.now.automaton.states loud.now }
    requires empty { AreEmpty slots.old }
    ensures recorded { IfOk result (λ r. IsRecorded (search_in W.word_chars program.now input.now) start r.0 r.1 slots.new) }
    ensures refused { IfErr result (λ e. e ≡ OutOfMemory) }
{
    // For the prover: positions up to the input's end, plus one, fit.
    let end = input.end();
    walk.make_room(program.state_len())?;
    let mut at = start;
    let mut sid = program.start();
    'positions: loop {
        let list = table.list_at(log, end - at);
        let (next, found) = walk.go_through(program, input, at, list, sid, slots)?;
        if let Some(pattern) = found {
            return Ok((pattern, at));
        }
        if is_quiet(loud, next) {
            if let Some(last) = known {
                set_slot(slots, 2 * last.0.as_usize() + 1, last.1);
                return Ok(last);
            }
        }
        sid = next;
        at += 1;
    }
}

impl PassTable {
    // The states of the row that is at the index of a log.
    fn list_at(&self, log: &[u32], index: usize) -> &[StateID]
        requires index { index < length log.now }
        requires row { slice_index_or log.now index 0 < length self.now.rows.items }
        ensures { (row : PassRow) → slice_get self.now.rows.items (slice_index_or log.now index 0) ≡ Some row → result.now ≡ row.list.items }
    {
        self.rows[log[index] as usize].list.as_slice()
    }
}

/// What the pass has in memory.
#[derive(Drop)]
pub(crate) struct Walk {
    alloc: Global,
    // For each state the stamp of the position at which it was seen last, or 0. Each position that is gone through has a stamp of its own.
    seen: Vec<usize>,
    stamp: usize,
    // Where to go on at a position, the preferred way last: a state, and how many states the trail has before it.
    stack: Vec<(StateID, usize)>,
    // The states gone through at a position.
    trail: Vec<StateID>,
    ghost below: { AreBelow (stamp + 1) seen.items },
}

impl Walk {
    /// Memory for no states.
    pub(crate) fn new(alloc: Global) -> Walk {
        Walk {
            alloc,
            seen: Vec::new(alloc),
            stamp: 0,
            stack: Vec::new(alloc),
            trail: Vec::new(alloc),
        }
    }

    // Memory for that many states.
    fn make_room(&mut self, count: usize) -> Result<(), Error>
        ensures len { OnOk result (length self.new.seen.items ≡ count) }
        ensures refused { IfErr result (λ e. e ≡ OutOfMemory) }
    {
        if self.seen.len() == count {
            return Ok(());
        }
        self.renew(count)
    }

    // Memory for that many states, none of which was seen.
    fn renew(&mut self, count: usize) -> Result<(), Error>
        ensures len { OnOk result (length self.new.seen.items ≡ count) }
        ensures stamp { OnOk result (self.new.stamp ≡ 0) }
        ensures refused { IfErr result (λ e. e ≡ OutOfMemory) }
    {
        self.seen = vec![in self.alloc; 0usize; count]?;
        self.stamp = 0;
        Ok(())
    }

    // Takes a stamp with which no state was seen.
    fn take_stamp(&mut self) -> Result<(), Error>
        ensures len { OnOk result (length self.new.seen.items ≡ length self.old.seen.items) }
        ensures unseen { OnOk result (AreBelow self.new.stamp self.new.seen.items) }
        ensures refused { IfErr result (λ e. e ≡ OutOfMemory) }
    {
        if self.stamp == usize::MAX {
            let count = self.seen.len();
            self.renew(count)?;
        }
        self.stamp += 1;
        Ok(())
    }

    // Goes through a position from a state on, and writes what is recorded there: the state after the byte, or the pattern of a match.
    fn go_through<W: WordClass>(
        &mut self,
        program: &Program<W>,
        input: &Input<'_>,
        at: usize,
        list: &[StateID],
        sid: StateID,
        slots: &mut [Option<NonMaxUsize>],
    ) -> Result<(StateID, Option<PatternID>), Error>
        requires start { input.now.span.start ≤ at }
        requires end { at ≤ input.now.span.end }
        requires sid { sid < length program.now.automaton.states }
        requires len { length self.old.seen.items ≡ length program.now.automaton.states }
        ensures len { OnOk result (length self.new.seen.items ≡ length program.now.automaton.states) }
        ensures there { IfOk result (λ r. r.0 < length program.now.automaton.states) }
        ensures on { IfOk result (λ r. (from : ℕ)
            → Lists (λ s. ArrivesOver (search_in W.word_chars program.now input.now) s at) list.now
            → IsLed (search_in W.word_chars program.now input.now) from sid at slots.old
            → LeadsAlong (search_in W.word_chars program.now input.now) from at r.0 r.1 slots.new) }
        ensures refused { IfErr result (λ e. e ≡ OutOfMemory) }
    {
        // For the prover: positions up to the input's end, plus one, fit.
        let _end = input.end();
        self.take_stamp()?;
        self.stack.clear();
        self.trail.clear();
        let mut here = sid;
        'states: loop {
            if self.seen[here.as_usize()] == self.stamp {
                match self.back() {
                    Some(next) => here = next,
                    // It never comes here.
                    None => return Ok((here, None)),
                }
                continue 'states;
            }
            self.seen[here.as_usize()] = self.stamp;
            match action_along(program, input, at, list, here) {
                Action::Stuck => match self.back() {
                    Some(next) => here = next,
                    // Nor here.
                    None => return Ok((here, None)),
                },
                Action::One(to) => {
                    self.trail.push(here)?;
                    here = to;
                }
                Action::Two(a, b) => {
                    self.trail.push(here)?;
                    self.stack.push((b, self.trail.len()))?;
                    here = a;
                }
                Action::OverByte(to) => {
                    record(program, at, self.trail.as_slice(), slots);
                    return Ok((to, None));
                }
                Action::Match(pattern) => {
                    record(program, at, self.trail.as_slice(), slots);
                    return Ok((here, Some(pattern)));
                }
            }
        }
    }

    // Goes back to the last way that is left, if there is one: the state there.
    fn back(&mut self) -> Option<StateID>
        ensures some { IfSome result (λ s. (d : ℕ) × (self.old.stack.items ≡ self.new.stack.items ++ (s, d) ∷ [])
            × (self.new.trail.items ≡ take d self.old.trail.items)) }
        ensures none { IfNone result (self.old.stack.items ≡ []) }
        ensures seen { self.new.seen ≡ self.old.seen }
        ensures stamp { self.new.stamp ≡ self.old.stamp }
    {
        let top = self.stack.pop()?;
        self.trail.truncate(top.1);
        Some(top.0)
    }
}

// What a state does at a position, as far as a match is reached from there: the list has the states from which one is reached over the byte.
#[inline]
fn action_along<W: WordClass>(
    program: &Program<W>,
    input: &Input<'_>,
    at: usize,
    list: &[StateID],
    sid: StateID,
) -> Action
    requires start { input.now.span.start ≤ at }
    requires at { at ≤ input.now.span.end }
    requires sid { sid < length program.now.automaton.states }
    ensures action { Lists (λ s. ArrivesOver (search_in W.word_chars program.now input.now) s at) list.now
        → IsActionAlong (search_in W.word_chars program.now input.now) at sid result }
    ensures there { IsThere (length program.now.automaton.states) result }
{
    match action_of(program, input, at, sid) {
        Action::OverByte(to) => if has(list, sid) {
            Action::OverByte(to)
        } else {
            Action::Stuck
        },
        Action::Two(a, b) => if is_dead(program, list, a) {
            Action::One(b)
        } else {
            Action::Two(a, b)
        },
        Action::One(to) => Action::One(to),
        Action::Match(pattern) => Action::Match(pattern),
        Action::Stuck => Action::Stuck,
    }
}

// Whether the state goes on over a byte alone, and isn't in the list.
#[inline]
fn is_dead<W: WordClass>(program: &Program<W>, list: &[StateID], sid: StateID) -> bool
    requires { sid < length program.now.automaton.states }
    ensures { result ≡ true → (¬ (Contains list.now sid))
        × ((first last next : ℕ) × (slice_get program.now.automaton.states sid ≡ Some (ByteRange first last next))) }
{
    match program.state(sid) {
        State::ByteRange { .. } => !has(list, sid),
        State::Assert { .. } | State::Fork { .. } | State::Capture { .. } | State::Accept { .. } =>
            false,
    }
}

// Whether the list has the state.
#[inline(always)]
fn has(list: &[StateID], sid: StateID) -> bool
    ensures yes { result ≡ true → Contains list.now sid }
    ensures no { result ≡ false → ¬ (Contains list.now sid) }
{
    list.contains(&sid)
}

// Writes what states record at a position, one after the other.
fn record<W: WordClass>(
    program: &Program<W>,
    at: usize,
    trail: &[StateID],
    slots: &mut [Option<NonMaxUsize>],
)
    requires at { at + 1 < 2 ^ 64 }
    requires states { AreStates (length program.now.automaton.states) trail.now }
    ensures { (front : List (ℕ × ℕ)) → AreRecordsTo program.now.automaton.states front slots.old
        → AreRecordsTo program.now.automaton.states (front ++ all_at at trail.now) slots.new }
{
    'trail: for k in 0..trail.len() {
        record_one(program.state(trail[k]), at, slots);
    }
}

// Writes what one state records at a position.
fn record_one(state: State, at: usize, slots: &mut [Option<NonMaxUsize>])
    requires { at + 1 < 2 ^ 64 }
    ensures { (s : ℕ) → s < length slots.new → slice_index_or slots.new s None ≡
        or_earlier (if is_capture_of s (Some state) then Some at else None) (slice_index_or slots.old s None) }
{
    if let State::Capture { slot, .. } = state {
        let slot = slot.as_usize();
        if slot < slots.len() {
            slots[slot] = NonMaxUsize::new(at);
        }
    }
}
