//! The states of repetitions.
ghost use Rattle.std.specs.Prelude.{◌≡◌, ◌+◌, ◌-◌, ◌<◌, ◌≤◌, None, Some, false, map, length, IfOk};
ghost use Rattle.rsc_captures.specs.Groups.{group_count, slot_number};
ghost use Rattle.rsc_engine.specs.Patterns as patterns;
ghost use Rattle.rsc_engine.specs.Patterns.{Repeat, sequence};
ghost use Rattle.rsc_engine.specs.GroupNumbers.{group_count_in};
ghost use Rattle.rsc_engine.specs.Trees.{pattern_in};
ghost use Rattle.rsc_engine.specs.Sizes.{size_of, most_states};
ghost use Rattle.rsc_engine.specs.LinksLayout.{BuildsPart, BuildsCopies, choice_of, copies, up_to, slots_between};

use super::compile::{Compiler, Slots};
use super::tree::{Times, Tree, may_be_empty};
use rsc_nfa::State;
use rsc_primitives::StateID;
use std::alloc::AllocError;

impl Compiler {
    /// The part as often as the numbers say.
    #[cycle(part)]
    pub(crate) fn repeat(
        &mut self,
        slots: &Slots<'_>,
        times: Times,
        sub: &Tree,
        next: StateID,
    ) -> Result<StateID, AllocError>
        requires room { length self.old.list.states.items + size_of (Repeat times.min times.max times.is_greedy (pattern_in sub.now)) ≤ most_states }
        requires unnumbered { group_count_in (pattern_in sub.now) < self.old.unnumbered }
        requires groups { self.old.unnumbered ≤ group_count slots.now.info.now slots.now.pattern }
        ensures { IfOk result (λ first. BuildsPart (slot_number slots.now.info.now slots.now.pattern) (slots_between slots.now.info.now slots.now.pattern)
            self.old.unnumbered self.new.unnumbered self.old.list.states.items self.new.list.states.items first next
            (Repeat times.min times.max times.is_greedy (pattern_in sub.now))) }
    {
        match times.max {
            None => self.unlimited(slots, times, sub, next),
            Some(max) => self.limited(slots, times, max, sub, next),
        }
    }

    // The part as often as it must be there, and then again any number of times.
    #[cycle(part)]
    fn unlimited(
        &mut self,
        slots: &Slots<'_>,
        times: Times,
        sub: &Tree,
        next: StateID,
    ) -> Result<StateID, AllocError>
        requires room { length self.old.list.states.items + size_of (Repeat times.min None times.is_greedy (pattern_in sub.now)) ≤ most_states }
        requires unnumbered { group_count_in (pattern_in sub.now) < self.old.unnumbered }
        requires groups { self.old.unnumbered ≤ group_count slots.now.info.now slots.now.pattern }
        ensures { IfOk result (λ first. BuildsPart (slot_number slots.now.info.now slots.now.pattern) (slots_between slots.now.info.now slots.now.pattern)
            self.old.unnumbered self.new.unnumbered self.old.list.states.items self.new.list.states.items first next
            (Repeat times.min None times.is_greedy (pattern_in sub.now))) }
    {
        if times.min == 0 {
            return self.star(slots, times, sub, next);
        }
        let unnumbered = self.unnumbered;
        let (last, _) = self.again(slots, times.is_greedy, sub, next)?;
        if times.min == 1 {
            return Ok(last);
        }
        self.unnumbered = unnumbered;
        self.copies(slots, times.min - 1, sub, last)
    }

    // The part as often as it must be there, and then as often as it may.
    #[cycle(part)]
    fn limited(
        &mut self,
        slots: &Slots<'_>,
        times: Times,
        max: usize,
        sub: &Tree,
        next: StateID,
    ) -> Result<StateID, AllocError>
        requires room { length self.old.list.states.items + size_of (Repeat times.min (Some max) times.is_greedy (pattern_in sub.now)) ≤ most_states }
        requires unnumbered { group_count_in (pattern_in sub.now) < self.old.unnumbered }
        requires groups { self.old.unnumbered ≤ group_count slots.now.info.now slots.now.pattern }
        ensures { IfOk result (λ first. BuildsPart (slot_number slots.now.info.now slots.now.pattern) (slots_between slots.now.info.now slots.now.pattern)
            self.old.unnumbered self.new.unnumbered self.old.list.states.items self.new.list.states.items first next
            (Repeat times.min (Some max) times.is_greedy (pattern_in sub.now))) }
    {
        let more = max.saturating_sub(times.min);
        if times.min == 0 {
            if more == 0 {
                return Ok(self.no_times(slots, times, sub, next));
            }
            return self.up_to(slots, more, times.is_greedy, sub, next);
        }
        let unnumbered = self.unnumbered;
        let rest = self.up_to(slots, more, times.is_greedy, sub, next)?;
        self.unnumbered = unnumbered;
        self.copies(slots, times.min, sub, rest)
    }

    // The part no times: it has no states, but its groups have their numbers.
    fn no_times(&mut self, slots: &Slots<'_>, times: Times, sub: &Tree, next: StateID) -> StateID
        requires { group_count_in (pattern_in sub.now) < self.old.unnumbered }
        ensures { BuildsPart (slot_number slots.now.info.now slots.now.pattern) (slots_between slots.now.info.now slots.now.pattern)
            self.old.unnumbered self.new.unnumbered self.old.list.states.items self.new.list.states.items result next
            (Repeat 0 (Some 0) times.is_greedy (pattern_in sub.now)) }
    {
        self.unnumbered = groups_left(sub, self.unnumbered);
        next
    }

    // The part a number of times.
    #[cycle(part)]
    fn copies(
        &mut self,
        slots: &Slots<'_>,
        count: usize,
        sub: &Tree,
        next: StateID,
    ) -> Result<StateID, AllocError>
        requires room { length self.old.list.states.items + size_of (copies count (pattern_in sub.now)) ≤ most_states }
        requires unnumbered { group_count_in (pattern_in sub.now) < self.old.unnumbered }
        requires groups { self.old.unnumbered ≤ group_count slots.now.info.now slots.now.pattern }
        ensures { IfOk result (λ first. BuildsCopies (slot_number slots.now.info.now slots.now.pattern) (slots_between slots.now.info.now slots.now.pattern)
            self.old.unnumbered self.new.unnumbered self.old.list.states.items self.new.list.states.items
            first next count (copies count) (pattern_in sub.now)) }
    {
        let unnumbered = self.unnumbered;
        let mut first = next;
        // The proof needs a name for the number of copies so far.
        for done in 0..count {
            self.unnumbered = unnumbered;
            first = self.part(slots, sub, first)?;
        }
        Ok(first)
    }

    // The part at most a number of times: `(part(part)?)?`.
    #[cycle(part)]
    fn up_to(
        &mut self,
        slots: &Slots<'_>,
        count: usize,
        is_greedy: bool,
        sub: &Tree,
        next: StateID,
    ) -> Result<StateID, AllocError>
        requires room { length self.old.list.states.items + size_of (up_to is_greedy count (pattern_in sub.now)) ≤ most_states }
        requires unnumbered { group_count_in (pattern_in sub.now) < self.old.unnumbered }
        requires groups { self.old.unnumbered ≤ group_count slots.now.info.now slots.now.pattern }
        ensures { IfOk result (λ first. BuildsCopies (slot_number slots.now.info.now slots.now.pattern) (slots_between slots.now.info.now slots.now.pattern)
            self.old.unnumbered self.new.unnumbered self.old.list.states.items self.new.list.states.items first next count (up_to is_greedy count)
            (pattern_in sub.now)) }
    {
        let unnumbered = self.unnumbered;
        let mut first = next;
        for done in 0..count {
            self.unnumbered = unnumbered;
            let one = self.part(slots, sub, first)?;
            first = self.list.add(choice(is_greedy, one, next))?;
        }
        Ok(first)
    }

    // The part any number of times.
    #[cycle(part)]
    fn star(
        &mut self,
        slots: &Slots<'_>,
        times: Times,
        sub: &Tree,
        next: StateID,
    ) -> Result<StateID, AllocError>
        requires room { length self.old.list.states.items + size_of (Repeat 0 None times.is_greedy (pattern_in sub.now)) ≤ most_states }
        requires unnumbered { group_count_in (pattern_in sub.now) < self.old.unnumbered }
        requires groups { self.old.unnumbered ≤ group_count slots.now.info.now slots.now.pattern }
        ensures { IfOk result (λ first. BuildsPart (slot_number slots.now.info.now slots.now.pattern) (slots_between slots.now.info.now slots.now.pattern)
            self.old.unnumbered self.new.unnumbered self.old.list.states.items self.new.list.states.items first next
            (Repeat 0 None times.is_greedy (pattern_in sub.now))) }
    {
        let (first, again) = self.again(slots, times.is_greedy, sub, next)?;
        // A loop over a part that may take no byte is entered by a choice of its own, which decides which match is preferred.
        if may_be_empty(sub) {
            return self.list.add(choice(times.is_greedy, first, next));
        }
        Ok(again)
    }

    // The part once or more: the state at which it begins, and the one after each time, which leads to the part again or to what comes next.
    #[cycle(part)]
    fn again(
        &mut self,
        slots: &Slots<'_>,
        is_greedy: bool,
        sub: &Tree,
        next: StateID,
    ) -> Result<(StateID, StateID), AllocError>
        requires room { length self.old.list.states.items + size_of (Repeat 1 None is_greedy (pattern_in sub.now)) ≤ most_states }
        requires unnumbered { group_count_in (pattern_in sub.now) < self.old.unnumbered }
        requires groups { self.old.unnumbered ≤ group_count slots.now.info.now slots.now.pattern }
        ensures first { IfOk result (λ made. BuildsPart (slot_number slots.now.info.now slots.now.pattern) (slots_between slots.now.info.now slots.now.pattern)
            self.old.unnumbered self.new.unnumbered self.old.list.states.items self.new.list.states.items
            made.0 next (Repeat 1 None is_greedy (pattern_in sub.now))) }
        ensures again { IfOk result (λ made. patterns.may_be_empty (pattern_in sub.now) ≡ false →
            BuildsPart (slot_number slots.now.info.now slots.now.pattern) (slots_between slots.now.info.now slots.now.pattern)
            self.old.unnumbered self.new.unnumbered self.old.list.states.items self.new.list.states.items
            made.1 next (Repeat 0 None is_greedy (pattern_in sub.now))) }
    {
        // What it leads to isn't known yet.
        let again = self.list.fork(next, next)?;
        let first = self.part(slots, sub, again)?;
        self.list.states[again.as_usize()] = choice(is_greedy, first, next);
        Ok((first, again))
    }
}

// A state that leads to the part or to what comes next. If it is greedy, the part is preferred.
fn choice(is_greedy: bool, part: StateID, next: StateID) -> State
    ensures { result ≡ choice_of is_greedy part next }
{
    if is_greedy {
        State::Fork { a: part, b: next }
    } else {
        State::Fork { a: next, b: part }
    }
}

// How many of the pattern's groups are left to number once those of the part are.
#[cycle(groups_left)]
fn groups_left(tree: &Tree, left: usize) -> usize
    ensures { result ≡ left - group_count_in (pattern_in tree.now) }
{
    match tree {
        Tree::Empty => left,
        Tree::Never => left,
        Tree::Range(_, _) => left,
        Tree::Class(_) => left,
        Tree::Literal(_) => left,
        Tree::Assertion(_) => left,
        Tree::Then(one, other) => groups_left(one, groups_left(other, left)),
        Tree::Concat(parts) => groups_left_by_all(parts, left),
        Tree::Either(one, other) => groups_left(one, groups_left(other, left)),
        Tree::OneOf(parts) => groups_left_by_all(parts, left),
        Tree::Repeat(_, sub) => groups_left(sub, left),
        Tree::Group(sub) => groups_left(sub, left).saturating_sub(1),
    }
}

#[cycle(groups_left)]
fn groups_left_by_all(parts: &[Tree], left: usize) -> usize
    ensures { result ≡ left - group_count_in (sequence (map pattern_in parts.now)) }
{
    let mut now = left;
    for index in (0..parts.len()).rev() {
        now = groups_left(&parts[index], now);
    }
    now
}
