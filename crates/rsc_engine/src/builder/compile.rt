//! From parts to states. The walk goes from the end of a pattern to its start, so that what comes after a part has its state first.
ghost use Rattle.std.specs.Prelude.{◌≡◌, ℕ, ◌+◌, ◌*◌, ◌<◌, ◌≤◌, ◌++◌, [], ◌∷◌, map, length, IfOk, OnOk};
ghost use Rattle.rsc_primitives.specs.Indices.{IsIndex};
ghost use Rattle.rsc_captures.specs.Groups.{all_group_count, group_count, slot_number};
ghost use Rattle.rsc_nfa.specs.declared.state.State.TheVariants.{Fork};
ghost use Rattle.rsc_engine.specs.Patterns.{Never, Class, Literal, Group, sequence, one_of};
ghost use Rattle.rsc_engine.specs.Parts.{pattern_of, groups_as_pattern};
ghost use Rattle.rsc_engine.specs.Trees.{pattern_in};
ghost use Rattle.rsc_engine.specs.Sizes.{size_of, size_of_program, most_states};
ghost use Rattle.rsc_engine.specs.GroupNumbers.{group_count_in};
ghost use Rattle.rsc_engine.specs.LinksLayout.{Adds, Builds, BuildsPart, IsAdded, slots_between};
ghost use Rattle.rsc_engine.specs.BeginsLayout.{Begins, IsOfOne, IsOfSome};
ghost use Rattle.rsc_engine.specs.FirstsLayout.{OrdersOne, OrdersSome};
ghost use Rattle.rsc_engine.specs.StatesLayout.{asked_by, some_ask, AreSoundIn};

use super::Part;
use super::tree::Tree;
use rsc_captures::GroupInfo;
use rsc_nfa::State;
use rsc_primitives::{PatternID, SmallIndex, StateID};
use std::alloc::{AllocError, Global};

/// The states so far.
#[derive(Drop)]
pub(crate) struct States {
    pub(crate) states: Vec<State>,
}

/// The states so far, and which groups are still to come.
#[derive(Drop)]
pub(crate) struct Compiler {
    pub(crate) list: States,
    // How many of the pattern's groups open before the next part ends. It decides which slots a group has.
    pub(crate) unnumbered: usize,
}

/// Which slots the groups of a pattern have.
pub(crate) struct Slots<'i> {
    pub(crate) info: &'i GroupInfo,
    pub(crate) pattern: PatternID,
}

impl Drop for Slots<'_> {
    fn drop(self) {
        let Slots {
            info: _,
            pattern: _,
        } = self;
    }
}

impl Slots<'_> {
    // The slots of a group.
    fn of_group(&self, group: usize) -> (SmallIndex, SmallIndex)
        requires { group < group_count self.now.info.now self.now.pattern }
        ensures start { result.0 ≡ slot_number self.now.info.now self.now.pattern group }
        ensures end { result.1 ≡ result.0 + 1 }
        ensures within { result.1 < 2 * all_group_count self.now.info.now }
    {
        // So that slots are known to be indices.
        let _limit = self.info.slot_len();
        let (start, end) = self.info.slots(self.pattern, group).unwrap();
        (SmallIndex::must(start), SmallIndex::must(end))
    }
}

/// The states of the patterns, and the one at which a match of any of them begins.
pub(crate) fn compile(
    alloc: Global,
    info: &GroupInfo,
    patterns: &[Part<'_>],
) -> Result<(Vec<State>, StateID), AllocError>
    requires some { 0 < length patterns.now }
    requires groups { info.now ≡ map groups_as_pattern patterns.now }
    requires room { size_of_program (map pattern_of patterns.now) ≤ most_states }
    ensures made { IfOk result (λ made. Begins made.0.items made.1 (IsOfSome 0 (map pattern_of patterns.now))
        × AreSoundIn info.now (some_ask (map pattern_of patterns.now)) [] made.0.items made.1 made.0.items
        × OrdersSome made.0.items (slot_number info.now) (length made.0.items) made.1 0 (map pattern_of patterns.now)) }
    ensures size { IfOk result (λ made. length made.0.items ≡ size_of_program (map pattern_of patterns.now)) }
{
    let mut compiler = Compiler {
        list: States {
            states: Vec::new(alloc),
        },
        unnumbered: 0,
    };
    let last = info.pattern_len() - 1;
    let mut first = compiler.pattern(info, last, &patterns[last])?;
    for index in (0..last).rev() {
        let one = compiler.pattern(info, index, &patterns[index])?;
        first = compiler.list.fork(one, first)?;
    }
    let Compiler {
        list: States { states },
        unnumbered: _,
    } = compiler;
    Ok((states, first))
}

impl Compiler {
    // The state at which matches of the pattern begin. The part is between two records of its position, in the slots of the whole match.
    fn pattern(
        &mut self,
        info: &GroupInfo,
        index: usize,
        whole: &Part<'_>,
    ) -> Result<StateID, AllocError>
        requires number { IsIndex index }
        requires groups { group_count info.now index ≡ group_count_in (pattern_of whole.now) + 1 }
        requires room { length self.old.list.states.items + size_of (pattern_of whole.now) + 3 ≤ most_states }
        ensures made { IfOk result (λ first. Adds self.old.list.states.items self.new.list.states.items
            (λ states. Begins states first (IsOfOne index (pattern_of whole.now)) × (index < length info.now →
            AreSoundIn info.now (asked_by (pattern_of whole.now)) self.old.list.states.items self.new.list.states.items first states)
            × OrdersOne states (slot_number info.now index) (length self.new.list.states.items) first index (pattern_of whole.now))) }
        ensures size { OnOk result (length self.new.list.states.items ≡ length self.old.list.states.items + size_of (pattern_of whole.now) + 3) }
    {
        let pattern = PatternID::must(index);
        let slots = Slots { info, pattern };
        let (start, end) = slots.of_group(0);
        self.unnumbered = info.group_len(pattern);
        let accept = self.list.add(State::Accept { pattern })?;
        let after = self.list.add(State::Capture {
            slot: end,
            next: accept,
        })?;
        let body = self.part(&slots, &whole.tree, after)?;
        self.list.add(State::Capture {
            slot: start,
            next: body,
        })
    }

    /// The state at which the part begins. Where it ends the state `next` comes.
    #[cycle(part)]
    pub(crate) fn part(
        &mut self,
        slots: &Slots<'_>,
        tree: &Tree,
        next: StateID,
    ) -> Result<StateID, AllocError>
        requires room { length self.old.list.states.items + size_of (pattern_in tree.now) ≤ most_states }
        requires unnumbered { group_count_in (pattern_in tree.now) < self.old.unnumbered }
        requires groups { self.old.unnumbered ≤ group_count slots.now.info.now slots.now.pattern }
        ensures { IfOk result (λ first. BuildsPart (slot_number slots.now.info.now slots.now.pattern) (slots_between slots.now.info.now slots.now.pattern)
            self.old.unnumbered self.new.unnumbered self.old.list.states.items self.new.list.states.items first next (pattern_in tree.now)) }
    {
        match tree {
            Tree::Empty => Ok(next),
            Tree::Never => self.list.never(next),
            Tree::Range(start, end) => self.list.range(*start, *end, next),
            Tree::Class(ranges) => self.list.class(ranges, next),
            Tree::Literal(bytes) => self.list.literal(bytes, next),
            Tree::Assertion(look) => self.list.add(State::Assert { look: *look, next }),
            Tree::Then(one, other) => {
                let middle = self.part(slots, other, next)?;
                self.part(slots, one, middle)
            }
            Tree::Concat(parts) => self.concat(slots, parts, next),
            Tree::Either(one, other) => {
                let second = self.part(slots, other, next)?;
                let first = self.part(slots, one, next)?;
                self.list.fork(first, second)
            }
            Tree::OneOf(parts) => self.one_of(slots, parts, next),
            Tree::Repeat(times, sub) => self.repeat(slots, *times, sub, next),
            Tree::Group(sub) => self.group(slots, sub, next),
        }
    }

    #[cycle(part)]
    fn concat(
        &mut self,
        slots: &Slots<'_>,
        parts: &[Tree],
        next: StateID,
    ) -> Result<StateID, AllocError>
        requires room { length self.old.list.states.items + size_of (sequence (map pattern_in parts.now)) ≤ most_states }
        requires unnumbered { group_count_in (sequence (map pattern_in parts.now)) < self.old.unnumbered }
        requires groups { self.old.unnumbered ≤ group_count slots.now.info.now slots.now.pattern }
        ensures { IfOk result (λ first. BuildsPart (slot_number slots.now.info.now slots.now.pattern) (slots_between slots.now.info.now slots.now.pattern)
            self.old.unnumbered self.new.unnumbered self.old.list.states.items self.new.list.states.items first next (sequence (map pattern_in parts.now))) }
    {
        let mut first = next;
        for index in (0..parts.len()).rev() {
            first = self.part(slots, &parts[index], first)?;
        }
        Ok(first)
    }

    #[cycle(part)]
    fn one_of(
        &mut self,
        slots: &Slots<'_>,
        parts: &[Tree],
        next: StateID,
    ) -> Result<StateID, AllocError>
        requires room { length self.old.list.states.items + size_of (one_of (map pattern_in parts.now)) ≤ most_states }
        requires unnumbered { group_count_in (one_of (map pattern_in parts.now)) < self.old.unnumbered }
        requires groups { self.old.unnumbered ≤ group_count slots.now.info.now slots.now.pattern }
        ensures { IfOk result (λ first. BuildsPart (slot_number slots.now.info.now slots.now.pattern) (slots_between slots.now.info.now slots.now.pattern)
            self.old.unnumbered self.new.unnumbered self.old.list.states.items self.new.list.states.items first next (one_of (map pattern_in parts.now))) }
    {
        if parts.is_empty() {
            return self.list.never(next);
        }
        let last = parts.len() - 1;
        let mut first = self.part(slots, &parts[last], next)?;
        for index in (0..last).rev() {
            let one = self.part(slots, &parts[index], next)?;
            first = self.list.fork(one, first)?;
        }
        Ok(first)
    }

    // The part between two records of its position, in the slots of its group.
    #[cycle(part)]
    fn group(&mut self, slots: &Slots<'_>, sub: &Tree, next: StateID) -> Result<StateID, AllocError>
        requires room { length self.old.list.states.items + size_of (Group 0 (pattern_in sub.now)) ≤ most_states }
        requires unnumbered { group_count_in (Group 0 (pattern_in sub.now)) < self.old.unnumbered }
        requires groups { self.old.unnumbered ≤ group_count slots.now.info.now slots.now.pattern }
        ensures { IfOk result (λ first. BuildsPart (slot_number slots.now.info.now slots.now.pattern) (slots_between slots.now.info.now slots.now.pattern)
            self.old.unnumbered self.new.unnumbered self.old.list.states.items self.new.list.states.items first next (Group 0 (pattern_in sub.now))) }
    {
        // Its slots are known once its inner groups have theirs, since states are made from the last part on.
        let after = self.list.add(State::Capture {
            slot: SmallIndex::ZERO,
            next,
        })?;
        let body = self.part(slots, sub, after)?;
        self.unnumbered -= 1;
        let (start, end) = slots.of_group(self.unnumbered);
        self.list.states[after.as_usize()] = State::Capture { slot: end, next };
        self.list.add(State::Capture {
            slot: start,
            next: body,
        })
    }
}

impl States {
    // A state from which nothing leads on.
    fn never(&mut self, next: StateID) -> Result<StateID, AllocError>
        requires { length self.old.states.items < most_states }
        ensures builds { IfOk result (λ first. (slots : ℕ × ℕ) → Builds slots self.old.states.items self.new.states.items first next Never) }
        ensures size { OnOk result (length self.new.states.items ≡ length self.old.states.items + 1) }
    {
        let this = self.next_id();
        self.fork(this, this)
    }

    fn class(&mut self, ranges: &[(u8, u8)], next: StateID) -> Result<StateID, AllocError>
        requires { length self.old.states.items + size_of (Class ranges.now) ≤ most_states }
        ensures builds { IfOk result (λ first. (slots : ℕ × ℕ) → Builds slots self.old.states.items self.new.states.items first next (Class ranges.now)) }
        ensures size { OnOk result (length self.new.states.items ≡ length self.old.states.items + size_of (Class ranges.now)) }
    {
        if ranges.is_empty() {
            return self.never(next);
        }
        let last = ranges.len() - 1;
        let mut first = self.range(ranges[last].0, ranges[last].1, next)?;
        for index in (0..last).rev() {
            let one = self.range(ranges[index].0, ranges[index].1, next)?;
            first = self.fork(one, first)?;
        }
        Ok(first)
    }

    // No byte is of a range whose first byte is above its last.
    fn range(&mut self, start: u8, end: u8, next: StateID) -> Result<StateID, AllocError>
        requires { length self.old.states.items < most_states }
        ensures builds { IfOk result (λ first. (slots : ℕ × ℕ) →
            Builds slots self.old.states.items self.new.states.items first next (Class ((start, end) ∷ []))) }
        ensures size { OnOk result (length self.new.states.items ≡ length self.old.states.items + 1) }
    {
        if end < start {
            return self.never(next);
        }
        self.add(State::ByteRange { start, end, next })
    }

    fn literal(&mut self, bytes: &[u8], next: StateID) -> Result<StateID, AllocError>
        requires { length self.old.states.items + length bytes.now ≤ most_states }
        ensures builds { IfOk result (λ first. (slots : ℕ × ℕ) → Builds slots self.old.states.items self.new.states.items first next (Literal bytes.now)) }
        ensures size { OnOk result (length self.new.states.items ≡ length self.old.states.items + length bytes.now) }
    {
        let mut first = next;
        for index in (0..bytes.len()).rev() {
            first = self.add(State::ByteRange {
                start: bytes[index],
                end: bytes[index],
                next: first,
            })?;
        }
        Ok(first)
    }

    /// A state that leads to two, of which the first is preferred.
    pub(crate) fn fork(&mut self, a: StateID, b: StateID) -> Result<StateID, AllocError>
        requires { length self.old.states.items < most_states }
        ensures { IfOk result (IsAdded self.old.states.items self.new.states.items (Fork a b)) }
    {
        self.add(State::Fork { a, b })
    }

    /// One more state.
    pub(crate) fn add(&mut self, state: State) -> Result<StateID, AllocError>
        requires { length self.old.states.items < most_states }
        ensures { IfOk result (IsAdded self.old.states.items self.new.states.items state) }
    {
        let id = self.next_id();
        self.states.push(state)?;
        Ok(id)
    }

    // The number of the state that is added next.
    fn next_id(&self) -> StateID
        requires { length self.now.states.items < most_states }
        ensures { result ≡ length self.now.states.items }
    {
        StateID::must(self.states.len())
    }
}
