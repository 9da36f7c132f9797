//! The matches of a whole span ahead: one backward pass logs where a match begins, and each next match is found along that log.
//!
//! So an iteration reads the span once backward, and once along its matches, however far a forward pass would have to read to learn where each of them ends.
ghost use Rattle.std.specs.Prelude.{◌≡◌, ◌+◌, ◌<◌, ◌≤◌, ℕ, IfOk, IfErr, IfSome, IfNone, OnErr, true, false, length};
ghost use Rattle.rsc_search.specs.declared.anchored.Anchored.TheVariants.{No};
ghost use Rattle.rsc_engine.specs.declared.error.Error.TheVariants.{OutOfMemory};
ghost use Rattle.rsc_engine.specs.Searches.{search_in};
ghost use Rattle.rsc_engine.specs.Preferred.{IsFirstMatch, HasNoFirstMatch, IsCleared};
ghost use Rattle.rsc_engine.specs.ArrivalsLayout.{Arrives};
ghost use Rattle.rsc_engine.specs.LogLayout.{IsLogged};
ghost use Rattle.rsc_engine.specs.AheadLayout.{IsNextBegin, HasNoBegin, IsMatchAt, start_at};

use super::MOST_NUMBERED;
use super::along::{Walk, record_along};
use super::backward::{go_back, part_of};
use super::pass_table::PassTable;
use super::plan::Plan;
use crate::{AsciiCompatible, Error, Program};
use rsc_captures::Captures;
use rsc_look::WordClass;
use rsc_search::{Input, Match, Span};
use std::alloc::Global;
use std::marker::Model;

/// The matches of an input's span ahead.
#[derive(Drop)]
pub(crate) struct Ahead<'p, 'h, W: WordClass> {
    program: &'p Program<W>,
    input: Input<'h>,
    table: PassTable,
    // For each position of the span the row of the backward pass there, from the end on, and then the row of the position before the span.
    log: Vec<u32>,
    walk: Walk,
}

impl<'p, 'h, W: WordClass> Model for Ahead<'p, 'h, W> {
    ghost use Rattle.rsc_engine.specs.Searches.{search_in};
    ghost use Rattle.rsc_engine.specs.LogLayout.{IsLogged};
    ghost use Rattle.rsc_engine.specs.AheadLayout.{AheadOf};

    ghost Value = { AheadOf W };

    ghost view = { λ a. record { program = a.program.now; input = a.input } };

    ghost invariant = { λ a. IsLogged (search_in W.word_chars a.program.now a.input) a.input.span.start a.table.rows.items a.log.items };
}

impl<'p, 'h, W: WordClass + AsciiCompatible> Ahead<'p, 'h, W> {
    /// The matches of an input's span, by one pass over it.
    pub(crate) fn of(
        alloc: Global,
        program: &'p Program<W>,
        input: &Input<'h>,
    ) -> Result<Ahead<'p, 'h, W>, Error>
        requires { input.now.span.start ≤ input.now.span.end }
        ensures made { IfOk result (λ a. search_in W.word_chars a.program a.input ≡ search_in W.word_chars program.now input.now) }
        ensures refused { IfErr result (λ e. e ≡ OutOfMemory) }
    {
        if program.state_len() > MOST_NUMBERED {
            // Only states that have numbers are gone back through.
            return Err(Error::OutOfMemory);
        }
        let input = part_of(input, input.end());
        let plan = Plan::new(program, usize::MAX);
        let mut table = PassTable::new(alloc);
        let mut log = Vec::new(alloc);
        go_back(&plan, &mut table, &input, true, &mut log)?;
        Ok(Ahead {
            program,
            input,
            table,
            log,
            walk: Walk::new(alloc),
        })
    }

    /// The leftmost-first match from a position on. Its groups are in the captures afterwards.
    pub(crate) fn find(
        &mut self,
        from: usize,
        captures: &mut Captures,
    ) -> Result<Option<Match>, Error>
        requires { self.old.input.span.start ≤ from }
        ensures kept { self.new ≡ self.old }
        ensures found { IfOk result (λ found. IfSome found
            (IsFirstMatch (start_at (search_in W.word_chars self.old.program self.old.input) from) captures.new)) }
        ensures none { IfOk result (λ found. IfNone found (HasNoFirstMatch (start_at (search_in W.word_chars self.old.program self.old.input) from))) }
        ensures start { IfOk result (λ found. IfSome found (λ m. from ≤ m.span.start)) }
        ensures order { IfOk result (λ found. IfSome found (λ m. m.span.start ≤ m.span.end)) }
        ensures end { IfOk result (λ found. IfSome found (λ m. m.span.end ≤ self.old.input.span.end)) }
        ensures kept_groups { captures.new.groups ≡ captures.old.groups }
        ensures kept_slots { length captures.new.offsets ≡ length captures.old.offsets }
        ensures cleared { IfOk result (λ found. IfNone found (IsCleared captures.old captures.new)) }
        ensures cleared_by_error { OnErr result (IsCleared captures.old captures.new) }
        ensures refused { IfErr result (λ e. e ≡ OutOfMemory) }
    {
        captures.clear();
        let Some(start) = self.next_begin(from) else {
            return Ok(None);
        };
        let found = match_at(
            &mut self.walk,
            self.program,
            &self.input,
            &self.table,
            self.log.as_slice(),
            start,
            captures,
        )?;
        Ok(Some(found))
    }

    // The least position from one on at which a match begins, of those at which one may.
    fn next_begin(&self, from: usize) -> Option<usize>
        requires { self.now.input.span.start ≤ from }
        ensures some { IfSome result (IsNextBegin (search_in W.word_chars self.now.program self.now.input) from) }
        ensures none { IfNone result (HasNoBegin (search_in W.word_chars self.now.program self.now.input) from) }
    {
        let last = self.last_begin(from);
        'positions: for at in from..last {
            if self.begins(at) {
                return Some(at);
            }
        }
        None
    }

    // The position behind the last one at which a match may begin, from one on.
    fn last_begin(&self, from: usize) -> usize
        ensures within { result ≤ self.now.input.span.end + 1 }
        ensures anchored { ¬ (self.now.input.anchored ≡ No) → result ≤ from + 1 }
        ensures all { (at : ℕ) → from ≤ at → at ≤ self.now.input.span.end → (¬ (self.now.input.anchored ≡ No) → at ≡ from) → at < result }
    {
        let past = self.input.end() + 1;
        if self.input.get_anchored().is_anchored() && from < past {
            from + 1
        } else {
            past
        }
    }

    // Whether a match begins at a position of the span.
    fn begins(&self, at: usize) -> bool
        requires low { self.now.input.span.start ≤ at }
        requires high { at ≤ self.now.input.span.end }
        ensures yes { result ≡ true → Arrives (search_in W.word_chars self.now.program self.now.input) self.now.program.start at }
        ensures no { result ≡ false → ¬ (Arrives (search_in W.word_chars self.now.program self.now.input) self.now.program.start at) }
    {
        let row = self.log[self.input.end() + 1 - at] as usize;
        self.table.rows[row].begins
    }
}

// The match that begins at a position. Its groups are in the captures afterwards, in which no slot is set before.
fn match_at<W: WordClass>(
    walk: &mut Walk,
    program: &Program<W>,
    input: &Input<'_>,
    table: &PassTable,
    log: &[u32],
    start: usize,
    captures: &mut Captures,
) -> Result<Match, Error>
    requires begins { Arrives (search_in W.word_chars program.now input.now) program.now.start start }
    requires log { IsLogged (search_in W.word_chars program.now input.now) start table.now.rows.items log.now }
    requires cleared { IsCleared captures.old captures.old }
    ensures found { IfOk result (IsMatchAt (search_in W.word_chars program.now input.now) start captures.new) }
    ensures order { IfOk result (λ m. m.span.start ≤ m.span.end) }
    ensures end { IfOk result (λ m. m.span.end ≤ input.now.span.end) }
    ensures kept_groups { captures.new.groups ≡ captures.old.groups }
    ensures kept_slots { length captures.new.offsets ≡ length captures.old.offsets }
    ensures cleared_by_error { OnErr result (IsCleared captures.old captures.new) }
    ensures refused { IfErr result (λ e. e ≡ OutOfMemory) }
{
    let recorded = record_along(
        walk,
        program,
        input,
        table,
        log,
        start,
        None,
        &[],
        captures.slots_mut(),
    );
    match recorded {
        Ok(last) => {
            captures.set_pattern(Some(last.0));
            let span = Span { start, end: last.1 };
            Ok(Match::new(last.0, span))
        }
        Err(error) => {
            captures.clear();
            Err(error)
        }
    }
}
