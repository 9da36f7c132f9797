//! The steps of the backward pass along the rows of the table: the known ones, and the others, which are made and kept where they serve other
//! positions.
ghost use Rattle.std.specs.Prelude.{◌≡◌, ◌+◌, ◌<◌, ◌≤◌, [], IfOk, IfErr, Some, true, false, length, slice_get};
ghost use Rattle.rsc_primitives.specs.Indices.{max_index};
ghost use Rattle.rsc_engine.specs.declared.error.Error.TheVariants.{OutOfMemory};
ghost use Rattle.rsc_engine.specs.Searches.{search_in};
ghost use Rattle.rsc_engine.specs.RowsLayout.{machine, IsPlan};
ghost use Rattle.rsc_engine.specs.PassTableLayout.{IsPassTable, IsPassGrown};
ghost use Rattle.rsc_engine.specs.LogLayout.{IsBackAt};
ghost use Rattle.rsc_engine.specs.BackwardLayout.{StandsBackward, GoesBackward, begins_in, least_with};
ghost use Rattle.rsc_engine.specs.declared.dfa.pass_table.PassRow.{PassRow};

use super::backward::add_to_log;
use super::entries::Lead;
use super::lawful::steps_are_lawful;
use super::pass_table::PassTable;
use super::plan::{Plan, before_of, byte_at};
use crate::Error;
use rsc_look::WordClass;
use rsc_search::Input;

impl PassTable {
    /// Follows the entries back from a row as far as they are known, at most to the span's start: the row there, its position, and the least position so far at
    /// which a match begins.
    // Not inlined, so that the loop over known entries has registers of its own.
    #[inline(never)]
    pub(crate) fn follow_back<W: WordClass>(
        &self,
        plan: &Plan<'_, W>,
        input: &Input<'_>,
        row: usize,
        at: usize,
        least: usize,
        log: &mut Vec<u32>,
    ) -> Result<(usize, usize, usize), Error>
        requires plan { IsPlan (machine W.word_chars plan.now.program.now) plan.now.classes plan.now.width plan.now.unicode }
        requires exact { IsPassTable (machine W.word_chars plan.now.program.now) plan.now.classes plan.now.width plan.now.most_rows
            self.now.rows.items self.now.leads.items self.now.beyond.items }
        requires row { row < length self.now.rows.items }
        requires start { input.now.span.start ≤ at }
        requires end { at ≤ input.now.span.end }
        requires on { IsBackAt (search_in W.word_chars plan.now.program.now input.now) plan.now.classes self.now.rows.items row at least log.old.items }
        ensures on { IfOk result (λ r. IsBackAt (search_in W.word_chars plan.now.program.now input.now) plan.now.classes
            self.now.rows.items r.0 r.1 r.2 log.new.items) }
        ensures row { IfOk result (λ r. r.0 < length self.now.rows.items) }
        ensures further { IfOk result (λ r. r.1 ≤ at) }
        ensures start { IfOk result (λ r. input.now.span.start ≤ r.1) }
        ensures refused { IfErr result (λ e. e ≡ OutOfMemory) }
    {
        steps_are_lawful();
        let haystack = input.haystack();
        let start = input.start();
        let mut here = row;
        let mut position = at;
        let mut found = least;
        'bytes: while position > start {
            match self.lead_of(plan, here, byte_at(haystack, position - 1)) {
                Lead::To(next) => {
                    here = next as usize;
                    position -= 1;
                    add_to_log(log, here)?;
                }
                Lead::WithMatch(next) => {
                    if self.is_done(next as usize, false) {
                        return Ok((here, position, found));
                    }
                    here = next as usize;
                    found = self.least_with(here, position, found);
                    position -= 1;
                    add_to_log(log, here)?;
                }
                Lead::Unknown => return Ok((here, position, found)),
            }
        }
        Ok((here, position, found))
    }

    // The least position at which a match begins, after a step at a position that leads to the row.
    #[inline(always)]
    fn least_with(&self, row: usize, at: usize, least: usize) -> usize
        ensures { result ≡ least_with (begins_in (slice_get self.now.rows.items row)) at least }
    {
        if row >= self.rows.len() {
            return least;
        }
        if self.rows[row].begins { at } else { least }
    }

    /// Whether the row has no state, and not all positions are wanted.
    #[inline(always)]
    pub(crate) fn is_done(&self, row: usize, all: bool) -> bool
        ensures { result ≡ true → (all ≡ false) × ((found : PassRow) → slice_get self.now.rows.items row ≡ Some found → found.list.items ≡ []) }
    {
        if all {
            return false;
        }
        if row < self.rows.len() {
            self.rows[row].list.is_empty()
        } else {
            false
        }
    }

    /// The row to which the byte before a position leads from the position's row, and the least position then at which a match begins.
    pub(crate) fn step_back<W: WordClass>(
        &mut self,
        plan: &Plan<'_, W>,
        input: &Input<'_>,
        row: usize,
        at: usize,
        least: usize,
    ) -> Result<(usize, usize), Error>
        requires plan { IsPlan (machine W.word_chars plan.now.program.now) plan.now.classes plan.now.width plan.now.unicode }
        requires numbered { length plan.now.program.now.automaton.states ≤ max_index }
        requires exact { IsPassTable (machine W.word_chars plan.now.program.now) plan.now.classes plan.now.width plan.now.most_rows
            self.old.rows.items self.old.leads.items self.old.beyond.items }
        requires row { row < length self.old.rows.items }
        requires start { input.now.span.start ≤ at }
        requires end { at ≤ input.now.span.end }
        requires on { StandsBackward (search_in W.word_chars plan.now.program.now input.now) plan.now.classes self.old.rows.items row (at + 1) least }
        ensures exact { IsPassTable (machine W.word_chars plan.now.program.now) plan.now.classes plan.now.width plan.now.most_rows
            self.new.rows.items self.new.leads.items self.new.beyond.items }
        ensures row { IfOk result (λ r. r.0 < length self.new.rows.items) }
        ensures on { IfOk result (λ r.
            StandsBackward (search_in W.word_chars plan.now.program.now input.now) plan.now.classes self.new.rows.items r.0 at r.1) }
        ensures kept { IfOk result (λ _. length self.old.rows.items < plan.now.most_rows → IsPassGrown self.old.rows.items self.new.rows.items) }
        ensures refused { IfErr result (λ e. e ≡ OutOfMemory) }
    {
        let next = self.row_before(plan, input, row, at)?;
        Ok((next, self.least_with(next, at, least)))
    }

    // The row to which the byte before a position leads from the position's row.
    fn row_before<W: WordClass>(
        &mut self,
        plan: &Plan<'_, W>,
        input: &Input<'_>,
        row: usize,
        at: usize,
    ) -> Result<usize, Error>
        requires plan { IsPlan (machine W.word_chars plan.now.program.now) plan.now.classes plan.now.width plan.now.unicode }
        requires numbered { length plan.now.program.now.automaton.states ≤ max_index }
        requires exact { IsPassTable (machine W.word_chars plan.now.program.now) plan.now.classes plan.now.width plan.now.most_rows
            self.old.rows.items self.old.leads.items self.old.beyond.items }
        requires row { row < length self.old.rows.items }
        requires start { input.now.span.start ≤ at }
        requires end { at ≤ input.now.span.end }
        ensures exact { IsPassTable (machine W.word_chars plan.now.program.now) plan.now.classes plan.now.width plan.now.most_rows
            self.new.rows.items self.new.leads.items self.new.beyond.items }
        ensures row { IfOk result (λ next. next < length self.new.rows.items) }
        ensures goes { IfOk result (GoesBackward (search_in W.word_chars plan.now.program.now input.now) plan.now.classes
            self.old.rows.items self.new.rows.items row at) }
        ensures kept { IfOk result (λ _. length self.old.rows.items < plan.now.most_rows → IsPassGrown self.old.rows.items self.new.rows.items) }
        ensures refused { IfErr result (λ e. e ≡ OutOfMemory) }
    {
        steps_are_lawful();
        let unit = before_of(input.haystack(), at);
        if plan.is_beyond(unit) || plan.is_beyond(self.rows[row].read) {
            return self.step_beyond(plan, input.haystack(), at, row);
        }
        match self.look_up(plan, row, unit) {
            Some(next) => Ok(next),
            None => self.make(plan, row, unit),
        }
    }
}
