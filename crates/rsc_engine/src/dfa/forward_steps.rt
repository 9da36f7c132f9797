//! The steps of the forward pass along the rows of the table: the known ones, and the others, which are made and kept where they serve other
//! positions.
ghost use Rattle.std.specs.Prelude.{◌≡◌, ◌+◌, ◌<◌, ◌≤◌, [], IfOk, IfErr, Some, None, true, false, length, slice_get};
ghost use Rattle.rsc_engine.specs.declared.error.Error.TheVariants.{OutOfMemory};
ghost use Rattle.rsc_engine.specs.Searches.{search_in};
ghost use Rattle.rsc_engine.specs.RowsLayout.{machine, IsPlan};
ghost use Rattle.rsc_engine.specs.PassTableLayout.{IsPassTable};
ghost use Rattle.rsc_engine.specs.ForwardLayout.{StandsInEach, GoesInEach, found_in, last_with};
ghost use Rattle.rsc_engine.specs.declared.dfa.pass_table.PassRow.{PassRow};

use super::entries::Lead;
use super::lawful::steps_are_lawful;
use super::pass_table::PassTable;
use super::plan::{Plan, after_of, byte_at};
use crate::Error;
use rsc_look::WordClass;
use rsc_primitives::PatternID;
use rsc_search::Input;

impl PassTable {
    /// Follows the entries from a row as far as they are known, at most to the end: the row there, its position, and the last match found before it.
    // Not inlined, so that the loop over known entries has registers of its own.
    #[inline(never)]
    pub(crate) fn follow<W: WordClass>(
        &self,
        plan: &Plan<'_, W>,
        input: &Input<'_>,
        row: usize,
        at: usize,
        last: Option<(PatternID, usize)>,
        earliest: bool,
    ) -> (usize, usize, Option<(PatternID, usize)>)
        requires plan { IsPlan (machine W.word_chars plan.now.program.now) plan.now.classes plan.now.width plan.now.unicode }
        requires exact { IsPassTable (machine W.word_chars plan.now.program.now) plan.now.classes plan.now.width plan.now.most_rows
            self.now.rows.items self.now.leads.items self.now.beyond.items }
        requires on { StandsInEach (search_in W.word_chars plan.now.program.now input.now) plan.now.classes self.now.rows.items row at last }
        requires start { input.now.span.start ≤ at }
        requires end { at ≤ input.now.span.end }
        ensures on { StandsInEach (search_in W.word_chars plan.now.program.now input.now) plan.now.classes self.now.rows.items result.0 result.1 result.2 }
        ensures further { at ≤ result.1 }
        ensures end { result.1 ≤ input.now.span.end }
        ensures none { earliest ≡ true → result.2 ≡ last }
    {
        steps_are_lawful();
        let haystack = input.haystack();
        let end = input.end();
        let mut here = row;
        let mut found = last;
        'bytes: for position in at..end {
            match self.lead_of(plan, here, byte_at(haystack, position)) {
                Lead::To(next) => here = next as usize,
                Lead::WithMatch(next) => {
                    let next = next as usize;
                    if self.is_final(next) {
                        return (here, position, found);
                    }
                    if earliest && self.has_found(next) {
                        return (here, position, found);
                    }
                    here = next;
                    found = self.found_with(next, position, found);
                }
                Lead::Unknown => return (here, position, found),
            }
        }
        (here, end, found)
    }

    /// Whether a scan that leads to the row finds a match.
    #[inline(always)]
    pub(crate) fn has_found(&self, row: usize) -> bool
        ensures some { result ≡ true → ¬ (found_in (slice_get self.now.rows.items row) ≡ None) }
        ensures none { result ≡ false → found_in (slice_get self.now.rows.items row) ≡ None }
    {
        if row >= self.rows.len() {
            return false;
        }
        match self.rows[row].found {
            Some(_) => true,
            None => false,
        }
    }

    /// The last match found, after a scan at a position that leads to the row.
    #[inline(always)]
    pub(crate) fn found_with(
        &self,
        row: usize,
        at: usize,
        last: Option<(PatternID, usize)>,
    ) -> Option<(PatternID, usize)>
        ensures { result ≡ last_with (found_in (slice_get self.now.rows.items row)) at last }
    {
        if row >= self.rows.len() {
            return last;
        }
        match self.rows[row].found {
            Some(pattern) => Some((pattern, at)),
            None => last,
        }
    }

    /// Whether no match goes on from a row, or begins later.
    #[inline(always)]
    pub(crate) fn is_final(&self, row: usize) -> bool
        ensures { result ≡ true → (found : PassRow) → slice_get self.now.rows.items row ≡ Some found →
            (found.list.items ≡ []) × (found.begins ≡ false) }
    {
        if row < self.rows.len() {
            self.rows[row].list.is_empty() && !self.rows[row].begins
        } else {
            false
        }
    }

    /// The row to which a unit leads from a row at a position, and the last match found then.
    pub(crate) fn step<W: WordClass>(
        &mut self,
        plan: &Plan<'_, W>,
        input: &Input<'_>,
        row: usize,
        at: usize,
        last: Option<(PatternID, usize)>,
    ) -> Result<(usize, Option<(PatternID, usize)>), Error>
        requires plan { IsPlan (machine W.word_chars plan.now.program.now) plan.now.classes plan.now.width plan.now.unicode }
        requires exact { IsPassTable (machine W.word_chars plan.now.program.now) plan.now.classes plan.now.width plan.now.most_rows
            self.old.rows.items self.old.leads.items self.old.beyond.items }
        requires on { StandsInEach (search_in W.word_chars plan.now.program.now input.now) plan.now.classes self.old.rows.items row at last }
        requires start { input.now.span.start ≤ at }
        requires end { at ≤ input.now.span.end }
        ensures exact { IsPassTable (machine W.word_chars plan.now.program.now) plan.now.classes plan.now.width plan.now.most_rows
            self.new.rows.items self.new.leads.items self.new.beyond.items }
        ensures on { IfOk result (λ r.
            StandsInEach (search_in W.word_chars plan.now.program.now input.now) plan.now.classes self.new.rows.items r.0 (at + 1) r.1) }
        ensures found { IfOk result (λ r. r.1 ≡ last_with (found_in (slice_get self.new.rows.items r.0)) at last) }
        ensures refused { IfErr result (λ e. e ≡ OutOfMemory) }
    {
        let next = self.next_row(plan, input, row, at)?;
        Ok((next, self.found_with(next, at, last)))
    }

    // The row to which the unit at a position leads from the row of the position.
    fn next_row<W: WordClass>(
        &mut self,
        plan: &Plan<'_, W>,
        input: &Input<'_>,
        row: usize,
        at: usize,
    ) -> Result<usize, Error>
        requires plan { IsPlan (machine W.word_chars plan.now.program.now) plan.now.classes plan.now.width plan.now.unicode }
        requires exact { IsPassTable (machine W.word_chars plan.now.program.now) plan.now.classes plan.now.width plan.now.most_rows
            self.old.rows.items self.old.leads.items self.old.beyond.items }
        requires row { row < length self.old.rows.items }
        requires start { input.now.span.start ≤ at }
        requires end { at ≤ input.now.span.end }
        ensures exact { IsPassTable (machine W.word_chars plan.now.program.now) plan.now.classes plan.now.width plan.now.most_rows
            self.new.rows.items self.new.leads.items self.new.beyond.items }
        ensures goes { IfOk result (GoesInEach (search_in W.word_chars plan.now.program.now input.now) plan.now.classes
            self.old.rows.items self.new.rows.items row at) }
        ensures refused { IfErr result (λ e. e ≡ OutOfMemory) }
    {
        steps_are_lawful();
        let unit = after_of(input.haystack(), at);
        if plan.is_beyond(unit) || plan.is_beyond(self.rows[row].read) {
            return self.step_beyond(plan, input.haystack(), at, row);
        }
        match self.look_up(plan, row, unit) {
            Some(next) => Ok(next),
            None => self.make(plan, row, unit),
        }
    }
}
