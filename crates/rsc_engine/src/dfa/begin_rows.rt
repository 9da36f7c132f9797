//! The rows in which the passes begin. The one that was used last is tried first, so that a search makes no list where it's there.
ghost use Rattle.std.specs.Prelude.{◌≡◌, ◌≤◌, ◌∷◌, [], IfOk, IfErr, IfSome, None, true, false, length, slice_get};
ghost use Rattle.rsc_primitives.specs.Indices.{max_index};
ghost use Rattle.rsc_engine.specs.declared.error.Error.TheVariants.{OutOfMemory};
ghost use Rattle.rsc_engine.specs.RowsLayout.{machine, IsPlan, AreStates};
ghost use Rattle.rsc_engine.specs.PassTableLayout.{IsPassTable, IsPassRow};

use super::entries::{are_alike, are_same};
use super::pass_entries::is_same_pattern;
use super::pass_table::{PassRow, PassTable};
use super::plan::Plan;
use crate::Error;
use rsc_look::WordClass;
use rsc_primitives::StateID;
use rsc_search::Anchored;
use std::alloc::Global;

// How many rows are remembered.
const REMEMBERED: usize = 512;

impl PassTable {
    /// The row in which a forward pass begins: its list is the start state alone.
    #[inline(always)]
    pub(crate) fn forward_row<W: WordClass>(
        &mut self,
        plan: &Plan<'_, W>,
        mode: &Anchored,
        begins: bool,
        before: Option<u8>,
    ) -> Result<usize, Error>
        requires plan { IsPlan (machine W.word_chars plan.now.program.now) plan.now.classes plan.now.width plan.now.unicode }
        requires exact { IsPassTable (machine W.word_chars plan.now.program.now) plan.now.classes plan.now.width plan.now.most_rows
            self.old.rows.items self.old.leads.items self.old.beyond.items }
        ensures exact { IsPassTable (machine W.word_chars plan.now.program.now) plan.now.classes plan.now.width plan.now.most_rows
            self.new.rows.items self.new.leads.items self.new.beyond.items }
        ensures row { IfOk result (λ row. IsPassRow plan.now.classes self.new.rows.items row false mode.now begins None before
            (plan.now.program.now.start ∷ [])) }
        ensures refused { IfErr result (λ e. e ≡ OutOfMemory) }
    {
        let start = [plan.program.start()];
        self.begin_row(plan, false, mode, begins, before, &start)
    }

    /// The row in which a backward pass begins: its list is empty.
    #[inline(always)]
    pub(crate) fn backward_row<W: WordClass>(
        &mut self,
        plan: &Plan<'_, W>,
        mode: &Anchored,
        after: Option<u8>,
    ) -> Result<usize, Error>
        requires plan { IsPlan (machine W.word_chars plan.now.program.now) plan.now.classes plan.now.width plan.now.unicode }
        requires numbered { length plan.now.program.now.automaton.states ≤ max_index }
        requires exact { IsPassTable (machine W.word_chars plan.now.program.now) plan.now.classes plan.now.width plan.now.most_rows
            self.old.rows.items self.old.leads.items self.old.beyond.items }
        ensures exact { IsPassTable (machine W.word_chars plan.now.program.now) plan.now.classes plan.now.width plan.now.most_rows
            self.new.rows.items self.new.leads.items self.new.beyond.items }
        ensures row { IfOk result (λ row. IsPassRow plan.now.classes self.new.rows.items row true mode.now false None after []) }
        ensures refused { IfErr result (λ e. e ≡ OutOfMemory) }
    {
        self.begin_row(plan, true, mode, false, after, &[])
    }

    // A row in which a pass begins.
    #[inline(always)]
    fn begin_row<W: WordClass>(
        &mut self,
        plan: &Plan<'_, W>,
        backward: bool,
        mode: &Anchored,
        begins: bool,
        read: Option<u8>,
        list: &[StateID],
    ) -> Result<usize, Error>
        requires plan { IsPlan (machine W.word_chars plan.now.program.now) plan.now.classes plan.now.width plan.now.unicode }
        requires numbered { backward ≡ true → length plan.now.program.now.automaton.states ≤ max_index }
        requires states { AreStates (length plan.now.program.now.automaton.states) list.now }
        requires exact { IsPassTable (machine W.word_chars plan.now.program.now) plan.now.classes plan.now.width plan.now.most_rows
            self.old.rows.items self.old.leads.items self.old.beyond.items }
        ensures exact { IsPassTable (machine W.word_chars plan.now.program.now) plan.now.classes plan.now.width plan.now.most_rows
            self.new.rows.items self.new.leads.items self.new.beyond.items }
        ensures row { IfOk result (λ row. IsPassRow plan.now.classes self.new.rows.items row backward mode.now begins None read list.now) }
        ensures refused { IfErr result (λ e. e ≡ OutOfMemory) }
    {
        let column = plan.column(read) % 256;
        let index = if backward { column + 256 } else { column };
        let last = self.begin_rows.get(index).copied().unwrap_or(0) as usize;
        if self.is_begin_row(plan, last, backward, mode, begins, read, list) {
            return Ok(last);
        }
        let made = PassRow {
            backward,
            mode: *mode,
            begins,
            found: None,
            read,
            list: list_of(self.alloc, list)?,
        };
        let row = self.row_of(plan, made)?.0;
        if self.begin_rows.len() != REMEMBERED {
            self.begin_rows = vec![in self.alloc; 0; REMEMBERED]?;
        }
        if let Ok(number) = u32::try_from(row) {
            self.begin_rows[index] = number;
        }
        Ok(row)
    }

    // Whether the row is that one.
    fn is_begin_row<W: WordClass>(
        &self,
        plan: &Plan<'_, W>,
        row: usize,
        backward: bool,
        mode: &Anchored,
        begins: bool,
        read: Option<u8>,
        list: &[StateID],
    ) -> bool
        ensures { result ≡ true → IsPassRow plan.now.classes self.now.rows.items row backward mode.now begins None read list.now }
    {
        if row >= self.rows.len() {
            return false;
        }
        let there = &self.rows[row];
        if there.backward != backward {
            return false;
        }
        if there.mode != *mode {
            return false;
        }
        if there.begins != begins {
            return false;
        }
        if !is_same_pattern(&there.found, &None) {
            return false;
        }
        if !are_alike(&plan.classes, read, there.read) {
            return false;
        }
        are_same(there.list.as_slice(), list)
    }
}

// The list of these states.
fn list_of(alloc: Global, list: &[StateID]) -> Result<Vec<StateID>, Error>
    ensures same { IfOk result (λ made. made.items ≡ list.now) }
    ensures refused { IfErr result (λ e. e ≡ OutOfMemory) }
{
    Ok(list.iter().copied().collect(alloc)?)
}
