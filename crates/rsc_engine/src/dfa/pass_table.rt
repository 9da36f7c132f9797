//! The table of both passes: a row for a list of states and what is known beside it, with an entry for each class and the end of the input.
ghost use Rattle.std.specs.Prelude.{◌≡◌, ◌+◌, ◌*◌, ◌<◌, ◌≤◌, ℕ, List, [], IfOk, IfErr, IfSome, true, false, length, slice_get, Some};
ghost use Rattle.std.specs.BTreeMap.{IsEmpty};
ghost use Rattle.rsc_engine.specs.declared.error.Error.TheVariants.{OutOfMemory};
ghost use Rattle.rsc_engine.specs.RowsLayout.{Machine, machine, AreStates, IsPlan, IsPlainUnit};
ghost use Rattle.rsc_engine.specs.PassTableLayout.{IsPassTable, IsPassRow, IsPassStep, IsPassTo, IsSoundPassRow, IsPassGrown, KnowsNoMatch, AreFew, row_of, plain_row_of};
ghost use Rattle.rsc_engine.specs.declared.dfa.pass_table.PassRow.{PassRow};

use super::beyond::{BeyondStep, step_at};
use super::entries::{Lead, are_alike, are_same, entry_index, is_byte, widen};
use super::near::near_of;
use super::pass_entries::{is_same_pattern, lead_to, led_to, pass_key};
use super::plan::Plan;
use crate::{Error, Program};
use rsc_alphabet::laws::entries_of_a_table_are_apart;
use rsc_look::WordClass;
use rsc_primitives::{PatternID, StateID};
use rsc_search::Anchored;
use std::alloc::Global;
use std::collections::BTreeMap;

/// What a pass knows at a position.
#[derive(Drop)]
pub(crate) struct PassRow {
    /// Whether it's a row of the backward pass.
    pub(crate) backward: bool,
    /// The search's mode.
    pub(crate) mode: Anchored,
    /// Forward: whether matches may begin later. Backward: whether one begins at the position looked at last.
    pub(crate) begins: bool,
    /// Forward: the pattern of a match that ends before the byte read last.
    pub(crate) found: Option<PatternID>,
    /// A byte of the class of the byte that was read last: forward the one before the position, backward the one after it.
    pub(crate) read: Option<u8>,
    /// Forward: the states before any step with no byte, the preferred ones first. Backward: those which arrive over the byte.
    pub(crate) list: Vec<StateID>,
}

/// The rows so far, and what is known of them.
#[derive(Drop)]
pub(crate) struct PassTable {
    pub(crate) alloc: Global,
    pub(crate) rows: Vec<PassRow>,
    // For each row and column where it leads.
    pub(crate) leads: Vec<Lead>,
    // Steps beside bytes above 7F, each where its number says.
    pub(crate) beyond: Vec<Option<BeyondStep>>,
    // For each row's key the row. No clause speaks of it, since the row that is found is compared.
    by_key: BTreeMap<Vec<u32>, usize>,
    // The rows in which passes began, once one did. No clause speaks of them either.
    pub(crate) begin_rows: Vec<u32>,
}

impl PassTable {
    /// The table with no rows.
    pub(crate) fn new(alloc: Global) -> PassTable
        ensures rows { result.rows.items ≡ [] }
        ensures leads { result.leads.items ≡ [] }
        ensures beyond { result.beyond.items ≡ [] }
    {
        PassTable {
            alloc,
            rows: Vec::new(alloc),
            leads: Vec::new(alloc),
            beyond: Vec::new(alloc),
            by_key: BTreeMap::new(alloc),
            begin_rows: Vec::new(alloc),
        }
    }

    /// Where a byte leads from a row, if it is known.
    #[inline(always)]
    pub(crate) fn lead_of<W: WordClass>(&self, plan: &Plan<'_, W>, row: usize, byte: u8) -> Lead
        requires plan { IsPlan (machine W.word_chars plan.now.program.now) plan.now.classes plan.now.width plan.now.unicode }
        requires exact { IsPassTable (machine W.word_chars plan.now.program.now) plan.now.classes plan.now.width plan.now.most_rows
            self.now.rows.items self.now.leads.items self.now.beyond.items }
        requires row { row < length self.now.rows.items }
        ensures row { IfSome (row_of result) (IsPassTo (machine W.word_chars plan.now.program.now) plan.now.classes
            self.now.rows.items self.now.rows.items row (Some byte)) }
        ensures plain { IfSome (plain_row_of result) (λ next. KnowsNoMatch (slice_get self.now.rows.items next)) }
    {
        let entry = entry_index(plan, row, Some(byte), self.rows.len(), self.leads.len());
        self.leads[entry]
    }

    /// What is known of a row and a unit.
    pub(crate) fn look_up<W: WordClass>(
        &self,
        plan: &Plan<'_, W>,
        row: usize,
        unit: Option<u8>,
    ) -> Option<usize>
        requires plan { IsPlan (machine W.word_chars plan.now.program.now) plan.now.classes plan.now.width plan.now.unicode }
        requires exact { IsPassTable (machine W.word_chars plan.now.program.now) plan.now.classes plan.now.width plan.now.most_rows
            self.now.rows.items self.now.leads.items self.now.beyond.items }
        requires row { row < length self.now.rows.items }
        ensures { IfSome result (IsPassTo (machine W.word_chars plan.now.program.now) plan.now.classes self.now.rows.items self.now.rows.items row unit) }
    {
        is_byte(unit);
        let entry = entry_index(plan, row, unit, self.rows.len(), self.leads.len());
        led_to(self.leads[entry])
    }

    /// Where a unit leads from a row, made from the row's list and the two bytes, and kept.
    pub(crate) fn make<W: WordClass>(
        &mut self,
        plan: &Plan<'_, W>,
        row: usize,
        unit: Option<u8>,
    ) -> Result<usize, Error>
        requires plan { IsPlan (machine W.word_chars plan.now.program.now) plan.now.classes plan.now.width plan.now.unicode }
        requires exact { IsPassTable (machine W.word_chars plan.now.program.now) plan.now.classes plan.now.width plan.now.most_rows
            self.old.rows.items self.old.leads.items self.old.beyond.items }
        requires row { row < length self.old.rows.items }
        requires read { (from : PassRow) → slice_get self.old.rows.items row ≡ Some from → IsPlainUnit (machine W.word_chars plan.now.program.now) from.read }
        requires plain { IsPlainUnit (machine W.word_chars plan.now.program.now) unit }
        ensures exact { IsPassTable (machine W.word_chars plan.now.program.now) plan.now.classes plan.now.width plan.now.most_rows
            self.new.rows.items self.new.leads.items self.new.beyond.items }
        ensures step { IfOk result (IsPassTo (machine W.word_chars plan.now.program.now) plan.now.classes
            self.old.rows.items self.new.rows.items row unit) }
        ensures kept { IfOk result (λ _. length self.old.rows.items < plan.now.most_rows → IsPassGrown self.old.rows.items self.new.rows.items) }
        ensures refused { IfErr result (λ e. e ≡ OutOfMemory) }
    {
        is_byte(unit);
        let from = &self.rows[row];
        let backward = from.backward;
        let mode = from.mode;
        let (found, begins, list) = step_beside(self.alloc, plan.program, from, unit)?;
        let next_row = PassRow {
            backward,
            mode,
            begins,
            found,
            read: unit,
            list,
        };
        let made = self.row_of(plan, next_row)?;
        let next = made.0;
        if made.1 {
            self.record(plan, row, unit, next);
        }
        Ok(next)
    }

    // Records where a unit leads.
    fn record<W: WordClass>(
        &mut self,
        plan: &Plan<'_, W>,
        row: usize,
        unit: Option<u8>,
        next: usize,
    )
        requires plan { IsPlan (machine W.word_chars plan.now.program.now) plan.now.classes plan.now.width plan.now.unicode }
        requires exact { IsPassTable (machine W.word_chars plan.now.program.now) plan.now.classes plan.now.width plan.now.most_rows
            self.old.rows.items self.old.leads.items self.old.beyond.items }
        requires row { row < length self.old.rows.items }
        requires step { IsPassTo (machine W.word_chars plan.now.program.now) plan.now.classes self.old.rows.items self.old.rows.items row unit next }
        ensures exact { IsPassTable (machine W.word_chars plan.now.program.now) plan.now.classes plan.now.width plan.now.most_rows
            self.new.rows.items self.new.leads.items self.new.beyond.items }
        ensures rows { self.new.rows.items ≡ self.old.rows.items }
    {
        entries_of_a_table_are_apart();
        is_byte(unit);
        let entry = entry_index(plan, row, unit, self.rows.len(), self.leads.len());
        self.leads[entry] = lead_to(next, self.has_match(next));
    }

    // Whether a row knows of a match that ends before the byte read last, or in the backward pass begins after it; or has no state.
    fn has_match(&self, row: usize) -> bool
        ensures { result ≡ false → KnowsNoMatch (slice_get self.now.rows.items row) }
    {
        if row >= self.rows.len() {
            return false;
        }
        let there = &self.rows[row];
        if there.list.is_empty() || (there.backward && there.begins) {
            return true;
        }
        match there.found {
            Some(_) => true,
            None => false,
        }
    }

    /// Where a row is: one that is there, or this new one. The second part is false if the table was cleared.
    pub(crate) fn row_of<W: WordClass>(
        &mut self,
        plan: &Plan<'_, W>,
        row: PassRow,
    ) -> Result<(usize, bool), Error>
        requires exact { IsPassTable (machine W.word_chars plan.now.program.now) plan.now.classes plan.now.width plan.now.most_rows
            self.old.rows.items self.old.leads.items self.old.beyond.items }
        requires sound { IsSoundPassRow (machine W.word_chars plan.now.program.now) row }
        ensures exact { IsPassTable (machine W.word_chars plan.now.program.now) plan.now.classes plan.now.width plan.now.most_rows
            self.new.rows.items self.new.leads.items self.new.beyond.items }
        ensures row { IfOk result (λ made. IsPassRow plan.now.classes self.new.rows.items made.0 row.backward row.mode row.begins
            row.found row.read row.list.items) }
        ensures grows { IfOk result (λ made. made.1 ≡ true → IsPassGrown self.old.rows.items self.new.rows.items) }
        ensures kept { IfOk result (λ made. length self.old.rows.items < plan.now.most_rows → made.1 ≡ true) }
        ensures refused { IfErr result (λ e. e ≡ OutOfMemory) }
    {
        let key = pass_key(self.alloc, &plan.classes, &row)?;
        if let Some(index) = self.by_key.get(&key).copied() {
            if self.is_row(plan, index, &row) {
                return Ok((index, true));
            }
        }
        let kept = self.rows.len() < plan.most_rows;
        if !kept {
            self.clear();
        }
        let index = self.add_row(plan, key, row)?;
        Ok((index, kept))
    }

    // Whether the row there is this one.
    fn is_row<W: WordClass>(&self, plan: &Plan<'_, W>, index: usize, row: &PassRow) -> bool
        ensures { result ≡ true → IsPassRow plan.now.classes self.now.rows.items index row.now.backward row.now.mode row.now.begins row.now.found
            row.now.read row.now.list.items }
    {
        if index >= self.rows.len() {
            return false;
        }
        let there = &self.rows[index];
        if there.backward != row.backward {
            return false;
        }
        if there.mode != row.mode {
            return false;
        }
        if there.begins != row.begins {
            return false;
        }
        if !is_same_pattern(&there.found, &row.found) {
            return false;
        }
        if !are_alike(&plan.classes, row.read, there.read) {
            return false;
        }
        are_same(there.list.as_slice(), row.list.as_slice())
    }

    /// Takes all rows out, if there are more than that many.
    pub(crate) fn keep_at_most(&mut self, most_rows: usize)
        ensures { (m : Machine) (classes : List ℕ) (width most : ℕ)
            → IsPassTable m classes width most self.old.rows.items self.old.leads.items self.old.beyond.items
            → IsPassTable m classes width most_rows self.new.rows.items self.new.leads.items self.new.beyond.items }
    {
        if self.rows.len() > most_rows {
            self.clear();
        }
    }

    // Takes all rows out.
    fn clear(&mut self)
        ensures rows { self.new.rows.items ≡ [] }
        ensures leads { self.new.leads.items ≡ [] }
        ensures beyond { self.new.beyond.items ≡ [] }
        ensures empty { IsEmpty self.new.by_key }
    {
        self.rows.clear();
        self.leads.clear();
        self.beyond.clear();
        self.by_key.clear();
    }

    // Adds a row.
    fn add_row<W: WordClass>(
        &mut self,
        plan: &Plan<'_, W>,
        key: Vec<u32>,
        row: PassRow,
    ) -> Result<usize, Error>
        requires exact { IsPassTable (machine W.word_chars plan.now.program.now) plan.now.classes plan.now.width plan.now.most_rows
            self.old.rows.items self.old.leads.items self.old.beyond.items }
        requires room { AreFew plan.now.most_rows (length self.old.rows.items + 1) }
        requires sound { IsSoundPassRow (machine W.word_chars plan.now.program.now) row }
        ensures exact { IsPassTable (machine W.word_chars plan.now.program.now) plan.now.classes plan.now.width plan.now.most_rows
            self.new.rows.items self.new.leads.items self.new.beyond.items }
        ensures row { IfOk result (λ index. IsPassRow plan.now.classes self.new.rows.items index row.backward row.mode row.begins
            row.found row.read row.list.items) }
        ensures grows { IsPassGrown self.old.rows.items self.new.rows.items }
        ensures refused { IfErr result (λ e. e ≡ OutOfMemory) }
    {
        is_byte(row.read);
        let index = self.rows.len();
        self.by_key.insert(key, index)?;
        widen(&mut self.leads, index * plan.width + plan.width)?;
        self.rows.push(row)?;
        Ok(index)
    }
}

// What a unit makes of a row, beside the byte read last: forward the pattern of a match before the unit, whether matches may begin later, and the next list;
// backward whether a match begins there, and the next list.
fn step_beside<W: WordClass>(
    alloc: Global,
    program: &Program<W>,
    from: &PassRow,
    unit: Option<u8>,
) -> Result<(Option<PatternID>, bool, Vec<StateID>), Error>
    requires { IsSoundPassRow (machine W.word_chars program.now) from.now }
    ensures step { IfOk result (λ r. IsPassStep (machine W.word_chars program.now) from.now.mode from.now.backward from.now.read from.now.begins
        from.now.list.items unit r.0 r.1 r.2.items) }
    ensures states { IfOk result (λ r. AreStates (length program.now.automaton.states) r.2.items) }
    ensures refused { IfErr result (λ e. e ≡ OutOfMemory) }
{
    if from.backward {
        let near = near_of(alloc, unit, from.read)?;
        let at = usize::from(unit.is_some());
        return step_at(alloc, program, from, near.as_slice(), at);
    }
    let near = near_of(alloc, from.read, unit)?;
    let at = usize::from(from.read.is_some());
    step_at(alloc, program, from, near.as_slice(), at)
}
