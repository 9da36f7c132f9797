//! Steps beside bytes above 7F where an assertion looks at characters. A step goes by the byte that it reads and by the assertions that hold at its position,
//! whatever characters are there; so it's kept for these, and serves each position like it.
ghost use Rattle.std.specs.Prelude.{◌≡◌, ◌<◌, ◌≤◌, ℕ, List, IfOk, IfErr, IfSome, OnOk, Some, None, true, length, slice_get, slice_index_or};
ghost use Rattle.rsc_engine.specs.declared.error.Error.TheVariants.{OutOfMemory};
ghost use Rattle.rsc_engine.specs.RowsLayout.{Machine, machine, AreStates};
ghost use Rattle.rsc_engine.specs.PassTableLayout.{IsPassTable, IsSoundPassRow, IsPassGrown, IsPassStepAt, AreHolding, unit_at, IsBeyondTo, IsBeyondStep, IsBeyondAt};
ghost use Rattle.rsc_engine.specs.declared.dfa.pass_table.PassRow.{PassRow};

use super::ordered::advance;
use super::pass_table::{PassRow, PassTable};
use super::plan::{Plan, after_of, before_of};
use super::retreat::retreat;
use crate::{Error, Program};
use rsc_look::laws::equality_is_of_the_value;
use rsc_look::{LookSet, WordClass};
use rsc_primitives::{PatternID, StateID};
use rsc_search::Input;
use std::alloc::Global;

// How many steps are kept.
const KEPT: usize = 4096;

/// A step beside a byte above 7F.
#[derive(Clone, Copy)]
pub(crate) struct BeyondStep {
    /// The row from which it leads.
    pub(crate) row: usize,
    /// The byte that it reads, or the end of the input.
    pub(crate) unit: Option<u8>,
    /// The assertions that hold at its position.
    pub(crate) looks: LookSet,
    /// The row to which it leads.
    pub(crate) next: usize,
}

impl PassTable {
    /// The row to which the unit at a position leads from a row: as it's kept for the assertions that hold there, or made from the haystack.
    pub(crate) fn step_beyond<W: WordClass>(
        &mut self,
        plan: &Plan<'_, W>,
        haystack: &[u8],
        at: usize,
        row: usize,
    ) -> Result<usize, Error>
        requires exact { IsPassTable (machine W.word_chars plan.now.program.now) plan.now.classes plan.now.width plan.now.most_rows
            self.old.rows.items self.old.leads.items self.old.beyond.items }
        requires row { row < length self.old.rows.items }
        requires at { at ≤ length haystack.now }
        ensures exact { IsPassTable (machine W.word_chars plan.now.program.now) plan.now.classes plan.now.width plan.now.most_rows
            self.new.rows.items self.new.leads.items self.new.beyond.items }
        ensures step { IfOk result (IsBeyondAt (machine W.word_chars plan.now.program.now) plan.now.classes
            self.old.rows.items self.new.rows.items row haystack.now at) }
        ensures kept { IfOk result (λ _. length self.old.rows.items < plan.now.most_rows → IsPassGrown self.old.rows.items self.new.rows.items) }
        ensures refused { IfErr result (λ e. e ≡ OutOfMemory) }
    {
        let looks = plan.program.nfa().matcher().holding(haystack, at);
        let unit = unit_at(self.rows[row].backward, haystack, at);
        match self.known_beyond(row, unit, looks) {
            Some(next) => Ok(next),
            None => self.make_beyond(plan, haystack, at, row, unit, looks),
        }
    }

    // The row to which a unit is known to lead from a row, where these assertions hold.
    fn known_beyond(&self, row: usize, unit: Option<u8>, looks: LookSet) -> Option<usize>
        ensures { (m : Machine) (classes : List ℕ) (width most : ℕ)
            → IsPassTable m classes width most self.now.rows.items self.now.leads.items self.now.beyond.items
            → IfSome result (IsBeyondTo m classes self.now.rows.items self.now.rows.items row unit looks) }
    {
        equality_is_of_the_value();
        let index = index_of(row, unit, looks);
        if index >= self.beyond.len() {
            return None;
        }
        let step = self.beyond[index]?;
        if step.row == row && step.unit == unit && step.looks == looks {
            Some(step.next)
        } else {
            None
        }
    }

    // Where a unit leads from a row at a position, made from the haystack, and kept for the assertions that hold there.
    fn make_beyond<W: WordClass>(
        &mut self,
        plan: &Plan<'_, W>,
        haystack: &[u8],
        at: usize,
        row: usize,
        unit: Option<u8>,
        looks: LookSet,
    ) -> Result<usize, Error>
        requires exact { IsPassTable (machine W.word_chars plan.now.program.now) plan.now.classes plan.now.width plan.now.most_rows
            self.old.rows.items self.old.leads.items self.old.beyond.items }
        requires row { row < length self.old.rows.items }
        requires at { at ≤ length haystack.now }
        requires unit { (from : PassRow) → slice_get self.old.rows.items row ≡ Some from → unit_at from.backward haystack.now at ≡ unit }
        requires byte { IfSome unit (λ b. b < 256) }
        requires looks { AreHolding (machine W.word_chars plan.now.program.now) haystack.now at looks }
        ensures exact { IsPassTable (machine W.word_chars plan.now.program.now) plan.now.classes plan.now.width plan.now.most_rows
            self.new.rows.items self.new.leads.items self.new.beyond.items }
        ensures step { IfOk result (IsBeyondTo (machine W.word_chars plan.now.program.now) plan.now.classes
            self.old.rows.items self.new.rows.items row unit looks) }
        ensures kept { IfOk result (λ _. length self.old.rows.items < plan.now.most_rows → IsPassGrown self.old.rows.items self.new.rows.items) }
        ensures refused { IfErr result (λ e. e ≡ OutOfMemory) }
    {
        let from = &self.rows[row];
        let backward = from.backward;
        let mode = from.mode;
        let (found, begins, list) = step_at(self.alloc, plan.program, from, haystack, at)?;
        let next_row = PassRow {
            backward,
            mode,
            begins,
            found,
            read: unit,
            list,
        };
        let made = self.row_of(plan, next_row)?;
        let next = made.0;
        if made.1 {
            self.keep_beyond(BeyondStep {
                row,
                unit,
                looks,
                next,
            })?;
        }
        Ok(next)
    }

    // Keeps a step where its number says.
    fn keep_beyond(&mut self, step: BeyondStep) -> Result<(), Error>
        ensures exact { (m : Machine) (classes : List ℕ) (width most : ℕ)
            → IsPassTable m classes width most self.old.rows.items self.old.leads.items self.old.beyond.items
            → IsBeyondStep m classes self.old.rows.items step
            → IsPassTable m classes width most self.new.rows.items self.new.leads.items self.new.beyond.items }
        ensures rows { self.new.rows.items ≡ self.old.rows.items }
        ensures refused { IfErr result (λ e. e ≡ OutOfMemory) }
    {
        fill(&mut self.beyond)?;
        let index = index_of(step.row, step.unit, step.looks);
        self.beyond[index] = Some(step);
        Ok(())
    }
}

// Puts entries without a step at the end of the list, until it has all.
fn fill(steps: &mut Vec<Option<BeyondStep>>) -> Result<(), Error>
    ensures same { (i : ℕ) → slice_index_or steps.new.items i None ≡ slice_index_or steps.old.items i None }
    ensures room { OnOk result (KEPT ≤ length steps.new.items) }
    ensures refused { IfErr result (λ e. e ≡ OutOfMemory) }
{
    'places: while steps.len() < KEPT {
        steps.push(None)?;
    }
    Ok(())
}

// A step's number. Few of the steps that a text asks share one.
fn index_of(row: usize, unit: Option<u8>, looks: LookSet) -> usize
    ensures { result < KEPT }
{
    let byte = match unit {
        Some(byte) => usize::from(byte),
        None => 256,
    };
    (row % KEPT * 269 + byte * 37 + looks.bits() as usize) % 4093
}

// The unit that a pass reads at a position: forward the byte after it, backward the one before it.
fn unit_at(backward: bool, haystack: &[u8], at: usize) -> Option<u8>
    requires { at ≤ length haystack.now }
    ensures value { result ≡ unit_at backward haystack.now at }
    ensures byte { IfSome result (λ b. b < 256) }
{
    if backward {
        before_of(haystack, at)
    } else {
        after_of(haystack, at)
    }
}

/// What a row's list becomes at a position of a haystack: forward the pattern of a match that ends there, whether matches may begin later, and the next list;
/// backward whether a match begins there, and the next list.
pub(crate) fn step_at<W: WordClass>(
    alloc: Global,
    program: &Program<W>,
    from: &PassRow,
    haystack: &[u8],
    at: usize,
) -> Result<(Option<PatternID>, bool, Vec<StateID>), Error>
    requires sound { IsSoundPassRow (machine W.word_chars program.now) from.now }
    requires at { at ≤ length haystack.now }
    ensures step { IfOk result (λ r. IsPassStepAt (machine W.word_chars program.now) from.now.mode from.now.backward haystack.now at from.now.begins
        from.now.list.items r.0 r.1 r.2.items) }
    ensures states { IfOk result (λ r. AreStates (length program.now.automaton.states) r.2.items) }
    ensures refused { IfErr result (λ e. e ≡ OutOfMemory) }
{
    let input = Input::new(haystack).anchored(from.mode);
    let list = from.list.as_slice();
    if from.backward {
        let (begins, next) = retreat(alloc, program, &input, at, list)?;
        return Ok((None, begins, next));
    }
    advance(alloc, program, &input, at, from.begins, list)
}
