//! The backward pass: it finds where the leftmost-first match begins, from where it ends.
//!
//! At each position it has the states from which a step over the byte leads to where a match is reached, in the part of the span up to that end: none at the
//! end, and the others come from the position after them. A state that leads with no byte to one of these arrives too, and so does a match itself. So does the
//! start state wherever a match begins; and the least of these positions is where the leftmost-first match does.
ghost use Rattle.std.specs.Prelude.{◌≡◌, ◌+◌, ◌≤◌, ◌++◌, ◌∷◌, [], IfOk, IfErr, OnOk, true, false, length};
ghost use Rattle.rsc_primitives.specs.Indices.{max_index};
ghost use Rattle.rsc_engine.specs.Searches.{search_in};
ghost use Rattle.rsc_engine.specs.RowsLayout.{machine, IsPlan};
ghost use Rattle.rsc_engine.specs.PassTableLayout.{IsPassTable};
ghost use Rattle.rsc_engine.specs.OrderedLayout.{IsEndOf};
ghost use Rattle.rsc_engine.specs.ForwardLayout.{search_up_to};
ghost use Rattle.rsc_engine.specs.BackwardLayout.{IsStartOf};
ghost use Rattle.rsc_engine.specs.LogLayout.{IsLogged, IsLoggedFirst};
ghost use Rattle.rsc_engine.specs.declared.error.Error.TheVariants.{OutOfMemory};

use super::pass_table::PassTable;
use super::plan::{Plan, after_of};
use crate::Error;
use rsc_look::WordClass;
use rsc_primitives::PatternID;
use rsc_search::{Input, Span};

/// Where the leftmost-first match in an input's span begins, which is of a pattern and ends at a position. The log names the rows of the positions from the
/// match's end back, at least to where it begins; no row is dropped.
pub(crate) fn first_start<W: WordClass>(
    plan: &Plan<'_, W>,
    table: &mut PassTable,
    input: &Input<'_>,
    pattern: PatternID,
    end: usize,
    log: &mut Vec<u32>,
) -> Result<usize, Error>
    requires plan { IsPlan (machine W.word_chars plan.now.program.now) plan.now.classes plan.now.width plan.now.unicode }
    requires numbered { length plan.now.program.now.automaton.states ≤ max_index }
    requires exact { IsPassTable (machine W.word_chars plan.now.program.now) plan.now.classes plan.now.width plan.now.most_rows
        table.old.rows.items table.old.leads.items table.old.beyond.items }
    requires end { IsEndOf (search_in W.word_chars plan.now.program.now input.now) pattern end }
    requires room { plan.now.most_rows ≡ usize.MAX }
    ensures exact { IsPassTable (machine W.word_chars plan.now.program.now) plan.now.classes plan.now.width plan.now.most_rows
        table.new.rows.items table.new.leads.items table.new.beyond.items }
    ensures start { IfOk result (IsStartOf (search_in W.word_chars plan.now.program.now input.now) pattern end) }
    ensures log { IfOk result (λ at.
        IsLogged (search_up_to (search_in W.word_chars plan.now.program.now input.now) end) at table.new.rows.items log.new.items) }
    ensures refused { IfErr result (λ e. e ≡ OutOfMemory) }
{
    let part = part_of(input, end);
    go_back(plan, table, &part, false, log)
}

/// The input up to another end of its span.
pub(crate) fn part_of<'h>(input: &Input<'h>, end: usize) -> Input<'h>
    requires low { input.now.span.start ≤ end }
    requires high { end ≤ input.now.span.end }
    ensures haystack { result.haystack ≡ input.now.haystack }
    ensures start { result.span.start ≡ input.now.span.start }
    ensures end { result.span.end ≡ end }
    ensures anchored { result.anchored ≡ input.now.anchored }
{
    let span = Span {
        start: input.start(),
        end,
    };
    Input::new(input.haystack())
        .anchored(input.get_anchored())
        .span(span)
}

/// The input from another start of its span on.
pub(crate) fn part_from<'h>(input: &Input<'h>, start: usize) -> Input<'h>
    requires { start ≤ input.now.span.end + 1 }
    ensures haystack { result.haystack ≡ input.now.haystack }
    ensures start { result.span.start ≡ start }
    ensures end { result.span.end ≡ input.now.span.end }
    ensures anchored { result.anchored ≡ input.now.anchored }
{
    let span = Span {
        start,
        end: input.end(),
    };
    Input::new(input.haystack())
        .anchored(input.get_anchored())
        .span(span)
}

/// Goes back from the span's end, to its start if that is wanted, and at least as far as the leftmost-first match begins, if it ends there: where it begins
/// then. The log names the rows of the positions that were gone back over, from the end on; no row is dropped.
pub(crate) fn go_back<W: WordClass>(
    plan: &Plan<'_, W>,
    table: &mut PassTable,
    input: &Input<'_>,
    all: bool,
    log: &mut Vec<u32>,
) -> Result<usize, Error>
    requires plan { IsPlan (machine W.word_chars plan.now.program.now) plan.now.classes plan.now.width plan.now.unicode }
    requires numbered { length plan.now.program.now.automaton.states ≤ max_index }
    requires exact { IsPassTable (machine W.word_chars plan.now.program.now) plan.now.classes plan.now.width plan.now.most_rows
        table.old.rows.items table.old.leads.items table.old.beyond.items }
    requires room { plan.now.most_rows ≡ usize.MAX }
    requires order { input.now.span.start ≤ input.now.span.end }
    ensures exact { IsPassTable (machine W.word_chars plan.now.program.now) plan.now.classes plan.now.width plan.now.most_rows
        table.new.rows.items table.new.leads.items table.new.beyond.items }
    ensures first { all ≡ false → IfOk result (λ at.
        IsLoggedFirst (search_in W.word_chars plan.now.program.now input.now) at table.new.rows.items log.new.items) }
    ensures whole { all ≡ true → IfOk result (λ _.
        IsLogged (search_in W.word_chars plan.now.program.now input.now) input.now.span.start table.new.rows.items log.new.items) }
    ensures refused { IfErr result (λ e. e ≡ OutOfMemory) }
{
    let start = input.start();
    let end = input.end();
    let mode = input.get_anchored();
    let after = after_of(input.haystack(), end);
    let mut row = table.backward_row(plan, &mode, after)?;
    log.clear();
    add_to_log(log, row)?;
    let mut at = end;
    let mut least = end;
    'rows: loop {
        let (here, position, found) = table.follow_back(plan, input, row, at, least, log)?;
        let (next, now) = table.step_back(plan, input, here, position, found)?;
        add_to_log(log, next)?;
        if position == start {
            return Ok(now);
        }
        if table.is_done(next, all) {
            return Ok(now);
        }
        row = next;
        at = position - 1;
        least = now;
    }
}

/// Adds a row to the log.
#[inline(always)]
pub(crate) fn add_to_log(log: &mut Vec<u32>, row: usize) -> Result<(), Error>
    ensures adds { OnOk result (log.new.items ≡ log.old.items ++ row ∷ []) }
    ensures refused { IfErr result (λ e. e ≡ OutOfMemory) }
{
    // No table has as many rows as have no such number.
    let Ok(row) = u32::try_from(row) else {
        return Err(Error::OutOfMemory);
    };
    Ok(log.push(row)?)
}
