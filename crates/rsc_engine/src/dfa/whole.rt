//! The match alone, for captures without a slot of a group within it: its ends are all that is recorded.
ghost use Rattle.std.specs.Prelude.{◌≡◌, ◌+◌, ◌*◌, ◌<◌, ◌≤◌, ◌^◌, ℕ, Some, None, IfOk, IfErr, OnErr, true, length, slice_index_or, if◌then◌else◌, ◌==◌};
ghost use Rattle.rsc_primitives.specs.Indices.{max_index};
ghost use Rattle.rsc_engine.specs.declared.error.Error.TheVariants.{OutOfMemory};
ghost use Rattle.rsc_engine.specs.Searches.{search_in};
ghost use Rattle.rsc_engine.specs.RowsLayout.{machine, IsPlan};
ghost use Rattle.rsc_engine.specs.GroupEnds.{RecordsEnds};
ghost use Rattle.rsc_engine.specs.GroupsLayout.{AreEmpty, HoldEnds};
ghost use Rattle.rsc_engine.specs.Preferred.{IsFirstMatch, IsCleared, IsInSpan};
ghost use Rattle.rsc_engine.specs.OrderedLayout.{IsEndOf};
ghost use Rattle.rsc_engine.specs.PassTableLayout.{IsPassTable};
ghost use Rattle.rsc_engine.specs.BackwardLayout.{IsStartOf};

use super::backward::first_start;
use super::pass_table::PassTable;
use super::plan::Plan;
use crate::{Error, Program};
use rsc_captures::Captures;
use rsc_look::WordClass;
use rsc_primitives::{NonMaxUsize, PatternID};
use rsc_search::{Input, Match, Span};

/// Whether a match of the program records nothing but its ends in these captures.
pub(crate) fn records_only_ends<W: WordClass>(program: &Program<W>, captures: &Captures) -> bool
    ensures ends { result ≡ true → RecordsEnds W.word_chars program.now }
    ensures few { result ≡ true → length captures.now.offsets ≤ 2 * length program.now.automaton.groups }
{
    let most = program.nfa().group_info().implicit_slot_len();
    captures.slots().len() <= most && program.records_ends()
}

/// The leftmost-first match, which is of a pattern and ends at a position. Its ends are in the captures afterwards, in which no slot is set before.
pub(crate) fn match_whole<W: WordClass>(
    plan: &Plan<'_, W>,
    table: &mut PassTable,
    log: &mut Vec<u32>,
    input: &Input<'_>,
    pattern: PatternID,
    end: usize,
    captures: &mut Captures,
) -> Result<Match, Error>
    requires plan { IsPlan (machine W.word_chars plan.now.program.now) plan.now.classes plan.now.width plan.now.unicode }
    requires numbered { length plan.now.program.now.automaton.states ≤ max_index }
    requires exact { IsPassTable (machine W.word_chars plan.now.program.now) plan.now.classes plan.now.width plan.now.most_rows
        table.old.rows.items table.old.leads.items table.old.beyond.items }
    requires room { plan.now.most_rows ≡ usize.MAX }
    requires end { IsEndOf (search_in W.word_chars plan.now.program.now input.now) pattern end }
    requires ends { RecordsEnds W.word_chars plan.now.program.now }
    requires few { length captures.old.offsets ≤ 2 * length plan.now.program.now.automaton.groups }
    requires cleared { IsCleared captures.old captures.old }
    ensures exact { IsPassTable (machine W.word_chars plan.now.program.now) plan.now.classes plan.now.width plan.now.most_rows
        table.new.rows.items table.new.leads.items table.new.beyond.items }
    ensures found { IfOk result (IsFirstMatch (search_in W.word_chars plan.now.program.now input.now) captures.new) }
    ensures within { IfOk result (IsInSpan input.now) }
    ensures kept_groups { captures.new.groups ≡ captures.old.groups }
    ensures kept_slots { length captures.new.offsets ≡ length captures.old.offsets }
    ensures cleared_by_error { OnErr result (IsCleared captures.old captures.new) }
    ensures refused { IfErr result (λ e. e ≡ OutOfMemory) }
{
    // For the prover: positions up to the input's end, plus one, fit.
    let _end = input.end();
    let start = start_of(plan, table, log, input, pattern, end)?;
    let span = Span { start, end };
    set_ends(captures.slots_mut(), pattern, &span);
    captures.set_pattern(Some(pattern));
    Ok(Match::new(pattern, span))
}

// Where the match begins: at the span's start, if it must.
fn start_of<W: WordClass>(
    plan: &Plan<'_, W>,
    table: &mut PassTable,
    log: &mut Vec<u32>,
    input: &Input<'_>,
    pattern: PatternID,
    end: usize,
) -> Result<usize, Error>
    requires plan { IsPlan (machine W.word_chars plan.now.program.now) plan.now.classes plan.now.width plan.now.unicode }
    requires numbered { length plan.now.program.now.automaton.states ≤ max_index }
    requires exact { IsPassTable (machine W.word_chars plan.now.program.now) plan.now.classes plan.now.width plan.now.most_rows
        table.old.rows.items table.old.leads.items table.old.beyond.items }
    requires end { IsEndOf (search_in W.word_chars plan.now.program.now input.now) pattern end }
    requires room { plan.now.most_rows ≡ usize.MAX }
    ensures exact { IsPassTable (machine W.word_chars plan.now.program.now) plan.now.classes plan.now.width plan.now.most_rows
        table.new.rows.items table.new.leads.items table.new.beyond.items }
    ensures start { IfOk result (IsStartOf (search_in W.word_chars plan.now.program.now input.now) pattern end) }
    ensures refused { IfErr result (λ e. e ≡ OutOfMemory) }
{
    if input.get_anchored().is_anchored() {
        return Ok(input.start());
    }
    first_start(plan, table, input, pattern, end, log)
}

// Writes the ends of a match into slots of which none is set.
fn set_ends(slots: &mut [Option<NonMaxUsize>], pattern: PatternID, span: &Span)
    requires start { span.now.start + 1 < 2 ^ 64 }
    requires end { span.now.end + 1 < 2 ^ 64 }
    requires empty { AreEmpty slots.old }
    ensures { HoldEnds pattern span.now slots.new }
{
    let first = 2 * pattern.as_usize();
    set_slot(slots, first, span.start);
    set_slot(slots, first + 1, span.end);
}

/// Writes a position into a slot, if it's there.
pub(crate) fn set_slot(slots: &mut [Option<NonMaxUsize>], slot: usize, at: usize)
    requires { at + 1 < 2 ^ 64 }
    ensures written { (s : ℕ) → s < length slots.new → slice_index_or slots.new s None ≡ (if slot == s then Some at else slice_index_or slots.old s None) }
    ensures len { length slots.new ≡ length slots.old }
{
    if slot < slots.len() {
        slots[slot] = NonMaxUsize::new(at);
    }
}
