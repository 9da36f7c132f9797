//! The forward pass: it finds the end and the pattern of the leftmost-first match, or of the first match to end.
//!
//! At each position it has a list of states, the preferred ones first, and a scan of the list leads to the next one. The first state of a list from which a
//! match is reached decides which match it is; so the list is cut behind a state that accepts, and the state at which matches begin is last in it, as long as
//! no match was found. The last match found is the leftmost-first one. Before the first one is found no list is cut, so no match ends earlier.
ghost use Rattle.std.specs.Prelude.{◌≡◌, ◌+◌, ◌<◌, ◌≤◌, [], IfOk, IfErr, IfSome, IfNone, true, false, length};
ghost use Rattle.rsc_engine.specs.Searches.{search_in};
ghost use Rattle.rsc_engine.specs.Preferred.{HasNoFirstMatch};
ghost use Rattle.rsc_engine.specs.RowsLayout.{machine, IsPlan};
ghost use Rattle.rsc_engine.specs.PassTableLayout.{IsPassTable};
ghost use Rattle.rsc_engine.specs.OrderedLayout.{IsEndOf};
ghost use Rattle.rsc_engine.specs.Ends.{IsEarliestEnd};
ghost use Rattle.rsc_engine.specs.declared.error.Error.TheVariants.{OutOfMemory};

use super::lawful::steps_are_lawful;
use super::pass_table::PassTable;
use super::plan::{Plan, before_of};
use crate::Error;
use rsc_look::WordClass;
use rsc_primitives::PatternID;
use rsc_search::Input;

/// The pattern of the leftmost-first match in an input's span, and where it ends; or of the first match to end, if that is the one that is sought. `None` if no
/// match begins where one may. The second part is the position at which the pass stopped.
pub(crate) fn first_end<W: WordClass>(
    plan: &Plan<'_, W>,
    table: &mut PassTable,
    input: &Input<'_>,
    earliest: bool,
) -> Result<(Option<(PatternID, usize)>, usize), Error>
    requires plan { IsPlan (machine W.word_chars plan.now.program.now) plan.now.classes plan.now.width plan.now.unicode }
    requires exact { IsPassTable (machine W.word_chars plan.now.program.now) plan.now.classes plan.now.width plan.now.most_rows
        table.old.rows.items table.old.leads.items table.old.beyond.items }
    ensures exact { IsPassTable (machine W.word_chars plan.now.program.now) plan.now.classes plan.now.width plan.now.most_rows
        table.new.rows.items table.new.leads.items table.new.beyond.items }
    ensures found { earliest ≡ false → IfOk result (λ r. IfSome r.0 (λ f. IsEndOf (search_in W.word_chars plan.now.program.now input.now) f.0 f.1)) }
    ensures earliest { earliest ≡ true → IfOk result (λ r. IfSome r.0 (λ f. IsEarliestEnd (search_in W.word_chars plan.now.program.now input.now) f.1)) }
    ensures none { IfOk result (λ r. IfNone r.0 (HasNoFirstMatch (search_in W.word_chars plan.now.program.now input.now))) }
    ensures refused { IfErr result (λ e. e ≡ OutOfMemory) }
{
    let start = input.start();
    let end = input.end();
    if start > end {
        return Ok((None, start));
    }
    let mode = input.get_anchored();
    let begins = !mode.is_anchored();
    let before = before_of(input.haystack(), start);
    let mut row = table.forward_row(plan, &mode, begins, before)?;
    let mut at = start;
    let mut last = None;
    'rows: loop {
        let (here, position, found) = table.follow(plan, input, row, at, last, earliest);
        let (next, now) = table.step(plan, input, here, position, found)?;
        if position == end {
            return Ok((now, position));
        }
        if table.is_final(next) {
            return Ok((now, position));
        }
        if earliest && table.has_found(next) {
            return Ok((now, position));
        }
        row = next;
        at = position + 1;
        last = now;
    }
}
