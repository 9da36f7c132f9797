//! The entries of the table of both passes, and what its rows are found by.
ghost use Rattle.std.specs.Prelude.{◌≡◌, ◌⊎◌, IfErr, IfSome, Some, None, true, false};
ghost use Rattle.rsc_engine.specs.declared.error.Error.TheVariants.{OutOfMemory};
ghost use Rattle.rsc_engine.specs.PassTableLayout.{row_of, plain_row_of};

use super::entries::{Lead, key_of};
use super::pass_table::PassRow;
use crate::Error;
use rsc_alphabet::ByteClasses;
use rsc_primitives::PatternID;
use std::alloc::Global;

/// The row to which an entry leads.
pub(crate) fn led_to(lead: Lead) -> Option<usize>
    ensures { result ≡ row_of lead }
{
    match lead {
        Lead::To(row) | Lead::WithMatch(row) => Some(row as usize),
        Lead::Unknown => None,
    }
}

/// The entry that leads to the row, or says nothing.
pub(crate) fn lead_to(row: usize, has_match: bool) -> Lead
    ensures row { (row_of result ≡ None) ⊎ (row_of result ≡ Some row) }
    ensures plain { IfSome (plain_row_of result) (λ next. (next ≡ row) × (has_match ≡ false)) }
{
    match u32::try_from(row) {
        Ok(row) => if has_match {
            Lead::WithMatch(row)
        } else {
            Lead::To(row)
        },
        Err(_) => Lead::Unknown,
    }
}

/// Whether both are one pattern, or both none.
pub(crate) fn is_same_pattern(one: &Option<PatternID>, other: &Option<PatternID>) -> bool
    ensures { result ≡ true → one.now ≡ other.now }
{
    match one {
        None => match other {
            None => true,
            Some(_) => false,
        },
        Some(one) => match other {
            None => false,
            Some(other) => *one == *other,
        },
    }
}

/// What a row is found by.
pub(crate) fn pass_key(
    alloc: Global,
    classes: &ByteClasses,
    row: &PassRow,
) -> Result<Vec<u32>, Error>
    ensures refused { IfErr result (λ e. e ≡ OutOfMemory) }
{
    let mut key = key_of(alloc, classes, &row.mode, row.read, row.list.as_slice())?;
    key.push(u32::from(row.begins) + 2 * u32::from(row.backward))?;
    // As many as patterns have no number.
    key.push(match row.found {
        Some(pattern) => pattern.as_u32(),
        None => u32::MAX,
    })?;
    Ok(key)
}
