//! The entries of the table of both passes, and what they are compared by.
ghost use Rattle.std.specs.Prelude.{◌≡◌, ◌+◌, ◌*◌, ◌<◌, ◌≤◌, ◌⊎◌, ℕ, IfErr, IfSome, OnOk, Some, None, true, length, slice_index_or};
ghost use Rattle.rsc_engine.specs.declared.error.Error.TheVariants.{OutOfMemory};
ghost use Rattle.rsc_engine.specs.RowsLayout.{Alike, IsPlan, machine};
ghost use Rattle.rsc_engine.specs.PassTableLayout.{column};
ghost use Rattle.rsc_engine.specs.declared.dfa.entries.Lead.TheVariants.{Unknown};

use super::plan::Plan;
use crate::Error;
use rsc_alphabet::ByteClasses;
use rsc_look::WordClass;
use rsc_primitives::StateID;
use rsc_search::Anchored;
use std::alloc::Global;

/// An entry: where a unit leads from a row, if that is known.
#[derive(Clone, Copy)]
pub(crate) enum Lead {
    /// It isn't known.
    Unknown,
    /// The unit leads to the row, which knows of no match.
    To(u32),
    /// The unit leads to the row, which may know of a match, or have no state. There are three variants, so that no step needs a table of jumps.
    WithMatch(u32),
}

/// Where the entry of a row and a unit is, in a table of that many rows and entries.
#[inline(always)]
pub(crate) fn entry_index<W: WordClass>(
    plan: &Plan<'_, W>,
    row: usize,
    unit: Option<u8>,
    rows: usize,
    len: usize,
) -> usize
    requires plan { IsPlan (machine W.word_chars plan.now.program.now) plan.now.classes plan.now.width plan.now.unicode }
    requires row { row < rows }
    requires room { rows * plan.now.width ≤ len }
    ensures value { result ≡ row * plan.now.width + column plan.now.classes unit }
    ensures within { result < len }
{
    let in_row = plan.column(unit);
    row * plan.width + in_row
}

/// Puts unknown entries at the end of the list, until it has that many.
pub(crate) fn widen(leads: &mut Vec<Lead>, len: usize) -> Result<(), Error>
    ensures same { (i : ℕ) → slice_index_or leads.new.items i Unknown ≡ slice_index_or leads.old.items i Unknown }
    ensures longer { length leads.old.items ≤ length leads.new.items }
    ensures room { OnOk result (len ≤ length leads.new.items) }
    ensures refused { IfErr result (λ e. e ≡ OutOfMemory) }
{
    'entries: while leads.len() < len {
        leads.push(Lead::Unknown)?;
    }
    Ok(())
}

/// What a row is found by.
pub(crate) fn key_of(
    alloc: Global,
    classes: &ByteClasses,
    mode: &Anchored,
    before: Option<u8>,
    set: &[StateID],
) -> Result<Vec<u32>, Error>
    ensures refused { IfErr result (λ e. e ≡ OutOfMemory) }
{
    let mut key = Vec::with_capacity(alloc, set.len())?;
    key.push(match mode {
        Anchored::No => 0,
        Anchored::Yes => 1,
        Anchored::Pattern(_) => 2,
    })?;
    if let Some(pattern) = mode.pattern() {
        key.push(pattern.as_u32())?;
    }
    key.push(match before {
        Some(byte) => u32::from(classes.get(byte)),
        None => 256,
    })?;
    for sid in set {
        key.push(sid.as_u32())?;
    }
    Ok(key)
}

/// Whether two bytes, or no bytes, have one class.
pub(crate) fn are_alike(classes: &ByteClasses, one: Option<u8>, other: Option<u8>) -> bool
    ensures { result ≡ true → Alike classes.now one other }
{
    match one {
        None => match other {
            None => true,
            Some(_) => false,
        },
        Some(one) => match other {
            None => false,
            Some(other) => classes.get(one) == classes.get(other),
        },
    }
}

/// Whether two sets are one list.
pub(crate) fn are_same(one: &[StateID], other: &[StateID]) -> bool
    ensures { result ≡ true → one.now ≡ other.now }
{
    one == other
}

/// For the prover: a byte is below 256. Nothing is done.
pub(crate) fn is_byte(unit: Option<u8>)
    ensures { IfSome unit (λ b. b < 256) }
{
    match unit {
        Some(_) => {}
        None => {}
    }
}
