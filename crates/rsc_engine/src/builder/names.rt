//! The names of groups.
ghost use Rattle.std.specs.Prelude.{◌≡◌, ◌*◌, ◌≤◌, ◌⊎◌, ◌++◌, map, IfOk, IfErr, OnOk};
ghost use Rattle.rsc_primitives.specs.Indices.{max_index};
ghost use Rattle.rsc_captures.specs.Groups.{all_group_count};
ghost use Rattle.rsc_engine.specs.declared.error.Error.TheVariants.{OutOfMemory, RepeatedName};
ghost use Rattle.rsc_engine.specs.Refusals.{RepeatsName, error_of};
ghost use Rattle.rsc_engine.specs.Parts.{groups_as_pattern};

use super::Part;
use crate::Error;
use rsc_captures::{GroupInfo, GroupInfoError, GroupInfoErrorKind};
use std::alloc::Global;

/// The names of a part, and of the part after it.
pub(crate) fn joined<'n>(
    mut names: Vec<Option<&'n str>>,
    mut more: Vec<Option<&'n str>>,
) -> Result<Vec<Option<&'n str>>, Error>
    ensures joined { IfOk result (λ all. all.items ≡ names.entry.items ++ more.entry.items) }
    ensures refused { IfErr result (λ e. e ≡ OutOfMemory) }
{
    names.append(&mut more)?;
    Ok(names)
}

/// The groups of all patterns: of each that of the whole match, which has no name, and then its own.
pub(crate) fn info_of(alloc: Global, patterns: &[Part<'_>]) -> Result<GroupInfo, Error>
    requires { 2 * all_group_count (map groups_as_pattern patterns.now) ≤ max_index }
    ensures groups { IfOk result (λ info. info ≡ map groups_as_pattern patterns.now) }
    ensures names_differ { OnOk result (¬ (RepeatsName (map groups_as_pattern patterns.now))) }
    ensures refused { IfErr result (λ e. (e ≡ OutOfMemory) ⊎ ((e ≡ RepeatedName) × RepeatsName (map groups_as_pattern patterns.now))) }
{
    let mut all = Vec::new(alloc);
    for part in patterns {
        let mut names = Vec::new(alloc);
        names.push(None)?;
        names.extend_from_slice(&part.names)?;
        all.push(names)?;
    }
    let mut lists = Vec::new(alloc);
    for names in &all {
        lists.push(names.as_slice())?;
    }
    match GroupInfo::new(alloc, lists.as_slice()) {
        Err(fault) => Err(refusal_of(&fault)),
        Ok(info) => Ok(info),
    }
}

// Why there is no group info.
fn refusal_of(fault: &GroupInfoError) -> Error
    ensures { result ≡ error_of fault.now }
{
    match fault.kind() {
        GroupInfoErrorKind::OutOfMemory => Error::OutOfMemory,
        GroupInfoErrorKind::Duplicate { .. } => Error::RepeatedName,
        // The last two don't come, since `info_of` begins each pattern with a group that has no name.
        GroupInfoErrorKind::TooManyPatterns { .. }
        | GroupInfoErrorKind::TooManyGroups { .. }
        | GroupInfoErrorKind::MissingGroups { .. }
        | GroupInfoErrorKind::FirstMustBeUnnamed { .. } => Error::TooLarge,
    }
}
