//! The faults of a group list besides repeated names. They are found in one pass, which takes no memory and compares no names.
ghost use Rattle.std.specs.Prelude.{◌≡◌, ◌+◌, ◌*◌, ◌<◌, ◌≤◌, length, Some, None, IfOk, IfErr, MatchOption};
ghost use Rattle.std.specs.Bool.{MatchBool};
ghost use Rattle.rsc_captures.specs.Groups.{lists_in, group_count};
ghost use Rattle.rsc_primitives.specs.Indices.{max_index};
ghost use Rattle.rsc_captures.specs.Faults.{TooManyGroups, pattern_fault};
ghost use Rattle.rsc_captures.specs.FaultsLayout.{HasNoOtherFault, IsFirstOther};

use crate::error::{GroupInfoError, GroupInfoErrorKind};
use rsc_primitives::PatternID;
use std::alloc::Allocator;

/// The first group with a fault that is no repeated name, and that fault. The group is given as its pattern and its index; the
/// limit on the slots of all groups counts as a pattern after the last.
pub(crate) fn first_other_fault<A: Allocator>(
    limit: usize,
    lists: &[&[Option<&str>]],
) -> Option<((usize, usize), GroupInfoError<A>)>
    requires { limit ≤ max_index }
    ensures { MatchOption result (HasNoOtherFault limit (lists_in lists.now))
        (λ found. IsFirstOther limit (lists_in lists.now) found.0.0 found.0.1 found.1) }
{
    let mut before = 0;
    // How many patterns have their slots within the limit.
    let mut within = 0;
    for p in 0..lists.len() {
        let pattern = match check_pattern(lists, p) {
            Ok(pattern) => pattern,
            Err(fault) => return Some(((p, 0), fault)),
        };
        let explicit = lists[p].len() - 1;
        let room = limit / 2 - before;
        if explicit > room {
            return Some(((p, room + 1), too_many_groups(pattern, room + 1)));
        }
        before += explicit;
        if within == p && are_within(limit, before, lists.len()) {
            within += 1;
        }
    }
    if within == lists.len() {
        return None;
    }
    let fault = too_many_groups(PatternID::must(within), lists[within].len());
    Some(((lists.len(), 0), fault))
}

// Looks at a pattern as a whole.
fn check_pattern<A: Allocator>(
    lists: &[&[Option<&str>]],
    p: usize,
) -> Result<PatternID, GroupInfoError<A>>
    requires { p < length lists.now }
    ensures ok { IfOk result (λ pattern. (pattern ≡ p) × (pattern_fault (lists_in lists.now) p ≡ None) × (0 < group_count (lists_in lists.now) p)) }
    ensures refused { IfErr result (λ e. MatchOption e ⊥ (λ fault. pattern_fault (lists_in lists.now) p ≡ Some fault)) }
{
    let pattern = match PatternID::new(p) {
        Ok(pattern) => pattern,
        Err(err) => return Err(GroupInfoError::new(GroupInfoErrorKind::TooManyPatterns { err })),
    };
    match lists[p].first() {
        None => Err(GroupInfoError::new(GroupInfoErrorKind::MissingGroups { pattern })),
        Some(Some(_)) => Err(GroupInfoError::new(GroupInfoErrorKind::FirstMustBeUnnamed {
            pattern,
        })),
        Some(None) => Ok(pattern),
    }
}

// The refusal of a pattern that has too many groups.
fn too_many_groups<A: Allocator>(pattern: PatternID, minimum: usize) -> GroupInfoError<A>
    ensures { result ≡ Some (TooManyGroups pattern minimum) }
{
    GroupInfoError::new(GroupInfoErrorKind::TooManyGroups { pattern, minimum })
}

// Whether the slots of both numbers of groups are within the limit.
fn are_within(limit: usize, explicit: usize, first: usize) -> bool
    requires { 2 * explicit ≤ limit }
    ensures { MatchBool result (2 * explicit + 2 * first ≤ limit) (limit < 2 * explicit + 2 * first) }
{
    first <= limit / 2 - explicit
}
