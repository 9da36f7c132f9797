//! The commands `groups` and `limited`: the slots of a list of groups, or why it is refused.
ghost use Rattle.std.specs.Prelude.{◌≤◌, IfSome};
ghost use Rattle.rsc_primitives.specs.Indices.{max_index};

use crate::tokens::parse_short_number;
use rsc_captures::{GroupInfo, GroupInfoError, GroupInfoErrorKind};
use rsc_notation::groups::{parse_patterns, slices_of};
use rsc_primitives::PatternID;
use std::alloc::{AllocError, Allocator};
use std::fmt::Write;

// The greatest limit that `limited` takes.
const GREATEST_LIMIT: usize = PatternID::LIMIT - 1;

/// The answer to the arguments of `groups`, or `None` where they aren't lists of groups.
///
/// Patterns are split at `;`, and groups at `,`; `-` is a group without a name, and a name is one or more word bytes. With no
/// argument there is no pattern.
pub fn answer<A: Allocator + Copy + Drop>(
    alloc: A,
    arguments: &[&[u8]],
) -> Result<Option<String<A>>, AllocError> {
    answer_within(alloc, None, arguments)
}

/// The answer to the arguments of `limited`, or `None` where they aren't a limit of at most 2147483646 and lists of groups.
pub fn answer_limited<A: Allocator + Copy + Drop>(
    alloc: A,
    arguments: &[&[u8]],
) -> Result<Option<String<A>>, AllocError> {
    let [limit, lists @ ..] = arguments else {
        return Ok(None);
    };
    match parse_limit(limit) {
        Some(limit) => answer_within(alloc, Some(limit), lists),
        None => Ok(None),
    }
}

// The limit that one to ten decimal digits write, or `None` where it is above the greatest.
fn parse_limit(token: &[u8]) -> Option<usize>
    ensures { IfSome result (λ limit. limit ≤ max_index) }
{
    let limit = parse_short_number(token)?;
    if limit <= GREATEST_LIMIT {
        Some(limit)
    } else {
        None
    }
}

// The answer where no more slots than the limit are allowed, if there is one.
fn answer_within<A: Allocator + Copy + Drop>(
    alloc: A,
    limit: Option<usize>,
    arguments: &[&[u8]],
) -> Result<Option<String<A>>, AllocError>
    requires { IfSome limit (λ limit. limit ≤ max_index) }
{
    match arguments {
        [] => Ok(Some(answer_lists(alloc, limit, &[])?)),
        [lists] => match parse_patterns(alloc, lists)? {
            Some(patterns) => {
                let lists = slices_of(alloc, patterns.as_slice())?;
                Ok(Some(answer_lists(alloc, limit, lists.as_slice())?))
            }
            None => Ok(None),
        },
        _ => Ok(None),
    }
}

// The slots of the groups, or the displayed refusal.
fn answer_lists<A: Allocator + Copy + Drop>(
    alloc: A,
    limit: Option<usize>,
    lists: &[&[Option<&str>]],
) -> Result<String<A>, AllocError>
    requires { IfSome limit (λ limit. limit ≤ max_index) }
{
    let made = match limit {
        None => GroupInfo::new(alloc, lists),
        Some(limit) => GroupInfo::new_limited(alloc, limit, lists),
    };
    match made {
        Ok(info) => describe(alloc, &info),
        Err(error) => describe_refusal(alloc, &error),
    }
}

// `slots`, how many there are, and the first slot of each group.
fn describe<A: Allocator + Copy + Drop>(
    alloc: A,
    info: &GroupInfo<A>,
) -> Result<String<A>, AllocError> {
    let mut text = String::new(alloc);
    let count = info.slot_len();
    write!(text, "slots {count}:")?;
    for (pattern, group, _) in info.all_names() {
        let separator = separator_before(pattern, group);
        let slot = info.slot(pattern, group).unwrap_or(0);
        write!(text, "{separator}{slot}")?;
    }
    Ok(text)
}

// What comes before a group's slot: a space before the first of all, `;` before the first of a pattern, `,` before any other.
fn separator_before(pattern: PatternID, group: usize) -> char {
    if group > 0 {
        ','
    } else if pattern.as_usize() > 0 {
        ';'
    } else {
        ' '
    }
}

// The displayed refusal. Out of memory is no answer: it stops the run.
fn describe_refusal<A: Allocator + Copy + Drop>(
    alloc: A,
    error: &GroupInfoError<A>,
) -> Result<String<A>, AllocError> {
    if let GroupInfoErrorKind::OutOfMemory = error.kind() {
        return Err(AllocError);
    }
    let mut text = String::new(alloc);
    write!(text, "{error}")?;
    Ok(text)
}
