//! Refused memory: budgets that grow by 8 bytes refuse the first, the second and each further request, until one suffices.
use super::group_info::NAMES;
use linked_list_allocator::LocalHeap;
use rsc_captures::{Captures, GroupInfo, GroupInfoError, GroupInfoErrorKind};
use rsc_primitives::PatternID;
use rsc_search::Span;
use std::alloc::Global;
use std::test::Fail;

const LONG: &str = "a name of seventy bytes, so that a limit on how long names are would show";

/// What a budget gives. With budgets that grow these may only rise, up to an answer.
#[derive(Clone, Copy, PartialEq, Eq, PartialOrd, Ord)]
enum Outcome {
    /// The call was not reached.
    NotReached,
    /// Out of memory, and all else as before.
    Refused,
    /// The full answer.
    Answered,
    /// Anything else.
    Wrong,
}

// Whether memory ran out.
fn is_out_of_memory(error: &GroupInfoError<&LocalHeap>) -> bool {
    matches!(error.kind(), GroupInfoErrorKind::OutOfMemory)
}

// Whether a name of each pattern of `group_info_within` is found.
fn finds_names(info: &GroupInfo<&LocalHeap>) -> bool {
    info.to_index(PatternID::must(0), "first") == Some(1)
        && info.to_index(PatternID::must(1), "last") == Some(2)
        && info.to_index(PatternID::must(2), "h") == Some(7)
}

// A group info of seventeen groups in three patterns, by `new` or with the least limit that it keeps to.
fn made_within(
    heap: &LocalHeap,
    with_limit: bool,
) -> Result<GroupInfo<&LocalHeap>, GroupInfoError<&LocalHeap>> {
    let lists: [&[Option<&str>]; 3] = [&[None, Some("first")], &[None, None, Some("last")], &NAMES];
    if with_limit {
        GroupInfo::new_limited(heap, 34, &lists)
    } else {
        GroupInfo::new(heap, &lists)
    }
}

// Whether the names are found in a clone; `false` where it is refused.
fn finds_names_of_clone(info: &GroupInfo<&LocalHeap>) -> bool {
    match info.clone() {
        Ok(copy) => finds_names(&copy),
        Err(_) => false,
    }
}

// Such a group info, with all names in it and in its clone.
fn group_info_within(heap: &LocalHeap, with_limit: bool) -> Outcome {
    match made_within(heap, with_limit) {
        Ok(info) if finds_names(&info) && finds_names_of_clone(&info) => Outcome::Answered,
        Err(error) if is_out_of_memory(&error) => Outcome::Refused,
        _ => Outcome::Wrong,
    }
}

// Whether the group info has no patterns, and a clone.
fn is_empty(info: &GroupInfo<&LocalHeap>) -> bool {
    info.pattern_len() == 0 && info.clone().is_ok()
}

// The group info of no patterns.
fn empty_within(heap: &LocalHeap) -> Outcome {
    match GroupInfo::empty(heap) {
        Ok(info) if is_empty(&info) => Outcome::Answered,
        Err(error) if is_out_of_memory(&error) => Outcome::Refused,
        _ => Outcome::Wrong,
    }
}

// Whether the kind is a repeated name of the first pattern, this one.
fn is_repeated(kind: &GroupInfoErrorKind<&LocalHeap>, wanted: &str) -> bool {
    match kind {
        GroupInfoErrorKind::Duplicate { pattern, name } => *pattern == PatternID::ZERO
            && name.as_str() == wanted,
        _ => false,
    }
}

// Whether a repeated name is found, and given whole, or memory runs out.
fn repeated_within<'a>(heap: &'a LocalHeap, name: &'a str) -> Outcome {
    let Err(error) = GroupInfo::new(heap, &[&[None, Some(name), Some(name)]]) else {
        return Outcome::Wrong;
    };
    if is_repeated(error.kind(), name) {
        Outcome::Answered
    } else if is_out_of_memory(&error) {
        Outcome::Refused
    } else {
        Outcome::Wrong
    }
}

// Whether a clone of an error, or of its kind, is that of the repeated name; `None` if it is refused.
fn copies_error(error: &GroupInfoError<&LocalHeap>, of_kind: bool) -> Option<bool> {
    if of_kind {
        let kind = error.kind().clone().ok()?;
        return Some(is_repeated(&kind, LONG));
    }
    let copy = error.clone().ok()?;
    Some(is_repeated(copy.kind(), LONG))
}

// A clone of the error of a repeated name, or of its kind. Whether it is refused or not, its source is as before.
fn clone_of_error_within(heap: &LocalHeap, of_kind: bool) -> Outcome {
    // The second pattern is at fault too, so that no memory was taken but for the name.
    let Err(error) = GroupInfo::new(heap, &[&[None, Some(LONG), Some(LONG)], &[]]) else {
        return Outcome::Wrong;
    };
    if is_out_of_memory(&error) {
        return Outcome::NotReached;
    }
    let used = heap.used();
    let copied = copies_error(&error, of_kind);
    if heap.used() != used || !is_repeated(error.kind(), LONG) {
        return Outcome::Wrong;
    }
    match copied {
        Some(true) => Outcome::Answered,
        Some(false) => Outcome::Wrong,
        None => Outcome::Refused,
    }
}

// How many slots captures of the group info have, all or those of the first groups; `None` where they are refused.
fn slots_of<'a>(
    heap: &'a LocalHeap,
    info: GroupInfo<&'a LocalHeap>,
    with_all: bool,
) -> Option<usize> {
    let made = if with_all {
        Captures::all(heap, info)
    } else {
        Captures::matches(heap, info)
    };
    Some(made.ok()?.slots().len())
}

// Captures with all slots, or with those of the first groups. Where they are refused, the clone that was kept still answers,
// and the heap is as full as before.
fn captures_within(heap: &LocalHeap, with_all: bool) -> Outcome {
    let Ok(info) = GroupInfo::new(heap, &[&[None, Some("x")], &[None]]) else {
        return Outcome::NotReached;
    };
    let Ok(kept) = info.clone() else {
        return Outcome::Wrong;
    };
    let used = heap.used();
    let slot_len: usize = if with_all { 6 } else { 4 };
    let made = slots_of(heap, info, with_all);
    if kept.slot_len() != 6 || kept.to_index(PatternID::ZERO, "x") != Some(1) {
        return Outcome::Wrong;
    }
    match made {
        Some(count) if count == slot_len => Outcome::Answered,
        None if heap.used() == used => Outcome::Refused,
        _ => Outcome::Wrong,
    }
}

// Captures of the first of two patterns, with a span for its first group; `None` where they are refused.
fn marked_captures(heap: &LocalHeap) -> Option<Captures<&LocalHeap>> {
    let info = GroupInfo::new(heap, &[&[None, Some("x")], &[None]]).ok()?;
    let mut captures = Captures::all(heap, info).ok()?;
    captures.set_pattern(Some(PatternID::ZERO));
    captures.set_group(0, Some(Span { start: 0, end: 3 }));
    Some(captures)
}

// The first group's span in a clone; `None` where that is refused.
fn group_of_clone(captures: &Captures<&LocalHeap>) -> Option<Option<Span>> {
    Some(captures.clone().ok()?.get_group(0))
}

// A clone of captures. Whether it is refused or not, its source answers as before.
fn clone_within(heap: &LocalHeap) -> Outcome {
    let Some(captures) = marked_captures(heap) else {
        return Outcome::NotReached;
    };
    let used = heap.used();
    let group = Some(Span { start: 0, end: 3 });
    let before = captures.get_group(0);
    let copied = group_of_clone(&captures);
    if before != group || captures.get_group(0) != group || captures.group_len() != 2 {
        return Outcome::Wrong;
    }
    match copied {
        Some(copy) if copy == group => Outcome::Answered,
        None if heap.used() == used => Outcome::Refused,
        _ => Outcome::Wrong,
    }
}

// What is tried within a budget.
#[derive(Drop)]
enum Call {
    New,
    NewLimited,
    Empty,
    RepeatedLetter,
    RepeatedName,
    CloneOfError,
    CloneOfKind,
    AllCaptures,
    MatchCaptures,
    CloneOfCaptures,
}

// What a budget gives.
fn budget_gives(heap: &LocalHeap, call: &Call) -> Outcome {
    match call {
        Call::New => group_info_within(heap, false),
        Call::NewLimited => group_info_within(heap, true),
        Call::Empty => empty_within(heap),
        Call::RepeatedLetter => repeated_within(heap, "x"),
        Call::RepeatedName => repeated_within(heap, LONG),
        Call::CloneOfError => clone_of_error_within(heap, false),
        Call::CloneOfKind => clone_of_error_within(heap, true),
        Call::AllCaptures => captures_within(heap, true),
        Call::MatchCaptures => captures_within(heap, false),
        Call::CloneOfCaptures => clone_within(heap),
    }
}

// Whether the call is refused until there is enough, and what it made and what it was handed is dropped.
fn is_refused_at_first(alloc: Global, call: Call) -> Result<bool, Fail> {
    let mut so_far = Outcome::NotReached;
    let mut was_refused = false;
    for size in 0..512usize {
        let heap = LocalHeap::new(alloc, 8 * size)?;
        let next = budget_gives(&heap, &call);
        if next < so_far || heap.used() > 0 {
            return Ok(false);
        }
        was_refused = was_refused || next == Outcome::Refused;
        so_far = next;
    }
    Ok(was_refused && so_far == Outcome::Answered)
}

#[test]
fn group_infos_are_refused_until_there_is_enough(rt: HostRuntime) -> Result<(), Fail> {
    let alloc = rt.alloc();
    let new = is_refused_at_first(alloc, Call::New)?;
    let limited = is_refused_at_first(alloc, Call::NewLimited)?;
    let empty = is_refused_at_first(alloc, Call::Empty)?;
    assert_eq!(rt; [new, limited, empty], [true; 3]);
    Ok(())
}

#[test]
fn errors_are_refused_until_there_is_enough(rt: HostRuntime) -> Result<(), Fail> {
    let alloc = rt.alloc();
    let letter = is_refused_at_first(alloc, Call::RepeatedLetter)?;
    let name = is_refused_at_first(alloc, Call::RepeatedName)?;
    let error = is_refused_at_first(alloc, Call::CloneOfError)?;
    let kind = is_refused_at_first(alloc, Call::CloneOfKind)?;
    assert_eq!(rt; [letter, name, error, kind], [true; 4]);
    Ok(())
}

#[test]
fn captures_are_refused_until_there_is_enough(rt: HostRuntime) -> Result<(), Fail> {
    let alloc = rt.alloc();
    let all = is_refused_at_first(alloc, Call::AllCaptures)?;
    let matches = is_refused_at_first(alloc, Call::MatchCaptures)?;
    let copy = is_refused_at_first(alloc, Call::CloneOfCaptures)?;
    assert_eq!(rt; [all, matches, copy], [true; 3]);
    Ok(())
}

// Whether what a list is refused for where there is no memory at all begins so.
fn is_refused_without_memory(alloc: Global, lists: &[&[Option<&str>]], want: &str) -> bool {
    let Ok(heap) = LocalHeap::new(alloc, 0) else {
        return false;
    };
    let Err(error) = GroupInfo::new(&heap, lists) else {
        return false;
    };
    match error.to_string(alloc) {
        Ok(text) => text.starts_with(want),
        Err(_) => false,
    }
}

#[test]
fn faults_come_before_any_request(rt: HostRuntime) {
    let alloc = rt.alloc();
    let named = is_refused_without_memory(
        alloc,
        &[&[None, Some("x")], &[Some("x")]],
        "first capture group (at index 0) for pattern 1 has a name ",
    );
    let second = is_refused_without_memory(
        alloc,
        &[&[None, Some("x")], &[]],
        "no capturing groups found for pattern 1 ",
    );
    let first = is_refused_without_memory(
        alloc,
        &[&[], &[None, Some("x"), Some("x")]],
        "no capturing groups found for pattern 0 ",
    );
    assert_eq!(rt; [named, second, first], [true; 3]);
}

// What the error of a repeated name takes, and what it takes with its clone; `None` where one of them is refused.
fn used_by_a_repeated_name(heap: &LocalHeap) -> Option<(usize, usize)> {
    // The second pattern is at fault too, so that no memory was taken but for the name.
    let Err(error) = GroupInfo::new(heap, &[&[None, Some(LONG), Some(LONG)], &[]]) else {
        return None;
    };
    let before = heap.used();
    let copy = error.clone().ok()?;
    let after = heap.used();
    if is_repeated(copy.kind(), LONG) {
        Some((before, after))
    } else {
        None
    }
}

#[test]
fn a_clone_of_an_error_takes_as_much_as_its_source(rt: HostRuntime) -> Result<(), Fail> {
    let heap = LocalHeap::new(rt.alloc(), 4096)?;
    let (before, after) = used_by_a_repeated_name(&heap).ok_or("refused")?;
    assert!(rt;
        before > 0 && after == before.saturating_mul(2),
        "{before}, {after}"
    );
    assert!(rt; heap.used() == 0);
    Ok(())
}
