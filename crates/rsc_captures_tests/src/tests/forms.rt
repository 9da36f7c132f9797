//! Texts of errors in each form that a caller may ask for, as the original gives them, and clones of each kind.
use linked_list_allocator::LocalHeap;
use rsc_captures::{GroupInfo, GroupInfoError, GroupInfoErrorKind};
use rsc_primitives::{PatternID, PatternIDError};
use rsc_primitives_tests::forms::is_displayed;
use std::alloc::{AllocError, Global};
use std::test::Fail;

// Whether a kind and its clone are displayed by the text that was made, in each form.
fn is_kind(alloc: Global, kind: &GroupInfoErrorKind, made: Result<String, AllocError>) -> bool {
    let Ok(want) = made else {
        return false;
    };
    match kind.clone() {
        Ok(copy) => is_displayed(alloc, kind, &want) && is_displayed(alloc, &copy, &want),
        Err(_) => false,
    }
}

// Whether each kind of that number, and of the pattern closest to it, is displayed in each form.
fn are_kinds(alloc: Global, number: usize) -> bool {
    let pattern = PatternID::must(number.min(2147483646));
    let p = pattern.as_usize();
    let kind = GroupInfoErrorKind::TooManyGroups {
        pattern,
        minimum: number,
    };
    let want = format!(in alloc;
        "too many capture groups (at least {number}) were found for pattern {p}"
    );
    let is_too_many = is_kind(alloc, &kind, want);
    let want = format!(in alloc;
        "no capturing groups found for pattern {p} (either all patterns have zero groups or all patterns have at least one group)"
    );
    let is_missing = is_kind(alloc, &GroupInfoErrorKind::MissingGroups { pattern }, want);
    let want = format!(in alloc;
        "first capture group (at index 0) for pattern {p} has a name (it must be unnamed)"
    );
    let is_named = is_kind(
        alloc,
        &GroupInfoErrorKind::FirstMustBeUnnamed { pattern },
        want,
    );
    is_too_many && is_missing && is_named
}

#[test]
fn kinds_of_many_numbers_are_displayed_in_each_form(rt: HostRuntime) {
    let alloc = rt.alloc();
    let mut number: usize = 1;
    for _ in 0..65 {
        assert!(rt; are_kinds(alloc, number), "{number}");
        number = number.saturating_mul(2);
    }
    assert_eq!(rt; number, usize::MAX);
    let want = String::from_str(alloc, "out of memory while building capture info");
    assert!(rt; is_kind(alloc, &GroupInfoErrorKind::OutOfMemory, want));
}

// Whether too many patterns is displayed in each form, with the refusal of a number.
fn is_too_many(alloc: Global, number: usize) -> bool {
    let want = format!(in alloc;
        "too many patterns to build capture info: failed to create PatternID from {number}, which exceeds PatternID(2147483646)"
    );
    match PatternID::new(number) {
        Err(err) => is_kind(alloc, &GroupInfoErrorKind::TooManyPatterns { err }, want),
        Ok(_) => false,
    }
}

// Whether a repeated name is displayed in each form, and so are clones of the error and of its kind.
fn is_repeated(alloc: Global, name: &str) -> bool {
    let want = format!(in alloc; "duplicate capture group name '{name}' found for pattern 0");
    let Err(error) = GroupInfo::new(alloc, &[&[None, Some(name), Some(name)]]) else {
        return false;
    };
    let Ok(copy) = error.clone() else {
        return false;
    };
    let are_displayed = match &want {
        Ok(text) => is_displayed(alloc, &error, text) && is_displayed(alloc, &copy, text),
        Err(_) => false,
    };
    are_displayed && is_kind(alloc, error.kind(), want)
}

// Whether lists are refused for a repeated name of pattern 1 that is displayed in each form, as it is, and so is a clone of the kind.
fn is_repeated_later(alloc: Global, lists: &[&[Option<&str>]], name: &str) -> bool {
    let want = format!(in alloc; "duplicate capture group name '{name}' found for pattern 1");
    match GroupInfo::new(alloc, lists) {
        Err(error) => is_kind(alloc, error.kind(), want),
        Ok(_) => false,
    }
}

#[test]
fn names_of_a_later_pattern_are_displayed_as_they_are(rt: HostRuntime) {
    let alloc = rt.alloc();
    let empty = is_repeated_later(alloc, &[&[None], &[None, Some(""), Some("")]], "");
    let letter = is_repeated_later(alloc, &[&[None], &[None, Some("x"), Some("x")]], "x");
    let quote = is_repeated_later(alloc, &[&[None], &[None, Some("'"), Some("'")]], "'");
    assert!(rt; empty && letter && quote);
    let escapes = is_repeated_later(
        alloc,
        &[&[None], &[None, Some("a\n\"\\"), Some("a\n\"\\")]],
        "a\n\"\\",
    );
    let wide = is_repeated_later(
        alloc,
        &[&[None], &[None, Some("größe"), Some("größe")]],
        "größe",
    );
    assert!(rt; escapes && wide);
}

#[test]
fn numbers_and_names_of_each_length_are_displayed_in_each_form(
    rt: HostRuntime,
) -> Result<(), Fail> {
    let alloc = rt.alloc();
    for number in [2147483647, 4294967296, usize::MAX] {
        assert!(rt; is_too_many(alloc, number), "{number}");
    }
    for count in [0, 1, 2, 31, 32, 33, 499, 500, 501, 2_049, 40_000] {
        let name = "ß".repeat(alloc, count)?;
        assert!(rt; is_repeated(alloc, &name), "{count}");
    }
    // Characters of four bytes, up to the last one.
    for name in ["𝛃", "a\u{10000}", "\u{10FFFF}"] {
        assert!(rt; is_repeated(alloc, name), "{name}");
    }
    Ok(())
}

// The kinds that take no memory, and a repeated name that is empty.
fn plain_kinds<'a>(
    heap: &'a LocalHeap,
    err: PatternIDError,
) -> [GroupInfoErrorKind<&'a LocalHeap>; 6] {
    let (first, last) = (PatternID::ZERO, PatternID::MAX);
    [
        GroupInfoErrorKind::TooManyPatterns { err },
        GroupInfoErrorKind::TooManyGroups {
            pattern: last,
            minimum: 1_073_741_824,
        },
        GroupInfoErrorKind::MissingGroups { pattern: first },
        GroupInfoErrorKind::FirstMustBeUnnamed { pattern: first },
        GroupInfoErrorKind::OutOfMemory,
        GroupInfoErrorKind::Duplicate {
            pattern: last,
            name: String::new(heap),
        },
    ]
}

// Where there is no memory at all.
#[test]
fn clones_of_each_plain_kind_are_made(rt: HostRuntime) -> Result<(), Fail> {
    let heap = LocalHeap::new(rt.alloc(), 0)?;
    let err = PatternID::new(2147483647).err().ok_or("accepted")?;
    for kind in plain_kinds(&heap, err).iter() {
        assert!(rt; kind.clone().is_ok(), "{kind:?}");
    }
    let error = GroupInfoError::<&LocalHeap>::from(AllocError);
    assert!(rt; error.clone().is_ok() && error.kind().clone().is_ok());
    Ok(())
}

// Whether the list is refused, and its error and the kind of that are cloned.
fn is_cloned(heap: &LocalHeap, list: &[&[Option<&str>]]) -> bool {
    match GroupInfo::new(heap, list) {
        Err(error) => error.clone().is_ok() && error.kind().clone().is_ok(),
        Ok(_) => false,
    }
}

// A clone of an error without a name, and of its kind, is made where there is no memory at all.
#[test]
fn clones_of_other_errors_take_no_memory(rt: HostRuntime) -> Result<(), Fail> {
    let heap = LocalHeap::new(rt.alloc(), 0)?;
    let missing = is_cloned(&heap, &[&[]]);
    let named = is_cloned(&heap, &[&[Some("x")]]);
    let memory = is_cloned(&heap, &[&[None]]);
    assert!(rt; missing && named && memory);
    Ok(())
}
