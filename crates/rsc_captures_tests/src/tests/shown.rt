//! Shown texts, and the traits of each type.
use super::captures::filled;
use rsc_captures::{
    Captures, CapturesPatternIter, GroupInfo, GroupInfoAllNames, GroupInfoError,
    GroupInfoErrorKind, GroupInfoPatternNames,
};
use rsc_primitives::{PatternID, PatternIDError};
use rsc_primitives_tests::forms::is_shown;
use rsc_search::Span;
use std::alloc::Global;
use std::error::Error;
use std::fmt;
use std::fmt::Write;
use std::test::Fail;

// Counts the bytes that are written.
#[derive(Drop)]
struct Counter {
    count: u64,
}

impl Counter {
    fn new() -> Counter {
        Counter { count: 0 }
    }
}

impl fmt::Write for Counter {
    fn write_str(&mut self, text: &str) -> fmt::Result {
        self.count = self.count.saturating_add(text.len() as u64);
        Ok(())
    }
}

/// The bytes that a value displays; none where it can't be.
pub(super) fn bytes_displayed<T: fmt::Display>(value: &T) -> u64 {
    let mut counter = Counter::new();
    let is_ok = write!(counter, "{value}").is_ok();
    if is_ok { counter.count } else { 0 }
}

/// The bytes that a value shows; none where it can't be.
pub(super) fn bytes_shown<T: fmt::Debug>(value: &T) -> u64 {
    let mut counter = Counter::new();
    let is_ok = write!(counter, "{value:?}").is_ok();
    if is_ok { counter.count } else { 0 }
}

// Whether a value is shown by this text where no form is asked for.
fn is_plainly_shown<T: fmt::Debug>(alloc: Global, value: &T, want: &str) -> bool {
    match format!(in alloc; "{value:?}") {
        Ok(text) => text.as_str() == want,
        Err(_) => false,
    }
}

#[test]
fn captures_are_shown(rt: HostRuntime) -> Result<(), Fail> {
    let alloc = rt.alloc();
    let lists: [&[Option<&str>]; 2] = [&[None], &[None, Some("a\"\n\u{e9}"), None]];
    let captures = Captures::all(alloc, GroupInfo::new(alloc, &lists)?)?;
    let is_plain = is_shown(alloc, &captures, "Captures { pid: None }");
    let offsets = [None, None, Some(3), Some(123456), Some(0), Some(7), Some(9)];
    let captures = filled(alloc, &lists, 1, &offsets)?;
    let want =
        "Captures { pid: Some(PatternID(1)), spans: {0: 3..123456, 1/\"a\\\"\\né\": 0..7, 2: None} }";
    assert!(rt; is_plain && is_shown(alloc, &captures, want));
    Ok(())
}

#[test]
fn captures_with_a_named_group_are_shown(rt: HostRuntime) -> Result<(), Fail> {
    let alloc = rt.alloc();
    let mut captures = filled(alloc, &[&[None, Some("x")]], 0, &[Some(0), Some(3)])?;
    let want = "Captures { pid: Some(PatternID(0)), spans: {0: 0..3, 1/\"x\": None} }";
    let is_filled = is_shown(alloc, &captures, want);
    captures.clear();
    assert!(rt; is_filled && is_shown(alloc, &captures, "Captures { pid: None }"));
    Ok(())
}

// Whether spans of twelve groups are shown by how many are left, down to none.
fn are_spans_shown(alloc: Global, captures: &Captures) -> bool {
    let mut spans = captures.iter();
    for passed in 0..=12usize {
        let left = 12 - passed;
        let Ok(want) = format!(in alloc; "CapturesPatternIter({left})") else {
            return false;
        };
        if !is_shown(alloc, &spans, &want) {
            return false;
        }
        let _ = spans.next();
    }
    is_shown(alloc, &spans, "CapturesPatternIter(0)")
}

// A pattern of twelve groups, of which the last has a span.
#[test]
fn each_group_is_shown(rt: HostRuntime) -> Result<(), Fail> {
    let alloc = rt.alloc();
    let groups: [Option<&str>; 12] = [None; 12];
    let mut captures = filled(alloc, &[&groups], 0, &[])?;
    let is_set = captures.set_group(11, Some(Span { start: 7, end: 9 }));
    let want =
        "Captures { pid: Some(PatternID(0)), spans: {0: None, 1: None, 2: None, 3: None, 4: None, 5: None, 6: None, 7: None, 8: None, 9: None, 10: None, 11: 7..9} }";
    let is_whole = is_shown(alloc, &captures, want);
    assert!(rt; is_set && is_whole && are_spans_shown(alloc, &captures));
    Ok(())
}

// A pattern that the group info doesn't have has no groups.
#[test]
fn captures_of_an_unknown_pattern_are_shown(rt: HostRuntime) -> Result<(), Fail> {
    for (pattern, want) in [
        (2, "Captures { pid: Some(PatternID(2)), spans: {} }"),
        (
            2147483646,
            "Captures { pid: Some(PatternID(2147483646)), spans: {} }",
        ),
    ] {
        let captures = filled(
            rt.alloc(),
            &[&[None], &[None]],
            pattern,
            &[Some(0), Some(1)],
        )?;
        assert!(rt; is_shown(rt.alloc(), &captures, want), "{pattern}");
    }
    Ok(())
}

#[test]
fn each_of_101_groups_is_shown(rt: HostRuntime) -> Result<(), Fail> {
    let alloc = rt.alloc();
    let groups: [Option<&str>; 101] = [None; 101];
    let mut captures = filled(alloc, &[&groups], 0, &[])?;
    let is_set = captures.set_group(100, Some(Span { start: 7, end: 9 }));
    let mut want = String::from_str(alloc, "Captures { pid: Some(PatternID(0)), spans: {")?;
    for group in 0..100 {
        write!(want, "{group}: None, ")?;
    }
    want.push_str("100: 7..9} }")?;
    assert!(rt; is_set && is_shown(alloc, &captures, &want));
    Ok(())
}

// Whether lists are refused by an error that is shown by this text.
fn is_refusal_shown(alloc: Global, lists: &[&[Option<&str>]], want: &str) -> bool {
    match GroupInfo::new(alloc, lists) {
        Err(error) => is_plainly_shown(alloc, &error, want),
        Ok(_) => false,
    }
}

#[test]
fn errors_are_shown(rt: HostRuntime) {
    let alloc = rt.alloc();
    let want = "GroupInfoError { kind: MissingGroups { pattern: PatternID(1) } }";
    let missing = is_refusal_shown(alloc, &[&[None], &[]], want);
    let want = "GroupInfoError { kind: Duplicate { pattern: PatternID(0), name: \"ß\" } }";
    let repeated = is_refusal_shown(alloc, &[&[None, Some("ß"), Some("ß")]], want);
    assert!(rt; missing && repeated);
}

// The kinds at their least and greatest numbers.
fn kinds(alloc: Global, err: PatternIDError) -> Result<[GroupInfoErrorKind; 7], Fail> {
    Ok([
        GroupInfoErrorKind::TooManyPatterns { err },
        GroupInfoErrorKind::TooManyGroups {
            pattern: PatternID::ZERO,
            minimum: 0,
        },
        GroupInfoErrorKind::TooManyGroups {
            pattern: PatternID::MAX,
            minimum: usize::MAX,
        },
        GroupInfoErrorKind::MissingGroups {
            pattern: PatternID::MAX,
        },
        GroupInfoErrorKind::FirstMustBeUnnamed {
            pattern: PatternID::MAX,
        },
        GroupInfoErrorKind::Duplicate {
            pattern: PatternID::MAX,
            name: String::from_str(alloc, "größe")?,
        },
        GroupInfoErrorKind::OutOfMemory,
    ])
}

// Whether a kind is displayed by this text in each of three forms, and as many bytes are written.
fn is_displayed_by(alloc: Global, kind: &GroupInfoErrorKind, want: &str) -> Result<bool, Fail> {
    let plain = format!(in alloc; "{kind}")?;
    let other = format!(in alloc; "{kind:#}")?;
    let padded = format!(in alloc; "{kind:>8}")?;
    Ok(
        [plain.as_str(), other.as_str(), padded.as_str()] == [want; 3]
            && bytes_displayed(kind) == want.len() as u64,
    )
}

#[test]
fn each_kind_is_displayed(rt: HostRuntime) -> Result<(), Fail> {
    let wanted = [
        "too many patterns to build capture info: failed to create PatternID from 18446744073709551615, which exceeds PatternID(2147483646)",
        "too many capture groups (at least 0) were found for pattern 0",
        "too many capture groups (at least 18446744073709551615) were found for pattern 2147483646",
        "no capturing groups found for pattern 2147483646 (either all patterns have zero groups or all patterns have at least one group)",
        "first capture group (at index 0) for pattern 2147483646 has a name (it must be unnamed)",
        "duplicate capture group name 'größe' found for pattern 2147483646",
        "out of memory while building capture info",
    ];
    let err = PatternID::new(usize::MAX).err().ok_or("accepted")?;
    let kinds = kinds(rt.alloc(), err)?;
    for (kind, want) in kinds.iter().zip(wanted.iter()) {
        assert!(rt; is_displayed_by(rt.alloc(), kind, want)?, "{want}");
    }
    Ok(())
}

fn is_debug<T: fmt::Debug>() {}

fn is_displayed<T: fmt::Display + fmt::Debug>() {}

fn is_error<T: Error + fmt::Display + fmt::Debug>() {}

fn is_walked<T: Clone + fmt::Debug + Iterator>() {}

#[test]
fn traits_of_each_type(_rt: HostRuntime) {
    is_debug::<GroupInfo>();
    is_debug::<Captures>();
    is_debug::<GroupInfoAllNames<'_>>();
    is_walked::<GroupInfoPatternNames<'_>>();
    is_walked::<CapturesPatternIter<'_>>();
    is_displayed::<GroupInfoErrorKind>();
    is_error::<GroupInfoError>();
}

// Whether lists are refused, and the error is displayed as its clone is.
fn is_copied(alloc: Global, lists: &[&[Option<&str>]]) -> Result<bool, Fail> {
    match GroupInfo::new(alloc, lists) {
        Err(error) => {
            let copy = error.clone()?;
            Ok(format!(in alloc; "{copy}")?.as_str() == format!(in alloc; "{error}")?.as_str())
        }
        Ok(_) => Ok(false),
    }
}

#[test]
fn a_clone_of_an_error_is_displayed_as_its_source(rt: HostRuntime) -> Result<(), Fail> {
    let alloc = rt.alloc();
    let missing = is_copied(alloc, &[&[]])?;
    let named = is_copied(alloc, &[&[Some("x")]])?;
    let repeated = is_copied(alloc, &[&[None, Some("y"), Some("y")]])?;
    assert!(rt; missing && named && repeated);
    Ok(())
}
