//! Runs so long that a call whose time grows with the groups, the names, the patterns or the text doesn't end within the time that a test has.
ghost use Rattle.std.specs.Prelude.{◌≤◌};

use super::group_info::{groups_of, names_of};
use rsc_captures::{Captures, GroupInfo};
use rsc_primitives::PatternID;
use rsc_search::Span;
use std::alloc::Global;
use std::test::Fail;

const NAMES: usize = 50_000;

const GROUPS: usize = 100_000;

// The group info of one pattern.
fn info_of(alloc: Global, groups: &[Option<&str>]) -> Result<GroupInfo, Fail> {
    let mut lists: Vec<&[Option<&str>]> = Vec::new(alloc);
    lists.push(groups)?;
    Ok(GroupInfo::new(alloc, &lists)?)
}

// Whether each of the names is found in captures of these groups, and the first seven bytes of it aren't.
fn are_found(captures: &Captures, groups: &[Option<&str>]) -> bool {
    let info = captures.group_info();
    for (group, name) in groups.iter().enumerate() {
        if info.to_name(PatternID::ZERO, group) != *name {
            return false;
        }
        if let Some(name) = name {
            let is_found = info.to_index(PatternID::ZERO, name) == Some(group);
            let other = name.get(..7).unwrap_or("");
            let is_other = info.to_index(PatternID::ZERO, other).is_some();
            if !is_found || is_other || captures.get_group_by_name(name).is_some() {
                return false;
            }
        }
    }
    true
}

#[test]
fn a_name_is_found_without_a_look_at_all(rt: HostRuntime) -> Result<(), Fail> {
    let names = names_of(rt.alloc(), NAMES)?;
    let groups = groups_of(rt.alloc(), &names)?;
    let mut captures = Captures::all(rt.alloc(), info_of(rt.alloc(), &groups)?)?;
    captures.set_pattern(Some(PatternID::ZERO));
    assert!(rt; are_found(&captures, &groups));
    Ok(())
}

// Captures of one pattern of that many groups, or of that many patterns of two.
fn captures_of(alloc: Global, are_patterns: bool) -> Result<Captures, Fail> {
    let groups: Vec<Option<&str>> = vec![in alloc; None; GROUPS]?;
    let pair: &[Option<&str>] = &[None, Some("x")];
    let patterns: Vec<&[Option<&str>]> = vec![in alloc; pair; GROUPS / 2]?;
    let info = if are_patterns {
        GroupInfo::new(alloc, &patterns)?
    } else {
        GroupInfo::new(alloc, &[&groups])?
    };
    Ok(Captures::all(alloc, info)?)
}

// Whether each call on a group of the one pattern answers as it should.
fn is_group(info: &GroupInfo, g: usize) -> bool
    requires { g ≤ 100000 }
{
    let slots = info.slots(PatternID::ZERO, g);
    let counts = [
        info.group_len(PatternID::ZERO),
        info.slot_len(),
        info.explicit_slot_len(),
    ];
    slots == Some((2 * g, 2 * g + 1))
        && counts == [GROUPS, 2 * GROUPS, 2 * GROUPS - 2]
        && info.to_name(PatternID::ZERO, g) == None
}

#[test]
fn each_group_takes_the_same_time_in_any_pattern(rt: HostRuntime) -> Result<(), Fail> {
    let mut captures = captures_of(rt.alloc(), false)?;
    captures.set_pattern(Some(PatternID::ZERO));
    for g in 0..GROUPS {
        let span = Some(Span { start: g, end: g });
        let is_set = captures.set_group(g, span) && captures.get_group(g) == span;
        let is_there = is_group(captures.group_info(), g);
        let counts = [captures.group_len(), captures.slots().len()];
        let is_lent = captures.slots_mut().len() == 2 * GROUPS;
        assert!(rt;
            is_set && is_there && counts == [GROUPS, 2 * GROUPS] && is_lent,
            "{g}"
        );
    }
    captures.clear();
    assert!(rt; !captures.is_match());
    Ok(())
}

// Whether each call on a pattern answers as it should, where each pattern has two groups.
fn is_pattern(info: &GroupInfo, pid: PatternID) -> bool {
    let mut names = info.pattern_names(pid);
    let walked = [names.next(), names.next()];
    let counts = [
        info.pattern_len(),
        info.implicit_slot_len(),
        info.all_group_len(),
    ];
    walked == [Some(None), Some(Some("x"))]
        && counts == [GROUPS / 2, GROUPS, GROUPS]
        && info.all_names().next().is_some()
}

#[test]
fn each_pattern_takes_the_same_time_among_any(rt: HostRuntime) -> Result<(), Fail> {
    let mut captures = captures_of(rt.alloc(), true)?;
    for p in 0..GROUPS / 2 {
        let pid = PatternID::must(p);
        captures.set_pattern(Some(pid));
        let span = Some(Span { start: p, end: p });
        let is_set = captures.set_group(1, span) && captures.get_group_by_name("x") == span;
        let mut spans = captures.iter();
        let walked = [spans.next(), spans.next()];
        let is_there = is_pattern(captures.group_info(), pid);
        assert!(rt;
            is_set && walked == [Some(None), Some(span)] && is_there,
            "{p}"
        );
    }
    Ok(())
}

#[test]
fn each_step_takes_the_same_time_among_any_groups(rt: HostRuntime) -> Result<(), Fail> {
    for are_patterns in [false, true] {
        let mut captures = captures_of(rt.alloc(), are_patterns)?;
        captures.set_pattern(Some(PatternID::ZERO));
        let info = captures.group_info();
        let mut all = info.all_names();
        let mut of_pattern = info.pattern_names(PatternID::ZERO);
        let mut spans = captures.iter();
        for g in 0..GROUPS {
            let is_within = g < captures.group_len();
            let is_next = of_pattern.next().is_some() == is_within
                && spans.next().is_some() == is_within;
            assert!(rt; is_next && all.next().is_some(), "{g}");
        }
        assert!(rt; all.next().is_none());
    }
    Ok(())
}

#[test]
fn a_clone_takes_the_same_time_among_any_groups(rt: HostRuntime) -> Result<(), Fail> {
    let captures = captures_of(rt.alloc(), true)?;
    let info = captures.group_info();
    for _ in 0..GROUPS / 2 {
        let copy = info.clone()?;
        assert!(rt; copy.pattern_len() == GROUPS / 2);
    }
    Ok(())
}

// Whether the first two bytes of a text of `n` alone are extracted, and the first of them, as often as it has bytes.
fn are_extracted(captures: &Captures, text: &str) -> bool {
    for _ in 0..text.len() {
        if captures.extract_from::<&str, 1>(text) != Some(("nn", ["n"])) {
            return false;
        }
    }
    true
}

#[test]
fn an_extraction_takes_the_same_time_in_any_text(rt: HostRuntime) -> Result<(), Fail> {
    let alloc = rt.alloc();
    let text = "n".repeat(alloc, 2 * GROUPS)?;
    let mut captures = Captures::all(alloc, GroupInfo::new(alloc, &[&[None, None]])?)?;
    captures.set_pattern(Some(PatternID::ZERO));
    let is_first = captures.set_group(0, Some(Span { start: 0, end: 2 }));
    let is_second = captures.set_group(1, Some(Span { start: 1, end: 2 }));
    assert!(rt; is_first && is_second && are_extracted(&captures, &text));
    Ok(())
}
