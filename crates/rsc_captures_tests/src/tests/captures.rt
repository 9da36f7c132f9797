//! Matches, spans, names, `extract`; slots out of order and patterns that no group has.
use rsc_captures::{Captures, GroupInfo};
use rsc_primitives::{NonMaxUsize, PatternID};
use rsc_search::{Match, Span};
use std::alloc::Global;
use std::test::Fail;

/// Captures over these groups, with that pattern, and with these offsets in their first slots.
pub(super) fn filled(
    alloc: Global,
    lists: &[&[Option<&str>]],
    pid: usize,
    offsets: &[Option<usize>],
) -> Result<Captures, Fail> {
    let info = GroupInfo::new(alloc, lists)?;
    let mut captures = Captures::all(alloc, info)?;
    captures.set_pattern(PatternID::new(pid).ok());
    let slots = captures.slots_mut();
    for slot in 0..offsets.len() {
        if slot < slots.len() {
            slots[slot] = offsets[slot].and_then(|offset| NonMaxUsize::new(offset));
        }
    }
    Ok(captures)
}

fn span(start: usize, end: usize) -> Option<Span> {
    Some(Span { start, end })
}

#[test]
fn spans_of_one_pattern_go_by_index(rt: HostRuntime) -> Result<(), Fail> {
    for (pid, start, end, group, want) in [
        (7, Some(3), Some(5), 0, span(3, 5)),
        (0, Some(5), Some(3), 0, span(5, 3)),
        (0, Some(5), Some(3), 9223372036854775808, None),
        (0, Some(5), None, 0, None),
    ] {
        let captures = filled(rt.alloc(), &[&[None]], pid, &[start, end])?;
        assert!(rt;
            captures.get_group(group) == want,
            "group {group} of pattern {pid}"
        );
    }
    Ok(())
}

#[test]
fn no_groups_of_an_unknown_pattern(rt: HostRuntime) -> Result<(), Fail> {
    let captures = filled(rt.alloc(), &[&[None]], 7, &[Some(3), Some(5)])?;
    let is_match = captures.is_match() && captures.group_len() == 0;
    let is_group = captures.iter().next() != None || captures.get_group_by_name("x") != None;
    assert!(rt; is_match && !is_group);
    Ok(())
}

#[test]
fn the_greatest_pattern_of_two_has_no_groups(rt: HostRuntime) -> Result<(), Fail> {
    let groups: [&[Option<&str>]; 2] = [&[None], &[None]];
    let captures = filled(rt.alloc(), &groups, 2147483646, &[Some(3), Some(5)])?;
    let is_match = captures.is_match() && match_in_order(&captures) == None;
    let is_group = captures.iter().next() != None || captures.get_group_by_name("x") != None;
    assert!(rt; is_match && !is_group);
    Ok(())
}

#[test]
fn a_pattern_may_be_set_where_there_is_none(rt: HostRuntime) -> Result<(), Fail> {
    let captures = filled(rt.alloc(), &[], 0, &[])?;
    assert!(rt; captures.is_match() && captures.get_group(0) == None);
    Ok(())
}

#[test]
fn spans_of_more_patterns_go_by_the_pattern(rt: HostRuntime) -> Result<(), Fail> {
    let offsets = [None, None, Some(3), Some(5)];
    for (pid, want) in [(0, None), (1, span(3, 5)), (7, None), (2147483646, None)] {
        let captures = filled(rt.alloc(), &[&[None], &[None]], pid, &offsets)?;
        assert!(rt; captures.get_group(0) == want, "of pattern {pid}");
    }
    Ok(())
}

#[test]
fn iterates_over_the_groups(rt: HostRuntime) -> Result<(), Fail> {
    let info = GroupInfo::new(rt.alloc(), &[&[None, Some("x")], &[None]])?;
    let mut captures = Captures::matches(rt.alloc(), info)?;
    captures.set_pattern(Some(PatternID::ZERO));
    let is_set = captures.set_group(0, span(0, 3)) && captures.slots().len() == 4;
    let mut spans = captures.iter();
    let is_whole = spans.size_hint() == (2, Some(2)) && spans.len() == 2;
    let walked = [spans.next(), spans.next(), spans.next(), spans.next()];
    let is_walked = walked == [Some(span(0, 3)), Some(None), None, None];
    assert!(rt; is_set && is_whole && is_walked && captures.group_info().pattern_len() == 2);
    Ok(())
}

#[test]
fn captures_without_slots_know_the_pattern(rt: HostRuntime) -> Result<(), Fail> {
    let info = GroupInfo::new(rt.alloc(), &[&[None]])?;
    let mut captures = Captures::empty(rt.alloc(), info)?;
    let was_match = captures.is_match();
    captures.set_pattern(Some(PatternID::ZERO));
    let is_match = captures.is_match() && captures.pattern() == Some(PatternID::ZERO);
    let is_empty = captures.get_group(0) == None && match_in_order(&captures) == None;
    assert!(rt; !was_match && is_match && captures.group_len() == 1 && is_empty);
    Ok(())
}

#[test]
fn a_clone_keeps_what_its_source_loses(rt: HostRuntime) -> Result<(), Fail> {
    let groups: [&[Option<&str>]; 1] = [&[None, Some("x")]];
    let mut captures = filled(rt.alloc(), &groups, 0, &[Some(0), Some(3), None, None])?;
    let named = captures.get_group_by_name("x");
    let copy = captures.clone()?;
    captures.clear();
    let is_clear = !captures.is_match() && captures.slots().len() == 4;
    assert!(rt; is_clear && named == None && copy.get_group(0) == span(0, 3));
    Ok(())
}

// Captures of three groups in one pattern: the first holds all of "abc", the second what is asked for, and the last "b".
fn three_groups(alloc: Global, start: Option<usize>, end: Option<usize>) -> Result<Captures, Fail> {
    let offsets = [Some(0), Some(3), start, end, Some(1), Some(2)];
    filled(alloc, &[&[None, None, None]], 0, &offsets)
}

#[test]
fn extracts_the_groups_that_take_part(rt: HostRuntime) -> Result<(), Fail> {
    let captures = three_groups(rt.alloc(), None, None)?;
    let none = captures.extract_from::<&str, 0>("abc") == Some(("abc", []));
    let one = captures.extract_from::<&str, 1>("abc") == Some(("abc", ["b"]));
    let two = captures.extract_from::<&str, 2>("abc") == None;
    assert!(rt; none && one && two);
    Ok(())
}

#[test]
fn extracts_no_span_that_is_out_of_order_or_cuts_a_character(rt: HostRuntime) -> Result<(), Fail> {
    let captures = three_groups(rt.alloc(), None, None)?;
    let is_cut = captures.extract_from::<&str, 1>("é") == None;
    let reversed = filled(rt.alloc(), &[&[None]], 0, &[Some(5), Some(3)])?;
    let is_reversed = reversed.extract_from::<&str, 0>("abcdef") == None;
    assert!(rt; is_cut && is_reversed);
    Ok(())
}

#[test]
fn extracts_texts_by_count(rt: HostRuntime) -> Result<(), Fail> {
    let captures = three_groups(rt.alloc(), Some(0), Some(1))?;
    let none = captures.extract_from::<&str, 0>("abc") == Some(("abc", []));
    let one = captures.extract_from::<&str, 1>("abc") == Some(("abc", ["a"]));
    let two = captures.extract_from::<&str, 2>("abc") == Some(("abc", ["a", "b"]));
    let three = captures.extract_from::<&str, 3>("abc") == None;
    assert!(rt; none && one && two && three);
    Ok(())
}

#[test]
fn extracts_bytes_by_count(rt: HostRuntime) -> Result<(), Fail> {
    let captures = three_groups(rt.alloc(), Some(0), Some(1))?;
    let (abc, a, b): (&[u8], &[u8], &[u8]) = (b"abc", b"a", b"b");
    let none = captures.extract_from::<&[u8], 0>(abc) == Some((abc, []));
    let one = captures.extract_from::<&[u8], 1>(abc) == Some((abc, [a]));
    let two = captures.extract_from::<&[u8], 2>(abc) == Some((abc, [a, b]));
    let three = captures.extract_from::<&[u8], 3>(abc) == None;
    assert!(rt; none && one && two && three);
    Ok(())
}

// The match, where its span is in order.
fn match_in_order(captures: &Captures) -> Option<Match> {
    if let Some(span) = captures.get_group(0) {
        if span.start > span.end {
            return None;
        }
    }
    captures.get_match()
}

#[test]
fn matches_need_the_pattern_and_both_slots(rt: HostRuntime) -> Result<(), Fail> {
    let alloc = rt.alloc();
    let two: [&[Option<&str>]; 2] = [&[None], &[None]];
    let of_the_second = filled(alloc, &two, 1, &[None, None, Some(3), Some(5)])?;
    let with_one_slot = filled(alloc, &[&[None]], 0, &[Some(5), None])?;
    let of_an_unknown_pattern = filled(alloc, &two, 7, &[Some(3), Some(5)])?;
    let found = [
        match_in_order(&of_the_second),
        match_in_order(&with_one_slot),
        match_in_order(&of_an_unknown_pattern),
    ];
    assert!(rt; found == [Some(Match::must(1, Span { start: 3, end: 5 })), None, None]);
    Ok(())
}

// An extracted part outlives the captures.
fn whole_of<'h>(alloc: Global, haystack: &'h str) -> Result<Option<&'h str>, Fail> {
    let captures = filled(alloc, &[&[None]], 0, &[Some(1), Some(2)])?;
    let found: Option<(&str, [&str; 0])> = captures.extract_from(haystack);
    Ok(found.map(|(whole, _)| whole))
}

#[test]
fn parts_outlive_the_captures(rt: HostRuntime) -> Result<(), Fail> {
    assert!(rt; whole_of(rt.alloc(), "abc")? == Some("b"));
    Ok(())
}

// Captures of two patterns of two groups, with the second pattern and the span of its first group.
fn second_of_two(alloc: Global) -> Result<Captures, Fail> {
    let groups: [&[Option<&str>]; 2] = [&[None, None], &[None, None]];
    filled(alloc, &groups, 1, &[Some(1), Some(2), Some(3), Some(4)])
}

#[test]
fn sets_the_span_of_one_group(rt: HostRuntime) -> Result<(), Fail> {
    let mut captures = second_of_two(rt.alloc())?;
    let is_set = captures.set_group(1, span(5, 9));
    let spans = [captures.get_group(1), captures.get_group(0)];
    let is_taken = captures.set_group(0, None) && captures.get_group(0) == None;
    assert!(rt; is_set && spans == [span(5, 9), span(3, 4)] && is_taken);
    Ok(())
}

#[test]
fn refuses_a_span_that_no_group_holds(rt: HostRuntime) -> Result<(), Fail> {
    let mut captures = second_of_two(rt.alloc())?;
    let is_set = captures.set_group(1, span(5, 9));
    // No group 2, and no slot for the greatest offset.
    let is_past = captures.set_group(2, span(5, 9));
    let is_greatest = captures.set_group(1, span(0, usize::MAX));
    let kept = captures.get_group(1);
    captures.set_pattern(None);
    let without = captures.set_group(1, span(5, 9));
    assert!(rt; is_set && !is_past && !is_greatest && !without && kept == span(5, 9));
    Ok(())
}
