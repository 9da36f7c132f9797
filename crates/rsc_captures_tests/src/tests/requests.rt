//! Calls on group infos, captures and errors that take no memory, over an arena that shows each request. What they answer is proved.
use super::group_info::{NAMES, groups_of, names_of};
use super::shown::{bytes_displayed, bytes_shown};
use bumpalo::Bump;
use rsc_captures::{Captures, GroupInfo, GroupInfoError};
use rsc_primitives::PatternID;
use rsc_primitives_tests::requests::Watch;
use rsc_search::{Match, Span};
use std::alloc::Global;
use std::test::Fail;

// A pattern of twelve groups, whose names are found by a table, and one of two, whose name is found one by one.
fn two_patterns(arena: &Bump) -> Result<GroupInfo<&Bump>, Fail> {
    Ok(GroupInfo::new(arena, &[&NAMES, &[None, Some("x")]])?)
}

// Notes each call on the numbers of a group info.
fn note_numbers(watch: &mut Watch<'_>, info: &GroupInfo<&Bump>) {
    let _ = (info.pattern_len(), info.all_group_len());
    watch.note("pattern_len, all_group_len");
    let _ = (info.slot_len(), info.implicit_slot_len());
    watch.note("slot_len, implicit_slot_len");
    let _ = info.explicit_slot_len();
    watch.note("explicit_slot_len");
    let _ = (
        info.group_len(PatternID::ZERO),
        info.group_len(PatternID::must(2)),
    );
    watch.note("group_len");
}

// Notes each call on the slots of a group info: of explicit groups, of first ones and of none.
fn note_slots(watch: &mut Watch<'_>, info: &GroupInfo<&Bump>) {
    let (zero, two) = (PatternID::ZERO, PatternID::must(2));
    let _ = (info.slot(zero, 1), info.slot(zero, 0));
    watch.note("slot");
    let _ = (info.slot(zero, 12), info.slot(two, 0));
    watch.note("slot of no group");
    let _ = (info.slots(PatternID::must(1), 1), info.slots(two, 0));
    watch.note("slots");
}

// Notes each call that looks for a name in a group info.
fn note_names(watch: &mut Watch<'_>, info: &GroupInfo<&Bump>) {
    let (zero, one) = (PatternID::ZERO, PatternID::must(1));
    let _ = info.to_name(zero, 11).is_some() | info.to_name(zero, 3).is_some();
    watch.note("to_name");
    let _ = (info.to_index(zero, "l"), info.to_index(zero, "m"));
    watch.note("to_index among many");
    let _ = (info.to_index(one, "x"), info.to_index(one, "y"));
    watch.note("to_index among few");
}

// Notes each call that finds no name, since there is no such pattern or group.
fn note_no_names(watch: &mut Watch<'_>, info: &GroupInfo<&Bump>) {
    let (zero, two) = (PatternID::ZERO, PatternID::must(2));
    let _ = (info.to_index(two, "x"), info.to_index(zero, ""));
    watch.note("to_index of no group");
    let _ = info.to_name(two, 0).is_some() | info.to_name(zero, 12).is_some();
    watch.note("to_name of no group");
    let mut of_none = info.pattern_names(two);
    let _ = (of_none.len() > 0) | of_none.next().is_some();
    watch.note("pattern_names of no pattern");
}

// Notes each call that walks over names of a group info, of which there are fourteen.
fn note_walks(watch: &mut Watch<'_>, info: &GroupInfo<&Bump>) {
    let mut of_pattern = info.pattern_names(PatternID::must(1));
    let _ = (of_pattern.len(), of_pattern.size_hint());
    watch.note("pattern_names, len, size_hint");
    for _ in 0..3 {
        let _ = of_pattern.next().is_some();
    }
    watch.note("next of pattern_names");
    let mut all = info.all_names();
    for _ in 0..15 {
        let _ = all.next().is_some();
    }
    watch.note("all_names, next to its end");
}

#[test]
fn calls_on_a_group_info_ask_for_no_memory(rt: HostRuntime) -> Result<(), Fail> {
    let arena = Bump::new(rt.alloc());
    let info = two_patterns(&arena)?;
    let mut watch = Watch::new(rt.alloc(), &arena);
    note_numbers(&mut watch, &info);
    note_slots(&mut watch, &info);
    note_names(&mut watch, &info);
    note_no_names(&mut watch, &info);
    note_walks(&mut watch, &info);
    let is_cloned = info.clone().is_ok();
    watch.note("clone of a group info, drop");
    let is_shown = bytes_shown(&info) > 0;
    watch.note("fmt");
    let asking = watch.asking();
    assert!(rt; is_cloned && is_shown && asking == "", "{asking}");
    Ok(())
}

// Notes each call that writes into captures.
fn note_writes(watch: &mut Watch<'_>, captures: &mut Captures<&Bump>) {
    let span = Some(Span { start: 3, end: 4 });
    let _ = captures.set_group(1, span);
    watch.note("set_group without a pattern");
    captures.set_pattern(Some(PatternID::must(1)));
    watch.note("set_pattern");
    let _ = captures.set_group(2, span);
    watch.note("set_group past the groups");
    let _ = captures.slots_mut().len();
    watch.note("slots_mut");
    captures.clear();
    watch.note("clear");
}

// Notes calls that take a span away, and that are refused one.
fn note_refused_writes(watch: &mut Watch<'_>, captures: &mut Captures<&Bump>) {
    captures.set_pattern(Some(PatternID::must(1)));
    let _ = captures.set_group(1, None);
    watch.note("set_group of no span");
    let past = Some(Span {
        start: 0,
        end: usize::MAX,
    });
    let _ = captures.set_group(1, past);
    watch.note("set_group of an offset that no slot holds");
    captures.set_pattern(None);
    watch.note("set_pattern of none");
}

// Sets the span of both groups of pattern 1, and notes it. Whether both are set.
fn set_both(watch: &mut Watch<'_>, captures: &mut Captures<&Bump>) -> bool {
    let span = Some(Span { start: 3, end: 4 });
    captures.set_pattern(Some(PatternID::must(1)));
    let is_set = captures.set_group(0, span) && captures.set_group(1, span);
    watch.note("set_group");
    is_set
}

// The match of captures whose group 0 has its start before its end, as `get_match` needs it.
fn match_of(captures: &Captures<&Bump>) -> Option<Match> {
    match captures.get_group(0) {
        Some(span) if span.start <= span.end => captures.get_match(),
        _ => None,
    }
}

// Notes each call that reads captures by number or name.
fn note_reads(watch: &mut Watch<'_>, captures: &Captures<&Bump>) {
    let _ = (captures.is_match(), captures.pattern());
    watch.note("is_match, pattern");
    let _ = (captures.group_len(), captures.slots().len());
    watch.note("group_len, slots");
    let _ = (captures.get_group(1), captures.get_group(2));
    watch.note("get_group");
    let _ = (
        captures.get_group_by_name("x"),
        captures.get_group_by_name("y"),
    );
    watch.note("get_group_by_name");
    let _ = match_of(captures);
    watch.note("get_match");
}

// Notes each further call that reads captures.
fn note_further_reads(watch: &mut Watch<'_>, captures: &Captures<&Bump>) {
    let mut spans = captures.iter();
    let _ = (spans.len(), spans.size_hint());
    watch.note("iter, len, size_hint");
    let _ = (spans.next(), spans.next(), spans.next());
    watch.note("next of iter");
    let _ = captures.group_info().pattern_len();
    watch.note("group_info");
}

#[test]
fn calls_on_captures_ask_for_no_memory(rt: HostRuntime) -> Result<(), Fail> {
    let arena = Bump::new(rt.alloc());
    let mut captures = Captures::all(&arena, two_patterns(&arena)?)?;
    let mut watch = Watch::new(rt.alloc(), &arena);
    note_reads(&mut watch, &captures);
    note_further_reads(&mut watch, &captures);
    note_writes(&mut watch, &mut captures);
    note_refused_writes(&mut watch, &mut captures);
    let is_set = set_both(&mut watch, &mut captures);
    note_reads(&mut watch, &captures);
    note_further_reads(&mut watch, &captures);
    let asking = watch.asking();
    assert!(rt; is_set && asking == "", "{asking}");
    Ok(())
}

#[test]
fn an_extraction_and_a_text_ask_for_no_memory(rt: HostRuntime) -> Result<(), Fail> {
    let arena = Bump::new(rt.alloc());
    let mut captures = Captures::all(&arena, two_patterns(&arena)?)?;
    let mut watch = Watch::new(rt.alloc(), &arena);
    let is_set = set_both(&mut watch, &mut captures);
    let extracted = captures.extract_from::<&str, 1>("abcde");
    watch.note("extract_from");
    let is_shown = bytes_shown(&captures) > 0;
    watch.note("fmt");
    let asking = watch.asking();
    assert!(rt;
        is_set && extracted == Some(("d", ["d"])) && is_shown && asking == "",
        "{asking}"
    );
    Ok(())
}

// Notes calls on captures of two groups that have no slot for the second one, or all slots.
fn note_few(watch: &mut Watch<'_>, captures: &mut Captures<&Bump>) {
    captures.set_pattern(Some(PatternID::ZERO));
    let _ = captures.set_group(1, Some(Span { start: 3, end: 4 }));
    let _ = (captures.get_group(1), captures.get_group_by_name("x"));
    let _ = (captures.group_len(), captures.iter().next());
    watch.note("calls on captures of one pattern");
}

// One pattern has a way of its own into the slots, and captures of no slots have none to look at.
#[test]
fn captures_of_few_slots_ask_for_no_memory(rt: HostRuntime) -> Result<(), Fail> {
    let arena = Bump::new(rt.alloc());
    let info = GroupInfo::new(&arena, &[&[None, Some("x")]])?;
    let mut one = Captures::all(&arena, info.clone()?)?;
    let mut watch = Watch::new(rt.alloc(), &arena);
    let mut empty = Captures::empty(&arena, info)?;
    watch.note("empty");
    note_few(&mut watch, &mut empty);
    drop(empty);
    watch.note("drop");
    note_few(&mut watch, &mut one);
    let asking = watch.asking();
    assert!(rt; asking == "", "{asking}");
    Ok(())
}

// Notes a clone of an error, and of its kind, and each text. Whether all three are displayed by as many bytes.
fn note_error(watch: &mut Watch<'_>, error: &GroupInfoError<&Bump>) -> bool {
    let Ok(copy) = error.clone() else {
        return false;
    };
    let Ok(kind) = error.kind().clone() else {
        return false;
    };
    watch.note("clone, kind");
    let counts = [
        bytes_displayed(error),
        bytes_displayed(&copy),
        bytes_displayed(&kind),
    ];
    watch.note("fmt");
    let is_shown = bytes_shown(error) > 0;
    watch.note("fmt of Debug");
    counts == [counts[0]; 3] && counts[0] > 60 && is_shown
}

// Notes what a list that is refused asks for. Whether its error, and a clone of that, is displayed by as many bytes as its kind.
fn note_refused(
    watch: &mut Watch<'_>,
    call: &str,
    refused: Result<GroupInfo<&Bump>, GroupInfoError<&Bump>>,
) -> bool {
    watch.note(call);
    match refused {
        Err(error) => note_error(watch, &error),
        Ok(_) => false,
    }
}

#[test]
fn checks_of_patterns_ask_for_no_memory(rt: HostRuntime) -> Result<(), Fail> {
    let arena = Bump::new(rt.alloc());
    let mut watch = Watch::new(rt.alloc(), &arena);
    let made = GroupInfo::new(&arena, &[&NAMES, &[]]);
    let is_missing = note_refused(&mut watch, "new, a pattern without groups", made);
    let made = GroupInfo::new(&arena, &[&NAMES, &[Some("x")]]);
    let is_named = note_refused(&mut watch, "new, a first group with a name", made);
    let made = GroupInfo::new(&arena, &[&[], &[None, Some("x"), Some("x")]]);
    let is_first = note_refused(&mut watch, "new, before a repeated name", made);
    let asking = watch.asking();
    assert!(rt;
        is_missing && is_named && is_first && asking == "",
        "{asking}"
    );
    Ok(())
}

#[test]
fn checks_of_limits_ask_for_no_memory(rt: HostRuntime) -> Result<(), Fail> {
    let arena = Bump::new(rt.alloc());
    let mut watch = Watch::new(rt.alloc(), &arena);
    let made = GroupInfo::new_limited(&arena, 21, &[&NAMES]);
    let is_explicit = note_refused(&mut watch, "new_limited, too many explicit groups", made);
    let made = GroupInfo::new_limited(&arena, 23, &[&NAMES]);
    let is_any = note_refused(&mut watch, "new_limited, too many groups", made);
    let asking = watch.asking();
    assert!(rt; is_explicit && is_any && asking == "", "{asking}");
    Ok(())
}

// Notes what a pattern of 5,001 groups asks for whose fault is found after all of them.
fn is_long_refused(
    alloc: Global,
    watch: &mut Watch<'_>,
    arena: &Bump,
    groups: &[Option<&str>],
) -> Result<bool, Fail> {
    let lists = vec![in alloc; groups; 1]?;
    let made = GroupInfo::new_limited(arena, 10_001, &lists);
    Ok(note_refused(watch, "new_limited, a fault after many names", made))
}

#[test]
fn checks_of_a_long_list_ask_for_no_memory(rt: HostRuntime) -> Result<(), Fail> {
    let names = names_of(rt.alloc(), 5_000)?;
    let groups = groups_of(rt.alloc(), &names)?;
    let arena = Bump::new(rt.alloc());
    let mut watch = Watch::new(rt.alloc(), &arena);
    let is_refused = is_long_refused(rt.alloc(), &mut watch, &arena, &groups)?;
    let asking = watch.asking();
    assert!(rt; is_refused && asking == "", "{asking}");
    Ok(())
}

// The bytes that the group info of one pattern asks an arena for, which takes nothing back.
fn asked_by(alloc: Global, groups: &[Option<&str>]) -> Result<usize, Fail> {
    let arena = Bump::try_with_capacity(alloc, 1_000_000)?;
    let whole = arena.chunk_capacity();
    let mut lists: Vec<&[Option<&str>]> = Vec::new(alloc);
    lists.push(groups)?;
    let _info = GroupInfo::new(&arena, &lists)?;
    Ok(whole.saturating_sub(arena.chunk_capacity()))
}

// A group takes 20 bytes, its name 8 here, and its entries of the table 8 to 16.
#[test]
fn a_group_info_asks_for_what_it_keeps(rt: HostRuntime) -> Result<(), Fail> {
    for count in [12usize, 300, 3_000] {
        let names = names_of(rt.alloc(), count)?;
        let groups = groups_of(rt.alloc(), &names)?;
        let bytes = asked_by(rt.alloc(), &groups)?;
        assert!(rt;
            36 * count <= bytes && bytes <= 44 * count + 512,
            "{count} groups ask for {bytes} bytes"
        );
    }
    Ok(())
}
