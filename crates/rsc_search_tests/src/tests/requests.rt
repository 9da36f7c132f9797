//! Calls on pattern sets that take no memory, over an arena that shows each request. No other call of the library is handed an allocator.
use super::shown::Counter;
use bumpalo::Bump;
use rsc_primitives::PatternID;
use rsc_primitives_tests::requests::Watch;
use rsc_search::PatternSet;
use std::fmt::Write;
use std::test::Fail;

// Notes each call that reads a set of the member 319 alone. Whether each answered as it should.
fn read(watch: &mut Watch<'_>, set: &PatternSet<&Bump>) -> bool {
    let last = PatternID::must(319);
    let has_last = set.contains(last);
    watch.note("contains a member");
    let has_first = set.contains(PatternID::ZERO) || set.contains(PatternID::must(320));
    watch.note("contains");
    let counts = (set.len(), set.capacity(), set.is_empty(), set.is_full());
    watch.note("len, capacity, is_empty, is_full");
    let mut members = set.iter();
    let walked = (members.next(), members.next(), members.len());
    watch.note("iter, next, len");
    let mut back = set.iter();
    let last_ones = (back.size_hint().0, back.next_back(), back.next_back());
    watch.note("size_hint, next_back");
    let mut counter = Counter::new();
    let is_shown = write!(counter, "{set:?}").is_ok();
    watch.note("fmt");
    has_last
        && !has_first
        && counts == (1, 320, false, false)
        && walked == (Some(last), None, 0)
        && last_ones == (1, Some(last), None)
        && is_shown
}

// Notes insertions into an empty set of the pattern 319, and of the first past its capacity. Whether each answered as it should.
fn insert(watch: &mut Watch<'_>, set: &mut PatternSet<&Bump>) -> bool {
    if set.capacity() != 320 {
        return false;
    }
    let (last, past) = (PatternID::must(319), PatternID::must(320));
    let is_new = set.insert(last);
    watch.note("insert");
    let is_again = set.insert(last);
    watch.note("insert a member");
    let is_refused = set.try_insert(past).is_err();
    watch.note("a refused try_insert");
    let is_tried = set.try_insert(last).is_ok_and(|new| !new);
    watch.note("try_insert a member");
    is_new && !is_again && is_refused && is_tried
}

// Notes comparisons of a set with an empty one, before and after it is cleared. Whether each answered as it should.
fn compare<'a>(
    watch: &mut Watch<'_>,
    set: &mut PatternSet<&'a Bump>,
    empty: &PatternSet<&'a Bump>,
) -> bool {
    let are_equal = *set == *empty;
    watch.note("eq of different sets");
    set.clear();
    watch.note("clear");
    let are_then = *set == *empty;
    watch.note("eq");
    let is_tried = set.try_insert(PatternID::must(319)).is_ok_and(|new| new);
    watch.note("try_insert");
    !are_equal && are_then && is_tried
}

#[test]
fn calls_on_a_set_ask_for_no_memory(rt: HostRuntime) -> Result<(), Fail> {
    let arena = Bump::new(rt.alloc());
    let mut set = PatternSet::new(&arena, 320)?;
    let other = PatternSet::new(&arena, 320)?;
    let mut watch = Watch::new(rt.alloc(), &arena);
    let are_inserted = insert(&mut watch, &mut set);
    let are_read = read(&mut watch, &set);
    let are_compared = compare(&mut watch, &mut set, &other);
    assert!(rt; are_inserted && are_read && are_compared);
    assert_eq!(rt; watch.asking(), "");
    Ok(())
}

// Notes insertions beside a member, and comparisons with sets of other capacities. Whether each answered as it should.
fn insert_and_compare<'a>(
    watch: &mut Watch<'_>,
    set: &mut PatternSet<&'a Bump>,
    smaller: &PatternSet<&'a Bump>,
    none: &PatternSet<&'a Bump>,
) -> bool {
    if set.capacity() != 320 {
        return false;
    }
    let are_new = [set.insert(PatternID::ZERO), set.insert(PatternID::must(1))];
    watch.note("insert beside a member");
    let are_equal = [*set == *smaller, *none == *smaller];
    watch.note("eq of sets of different capacities");
    are_new == [true, true] && are_equal == [false, false]
}

#[test]
fn calls_on_sets_of_other_capacities_ask_for_no_memory(rt: HostRuntime) -> Result<(), Fail> {
    let arena = Bump::new(rt.alloc());
    let mut set = PatternSet::new(&arena, 320)?;
    let smaller = PatternSet::new(&arena, 64)?;
    let mut watch = Watch::new(rt.alloc(), &arena);
    let none = PatternSet::new(&arena, 0)?;
    watch.note("new of no capacity");
    let copy = none.clone()?;
    watch.note("clone of a set of no capacity");
    let is_cloned = copy == none;
    assert!(rt; is_cloned && insert_and_compare(&mut watch, &mut set, &smaller, &none));
    assert_eq!(rt; watch.asking(), "");
    Ok(())
}

// Notes each call on a set without members. Whether each answered as it should.
fn read_empty(watch: &mut Watch<'_>, set: &mut PatternSet<&Bump>) -> bool {
    let was_empty = set.is_empty() && !set.is_full();
    watch.note("is_empty of an empty set");
    let walked = [set.iter().next(), set.iter().next_back()];
    watch.note("iter of an empty set");
    set.clear();
    watch.note("clear of an empty set");
    let is_past = set.contains(PatternID::MAX) || set.try_insert(PatternID::MAX).is_ok();
    watch.note("the greatest pattern");
    was_empty && walked == [None, None] && !is_past
}

// Whether a set takes both patterns that it can have.
fn is_filled(set: &mut PatternSet<&Bump>) -> bool {
    let is_first = set.try_insert(PatternID::ZERO).is_ok();
    is_first && set.try_insert(PatternID::must(1)).is_ok()
}

// Notes each call on a set of both, beside another of both. Whether each answered as it should.
fn read_full<'a>(
    watch: &mut Watch<'_>,
    set: &mut PatternSet<&'a Bump>,
    other: &PatternSet<&'a Bump>,
) -> bool {
    let are_full = set.is_full() && other.is_full() && !set.is_empty();
    watch.note("is_full of a full set");
    let are_equal = *set == *other;
    watch.note("eq of equal sets");
    let count = set.iter().len();
    set.clear();
    watch.note("clear of a full set");
    are_full && are_equal && count == 2 && set.is_empty()
}

// A set without members, then one of all that it can have.
#[test]
fn calls_on_empty_and_full_sets_ask_for_no_memory(rt: HostRuntime) -> Result<(), Fail> {
    let arena = Bump::new(rt.alloc());
    let mut set = PatternSet::new(&arena, 2)?;
    let mut other = PatternSet::new(&arena, 2)?;
    let mut watch = Watch::new(rt.alloc(), &arena);
    let is_empty = read_empty(&mut watch, &mut set);
    let are_filled = is_filled(&mut set) && is_filled(&mut other);
    watch.note("try_insert of all");
    let is_full = read_full(&mut watch, &mut set, &other);
    assert!(rt; is_empty && are_filled && is_full);
    assert_eq!(rt; watch.asking(), "");
    Ok(())
}
