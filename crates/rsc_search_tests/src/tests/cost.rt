//! Runs so long that a call whose time grows with the set, or with the text, doesn't end within the time that a test has.
use rsc_primitives::PatternID;
use rsc_search::{Input, PatternSet, Span};
use std::alloc::Global;
use std::test::Fail;

const COUNT: usize = 500_000;

// The set of all patterns below the count. Whether each was new, and then not.
fn filled(alloc: Global) -> Result<(PatternSet, bool), Fail> {
    let mut set = PatternSet::new(alloc, COUNT)?;
    let mut is_well = true;
    for p in 0..COUNT {
        if p < set.capacity() {
            is_well = is_well && set.insert(PatternID::must(p)) && !set.is_empty();
        }
    }
    Ok((set, is_well))
}

#[test]
fn each_call_on_a_set_takes_the_same_time_in_any_set(rt: HostRuntime) -> Result<(), Fail> {
    let (mut set, is_well) = filled(rt.alloc())?;
    assert!(rt; is_well && set.is_full());
    let past = PatternID::must(COUNT);
    for p in 0..COUNT {
        let pid = PatternID::must(p);
        let is_there = set.contains(pid) && !set.contains(past);
        let is_again = set.try_insert(pid).is_ok() && set.try_insert(past).is_err();
        let is_counted = set.len() == set.capacity();
        let is_full = set.is_full() && set.iter().len() == COUNT;
        assert!(rt; is_there && is_again && is_counted && is_full, "{p}");
    }
    Ok(())
}

#[test]
fn each_step_takes_the_same_time_in_any_set(rt: HostRuntime) -> Result<(), Fail> {
    let (set, _) = filled(rt.alloc())?;
    let (mut forward, mut back) = (set.iter(), set.iter());
    for p in 0..COUNT {
        let is_next = forward.next() == Some(PatternID::must(p));
        let is_last = back.next_back() == Some(PatternID::must(COUNT - 1 - p));
        let is_left = forward.len() == COUNT - 1 - p;
        assert!(rt; is_next && is_last && is_left, "{p}");
    }
    assert!(rt; forward.next() == None && back.next_back() == None);
    Ok(())
}

// The first and the last number of the blocks between are found from where the last step was.
#[test]
fn a_sparse_set_is_walked_once(rt: HostRuntime) -> Result<(), Fail> {
    let mut set = PatternSet::new(rt.alloc(), 32 * COUNT)?;
    for k in 0..COUNT / 8 {
        let _ = set.try_insert(PatternID::must(256 * k));
    }
    let (mut forward, mut back) = (set.iter(), set.iter());
    for k in 0..COUNT / 8 {
        let is_next = forward.next() == Some(PatternID::must(256 * k));
        let is_last = back.next_back() == Some(PatternID::must(256 * (COUNT / 8 - 1 - k)));
        assert!(rt; is_next && is_last, "{k}");
    }
    Ok(())
}

#[test]
fn sets_are_compared_cloned_and_cleared_in_one_walk(rt: HostRuntime) -> Result<(), Fail> {
    let mut set = PatternSet::new(rt.alloc(), 32 * COUNT)?;
    let other = PatternSet::new(rt.alloc(), 32 * COUNT)?;
    let is_new = set
        .try_insert(PatternID::must(32 * COUNT - 1))
        .is_ok_and(|new| new);
    assert!(rt; is_new && set != other);
    let copy = set.clone()?;
    assert!(rt; copy == set);
    set.clear();
    assert!(rt; set == other);
    Ok(())
}

// Whether each position of a text of this character alone is asked and cut as it should.
fn are_cut(text: &str) -> bool {
    let input = Input::new(text.as_bytes());
    for at in 0..text.len() {
        let is_between = at % 2 == 0;
        let span = Span {
            start: at,
            end: at.saturating_add(2),
        };
        let is_cut = span.get_str(text) == Some("é");
        if [input.is_char_boundary(at), is_cut] != [is_between; 2] {
            return false;
        }
    }
    true
}

#[test]
fn each_part_of_a_text_takes_the_same_time_in_any_text(rt: HostRuntime) -> Result<(), Fail> {
    let text = "é".repeat(rt.alloc(), COUNT / 4)?;
    assert!(rt; are_cut(&text));
    Ok(())
}
