//! Refused memory: budgets that grow by 8 bytes refuse a set, and then its clone, until there is enough.
use linked_list_allocator::LocalHeap;
use rsc_primitives::PatternID;
use rsc_search::PatternSet;
use std::alloc::Global;
use std::test::Fail;

// Over memory of that size: whether a set could be made, and whether it and its clone could. `None` is a wrong answer: a set
// that isn't as before where its clone was refused, or other memory taken.
fn made_and_cloned(heap: &LocalHeap) -> Option<(bool, bool)> {
    let Ok(mut set) = PatternSet::new(heap, 320) else {
        return Some((false, false));
    };
    let seven = PatternID::must(7);
    let inserted = set.try_insert(seven).is_ok_and(|new| new);
    let used = heap.used();
    let cloned = match set.clone() {
        Ok(copy) => {
            if copy != set {
                return None;
            }
            true
        }
        Err(_) => false,
    };
    let as_before = set.len() == 1 && set.capacity() == 320 && set.contains(seven);
    if inserted && as_before && heap.used() == used {
        Some((true, cloned))
    } else {
        None
    }
}

#[test]
fn memory_is_refused_until_there_is_enough(rt: HostRuntime) -> Result<(), Fail> {
    let mut last = (false, false);
    let mut clone_was_refused = false;
    for size in 0..64usize {
        let heap = LocalHeap::new(rt.alloc(), 8 * size)?;
        match made_and_cloned(&heap) {
            Some((made, cloned)) => {
                // What was made with less memory is made with more.
                assert!(rt; (made || !last.0) && (cloned || !last.1) && (size > 0 || !made));
                clone_was_refused = clone_was_refused || (made && !cloned);
                last = (made, cloned);
            }
            None => assert!(rt; false),
        }
        assert!(rt; heap.used() == 0);
    }
    assert!(rt; clone_was_refused && last == (true, true));
    Ok(())
}

// Whether a set of that capacity, its clone, and the clone of the set with its last member could be made.
fn is_answered(alloc: Global, capacity: usize) -> bool {
    if capacity > 100_000 {
        return false;
    }
    let Ok(mut set) = PatternSet::new(alloc, capacity) else {
        return false;
    };
    let is_cloned = set.clone().is_ok_and(|copy| copy == set);
    if capacity > 0 {
        set.insert(PatternID::must(capacity - 1));
    }
    is_cloned && set.capacity() == capacity && set.clone().is_ok_and(|copy| copy == set)
}

// On both sides of a block, and at sizes that no threshold is near.
#[test]
fn ample_memory_suffices(rt: HostRuntime) {
    for capacity in [0, 1, 2, 63, 64, 65, 128, 300, 1_000, 100_000] {
        assert!(rt; is_answered(rt.alloc(), capacity), "{capacity}");
    }
}

#[test]
fn sets_of_any_members_are_cloned(rt: HostRuntime) -> Result<(), Fail> {
    let mut set = PatternSet::new(rt.alloc(), 200)?;
    for p in 0..200usize {
        let is_new = set.try_insert(PatternID::must(p)).is_ok_and(|new| new);
        let copy = set.clone()?;
        assert!(rt; is_new && copy == set, "{p}");
    }
    Ok(())
}

// Whether each call on a set that takes no memory answers as it should and leaves what is used of the memory as it was.
fn takes_none(heap: &LocalHeap, set: &mut PatternSet<&LocalHeap>) -> bool {
    let used = heap.used();
    let (first, last, past) = (PatternID::ZERO, PatternID::must(319), PatternID::must(320));
    let is_refused = set.try_insert(past).is_err() && heap.used() == used;
    let is_inserted = set.try_insert(last).is_ok_and(|new| new) && heap.used() == used;
    let is_again = set.try_insert(last).is_ok_and(|new| !new) && heap.used() == used;
    let is_read = set.contains(last) && !set.contains(first) && set.len() == 1;
    let is_walked = set.iter().next() == Some(last) && set.iter().next_back() == Some(last);
    set.clear();
    is_refused
        && is_inserted
        && is_again
        && is_read
        && is_walked
        && set.is_empty()
        && heap.used() == used
}

// Whether a set is made over memory of that size, and then its calls take none. The clone of the set tells whether there is
// room for more.
fn is_made_and_takes_none(alloc: Global, size: usize, has_room: bool) -> Result<bool, Fail> {
    let heap = LocalHeap::new(alloc, size)?;
    let Ok(mut set) = PatternSet::new(&heap, 320) else {
        return Ok(false);
    };
    Ok(set.clone().is_ok() == has_room && takes_none(&heap, &mut set))
}

// Over the least memory that suffices for a set, where there is no room for anything else, and over ample memory.
#[test]
fn calls_on_a_set_take_no_memory(rt: HostRuntime) -> Result<(), Fail> {
    let mut is_tried = false;
    for size in 0..64usize {
        is_tried = is_tried || is_made_and_takes_none(rt.alloc(), 8 * size, false)?;
    }
    assert!(rt; is_tried);
    assert!(rt; is_made_and_takes_none(rt.alloc(), 4096, true)?);
    Ok(())
}
