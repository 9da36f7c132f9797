//! Calls over ample memory at sizes on both sides of any limit, and calls that take no memory.
use linked_list_allocator::LocalHeap;
use rsc_captures::{Captures, GroupInfo, GroupInfoError, GroupInfoErrorKind};
use rsc_primitives::{NonMaxUsize, PatternID};
use std::alloc::{AllocError, Global};
use std::test::Fail;

const SIZES: [usize; 10] = [0, 1, 2, 31, 63, 64, 65, 1_000, 2_000, 100_000];

// The slots of a clone.
fn slots_of_clone(captures: &Captures) -> Result<usize, Fail> {
    let copy = captures.clone()?;
    Ok(copy.slots().len())
}

// Whether captures and their clones are answered, with that many slots.
fn are_answered(alloc: Global, info: GroupInfo, all: usize, matches: usize) -> Result<bool, Fail> {
    let first = slots_of_clone(&Captures::all(alloc, info.clone()?)?)?;
    let second = slots_of_clone(&Captures::matches(alloc, info)?)?;
    Ok(first == all && second == matches)
}

#[test]
fn so_many_patterns_are_answered(rt: HostRuntime) -> Result<(), Fail> {
    let alloc = rt.alloc();
    let groups: &[Option<&str>] = &[None, Some("name")];
    for count in SIZES {
        let lists: Vec<&[Option<&str>]> = vec![in alloc; groups; count]?;
        let info = GroupInfo::new(alloc, &lists)?;
        assert!(rt; info.pattern_len() == count && info.all_group_len() / 2 == count);
        assert!(rt; are_answered(alloc, info, 4 * count, 2 * count)?, "{count}");
    }
    Ok(())
}

#[test]
fn so_many_groups_are_answered(rt: HostRuntime) -> Result<(), Fail> {
    let alloc = rt.alloc();
    for count in SIZES {
        if count > 0 {
            let groups: Vec<Option<&str>> = vec![in alloc; None; count]?;
            let info = GroupInfo::new(alloc, &[&groups])?;
            assert!(rt; are_answered(alloc, info, 2 * count, 2)?, "{count}");
        }
    }
    Ok(())
}

// Whether the error is that this name is repeated.
fn repeats(error: &GroupInfoError, name: &str) -> bool {
    match error.kind() {
        GroupInfoErrorKind::Duplicate { name: given, .. } => given.as_str() == name,
        _ => false,
    }
}

// Whether a list with this name twice is refused for it.
fn is_refused(alloc: Global, name: &str) -> bool {
    match GroupInfo::new(alloc, &[&[None, Some(name), Some(name)]]) {
        Err(error) => repeats(&error, name),
        Ok(_) => false,
    }
}

#[test]
fn names_of_any_length_are_answered(rt: HostRuntime) -> Result<(), Fail> {
    let alloc = rt.alloc();
    for length in SIZES {
        let name = "n".repeat(alloc, length)?;
        let info = GroupInfo::new(alloc, &[&[None, Some(name.as_str())]])?;
        let index = info.to_index(PatternID::ZERO, &name);
        assert!(rt; index == Some(1) && is_refused(alloc, &name), "{length}");
    }
    Ok(())
}

// Whether captures of pattern 0, whose group 1 has a span, answer each call that reads them.
fn are_read(captures: &Captures<&LocalHeap>) -> bool {
    let by_name = captures.get_group_by_name("x");
    captures.is_match()
        && captures.pattern() == Some(PatternID::ZERO)
        && by_name.is_some()
        && captures.get_group(1) == by_name
        && captures.iter().next() == Some(None)
        && captures.group_info().all_names().next() == Some((PatternID::ZERO, 0, None))
}

// Whether each call on captures that takes no memory answers as it should and leaves what is used of the heap as it was.
fn take_none(heap: &LocalHeap, captures: &mut Captures<&LocalHeap>) -> bool {
    let used = heap.used();
    captures.set_pattern(Some(PatternID::ZERO));
    let slots = captures.slots_mut();
    if slots.len() == 6 {
        slots[4] = NonMaxUsize::new(1);
        slots[5] = NonMaxUsize::new(2);
    }
    let are_read = are_read(captures);
    captures.clear();
    are_read && !captures.is_match() && heap.used() == used
}

// Whether captures are made over a heap of that size; then the calls on them take none of it.
fn is_made(alloc: Global, size: usize) -> Result<(bool, bool), Fail> {
    let heap = LocalHeap::new(alloc, size)?;
    let Ok(info) = GroupInfo::new(&heap, &[&[None, Some("x")], &[None]]) else {
        return Ok((false, true));
    };
    match Captures::all(&heap, info) {
        Ok(mut captures) => Ok((true, take_none(&heap, &mut captures))),
        Err(_) => Ok((false, true)),
    }
}

// The least heap that has room for the captures has room for nothing else.
#[test]
fn calls_on_captures_take_no_memory(rt: HostRuntime) -> Result<(), Fail> {
    let mut was_made = false;
    for size in 0..512usize {
        let (is_made, takes_none) = is_made(rt.alloc(), 8 * size)?;
        assert!(rt; takes_none, "over {size}");
        was_made = was_made || is_made;
    }
    assert!(rt; was_made);
    Ok(())
}

#[test]
fn captures_without_slots_take_no_memory(rt: HostRuntime) -> Result<(), Fail> {
    let (of_info, none) = (
        LocalHeap::new(rt.alloc(), 4096)?,
        LocalHeap::new(rt.alloc(), 0)?,
    );
    let info = GroupInfo::new(&of_info, &[&[None, Some("x")]])?;
    let used = of_info.used();
    let captures = Captures::empty(&none, info)?;
    assert!(rt; captures.slots().is_empty() && of_info.used() == used && none.used() == 0);
    Ok(())
}

// Sets the pattern and the two slots of the first group, if they are there. Whether a clone is made, and has the same.
fn is_cloned(captures: &mut Captures, pid: Option<PatternID>, offsets: [Option<usize>; 2]) -> bool {
    captures.set_pattern(pid);
    let slots = captures.slots_mut();
    for slot in 0..2usize {
        if slot < slots.len() {
            slots[slot] = offsets[slot].and_then(|offset| NonMaxUsize::new(offset));
        }
    }
    match captures.clone() {
        Ok(copy) => copy.pattern() == pid && copy.slots() == captures.slots(),
        Err(_) => false,
    }
}

// Captures of one pattern with any slots, of that pattern, of others and of none, with spans from either end and halves of spans.
#[test]
fn clones_of_any_captures_are_made(rt: HostRuntime) -> Result<(), Fail> {
    let info = GroupInfo::new(rt.alloc(), &[&[None, Some("x")]])?;
    let mut all = Captures::all(rt.alloc(), info.clone()?)?;
    let mut matches = Captures::matches(rt.alloc(), info.clone()?)?;
    let mut empty = Captures::empty(rt.alloc(), info)?;
    for number in [0, 1, 2147483646, 2147483647] {
        let pid = PatternID::new(number).ok();
        for offsets in [
            [None, None],
            [Some(3), None],
            [None, Some(5)],
            [Some(3), Some(5)],
            [Some(5), Some(5)],
            [Some(5), Some(3)],
        ] {
            let is_of_all = is_cloned(&mut all, pid, offsets);
            let is_of_matches = is_cloned(&mut matches, pid, offsets);
            let is_of_empty = is_cloned(&mut empty, pid, offsets);
            assert!(rt; is_of_all && is_of_matches && is_of_empty, "{number}");
        }
    }
    Ok(())
}

#[test]
fn many_clones_share_a_group_info(rt: HostRuntime) -> Result<(), Fail> {
    let info = GroupInfo::new(rt.alloc(), &[&[None, Some("x")]])?;
    let mut clones: Vec<GroupInfo> = Vec::new(rt.alloc());
    for _ in 0..100_000 {
        clones.push(info.clone()?)?;
    }
    assert!(rt; clones.len() == 100_000 && info.to_index(PatternID::ZERO, "x") == Some(1));
    Ok(())
}

// Offsets at which a number of fewer bits would end.
#[test]
fn a_clone_keeps_offsets_of_any_size(rt: HostRuntime) -> Result<(), Fail> {
    for offset in [0, 255, 65_536, 4_294_967_295, 4_294_967_296, usize::MAX - 1] {
        let info = GroupInfo::new(rt.alloc(), &[&[None]])?;
        let mut captures = Captures::all(rt.alloc(), info)?;
        captures.set_pattern(Some(PatternID::ZERO));
        captures.slots_mut()[1] = NonMaxUsize::new(offset);
        let copy = captures.clone()?;
        assert!(rt; copy.slots() == captures.slots(), "{offset}");
    }
    Ok(())
}

// Group 0, and a group for each of the names.
fn groups_of<'a>(alloc: Global, names: &'a [String]) -> Result<Vec<Option<&'a str>>, AllocError> {
    let mut groups = Vec::new(alloc);
    groups.push(None)?;
    for name in names {
        groups.push(Some(name.as_str()))?;
    }
    Ok(groups)
}

// Twelve names of a hundred thousand bytes, which differ in the last one.
fn long_names(alloc: Global) -> Result<Vec<String>, AllocError> {
    let long = "n".repeat(alloc, 100_000)?;
    let mut names = Vec::new(alloc);
    for k in 0..12 {
        names.push(format!(in alloc; "{long}{k:x}")?)?;
    }
    Ok(names)
}

#[test]
fn names_of_more_than_a_million_bytes_are_answered(rt: HostRuntime) -> Result<(), Fail> {
    let names = long_names(rt.alloc())?;
    let groups = groups_of(rt.alloc(), names.as_slice())?;
    let mut lists: Vec<&[Option<&str>]> = Vec::new(rt.alloc());
    lists.push(groups.as_slice())?;
    let info = GroupInfo::new(rt.alloc(), lists.as_slice())?;
    let last = info.to_index(PatternID::ZERO, names.last().ok_or("no name")?.as_str());
    assert!(rt; info.all_group_len() == 13 && last == Some(12));
    Ok(())
}

// Captures with all slots, or with those of the first groups.
fn captures_of<'a>(
    heap: &'a LocalHeap,
    info: GroupInfo<&'a LocalHeap>,
    with_all: bool,
) -> Result<Captures<&'a LocalHeap>, AllocError> {
    if with_all {
        Captures::all(heap, info)
    } else {
        Captures::matches(heap, info)
    }
}

// Slots are in the memory that the call is handed, not in that of the group info.
#[test]
fn slots_are_in_the_memory_that_is_handed_in(rt: HostRuntime) -> Result<(), Fail> {
    for (with_all, size) in [(false, 0usize), (false, 4096), (true, 0), (true, 4096)] {
        let of_info = LocalHeap::new(rt.alloc(), 4096)?;
        let of_slots = LocalHeap::new(rt.alloc(), size)?;
        let info = GroupInfo::new(&of_info, &[&[None, Some("x")]])?;
        let used = of_info.used();
        let is_right = match captures_of(&of_slots, info, with_all) {
            Ok(_captures) => size > 0 && of_info.used() == used && of_slots.used() > 0,
            Err(_) => size == 0 && of_info.used() == 0,
        };
        assert!(rt; is_right, "{with_all}, {size}");
    }
    Ok(())
}

// What captures over two heaps and a clone of them use of these: the heap of the group info before and after, that of the slots
// before and after. `None` where the clone is refused.
fn used_by_a_clone(
    of_info: &LocalHeap,
    of_slots: &LocalHeap,
    with_all: bool,
) -> Result<Option<[usize; 4]>, Fail> {
    let info = GroupInfo::new(of_info, &[&[None, Some("x")], &[None]])?;
    let captures = captures_of(of_slots, info, with_all)?;
    let (info_before, slots_before) = (of_info.used(), of_slots.used());
    match captures.clone() {
        Ok(_copy) => Ok(Some([info_before, of_info.used(), slots_before, of_slots.used()])),
        Err(_) if of_info.used() == info_before && of_slots.used() == slots_before => Ok(None),
        Err(_) => Ok(Some([0; 4])),
    }
}

// The same over heaps of these sizes. All of both is given back.
fn used_over(
    alloc: Global,
    info_size: usize,
    slots_size: usize,
    with_all: bool,
) -> Result<Option<[usize; 4]>, Fail> {
    let of_info = LocalHeap::new(alloc, info_size)?;
    let of_slots = LocalHeap::new(alloc, slots_size)?;
    let used = used_by_a_clone(&of_info, &of_slots, with_all)?;
    if of_info.used() > 0 || of_slots.used() > 0 {
        return Err(Fail::from("kept"));
    }
    Ok(used)
}

// A clone's slots are in the memory of its source's slots, not in that of the group info.
#[test]
fn a_clone_is_in_the_memory_of_its_source(rt: HostRuntime) -> Result<(), Fail> {
    for with_all in [false, true] {
        let [info, with_clone, slots, both] = used_over(
            rt.alloc(),
            4096,
            4096,
            with_all,
        )?.unwrap_or([0; 4]);
        // There is room for one, and none for its clone.
        let of_scarce = used_over(rt.alloc(), 4096, slots.saturating_add(8), with_all)?;
        // The group info's memory has no room: the clone takes none of it.
        let of_exact = used_over(rt.alloc(), info, 4096, with_all)?;
        let is_there = info == with_clone && slots > 0 && both / 2 == slots;
        assert!(rt;
            is_there && of_scarce.is_none() && of_exact.is_some(),
            "{info}, {slots}"
        );
    }
    Ok(())
}

// The bytes that the group info of that many patterns takes, each with a group that has a name of four bytes; `None` where it isn't answered.
fn bytes_of(heap: &LocalHeap, count: usize) -> usize {
    let groups: [Option<&str>; 2] = [None, Some("name")];
    let patterns: [&[Option<&str>]; 300] = [&groups; 300];
    if count > 300 {
        return 0;
    }
    match GroupInfo::new(heap, &patterns[..count]) {
        Ok(_info) => heap.used(),
        Err(_) => 0,
    }
}

#[test]
fn no_pattern_takes_a_request_of_its_own(rt: HostRuntime) -> Result<(), Fail> {
    // A pattern takes 8 bytes, a group 20, and a name its own. A request takes 16 or more, so one for each pattern would show.
    for count in [1usize, 30, 300] {
        let heap = LocalHeap::new(rt.alloc(), 64 * 1024)?;
        let bytes = bytes_of(&heap, count);
        assert!(rt;
            52 * count <= bytes && bytes <= 52 * count + 256,
            "{count} patterns take {bytes} bytes"
        );
    }
    Ok(())
}
