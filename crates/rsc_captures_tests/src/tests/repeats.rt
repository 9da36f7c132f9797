//! Repeated names in long lists, which are read batch by batch where another fault comes after them.

use rsc_captures::{GroupInfo, GroupInfoErrorKind};
use rsc_primitives::PatternID;
use std::alloc::{AllocError, Global};
use std::test::Fail;

// That many different names.
fn names(alloc: Global, count: usize) -> Result<Vec<String>, AllocError> {
    let mut names = Vec::new(alloc);
    for i in 0..count {
        names.push(format!(in alloc; "n{i}")?)?;
    }
    Ok(names)
}

// Whether a list of that many groups, of the names by their numbers, is refused for the name of the last pair alone, where each pair's
// later group has the name of its earlier one; without a pair for the fault of a second pattern.
fn is_refused(
    alloc: Global,
    names: &[String],
    count: usize,
    pairs: &[(usize, usize)],
) -> Result<bool, AllocError> {
    let mut list: Vec<Option<&str>> = Vec::new(alloc);
    list.push(None)?;
    for name in names.iter().take(count).skip(1) {
        list.push(Some(name.as_str()))?;
    }
    let mut repeat: Option<&str> = None;
    for (earlier, later) in pairs {
        if let Some(name) = names.get(*earlier) {
            if let Some(group) = list.get_mut(*later) {
                *group = Some(name.as_str());
                repeat = Some(name.as_str());
            }
        }
    }
    let faulty: [Option<&str>; 1] = [Some("faulty")];
    let mut lists: Vec<&[Option<&str>]> = Vec::new(alloc);
    lists.push(&list)?;
    lists.push(&faulty)?;
    Ok(match GroupInfo::new(alloc, &lists) {
        Ok(_) => false,
        Err(error) => match error.kind() {
            GroupInfoErrorKind::Duplicate { pattern, name } => {
                *pattern == PatternID::ZERO && repeat == Some(name.as_str())
            }
            GroupInfoErrorKind::FirstMustBeUnnamed { .. } => repeat.is_none(),
            _ => false,
        },
    })
}

// The table of rsc_captures has room for 4,096 groups.
#[test]
fn finds_a_repeated_name_at_each_end_of_a_batch(rt: HostRuntime) -> Result<(), Fail> {
    let names = names(rt.alloc(), 8194)?;
    for (count, earlier, later) in [
        (4096usize, 1usize, 4095usize),
        (4097, 1, 4096),
        (4097, 4095, 4096),
        (4098, 4096, 4097),
        (8193, 4095, 8192),
        (8194, 8192, 8193),
    ] {
        let is_refused = is_refused(rt.alloc(), &names, count, &[(earlier, later)])?;
        assert!(rt; is_refused, "{earlier}, {later} of {count}");
    }
    assert!(rt; is_refused(rt.alloc(), &names, 8194, &[])?);
    Ok(())
}

// The pair that has to be found comes last.
#[test]
fn names_the_first_of_several(rt: HostRuntime) -> Result<(), Fail> {
    let names = names(rt.alloc(), 8194)?;
    assert!(rt; is_refused(rt.alloc(), &names, 8194, &[(1, 8193), (5000, 6000)])?);
    assert!(rt; is_refused(rt.alloc(), &names, 8194, &[(5000, 8193), (1, 8192)])?);
    assert!(rt; is_refused(rt.alloc(), &names, 8194, &[(1, 4500), (1, 2500), (1, 2)])?);
    Ok(())
}
