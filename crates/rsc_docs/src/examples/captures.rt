use rsc_captures::{Captures, GroupInfo, GroupInfoErrorKind};
use rsc_primitives::{NonMaxUsize, PatternID};
use rsc_search::Span;
use std::test::Fail;

#[test]
fn head(rt: HostRuntime) -> Result<(), Fail> {
    // `rsc_captures`
    let info = GroupInfo::new(rt.alloc(), &[&[None, Some("x")], &[None, None, Some("x")]])?;
    assert!(rt; info.slot(PatternID::must(1), 2) == Some(8));
    Ok(())
}

#[test]
fn group_info(rt: HostRuntime) -> Result<(), Fail> {
    // `GroupInfo`
    let info = GroupInfo::new(
        rt.alloc(),
        &[&[None, Some("y")], &[None, Some("d"), Some("m")]],
    )?;
    // The slots of both whole matches come first.
    assert!(rt; info.slots(PatternID::must(0), 1) == Some((4, 5)));
    assert!(rt; info.to_index(PatternID::must(1), "m") == Some(2));
    assert!(rt; info.to_name(PatternID::must(1), 1) == Some("d"));
    Ok(())
}

#[test]
fn names(rt: HostRuntime) -> Result<(), Fail> {
    // `GroupInfo::pattern_names`
    let info = GroupInfo::new(rt.alloc(), &[&[None, Some("x")]])?;
    let mut names = info.pattern_names(PatternID::ZERO);
    assert!(rt; names.next() == Some(None));
    assert!(rt; names.next() == Some(Some("x")));
    assert!(rt; names.next() == None);
    Ok(())
}

#[test]
fn refused_lists(rt: HostRuntime) -> Result<(), Fail> {
    // `GroupInfo::new_limited`
    // Three groups, so six slots.
    assert!(rt; GroupInfo::new_limited(rt.alloc(), 6, &[&[None], &[None, None]]).is_ok());
    assert!(rt; GroupInfo::new_limited(rt.alloc(), 5, &[&[None], &[None, None]]).is_err());

    // `GroupInfoErrorKind`
    if let Err(error) = GroupInfo::new(rt.alloc(), &[&[None, Some("x"), Some("x")]]) {
        assert!(rt; matches!(error.kind(), GroupInfoErrorKind::Duplicate { .. }));
    }
    Ok(())
}

#[test]
fn captures(rt: HostRuntime) -> Result<(), Fail> {
    // `Captures`
    let info = GroupInfo::new(rt.alloc(), &[&[None, Some("x"), None]])?;
    let mut captures = Captures::all(rt.alloc(), info)?;
    captures.set_pattern(Some(PatternID::ZERO));
    for (slot, offset) in [(0, 0), (1, 3), (2, 1), (3, 2)] {
        if slot < captures.slots().len() {
            captures.slots_mut()[slot] = NonMaxUsize::new(offset);
        }
    }
    assert!(rt; captures.get_group_by_name("x") == Some(Span { start: 1, end: 2 }));
    // The slots of the last group aren't set.
    assert!(rt; captures.get_group(2) == None);

    // `Captures::set_group`
    assert!(rt; captures.set_group(2, Some(Span { start: 2, end: 3 })));
    assert!(rt; captures.get_group(2) == Some(Span { start: 2, end: 3 }));
    assert!(rt; captures.set_group(2, None) && captures.get_group(2) == None);
    // There is no group 3, and so no slot for its span.
    assert!(rt; !captures.set_group(3, Some(Span { start: 2, end: 3 })));

    // `Captures::extract_from`
    assert!(rt; captures.extract_from::<&str, 1>("abc") == Some(("abc", ["b"])));
    // Two groups participate, and three are asked for.
    assert!(rt; captures.extract_from::<&str, 2>("abc") == None);
    Ok(())
}
