use rsc_captures::{Captures, GroupInfo};
use rsc_primitives::{NonMaxUsize, PatternID};
use std::test::Fail;

#[test]
fn example(rt: HostRuntime) -> Result<(), Fail> {
    // Two patterns, with one named group each. The slots of both groups 0 come before all others.
    let info = GroupInfo::new(rt.alloc(), &[&[None, Some("x")], &[None, None, Some("x")]])?;
    assert!(rt; info.slot(PatternID::must(1), 2) == Some(8));
    assert!(rt; info.to_index(PatternID::must(1), "x") == Some(2));

    // A search sets the pattern and fills the slots.
    let mut captures = Captures::all(rt.alloc(), info)?;
    captures.set_pattern(Some(PatternID::ZERO));
    for (slot, offset) in [(0, 0), (1, 3), (4, 1), (5, 2)] {
        if slot < captures.slots().len() {
            captures.slots_mut()[slot] = NonMaxUsize::new(offset);
        }
    }
    // The parts borrow from the haystack.
    assert!(rt; captures.extract_from::<&str, 1>("abc") == Some(("abc", ["b"])));
    Ok(())
}
