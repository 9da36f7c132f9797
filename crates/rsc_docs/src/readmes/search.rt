use rsc_primitives::PatternID;
use rsc_search::{Input, PatternSet};
use std::ops::Bound;
use std::test::Fail;

#[test]
fn example(rt: HostRuntime) -> Result<(), Fail> {
    let input = Input::new(b"abc").range(Bound::Excluded(0), Bound::Unbounded);
    assert!(rt; input.start() == 1 && input.end() == 3);
    let part = input.get_span().get(input.haystack());
    assert!(rt; part.is_some());

    let mut set = PatternSet::new(rt.alloc(), 3)?;
    assert!(rt; set.insert(PatternID::must(2)));
    assert!(rt; !set.insert(PatternID::must(2)));
    assert!(rt; set.try_insert(PatternID::must(3)).is_err());
    assert!(rt; set.iter().next() == Some(PatternID::must(2)));
    Ok(())
}
