//! Each index as numbers of other types.
use rsc_primitives::{PatternID, SmallIndex, StateID};

#[test]
fn indices_are_numbers_of_other_types(rt: HostRuntime) {
    let index = SmallIndex::must(7);
    assert!(rt; index.as_u32() == 7 && index.as_i32() == 7 && index.one_more() == 8);
    let pattern = PatternID::must(8);
    assert!(rt; pattern.as_u32() == 8 && pattern.as_i32() == 8 && pattern.one_more() == 9);
    let state = StateID::must(9);
    assert!(rt; state.as_u32() == 9 && state.as_i32() == 9 && state.one_more() == 10);
}
