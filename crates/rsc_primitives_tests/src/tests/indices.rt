//! Small indices: limits, conversions, order, bytes, iterators, texts of refusals.
ghost use Rattle.std.specs.Prelude.{◌≡◌, ◌↔◌, ◌<◌, ◌≤◌, IsTrue, IsOkAnd, IfOk, Ok, length};
ghost use Rattle.std.specs.List.{range_with_len};

use super::{is_debug, is_text};
use rsc_primitives::{
    NonMaxUsize, PatternID, PatternIDError, PatternIDIter, SmallIndex, SmallIndexError, StateID,
    StateIDError,
};
use std::alloc::{AllocError, Global};
use std::test::Fail;

// Callers, each proved by the contracts alone.

fn read_back(id: PatternID) -> Result<PatternID, PatternIDError>
    ensures { result ≡ Ok id }
{
    PatternID::from_le_bytes(id.to_le_bytes())
}

fn copy_of(ids: &PatternIDIter) -> Result<PatternIDIter, AllocError>
    ensures { IsOkAnd result (λ copy. copy ≡ ids.now) }
{
    ids.clone()
}

fn error_again(error: &PatternIDError) -> Result<PatternIDError, AllocError>
    ensures { IsOkAnd result (λ copy. copy ≡ error.now) }
{
    error.clone()
}

fn is_before(a: &StateID, b: &StateID) -> bool
    ensures { IsTrue result ↔ (a.now < b.now) }
{
    a < b
}

fn is_same(a: &NonMaxUsize, b: &NonMaxUsize) -> bool
    ensures { IsTrue result ↔ (a.now ≡ b.now) }
{
    a == b
}

fn at_state(id: StateID, states: &[u8]) -> u8
    requires { id < length states.now }
{
    states[id.as_usize()]
}

fn all_below(alloc: Global, len: usize) -> Result<Vec<SmallIndex>, AllocError>
    requires { len ≤ SmallIndex.LIMIT }
    ensures { IfOk result (λ indices. indices.items ≡ range_with_len 0 len) }
{
    SmallIndex::iter(len).collect(alloc)
}

// The number of an index, or `None` and the number that was refused.

fn small(answer: Result<SmallIndex, SmallIndexError>) -> (Option<u64>, u64) {
    match answer {
        Ok(index) => (Some(index.as_u64()), 0),
        Err(error) => (None, error.attempted()),
    }
}

fn pattern(answer: Result<PatternID, PatternIDError>) -> (Option<u64>, u64) {
    match answer {
        Ok(index) => (Some(index.as_u64()), 0),
        Err(error) => (None, error.attempted()),
    }
}

fn state(answer: Result<StateID, StateIDError>) -> (Option<u64>, u64) {
    match answer {
        Ok(index) => (Some(index.as_u64()), 0),
        Err(error) => (None, error.attempted()),
    }
}

#[test]
fn refuses_exactly_the_numbers_above_the_greatest(rt: HostRuntime) {
    for (number, want) in [
        (0u64, (Some(0u64), 0u64)),
        (2147483646, (Some(2147483646), 0)),
        (2147483647, (None, 2147483647)),
        (4294967295, (None, 4294967295)),
        (18446744073709551615, (None, 18446744073709551615)),
    ] {
        let made = [
            small(SmallIndex::new(number as usize)),
            pattern(PatternID::new(number as usize)),
            state(StateID::new(number as usize)),
        ];
        let converted = [
            small(SmallIndex::try_from(number)),
            pattern(PatternID::try_from(number)),
            state(StateID::try_from(number)),
        ];
        assert_eq!(rt; (made, converted), ([want; 3], [want; 3]));
    }
}

#[test]
fn refuses_no_narrow_number_but_the_greatest(rt: HostRuntime) {
    for (number, want) in [
        (2147483646u32, (Some(2147483646u64), 0u64)),
        (2147483647, (None, 2147483647)),
    ] {
        let converted = [
            small(SmallIndex::try_from(number)),
            pattern(PatternID::try_from(number)),
            state(StateID::try_from(number)),
        ];
        assert_eq!(rt; converted, [want; 3]);
    }
    let converted = [
        small(SmallIndex::try_from(65535u16)),
        pattern(PatternID::try_from(65535u16)),
        state(StateID::try_from(65535u16)),
    ];
    assert_eq!(rt; converted, [(Some(65535), 0); 3]);
}

#[test]
fn reads_four_bytes_the_least_first(rt: HostRuntime) {
    for (bytes, want) in [
        ([0x00, 0x01, 0x00, 0x00], (Some(256u64), 0u64)),
        ([0xFE, 0xFF, 0xFF, 0x7F], (Some(2147483646), 0)),
        ([0xFF, 0xFF, 0xFF, 0x7F], (None, 2147483647)),
        ([0xFF, 0xFF, 0xFF, 0xFF], (None, 4294967295)),
    ] {
        let read = [
            small(SmallIndex::from_le_bytes(bytes)),
            pattern(PatternID::from_le_bytes(bytes)),
            state(StateID::from_le_bytes(bytes)),
        ];
        assert_eq!(rt; read, [want; 3]);
    }
    let greatest = [
        SmallIndex::MAX.to_le_bytes(),
        PatternID::MAX.to_le_bytes(),
        StateID::MAX.to_le_bytes(),
    ];
    assert_eq!(rt; greatest, [[0xFE, 0xFF, 0xFF, 0x7F]; 3]);
    assert_eq!(rt; pattern(read_back(PatternID::must(513))), (Some(513), 0));
}

#[test]
fn tells_the_number(rt: HostRuntime) {
    let wide = (
        SmallIndex::from(200u8).as_usize(),
        PatternID::MAX.one_more(),
    );
    assert_eq!(rt; wide, (200, 2147483647));
    let narrow = (PatternID::must(7).as_u32(), StateID::must(7).as_i32());
    assert_eq!(rt; narrow, (7, 7));
    assert!(rt; StateID::default() == StateID::ZERO);
    assert!(rt; is_before(&StateID::ZERO, &StateID::MAX));
    assert!(rt; at_state(StateID::must(1), b"ab") == b'b');
}

#[test]
fn indices_have_four_bytes(rt: HostRuntime) {
    assert_eq!(rt;
        (SmallIndex::LIMIT, PatternID::LIMIT, StateID::LIMIT),
        (2147483647, 2147483647, 2147483647)
    );
    assert_eq!(rt;
        (SmallIndex::SIZE, PatternID::SIZE, StateID::SIZE),
        (4, 4, 4)
    );
    assert_eq!(rt;
        size_of::<SmallIndex>() + size_of::<PatternID>() + size_of::<StateID>(),
        12
    );
    assert!(rt; size_of::<Option<NonMaxUsize>>() == 9);
}

#[test]
fn counts_from_zero_and_rests_at_the_end(rt: HostRuntime) -> Result<(), Fail> {
    let mut ids = StateID::iter(3);
    for want in [Some(0), Some(1), Some(2), None, None] {
        assert_eq!(rt; ids.next().map(|id| id.as_usize()), want);
    }
    assert!(rt; SmallIndex::iter(0).next() == None);
    let indices = all_below(rt.alloc(), 2)?;
    assert!(rt; indices.as_slice() == [SmallIndex::ZERO, SmallIndex::must(1)].as_slice());
    Ok(())
}

#[test]
fn a_clone_goes_on_by_itself(rt: HostRuntime) -> Result<(), Fail> {
    let mut ids = PatternID::iter(2);
    assert!(rt; ids.next() == Some(PatternID::ZERO));
    let mut again = copy_of(&ids)?;
    assert!(rt; again.next() == Some(PatternID::must(1)));
    assert!(rt; ids.next() == Some(PatternID::must(1)));
    Ok(())
}

#[test]
fn numbers_as_many_patterns_as_there_can_be(rt: HostRuntime) {
    let mut all = PatternID::iter(2147483647);
    for want in [Some(0), Some(1), Some(2)] {
        assert_eq!(rt; all.next().map(|id| id.as_usize()), want);
    }
}

#[test]
fn shows_the_refused_number(rt: HostRuntime) -> Result<(), Fail> {
    let error = SmallIndex::new(4294967295).err().ok_or("accepted")?;
    let want = "failed to create small index from 4294967295, which exceeds SmallIndex(2147483646)";
    assert!(rt; is_text(format!(in rt.alloc(); "{error}"), want));
    let error = PatternID::new(2147483647).err().ok_or("accepted")?;
    let want = "failed to create PatternID from 2147483647, which exceeds PatternID(2147483646)";
    assert!(rt; is_text(format!(in rt.alloc(); "{error}"), want));
    assert!(rt; error_again(&error)? == error);
    let error = StateID::try_from(18446744073709551615u64)
        .err()
        .ok_or("accepted")?;
    let want =
        "failed to create StateID from 18446744073709551615, which exceeds StateID(2147483646)";
    assert!(rt; is_text(format!(in rt.alloc(); "{error}"), want));
    Ok(())
}

#[test]
fn shows_what_they_are(rt: HostRuntime) -> Result<(), Fail> {
    assert!(rt; is_debug(rt.alloc(), &SmallIndex::must(5), "SmallIndex(5)"));
    assert!(rt; is_debug(rt.alloc(), &PatternID::must(5), "PatternID(5)"));
    assert!(rt; is_debug(rt.alloc(), &StateID::must(5), "StateID(5)"));
    let offset = NonMaxUsize::new(5).ok_or("refused")?;
    assert!(rt; is_debug(rt.alloc(), &offset, "5"));
    Ok(())
}

#[test]
fn refuses_the_greatest_offset_alone(rt: HostRuntime) -> Result<(), Fail> {
    assert!(rt; NonMaxUsize::new(18446744073709551615).is_none());
    for number in [0, 1, 18446744073709551614] {
        let offset = NonMaxUsize::new(number).ok_or("refused")?;
        assert_eq!(rt; offset.get(), number, "at {number}");
        assert!(rt; is_same(&offset, &offset), "at {number}");
    }
    Ok(())
}

#[test]
fn orders_offsets_and_begins_at_zero(rt: HostRuntime) -> Result<(), Fail> {
    let one = NonMaxUsize::new(1).ok_or("refused")?;
    // A lesser number in its first byte.
    let other = NonMaxUsize::new(256).ok_or("refused")?;
    assert!(rt; one < other && other > one && one.cmp(&other).is_lt() && one.cmp(&one).is_eq());
    assert!(rt; SmallIndex::default() == SmallIndex::ZERO);
    assert!(rt; PatternID::default() == PatternID::ZERO);
    assert!(rt; StateID::default() == StateID::ZERO);
    Ok(())
}
