use rsc_primitives::{NonMaxUsize, PatternID, SmallIndex, StateID, escape, utf8};
use std::test::Fail;

#[test]
fn head(rt: HostRuntime) -> Result<(), Fail> {
    // `rsc_primitives`
    assert!(rt; utf8::decode("é".as_bytes()) == Some(Ok('é')));
    assert!(rt; PatternID::new(2147483647).is_err());
    Ok(())
}

#[test]
fn pattern_id(rt: HostRuntime) -> Result<(), Fail> {
    // `PatternID`
    let pattern = PatternID::must(3);
    assert!(rt; pattern.as_usize() == 3 && pattern.one_more() == 4);
    assert!(rt; PatternID::new(2147483646).is_ok() && PatternID::new(2147483647).is_err());

    // `PatternIDError`
    if let Err(error) = PatternID::new(2147483647) {
        assert!(rt; error.attempted() == 2147483647);
    }

    // `PatternID::iter`
    let mut patterns = PatternID::iter(2);
    assert!(rt; patterns.next() == Some(PatternID::must(0)));
    assert!(rt; patterns.next() == Some(PatternID::must(1)));
    assert!(rt; patterns.next() == None);
    Ok(())
}

#[test]
fn small_index(rt: HostRuntime) -> Result<(), Fail> {
    // `SmallIndex`
    let index = SmallIndex::must(258);
    assert!(rt; index.to_le_bytes() == [2, 1, 0, 0]);
    assert!(rt; SmallIndex::from_le_bytes([255, 255, 255, 127]).is_err());
    Ok(())
}

#[test]
fn state_id(rt: HostRuntime) -> Result<(), Fail> {
    // `StateID`
    let state = StateID::must(5);
    assert!(rt; state > StateID::ZERO && state.as_u32() == 5);
    Ok(())
}

#[test]
fn non_max(rt: HostRuntime) -> Result<(), Fail> {
    // `NonMaxUsize`
    let offset = NonMaxUsize::new(5);
    assert!(rt; offset.map_or(0, |it| it.get()) == 5);
    assert!(rt; NonMaxUsize::new(usize::MAX) == None);
    Ok(())
}

#[test]
fn escape(rt: HostRuntime) -> Result<(), Fail> {
    // `byte_text`
    assert!(rt; escape::byte_text(rt.alloc(), b'a')?.as_str() == "a");
    assert!(rt; escape::byte_text(rt.alloc(), b' ')?.as_str() == "' '");
    assert!(rt; escape::byte_text(rt.alloc(), 0xFF)?.as_str() == "\\xFF");

    // `haystack_text`
    assert!(rt; escape::haystack_text(rt.alloc(), b"a\xFF\n")?.as_str() == "\"a\\xff\\n\"");
    Ok(())
}

#[test]
fn utf8(rt: HostRuntime) -> Result<(), Fail> {
    // `is_boundary`
    let text = "€1".as_bytes();
    assert!(rt;
        utf8::is_boundary(text, 0) && utf8::is_boundary(text, 3) && utf8::is_boundary(text, 4)
    );
    assert!(rt; !utf8::is_boundary(text, 1) && !utf8::is_boundary(text, 5));

    // `decode`
    assert!(rt; utf8::decode("€5".as_bytes()) == Some(Ok('€')));
    assert!(rt; utf8::decode(b"\xE2\x82") == Some(Err(0xE2)));
    assert!(rt; utf8::decode(b"") == None);

    // `decode_last`
    assert!(rt; utf8::decode_last("5€".as_bytes()) == Some(Ok('€')));
    assert!(rt; utf8::decode_last(b"a\x80") == Some(Err(0x80)));
    Ok(())
}
