use rsc_primitives::{PatternID, escape, utf8};
use std::test::Fail;

#[test]
fn example(rt: HostRuntime) -> Result<(), Fail> {
    assert!(rt; PatternID::new(2147483646).is_ok());
    assert!(rt; PatternID::new(2147483647).is_err());
    let mut indices = PatternID::iter(3);
    assert!(rt; indices.next() == Some(PatternID::ZERO));

    assert!(rt; utf8::decode(b"\xE2\x82\xAC\x80") == Some(Ok('€')));
    assert!(rt; utf8::decode_last(b"\xE2\x82\xAC\x80") == Some(Err(0x80)));
    assert!(rt; escape::haystack_text(rt.alloc(), b"a\xFF")?.as_str() == "\"a\\xff\"");
    Ok(())
}
