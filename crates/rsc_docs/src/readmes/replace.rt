use rsc_engine::Builder;
use rsc_look::AsciiWord;
use rsc_replace::{replace_all, replace_part};
use std::test::Fail;

#[test]
fn example(rt: HostRuntime) -> Result<(), Fail> {
    // (?P<year>[0-9]{4})-([0-9]{2})
    let builder = Builder::new(rt.alloc());
    let digits = builder.repeat(builder.range(b'0', b'9'), 4, Some(4))?;
    let year = builder.group(Some("year"), digits)?;
    let digits = builder.repeat(builder.range(b'0', b'9'), 2, Some(2))?;
    let month = builder.group(None, digits)?;
    let whole = builder.concat(vec![in rt.alloc(); year, builder.literal(b"-")?, month]?)?;
    let program = builder.build(AsciiWord, true, whole)?;
    let out = replace_all(rt.alloc(), &program, b"2026-11, 2027-01", b"$2/$year")?;
    assert!(rt; out.as_slice() == b"11/2026, 01/2027".as_slice());

    // A part by itself: no program is made before the call.
    let builder = Builder::new(rt.alloc());
    let spaces = builder.plus(builder.literal(b" ")?)?;
    let out = replace_part(rt.alloc(), AsciiWord, spaces, b"a  b   c", b" ")?;
    assert!(rt; out.as_slice() == b"a b c".as_slice());
    Ok(())
}
