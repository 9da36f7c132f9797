use rsc_engine::{Builder, Error, find};
use rsc_look::AsciiWord;
use rsc_replace::{expand, replace_all, replace_part, replacen};
use rsc_search::Input;
use std::test::Fail;

#[test]
fn expanded(rt: HostRuntime) -> Result<(), Fail> {
    // `expand`
    // (?P<key>[a-z]+)=([0-9]+)?
    let builder = Builder::new(rt.alloc());
    let letters = builder.plus(builder.range(b'a', b'z'))?;
    let key = builder.group(Some("key"), letters)?;
    let digits = builder.plus(builder.range(b'0', b'9'))?;
    let value = builder.optional(builder.group(None, digits)?)?;
    let pair = builder.concat(vec![in rt.alloc(); key, builder.literal(b"=")?, value]?)?;
    let program = builder.build(AsciiWord, true, pair)?;
    let mut captures = program.captures(rt.alloc())?;
    let text = b"- ab=12 -";
    let found = find(rt.alloc(), &program, &Input::new(text), &mut captures)?;
    assert!(rt; found.is_some());
    let mut out = Vec::new(rt.alloc());
    expand(&mut out, text, &captures, b"$2 ${key}s $$1 $9;$")?;
    assert!(rt; out.as_slice() == b"12 abs $1 ;$".as_slice());
    Ok(())
}

#[test]
fn all_replaced(rt: HostRuntime) -> Result<(), Fail> {
    // `replace_all`
    // ([a-z]+) ([a-z]+)
    let builder = Builder::new(rt.alloc());
    let letters = builder.plus(builder.range(b'a', b'z'))?;
    let one = builder.group(None, letters)?;
    let letters = builder.plus(builder.range(b'a', b'z'))?;
    let other = builder.group(None, letters)?;
    let pair = builder.concat(vec![in rt.alloc(); one, builder.literal(b" ")?, other]?)?;
    let program = builder.build(AsciiWord, true, pair)?;
    let out = replace_all(rt.alloc(), &program, b"ab cd, e f", b"$2-$1")?;
    assert!(rt; out.as_slice() == b"cd-ab, f-e".as_slice());
    Ok(())
}

#[test]
fn first_replaced(rt: HostRuntime) -> Result<(), Fail> {
    // `replacen`
    let builder = Builder::new(rt.alloc());
    let letter = builder.literal(b"a")?;
    let program = builder.build(AsciiWord, true, letter)?;
    let out = replacen(rt.alloc(), &program, b"a-a-a", 2, b"b")?;
    assert!(rt; out.as_slice() == b"b-b-a".as_slice());
    Ok(())
}

#[test]
fn part_replaced(rt: HostRuntime) -> Result<(), Fail> {
    // `replace_part`
    // a*, which is empty before `b`, and not where a match has just ended
    let builder = Builder::new(rt.alloc());
    let part = builder.star(builder.range(b'a', b'a'))?;
    let out = replace_part(rt.alloc(), AsciiWord, part, b"baa", b"<$0>")?;
    assert!(rt; out.as_slice() == b"<>b<aa>".as_slice());
    // A range whose first byte is above its last has none.
    let reversed = builder.range(b'z', b'a');
    let out = replace_part(rt.alloc(), AsciiWord, reversed, b"baa", b"-")?;
    assert!(rt; out.as_slice() == b"baa".as_slice());
    Ok(())
}
