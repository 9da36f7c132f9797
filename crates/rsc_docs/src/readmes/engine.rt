use rsc_engine::{Builder, Error, Matches, Program};
use rsc_look::{AsciiWord, Look};
use rsc_search::{Anchored, Input};
use std::alloc::Global;
use std::test::Fail;

// `if` as a word, `==`, `=`, `[a-z]+`, `[0-9]+`, ` +`, and a byte that begins none of them; of two that match, the earlier one is taken.
fn tokens(alloc: Global) -> Result<Program<AsciiWord>, Error> {
    let mut builder = Builder::new(alloc);
    let letters = builder.literal(b"if")?;
    let keyword = builder.then(letters, builder.assertion(Look::WordEndAscii))?;
    builder.add_pattern(keyword)?;
    for text in ["==", "="] {
        let operator = builder.literal(text.as_bytes())?;
        builder.add_pattern(operator)?;
    }
    for (first, last) in [(b'a', b'z'), (b'0', b'9'), (b' ', b' ')] {
        let byte = builder.range(first, last);
        let bytes = builder.plus(byte)?;
        builder.add_pattern(bytes)?;
    }
    let unknown = builder.range(0, 0xFF);
    builder.build(AsciiWord, true, unknown)
}

#[test]
fn example(rt: HostRuntime) -> Result<(), Fail> {
    let program = tokens(rt.alloc())?;
    let mut captures = program.captures(rt.alloc())?;
    // Anchored: each token begins where the last one ended.
    let input = Input::new(b"if iff == 10?").anchored(Anchored::Yes);
    let mut matches = Matches::new(rt.alloc(), &program, input)?;
    for token in [
        (0, 2),
        (5, 3),
        (3, 6),
        (5, 7),
        (1, 9),
        (5, 10),
        (4, 12),
        (6, 13),
    ] {
        let found = matches.next(&mut captures)?;
        assert!(rt; found.map(|m| (m.pattern().as_usize(), m.end())) == Some(token));
    }
    assert!(rt; matches.next(&mut captures)?.is_none());
    Ok(())
}
