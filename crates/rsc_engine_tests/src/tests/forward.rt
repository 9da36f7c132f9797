//! A DFA's searches beside bytes above 7F, of a program that looks at characters: they answer as everywhere, with any number of rows.
use super::slow::first_match;
use rsc_engine::{Builder, Dfa, Error, Program};
use rsc_look::{Look, UnicodeWord};
use rsc_search::{Anchored, Input, Span};
use std::alloc::Global;
use std::test::Fail;

// \b[0-9a-z_\x80-\xFF]+\b: for words, as `\b\w+\b` of text.
fn words(alloc: Global) -> Result<Program<UnicodeWord>, Error> {
    let builder = Builder::new(alloc);
    let class = builder.class(&[(b'0', b'9'), (b'a', b'z'), (b'_', b'_'), (0x80, 0xFF)])?;
    let word = builder.plus(class)?;
    let begun = builder.then(builder.assertion(Look::WordUnicode), word)?;
    let whole = builder.then(begun, builder.assertion(Look::WordUnicode))?;
    builder.build(UnicodeWord, true, whole)
}

// Whether the first match has this span, by each call of a DFA and by `find`.
fn is_first(
    alloc: Global,
    dfa: &mut Dfa<'_, UnicodeWord>,
    program: &Program<UnicodeWord>,
    text: &[u8],
    wanted: Option<(usize, usize)>,
) -> Result<bool, Error> {
    let mut captures = program.captures(alloc)?;
    let input = Input::new(text);
    let found = dfa.find(&input, &mut captures)?;
    let end = dfa.leftmost_end(&input)?;
    let is_match = dfa.is_match(&input)?;
    let first = first_match(alloc, program, &input, &mut captures)?;
    Ok(
        found.map(|it| (it.start(), it.end())) == wanted
            && first.map(|it| (it.start(), it.end())) == wanted
            && end == wanted.map(|it| it.1)
            && is_match == wanted.is_some(),
    )
}

#[test]
fn finds_words_of_any_characters(rt: HostRuntime) -> Result<(), Fail> {
    let program = words(rt.alloc())?;
    for rows in [0, 1, 2, 1000] {
        let mut dfa = Dfa::new(rt.alloc(), &program, rows);
        for (text, wanted) in [
            ("λόγος, да", Some((0, 10))),
            (", да 🙂", Some((2, 6))),
            ("🙂🙂", None),
            ("- é", Some((2, 4))),
            ("", None),
        ] {
            assert!(rt;
                is_first(rt.alloc(), &mut dfa, &program, text.as_bytes(), wanted)?,
                "{text}"
            );
        }
    }
    Ok(())
}

#[test]
fn finds_words_in_bytes_that_are_not_text(rt: HostRuntime) -> Result<(), Fail> {
    let program = words(rt.alloc())?;
    for rows in [0, 1, 2, 1000] {
        let mut dfa = Dfa::new(rt.alloc(), &program, rows);
        for (text, wanted) in [
            (b"\xFFab".as_slice(), Some((1, 3))),
            (b"ab\xFF", Some((0, 2))),
            (b"\xCE", None),
            (b"a\xCE\xBB\xCE", Some((0, 3))),
        ] {
            assert!(rt; is_first(rt.alloc(), &mut dfa, &program, text, wanted)?);
        }
    }
    Ok(())
}

#[test]
fn a_span_and_an_anchor_beside_characters(rt: HostRuntime) -> Result<(), Fail> {
    let program = words(rt.alloc())?;
    let mut dfa = Dfa::new(rt.alloc(), &program, 2);
    // Between the two bytes of `é` there is no boundary, and the byte after the span counts.
    let inside = Input::new("éa".as_bytes()).span(Span { start: 1, end: 3 });
    assert!(rt; dfa.leftmost_end(&inside)? == None);
    let short = Input::new("éa".as_bytes()).span(Span { start: 0, end: 2 });
    assert!(rt; dfa.leftmost_end(&short)? == None);
    let anchored = Input::new(" é".as_bytes()).anchored(Anchored::Yes);
    assert!(rt; dfa.leftmost_end(&anchored)? == None);
    assert!(rt; dfa.leftmost_end(&Input::new(" é".as_bytes()))? == Some(3));
    Ok(())
}
