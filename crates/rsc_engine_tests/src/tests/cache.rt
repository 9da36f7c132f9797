//! Searches one after the other over what a cache keeps.
use crate::made::{captures_of, span};
use rsc_captures::Captures;
use rsc_engine::{Builder, Cache, Error, Matches, Part, Program};
use rsc_look::AsciiWord;
use rsc_search::{Anchored, Input, Span};
use std::alloc::Global;
use std::test::Fail;

// `(?:a*)*`
fn stars(builder: &Builder<'static>) -> Result<Part<'static>, Error> {
    let a = builder.literal(b"a")?;
    let some = builder.star(a)?;
    builder.star(some)
}

// `(?:a*)*b`
fn stars_and_letter(builder: &Builder<'static>) -> Result<Part<'static>, Error> {
    let more = stars(builder)?;
    let b = builder.literal(b"b")?;
    builder.then(more, b)
}

// `(?:a*)*b`: a search goes on wherever there are `a`.
fn program(alloc: Global) -> Result<Program<AsciiWord>, Error> {
    let builder = Builder::new(alloc);
    let whole = stars_and_letter(&builder)?;
    builder.build(AsciiWord, true, whole)
}

// Where the first match is.
fn found_in(
    cache: &mut Cache<'_, AsciiWord>,
    input: Input<'_>,
    captures: &mut Captures,
) -> Result<Option<Span>, Error> {
    Ok(cache.find(&input, captures)?.map(|m| m.span()))
}

// Whether the first match in each text is where it is wanted, and the captures tell whether there is one.
fn finds_each(
    cache: &mut Cache<'_, AsciiWord>,
    captures: &mut Captures,
    wanted: &[(&[u8], Option<Span>)],
) -> Result<bool, Error> {
    for (text, span) in wanted {
        let found = found_in(cache, Input::new(text), captures)?;
        if found != *span || captures.is_match() != span.is_some() {
            return Ok(false);
        }
    }
    Ok(true)
}

// The six texts, and where the first match of each is.
fn six_texts() -> [(&'static [u8], Option<Span>); 6] {
    [
        (b"aaac", None),
        (b"aab", span(0, 3)),
        (b"acaab", span(2, 5)),
        (b"", None),
        (
            b"cccccccccccccccccccaaaaaaaaaaaaaaaaaaaaaaaaaaab",
            span(19, 47),
        ),
        (b"b", span(0, 1)),
    ]
}

#[test]
fn a_search_leaves_nothing_to_the_next(rt: HostRuntime) -> Result<(), Fail> {
    let program = program(rt.alloc())?;
    let mut captures = captures_of(rt.alloc(), &program)?;
    let mut cache = Cache::new(rt.alloc(), &program)?;
    let is_each = finds_each(&mut cache, &mut captures, &six_texts())?;
    let anchored = Input::new(b"cab").anchored(Anchored::Yes);
    let found = found_in(&mut cache, anchored, &mut captures)?;
    assert!(rt; is_each && found == None);
    Ok(())
}

// The spans of the next three matches of an iteration.
fn three_spans(
    matches: &mut Matches<'_, '_, AsciiWord>,
    captures: &mut Captures,
) -> Result<[Option<Span>; 3], Error> {
    let one = matches.next(captures)?.map(|m| m.span());
    let other = matches.next(captures)?.map(|m| m.span());
    let last = matches.next(captures)?.map(|m| m.span());
    Ok([one, other, last])
}

// The cache that an iteration gives back, and the spans of its first three matches.
fn iterated<'p>(
    cache: Cache<'p, AsciiWord>,
    captures: &mut Captures,
) -> Result<(Cache<'p, AsciiWord>, [Option<Span>; 3]), Error> {
    let mut matches = cache.matches(Input::new(b"ab-aaaab-aac"))?;
    let spans = three_spans(&mut matches, captures)?;
    Ok((matches.into_cache(), spans))
}

#[test]
fn an_iteration_gives_its_cache_back(rt: HostRuntime) -> Result<(), Fail> {
    let program = program(rt.alloc())?;
    let mut captures = captures_of(rt.alloc(), &program)?;
    let mut cache = Cache::new(rt.alloc(), &program)?;
    let wanted: [(&[u8], Option<Span>); 2] = [(b"aac", None), (b"aab", span(0, 3))];
    for _ in 0..2 {
        let (after, spans) = iterated(cache, &mut captures)?;
        cache = after;
        let is_each = finds_each(&mut cache, &mut captures, &wanted)?;
        assert!(rt; is_each && spans == [span(0, 2), span(3, 8), None]);
    }
    Ok(())
}
