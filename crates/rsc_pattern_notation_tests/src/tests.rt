//! Patterns by what they match first.
use rsc_engine::{Builder, Error, find};
use rsc_look::AsciiWord;
use rsc_pattern_notation::parse_part;
use rsc_search::{Input, Span};
use std::alloc::Global;
use std::test::Fail;

// Where the first match of a pattern begins and ends, and the same of its group with the name `key`. `None` if the calls can't be read.
fn first(
    alloc: Global,
    calls: &str,
    text: &str,
) -> Result<Option<(Option<Span>, Option<Span>)>, Error> {
    let builder = Builder::new(alloc);
    let Some(part) = parse_part(alloc, &builder, calls.as_bytes())? else {
        return Ok(None);
    };
    let program = builder.build(AsciiWord, true, part)?;
    let mut captures = program.captures(alloc)?;
    let found = find(alloc, &program, &Input::new(text.as_bytes()), &mut captures)?;
    Ok(Some((found.map(|it| it.span()), captures.get_group_by_name("key"))))
}

// Whether the first match of a pattern is this one.
fn matches_first(
    alloc: Global,
    calls: &str,
    text: &str,
    start: usize,
    end: usize,
) -> Result<bool, Error> {
    let found = first(alloc, calls, text)?;
    Ok(found == Some((Some(Span { start, end }), None)))
}

#[test]
fn each_call_makes_its_part(rt: HostRuntime) -> Result<(), Fail> {
    let alloc = rt.alloc();
    assert!(rt; matches_first(alloc, "l6162", "aab", 1, 3)?);
    assert!(rt; matches_first(alloc, "c61-62,5f-5f +", "-a_b-", 1, 4)?);
    assert!(rt; matches_first(alloc, "aEnd", "ab", 2, 2)?);
    assert!(rt; matches_first(alloc, "e", "ab", 0, 0)?);
    assert!(rt; matches_first(alloc, "n l62 |", "ab", 1, 2)?);
    assert!(rt; matches_first(alloc, "l61 l62 ,", "aab", 1, 3)?);
    assert!(rt; first(alloc, "n", "ab")? == Some((None, None)));
    Ok(())
}

#[test]
fn repetitions_are_greedy_or_lazy(rt: HostRuntime) -> Result<(), Fail> {
    let alloc = rt.alloc();
    assert!(rt; matches_first(alloc, "l61 *", "aaa", 0, 3)?);
    assert!(rt; matches_first(alloc, "l61 *?", "aaa", 0, 0)?);
    assert!(rt; matches_first(alloc, "l61 +?", "aaa", 0, 1)?);
    assert!(rt; matches_first(alloc, "l61 ?", "aaa", 0, 1)?);
    assert!(rt; matches_first(alloc, "l61 ??", "aaa", 0, 0)?);
    assert!(rt; matches_first(alloc, "l61 {1,2}", "aaa", 0, 2)?);
    assert!(rt; matches_first(alloc, "l61 {1,2}?", "aaa", 0, 1)?);
    assert!(rt; matches_first(alloc, "l61 {2,}", "aaa", 0, 3)?);
    Ok(())
}

#[test]
fn a_group_may_have_a_name(rt: HostRuntime) -> Result<(), Fail> {
    let alloc = rt.alloc();
    let key = Some(Span { start: 1, end: 2 });
    let whole = Some(Span { start: 0, end: 2 });
    assert!(rt; first(alloc, "l61 ( l62 )key ,", "ab")? == Some((whole, key)));
    assert!(rt; first(alloc, "l61 ( l62 ) ,", "ab")? == Some((whole, None)));
    Ok(())
}

#[test]
fn what_cannot_be_read_makes_no_part(rt: HostRuntime) -> Result<(), Fail> {
    let alloc = rt.alloc();
    for calls in [
        "",
        "l6",
        "c7a-61",
        "aStartlf",
        "q",
        "l61 l62",
        "l61 ,",
        ")",
        "l61 {x,2}",
        "l61  +",
    ] {
        assert!(rt; first(alloc, calls, "a")?.is_none());
    }
    Ok(())
}
