//! Programs, texts and tables of sizes on both sides of any limit: each is built, and each search answers.
ghost use Rattle.std.specs.Prelude.{◌≤◌};

use crate::made::captures_of;
use rsc_captures::Captures;
use rsc_engine::{Builder, Cache, Dfa, Error, Matches, Part, Program, find};
use rsc_look::AsciiWord;
use rsc_primitives::PatternID;
use rsc_search::{Anchored, Input, Match, Span};
use std::alloc::Global;
use std::test::Fail;

const SIZES: [usize; 9] = [1, 2, 63, 64, 65, 255, 256, 1000, 2000];

// To make all rows of a pass back over a longer part takes time in proportion to its square, which is long in a program that isn't optimized. So such parts are
// asked where they end, and more groups than that are empty.
const FAR: usize = 256;

// The first match of an input by one of four searches.
fn first_by(
    alloc: Global,
    program: &Program<AsciiWord>,
    input: &Input<'_>,
    captures: &mut Captures,
    search: usize,
) -> Result<Option<Match>, Error> {
    match search {
        0 => find(alloc, program, input, captures),
        1 => Cache::new(alloc, program)?.find(input, captures),
        2 => {
            let all = Input::new(input.haystack()).anchored(input.get_anchored());
            Matches::new(alloc, program, all)?.next(captures)
        }
        _ => Dfa::new(alloc, program, 1000).find(input, captures),
    }
}

// Whether each of these searches finds a match of the pattern in the span, with the span of a group.
fn finds(
    alloc: Global,
    program: &Program<AsciiWord>,
    input: &Input<'_>,
    wanted: Match,
    group: (usize, Span),
) -> Result<bool, Fail> {
    for search in 0..4 {
        let mut captures = captures_of(alloc, program)?;
        let found = first_by(alloc, program, input, &mut captures, search)?;
        if found != Some(wanted) || captures.get_group(group.0) != Some(group.1) {
            return Ok(false);
        }
    }
    Ok(true)
}

// A hyphen, and then that many times the byte.
fn text_of(alloc: Global, byte: u8, count: usize) -> Result<Vec<u8>, Error> {
    let mut text = Vec::new(alloc);
    text.push(b'-')?;
    for _ in 0..count {
        text.push(byte)?;
    }
    Ok(text)
}

fn span_to(count: usize) -> Span
    ensures { result.start ≤ result.end }
{
    Span {
        start: 1,
        end: count.saturating_add(1),
    }
}

// A hyphen, a `b`, and an `a` for each byte more.
fn letters(alloc: Global, count: usize) -> Result<Vec<u8>, Error> {
    let mut text = text_of(alloc, b'a', count)?;
    if text.len() > 1 {
        text[1] = b'b';
    }
    Ok(text)
}

// A literal of that many bytes, the first of which is another one; or that byte, and then a letter at least as often as there are bytes left.
fn long_part(
    alloc: Global,
    builder: &Builder<'static>,
    number: usize,
    count: usize,
) -> Result<Part<'static>, Error> {
    if number == 0 {
        let text = letters(alloc, count)?;
        return builder.literal(text.as_slice().get(1..).unwrap_or(&[]));
    }
    let rest = builder.repeat(builder.range(b'a', b'a'), count.saturating_sub(1), None)?;
    builder.then(builder.range(b'b', b'b'), rest)
}

// Whether the first match is there, or ends there.
fn ends(alloc: Global, program: &Program<AsciiWord>, text: &[u8], span: Span) -> Result<bool, Fail>
    requires { span.start ≤ span.end }
{
    let input = Input::new(text);
    if text.len() > FAR + 1 {
        return Ok(Dfa::new(alloc, program, 1000).leftmost_end(&input)? == Some(span.end));
    }
    finds(alloc, program, &input, Match::must(0, span), (0, span))
}

#[test]
fn parts_of_any_length_are_found(rt: HostRuntime) -> Result<(), Fail> {
    let alloc = rt.alloc();
    for count in SIZES {
        let text = letters(alloc, count)?;
        let span = span_to(count);
        for number in 0..2 {
            let builder = Builder::new(alloc);
            let part = long_part(alloc, &builder, number, count)?;
            let program = builder.build(AsciiWord, true, part)?;
            assert!(rt; ends(alloc, &program, &text, span)?, "{number} {count}");
        }
    }
    Ok(())
}

// `(a)(a)..`, or `()()..`: that many groups.
fn groups(alloc: Global, builder: &Builder<'static>, count: usize) -> Result<Part<'static>, Error> {
    let mut parts = Vec::new(alloc);
    for _ in 0..count {
        let part = if count > FAR {
            builder.empty()
        } else {
            builder.range(b'a', b'a')
        };
        parts.push(builder.group(None, part)?)?;
    }
    builder.concat(parts)
}

// The whole match of these groups in a text of a hyphen and then a byte for each, and the last group.
fn spans_of(count: usize) -> (Span, Span)
    ensures { result.0.start ≤ result.0.end }
{
    if count > FAR {
        return (Span { start: 0, end: 0 }, Span { start: 0, end: 0 });
    }
    let last = Span {
        start: count,
        end: count.saturating_add(1),
    };
    (span_to(count), last)
}

#[test]
fn the_last_of_any_number_of_groups_is_set(rt: HostRuntime) -> Result<(), Fail> {
    let alloc = rt.alloc();
    for count in SIZES {
        let builder = Builder::new(alloc);
        let part = groups(alloc, &builder, count)?;
        let program = builder.build(AsciiWord, true, part)?;
        let text = text_of(alloc, b'a', count)?;
        let (whole, last) = spans_of(count);
        let input = Input::new(&text);
        assert!(rt;
            finds(
                alloc,
                &program,
                &input,
                Match::must(0, whole),
                (count, last)
            )?,
            "{count}"
        );
    }
    Ok(())
}

// Two bytes that tell a number.
fn digits(number: usize) -> [u8; 2] {
    [(number / 251 % 251) as u8, (number % 251) as u8]
}

// That many patterns of an `x` and two bytes.
fn patterns(alloc: Global, count: usize) -> Result<Program<AsciiWord>, Error> {
    let mut builder = Builder::new(alloc);
    for number in 1..count {
        let two = digits(number);
        let part = builder.literal(&[b'x', two[0], two[1]])?;
        builder.add_pattern(part)?;
    }
    let two = digits(count);
    let last = builder.literal(&[b'x', two[0], two[1]])?;
    builder.build(AsciiWord, false, last)
}

#[test]
fn the_last_of_any_number_of_patterns_is_found(rt: HostRuntime) -> Result<(), Fail> {
    let alloc = rt.alloc();
    for count in SIZES {
        let program = patterns(alloc, count)?;
        let two = digits(count);
        let text = [b'-', b'x', two[0], two[1]];
        let number = count.saturating_sub(1);
        let wanted = Match::must(number, span_to(3));
        let input = Input::new(&text);
        assert!(rt;
            finds(alloc, &program, &input, wanted, (0, span_to(3)))?,
            "{count}"
        );
        let mut anchored = Input::new(&text).anchored(Anchored::Pattern(PatternID::must(number)));
        anchored.set_start(1);
        let mut captures = captures_of(alloc, &program)?;
        let found = find(alloc, &program, &anchored, &mut captures)?;
        assert!(rt; found == Some(wanted), "{count}");
    }
    Ok(())
}

// The even bytes below twice the count, each a range.
fn even_bytes(alloc: Global, count: u8) -> Result<Program<AsciiWord>, Error> {
    let mut ranges = Vec::new(alloc);
    for number in 0..count {
        let byte = number.saturating_mul(2);
        ranges.push((byte, byte))?;
    }
    let builder = Builder::new(alloc);
    let class = builder.class(&ranges)?;
    builder.build(AsciiWord, false, class)
}

#[test]
fn the_last_of_any_number_of_ranges_is_found(rt: HostRuntime) -> Result<(), Fail> {
    let alloc = rt.alloc();
    for count in [1u8, 2, 17, 18, 32, 33, 63, 64, 65, 127] {
        let program = even_bytes(alloc, count)?;
        let last = count.saturating_sub(1).saturating_mul(2);
        let text = [last.saturating_add(1), last];
        let wanted = Match::must(0, span_to(1));
        assert!(rt;
            finds(alloc, &program, &Input::new(&text), wanted, (0, span_to(1)))?,
            "{count}"
        );
    }
    Ok(())
}

// `(a)b`
fn pair(alloc: Global) -> Result<Program<AsciiWord>, Error> {
    let builder = Builder::new(alloc);
    let a = builder.group(None, builder.range(b'a', b'a'))?;
    let whole = builder.then(a, builder.range(b'b', b'b'))?;
    builder.build(AsciiWord, true, whole)
}

// Where the match and its group are in a text of that many hyphens and `ab`, by a cache or a DFA.
fn pair_after(
    alloc: Global,
    count: usize,
    cache: &mut Cache<'_, AsciiWord>,
    dfa: &mut Dfa<'_, AsciiWord>,
    captures: &mut Captures,
) -> Result<bool, Fail> {
    let mut text = text_of(alloc, b'-', count)?;
    text.extend_from_slice(b"ab")?;
    let wanted = Some(count.saturating_add(1));
    let by_cache = cache.find(&Input::new(&text), captures)?;
    let group = captures.get_group(1);
    let by_dfa = dfa.find(&Input::new(&text), captures)?;
    Ok(
        by_cache.map(|it| it.start()) == wanted
            && group.map(|it| it.start) == wanted
            && by_dfa == by_cache
            && captures.get_group(1) == group,
    )
}

#[test]
fn texts_of_any_length_one_after_the_other(rt: HostRuntime) -> Result<(), Fail> {
    let alloc = rt.alloc();
    let program = pair(alloc)?;
    let mut captures = captures_of(alloc, &program)?;
    let mut cache = Cache::new(alloc, &program)?;
    for rows in 0..6 {
        let mut dfa = Dfa::new(alloc, &program, rows);
        for count in [5, 65, 200, 5000, 63, 4096] {
            let found = pair_after(alloc, count, &mut cache, &mut dfa, &mut captures)?;
            assert!(rt; found, "{rows} {count}");
        }
    }
    Ok(())
}

#[test]
fn a_text_of_more_than_a_mebibyte(rt: HostRuntime) -> Result<(), Fail> {
    let alloc = rt.alloc();
    let program = pair(alloc)?;
    let mut captures = captures_of(alloc, &program)?;
    let mut cache = Cache::new(alloc, &program)?;
    let mut dfa = Dfa::new(alloc, &program, 1000);
    assert!(rt; pair_after(alloc, 1_100_000, &mut cache, &mut dfa, &mut captures)?);
    Ok(())
}
