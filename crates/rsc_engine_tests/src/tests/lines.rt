//! Lines with a match beside a reader that tries each way in each line, for 22 programs over all texts of up to three of six bytes.
use super::dfa::{TEXTS, text_of};
use super::programs::program_of;
use super::slow::first_match;
use rsc_captures::Captures;
use rsc_engine::{AsciiCompatible, Builder, Dfa, Error, Lines, Program};
use rsc_look::{AsciiWord, WordClass};
use rsc_search::{Input, Span};
use std::alloc::Global;
use std::test::Fail;

// Where the line ends that begins at a position.
fn end_of(text: &[u8], start: usize) -> usize {
    for end in start..text.len() {
        if text[end] == b'\n' {
            return end;
        }
    }
    text.len()
}

// Whether the lines are those in which a walk finds a match.
fn agree<W: WordClass + AsciiCompatible>(
    alloc: Global,
    program: &Program<W>,
    lines: &mut Lines<'_, '_, W>,
    text: &[u8],
    captures: &mut Captures,
) -> Result<bool, Error> {
    let mut start = 0;
    for _ in 0..=text.len() {
        if start >= text.len() {
            break;
        }
        let end = end_of(text, start);
        if end < start || text.len() < end {
            return Ok(false);
        }
        let line = Span { start, end };
        let input = Input::new(text).span(line);
        if first_match(alloc, program, &input, captures)?.is_some() && lines.next()? != Some(line) {
            return Ok(false);
        }
        start = end + 1;
    }
    Ok(lines.next()?.is_none() && lines.next()?.is_none())
}

// The number of the first text over which they don't agree.
fn differing_text<W: WordClass + AsciiCompatible>(
    alloc: Global,
    program: &Program<W>,
    most_rows: usize,
) -> Result<Option<usize>, Error> {
    let mut captures = program.captures(alloc)?;
    let mut dfa = Dfa::new(alloc, program, most_rows);
    for number in 0..TEXTS {
        let (bytes, len) = text_of(number);
        let text = &bytes[..len.min(4)];
        let mut lines = Lines::new(dfa, text);
        if !agree(alloc, program, &mut lines, text, &mut captures)? {
            return Ok(Some(number));
        }
        dfa = lines.into_dfa();
    }
    Ok(None)
}

#[test]
fn lines_are_those_with_a_match(rt: HostRuntime) -> Result<(), Fail> {
    for number in 0..22 {
        let program = program_of(rt.alloc(), number)?;
        assert_eq!(rt;
            differing_text(rt.alloc(), &program, 1000)?,
            None,
            "{number}"
        );
        assert_eq!(rt;
            differing_text(rt.alloc(), &program, 1)?,
            None,
            "{number} in one row"
        );
    }
    Ok(())
}

// `a[^x]*x` crosses lines; only a match within a line counts.
#[test]
fn a_match_over_two_lines_is_in_none(rt: HostRuntime) -> Result<(), Fail> {
    let builder = Builder::new(rt.alloc());
    let between = builder.class(&[(0, b'w'), (b'y', 0xFF)])?;
    let between = builder.star(between)?;
    let first = builder.literal(b"a")?;
    let whole = builder.then(first, between)?;
    let last = builder.literal(b"x")?;
    let whole = builder.then(whole, last)?;
    let program = builder.build(AsciiWord, true, whole)?;
    let dfa = Dfa::new(rt.alloc(), &program, 1000);
    let mut lines = Lines::new(dfa, b"a\nbx\n\nax\naa");
    assert!(rt; lines.next()? == Some(Span { start: 6, end: 8 }));
    assert!(rt; lines.next()? == None);
    Ok(())
}

#[test]
fn lines_before_a_far_match_are_read_once(rt: HostRuntime) -> Result<(), Fail> {
    let builder = Builder::new(rt.alloc());
    let whole = builder.range(b'x', b'x');
    let program = builder.build(AsciiWord, false, whole)?;
    let mut text = vec![in rt.alloc(); b'\n'; 100000]?;
    text.push(b'x')?;
    let dfa = Dfa::new(rt.alloc(), &program, 1000);
    let mut lines = Lines::new(dfa, text.as_slice());
    let last = Span {
        start: 100000,
        end: 100001,
    };
    assert!(rt; lines.next()? == Some(last));
    Ok(())
}
