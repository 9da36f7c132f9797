//! The matches that patterns, as lists of the builder's calls, have in texts.

use rsc_captures::Captures;
use rsc_engine::{Builder, Error, Matches, Program};
use rsc_look::AsciiWord;
use rsc_notation::bytes::parse_bytes;
use rsc_pattern_notation::parse_part;
use rsc_search::Input;
use std::alloc::Global;
use std::io;
use std::io::{BufWriter, Read, Write};

/// Answers each line of standard input, which is calls, a tab and the digits of a text: all matches of the pattern, each with the spans
/// of its groups.
pub fn answer_all(rt: &HostRuntime) -> io::Result<()> {
    let mut input = Vec::new(rt.alloc());
    rt.reader().read_to_end(&mut input)?;
    let mut out = BufWriter::new(rt.alloc(), io::writer(rt))?;
    for line in input.split(|byte| *byte == b'\n') {
        if !line.is_empty() {
            answer(rt.alloc(), line, &mut out)?;
        }
    }
    out.flush()
}

fn answer<O: Write>(alloc: Global, line: &[u8], out: &mut O) -> io::Result<()> {
    match matches_of(alloc, line) {
        Ok(Some(text)) => writeln!(out, "{text}"),
        Ok(None) => writeln!(out, "bad line"),
        Err(error) => writeln!(out, "error: {error}"),
    }
}

// The matches that a line asks for, or `None` if it can't be read.
fn matches_of(alloc: Global, line: &[u8]) -> Result<Option<String>, Error> {
    let mut halves = line.split(|byte| *byte == b'\t');
    let (Some(calls), Some(digits), None) = (halves.next(), halves.next(), halves.next()) else {
        return Ok(None);
    };
    let Some(program) = program_of(alloc, calls)? else {
        return Ok(None);
    };
    match parse_bytes(alloc, digits)? {
        None => Ok(None),
        Some(text) => Ok(Some(all_matches(alloc, &program, &text)?)),
    }
}

fn all_matches(alloc: Global, program: &Program<AsciiWord>, text: &[u8]) -> Result<String, Error> {
    let mut captures = program.captures(alloc)?;
    let mut found = String::new(alloc);
    let mut matches = Matches::new(alloc, program, Input::new(text))?;
    push_matches(&mut found, &mut matches, &mut captures, text.len())?;
    if found.is_empty() {
        found.push_str("no match")?;
    }
    Ok(found)
}

// The matches in a text of that many bytes, each with the spans of its groups. Where memory is refused, a search is made once more.
fn push_matches(
    found: &mut String,
    matches: &mut Matches<'_, '_, AsciiWord>,
    captures: &mut Captures,
    len: usize,
) -> Result<(), Error> {
    for _ in 0..=len {
        let next = match matches.next(captures) {
            Ok(next) => next,
            // Out of memory: the next call looks for the same match.
            Err(_) => matches.next(captures)?,
        };
        if next.is_none() {
            break;
        }
        push_spans(found, captures)?;
    }
    Ok(())
}

fn push_spans(found: &mut String, captures: &Captures) -> Result<(), Error> {
    for span in captures.iter() {
        match span {
            Some(span) => {
                push_offset(found, span.start)?;
                push_offset(found, span.end)?;
            }
            None => found.push_str("- - ")?,
        }
    }
    Ok(found.push(';')?)
}

fn push_offset(found: &mut String, offset: usize) -> Result<(), Error> {
    Ok(write!(found, "{offset} ")?)
}

// The program of calls, or `None` if they can't be read.
fn program_of(alloc: Global, calls: &[u8]) -> Result<Option<Program<AsciiWord>>, Error> {
    let builder = Builder::new(alloc);
    match parse_part(alloc, &builder, calls)? {
        None => Ok(None),
        Some(whole) => Ok(Some(builder.build(AsciiWord, false, whole)?)),
    }
}
