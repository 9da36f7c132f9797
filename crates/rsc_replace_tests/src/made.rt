//! Parts by a short notation, and rows of texts that are replaced.
//!
//! A character is a call of the builder, and takes its parts from those before it: `a`, `b`, `c` and a space are literals, and `E` is `é`; `.` is `[ab]`, `W`
//! is `[a-z]`; `B`, `X` and `Z` are `\b`, `\A` and `\z`; `,` joins the last two parts and `|` chooses between them; `*`, `+`, `?` and `R`, which is `{2,3}`,
//! repeat the last part, and `S`, `P` and `Q` are `*?`, `+?` and `??`; `G` makes a group of it, and `K` the group `key`.
use rsc_engine::{Builder, Error, Part};
use rsc_look::{AsciiWord, Look};
use rsc_replace::{replace_all, replace_part};
use std::alloc::Global;

/// The part that a pattern writes.
pub fn part_of(
    alloc: Global,
    builder: &Builder<'static>,
    pattern: &str,
) -> Result<Part<'static>, Error> {
    let mut parts = Vec::new(alloc);
    for call in pattern.as_bytes() {
        let part = made(builder, &mut parts, *call)?;
        parts.push(part)?;
    }
    Ok(last(builder, &mut parts))
}

/// The index of the first row that isn't what comes of it: a pattern, a template, a text and what is to come of it, with tabs between.
pub fn first_wrong(alloc: Global, rows: &[&str]) -> Result<Option<usize>, Error> {
    for at in 0..rows.len() {
        if !is_right(alloc, rows[at])? {
            return Ok(Some(at));
        }
    }
    Ok(None)
}

fn is_right(alloc: Global, row: &str) -> Result<bool, Error> {
    let mut fields = row.split('\t');
    let (Some(pattern), Some(template), Some(text), Some(wanted)) = (
        fields.next(),
        fields.next(),
        fields.next(),
        fields.next(),
    ) else {
        return Ok(false);
    };
    let builder = Builder::new(alloc);
    let part = part_of(alloc, &builder, pattern)?;
    let program = builder.build(AsciiWord, true, part)?;
    let all = replace_all(alloc, &program, text.as_bytes(), template.as_bytes())?;
    let builder = Builder::new(alloc);
    let part = part_of(alloc, &builder, pattern)?;
    let same = replace_part(alloc, AsciiWord, part, text.as_bytes(), template.as_bytes())?;
    Ok(all.as_slice() == wanted.as_bytes() && same.as_slice() == wanted.as_bytes())
}

fn made(
    builder: &Builder<'static>,
    parts: &mut Vec<Part<'static>>,
    call: u8,
) -> Result<Part<'static>, Error> {
    match call {
        b',' | b'|' => joined(builder, parts, call == b','),
        b'*' | b'+' | b'?' | b'S' | b'P' | b'Q' | b'R' => repeated(builder, parts, call),
        b'G' => {
            let part = last(builder, parts);
            builder.group(None, part)
        }
        b'K' => {
            let part = last(builder, parts);
            builder.group(Some("key"), part)
        }
        b'E' => builder.literal("é".as_bytes()),
        b'.' => builder.class(&[(b'a', b'b')]),
        b'W' => Ok(builder.range(b'a', b'z')),
        b'B' => Ok(builder.assertion(Look::WordAscii)),
        b'X' => Ok(builder.assertion(Look::Start)),
        b'Z' => Ok(builder.assertion(Look::End)),
        _ => builder.literal(&[call]),
    }
}

fn joined(
    builder: &Builder<'static>,
    parts: &mut Vec<Part<'static>>,
    is_then: bool,
) -> Result<Part<'static>, Error> {
    let other = last(builder, parts);
    let one = last(builder, parts);
    if is_then {
        builder.then(one, other)
    } else {
        builder.either(one, other)
    }
}

fn repeated(
    builder: &Builder<'static>,
    parts: &mut Vec<Part<'static>>,
    call: u8,
) -> Result<Part<'static>, Error> {
    let part = last(builder, parts);
    match call {
        b'*' => builder.star(part),
        b'+' => builder.plus(part),
        b'?' => builder.optional(part),
        b'S' => builder.star_lazy(part),
        b'P' => builder.plus_lazy(part),
        b'Q' => builder.optional_lazy(part),
        _ => builder.repeat(part, 2, Some(3)),
    }
}

// The last part that was made; without one, the part that never matches.
fn last(builder: &Builder<'static>, parts: &mut Vec<Part<'static>>) -> Part<'static> {
    match parts.pop() {
        Some(part) => part,
        None => builder.never(),
    }
}
