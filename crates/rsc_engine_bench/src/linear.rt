//! Iterations in which each search may read far behind a short match: all matches together are to take time in proportion to the text.

use crate::timed::{Fail, count, report};
use rsc_engine::{Builder, Error, Part, Program};
use rsc_look::{AsciiWord, Look};
use rsc_search::Input;
use std::alloc::Global;
use std::time::CpuClock;

const SIZES: [(&str, usize); 3] = [("20 KB", 20000), ("80 KB", 80000), ("320 KB", 320000)];

const NO_CAPITAL: [(u8, u8); 3] = [(0x00, 0x09), (0x0B, 0x40), (0x5B, 0xFF)];

const NO_LINE_FEED: [(u8, u8); 2] = [(0x0B, 0xFF), (0x00, 0x09)];

/// Times all matches of five patterns in texts of one letter alone.
pub fn time_linear(rt: &HostRuntime) -> Result<(), Fail> {
    for (name, letter) in [
        ("far_line", b'A'),
        ("far_digit", b'a'),
        ("far_nested", b'a'),
        ("far_stars", b'a'),
        ("far_words", b'a'),
    ] {
        let program = make(rt.alloc(), name)?;
        for (what, size) in SIZES {
            let text = vec![in rt.alloc(); letter; size]?;
            let from = rt.thread_cpu_time()?;
            let found = count(rt, &program, Input::new(text.as_slice()), size)?;
            report(rt, name, what, from)?;
            println!(rt; "{name} {what} {found}")?;
        }
    }
    Ok(())
}

// What may stretch far, or else one letter.
fn make(alloc: Global, name: &str) -> Result<Program<AsciiWord>, Error> {
    let builder = Builder::new(alloc);
    let far = match name {
        "far_line" => line(&builder),
        "far_digit" => digit(alloc, &builder),
        "far_nested" => nested(&builder),
        "far_stars" => stars(alloc, &builder),
        _ => words(alloc, &builder),
    }?;
    let near = match name {
        "far_line" => builder.range(b'A', b'Z'),
        "far_digit" | "far_words" => builder.range(b'a', b'z'),
        _ => builder.range(b'a', b'a'),
    };
    let whole = builder.either(far, near)?;
    builder.build(AsciiWord, false, whole)
}

// `.*[^A-Z]`
fn line(builder: &Builder<'static>) -> Result<Part<'static>, Error> {
    let any = builder.class(&NO_LINE_FEED)?;
    let any = builder.star(any)?;
    let last = builder.class(&NO_CAPITAL)?;
    builder.then(any, last)
}

// `[a-z]*[0-9]x`
fn digit(alloc: Global, builder: &Builder<'static>) -> Result<Part<'static>, Error> {
    let letters = builder.star(builder.range(b'a', b'z'))?;
    let digit = builder.range(b'0', b'9');
    let last = builder.literal(b"x")?;
    builder.concat(vec![in alloc; letters, digit, last]?)
}

// `(?:a+)+b`
fn nested(builder: &Builder<'static>) -> Result<Part<'static>, Error> {
    let letters = builder.plus(builder.range(b'a', b'a'))?;
    let letters = builder.plus(letters)?;
    builder.then(letters, builder.range(b'b', b'b'))
}

// `a*a*a*a*b`
fn stars(alloc: Global, builder: &Builder<'static>) -> Result<Part<'static>, Error> {
    let mut parts = Vec::new(alloc);
    for _ in 0..4 {
        parts.push(builder.star(builder.range(b'a', b'a'))?)?;
    }
    parts.push(builder.range(b'b', b'b'))?;
    builder.concat(parts)
}

// `\b[a-z ]*=`
fn words(alloc: Global, builder: &Builder<'static>) -> Result<Part<'static>, Error> {
    let start = builder.assertion(Look::WordAscii);
    let letters = builder.class(&[(b'a', b'z'), (b' ', b' ')])?;
    let letters = builder.star(letters)?;
    let last = builder.range(b'=', b'=');
    builder.concat(vec![in alloc; start, letters, last]?)
}
