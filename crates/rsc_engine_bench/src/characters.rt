//! Words of Cyrillic letters timed, with an assertion that looks at characters.

use crate::timed::{Fail, all_of_ours, all_of_theirs};
use regex::bytes::Regex;
use rsc_engine::{Builder, Error, Part, Program};
use rsc_look::{Look, UnicodeWord};
use std::alloc::Global;

/// Times `\b\w+\b` in a text whose small letters are made Cyrillic ones.
pub fn time_characters(rt: &HostRuntime, text: &[u8]) -> Result<(), Fail> {
    let text = cyrillic(rt.alloc(), text)?;
    let program = make(rt.alloc())?;
    let ours = all_of_ours(rt, "characters", &program, text.as_slice())?;
    let regex = Regex::new(rt.alloc(), r"\b\w+\b")?;
    let theirs = all_of_theirs(rt, "characters", &regex, text.as_slice())?;
    println!(rt; "characters {ours} {theirs}")?;
    Ok(())
}

// The text with U+0430 to U+0449 for `a` to `z`.
fn cyrillic(alloc: Global, text: &[u8]) -> Result<Vec<u8>, Error> {
    let mut made = Vec::new(alloc);
    for byte in text {
        match *byte {
            b'a'..=b'p' => made.extend_from_slice(&[0xD0, 0xB0 + (*byte - b'a')])?,
            b'q'..=b'z' => made.extend_from_slice(&[0xD1, 0x80 + (*byte - b'q')])?,
            other => made.push(other)?,
        }
    }
    Ok(made)
}

// `\b(?:[0-9A-Za-z_]|[U+0430-U+044F])+\b`
fn make(alloc: Global) -> Result<Program<UnicodeWord>, Error> {
    let builder = Builder::new(alloc);
    let ascii = builder.class(&[(b'0', b'9'), (b'A', b'Z'), (b'a', b'z'), (b'_', b'_')])?;
    let one = pair(&builder, 0xD0, (0xB0, 0xBF))?;
    let other = pair(&builder, 0xD1, (0x80, 0x8F))?;
    let letter = builder.one_of(vec![in alloc; ascii, one, other]?)?;
    let letters = builder.plus(letter)?;
    let before = builder.assertion(Look::WordUnicode);
    let after = builder.assertion(Look::WordUnicode);
    let whole = builder.concat(vec![in alloc; before, letters, after]?)?;
    builder.build(UnicodeWord, true, whole)
}

fn pair(builder: &Builder<'static>, first: u8, second: (u8, u8)) -> Result<Part<'static>, Error> {
    builder.then(
        builder.range(first, first),
        builder.range(second.0, second.1),
    )
}
