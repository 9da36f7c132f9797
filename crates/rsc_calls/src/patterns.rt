//! The patterns that the program runs.

use crate::pairs::named;
use rsc_engine::{Builder, Error, Part, Program};
use rsc_look::{Look, UnicodeWord};
use std::alloc::Global;

const CAPITAL: [(u8, u8); 1] = [(b'A', b'Z')];

const SMALL: [(u8, u8); 1] = [(b'a', b'z')];

const NO_LINE_FEED: [(u8, u8); 2] = [(0x0B, 0xFF), (0x00, 0x09)];

/// The program of that name.
pub fn make(alloc: Global, name: &str) -> Result<Program<UnicodeWord>, Error> {
    match name {
        "words" => words(alloc),
        "joined" => joined(alloc),
        "lines" => lines(alloc),
        _ => empty(alloc),
    }
}

// `\b[A-Z][a-z]*\b`
fn words(alloc: Global) -> Result<Program<UnicodeWord>, Error> {
    let builder = Builder::new(alloc);
    let name = capitalized(&builder)?;
    let name = builder.then(builder.assertion(Look::WordUnicode), name)?;
    let whole = builder.then(name, builder.assertion(Look::WordUnicode))?;
    builder.build(UnicodeWord, true, whole)
}

// `[A-Z][a-z]*`
fn capitalized(builder: &Builder<'static>) -> Result<Part<'static>, Error> {
    let rest = builder.class(&SMALL)?;
    let rest = builder.star(rest)?;
    let first = builder.class(&CAPITAL)?;
    builder.then(first, rest)
}

// `(\w+),? (and|or) (\w+)`
fn joined(alloc: Global) -> Result<Program<UnicodeWord>, Error> {
    let builder = Builder::new(alloc);
    let listed = listed_item(&builder)?;
    let joined = conjunction(&builder)?;
    let whole = builder.then(listed, joined)?;
    let last = named(&builder, None)?;
    let whole = builder.then(whole, last)?;
    builder.build(UnicodeWord, true, whole)
}

// `(\w+),?`
fn listed_item(builder: &Builder<'static>) -> Result<Part<'static>, Error> {
    let comma = builder.literal(b",")?;
    let comma = builder.optional(comma)?;
    let group = named(builder, None)?;
    builder.then(group, comma)
}

// ` (and|or) `
fn conjunction(builder: &Builder<'static>) -> Result<Part<'static>, Error> {
    let and = builder.literal(b"and")?;
    let or = builder.literal(b"or")?;
    let either = builder.either(and, or)?;
    let either = builder.group(None, either)?;
    let before = builder.literal(b" ")?;
    let either = builder.then(before, either)?;
    let after = builder.literal(b" ")?;
    builder.then(either, after)
}

// `(?m)^(\w+)?.*$`
fn lines(alloc: Global) -> Result<Program<UnicodeWord>, Error> {
    let builder = Builder::new(alloc);
    let first = named(&builder, Some("first"))?;
    let first = builder.optional(first)?;
    let first = builder.then(builder.assertion(Look::StartLF), first)?;
    let rest = rest_of_line(&builder)?;
    let whole = builder.then(first, rest)?;
    builder.build(UnicodeWord, true, whole)
}

// `(?m).*$`
fn rest_of_line(builder: &Builder<'static>) -> Result<Part<'static>, Error> {
    let rest = builder.class(&NO_LINE_FEED)?;
    let rest = builder.star(rest)?;
    builder.then(rest, builder.assertion(Look::EndLF))
}

// `(?:[A-Z]|=)*`, whose matches are mostly empty
fn empty(alloc: Global) -> Result<Program<UnicodeWord>, Error> {
    let builder = Builder::new(alloc);
    let capital = builder.class(&CAPITAL)?;
    let equals = builder.literal(b"=")?;
    let either = builder.either(capital, equals)?;
    let whole = builder.star(either)?;
    builder.build(UnicodeWord, true, whole)
}
