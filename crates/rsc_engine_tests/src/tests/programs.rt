//! Programs with each assertion, by their numbers.
use rsc_engine::{Builder, Error, Part, Program};
use rsc_look::{Look, UnicodeWord};
use std::alloc::Global;

// An assertion, by its number.
fn look(number: usize) -> Look {
    match number {
        0 => Look::Start,
        1 => Look::End,
        2 => Look::StartLF,
        3 => Look::EndLF,
        4 => Look::StartCRLF,
        5 => Look::EndCRLF,
        6 => Look::WordAscii,
        7 => Look::WordAsciiNegate,
        8 => Look::WordUnicode,
        9 => Look::WordUnicodeNegate,
        10 => Look::WordStartAscii,
        11 => Look::WordEndAscii,
        12 => Look::WordStartUnicode,
        13 => Look::WordEndUnicode,
        14 => Look::WordStartHalfAscii,
        15 => Look::WordEndHalfAscii,
        16 => Look::WordStartHalfUnicode,
        _ => Look::WordEndHalfUnicode,
    }
}

/// For each assertion L, `Lb|aLa|(?:b\n)L`; and then lines, words and no assertion.
pub fn program_of(alloc: Global, number: usize) -> Result<Program<UnicodeWord>, Error> {
    let builder = Builder::new(alloc);
    let whole = match number {
        18 => line(&builder)?,
        19 => letter_alone(&builder)?,
        20 => letters_and_blank(&builder)?,
        21 => last_letter(&builder)?,
        _ => around(&builder, look(number))?,
    };
    builder.build(UnicodeWord, false, whole)
}

// `(?m)^[a-z]+$`
fn line(builder: &Builder<'static>) -> Result<Part<'static>, Error> {
    let letters = builder.plus(builder.range(b'a', b'z'))?;
    let line = builder.then(builder.assertion(Look::StartLF), letters)?;
    builder.then(line, builder.assertion(Look::EndLF))
}

// `\bé\b`
fn letter_alone(builder: &Builder<'static>) -> Result<Part<'static>, Error> {
    let letter = builder.literal(b"\xC3\xA9")?;
    let letter = builder.then(builder.assertion(Look::WordUnicode), letter)?;
    builder.then(letter, builder.assertion(Look::WordUnicode))
}

// `a* b`
fn letters_and_blank(builder: &Builder<'static>) -> Result<Part<'static>, Error> {
    let letters = builder.literal(b"a")?;
    let letters = builder.star(letters)?;
    let last = builder.literal(b" b")?;
    builder.then(letters, last)
}

// `b\z`
fn last_letter(builder: &Builder<'static>) -> Result<Part<'static>, Error> {
    let last = builder.literal(b"b")?;
    builder.then(last, builder.assertion(Look::End))
}

fn around(builder: &Builder<'static>, look: Look) -> Result<Part<'static>, Error> {
    let before = builder.literal(b"b")?;
    let before = builder.then(builder.assertion(look), before)?;
    let between = between(builder, look)?;
    let either = builder.either(before, between)?;
    let after = builder.literal(b"b\n")?;
    let after = builder.then(after, builder.assertion(look))?;
    builder.either(either, after)
}

fn between(builder: &Builder<'static>, look: Look) -> Result<Part<'static>, Error> {
    let first = builder.literal(b"a")?;
    let first = builder.then(first, builder.assertion(look))?;
    let last = builder.literal(b"a")?;
    builder.then(first, last)
}
