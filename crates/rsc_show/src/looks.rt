//! The command `looks`: where assertions hold in a haystack.
ghost use Rattle.std.specs.Prelude.{◌≤◌, length};

use crate::arguments::{Haystack, Request, parse};
use crate::choices::Color;
use crate::error::{ShowError, refused};
use crate::positions::{Side, after, before, marks_at};
use crate::text::{Page, prints};
use rsc_look::Look;
use rsc_notation::looks::{every_look, name_of};
use std::alloc::Global;
use std::fmt::Write;
use std::io::Read;

// The width of the columns before and after: with all assertions a line has 74 columns.
const SIDE_WIDTH: usize = 15;

// An input that hasn't ended after this many reads counts as one that can't be read.
const MAX_READS: u32 = 1_048_576;

const EXPECTED_HAYSTACK: &str = "a haystack, as -- TEXT, --hex BYTES or -";

/// The answer to the arguments of `looks`.
pub fn answer<R: Read>(
    alloc: Global,
    arguments: &[String],
    input: &mut R,
) -> Result<String, ShowError> {
    let request = parse(alloc, arguments)?;
    if let Some(option) = option_of_classes(&request) {
        return Err(refused(alloc, option, "an argument of classes"));
    }
    match &request.haystack {
        Haystack::Missing => Err(refused(alloc, "looks", EXPECTED_HAYSTACK)),
        Haystack::Given(bytes) => table(alloc, &request, bytes.as_slice()),
        Haystack::Standard => table(alloc, &request, read_all(alloc, input)?.as_slice()),
    }
}

// An option that `looks` doesn't take, if one is there.
fn option_of_classes(request: &Request) -> Option<&'static str> {
    if !request.ranges.is_empty() {
        return Some("--range");
    }
    if request.summary {
        return Some("--summary");
    }
    match request.color {
        Color::Auto => None,
        Color::Always | Color::Never => Some("--color"),
    }
}

// The table of all positions, and its legend.
fn table(alloc: Global, request: &Request, haystack: &[u8]) -> Result<String, ShowError> {
    let matcher = request.matcher();
    let looks = if request.looks.is_empty() {
        every_look()
    } else {
        request.looks.as_slice()
    };
    let mut page = Page::new(alloc);
    push_head(&mut page, looks);
    for at in 0..=haystack.len() {
        let marks = marks_at(alloc, &matcher, looks, haystack, at)?;
        push_row(&mut page, haystack, at, marks.as_slice());
    }
    push_legend(&mut page, looks);
    Ok(page.finish()?)
}

// A line for each of the assertions.
fn push_legend(page: &mut Page, looks: &[Look]) {
    page.push('\n');
    for look in looks {
        push_meaning(page, *look);
    }
}

// The names of the columns: an assertion's is its character, and two of them take two columns each.
fn push_head(page: &mut Page, looks: &[Look]) {
    page.push_str("    at before          after           ");
    for look in looks {
        let mut cell = page.cell();
        cell.push(look.as_char());
        page.push_cell(&cell, 1);
    }
    page.end_line();
}

// A position, what is on its sides, and a mark for each assertion that holds there.
fn push_row(page: &mut Page, haystack: &[u8], at: usize, marks: &[bool])
    requires { at ≤ length haystack.now }
{
    let _ = write!(page, "{at:>6} ");
    let last = haystack[..at].last().copied();
    push_side(page, last, "start", before(haystack, at));
    let first = haystack.get(at).copied();
    push_side(page, first, "end", after(haystack, at));
    for mark in marks {
        page.push_str(if *mark { "x " } else { ". " });
    }
    page.end_line();
}

// An assertion's character, its name, and what it asks.
fn push_meaning(page: &mut Page, look: Look) {
    let mut label = page.cell();
    label.push(look.as_char());
    label.push(' ');
    label.push_str(name_of(look));
    page.push_cell(&label, 22);
    page.push_str(meaning_of(look));
    page.push('\n');
}

// What an assertion asks of the two sides of a position, in at most 57 columns.
fn meaning_of(look: Look) -> &'static str {
    match look {
        Look::Start => "the haystack starts here",
        Look::End => "the haystack ends here",
        Look::StartLF => "the start, or the line terminator is before",
        Look::EndLF => "the end, or the line terminator is after",
        Look::StartCRLF => "the start, or \\n is before, or \\r that no \\n follows",
        Look::EndCRLF => "the end, or \\r is after, or \\n that follows no \\r",
        Look::WordAscii => "a word byte on exactly one side",
        Look::WordAsciiNegate => "a word byte on both sides or on neither",
        Look::WordUnicode => "a word character on exactly one side",
        Look::WordUnicodeNegate => "word characters on both sides or neither, no bad bytes",
        Look::WordStartAscii => "a word byte after, and none before",
        Look::WordEndAscii => "a word byte before, and none after",
        Look::WordStartUnicode => "a word character after, and none before",
        Look::WordEndUnicode => "a word character before, and none after",
        Look::WordStartHalfAscii => "no word byte before",
        Look::WordEndHalfAscii => "no word byte after",
        Look::WordStartHalfUnicode => "the start, or a non-word character before",
        Look::WordEndHalfUnicode => "the end, or a non-word character after",
    }
}

// The byte on one side of a position, and what it is part of; or the name of the haystack's end, where no byte is.
fn push_side(page: &mut Page, byte: Option<u8>, end: &str, side: Side) {
    let mut cell = page.cell();
    match byte {
        None => cell.push_str(end),
        Some(byte) => {
            cell.push_digits(byte);
            cell.push(' ');
            match side {
                Side::Character(c) => push_character(&mut cell, byte, c),
                Side::Inside => cell.push_str("inside"),
                Side::Absent | Side::NoCharacter => cell.push_str("no character"),
            }
        }
    }
    page.push_cell(&cell, SIDE_WIDTH);
}

// A character: of ASCII as a byte is shown, any other by its number, and by itself if that prints.
fn push_character(cell: &mut Page, byte: u8, c: char) {
    if c.is_ascii() {
        cell.push_shown(byte);
        return;
    }
    let number = c as u32;
    let _ = write!(cell, "U+{number:04X}");
    if prints(c) {
        cell.push(' ');
        cell.push(c);
    }
}

// All bytes of the input, up to its end.
fn read_all<R: Read>(alloc: Global, input: &mut R) -> Result<Vec<u8>, ShowError> {
    let mut bytes = Vec::new(alloc);
    let mut buffer = [0u8; 4096];
    for _ in 0..MAX_READS {
        let count = input.read(&mut buffer).map_err(|_| ShowError::Read)?;
        if count == 0 {
            return Ok(bytes);
        }
        bytes
            .extend_from_slice(&buffer[..count])
            .map_err(|_| ShowError::OutOfMemory)?;
    }
    Err(ShowError::Read)
}
