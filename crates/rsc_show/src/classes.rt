//! The command `classes`: which bytes share a class, and why the others don't.
ghost use Rattle.std.specs.Prelude.{◌≤◌, ◌<◌};

use crate::alphabet::{Sizes, classes_of, sizes_of};
use crate::arguments::{Haystack, Request, parse};
use crate::choices::WordPredicate;
use crate::error::{ShowError, refused};
use crate::summary::summary;
use crate::text::Page;
use crate::witness::witnesses;
use rsc_alphabet::ByteClasses;
use rsc_look::{Look, LookMatcher};
use rsc_notation::looks::name_of;
use std::alloc::Global;
use std::fmt::Write;
use std::ops::Bound;

// How many representatives a line of at most 80 columns has after their heading.
const REPRESENTATIVES_A_LINE: usize = 21;

const REPRESENTATIVES: &str = "representatives";

// The width of `between 60 and 61:`. What follows it, an assertion or a range, has at most 52 columns.
const BETWEEN_WIDTH: usize = 18;

static LETTERS: [u8; 52] = *b"ABCDEFGHIJKLMNOPQRSTUVWXYZabcdefghijklmnopqrstuvwxyz";

/// The answer to the arguments of `classes`, for an output that wants colour or not.
pub fn answer(alloc: Global, arguments: &[String], wants_color: bool) -> Result<String, ShowError> {
    let request = parse(alloc, arguments)?;
    if !matches!(&request.haystack, Haystack::Missing) {
        return Err(refused(alloc, "classes", "no haystack"));
    }
    if request.summary {
        return Ok(summary(alloc, &request)?);
    }
    let matcher = request.matcher();
    let classes = classes_of(
        &matcher,
        request.looks.as_slice(),
        request.ranges.as_slice(),
    );
    let mut page = Page::new(alloc);
    push_classes(&mut page, &classes);
    push_representatives(&mut page, &classes);
    push_sizes(&mut page, &classes);
    push_boundaries(&mut page, &request, &matcher, &classes);
    push_picture(&mut page, &classes, request.color.is_used(wants_color));
    Ok(page.finish()?)
}

// A line for each class: its number, its bytes by their numbers, and as they are shown.
fn push_classes(page: &mut Page, classes: &ByteClasses) {
    page.push_str("class  bytes  shown as\n");
    let mut first = 0u8;
    for byte in 0..=255u8 {
        if byte == 255 || classes.get(byte) != classes.get(byte + 1) {
            push_class(page, classes.get(byte), first, byte);
            first = byte.wrapping_add(1);
        }
    }
}

fn push_class(page: &mut Page, class: u8, first: u8, last: u8) {
    let _ = write!(page, "{class:>5}  ");
    page.push_digits(first);
    if first == last {
        page.push_str("     ");
        page.push_shown(first);
    } else {
        page.push('-');
        page.push_digits(last);
        page.push_str("  ");
        page.push_shown(first);
        page.push('-');
        page.push_shown(last);
    }
    page.push('\n');
}

// The representative of each class, in lines of at most 80 columns.
fn push_representatives(page: &mut Page, classes: &ByteClasses) {
    page.push('\n');
    page.push_str(REPRESENTATIVES);
    let mut count = 0usize;
    for unit in classes.representatives(Bound::Unbounded, Bound::Included(255)) {
        if count == REPRESENTATIVES_A_LINE {
            page.push('\n');
            page.push_spaces(REPRESENTATIVES.len());
            count = 0;
        }
        let byte = unit.as_usize();
        let _ = write!(page, " {byte:02x}");
        count = count.wrapping_add(1);
    }
    page.push('\n');
}

// How many symbols there are, and how large a row of a dense table is.
fn push_sizes(page: &mut Page, classes: &ByteClasses) {
    let Sizes {
        symbols,
        exponent,
        entries,
    } = sizes_of(classes);
    let _ = write!(
        page,
        "alphabet_len {symbols}, with the end of the input\nstride2 {exponent}: a row of a dense table has {entries} entries\n\n"
    );
}

// A line for each two neighbours of different classes: what tells them apart.
fn push_boundaries(
    page: &mut Page,
    request: &Request,
    matcher: &LookMatcher<WordPredicate>,
    classes: &ByteClasses,
) {
    for byte in 0..255u8 {
        if classes.get(byte) != classes.get(byte + 1) {
            push_boundary(page, request, matcher, byte);
        }
    }
    page.push('\n');
}

// What tells a byte from the next one: an assertion, or the first range that begins or ends there, or both.
fn push_boundary(page: &mut Page, request: &Request, matcher: &LookMatcher<WordPredicate>, byte: u8)
    requires { byte < 255 }
{
    page.push_str("between ");
    page.push_digits(byte);
    page.push_str(" and ");
    page.push_digits(byte + 1);
    page.push(':');
    let (told, range) = witnesses(
        matcher,
        request.looks.as_slice(),
        request.ranges.as_slice(),
        byte,
    );
    if let Some((look, position)) = told {
        if position <= 1 {
            push_witness(page, matcher, look, position, byte);
        }
    }
    if let Some((start, end)) = range {
        if told.is_some() {
            page.push('\n');
            page.push_spaces(BETWEEN_WIDTH);
        }
        push_range(page, start, end, start == byte + 1);
    }
    page.push('\n');
}

// The assertion, the position, and on which of the two bytes it holds there.
fn push_witness(
    page: &mut Page,
    matcher: &LookMatcher<WordPredicate>,
    look: Look,
    position: usize,
    byte: u8,
)
    requires byte { byte < 255 }
    requires position { position ≤ 1 }
{
    let (with, without) = if matcher.matches(look, &[byte], position) {
        (byte, byte + 1)
    } else {
        (byte + 1, byte)
    };
    let name = name_of(look);
    let _ = write!(
        page,
        " {name} at {position} holds on {with:02x} and not on {without:02x}"
    );
}

// A range that begins or ends there.
fn push_range(page: &mut Page, start: u8, end: u8, begins: bool) {
    page.push(' ');
    page.push_digits(start);
    page.push('-');
    page.push_digits(end);
    page.push_str(if begins { " begins" } else { " ends" });
}

// Appends a picture of the 256 bytes as 16 lines of 16, in which each byte is the letter of its class, in the class's colour where that is asked for; after
// 52 classes the letters begin again, and after 6 the colours.
fn push_picture(page: &mut Page, classes: &ByteClasses, in_color: bool) {
    page.push_str("   0 1 2 3 4 5 6 7 8 9 a b c d e f\n");
    for line in 0..16u8 {
        push_line(page, classes, line, in_color);
    }
}

fn push_line(page: &mut Page, classes: &ByteClasses, line: u8, in_color: bool) {
    let start = line.wrapping_mul(16);
    page.push_digits(start);
    for column in 0..16u8 {
        page.push(' ');
        push_letter(page, classes.get(start.wrapping_add(column)), in_color);
    }
    page.push('\n');
}

// The letter of a class, in colour between the terminal's sequences that begin a colour and end it.
fn push_letter(page: &mut Page, class: u8, in_color: bool) {
    if in_color {
        page.push_str("\x1B[3");
        page.push(char::from(b'1' + class % 6));
        page.push('m');
    }
    page.push(letter_of(class));
    if in_color {
        page.push_str("\x1B[0m");
    }
}

// The letter of a class.
fn letter_of(class: u8) -> char {
    char::from(LETTERS[usize::from(class % 52)])
}
