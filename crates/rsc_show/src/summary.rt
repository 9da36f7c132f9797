//! The summary of `classes`: how wide a table is, and what each listed assertion and range adds to it.
ghost use Rattle.std.specs.Prelude.{◌<◌};

use crate::alphabet::{Sizes, classes_of, sizes_of};
use crate::arguments::Request;
use crate::shares::{
    Item, Share, boundaries_beyond, boundaries_of_look, has_boundary_after, is_beyond, shares_of,
};
use crate::text::Page;
use rsc_alphabet::ByteClasses;
use rsc_notation::looks::name_of;
use std::alloc::{AllocError, Global};
use std::fmt::Write;

// The width of the longest name, of an assertion, without the space after it.
const LABEL_WIDTH: usize = 19;

// How many boundaries a line of at most 80 columns has after its label.
const BOUNDARIES_A_LINE: usize = 20;

const HEAD: &str = "                      boundaries  only from it  without it: stride2  entries\n";

/// A table with a line for each listed assertion and range and one for all together, and a picture of their boundaries.
pub fn summary(alloc: Global, request: &Request) -> Result<String, AllocError> {
    let matcher = request.matcher();
    let looks = request.looks.as_slice();
    let ranges = request.ranges.as_slice();
    let all = classes_of(&matcher, looks, ranges);
    let shares = shares_of(alloc, &matcher, looks, ranges)?;
    let mut page = Page::new(alloc);
    page.push_str(HEAD);
    for share in shares.as_slice() {
        push_share(&mut page, &all, share);
    }
    push_all(&mut page, &all);
    push_picture(&mut page, &all, shares.as_slice());
    page.finish()
}

// The boundaries of an item, how many of them no other item has, and how large a row is without it.
fn push_share(page: &mut Page, all: &ByteClasses, share: &Share) {
    push_label(page, share.item);
    let own = boundaries_of_look(&share.own);
    let only = boundaries_beyond(all, &share.others);
    let _ = write!(page, "{own:>12}{only:>14}");
    push_row_size(page, &share.others);
}

// The boundaries of all items, and how large a row is.
fn push_all(page: &mut Page, all: &ByteClasses) {
    let count = boundaries_of_look(all);
    let _ = write!(page, "with all{count:>24}              ");
    push_row_size(page, all);
}

fn push_row_size(page: &mut Page, classes: &ByteClasses) {
    let Sizes {
        exponent,
        entries,
        ..
    } = sizes_of(classes);
    let _ = write!(page, "{exponent:>21}{entries:>9}\n");
}

// An assertion's name, or the first and the last byte of a range.
fn push_label(page: &mut Page, item: Item) {
    let mut label = page.cell();
    match item {
        Item::Look(look) => label.push_str(name_of(look)),
        Item::Range(start, end) => {
            label.push_digits(start);
            label.push('-');
            label.push_digits(end);
        }
    }
    page.push_cell(&label, LABEL_WIDTH);
}

// A column for each boundary of all, in tables that are at most 80 columns wide, and what its marks mean.
fn push_picture(page: &mut Page, all: &ByteClasses, shares: &[Share]) {
    let count = boundaries_of_look(all);
    for table in 0..count.div_ceil(BOUNDARIES_A_LINE) {
        push_table(page, all, shares, table);
    }
    if count > 0 {
        page.push_str("\nx: a boundary of this line's item; X: of no other item\n");
    }
}

// The bytes before which the boundaries are, and a line of marks for each item.
fn push_table(page: &mut Page, all: &ByteClasses, shares: &[Share], table: usize) {
    page.push_str("\nboundary before     ");
    for byte in 0..255u8 {
        if is_in_table(all, byte, table) {
            page.push(' ');
            page.push_digits(byte + 1);
        }
    }
    page.push('\n');
    for share in shares {
        push_marks(page, all, share, table);
    }
}

// A mark for each boundary of all: whether the item has it, and whether another one does too.
fn push_marks(page: &mut Page, all: &ByteClasses, share: &Share, table: usize) {
    push_label(page, share.item);
    for byte in 0..255u8 {
        if is_in_table(all, byte, table) {
            page.push_str(if is_beyond(&share.own, &share.others, byte) {
                "  X"
            } else if has_boundary_after(&share.own, byte) {
                "  x"
            } else {
                "  ."
            });
        }
    }
    page.push('\n');
}

// Whether a boundary of all is in the table of a number: the class of the byte before it is the number of boundaries below.
fn is_in_table(all: &ByteClasses, byte: u8, table: usize) -> bool
    requires { byte < 255 }
{
    has_boundary_after(all, byte) && usize::from(all.get(byte)) / BOUNDARIES_A_LINE == table
}
