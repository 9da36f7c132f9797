//! How a class map is shown.

use rsc_alphabet::ByteClasses;
use std::alloc::{AllocError, Allocator};
use std::fmt::Write;
use std::ops::Bound;

/// `alphabet`, the number of symbols, and the first byte of each class.
pub fn describe<A: Allocator + Copy + Drop>(
    alloc: A,
    classes: &ByteClasses,
) -> Result<String<A>, AllocError> {
    let mut text = String::new(alloc);
    let count = classes.alphabet_len();
    write!(text, "alphabet {count}:")?;
    for unit in classes.representatives(Bound::Unbounded, Bound::Included(255)) {
        let byte = unit.as_usize();
        write!(text, " {byte:02x}")?;
    }
    Ok(text)
}
