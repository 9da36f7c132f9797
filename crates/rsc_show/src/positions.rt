//! What is beside a position of a haystack, and which assertions hold there.
ghost use Rattle.std.specs.Prelude.{◌≤◌, ◌<◌, ◌↔◌, IsTrue, length, IfOk};
ghost use Rattle.rsc_primitives.specs.Utf8.{IsInside};
ghost use Rattle.rsc_show.specs.Sides.{IsSideAfter, IsSideBefore, ReachesPast};
ghost use Rattle.rsc_look.specs.Holds.{Holds};
ghost use Rattle.rsc_show.specs.Chosen.{chosen_word_chars};
ghost use Rattle.rsc_show.specs.Marks.{AreMarks};

use crate::choices::WordPredicate;
use rsc_look::{Look, LookMatcher};
use rsc_primitives::laws::encoding_is_that_of_std;
use rsc_primitives::utf8;
use std::alloc::{AllocError, Global};

/// What is before a position, or after it.
#[derive(Clone, Copy, Drop)]
pub enum Side {
    /// The haystack's start before a position, or its end after one.
    Absent,
    /// The character that ends at the position, or begins there.
    Character(char),
    /// A byte of a character, which begins before the position and ends after it.
    Inside,
    /// A byte with which no character ends at the position, or begins there.
    NoCharacter,
}

/// What is before a position.
pub fn before(haystack: &[u8], at: usize) -> Side
    requires { at ≤ length haystack.now }
    ensures { IsSideBefore haystack.now at result }
{
    match utf8::decode_last(&haystack[..at]) {
        None => Side::Absent,
        Some(Ok(c)) => Side::Character(c),
        Some(Err(_)) if is_inside(haystack, at) => Side::Inside,
        Some(Err(_)) => Side::NoCharacter,
    }
}

/// What is after a position.
pub fn after(haystack: &[u8], at: usize) -> Side
    requires { at ≤ length haystack.now }
    ensures { IsSideAfter haystack.now at result }
{
    match utf8::decode(&haystack[at..]) {
        None => Side::Absent,
        Some(Ok(c)) => Side::Character(c),
        Some(Err(_)) if is_inside(haystack, at) => Side::Inside,
        Some(Err(_)) => Side::NoCharacter,
    }
}

// Whether the position is inside the encoding of a character, which has at most four bytes.
fn is_inside(haystack: &[u8], at: usize) -> bool
    requires { at ≤ length haystack.now }
    ensures { IsTrue result ↔ IsInside haystack.now at }
{
    encoding_is_that_of_std();
    for start in at.saturating_sub(3)..at {
        if reaches_past(haystack, start, at) {
            return true;
        }
    }
    false
}

// Whether a character begins at one position and ends after the other.
fn reaches_past(haystack: &[u8], start: usize, at: usize) -> bool
    requires order { start < at }
    requires within { at ≤ length haystack.now }
    ensures { IsTrue result ↔ ReachesPast haystack.now start at }
{
    encoding_is_that_of_std();
    match utf8::decode(&haystack[start..]) {
        Some(Ok(c)) => at - start < c.len_utf8(),
        Some(Err(_)) => false,
        None => false,
    }
}

/// Whether each of the assertions holds at a position, in their order.
///
/// # Errors
///
/// [`AllocError`] if memory runs out.
pub fn marks_at(
    alloc: Global,
    matcher: &LookMatcher<WordPredicate>,
    looks: &[Look],
    haystack: &[u8],
    at: usize,
) -> Result<Vec<bool>, AllocError>
    requires { at ≤ length haystack.now }
    ensures { IfOk result (λ marks. AreMarks (λ look. Holds look matcher.now.0 (chosen_word_chars matcher.now.1) haystack.now at) looks.now marks.items) }
{
    let mut marks = Vec::new(alloc);
    for look in looks {
        marks.push(matcher.matches(*look, haystack, at))?;
    }
    Ok(marks)
}
