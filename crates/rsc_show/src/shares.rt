//! What each listed assertion and range brings to the classes of all of them.
ghost use Rattle.std.specs.Prelude.{◌≡◌, ◌<◌, ◌∷◌, ◌++◌, [], ℕ, Bool, IfOk, map};
ghost use Rattle.rsc_alphabet.specs.Partitions.{class_map, class_of};
ghost use Rattle.rsc_show.specs.Chosen.{chosen_word_chars};
ghost use Rattle.rsc_show.specs.Ranges.{IsCoarsestParting};
ghost use Rattle.rsc_show.specs.Shares.{exceeds, differ_at, look_item, range_item};

use crate::alphabet::classes_of;
use crate::choices::WordPredicate;
use rsc_alphabet::ByteClasses;
use rsc_look::{Look, LookMatcher};
use std::alloc::{AllocError, Global};

/// A listed assertion, or a listed range.
#[derive(Clone, Copy, Drop)]
pub enum Item {
    /// An assertion.
    Look(Look),
    /// The first and the last byte of a range.
    Range(u8, u8),
}

/// What an item brings: the classes for it alone, and those for all others.
#[derive(Drop)]
pub struct Share {
    /// The assertion or the range.
    pub item: Item,
    /// The classes for the item alone.
    pub own: ByteClasses,
    /// The classes for all listed items but this one.
    pub others: ByteClasses,
}

/// The share of each assertion, and then that of each range.
pub fn shares_of(
    alloc: Global,
    matcher: &LookMatcher<WordPredicate>,
    looks: &[Look],
    ranges: &[(u8, u8)],
) -> Result<Vec<Share>, AllocError>
    ensures { IfOk result (λ shares. map (λ s. s.item) shares.items ≡ map look_item looks.now ++ map range_item ranges.now) }
{
    let mut shares = Vec::new(alloc);
    for (index, look) in looks.iter().enumerate() {
        let after = &looks[index + 1..];
        shares.push(share_of_look(alloc, matcher, &looks[..index], *look, after, ranges)?)?;
    }
    for (index, range) in ranges.iter().enumerate() {
        let after = &ranges[index + 1..];
        shares.push(share_of_range(alloc, matcher, looks, &ranges[..index], *range, after)?)?;
    }
    Ok(shares)
}

// The share of an assertion between those before and after it in the list.
fn share_of_look(
    alloc: Global,
    matcher: &LookMatcher<WordPredicate>,
    before: &[Look],
    look: Look,
    after: &[Look],
    ranges: &[(u8, u8)],
) -> Result<Share, AllocError>
    ensures item { IfOk result (λ share. share.item ≡ look_item look) }
    ensures own { IfOk result (λ share. IsCoarsestParting share.own [] (look ∷ []) matcher.now.0 (chosen_word_chars matcher.now.1)) }
    ensures others { IfOk result (λ share.
        IsCoarsestParting share.others ranges.now (before.now ++ after.now) matcher.now.0 (chosen_word_chars matcher.now.1)) }
{
    let mut rest = Vec::from_slice(alloc, before)?;
    rest.extend_from_slice(after)?;
    Ok(Share {
        item: Item::Look(look),
        own: classes_of(matcher, &[look], &[]),
        others: classes_of(matcher, rest.as_slice(), ranges),
    })
}

// The share of a range between those before and after it in the list.
fn share_of_range(
    alloc: Global,
    matcher: &LookMatcher<WordPredicate>,
    looks: &[Look],
    before: &[(u8, u8)],
    range: (u8, u8),
    after: &[(u8, u8)],
) -> Result<Share, AllocError>
    ensures item { IfOk result (λ share. share.item ≡ range_item range) }
    ensures own { IfOk result (λ share. IsCoarsestParting share.own (range ∷ []) [] matcher.now.0 (chosen_word_chars matcher.now.1)) }
    ensures others { IfOk result (λ share.
        IsCoarsestParting share.others (before.now ++ after.now) looks.now matcher.now.0 (chosen_word_chars matcher.now.1)) }
{
    let mut rest = Vec::from_slice(alloc, before)?;
    rest.extend_from_slice(after)?;
    let (start, end) = range;
    Ok(Share {
        item: Item::Range(start, end),
        own: classes_of(matcher, &[], &[range]),
        others: classes_of(matcher, looks, rest.as_slice()),
    })
}

/// How many boundaries the classes of a partition have.
pub fn boundaries_of_look(classes: &ByteClasses) -> usize
    ensures { (p : ℕ → Bool) → classes.now ≡ class_map p → result ≡ class_of p 255 }
{
    usize::from(classes.get(255))
}

/// How many boundaries of a map others don't have.
pub fn boundaries_beyond(classes: &ByteClasses, others: &ByteClasses) -> usize
    ensures { result ≡ class_of (exceeds classes.now others.now) 255 }
{
    let mut count = 0usize;
    for byte in 0..255u8 {
        count += usize::from(is_beyond(classes, others, byte));
    }
    count
}

/// Whether a byte and the next one are in different classes, and in one class of another map.
pub fn is_beyond(classes: &ByteClasses, others: &ByteClasses, byte: u8) -> bool
    requires { byte < 255 }
    ensures { result ≡ exceeds classes.now others.now byte }
{
    has_boundary_after(classes, byte) && !has_boundary_after(others, byte)
}

/// Whether there is a boundary after a byte, so that the next one is in another class.
pub fn has_boundary_after(classes: &ByteClasses, byte: u8) -> bool
    requires { byte < 255 }
    ensures { result ≡ differ_at classes.now byte }
{
    classes.get(byte) != classes.get(byte + 1)
}
