//! The iterators over the classes of a map, the elements of a class, and the representatives of a range.
ghost use Rattle.std.specs.Prelude.{◌≡◌};
ghost use Rattle.std.specs.Iterator.{YieldsFirst, item_count};
ghost use Rattle.rsc_alphabet.specs.ByteSets.{members};
ghost use Rattle.rsc_alphabet.specs.IteratorLayout.{elements_left, representatives_left};

use crate::ascending::Ascending;
use crate::{ByteClasses, ByteSet, Unit};
use std::marker::{Model, PhantomData};

/// The iterator over the classes as units, made by [`crate::ByteClasses::iter`].
/// A contract sees it as the list of what is left.
#[derive(Debug, Drop)]
pub struct ByteClassIter<'a> {
    pub(super) classes: &'a ByteClasses,
    pub(super) next_class: usize,
}

impl<'a> Model for ByteClassIter<'a> {
    ghost use Rattle.std.specs.Prelude.{List};
    ghost use Rattle.rsc_alphabet.specs.Symbols.{Symbol};
    ghost use Rattle.rsc_alphabet.specs.IteratorLayout.{symbols_left};

    ghost Value = { List Symbol };

    ghost view = { λ it. symbols_left it.classes.now it.next_class };
}

impl<'a> Iterator for ByteClassIter<'a> {
    type Item = Unit;

    ghost next_gives = { YieldsFirst (λ rest. rest) };

    ghost remaining = { item_count (λ rest. rest) };

    fn next(&mut self) -> Option<Unit> {
        let end = self.classes.alphabet_len() - 1;
        if self.next_class < end {
            let class = self.next_class as u8;
            self.next_class += 1;
            return Some(Unit::u8(class));
        }
        if self.next_class == end {
            self.next_class += 1;
            return Some(Unit::eoi(end));
        }
        None
    }
}

/// The iterator over the elements of a class, made by [`crate::ByteClasses::elements`].
/// A contract sees it as the list of what is left.
#[derive(Debug, Drop)]
pub struct ByteClassElements<'a> {
    left: Ascending,
    with_end: bool,
    classes: PhantomData<&'a ByteClasses>,
}

impl<'a> Model for ByteClassElements<'a> {
    ghost use Rattle.std.specs.Prelude.{List};
    ghost use Rattle.rsc_alphabet.specs.Symbols.{Symbol};
    ghost use Rattle.rsc_alphabet.specs.IteratorLayout.{elements_left};

    ghost Value = { List Symbol };

    ghost view = { λ it. elements_left it.left it.with_end };
}

impl<'a> ByteClassElements<'a> {
    #[inline]
    pub(super) fn new(bytes: &ByteSet, with_end: bool) -> Self
        ensures { result ≡ elements_left (members bytes.now) with_end }
    {
        ByteClassElements {
            left: Ascending::new(*bytes),
            with_end,
            classes: PhantomData,
        }
    }
}

impl<'a> Iterator for ByteClassElements<'a> {
    type Item = Unit;

    ghost next_gives = { YieldsFirst (λ rest. rest) };

    ghost remaining = { item_count (λ rest. rest) };

    #[inline]
    fn next(&mut self) -> Option<Unit> {
        if let Some(byte) = self.left.next() {
            return Some(Unit::u8(byte));
        }
        if self.with_end {
            self.with_end = false;
            return Some(Unit::eoi(256));
        }
        None
    }
}

/// The iterator over a range's representatives, made by [`crate::ByteClasses::representatives`].
/// A contract sees it as the list of what is left.
#[derive(Debug, Drop)]
pub struct ByteClassRepresentatives<'a> {
    classes: &'a ByteClasses,
    left: Ascending,
    with_end: bool,
}

impl<'a> Model for ByteClassRepresentatives<'a> {
    ghost use Rattle.std.specs.Prelude.{List};
    ghost use Rattle.rsc_alphabet.specs.Symbols.{Symbol};
    ghost use Rattle.rsc_alphabet.specs.IteratorLayout.{representatives_left};

    ghost Value = { List Symbol };

    ghost view = { λ it. representatives_left it.classes.now it.left it.with_end };
}

impl<'a> ByteClassRepresentatives<'a> {
    #[inline]
    pub(super) fn new(classes: &'a ByteClasses, bytes: &ByteSet, with_end: bool) -> Self
        ensures { result ≡ representatives_left classes.now (members bytes.now) with_end }
    {
        ByteClassRepresentatives {
            classes,
            left: Ascending::new(*bytes),
            with_end,
        }
    }
}

impl<'a> Iterator for ByteClassRepresentatives<'a> {
    type Item = Unit;

    ghost next_gives = { YieldsFirst (λ rest. rest) };

    ghost remaining = { item_count (λ rest. rest) };

    #[inline]
    fn next(&mut self) -> Option<Unit> {
        if let Some(byte) = self.left.next() {
            return Some(Unit::u8(byte));
        }
        if self.with_end {
            self.with_end = false;
            return Some(self.classes.eoi());
        }
        None
    }
}
