//! Maps from a byte to its class.
ghost use Rattle.std.specs.Prelude.{◌≡◌, ◌==◌, ◌↔◌, ℕ, ◌+◌, ◌-◌, ◌^◌, ◌<◌, ◌≤◌, not, IsTrue, IsSome, All, slice_index, slice_set, length};
ghost use Rattle.std.specs.FinSet as sets;
ghost use Rattle.std.specs.Range.Bound.{end_index};
ghost use Rattle.rsc_alphabet.specs.Bytes.{bytes};
ghost use Rattle.rsc_alphabet.specs.Symbols.{byte_of, number_of};
ghost use Rattle.rsc_alphabet.specs.Iterators.{class_at, end_symbol, symbol_count, stride2_of, symbols, elements_of, representing, representatives_of};
ghost use Rattle.rsc_alphabet.specs.ByteSets.{members};
ghost use Rattle.rsc_primitives.specs.Bits.{has_bit};
ghost use Rattle.rsc_alphabet.specs.Partitions.{LastClassIsGreatest, class_of};

mod iter;

use crate::lanes::{equal_to, unlike_before};
use crate::masks::block_shifted_left;
use crate::{ByteSet, Unit};
pub use iter::{ByteClassElements, ByteClassIter, ByteClassRepresentatives};
use rsc_primitives::escape::DebugByte;
use std::fmt;
use std::marker::Model;
use std::ops::Bound;

/// A map from byte to class, so that an automaton needs one transition for each class instead of one for each byte.
///
/// A contract sees it as the list of the classes of the bytes 0 to 255. Any such map can be made by [`ByteClasses::set`];
/// the classes that [`crate::ByteClassSet::byte_classes`] makes rise from 0 by at most one a byte. The calls that number the
/// classes, as [`ByteClasses::alphabet_len`], go by the class of the byte 255 alone.
#[derive(Clone, Copy)]
pub struct ByteClasses {
    classes: [u8; 256],
}

impl Model for ByteClasses {
    ghost use Rattle.std.specs.Prelude.{◌≡◌, ℕ, List, length};

    ghost Value = { List ℕ };

    ghost view = { λ m. m.classes };

    ghost invariant = { λ m. length m.classes ≡ 256 };

    ghost inverse = { λ classes. record { classes = classes } };
}

impl Default for ByteClasses {
    ghost use Rattle.std.specs.Prelude.{◌≡◌};
    ghost use Rattle.rsc_alphabet.specs.Bytes.{bytes};

    ghost is_default = { λ classes. classes ≡ bytes };

    fn default() -> Self {
        Self::singletons()
    }
}

impl ByteClasses {
    /// The map that gives each byte the class 0.
    pub fn empty() -> ByteClasses
        ensures entries { length result ≡ 256 }
        ensures zero { (b : ℕ) → b < 256 → slice_index result b ≡ 0 }
        ensures bounded { LastClassIsGreatest result }
    {
        ByteClasses { classes: [0; 256] }
    }

    /// The map that gives each byte a class of its own, which is its number.
    pub fn singletons() -> ByteClasses
        ensures value { result ≡ bytes }
        ensures own { (b : ℕ) → b < 256 → slice_index result b ≡ b }
        ensures bounded { LastClassIsGreatest result }
    {
        let mut classes = ByteClasses::empty();
        for byte in 0..=255u8 {
            classes.set(byte, byte);
        }
        classes
    }

    /// Gives a byte a class, and leaves all others as they are.
    #[inline]
    pub fn set(&mut self, byte: u8, class: u8)
        ensures { self.new ≡ slice_set self.old byte class }
    {
        self.classes[usize::from(byte)] = class;
    }

    /// The class of a byte.
    #[inline]
    pub fn get(&self, byte: u8) -> u8
        ensures value { result ≡ slice_index self.now byte }
        ensures entries { length self.now ≡ 256 }
    {
        self.classes[usize::from(byte)]
    }

    /// The class of a unit as an index: the class of a byte, or the sentinel of an end of the input.
    #[inline]
    pub fn get_by_unit(&self, unit: Unit) -> usize
        ensures { result ≡ class_at self.now unit }
    {
        match unit.as_u8() {
            Some(byte) => usize::from(self.get(byte)),
            None => unit.as_usize(),
        }
    }

    /// How many symbols there are: the classes 0 to that of the byte 255, and one more, the end of the input.
    ///
    /// The one more is there since an automaton has a transition for the end of the input too, with which it decides what looks at
    /// the next byte, as `$` and `\b` do.
    ///
    /// # Examples
    ///
    /// ```
    /// let classes = classes_of_ranges(&[(b'a', b'z')]);
    /// assert!(rt; classes.get(255) == 2 && classes.alphabet_len() == 4);
    /// ```
    #[inline]
    pub fn alphabet_len(&self) -> usize
        ensures value { result ≡ symbol_count self.now }
        ensures most { result ≤ 257 }
        ensures entries { length self.now ≡ 256 }
    {
        usize::from(self.classes[255]) + 1 + 1
    }

    /// The end of the input: its number is one more than the class of the byte 255.
    ///
    /// # Examples
    ///
    /// ```
    /// let classes = classes_of_ranges(&[(b'a', b'z')]);
    /// assert!(rt; classes.get_by_unit(classes.eoi()) == 3);
    /// ```
    pub fn eoi(&self) -> Unit
        ensures value { result ≡ end_symbol self.now }
        ensures most { number_of result ≤ 256 }
    {
        Unit::eoi(self.alphabet_len() - 1)
    }

    /// The exponent of the least power of two that is at least [`ByteClasses::alphabet_len`], from 1 to 9: the rows of a
    /// transition table are as long as that power.
    ///
    /// With rows of that length the index of a state's row is its number shifted to the left, and a table needs no multiplication.
    ///
    /// # Examples
    ///
    /// ```
    /// let classes = classes_of_ranges(&[(b'a', b'z')]);
    /// assert!(rt; classes.alphabet_len() == 4 && classes.stride2() == 2);
    /// assert!(rt; ByteClasses::singletons().stride2() == 9);
    /// ```
    #[inline]
    pub fn stride2(&self) -> usize
        ensures value { result ≡ stride2_of self.now }
        ensures enough { symbol_count self.now ≤ 2 ^ result }
        ensures least { (k : ℕ) → symbol_count self.now ≤ 2 ^ k → result ≤ k }
        ensures most { result ≤ 9 }
    {
        (self.alphabet_len() - 1).ilog2() as usize + 1
    }

    /// Whether the byte 255 has the class 255, as it has if each byte has a class of its own. No other byte is looked at.
    #[inline]
    pub fn is_singleton(&self) -> bool
        ensures { IsTrue result ↔ (slice_index self.now 255 ≡ 255) }
    {
        self.get(255) == 255
    }

    /// The units of the classes 0 to that of the byte 255, and then the end of the input.
    #[tactic(auto, using(crate::proofs::IteratorsLemmas::symbols_left_all, crate::proofs::IteratorsLemmas::symbols_within, crate::proofs::IteratorsLemmas::length_symbols))]
    #[inline]
    pub fn iter(&self) -> ByteClassIter<'_>
        ensures value { result ≡ symbols self.now }
        ensures within { All (λ u. number_of u < symbol_count self.now) result }
        ensures most { length result ≤ 257 }
    {
        // For the prover: it bounds the class of the last byte.
        let _ = self.alphabet_len();
        ByteClassIter {
            classes: self,
            next_class: 0,
        }
    }

    /// The bytes of the class that a byte unit numbers, ascending. For any end of the input, only the end numbered 256.
    ///
    /// # Examples
    ///
    /// ```
    /// let classes = classes_of_ranges(&[(b'a', b'b')]);
    /// let mut letters = classes.elements(Unit::u8(1));
    /// assert!(rt; letters.next() == Some(Unit::u8(b'a')));
    /// assert!(rt; letters.next() == Some(Unit::u8(b'b')));
    /// assert!(rt; letters.next() == None);
    /// ```
    #[inline]
    pub fn elements(&self, class: Unit) -> ByteClassElements<'_>
        ensures value { result ≡ elements_of self.now class }
        ensures class { IsSome (byte_of class) → All (λ u. class_at self.now u ≡ number_of class) result }
        ensures most { length result ≤ 256 }
    {
        match class.as_u8() {
            Some(class) => ByteClassElements::new(&self.bytes_of(class), false),
            None => ByteClassElements::new(&ByteSet::empty(), true),
        }
    }

    /// The first byte of a range, each later one whose class differs from its predecessor's, and then, if the range
    /// has no end, the end of the input.
    ///
    /// To compute something for each class, such as where a state leads, compute it for the representatives alone.
    ///
    /// # Examples
    ///
    /// ```
    /// let classes = classes_of_ranges(&[(b'a', b'z')]);
    /// let mut units = classes.representatives(Bound::Included(b'b'), Bound::Unbounded);
    /// assert!(rt; units.next() == Some(Unit::u8(b'b')));
    /// assert!(rt; units.next() == Some(Unit::u8(b'z' + 1)));
    /// assert!(rt; units.next() == Some(classes.eoi()));
    /// assert!(rt; units.next() == None);
    /// ```
    #[tactic(auto, using(crate::proofs::IteratorsLemmas::representatives_within, crate::proofs::IteratorsLemmas::length_representatives))]
    pub fn representatives(&self, start: Bound<u8>, end: Bound<u8>) -> ByteClassRepresentatives<'_>
        ensures value { result ≡ representatives_of self.now start end }
        ensures within { ((b : ℕ) → b < 256 → slice_index self.now b ≤ slice_index self.now 255) →
            All (λ u. class_at self.now u < symbol_count self.now) result }
        ensures most { length result ≤ 257 }
    {
        self.representatives_between(start, end)
    }

    #[inline]
    fn representatives_between(
        &self,
        start: Bound<u8>,
        end: Bound<u8>,
    ) -> ByteClassRepresentatives<'_>
        ensures value { result ≡ representatives_of self.now start end }
        ensures fits { end_index end 256 ≤ 256 }
    {
        let first = match start {
            Bound::Included(b) => usize::from(b),
            Bound::Excluded(b) => usize::from(b) + 1,
            Bound::Unbounded => 0,
        };
        let (end, with_end) = match end {
            Bound::Included(b) => (usize::from(b) + 1, false),
            Bound::Excluded(b) => (usize::from(b), false),
            Bound::Unbounded => (256, true),
        };
        let bytes = self.representative_bytes(first, end);
        ByteClassRepresentatives::new(self, &bytes, with_end)
    }

    // The representatives of the bytes from `first` up to, and without, `end`.
    #[inline]
    fn representative_bytes(&self, first: usize, end: usize) -> ByteSet
        requires { end ≤ 256 }
        ensures { members result ≡ representing self.now first end }
    {
        if first >= end {
            return ByteSet::empty();
        }
        let start = first as u8;
        let mut bytes = self.class_starts().between(start, (end - 1) as u8);
        bytes.add(start);
        bytes
    }

    // The bytes whose class isn't their predecessor's.
    #[inline]
    fn class_starts(&self) -> ByteSet
        ensures { (b : ℕ) → b < 256 → sets.contains result b ≡ not (slice_index self.now b == slice_index self.now (b - 1)) }
    {
        let classes = &self.classes;
        ByteSet::from_blocks(
            block_shifted_left(unlike_before(classes, 1)),
            unlike_before(classes, 64),
            unlike_before(classes, 128),
            unlike_before(classes, 192),
        )
    }

    // The bytes of a class.
    #[inline]
    fn bytes_of(&self, class: u8) -> ByteSet
        ensures { (b : ℕ) → b < 256 → sets.contains result b ≡ (slice_index self.now b == class) }
    {
        let classes = &self.classes;
        ByteSet::from_blocks(
            equal_to(classes, 0, class),
            equal_to(classes, 64, class),
            equal_to(classes, 128, class),
            equal_to(classes, 192, class),
        )
    }
}

// The number of a class, and the ranges of its bytes one after the other.
fn write_class<W: fmt::Write>(
    classes: &ByteClasses,
    class: u8,
    f: &mut fmt::Formatter<W>,
) -> fmt::Result {
    write!(f, "{class} => [")?;
    let bytes = classes.bytes_of(class);
    for (start, end) in bytes.iter_ranges() {
        fmt::Debug::fmt(&DebugByte(start), f)?;
        if start < end {
            f.write_str("-")?;
            fmt::Debug::fmt(&DebugByte(end), f)?;
        }
    }
    f.write_str("], ")
}

impl fmt::Debug for ByteClasses {
    fn fmt<W: fmt::Write>(&self, f: &mut fmt::Formatter<W>) -> fmt::Result {
        if self.is_singleton() {
            return f.write_str("ByteClasses({singletons})");
        }
        f.write_str("ByteClasses(")?;
        for class in 0..=self.get(255) {
            write_class(self, class, f)?;
        }
        let end = self.alphabet_len() - 1;
        write!(f, "{end} => [EOI])")
    }
}
