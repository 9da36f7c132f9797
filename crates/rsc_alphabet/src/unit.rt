//! The symbols that an automaton reads.
ghost use Rattle.std.specs.Prelude.{◌≡◌, ◌≤◌, ◌↔◌, IsTrue, IsSome, Some};
ghost use Rattle.rsc_alphabet.specs.Symbols.{byte as a_byte, end_of_input, byte_of, end_number_of, number_of, is_word_symbol};

use rsc_primitives::escape::DebugByte;
use rsc_primitives::utf8;
use std::cmp::Ordering;
use std::fmt;
use std::marker::Model;

/// One symbol of an automaton's input: a byte, or the end of the input.
///
/// The end of the input is a symbol of its own, so that an assertion that looks one byte ahead can be decided there.
/// It carries a number, its sentinel: one more than the class of the byte 255, if [`crate::ByteClasses::eoi`] made it.
/// All bytes come before all ends of input; within each the number decides.
///
/// # Examples
///
/// ```
/// assert!(rt; Unit::u8(b'a').as_u8() == Some(b'a') && Unit::eoi(3).as_u8() == None);
/// assert!(rt; Unit::eoi(3).as_usize() == 3 && Unit::u8(255) < Unit::eoi(0));
/// ```
#[derive(Clone, Copy)]
pub struct Unit(UnitKind);

#[derive(Clone, Copy, PartialEq, Eq, PartialOrd, Ord)]
enum UnitKind {
    U8(u8),
    EOI(u16),
}

impl Model for Unit {
    ghost use Rattle.rsc_alphabet.specs.Symbols.{Symbol};
    ghost use Rattle.rsc_alphabet.specs.SymbolLayout.{symbol_of, kind_of, kind_of-symbol_of};

    ghost Value = { Symbol };

    ghost view = { λ u. symbol_of u.0 };

    ghost inverse = { λ s. record { 0 = kind_of s } };

    ghost inverse_ok = { λ u h i. record { 0 = kind_of-symbol_of u.0 i } };
}

impl PartialEq for Unit {
    ghost use Rattle.std.specs.Ordering.{eq_by_cmp};
    ghost use Rattle.rsc_alphabet.specs.Symbols.{symbol_cmp};
    ghost use Rattle.rsc_alphabet.specs.SymbolsLaws.{symbol_partial_equivalence};

    ghost eq = { eq_by_cmp symbol_cmp };

    ghost laws = { symbol_partial_equivalence };

    #[inline]
    fn eq(&self, other: &Self) -> bool {
        self.0 == other.0
    }
}

impl Eq for Unit {
    ghost use Rattle.rsc_alphabet.specs.SymbolsLaws.{symbol_equivalence};

    ghost laws = { symbol_equivalence };
}

impl PartialOrd for Unit {
    ghost use Rattle.std.specs.Ordering.{as_partial_cmp};
    ghost use Rattle.rsc_alphabet.specs.Symbols.{symbol_cmp};
    ghost use Rattle.rsc_alphabet.specs.SymbolsLaws.{symbol_partial_order};

    ghost partial_cmp = { as_partial_cmp symbol_cmp };

    ghost laws = { symbol_partial_order };

    #[inline]
    fn partial_cmp(&self, other: &Self) -> Option<Ordering> {
        Some(self.cmp(other))
    }
}

impl Ord for Unit {
    ghost use Rattle.std.specs.Prelude.{refl};
    ghost use Rattle.rsc_alphabet.specs.Symbols.{symbol_cmp};
    ghost use Rattle.rsc_alphabet.specs.SymbolsLaws.{symbol_total};

    ghost cmp = { symbol_cmp };

    ghost total = { symbol_total };

    ghost matches_partial_cmp = { λ x y. refl };

    ghost matches_eq = { λ x y. refl };

    #[inline]
    fn cmp(&self, other: &Self) -> Ordering {
        self.0.cmp(&other.0)
    }
}

impl Unit {
    /// The unit of a byte.
    #[inline]
    pub fn u8(byte: u8) -> Unit
        ensures { result ≡ a_byte byte }
    {
        Unit(UnitKind::U8(byte))
    }

    /// The end of the input, with the number of byte classes, at most 256, as its sentinel.
    #[inline]
    pub fn eoi(num_byte_equiv_classes: usize) -> Unit
        requires { num_byte_equiv_classes ≤ 256 }
        ensures { result ≡ end_of_input num_byte_equiv_classes }
    {
        Unit(UnitKind::EOI(num_byte_equiv_classes as u16))
    }

    /// The byte, or `None` for an end of the input.
    #[inline]
    pub fn as_u8(self) -> Option<u8>
        ensures { result ≡ byte_of self }
    {
        match self.0 {
            UnitKind::U8(byte) => Some(byte),
            UnitKind::EOI(_) => None,
        }
    }

    /// The sentinel of an end of the input, or `None` for a byte.
    #[inline]
    pub fn as_eoi(self) -> Option<u16>
        ensures { result ≡ end_number_of self }
    {
        match self.0 {
            UnitKind::U8(_) => None,
            UnitKind::EOI(sentinel) => Some(sentinel),
        }
    }

    /// The byte or the sentinel, as an index.
    #[inline]
    pub fn as_usize(self) -> usize
        ensures { result ≡ number_of self }
    {
        match self.0 {
            UnitKind::U8(byte) => usize::from(byte),
            UnitKind::EOI(sentinel) => usize::from(sentinel),
        }
    }

    /// Whether this is the unit of that byte. An end of the input is the unit of none.
    #[inline]
    pub fn is_byte(self, byte: u8) -> bool
        ensures { IsTrue result ↔ (byte_of self ≡ Some byte) }
    {
        self.as_u8() == Some(byte)
    }

    /// Whether this is an end of the input.
    #[inline]
    pub fn is_eoi(self) -> bool
        ensures { IsTrue result ↔ IsSome (end_number_of self) }
    {
        self.as_eoi().is_some()
    }

    /// Whether this is a word byte: a digit, a letter or `_` of ASCII. An end of the input is not.
    #[inline]
    pub fn is_word_byte(self) -> bool
        ensures { result ≡ is_word_symbol self }
    {
        match self.0 {
            UnitKind::U8(byte) => utf8::is_word_byte(byte),
            UnitKind::EOI(_) => false,
        }
    }
}

impl fmt::Debug for Unit {
    ghost use Rattle.std.specs.Prelude.{Some};
    ghost use Rattle.rsc_alphabet.specs.Symbols.{symbol_text};

    ghost debug_output = { λ u. Some (symbol_text u) };

    fn fmt<W: fmt::Write>(&self, f: &mut fmt::Formatter<W>) -> fmt::Result {
        match self.0 {
            UnitKind::U8(byte) => fmt::Debug::fmt(&DebugByte(byte), f),
            UnitKind::EOI(_) => f.write_str("EOI"),
        }
    }
}
