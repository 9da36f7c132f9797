//! The sides of a position: the neighbouring bytes, and what is there as a character.
ghost use Rattle.std.specs.Prelude.{◌≡◌, ◌≤◌, length};
ghost use Rattle.rsc_look.specs.Holds.{byte_before, byte_after, is_byte, is_word_neighbor};

use rsc_primitives::utf8;

/// What is on one side of a position.
#[derive(Clone, Copy)]
pub(crate) enum Side {
    /// No byte.
    Absent,
    /// Bytes, but no encoded character ends or begins here.
    Invalid,
    /// A word character.
    WordCharacter,
    /// Another character.
    Other,
}

impl Side {
    ghost use Rattle.rsc_look.specs.Holds.{is_invalid, is_word_side, is_absent_or_other};
    ghost use Rattle.rsc_look.specs.HoldingLayout.{entry_of};

    #[inline(always)]
    pub(crate) fn is_word_character(self) -> bool
        ensures { result ≡ is_word_side self }
    {
        matches!(self, Side::WordCharacter)
    }

    #[inline(always)]
    pub(crate) fn is_invalid(self) -> bool
        ensures { result ≡ is_invalid self }
    {
        matches!(self, Side::Invalid)
    }

    // Its entry in a table of sides.
    #[inline(always)]
    pub(crate) fn index(self) -> usize
        ensures { result ≡ entry_of self }
    {
        match self {
            Side::Absent => 0,
            Side::Invalid => 1,
            Side::WordCharacter => 2,
            Side::Other => 3,
        }
    }

    #[inline(always)]
    pub(crate) fn is_absent_or_other(self) -> bool
        ensures { result ≡ is_absent_or_other self }
    {
        matches!(self, Side::Absent | Side::Other)
    }
}

/// The byte before a position.
#[inline(always)]
pub(crate) fn byte_before(haystack: &[u8], at: usize) -> Option<u8>
    requires { at ≤ length haystack.now }
    ensures { result ≡ byte_before haystack.now at }
{
    if at == 0 {
        None
    } else {
        Some(haystack[at - 1])
    }
}

/// The byte after a position.
#[inline(always)]
pub(crate) fn byte_after(haystack: &[u8], at: usize) -> Option<u8>
    ensures { result ≡ byte_after haystack.now at }
{
    haystack.get(at).copied()
}

/// Whether a neighbour is there, and is this byte.
#[inline(always)]
pub(crate) fn is_byte(byte: u8, neighbor: Option<u8>) -> bool
    ensures { result ≡ is_byte byte neighbor }
{
    match neighbor {
        Some(b) => b == byte,
        None => false,
    }
}

/// Whether a neighbour is there, and is a word byte.
#[inline(always)]
pub(crate) fn is_word_neighbor(neighbor: Option<u8>) -> bool
    ensures { result ≡ is_word_neighbor neighbor }
{
    match neighbor {
        Some(b) => utf8::is_word_byte(b),
        None => false,
    }
}
