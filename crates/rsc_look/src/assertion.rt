//! The eighteen assertions.
ghost use Rattle.std.specs.Prelude.{◌≡◌, ◌↔◌, Some, false};

/// An assertion about a position of a haystack: what is before it, and what is after it.
///
/// The assertions with `Ascii` in their name ask whether a neighbouring byte is one of `0-9`, `A-Z`, `_` and `a-z`, a word
/// byte. Those with `Unicode` ask whether a character that ends or begins at the position is a word character of the
/// matcher's [`crate::WordClass`].
///
/// # Examples
///
/// ```
/// assert!(rt; Look::StartLF.reversed() == Look::EndLF);
/// assert!(rt; Look::from_repr(Look::End.as_repr()) == Some(Look::End));
/// assert!(rt; Look::WordUnicode.as_char() == '𝛃');
/// ```
#[derive(Clone, Copy, Debug, PartialEq, Eq)]
pub enum Look {
    /// The start of the haystack.
    Start = 1 << 0,
    /// The end of the haystack.
    End = 1 << 1,
    /// The start of a line that ends at the line terminator: the start of the haystack, or after a line terminator.
    StartLF = 1 << 2,
    /// The end of a line that ends at the line terminator: the end of the haystack, or before a line terminator.
    EndLF = 1 << 3,
    /// The start of a line that ends at `\r`, `\n` or `\r\n`, and never between `\r` and `\n`.
    StartCRLF = 1 << 4,
    /// The end of a line that ends at `\r`, `\n` or `\r\n`, and never between `\r` and `\n`.
    EndCRLF = 1 << 5,
    /// A word boundary: a word byte on exactly one side.
    WordAscii = 1 << 6,
    /// No word boundary: a word byte on both sides, or on neither.
    WordAsciiNegate = 1 << 7,
    /// A word boundary: a word character on exactly one side.
    WordUnicode = 1 << 8,
    /// No word boundary, and no side whose bytes are no character: a word character on both sides, or on neither.
    WordUnicodeNegate = 1 << 9,
    /// The start of a word: a word byte after the position and none before it.
    WordStartAscii = 1 << 10,
    /// The end of a word: a word byte before the position and none after it.
    WordEndAscii = 1 << 11,
    /// The start of a word: a word character after the position and none before it.
    WordStartUnicode = 1 << 12,
    /// The end of a word: a word character before the position and none after it.
    WordEndUnicode = 1 << 13,
    /// The half of a word's start: no word byte before the position.
    WordStartHalfAscii = 1 << 14,
    /// The half of a word's end: no word byte after the position.
    WordEndHalfAscii = 1 << 15,
    /// The half of a word's start: before the position the haystack's start, or a character that is no word character.
    WordStartHalfUnicode = 1 << 16,
    /// The half of a word's end: after the position the haystack's end, or a character that is no word character.
    WordEndHalfUnicode = 1 << 17,
}

impl Look {
    ghost use Rattle.rsc_look.specs.Looks.{repr_of, char_of, reversed, ascii_counterpart, is_unicode};

    /// The assertion's counterpart at the other end: `End` for `Start`, and so on.
    #[inline]
    pub fn reversed(self) -> Look
        ensures value { result ≡ reversed self }
        ensures involution { reversed result ≡ self }
    {
        match self {
            Look::Start => Look::End,
            Look::End => Look::Start,
            Look::StartLF => Look::EndLF,
            Look::EndLF => Look::StartLF,
            Look::StartCRLF => Look::EndCRLF,
            Look::EndCRLF => Look::StartCRLF,
            Look::WordAscii => Look::WordAscii,
            Look::WordAsciiNegate => Look::WordAsciiNegate,
            Look::WordUnicode => Look::WordUnicode,
            Look::WordUnicodeNegate => Look::WordUnicodeNegate,
            Look::WordStartAscii => Look::WordEndAscii,
            Look::WordEndAscii => Look::WordStartAscii,
            Look::WordStartUnicode => Look::WordEndUnicode,
            Look::WordEndUnicode => Look::WordStartUnicode,
            Look::WordStartHalfAscii => Look::WordEndHalfAscii,
            Look::WordEndHalfAscii => Look::WordStartHalfAscii,
            Look::WordStartHalfUnicode => Look::WordEndHalfUnicode,
            Look::WordEndHalfUnicode => Look::WordStartHalfUnicode,
        }
    }

    /// The assertion that asks of bytes what a Unicode assertion asks of characters; any other assertion itself. The original lacks it.
    ///
    /// Between neighbours that are absent or below 128 the two hold at the same positions, by [`crate::laws::ascii_neighbours_suffice`]: a table
    /// over bytes answers for the Unicode assertion there.
    ///
    /// # Examples
    ///
    /// ```
    /// assert!(rt; Look::WordUnicode.ascii_counterpart() == Look::WordAscii);
    /// assert!(rt; Look::StartLF.ascii_counterpart() == Look::StartLF);
    /// ```
    #[inline]
    pub fn ascii_counterpart(self) -> Look
        ensures value { result ≡ ascii_counterpart self }
        ensures ascii { is_unicode result ≡ false }
    {
        match self {
            Look::WordUnicode => Look::WordAscii,
            Look::WordUnicodeNegate => Look::WordAsciiNegate,
            Look::WordStartUnicode => Look::WordStartAscii,
            Look::WordEndUnicode => Look::WordEndAscii,
            Look::WordStartHalfUnicode => Look::WordStartHalfAscii,
            Look::WordEndHalfUnicode => Look::WordEndHalfAscii,
            look => look,
        }
    }

    /// The number that stands for the assertion: a power of two, one of the lowest eighteen.
    #[inline]
    pub fn as_repr(self) -> u32
        ensures { result ≡ repr_of self }
    {
        match self {
            Look::Start => 1 << 0,
            Look::End => 1 << 1,
            Look::StartLF => 1 << 2,
            Look::EndLF => 1 << 3,
            Look::StartCRLF => 1 << 4,
            Look::EndCRLF => 1 << 5,
            Look::WordAscii => 1 << 6,
            Look::WordAsciiNegate => 1 << 7,
            Look::WordUnicode => 1 << 8,
            Look::WordUnicodeNegate => 1 << 9,
            Look::WordStartAscii => 1 << 10,
            Look::WordEndAscii => 1 << 11,
            Look::WordStartUnicode => 1 << 12,
            Look::WordEndUnicode => 1 << 13,
            Look::WordStartHalfAscii => 1 << 14,
            Look::WordEndHalfAscii => 1 << 15,
            Look::WordStartHalfUnicode => 1 << 16,
            Look::WordEndHalfUnicode => 1 << 17,
        }
    }

    /// The assertion that a number stands for, or `None` if it stands for none.
    #[inline]
    pub fn from_repr(repr: u32) -> Option<Look>
        ensures { (look : Look) → (result ≡ Some look) ↔ (repr_of look ≡ repr) }
    {
        match repr {
            1 => Some(Look::Start),
            2 => Some(Look::End),
            4 => Some(Look::StartLF),
            8 => Some(Look::EndLF),
            16 => Some(Look::StartCRLF),
            32 => Some(Look::EndCRLF),
            64 => Some(Look::WordAscii),
            128 => Some(Look::WordAsciiNegate),
            256 => Some(Look::WordUnicode),
            512 => Some(Look::WordUnicodeNegate),
            1024 => Some(Look::WordStartAscii),
            2048 => Some(Look::WordEndAscii),
            4096 => Some(Look::WordStartUnicode),
            8192 => Some(Look::WordEndUnicode),
            16384 => Some(Look::WordStartHalfAscii),
            32768 => Some(Look::WordEndHalfAscii),
            65536 => Some(Look::WordStartHalfUnicode),
            131072 => Some(Look::WordEndHalfUnicode),
            _ => None,
        }
    }

    /// The character that shows the assertion; no two share one.
    pub fn as_char(self) -> char
        ensures value { result ≡ char_of self }
        ensures distinct { (other : Look) → char_of other ≡ result → other ≡ self }
    {
        match self {
            Look::Start => 'A',
            Look::End => 'z',
            Look::StartLF => '^',
            Look::EndLF => '$',
            Look::StartCRLF => 'r',
            Look::EndCRLF => 'R',
            Look::WordAscii => 'b',
            Look::WordAsciiNegate => 'B',
            Look::WordUnicode => '𝛃',
            Look::WordUnicodeNegate => '𝚩',
            Look::WordStartAscii => '<',
            Look::WordEndAscii => '>',
            Look::WordStartUnicode => '〈',
            Look::WordEndUnicode => '〉',
            Look::WordStartHalfAscii => '◁',
            Look::WordEndHalfAscii => '▷',
            Look::WordStartHalfUnicode => '◀',
            Look::WordEndHalfUnicode => '▶',
        }
    }
}
