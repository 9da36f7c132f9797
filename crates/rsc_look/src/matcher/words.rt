//! The assertions about words: those of ASCII look at the neighbouring bytes, those of Unicode at the characters beside the position.
//!
//! A side of a position may be no character at all, since a haystack is any list of bytes. Beside it the Unicode `\B` and the half
//! assertions fail, so that a match never splits a character; the other three take it as no word character.
ghost use Rattle.std.specs.Prelude.{◌≤◌, ◌↔◌, IsTrue, IsOkAnd, length};
ghost use Rattle.rsc_look.specs.declared.assertion.Look.{Look};
ghost use Rattle.rsc_look.specs.Holds.{HoldsFor, IsBefore, IsAfter};
ghost use Rattle.rsc_look.specs.SideLayout.{IsSideOf};

use crate::side::{Side, byte_after, byte_before, is_word_neighbor};
use crate::{LookMatcher, UnicodeWordBoundaryError, WordClass};
use rsc_primitives::utf8;

impl<W: WordClass> LookMatcher<W> {
    // What is before a position.
    #[inline(always)]
    pub(crate) fn side_before(&self, haystack: &[u8], at: usize) -> Side
        requires { at ≤ length haystack.now }
        ensures { IsBefore (W.word_chars self.now.1) haystack.now at result }
    {
        match utf8::decode_last(&haystack[..at]) {
            None => Side::Absent,
            Some(Ok(c)) => self.side_of(c),
            Some(Err(_)) => Side::Invalid,
        }
    }

    // What is after a position.
    #[inline(always)]
    pub(crate) fn side_after(&self, haystack: &[u8], at: usize) -> Side
        requires { at ≤ length haystack.now }
        ensures { IsAfter (W.word_chars self.now.1) haystack.now at result }
    {
        match utf8::decode(&haystack[at..]) {
            None => Side::Absent,
            Some(Ok(c)) => self.side_of(c),
            Some(Err(_)) => Side::Invalid,
        }
    }

    // What a character on a side makes of it.
    #[inline(always)]
    pub(crate) fn side_of(&self, c: char) -> Side
        ensures { IsSideOf (W.word_chars self.now.1) c result }
    {
        if self.word_class.is_word(c) {
            Side::WordCharacter
        } else {
            Side::Other
        }
    }

    /// Whether exactly one neighbour is a word byte.
    #[inline(always)]
    pub fn is_word_ascii(&self, haystack: &[u8], at: usize) -> bool
        requires { at ≤ length haystack.now }
        ensures { IsTrue result ↔ HoldsFor W.word_chars Look.WordAscii self.now haystack.now at }
    {
        is_word_neighbor(byte_before(haystack, at)) != is_word_neighbor(byte_after(haystack, at))
    }

    /// Whether both neighbours are word bytes, or neither is.
    #[inline(always)]
    pub fn is_word_ascii_negate(&self, haystack: &[u8], at: usize) -> bool
        requires { at ≤ length haystack.now }
        ensures { IsTrue result ↔ HoldsFor W.word_chars Look.WordAsciiNegate self.now haystack.now at }
    {
        is_word_neighbor(byte_before(haystack, at)) == is_word_neighbor(byte_after(haystack, at))
    }

    /// Whether a word character is on exactly one side.
    ///
    /// Bytes that are no character count as no word character, so a word boundary may be beside them.
    ///
    /// # Errors
    ///
    /// None: the tables of word characters are always there.
    #[inline(never)]
    pub fn is_word_unicode(
        &self,
        haystack: &[u8],
        at: usize,
    ) -> Result<bool, UnicodeWordBoundaryError>
        requires { at ≤ length haystack.now }
        ensures { IsOkAnd result (λ r. IsTrue r ↔ HoldsFor W.word_chars Look.WordUnicode self.now haystack.now at) }
    {
        let before = self.side_before(haystack, at);
        let after = self.side_after(haystack, at);
        Ok(before.is_word_character() != after.is_word_character())
    }

    /// Whether neither side is invalid, and a word character is on both sides or on neither.
    ///
    /// It is no mere negation of [`LookMatcher::is_word_unicode`]: that would hold between two bytes of one character too, and a
    /// match of `\B` would split it.
    ///
    /// # Errors
    ///
    /// None: the tables of word characters are always there.
    ///
    /// # Examples
    ///
    /// ```
    /// let matcher = LookMatcher::new(UnicodeWord);
    /// assert!(rt; matcher.matches(Look::WordUnicodeNegate, "ab".as_bytes(), 1));
    /// // Between two bytes of one character neither it nor its counterpart holds.
    /// assert!(rt; !matcher.matches(Look::WordUnicodeNegate, "𝛃".as_bytes(), 2));
    /// assert!(rt; !matcher.matches(Look::WordUnicode, "𝛃".as_bytes(), 2));
    /// ```
    #[tactic(auto, using(crate::proofs::HoldsLemmas::agrees, crate::proofs::HoldsLemmas::invalid_before))]
    #[inline(never)]
    pub fn is_word_unicode_negate(
        &self,
        haystack: &[u8],
        at: usize,
    ) -> Result<bool, UnicodeWordBoundaryError>
        requires { at ≤ length haystack.now }
        ensures { IsOkAnd result (λ r. IsTrue r ↔ HoldsFor W.word_chars Look.WordUnicodeNegate self.now haystack.now at) }
    {
        let before = self.side_before(haystack, at);
        // A side whose bytes are no character is reason enough not to read the other one.
        if before.is_invalid() {
            return Ok(false);
        }
        let after = self.side_after(haystack, at);
        Ok(!after.is_invalid() & (before.is_word_character() == after.is_word_character()))
    }

    /// Whether a word byte is after the position, and none before it.
    #[inline(always)]
    pub fn is_word_start_ascii(&self, haystack: &[u8], at: usize) -> bool
        requires { at ≤ length haystack.now }
        ensures { IsTrue result ↔ HoldsFor W.word_chars Look.WordStartAscii self.now haystack.now at }
    {
        is_word_neighbor(byte_after(haystack, at)) & !is_word_neighbor(byte_before(haystack, at))
    }

    /// Whether a word byte is before the position, and none after it.
    #[inline(always)]
    pub fn is_word_end_ascii(&self, haystack: &[u8], at: usize) -> bool
        requires { at ≤ length haystack.now }
        ensures { IsTrue result ↔ HoldsFor W.word_chars Look.WordEndAscii self.now haystack.now at }
    {
        is_word_neighbor(byte_before(haystack, at)) & !is_word_neighbor(byte_after(haystack, at))
    }

    /// Whether a word character is after the position, and none before it.
    ///
    /// # Errors
    ///
    /// None: the tables of word characters are always there.
    #[inline(never)]
    pub fn is_word_start_unicode(
        &self,
        haystack: &[u8],
        at: usize,
    ) -> Result<bool, UnicodeWordBoundaryError>
        requires { at ≤ length haystack.now }
        ensures { IsOkAnd result (λ r. IsTrue r ↔ HoldsFor W.word_chars Look.WordStartUnicode self.now haystack.now at) }
    {
        let before = self.side_before(haystack, at);
        // Both sides are read: a branch on the first side alone is mispredicted too often.
        let after = self.side_after(haystack, at);
        Ok(after.is_word_character() & !before.is_word_character())
    }

    /// Whether a word character is before the position, and none after it.
    ///
    /// # Errors
    ///
    /// None: the tables of word characters are always there.
    #[inline(never)]
    pub fn is_word_end_unicode(
        &self,
        haystack: &[u8],
        at: usize,
    ) -> Result<bool, UnicodeWordBoundaryError>
        requires { at ≤ length haystack.now }
        ensures { IsOkAnd result (λ r. IsTrue r ↔ HoldsFor W.word_chars Look.WordEndUnicode self.now haystack.now at) }
    {
        let before = self.side_before(haystack, at);
        let after = self.side_after(haystack, at);
        Ok(before.is_word_character() & !after.is_word_character())
    }

    /// Whether no word byte is before the position.
    #[inline(always)]
    pub fn is_word_start_half_ascii(&self, haystack: &[u8], at: usize) -> bool
        requires { at ≤ length haystack.now }
        ensures { IsTrue result ↔ HoldsFor W.word_chars Look.WordStartHalfAscii self.now haystack.now at }
    {
        !is_word_neighbor(byte_before(haystack, at))
    }

    /// Whether no word byte is after the position.
    #[inline(always)]
    pub fn is_word_end_half_ascii(&self, haystack: &[u8], at: usize) -> bool
        requires { at ≤ length haystack.now }
        ensures { IsTrue result ↔ HoldsFor W.word_chars Look.WordEndHalfAscii self.now haystack.now at }
    {
        !is_word_neighbor(byte_after(haystack, at))
    }

    /// Whether the haystack begins at the position, or a character that is no word character ends there.
    ///
    /// # Errors
    ///
    /// None: the tables of word characters are always there.
    #[inline(never)]
    pub fn is_word_start_half_unicode(
        &self,
        haystack: &[u8],
        at: usize,
    ) -> Result<bool, UnicodeWordBoundaryError>
        requires { at ≤ length haystack.now }
        ensures { IsOkAnd result (λ r. IsTrue r ↔ HoldsFor W.word_chars Look.WordStartHalfUnicode self.now haystack.now at) }
    {
        Ok(self.side_before(haystack, at).is_absent_or_other())
    }

    /// Whether the haystack ends at the position, or a character that is no word character begins there.
    ///
    /// # Errors
    ///
    /// None: the tables of word characters are always there.
    #[inline(never)]
    pub fn is_word_end_half_unicode(
        &self,
        haystack: &[u8],
        at: usize,
    ) -> Result<bool, UnicodeWordBoundaryError>
        requires { at ≤ length haystack.now }
        ensures { IsOkAnd result (λ r. IsTrue r ↔ HoldsFor W.word_chars Look.WordEndHalfUnicode self.now haystack.now at) }
    {
        Ok(self.side_after(haystack, at).is_absent_or_other())
    }
}
