//! The matcher: where the assertions hold. Those about lines and those about words have a file each.
ghost use Rattle.std.specs.Prelude.{◌≡◌, ◌≤◌, ◌-◌, ◌↔◌, true, false, IsTrue, IfOk, IsOk, length};
ghost use Rattle.std.specs.FinSet as sets;
ghost use Rattle.rsc_primitives.specs.Utf8.{IsInside};
ghost use Rattle.rsc_look.specs.declared.assertion.Look.{Look};
ghost use Rattle.rsc_look.specs.Looks.{is_unicode, reversed, line_feed};
ghost use Rattle.rsc_look.specs.Holds.{HoldsFor, holds_at_bytes, byte_before, byte_after};
ghost use Rattle.rsc_look.specs.Mirrors.{mirror, IsTextMirrored};

use crate::{Look, LookSet, UnicodeWord, WordClass};
use std::alloc::AllocError;
use std::marker::Model;

mod holding;
mod lines;
mod words;

pub(crate) const LINE_FEED: u8 = b'\n';

pub(crate) const CARRIAGE_RETURN: u8 = b'\r';

/// Tests assertions at the positions of a haystack, for a line terminator and a word predicate.
///
/// A haystack is any list of bytes, UTF-8 or not. Every call that takes a position needs it to be at most the haystack's
/// length. A contract sees a matcher as the pair of its line terminator and its [`WordClass`].
///
/// # Examples
///
/// ```
/// let mut matcher = LookMatcher::new(UnicodeWord);
/// assert!(rt; matcher.matches(Look::StartLF, b"a\nb", 2));
/// matcher.set_line_terminator(0);
/// assert!(rt; !matcher.matches(Look::StartLF, b"a\nb", 2));
/// assert!(rt; matcher.matches(Look::EndLF, b"a\0", 1));
/// ```
#[derive(Debug, Drop)]
pub struct LookMatcher<W: WordClass> {
    line_terminator: u8,
    word_class: W,
}

impl<W: WordClass> Model for LookMatcher<W> {
    ghost use Rattle.std.specs.Prelude.{ℕ};

    ghost Value = { ℕ × W };

    ghost view = { λ m. (m.line_terminator, m.word_class) };
}

impl Default for LookMatcher<UnicodeWord> {
    ghost use Rattle.std.specs.Prelude.{◌≡◌};
    ghost use Rattle.rsc_look.specs.Looks.{line_feed};

    ghost is_default = { λ m. m.0 ≡ line_feed };

    fn default() -> Self {
        Self::new(UnicodeWord)
    }
}

impl<W: WordClass> LookMatcher<W> {
    /// A matcher whose line terminator is `\n`.
    #[inline]
    pub fn new(word_class: W) -> Self
        ensures { result ≡ (line_feed, word_class) }
    {
        LookMatcher {
            line_terminator: LINE_FEED,
            word_class,
        }
    }

    /// A matcher with the same line terminator, and a clone of the word predicate.
    ///
    /// # Errors
    ///
    /// `AllocError` only if the clone of the `WordClass` fails.
    pub fn clone(&self) -> Result<Self, AllocError>
    where
        W: Clone,
        ensures parts { IfOk result (λ m. (m.0 ≡ self.now.0) × W.is_clone self.now.1 m.1) }
        ensures same { ((v : W) → W.is_clone self.now.1 v → v ≡ self.now.1) → IfOk result (λ m. m ≡ self.now) }
        ensures accepted { W.is_infallible self.now.1 → IsOk result }
    {
        Ok(LookMatcher {
            line_terminator: self.line_terminator,
            word_class: self.word_class.clone()?,
        })
    }

    /// Makes a byte the line terminator, which the assertions `StartLF` and `EndLF` alone look for.
    #[inline]
    pub fn set_line_terminator(&mut self, byte: u8) -> &mut Self
        ensures value { result.now ≡ (byte, self.old.1) }
        ensures returned { result.ghost_name ≡ self.entry.ghost_name }
    {
        self.line_terminator = byte;
        self
    }

    /// The line terminator.
    #[inline]
    pub fn get_line_terminator(&self) -> u8
        ensures { result ≡ self.now.0 }
    {
        self.line_terminator
    }

    /// Whether an assertion holds at a position of a haystack.
    ///
    /// No Unicode assertion holds inside an encoded character. What an assertion about bytes says of a haystack, its reverse says
    /// of the haystack read from the other end, with `\r` and `\n` exchanged for the two that look at `\r\n`; what a Unicode
    /// assertion says of a text, its reverse says of the same characters in reverse.
    #[inline(always)]
    pub fn matches(&self, look: Look, haystack: &[u8], at: usize) -> bool
        requires { at ≤ length haystack.now }
        ensures value { IsTrue result ↔ HoldsFor W.word_chars look self.now haystack.now at }
        ensures bytes { is_unicode look ≡ false →
            result ≡ holds_at_bytes look self.now.0 (byte_before haystack.now at) (byte_after haystack.now at) }
        ensures inside { is_unicode look ≡ true → IsInside haystack.now at → result ≡ false }
        ensures mirrored { is_unicode look ≡ false →
            IsTrue result ↔ HoldsFor W.word_chars (reversed look) self.now (mirror look haystack.now) (length haystack.now - at) }
        ensures text_mirrored { is_unicode look ≡ true →
            IsTextMirrored look self.now.0 (W.word_chars self.now.1) haystack.now at (IsTrue result) }
    {
        self.holds_at(look, haystack, at)
    }

    // Whether an assertion holds, by its own call. The calls of the Unicode assertions are never inlined, so that this, which a
    // search asks at each byte, is small enough to be.
    #[inline(always)]
    fn holds_at(&self, look: Look, haystack: &[u8], at: usize) -> bool
        requires { at ≤ length haystack.now }
        ensures { IsTrue result ↔ HoldsFor W.word_chars look self.now haystack.now at }
    {
        match look {
            Look::Start => self.is_start(haystack, at),
            Look::End => self.is_end(haystack, at),
            Look::StartLF => self.is_start_lf(haystack, at),
            Look::EndLF => self.is_end_lf(haystack, at),
            Look::StartCRLF => self.is_start_crlf(haystack, at),
            Look::EndCRLF => self.is_end_crlf(haystack, at),
            Look::WordAscii => self.is_word_ascii(haystack, at),
            Look::WordAsciiNegate => self.is_word_ascii_negate(haystack, at),
            Look::WordUnicode => self.is_word_unicode(haystack, at).unwrap(),
            Look::WordUnicodeNegate => self.is_word_unicode_negate(haystack, at).unwrap(),
            Look::WordStartAscii => self.is_word_start_ascii(haystack, at),
            Look::WordEndAscii => self.is_word_end_ascii(haystack, at),
            Look::WordStartUnicode => self.is_word_start_unicode(haystack, at).unwrap(),
            Look::WordEndUnicode => self.is_word_end_unicode(haystack, at).unwrap(),
            Look::WordStartHalfAscii => self.is_word_start_half_ascii(haystack, at),
            Look::WordEndHalfAscii => self.is_word_end_half_ascii(haystack, at),
            Look::WordStartHalfUnicode => self.is_word_start_half_unicode(haystack, at).unwrap(),
            Look::WordEndHalfUnicode => self.is_word_end_half_unicode(haystack, at).unwrap(),
        }
    }

    /// Whether every assertion of a set holds at a position of a haystack; true if the set has no member.
    ///
    /// # Examples
    ///
    /// ```
    /// let matcher = LookMatcher::new(UnicodeWord);
    /// let empty_line = LookSet::singleton(Look::StartLF).insert(Look::EndLF);
    /// assert!(rt; matcher.matches_set(empty_line, b"a\n\nb", 2));
    /// assert!(rt; !matcher.matches_set(empty_line, b"a\n\nb", 1));
    /// ```
    #[inline(always)]
    pub fn matches_set(&self, set: LookSet, haystack: &[u8], at: usize) -> bool
        requires { at ≤ length haystack.now }
        ensures { IsTrue result ↔ ((look : Look) → sets.contains set look ≡ true →
            HoldsFor W.word_chars look self.now haystack.now at) }
    {
        for look in set.iter() {
            if !self.matches(look, haystack, at) {
                return false;
            }
        }
        true
    }
}
